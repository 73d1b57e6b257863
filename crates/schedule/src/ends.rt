// The end of a run: its last row is written.
ghost use Rattle.std.specs.Prelude.{◌+◌, ◌-◌, ◌≤◌, length};
ghost use Rattle.printout.specs.Writing.{longest_row};
ghost use Rattle.word.specs.declared.Refusal.TheVariants.{TooManyRecords};
ghost use Rattle.answers.specs.Run.{most_records, nobodys_row};
ghost use Rattle.schedule.specs.Telling.{EndsWithRow};

use crate::gather::NOTHING;
use crate::{MOST_RECORDS, Session};
use answers::{Stage, nobodys_row};
use printout::{Row, put_row};
use word::Refusal;
use writing::Writer;

pub(crate) fn end_with(row: Row, session: Session, out: &mut Writer) -> Session
    requires { longest_row ≤ length out.old.bytes.now - out.old.len }
    ensures { EndsWithRow row session out.old result out.new }
{
    put_row(row, out);
    Session {
        stage: Stage::Over,
        held: NOTHING,
        ..session
    }
}

// 12: the record after the 1,000,000th has its row, and ends the run.
pub(crate) fn end_with_too_many(session: Session, out: &mut Writer) -> Session
    requires { longest_row ≤ length out.old.bytes.now - out.old.len }
    ensures { EndsWithRow (nobodys_row (most_records + 1) TooManyRecords) session out.old result out.new }
{
    end_with(
        nobodys_row(MOST_RECORDS + 1, Refusal::TooManyRecords),
        session,
        out,
    )
}
