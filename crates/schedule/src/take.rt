// One whole record answered: the set-up, a schedule record, or, when the run is over, nothing. That there is room
// for a row each clause asks anew, since a writer has it only until the row is put.
ghost use Rattle.std.specs.Prelude.{◌-◌, ◌≤◌, ◌<◌, length};
ghost use Rattle.printout.specs.Writing.{longest_row};
ghost use Rattle.schedule.specs.Telling.{Tells};
ghost use Rattle.schedule.specs.Feeding.{run_of};
ghost use Rattle.answers.specs.Order.{InOrder, OrderIn};
ghost use Rattle.answers.specs.Run.{most_records, by_entry, schedule_told, record_told};

use crate::ends::end_with_too_many;
use crate::gather::NOTHING;
use crate::setup::take_set_up;
use crate::{MOST_RECORDS, Session, running};
use answers::{Stage, answer, slot};
use record::{Entry, read_schedule};
use rules::Board;
use word::Refusal;
use writing::Writer;

// The loop of `feed_running` does the same with the board where it is; handed over and back at each record, the program took
// some three times as long.
#[tactic(auto, using(answers::proofs::OneProcess::all_sized))]
fn take_read(
    mut board: Board,
    session: Session,
    read: Result<Entry, Refusal>,
    mem: &mut [u64],
    out: &mut Writer,
) -> Session
    requires { InOrder board mem.old × (session.count < most_records) × (longest_row ≤ length out.old.bytes.now - out.old.len) }
    ensures { Tells (by_entry board (run_of session mem.old) read) out.old result mem.new out.new }
{
    let s = board.settings;
    let me = slot(read, s.n);
    let count = session.count + 1;
    board.processes[me] = answer(count, s, read, board.processes[me], mem, out);
    running(board, count, NOTHING)
}

#[tactic(auto, unfolding(answers::specs::Run::schedule_told))]
fn take_schedule(
    board: Board,
    session: Session,
    bytes: &[u8],
    mem: &mut [u64],
    out: &mut Writer,
) -> Session
    requires { InOrder board mem.old × (longest_row ≤ length out.old.bytes.now - out.old.len) }
    ensures { Tells (schedule_told board (run_of session mem.old) bytes.now) out.old result mem.new out.new }
{
    if session.count < MOST_RECORDS {
        let read = read_schedule(bytes, board.settings.w);
        return take_read(board, session, read, mem, out);
    }
    end_with_too_many(session, out)
}

#[tactic(auto, unfolding(answers::specs::Run::record_told))]
pub(crate) fn take_record(
    session: Session,
    bytes: &[u8],
    mem: &mut [u64],
    out: &mut Writer,
) -> Session
    requires { OrderIn session.stage mem.old × (longest_row ≤ length out.old.bytes.now - out.old.len) }
    ensures { Tells (record_told (run_of session mem.old) bytes.now) out.old result mem.new out.new }
{
    match session.stage {
        Stage::Waiting => take_set_up(session, bytes, mem, out),
        Stage::Running(board) => take_schedule(board, session, bytes, mem, out),
        Stage::Over => Session {
            held: NOTHING,
            ..session
        },
    }
}
