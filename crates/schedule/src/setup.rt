// The set-up record answered: an accepted one prints nothing, a refused one its row, and ends the run.
ghost use Rattle.std.specs.Prelude.{◌-◌, ◌≤◌, length, Ok};
ghost use Rattle.printout.specs.Writing.{longest_row};
ghost use Rattle.schedule.specs.Telling.{Tells};
ghost use Rattle.schedule.specs.Feeding.{run_of};
ghost use Rattle.answers.specs.Run.{by_settings, set_up_told};

use crate::ends::end_with;
use crate::gather::NOTHING;
use crate::{Session, running};
use answers::set_up_row;
use board::set_up;
use record::read_settings;
use rules::Settings;
use writing::Writer;

// What a set-up makes of settings in form. The refused row stands here and below, where the settings are not: one match for
// both would hand the words on through a closure.
fn set_up_board(session: Session, s: Settings, mem: &mut [u64], out: &mut Writer) -> Session
    requires { longest_row ≤ length out.old.bytes.now - out.old.len }
    ensures { Tells (by_settings (run_of session mem.old) (Ok s)) out.old result mem.new out.new }
{
    match set_up(s, mem) {
        Ok(board) => running(board, 0, NOTHING),
        Err(why) => end_with(set_up_row(why), session, out),
    }
}

#[tactic(auto, unfolding(answers::specs::Run::set_up_told))]
pub(crate) fn take_set_up(
    session: Session,
    bytes: &[u8],
    mem: &mut [u64],
    out: &mut Writer,
) -> Session
    requires { longest_row ≤ length out.old.bytes.now - out.old.len }
    ensures { Tells (set_up_told (run_of session mem.old) bytes.now) out.old result mem.new out.new }
{
    match read_settings(bytes) {
        Ok(s) => set_up_board(session, s, mem, out),
        Err(why) => end_with(set_up_row(why), session, out),
    }
}
