// A schedule record answered on the one process that it moves, and its row written. What each record prints, and so the
// printout of a whole input, stands in this crate's specs.
#![tactic(auto)]

ghost use Rattle.std.specs.Prelude.{◌-◌, ◌≤◌, length};
ghost use Rattle.rules.specs.Bounds.{Sized};
ghost use Rattle.rules.specs.Sizes.{words_used};
ghost use Rattle.rules.specs.InForm.{Sound, Clean};
ghost use Rattle.printout.specs.Writing.{longest_row};
ghost use Rattle.answers.specs.Answering.{Answers};

mod moves; // moves.rt: the process after the record
mod rows; // rows.rt: the rows of the printout

use moves::moves;
pub use moves::slot;
use printout::put_row;
use record::Entry;
use rows::row_by;
pub use rows::{nobodys_row, set_up_row};
use rules::{Board, Process, Settings};
use word::Refusal;
use writing::Writer;

// A run waits for its set-up, runs on its board, or is over.
#[derive(Clone, Copy, Debug, PartialEq, Eq)]
pub enum Stage {
    Waiting,
    Running(Board),
    Over,
}

#[tactic(auto, using(rules::proofs::GoodForm::Held::in_form_lem))]
pub fn answer(
    number: u64,
    s: Settings,
    entry: Result<Entry, Refusal>,
    p: Process,
    mem: &mut [u64],
    out: &mut Writer,
) -> Process
    requires { Sized s × (words_used s ≤ length mem.old) × Sound s p × Clean s mem.old
        × (longest_row ≤ length out.old.bytes.now - out.old.len) }
    ensures { Answers number s entry p mem.old out.old result mem.new out.new }
{
    let moved = moves(s, entry, p, mem);
    put_row(row_by(number, s, entry, moved), out);
    moved.after
}
