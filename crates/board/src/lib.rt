// The entry points of a board: set-up, begin, step and open count, over every input. None has a `requires`: what cannot
// be served is refused, by document 01's number and in its order, and is left as found.
#![tactic(auto)]

ghost use Rattle.std.specs.Prelude.{◌≡◌, List, ℕ, ◌<◌};
ghost use Rattle.rules.specs.Entry.{laid_back, begin_rule, step_rule, open_count_rule};
ghost use Rattle.rules.specs.declared.Answered.{Answered};
ghost use Rattle.rules.specs.declared.Board.{Board};

use calls::{begin_process, sequences_open};
use checks::process_check;
use process::refusing;
use rules::{Answered, Board, Call, Process, Values};
use steps::process_step;
use word::Refusal;

mod checks; // checks.rt: refusals 1 to 4, of a board
mod fresh; // fresh.rt: set-up, and the blank board

pub use fresh::{blank_board, set_up};

// A process moved, laid back into its board.
fn put_back(board: Board, me: usize, moved: Answered<Process>) -> Answered<Board>
    requires { me < 16 }
    ensures { result ≡ laid_back board me moved }
{
    let mut after = board;
    after.processes[me] = moved.after;
    Answered {
        after,
        answer: moved.answer,
    }
}

// Process me begins a call. The words are read for the checks.
#[tactic(auto, using(rules::proofs::Refusals::Served::served, calls::proofs::Served::begin_served, rules::proofs::Refusals::Refusing::begin_refused_first))]
pub fn begin(board: Board, me: usize, call: Call, values: Values, mem: &[u64]) -> Answered<Board>
    ensures { result ≡ begin_rule board me call values mem.now }
{
    match process_check(board, me, mem) {
        Ok(()) => {
            let moved = begin_process(board.settings, board.processes[me], call, values);
            put_back(board, me, moved)
        }
        Err(refusal) => refusing(board, refusal),
    }
}

// Process me takes a step: one access to a shared word.
#[tactic(auto, using(rules::proofs::Refusals::Served::served, rules::proofs::Refusals::OneProcess::step_served, rules::proofs::Refusals::Refusing::step_refused_first))]
pub fn step(board: Board, me: usize, mem: &mut [u64]) -> Answered<Board>
    ensures { ◌≡◌ {A = Answered Board × List ℕ} (result, mem.new) (step_rule board me mem.old) }
{
    match process_check(board, me, &mem[..]) {
        Ok(()) => {
            let moved = process_step(board.settings, board.processes[me], me, mem);
            put_back(board, me, moved)
        }
        Err(refusal) => refusing(board, refusal),
    }
}

// The number of variables on which process me has a sequence open.
#[tactic(auto, using(rules::proofs::Refusals::Served::served), unfolding(rules::specs::Entry::open_count_rule))]
pub fn open_count(board: Board, me: usize, mem: &[u64]) -> Result<u32, Refusal>
    ensures { result ≡ open_count_rule board me mem.now }
{
    process_check(board, me, mem)?;
    let p = board.processes[me];
    Ok(sequences_open(board.settings, p.opened))
}
