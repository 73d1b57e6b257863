// Set-up: a fresh board has every word and keep-word 0, every process idle and no sequence open.
ghost use Rattle.std.specs.Prelude.{◌≡◌, List, ◌++◌, ℕ, ◌≤◌, length, replicate, drop, Result};
ghost use Rattle.rules.specs.Entry.{fresh_process, fresh_board, blank_board, set_up_rule};
ghost use Rattle.rules.specs.declared.Board.{Board};
ghost use Rattle.word.specs.declared.Refusal.{Refusal};

use crate::checks::sizes_check;
use form::words_used;
use rules::{Board, Kind, Place, Process, Settings};
use word::{Layout, Refusal};

fn fresh_process() -> Process
    ensures { result ≡ fresh_process }
{
    Process {
        place: Place::Idle,
        opened: 0,
        keep: [0; 16],
        values: [0; 4],
        gathered: [0; 4],
    }
}

fn fresh_board(s: Settings) -> Board
    ensures { result ≡ fresh_board s }
{
    Board {
        settings: s,
        processes: [fresh_process(); 16],
    }
}

// A board of no size, which every entry point refuses with 1.
pub fn blank_board() -> Board
    ensures { result ≡ blank_board }
{
    fresh_board(Settings {
        kind: Kind::One,
        n: 0,
        t: 0,
        w: 0,
        layout: Layout { bits: 0 },
    })
}

// The words used are 0, and those past them stay.
fn clear(used: usize, mem: &mut [u64])
    requires { used ≤ length mem.old }
    ensures { mem.new ≡ replicate used 0 ++ drop used mem.old }
{
    mem[..used].fill(0);
}

#[tactic(auto, using(rules::proofs::Refusals::Served::sizes_served), unfolding(rules::specs::Entry::set_up_rule))]
pub fn set_up(s: Settings, mem: &mut [u64]) -> Result<Board, Refusal>
    ensures { ◌≡◌ {A = Result Board Refusal × List ℕ} (result, mem.new) (set_up_rule s mem.old) }
{
    sizes_check(s, mem.len())?;
    clear(words_used(s), mem);
    Ok(fresh_board(s))
}
