// A schedule record answered on the one process that it moves, where the board is in good form. Three functions ask for that
// in their clauses, each to call the next: a type for it would be made in `answer` to be taken apart in the last.
ghost use Rattle.std.specs.Prelude.{◌≡◌, true, List, ℕ, ◌≤◌, ◌<◌, length};
ghost use Rattle.rules.specs.Bounds.{Sized};
ghost use Rattle.rules.specs.Figure4.{Step};
ghost use Rattle.rules.specs.GoodForm.{process_fits};
ghost use Rattle.rules.specs.Sizes.{words_used};
ghost use Rattle.answers.specs.Moves.{slot_in, slot_of, begins, steps, move_of};

use calls::begin_process;
use process::refusing;
use record::Entry;
use rules::{Answered, Call, Process, Settings, Values};
use steps::process_step;
use word::Refusal;

fn slot_in(me: usize, n: usize) -> usize
    requires { 1 ≤ n }
    ensures { (result ≡ slot_in me n) × (result < n) }
{
    if me < n { me } else { 0 }
}

// The process that a record moves; the first where it moves none.
pub fn slot(entry: Result<Entry, Refusal>, n: usize) -> usize
    requires { 1 ≤ n }
    ensures { (result ≡ slot_of entry n) × (result < n) }
{
    match entry {
        Ok(Entry::Begin { process, .. } | Entry::Step(process)) => slot_in(process, n),
        Err(_) => 0,
    }
}

fn begins(s: Settings, me: usize, call: Call, values: Values, p: Process) -> Answered<Process>
    requires { Sized s }
    ensures { result ≡ begins s me call values p }
{
    if me < s.n {
        return begin_process(s, p, call, values);
    }
    refusing(p, Refusal::NoSuchProcess)
}

fn steps(s: Settings, me: usize, p: Process, mem: &mut [u64]) -> Answered<Process>
    requires { Sized s × (words_used s ≤ length mem.old) × (process_fits s p ≡ true) }
    ensures { ◌≡◌ {A = Step} (result, mem.new) (steps s me p mem.old) }
{
    if me < s.n {
        return process_step(s, p, me, mem);
    }
    refusing(p, Refusal::NoSuchProcess)
}

// The process after a record, with the answer.
pub(crate) fn moves(
    s: Settings,
    entry: Result<Entry, Refusal>,
    p: Process,
    mem: &mut [u64],
) -> Answered<Process>
    requires { Sized s × (words_used s ≤ length mem.old) × (process_fits s p ≡ true) }
    ensures { ◌≡◌ {A = Step} (result, mem.new) (move_of s entry p mem.old) }
{
    match entry {
        Ok(
            Entry::Begin {
                process,
                call,
                values,
            },
        ) => begins(s, process, call, values, p),
        Ok(Entry::Step(process)) => steps(s, process, p, mem),
        Err(refusal) => refusing(p, refusal),
    }
}
