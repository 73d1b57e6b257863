// A process changed in one thing, by value, and what a step makes of it. The rules give each change its meaning, under
// the same name.
#![tactic(auto)]

ghost use Rattle.std.specs.Prelude.{◌≡◌, ◌<◌};
ghost use Rattle.rules.specs.Processes.{is_open, with_open, with_closed, at, opening, closing, keeping, kept_of, gathering, gathering_anew, goes_on, ends, refusing};

use rules::{Answer, Answered, Place, Process};
use word::Refusal;

pub mod addresses; // addresses.rt: where the shared words of kind `many` lie

// Bit x of the mask of open sequences.
pub fn is_open(mask: u16, x: usize) -> bool
    requires { x < 16 }
    ensures { result ≡ is_open mask x }
{
    (mask >> x) % 2 == 1
}

#[tactic(auto, using(crate::proofs::Bits::bit_set))]
fn with_open(mask: u16, x: usize) -> u16
    requires { x < 16 }
    ensures { result ≡ with_open mask x }
{
    mask | (1 << x)
}

#[tactic(auto, using(crate::proofs::Bits::bit_cleared))]
fn with_closed(mask: u16, x: usize) -> u16
    requires { x < 16 }
    ensures { result ≡ with_closed mask x }
{
    mask & !(1 << x)
}

fn at_place(place: Place, p: Process) -> Process
    ensures { result ≡ at place p }
{
    Process { place, ..p }
}

pub fn opening(x: usize, p: Process) -> Process
    requires { x < 16 }
    ensures { result ≡ opening x p }
{
    Process {
        opened: with_open(p.opened, x),
        ..p
    }
}

pub fn closing(x: usize, p: Process) -> Process
    requires { x < 16 }
    ensures { result ≡ closing x p }
{
    Process {
        opened: with_closed(p.opened, x),
        ..p
    }
}

pub fn keeping(x: usize, kept: u64, mut p: Process) -> Process
    requires { x < 16 }
    ensures { result ≡ keeping x kept p }
{
    p.keep[x] = kept;
    p
}

pub fn kept_of(x: usize, p: Process) -> u64
    requires { x < 16 }
    ensures { result ≡ kept_of x p }
{
    p.keep[x]
}

pub fn gathering(i: usize, value: u64, mut p: Process) -> Process
    requires { i < 4 }
    ensures { result ≡ gathering i value p }
{
    p.gathered[i] = value;
    p
}

pub fn gathering_anew(p: Process) -> Process
    ensures { result ≡ gathering_anew p }
{
    Process {
        gathered: [0; 4],
        ..p
    }
}

// The call goes on at a place.
pub fn goes_on(place: Place, p: Process) -> Answered<Process>
    ensures { result ≡ goes_on place p }
{
    Answered {
        after: at_place(place, p),
        answer: Ok(Answer::Busy),
    }
}

// The last step of a call gives its answer, and makes its process idle.
pub fn ends(answer: Result<Answer, Refusal>, p: Process) -> Answered<Process>
    ensures { result ≡ ends answer p }
{
    Answered {
        after: at_place(Place::Idle, p),
        answer,
    }
}

// A refusal leaves a process, or a board, as found.
pub fn refusing<S: Copy>(state: S, refusal: Refusal) -> Answered<S>
    ensures { result ≡ refusing state refusal }
{
    Answered {
        after: state,
        answer: Err(refusal),
    }
}
