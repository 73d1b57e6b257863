// Boards damaged in one thing, and their undamaged neighbours, handed to every entry point: 1,180 boards, of which 432 are
// refused 1, 2 or 3. A line for each says which refusals it met; the first write that fails ends the run. What must stand in
// `stdout` is made by docs/src/damage_expected.py.
#![tactic(auto)]

mod cases; // cases.rt: the families of damage
mod places; // places.rt: a process at each place
mod run; // run.rt: a case handed to every entry point

use cases::Family;
use rules::Kind;
use std::io;

// Each family, and how many cases it has; its number is its place here.
const FAMILIES: [(Family, usize); 11] = [
    (Family::Places(Kind::One), 112),
    (Family::Places(Kind::Many), 112),
    (Family::Held, 168),
    (Family::Opened, 36),
    (Family::Kept, 288),
    (Family::Carried, 96),
    (Family::Words, 120),
    (Family::Sizes, 44),
    (Family::Lent, 20),
    (Family::Numbers, 24),
    (Family::Calls, 160),
];

// The cases of a family, in order; `f` is the number that their lines begin with.
fn cases_of(rt: HostRuntime, f: usize, family: Family, count: usize) -> io::Result<()> {
    for k in 0..count {
        run::run(rt, f, k, family.case(k))?;
    }
    Ok(())
}

fn main(rt: HostRuntime) -> io::Result<()> {
    for (f, &(family, count)) in FAMILIES.iter().enumerate() {
        cases_of(rt, f, family, count)?;
    }
    Ok(())
}
