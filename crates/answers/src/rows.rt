// The rows of the printout: of a schedule record by the process that it moved, and of a refused set-up.
ghost use Rattle.std.specs.Prelude.{◌≡◌, true};
ghost use Rattle.rules.specs.GoodForm.{open_fits};
ghost use Rattle.answers.specs.Moves.{open_in, process_row, row_by};
ghost use Rattle.answers.specs.Run.{refused_row, set_up_row, call_act, nobodys_row};

use calls::sequences_open;
use printout::{Row, Who};
use record::{Act, Entry};
use rules::{Answered, Call, Process, Settings};
use word::Refusal;

// A refusal that moved no process.
fn refused_row(number: u64, who: Who, why: Refusal) -> Row
    ensures { result ≡ refused_row number who why }
{
    Row {
        number,
        who,
        answer: Err(why),
        open: None,
        w: 0,
    }
}

pub fn set_up_row(why: Refusal) -> Row
    ensures { result ≡ set_up_row why }
{
    refused_row(0, Who::SetUp, why)
}

// After 10, 11 and 12.
pub fn nobodys_row(number: u64, why: Refusal) -> Row
    ensures { result ≡ nobodys_row number why }
{
    refused_row(number, Who::Nobody, why)
}

// A `From` would be no plainer: it has the same arms, and `from_gives` for the clause.
fn call_act(call: Call) -> Act
    ensures { result ≡ call_act call }
{
    match call {
        Call::Load(_) => Act::Load,
        Call::Validate(_) => Act::Validate,
        Call::Store(_) => Act::Store,
    }
}

fn open_in(s: Settings, me: usize, p: Process) -> Option<u64>
    requires { open_fits s p.opened ≡ true }
    ensures { result ≡ open_in s me p }
{
    if me < s.n {
        return Some(u64::from(sequences_open(s, p.opened)));
    }
    None
}

fn process_row(number: u64, s: Settings, me: usize, act: Act, moved: Answered<Process>) -> Row
    requires { open_fits s moved.after.opened ≡ true }
    ensures { result ≡ process_row number s me act moved }
{
    Row {
        number,
        who: Who::Process(me as u64, act),
        answer: moved.answer,
        open: open_in(s, me, moved.after),
        w: s.w,
    }
}

pub(crate) fn row_by(
    number: u64,
    s: Settings,
    entry: Result<Entry, Refusal>,
    moved: Answered<Process>,
) -> Row
    requires { open_fits s moved.after.opened ≡ true }
    ensures { result ≡ row_by number s entry moved }
{
    match entry {
        Ok(Entry::Begin { process, call, .. }) => {
            process_row(number, s, process, call_act(call), moved)
        }
        Ok(Entry::Step(process)) => process_row(number, s, process, Act::Step, moved),
        Err(why) => nobodys_row(number, why),
    }
}
