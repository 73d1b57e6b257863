// The later records of a schedule: process, act, variable, four values. A step has only the first two; LL and VL the
// first three; SC the first W values too.
ghost use Rattle.std.specs.Prelude.{◌≡◌, ◌≤◌, min};
ghost use Rattle.fields.specs.Fields.{field_of};
ghost use Rattle.fields.specs.Number.{number_of};
ghost use Rattle.record.specs.Entries.{values_read, step_of, call_of, rest_of, entry_in, schedule_of};

use super::Act;
use super::words::read_act;
use fields::{blank_from, field, in_form, number_at};
use rules::{Call, Values};
use word::Refusal;

// What a record asks for. Values that are not given are 0.
#[derive(Clone, Copy, Debug, PartialEq, Eq)]
pub enum Entry {
    Begin {
        process: usize,
        call: Call,
        values: Values,
    },
    Step(usize),
}

const FIRST_VALUE: usize = 3;

// A record and a row have no more than four values, whatever W is given.
pub fn at_most_four(w: usize) -> usize
    ensures { result ≡ min w 4 }
{
    w.min(4)
}

// The first `count` values, if each of them is in form.
#[tactic(auto, using(crate::proofs::Values::values_so_far))]
fn read_values(bytes: &[u8], count: usize) -> Option<Values>
    requires { count ≤ 4 }
    ensures { result ≡ values_read bytes.now count }
{
    let mut values = [0; 4];
    // By number, since a value's place is that of its field.
    for i in 0..count {
        values[i] = number_at(bytes, FIRST_VALUE + i)?;
    }
    Some(values)
}

// A step, which has no variable and no values.
#[tactic(auto, unfolding(crate::specs::Entries::step_of))]
fn read_step(bytes: &[u8], process: usize) -> Option<Entry>
    ensures { result ≡ step_of bytes.now process }
{
    if !blank_from(bytes, 2) {
        return None;
    }
    Some(Entry::Step(process))
}

// A call with its `count` values.
#[tactic(auto, unfolding(crate::specs::Entries::call_of))]
fn read_call(bytes: &[u8], process: usize, call: Call, count: usize) -> Option<Entry>
    requires { count ≤ 4 }
    ensures { result ≡ call_of bytes.now process call count }
{
    let values = read_values(bytes, count)?;
    if !blank_from(bytes, FIRST_VALUE + count) {
        return None;
    }
    Some(Entry::Begin {
        process,
        call,
        values,
    })
}

fn variable_in(bytes: &[u8]) -> Option<usize>
    ensures { result ≡ number_of (field_of bytes.now 2) }
{
    Some(number_at(bytes, 2)? as usize)
}

// What the fields after the act say.
fn read_rest(bytes: &[u8], act: Act, process: usize, w: usize) -> Option<Entry>
    ensures { result ≡ rest_of bytes.now act process w }
{
    match act {
        Act::Load => read_call(bytes, process, Call::Load(variable_in(bytes)?), 0),
        Act::Validate => read_call(bytes, process, Call::Validate(variable_in(bytes)?), 0),
        Act::Store => {
            let call = Call::Store(variable_in(bytes)?);
            read_call(bytes, process, call, at_most_four(w))
        }
        Act::Step => read_step(bytes, process),
    }
}

// What the fields say, if each is in form.
#[tactic(auto, using(fields::proofs::FieldSpans::field_is_bytes), unfolding(crate::specs::Entries::entry_in))]
fn entry_in(bytes: &[u8], w: usize) -> Option<Entry>
    ensures { result ≡ entry_in bytes.now w }
{
    let process = number_at(bytes, 0)? as usize;
    let act = read_act(field(bytes, 1))?;
    read_rest(bytes, act, process, w)
}

// What a schedule record says on a board of W segments.
#[tactic(auto, unfolding(crate::specs::Entries::schedule_of))]
pub fn read_schedule(bytes: &[u8], w: usize) -> Result<Entry, Refusal>
    ensures { result ≡ schedule_of bytes.now w }
{
    if !in_form(bytes) {
        return Err(Refusal::RecordNotInForm);
    }
    entry_in(bytes, w).ok_or(Refusal::FieldNotInForm)
}
