// What a begin checks of a process and a call: refusals 5 to 8, in document 01's order. Three of these functions ask for
// `Sized s`, each to call the next: a type for that would be a second `Within` of `form`, for one method that uses the fact.
ghost use Rattle.std.specs.Prelude.{◌≡◌, ◌&&◌, ◌||◌, ◌<◌, nat_lt, ◌==◌};
ghost use Rattle.rules.specs.Bounds.{Sized};
ghost use Rattle.rules.specs.GoodForm.{value_fits};
ghost use Rattle.rules.specs.Processes.{is_idle};
ghost use Rattle.rules.specs.Refusals.{variable_of, lacks_sequence, all_blank, storable, values_right, call_check};

use form::value_fits;
use process::is_open;
use rules::{Call, Place, Process, Settings, Values};
use word::Refusal;

fn is_idle(place: Place) -> bool
    ensures { result ≡ is_idle place }
{
    matches!(place, Place::Idle)
}

fn variable_of(call: Call) -> usize
    ensures { result ≡ variable_of call }
{
    match call {
        Call::Load(x) | Call::Validate(x) | Call::Store(x) => x,
    }
}

// A validate or a store needs an open sequence.
fn lacks_sequence(call: Call, opened: u16) -> bool
    requires { variable_of call < 16 }
    ensures { result ≡ lacks_sequence call opened }
{
    match call {
        Call::Load(_) => false,
        Call::Validate(x) | Call::Store(x) => !is_open(opened, x),
    }
}

#[tactic(auto, unfolding(rules::specs::Refusals::all_blank, rules::specs::GoodForm::all))]
fn all_blank(values: Values) -> bool
    ensures { result ≡ all_blank values }
{
    values == [0; 4]
}

// A store's values: each may stand where it is.
fn storable(s: Settings, values: Values) -> bool
    requires { Sized s }
    ensures { result ≡ storable s values }
{
    values.iter().enumerate().all(|(i, value)| value_fits(s, *value) && (i < s.w || *value == 0))
}

// A load or a validate has no values.
fn values_right(s: Settings, call: Call, values: Values) -> bool
    requires { Sized s }
    ensures { result ≡ values_right s call values }
{
    match call {
        Call::Load(_) | Call::Validate(_) => all_blank(values),
        Call::Store(_) => storable(s, values),
    }
}

// The first of 5 to 8 that holds.
#[tactic(auto, unfolding(rules::specs::Refusals::call_check))]
pub(crate) fn call_check(s: Settings, p: Process, call: Call, values: Values) -> Result<(), Refusal>
    requires { Sized s }
    ensures { result ≡ call_check s p call values }
{
    if variable_of(call) >= s.t {
        return Err(Refusal::NoSuchVariable);
    }
    if !is_idle(p.place) {
        return Err(Refusal::CallInProgress);
    }
    if lacks_sequence(call, p.opened) {
        return Err(Refusal::NoOpenSequence);
    }
    if !values_right(s, call, values) {
        return Err(Refusal::ValueTooGreat);
    }
    Ok(())
}
