// The first record of a schedule: N, kind, T, b, W, two blanks.
ghost use Rattle.std.specs.Prelude.{◌≡◌};
ghost use Rattle.record.specs.Setup.{settings_from, settings_of};

use super::words::read_kind;
use fields::{blank_from, field, in_form, number_at};
use rules::Settings;
use word::{Layout, Refusal};

// The settings as given, if each field is in form: whether they are within the sizes is not judged here.
#[tactic(auto, using(fields::proofs::FieldSpans::field_is_bytes), unfolding(crate::specs::Setup::settings_from))]
fn settings_from(bytes: &[u8]) -> Option<Settings>
    ensures { result ≡ settings_from bytes.now }
{
    let n = number_at(bytes, 0)? as usize;
    let kind = read_kind(field(bytes, 1))?;
    let t = number_at(bytes, 2)? as usize;
    let bits = number_at(bytes, 3)?;
    let w = number_at(bytes, 4)? as usize;
    if !blank_from(bytes, 5) {
        return None;
    }
    Some(Settings {
        kind,
        n,
        t,
        w,
        layout: Layout { bits },
    })
}

// What the first record says. `read_schedule` has the same two refusals: a function for them would take the reading as a closure.
#[tactic(auto, unfolding(crate::specs::Setup::settings_of))]
pub fn read_settings(bytes: &[u8]) -> Result<Settings, Refusal>
    ensures { result ≡ settings_of bytes.now }
{
    if !in_form(bytes) {
        return Err(Refusal::RecordNotInForm);
    }
    settings_from(bytes).ok_or(Refusal::FieldNotInForm)
}
