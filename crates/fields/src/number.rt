// Numbers in fields: decimal, no sign, no leading zero but 0 itself, below 2^64.
ghost use Rattle.std.specs.Prelude.{◌≡◌, true};
ghost use Rattle.fields.specs.Number.{all_digits, zero_leads, value_from, value_case, number_in, number_of};
ghost use Rattle.fields.specs.Fields.{field_of};

use super::parts::field;

// Whether a zero stands before other digits: 0 itself does not begin with a leading zero.
#[tactic(auto, unfolding(crate::specs::Number::zero_leads))]
fn zero_leads(digits: &[u8]) -> bool
    ensures { result ≡ zero_leads digits.now }
{
    digits.len() >= 2 && digits[0] == b'0'
}

#[tactic(auto, unfolding(crate::specs::Number::all_digits))]
fn are_digits(bytes: &[u8]) -> bool
    ensures { result ≡ all_digits bytes.now }
{
    bytes.iter().all(|byte| byte.is_ascii_digit())
}

// The value that digits spell, if it is below 2^64.
#[tactic(auto, using(crate::proofs::Numbers::digits_read))]
fn value_of(digits: &[u8]) -> Option<u64>
    requires { all_digits digits.now ≡ true }
    ensures { result ≡ number_in (value_case (value_from 0 digits.now)) }
{
    let mut value: u64 = 0;
    for digit in digits {
        value = value
            .checked_mul(10)?
            .checked_add(u64::from(*digit - b'0'))?;
    }
    Some(value)
}

// The number in a field.
#[tactic(auto, unfolding(crate::specs::Number::number_of, crate::specs::Number::number_case))]
pub fn read_number(bytes: &[u8]) -> Option<u64>
    ensures { result ≡ number_of bytes.now }
{
    if bytes.is_empty() || zero_leads(bytes) || !are_digits(bytes) {
        return None;
    }
    value_of(bytes)
}

// The number in field k of a record.
#[tactic(auto, using(crate::proofs::FieldSpans::field_is_bytes))]
pub fn number_at(bytes: &[u8], k: usize) -> Option<u64>
    ensures { result ≡ number_of (field_of bytes.now k) }
{
    read_number(field(bytes, k))
}
