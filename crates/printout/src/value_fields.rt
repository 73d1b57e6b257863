// The value fields of a row: which numbers of the answer stand in them, and their bytes with the line's end.
ghost use Rattle.std.specs.Prelude.{◌≡◌, ◌+◌, ◌≤◌, length, slice_get};
ghost use Rattle.rules.specs.Answers.{numbers_of};
ghost use Rattle.writing.specs.Line.{after_comma, rest};
ghost use Rattle.writing.specs.Put.{Puts};
ghost use Rattle.printout.specs.Row.{open_field, value_field, value_fields};

use record::at_most_four;
use rules::Answer;
use word::Refusal;
use writing::Writer;

// A number in its field, or a blank one.
pub(crate) fn put_optional(number: Option<u64>, out: &mut Writer)
    requires { out.old.len + length (after_comma (open_field number)) ≤ length out.old.bytes.now }
    ensures { Puts out.old (after_comma (open_field number)) out.new }
{
    match number {
        None => out.put(b","),
        Some(number) => out.put_number(number),
    }
}

fn nth(numbers: &[u64], k: usize) -> Option<u64>
    ensures { result ≡ slice_get numbers.now k }
{
    numbers.get(k).copied()
}

// Value field k.
#[tactic(auto, using(crate::proofs::Rows::shown))]
fn put_value(k: usize, numbers: &[u64], out: &mut Writer)
    requires { out.old.len + length (after_comma (value_field k numbers.now)) ≤ length out.old.bytes.now }
    ensures { Puts out.old (after_comma (value_field k numbers.now)) out.new }
{
    put_optional(nth(numbers, k), out);
}

// The four value fields and the line's end: four lines are no longer than a loop over them, which needs an invariant.
fn put_values(numbers: &[u64], out: &mut Writer)
    requires { out.old.len + length (rest (value_fields numbers.now)) ≤ length out.old.bytes.now }
    ensures { Puts out.old (rest (value_fields numbers.now)) out.new }
{
    put_value(0, numbers, out);
    put_value(1, numbers, out);
    put_value(2, numbers, out);
    put_value(3, numbers, out);
    out.put(b"\r\n");
}

// What follows the open count: the value fields with the answer's numbers, and the line's end.
pub(crate) fn put_numbers(answer: Result<Answer, Refusal>, w: usize, out: &mut Writer)
    requires { out.old.len + length (rest (value_fields (numbers_of w answer))) ≤ length out.old.bytes.now }
    ensures { Puts out.old (rest (value_fields (numbers_of w answer))) out.new }
{
    match answer {
        Ok(Answer::Value(values)) => put_values(&values[..at_most_four(w)], out),
        Ok(Answer::Witness(process)) => put_values(&[process], out),
        Err(refusal) => put_values(&[refusal.number()], out),
        Ok(Answer::Begun | Answer::Busy | Answer::Yes | Answer::No) => put_values(&[], out),
    }
}
