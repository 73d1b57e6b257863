// Where the fields of a record lie, told by value: from which byte of it to which.
ghost use Rattle.std.specs.Prelude.{◌≡◌};
ghost use Rattle.fields.specs.Spans.{start_of, to_comma, span_of};

use super::shape::body;

// From byte `start` on, to the one before byte `end`.
#[derive(Clone, Copy, PartialEq, Eq, Debug)]
pub struct Span {
    pub start: usize,
    pub end: usize,
}

// Where part k starts: past the k-th comma, or at the end. Byte by byte: from comma to comma by `to_comma` took measurably
// longer on schedules, whose fields are short.
#[tactic(auto, using(crate::proofs::FieldSpans::starts))]
fn start_of(inside: &[u8], k: usize) -> usize
    ensures { result ≡ start_of inside.now k }
{
    let mut left = k;
    for (i, byte) in inside.iter().enumerate() {
        if left == 0 {
            return i;
        }
        if *byte == b',' {
            left -= 1;
        }
    }
    inside.len()
}

// How many bytes stand before the first comma: all, where there is none.
fn to_comma(rest: &[u8]) -> usize
    ensures { result ≡ to_comma rest.now }
{
    rest.iter().take_while(|byte| **byte != b',').count()
}

// Where field k lies, from 0.
#[tactic(auto, using(crate::proofs::FieldSpans::made))]
pub fn field_span(bytes: &[u8], k: usize) -> Span
    ensures { result ≡ span_of bytes.now k }
{
    let inside = body(bytes);
    let start = start_of(inside, k);
    let end = start + to_comma(&inside[start..]);
    Span { start, end }
}
