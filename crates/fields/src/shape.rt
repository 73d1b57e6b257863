// The form of a record (refusal 10), and its body: the record without the pair that closes it.
ghost use Rattle.std.specs.Prelude.{◌≡◌, ◌&&◌, ◌+◌, ◌==◌};
ghost use Rattle.fields.specs.Form.{closed, body_length, stray, no_stray, commas, in_form};
ghost use Rattle.fields.specs.Spans.{body_span, PartAt};

// A record with its closing pair has at most so many bytes.
const MOST_BYTES: usize = 512;

// A record has so many fields.
pub(crate) const FIELDS: usize = 7;

// Whether a record ends in the closing pair.
#[tactic(auto, using(crate::proofs::Splits::closed_ends))]
fn is_closed(bytes: &[u8]) -> bool
    ensures { result ≡ closed bytes.now }
{
    bytes.ends_with(b"\r\n")
}

// Where the body ends; it starts with the record.
#[tactic(auto, using(crate::proofs::Splits::closed_two), unfolding(crate::specs::Form::body_length))]
pub fn body_length(bytes: &[u8]) -> usize
    ensures { result ≡ body_length bytes.now }
{
    if is_closed(bytes) {
        bytes.len() - 2
    } else {
        bytes.len()
    }
}

// A record without its closing pair.
#[tactic(auto, using(crate::proofs::FieldSpans::body_taken))]
pub fn body(bytes: &[u8]) -> &[u8]
    ensures { PartAt (body_span bytes.now) bytes.entry result }
{
    &bytes[..body_length(bytes)]
}

// What no body may hold: a quote mark, a CR, an LF.
fn is_stray(byte: u8) -> bool
    ensures { result ≡ stray byte }
{
    matches!(byte, b'"' | b'\r' | b'\n')
}

// Whether a body holds nothing stray and one comma fewer than fields. In one pass: `all` and `filter` with `count` make
// two, and every record of a run is looked at, which took measurably longer.
#[tactic(auto, using(crate::proofs::Splits::stray_at))]
fn body_in_form(inside: &[u8]) -> bool
    ensures { result ≡ no_stray inside.now && (commas inside.now + 1 == 7) }
{
    let mut found = 0;
    for byte in inside {
        if is_stray(*byte) {
            return false;
        }
        if *byte == b',' {
            found += 1;
        }
    }
    found + 1 == FIELDS
}

// Whether a record escapes refusal 10.
#[tactic(auto, using(crate::proofs::FieldSpans::body_bytes), unfolding(crate::specs::Form::in_form))]
pub fn in_form(bytes: &[u8]) -> bool
    ensures { result ≡ in_form bytes.now }
{
    bytes.len() <= MOST_BYTES && body_in_form(body(bytes))
}
