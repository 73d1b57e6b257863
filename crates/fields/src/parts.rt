// The fields of a record, each handed on as the part of the record that it occupies.
ghost use Rattle.std.specs.Prelude.{◌≡◌};
ghost use Rattle.fields.specs.Spans.{span_of, PartAt};
ghost use Rattle.fields.specs.Blanks.{blank_from};

use super::shape::FIELDS;
use super::spans::{Span, field_span};

// Field k, from 0: the part of the record between two commas. Past the last field: an empty part at the body's end.
#[tactic(auto, using(crate::proofs::FieldSpans::span_forward, crate::proofs::FieldSpans::span_within))]
pub fn field(bytes: &[u8], k: usize) -> &[u8]
    ensures { PartAt (span_of bytes.now k) bytes.entry result }
{
    let Span { start, end } = field_span(bytes, k);
    &bytes[start..end]
}

// Whether all fields from `from` on are blank.
pub fn blank_from(bytes: &[u8], from: usize) -> bool
    ensures { result ≡ blank_from bytes.now from }
{
    (from..FIELDS).all(|k| field(bytes, k).is_empty())
}
