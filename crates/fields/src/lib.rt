// A record by RFC 4180: its form, its fields as parts of it, and the numbers in them. A record is handed in with its
// closing CR LF where it has one, at any length.
#![tactic(auto)]

mod number;
mod parts;
mod shape;
mod spans;

pub use number::{number_at, read_number};
pub use parts::{blank_from, field};
pub use shape::{body, body_length, in_form};
pub use spans::{Span, field_span};
