// Bytes and decimal numbers written into lent bytes, one after the other.
#![tactic(auto)]

mod decimal;
mod writer;

pub use writer::Writer;
