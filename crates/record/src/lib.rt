// What the records of a schedule say: the first one the settings, each later one a call or a step.
#![tactic(auto)]

mod entries;
mod setup;
mod words;

pub use entries::{Entry, at_most_four, read_schedule};
pub use setup::read_settings;

// The acts of document 01: LL, VL, SC and step.
#[derive(Clone, Copy, Debug, PartialEq, Eq)]
pub enum Act {
    Load,
    Validate,
    Store,
    Step,
}
