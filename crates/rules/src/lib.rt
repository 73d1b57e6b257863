// The types that the rules speak of, in the forms that document 01 names. What is right is said in specs/: Figures 4
// and 6, good form, the refusals in their order, and the entry rules; this crate has no code of its own.
#![tactic(auto)]

use word::{Layout, Refusal};

#[derive(Clone, Copy, Debug, PartialEq, Eq)]
pub enum Kind {
    One,
    Many,
}

// N processes, T variables, W segments; the tag bits b stand in the layout.
#[derive(Clone, Copy, Debug, PartialEq, Eq)]
pub struct Settings {
    pub kind: Kind,
    pub n: usize,
    pub t: usize,
    pub w: usize,
    pub layout: Layout,
}

// Four values, of which a board uses the first W: memory is fixed, so the greatest W has room.
pub type Values = [u64; 4];

// A call of a variable. The values of a store lie beside it.
#[derive(Clone, Copy, Debug, PartialEq, Eq)]
pub enum Call {
    Load(usize),
    Validate(usize),
    Store(usize),
}

// Where Copy is: its variable, the header it was given, the segment, and whether it gathers values (in a load).
#[derive(Clone, Copy, Debug, PartialEq, Eq)]
pub struct Copy {
    pub variable: usize,
    pub header: u64,
    pub segment: usize,
    pub gathers: bool,
}

// Where a process stands in its call, named by the access that its next step makes.
#[derive(Clone, Copy, Debug, PartialEq, Eq)]
pub enum Place {
    Idle,
    // Figure 4, of a variable
    LoadReadsWord(usize),
    ValidateReadsWord(usize),
    StoreSwapsWord(usize),
    // Figure 6, of a variable
    LoadReadsHeader(usize),
    ValidateReadsHeader(usize),
    StoreReadsHeader(usize),
    // .. with the header read and the segment whose value is announced next
    StoreAnnounces(usize, u64, usize),
    StoreSwapsHeader(usize, u64),
    // Copy, with the word read, the announced value, and the segment's value
    ReadsSegment(Copy),
    ReadsAnnounced(Copy, u64),
    SwapsSegment(Copy, u64, u64),
    ReadsSegmentAgain(Copy),
    ReadsHeader(Copy, u64),
}

// One keep-word a variable; bit x of `opened` is set while the sequence on variable x is open. The mask stands beside the
// keep-words since document 01 names it.
#[derive(Clone, Copy, Debug, PartialEq, Eq)]
pub struct Process {
    pub place: Place,
    pub opened: u16,
    pub keep: [u64; 16],
    pub values: Values,
    pub gathered: Values,
}

// Sixteen processes, of which the first N take part: memory is fixed, so the greatest N has room.
#[derive(Clone, Copy, Debug, PartialEq, Eq)]
pub struct Board {
    pub settings: Settings,
    pub processes: [Process; 16],
}

// What a begin or a step answers where it is not refused.
#[derive(Clone, Copy, Debug, PartialEq, Eq)]
pub enum Answer {
    Begun,
    Busy,
    Value(Values),
    Witness(u64),
    Yes,
    No,
}

// A process or a board after a begin or a step, with the answer. A refusal leaves it as found.
#[derive(Clone, Copy, Debug, PartialEq, Eq)]
pub struct Answered<S> {
    pub after: S,
    pub answer: Result<Answer, Refusal>,
}
