// The printout: its heading and its rows, written into lent bytes.
#![tactic(auto)]

mod row_fields;
mod value_fields;

ghost use Rattle.std.specs.Prelude.{◌≡◌};
ghost use Rattle.writing.specs.Put.{SameLent};
ghost use Rattle.printout.specs.Writing.{Written, put_row, put_heading};

use record::Act;
use row_fields::put_fields;
use rules::Answer;
use word::Refusal;
use writing::Writer;

// Whose record a row tells of: nobody's after 10, 11 and 12, the set-up, or a process with its act.
#[derive(Clone, Copy, Debug, PartialEq, Eq)]
pub enum Who {
    Nobody,
    SetUp,
    Process(u64, Act),
}

// Where there is no open count its field is blank. Of the values of a load the first `w` are printed, the board's W; it stands
// beside the answer, since an answer comes from the board as four values.
#[derive(Clone, Copy, Debug, PartialEq, Eq)]
pub struct Row {
    pub number: u64,
    pub who: Who,
    pub answer: Result<Answer, Refusal>,
    pub open: Option<u64>,
    pub w: usize,
}

// No row is longer.
pub const LONGEST_ROW: usize = 159;

const HEADING_LENGTH: usize = 40;

// Where there is no room for the longest row, nothing is written.
#[tactic(auto, using(crate::proofs::Longest::row_at_most))]
pub fn put_row(row: Row, out: &mut Writer)
    ensures written { ◌≡◌ {A = Written} (out.new.bytes.now, out.new.len) (put_row row out.old.bytes.now out.old.len) }
    ensures same { SameLent out.old out.new }
{
    if out.room() < LONGEST_ROW {
        return;
    }
    put_fields(row, out);
}

// Where there is no room for the heading, nothing is written.
pub fn put_heading(out: &mut Writer)
    ensures written { ◌≡◌ {A = Written} (out.new.bytes.now, out.new.len) (put_heading out.old.bytes.now out.old.len) }
    ensures same { SameLent out.old out.new }
{
    if out.room() < HEADING_LENGTH {
        return;
    }
    out.put(b"no,process,act,answer,open,v0,v1,v2,v3\r\n");
}
