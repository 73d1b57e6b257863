// What Figure 6's Copy does with a segment's value once the header was read again, and how Copy ends. One
// function here asks for `Sized`, so a type for it would serve none but that.
ghost use Rattle.std.specs.Prelude.{◌≡◌, ◌<◌, Ok};
ghost use Rattle.rules.specs.Bounds.{Sized};
ghost use Rattle.rules.specs.Figure6.{saving, copy_through, copy_on, copy_cut_short};
ghost use Rattle.rules.specs.Processes.{closing, ends};
ghost use Rattle.rules.specs.declared.Answer.TheVariants.{Yes};

use process::{closing, ends, gathering, goes_on};
use rules::{Answer, Answered, Copy, Place, Process, Settings};

// 8: a load saves the segment's value; a store gathers nothing.
pub(crate) fn saving(c: Copy, value: u64, p: Process) -> Process
    requires { c.segment < 4 }
    ensures { result ≡ saving c value p }
{
    if c.gathers {
        gathering(c.segment, value, p)
    } else {
        p
    }
}

// 20, 21: a store whose header was swapped answers yes in any case, and its sequence closes.
fn store_ends(c: Copy, p: Process) -> Answered<Process>
    requires { c.variable < 16 }
    ensures { result ≡ ends (Ok Yes) (closing c.variable p) }
{
    ends(Ok(Answer::Yes), closing(c.variable, p))
}

// 9, 12: Copy is through: a load answers the values gathered.
fn copy_through(c: Copy, p: Process) -> Answered<Process>
    requires { c.variable < 16 }
    ensures { result ≡ copy_through c p }
{
    if c.gathers {
        ends(Ok(Answer::Value(p.gathered)), p)
    } else {
        store_ends(c, p)
    }
}

// 1: the next segment, or the end.
pub(crate) fn copy_on(s: Settings, c: Copy, p: Process) -> Answered<Process>
    requires { (c.variable < 16) × (c.segment < s.w) }
    ensures { result ≡ copy_on s c p }
{
    if c.segment + 1 < s.w {
        let next = Copy {
            segment: c.segment + 1,
            ..c
        };
        goes_on(Place::ReadsSegment(next), p)
    } else {
        copy_through(c, p)
    }
}

// 7: the header differs: a load ends with the process named in the header just read as witness; a store yes in any case.
pub(crate) fn copy_cut_short(s: Settings, c: Copy, header: u64, p: Process) -> Answered<Process>
    requires { Sized s × (c.variable < 16) }
    ensures { result ≡ copy_cut_short s c header p }
{
    if c.gathers {
        ends(Ok(Answer::Witness(s.layout.value_of(header))), p)
    } else {
        store_ends(c, p)
    }
}
