// The code of Figure 6 of source document 001, many segments, but for its Copy: a function for each place, which takes
// the step from there. Here the load's and the validate's own places; the numbers are the figure's lines.
// What they ask of settings stands in each clause: a type that is within the sizes would ask more of public functions' callers.
#![tactic(auto)]

ghost use Rattle.std.specs.Prelude.{◌≡◌, ◌≤◌, ◌<◌, length};
ghost use Rattle.rules.specs.Bounds.{Sized};
ghost use Rattle.rules.specs.Figure6.{load_reads_header, validate_reads_header};
ghost use Rattle.rules.specs.Sizes.{used_by};
ghost use Rattle.rules.specs.declared.Kind.TheVariants.{Many};

use process::addresses::header_at;
use process::{ends, gathering_anew, goes_on, keeping, kept_of, opening};
use rules::{Answer, Answered, Copy, Place, Process, Settings};

pub mod store; // store.rt: the store's places, up to its Copy

// 10, 11, 12: read the header, keep its tag, then Copy with that header, gathering values; the sequence opens.
pub fn load_reads_header(s: Settings, p: Process, x: usize, mem: &[u64]) -> Answered<Process>
    requires { Sized s × (used_by Many s ≤ length mem.now) × (x < s.t) }
    ensures { result ≡ (load_reads_header s p x mem.now).0 }
{
    let header = mem[header_at(s, x)];
    let tag = s.layout.tag_of(header);
    let kept = keeping(x, tag, gathering_anew(p));
    let opened = opening(x, kept);
    let c = Copy {
        variable: x,
        header,
        segment: 0,
        gathers: true,
    };
    goes_on(Place::ReadsSegment(c), opened)
}

// 13: read the header; yes exactly if its tag is the kept one.
pub fn validate_reads_header(s: Settings, p: Process, x: usize, mem: &[u64]) -> Answered<Process>
    requires { Sized s × (used_by Many s ≤ length mem.now) × (x < s.t) }
    ensures { result ≡ (validate_reads_header s p x mem.now).0 }
{
    let header = mem[header_at(s, x)];
    let tag = s.layout.tag_of(header);
    if tag == kept_of(x, p) {
        ends(Ok(Answer::Yes), p)
    } else {
        ends(Ok(Answer::No), p)
    }
}
