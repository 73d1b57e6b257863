// The code of Figure 6's Copy, with document 01's mended line 6: a function for each place, which takes the step from
// there. The numbers are the figure's lines.
// What they ask of settings stands in each clause: a type that is within the sizes would ask more of public functions' callers.
#![tactic(auto)]

ghost use Rattle.std.specs.Prelude.{◌≡◌, ◌≤◌, ◌<◌, length};
ghost use Rattle.word.specs.Word.{value_of, value_limit};
ghost use Rattle.rules.specs.Bounds.{Sized};
ghost use Rattle.rules.specs.Figure4.{Step};
ghost use Rattle.rules.specs.Figure6.{reads_segment, reads_announced, swaps_segment, reads_segment_again, reads_header};
ghost use Rattle.rules.specs.Sizes.{bits, used_by};
ghost use Rattle.rules.specs.declared.Kind.TheVariants.{Many};

use gathered::{copy_cut_short, copy_on, saving};
use process::addresses::{announce_at, header_at, segment_at};
use process::goes_on;
use rules::{Answered, Copy, Place, Process, Settings};

mod gathered; // gathered.rt: what Copy does with a segment's value, and how it ends

// 2, 3: read the segment; is its tag the one before the header's?
#[tactic(auto, using(word::proofs::Laws::tag_lt))]
pub fn reads_segment(s: Settings, p: Process, c: Copy, mem: &[u64]) -> Answered<Process>
    requires { Sized s × (used_by Many s ≤ length mem.now) × (c.variable < s.t) × (c.segment < s.w) }
    ensures { result ≡ (reads_segment s p c mem.now).0 }
{
    let read = mem[segment_at(s, c.variable, c.segment)];
    let before = s.layout.previous_tag(s.layout.tag_of(c.header));
    let tag = s.layout.tag_of(read);
    if tag == before {
        goes_on(Place::ReadsAnnounced(c, read), p)
    } else {
        goes_on(Place::ReadsHeader(c, s.layout.value_of(read)), p)
    }
}

// 4: read the announced value of the header's process at this place.
pub fn reads_announced(
    s: Settings,
    p: Process,
    c: Copy,
    read: u64,
    mem: &[u64],
) -> Answered<Process>
    requires { Sized s × (used_by Many s ≤ length mem.now) × (value_of (bits s) c.header < s.n) × (c.segment < s.w) }
    ensures { result ≡ (reads_announced s p c read mem.now).0 }
{
    let announcer = s.layout.value_of(c.header);
    let announced = mem[announce_at(s, announcer as usize, c.segment)];
    goes_on(Place::SwapsSegment(c, read, announced), p)
}

// 5: compare-and-swap the segment from what was read to (header's tag, announced value). 6, mended: where the swap
// succeeded, that is the segment's content; where it failed, the segment is read again.
#[tactic(auto, using(word::proofs::Laws::tag_lt))]
pub fn swaps_segment(
    s: Settings,
    p: Process,
    c: Copy,
    read: u64,
    announced: u64,
    mem: &mut [u64],
) -> Answered<Process>
    requires { Sized s × (used_by Many s ≤ length mem.old) × (c.variable < s.t) × (c.segment < s.w) × (announced < value_limit (bits s)) }
    ensures { ◌≡◌ {A = Step} (result, mem.new) (swaps_segment s p c read announced mem.old) }
{
    let here = segment_at(s, c.variable, c.segment);
    if mem[here] == read {
        let tag = s.layout.tag_of(c.header);
        mem[here] = s.layout.word_of(tag, announced);
        goes_on(Place::ReadsHeader(c, announced), p)
    } else {
        goes_on(Place::ReadsSegmentAgain(c), p)
    }
}

// 6, mended: one step more.
pub fn reads_segment_again(s: Settings, p: Process, c: Copy, mem: &[u64]) -> Answered<Process>
    requires { Sized s × (used_by Many s ≤ length mem.now) × (c.variable < s.t) × (c.segment < s.w) }
    ensures { result ≡ (reads_segment_again s p c mem.now).0 }
{
    let again = mem[segment_at(s, c.variable, c.segment)];
    goes_on(Place::ReadsHeader(c, s.layout.value_of(again)), p)
}

// 7: read the header; does it differ from the one Copy was given?
pub fn reads_header(s: Settings, p: Process, c: Copy, value: u64, mem: &[u64]) -> Answered<Process>
    requires { Sized s × (used_by Many s ≤ length mem.now) × (c.variable < s.t) × (c.segment < s.w) }
    ensures { result ≡ (reads_header s p c value mem.now).0 }
{
    let header = mem[header_at(s, c.variable)];
    if header == c.header {
        copy_on(s, c, saving(c, value, p))
    } else {
        copy_cut_short(s, c, header, p)
    }
}
