// Figure 6's store, up to its Copy: it reads the header, writes its announce row, and swaps the header.
// What they ask of settings stands in each clause: a type that is within the sizes would ask more of public functions' callers,
// and `new_header`, alone beside them, needs none.
ghost use Rattle.std.specs.Prelude.{◌≡◌, ◌≤◌, ◌<◌, length};
ghost use Rattle.rules.specs.Bounds.{Sized};
ghost use Rattle.rules.specs.Figure4.{Step};
ghost use Rattle.rules.specs.Figure6.{store_reads_header, store_announces, new_header, store_swaps_header};
ghost use Rattle.rules.specs.Sizes.{used_by};
ghost use Rattle.rules.specs.declared.Kind.TheVariants.{Many};

use process::addresses::{announce_at, header_at};
use process::{closing, ends, goes_on, kept_of};
use rules::{Answer, Answered, Copy, Place, Process, Settings};

// 14, 15: read the header; if its tag is not the kept one, no, and the sequence closes.
pub fn store_reads_header(s: Settings, p: Process, x: usize, mem: &[u64]) -> Answered<Process>
    requires { Sized s × (used_by Many s ≤ length mem.now) × (x < s.t) }
    ensures { result ≡ (store_reads_header s p x mem.now).0 }
{
    let header = mem[header_at(s, x)];
    let tag = s.layout.tag_of(header);
    if tag != kept_of(x, p) {
        return ends(Ok(Answer::No), closing(x, p));
    }
    goes_on(Place::StoreAnnounces(x, header, 0), p)
}

// 16, 17: write the values into the own announce row, one a step.
pub fn store_announces(
    s: Settings,
    p: Process,
    me: usize,
    x: usize,
    header: u64,
    i: usize,
    mem: &mut [u64],
) -> Answered<Process>
    requires { Sized s × (used_by Many s ≤ length mem.old) × (me < s.n) × (i < s.w) }
    ensures { ◌≡◌ {A = Step} (result, mem.new) (store_announces s p me x header i mem.old) }
{
    mem[announce_at(s, me, i)] = p.values[i];
    if i + 1 < s.w {
        goes_on(Place::StoreAnnounces(x, header, i + 1), p)
    } else {
        goes_on(Place::StoreSwapsHeader(x, header), p)
    }
}

// 18: the next tag of the header read, and the own number.
#[tactic(auto, using(word::proofs::Laws::tag_lt))]
fn new_header(s: Settings, me: usize, header: u64) -> u64
    requires { Sized s × (me < s.n) }
    ensures { result ≡ new_header s me header }
{
    let old = s.layout.tag_of(header);
    let next = s.layout.next_tag(old);
    s.layout.word_of(next, me as u64)
}

// 19, 20: compare-and-swap the header from the one read; if that fails, no; else Copy with the new header.
pub fn store_swaps_header(
    s: Settings,
    p: Process,
    me: usize,
    x: usize,
    header: u64,
    mem: &mut [u64],
) -> Answered<Process>
    requires { Sized s × (used_by Many s ≤ length mem.old) × (me < s.n) × (x < s.t) }
    ensures { ◌≡◌ {A = Step} (result, mem.new) (store_swaps_header s p me x header mem.old) }
{
    let at = header_at(s, x);
    if mem[at] == header {
        let new = new_header(s, me, header);
        mem[at] = new;
        let c = Copy {
            variable: x,
            header: new,
            segment: 0,
            gathers: false,
        };
        goes_on(Place::ReadsSegment(c), p)
    } else {
        ends(Ok(Answer::No), closing(x, p))
    }
}
