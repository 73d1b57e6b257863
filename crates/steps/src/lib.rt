// A call's first place, and the step that a process in good form takes from each place: a match on its
// case, which holds what the step needs, as document 01 names the form.
// What a step asks of settings stands in each clause: a type that is within the sizes would ask more of public functions' callers.
#![tactic(auto)]

ghost use Rattle.std.specs.Prelude.{◌≡◌, true, ◌≤◌, ◌<◌, length};
ghost use Rattle.rules.specs.Bounds.{Sized};
ghost use Rattle.rules.specs.Figure4.{Step};
ghost use Rattle.rules.specs.GoodForm.{process_fits};
ghost use Rattle.rules.specs.Sizes.{words_used};
ghost use Rattle.rules.specs.Steps.{first_place, beginning, process_step};

use copy::{reads_announced, reads_header, reads_segment, reads_segment_again, swaps_segment};
use many::store::{store_announces, store_reads_header, store_swaps_header};
use many::{load_reads_header, validate_reads_header};
use one::{load_reads_word, store_swaps_word, validate_reads_word};
use process::refusing;
use rules::{Answered, Call, Kind, Place, Process, Settings, Values};
use word::Refusal;

pub fn first_place(kind: Kind, call: Call) -> Place
    ensures { result ≡ first_place kind call }
{
    match (kind, call) {
        (Kind::One, Call::Load(x)) => Place::LoadReadsWord(x),
        (Kind::One, Call::Validate(x)) => Place::ValidateReadsWord(x),
        (Kind::One, Call::Store(x)) => Place::StoreSwapsWord(x),
        (Kind::Many, Call::Load(x)) => Place::LoadReadsHeader(x),
        (Kind::Many, Call::Validate(x)) => Place::ValidateReadsHeader(x),
        (Kind::Many, Call::Store(x)) => Place::StoreReadsHeader(x),
    }
}

// Beginning a call touches no shared word; the values given lie in the process.
pub fn beginning(s: Settings, call: Call, values: Values, p: Process) -> Process
    ensures { result ≡ beginning s call values p }
{
    Process {
        place: first_place(s.kind, call),
        values,
        ..p
    }
}

// One step: me is the process's own number. An idle process takes none.
pub fn process_step(s: Settings, p: Process, me: usize, mem: &mut [u64]) -> Answered<Process>
    requires { Sized s × (words_used s ≤ length mem.old) × (me < s.n) × (process_fits s p ≡ true) }
    ensures { ◌≡◌ {A = Step} (result, mem.new) (process_step s p me mem.old) }
{
    match p.place {
        Place::Idle => refusing(p, Refusal::ProcessIdle),
        Place::LoadReadsWord(x) => load_reads_word(s, p, x, &mem[..]),
        Place::ValidateReadsWord(x) => validate_reads_word(s, p, x, &mem[..]),
        Place::StoreSwapsWord(x) => store_swaps_word(s, p, x, mem),
        Place::LoadReadsHeader(x) => load_reads_header(s, p, x, &mem[..]),
        Place::ValidateReadsHeader(x) => validate_reads_header(s, p, x, &mem[..]),
        Place::StoreReadsHeader(x) => store_reads_header(s, p, x, &mem[..]),
        Place::StoreAnnounces(x, header, i) => store_announces(s, p, me, x, header, i, mem),
        Place::StoreSwapsHeader(x, header) => store_swaps_header(s, p, me, x, header, mem),
        Place::ReadsSegment(c) => reads_segment(s, p, c, &mem[..]),
        Place::ReadsAnnounced(c, read) => reads_announced(s, p, c, read, &mem[..]),
        Place::SwapsSegment(c, read, announced) => swaps_segment(s, p, c, read, announced, mem),
        Place::ReadsSegmentAgain(c) => reads_segment_again(s, p, c, &mem[..]),
        Place::ReadsHeader(c, value) => reads_header(s, p, c, value, &mem[..]),
    }
}
