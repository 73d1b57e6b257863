// A process at each place.
use rules::{Copy, Place, Process};

// Each place, in their order, at a variable and with what the place holds; from the eighth on those that hold more than the
// variable.
pub(crate) fn places(x: usize, header: u64, i: usize, value: u64) -> [Place; 14] {
    let c = Copy {
        variable: x,
        header,
        segment: i,
        gathers: true,
    };
    [
        Place::Idle,
        Place::LoadReadsWord(x),
        Place::ValidateReadsWord(x),
        Place::StoreSwapsWord(x),
        Place::LoadReadsHeader(x),
        Place::ValidateReadsHeader(x),
        Place::StoreReadsHeader(x),
        Place::StoreAnnounces(x, header, i),
        Place::StoreSwapsHeader(x, header),
        Place::ReadsSegment(c),
        Place::ReadsAnnounced(c, 0),
        Place::SwapsSegment(c, 0, value),
        Place::ReadsSegmentAgain(c),
        Place::ReadsHeader(c, value),
    ]
}

// A process there, with these sequences open and every number 0: spelled out, as a caller from outside would.
pub(crate) fn process_at(place: Place, opened: u16) -> Process {
    Process {
        place,
        opened,
        keep: [0; 16],
        values: [0; 4],
        gathered: [0; 4],
    }
}
