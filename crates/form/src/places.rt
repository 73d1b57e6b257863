// Good form of a place: it is one the kind has, its variable is below T and its segment below W, its sequence is open
// where the call needs one, a held header names a process below N, and a held value fits.
ghost use Rattle.std.specs.Prelude.{◌≡◌, if◌then◌else◌};
ghost use Rattle.rules.specs.Bounds.{Sized};
ghost use Rattle.rules.specs.GoodForm.{value_fits, one_place, many_place, one_place_open, many_place_open, header_held, segment_held, copy_held, value_held, place_fits};
ghost use Rattle.rules.specs.Sizes.{is_one};

use crate::within::Within;
use process::is_open;
use rules::{Copy, Kind, Place, Settings};

pub fn value_fits(s: Settings, value: u64) -> bool
    requires { Sized s }
    ensures { result ≡ value_fits s value }
{
    Within { s }.value_fits(value)
}

impl Within {
    // The place is one of the kind's, and its variable is below T.
    #[tactic(auto, unfolding(rules::specs::GoodForm::one_place, rules::specs::GoodForm::many_place))]
    fn place_of(self, kind: Kind, x: usize) -> bool
        ensures { result ≡ (if is_one kind then one_place self.s x else many_place self.s x) }
    {
        self.s.kind == kind && x < self.s.t
    }

    // .. and its sequence is open.
    #[tactic(auto, unfolding(rules::specs::GoodForm::one_place, rules::specs::GoodForm::many_place, rules::specs::GoodForm::one_place_open, rules::specs::GoodForm::many_place_open))]
    fn place_open(self, kind: Kind, opened: u16, x: usize) -> bool
        ensures { result ≡ (if is_one kind then one_place_open self.s opened x else many_place_open self.s opened x) }
    {
        self.place_of(kind, x) && is_open(opened, x)
    }

    #[tactic(auto, unfolding(rules::specs::GoodForm::header_held))]
    fn header_held(self, opened: u16, x: usize, header: u64) -> bool
        ensures { result ≡ header_held self.s opened x header }
    {
        self.place_open(Kind::Many, opened, x) && self.names(header)
    }

    #[tactic(auto, unfolding(rules::specs::GoodForm::segment_held))]
    fn segment_held(self, opened: u16, x: usize, header: u64, i: usize) -> bool
        ensures { result ≡ segment_held self.s opened x header i }
    {
        self.header_held(opened, x, header) && i < self.s.w
    }

    fn copy_held(self, opened: u16, c: Copy) -> bool
        ensures { result ≡ copy_held self.s opened c }
    {
        self.segment_held(opened, c.variable, c.header, c.segment)
    }

    #[tactic(auto, unfolding(rules::specs::GoodForm::value_held))]
    fn value_held(self, opened: u16, c: Copy, value: u64) -> bool
        ensures { result ≡ value_held self.s opened c value }
    {
        self.copy_held(opened, c) && self.value_fits(value)
    }

    pub(crate) fn place_fits(self, opened: u16, place: Place) -> bool
        ensures { result ≡ place_fits self.s opened place }
    {
        match place {
            Place::Idle => true,
            Place::LoadReadsWord(x) => self.place_of(Kind::One, x),
            Place::ValidateReadsWord(x) | Place::StoreSwapsWord(x) => {
                self.place_open(Kind::One, opened, x)
            }
            Place::LoadReadsHeader(x) => self.place_of(Kind::Many, x),
            Place::ValidateReadsHeader(x) | Place::StoreReadsHeader(x) => {
                self.place_open(Kind::Many, opened, x)
            }
            Place::StoreAnnounces(x, header, i) => self.segment_held(opened, x, header, i),
            Place::StoreSwapsHeader(x, header) => self.header_held(opened, x, header),
            Place::ReadsSegment(c) | Place::ReadsAnnounced(c, _) | Place::ReadsSegmentAgain(c) => {
                self.copy_held(opened, c)
            }
            Place::SwapsSegment(c, _, value) | Place::ReadsHeader(c, value) => {
                self.value_held(opened, c, value)
            }
        }
    }
}
