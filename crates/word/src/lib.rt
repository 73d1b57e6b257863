// The word layout: the tag in the upper b bits, the value in the lower 64 - b. The tag width is given once, with the
// layout; the value width is what is left of the word, and is said nowhere else.
#![tactic(auto)]

ghost use Rattle.std.specs.Prelude.{◌≡◌, ◌^◌, ◌<◌, ◌≤◌};
ghost use Rattle.word.specs.Word.{bits_fit, tag_limit, value_limit, word, tag_of, value_of, next_tag, previous_tag};
ghost use Rattle.word.specs.Packing.{pack_rule, unpack_rule};

mod numbers; // numbers.rt: the number of a refusal, and of any answer

pub use numbers::number_of;

// Document 01's refusals, each with its number.
#[derive(Clone, Copy, Debug, PartialEq, Eq)]
pub enum Refusal {
    SettingOutsideSizes = 1,
    MemoryTooShort = 2,
    NotInGoodForm = 3,
    NoSuchProcess = 4,
    NoSuchVariable = 5,
    CallInProgress = 6,
    NoOpenSequence = 7,
    ValueTooGreat = 8,
    ProcessIdle = 9,
    RecordNotInForm = 10,
    FieldNotInForm = 11,
    TooManyRecords = 12,
}

// What a word holds.
#[derive(Clone, Copy, Debug, PartialEq, Eq)]
pub struct Parts {
    pub tag: u64,
    pub value: u64,
}

#[derive(Clone, Copy, Debug, PartialEq, Eq)]
pub struct Layout {
    pub bits: u64,
}

// Widths here are below 64, so that the power fits a word.
fn power_of_two(exponent: u64) -> u64
    requires { exponent < 64 }
    ensures { result ≡ 2 ^ exponent }
{
    1 << exponent
}

// What needs tag bits that stand says so in its clause: a type for them would ask more of public functions' callers.
impl Layout {
    pub const LEAST_BITS: u64 = 4;

    pub const MOST_BITS: u64 = 48;

    pub const WORD_BITS: u64 = 64;

    // Tag bits b, 4 to 48.
    pub fn stands(self) -> bool
        ensures { result ≡ bits_fit self.bits }
    {
        Layout::LEAST_BITS <= self.bits && self.bits <= Layout::MOST_BITS
    }

    // The first number that is no tag.
    pub fn tag_limit(self) -> u64
        requires { (4 ≤ self.bits) × (self.bits ≤ 48) }
        ensures { result ≡ tag_limit self.bits }
    {
        power_of_two(self.bits)
    }

    // The first number that is no value.
    pub fn value_limit(self) -> u64
        requires { (4 ≤ self.bits) × (self.bits ≤ 48) }
        ensures { result ≡ value_limit self.bits }
    {
        power_of_two(Layout::WORD_BITS - self.bits)
    }

    #[tactic(auto, unfolding(crate::specs::Word::word))]
    pub fn word_of(self, tag: u64, value: u64) -> u64
        requires { (4 ≤ self.bits) × (self.bits ≤ 48) × (tag < tag_limit self.bits) × (value < value_limit self.bits) }
        ensures { result ≡ word self.bits tag value }
    {
        tag * self.value_limit() + value
    }

    #[tactic(auto, unfolding(crate::specs::Word::tag_of))]
    pub fn tag_of(self, w: u64) -> u64
        requires { (4 ≤ self.bits) × (self.bits ≤ 48) }
        ensures { result ≡ tag_of self.bits w }
    {
        w / self.value_limit()
    }

    #[tactic(auto, unfolding(crate::specs::Word::value_of))]
    pub fn value_of(self, w: u64) -> u64
        requires { (4 ≤ self.bits) × (self.bits ≤ 48) }
        ensures { result ≡ value_of self.bits w }
    {
        w % self.value_limit()
    }

    #[tactic(auto, using(crate::proofs::Laws::next_of))]
    pub fn next_tag(self, tag: u64) -> u64
        requires { (4 ≤ self.bits) × (self.bits ≤ 48) × (tag < tag_limit self.bits) }
        ensures { result ≡ next_tag self.bits tag }
    {
        tag.wrapping_add(1) % self.tag_limit()
    }

    #[tactic(auto, using(crate::proofs::Laws::previous_of))]
    pub fn previous_tag(self, tag: u64) -> u64
        requires { (4 ≤ self.bits) × (self.bits ≤ 48) × (tag < tag_limit self.bits) }
        ensures { result ≡ previous_tag self.bits tag }
    {
        tag.wrapping_sub(1) % self.tag_limit()
    }

    pub fn pack(self, tag: u64, value: u64) -> Result<u64, Refusal>
        ensures { result ≡ pack_rule self.bits tag value }
    {
        if !self.stands() {
            return Err(Refusal::SettingOutsideSizes);
        }
        if tag >= self.tag_limit() {
            return Err(Refusal::ValueTooGreat);
        }
        if value >= self.value_limit() {
            return Err(Refusal::ValueTooGreat);
        }
        Ok(self.word_of(tag, value))
    }

    pub fn unpack(self, w: u64) -> Result<Parts, Refusal>
        ensures { result ≡ unpack_rule self.bits w }
    {
        if !self.stands() {
            return Err(Refusal::SettingOutsideSizes);
        }
        Ok(Parts {
            tag: self.tag_of(w),
            value: self.value_of(w),
        })
    }
}
