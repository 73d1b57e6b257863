// The families of damage. A case's number is read digit by digit, each digit one choice; a choice of damage has its
// undamaged neighbour beside it. Boards have two processes and three variables, tags of 8 bits, and W of 1 or 2.
use crate::places::{places, process_at};
use rules::{Kind, Place, Process, Settings, Values};
use word::Layout;

// The first number that is no value, at 8 tag bits.
const VALUES: u64 = 72057594037927936;

const KINDS: [Kind; 2] = [Kind::One, Kind::Many];

// Settings at and past their ends: N or T, b, W.
const COUNTS: [usize; 5] = [0, 1, 16, 17, usize::MAX];

const TAG_BITS: [u64; 6] = [0, 3, 4, 48, 49, u64::MAX];

const SEGMENTS: [usize; 6] = [0, 1, 2, 4, 5, usize::MAX];

// What is handed to the entry points: a fresh board of the settings, with one process put in and one word written, and
// so many words lent; then a process, a variable and four values.
#[derive(Clone, Copy)]
pub struct Case {
    pub settings: Settings,
    pub at: usize,
    pub process: Process,
    pub address: usize,
    pub word: u64,
    pub lent: usize,
    pub me: usize,
    pub variable: usize,
    pub values: Values,
}

// What a family damages, or hands over wrong.
#[derive(Clone, Copy)]
pub(crate) enum Family {
    Places(Kind),
    Held,
    Opened,
    Kept,
    Carried,
    Words,
    Sizes,
    Lent,
    Numbers,
    Calls,
}

impl Family {
    pub(crate) fn case(self, k: usize) -> Case {
        match self {
            Family::Places(kind) => placed(kind, k),
            Family::Held => held(k),
            Family::Opened => opened(k),
            Family::Kept => kept(k),
            Family::Carried => carried(k),
            Family::Words => words(k),
            Family::Sizes => sizes(k),
            Family::Lent => lent(k),
            Family::Numbers => numbers(k),
            Family::Calls => calls(k),
        }
    }
}

fn settings(kind: Kind, n: usize, t: usize, bits: u64, w: usize) -> Settings {
    Settings {
        kind,
        n,
        t,
        w,
        layout: Layout { bits },
    }
}

// Two processes and three variables, with one segment or two.
fn small(kind: Kind) -> Settings {
    match kind {
        Kind::One => settings(kind, 2, 3, 8, 1),
        Kind::Many => settings(kind, 2, 3, 8, 2),
    }
}

// Undamaged: process 0 begins or steps, on variable 0, with value 1.
fn sound(settings: Settings) -> Case {
    Case {
        settings,
        at: 0,
        process: process_at(Place::Idle, 1),
        address: 159,
        word: 0,
        lent: 160,
        me: 0,
        variable: 0,
        values: [1, 0, 0, 0],
    }
}

fn with_process(settings: Settings, at: usize, process: Process) -> Case {
    Case {
        at,
        process,
        ..sound(settings)
    }
}

// Each place, at each variable below T, at T and beyond the mask, with every sequence open or none.
fn placed(kind: Kind, k: usize) -> Case {
    let x = [0, 2, 3, 17][k / 14 % 4];
    let place = places(x, 1, 0, 0)[k % 14];
    let opened = [0, 7][k / 56 % 2];
    with_process(small(kind), 0, process_at(place, opened))
}

// Places that hold a header, a segment or a value.
fn held(k: usize) -> Case {
    let header = [1, 2, VALUES - 1][k / 7 % 3];
    let i = [0, 1, 2, usize::MAX][k / 21 % 4];
    let value = [VALUES - 1, VALUES][k / 84 % 2];
    let place = places(1, header, i, value)[k % 7 + 7];
    with_process(small(Kind::Many), 0, process_at(place, 7))
}

// Open sequences, of a process that is looked at or of one past N.
fn opened(k: usize) -> Case {
    let mask = [1, 4, 8, 32768, 65535, 7][k / 2 % 6];
    with_process(
        small(KINDS[k % 2]),
        k / 12 % 3,
        process_at(Place::Idle, mask),
    )
}

// Keep-words of each variable, of those from T on too.
fn kept(k: usize) -> Case {
    let mut process = process_at(Place::Idle, 1);
    process.keep[k / 2 % 16] = [255, 256, u64::MAX][k / 32 % 3];
    with_process(small(KINDS[k % 2]), k / 96 % 3, process)
}

// Values and gathered values.
fn carried(k: usize) -> Case {
    let i = k / 4 % 4;
    let value = [VALUES - 1, VALUES][k / 16 % 2];
    let mut process = process_at(Place::Idle, 1);
    if k / 2 % 2 == 0 {
        process.values[i] = value;
    } else {
        process.gathered[i] = value;
    }
    with_process(small(KINDS[k % 2]), k / 32 % 3, process)
}

// Each word used, and two past them.
fn words(k: usize) -> Case {
    Case {
        address: k / 2 % 15,
        word: [1, 2, VALUES - 1, VALUES][k / 30 % 4],
        ..sound(small(KINDS[k % 2]))
    }
}

// One setting at a time, at and past its ends.
fn sizes(k: usize) -> Case {
    let kind = KINDS[k % 2];
    let code = k / 2 % 22;
    sound(match code {
        0..5 => settings(kind, COUNTS[code], 3, 8, 1),
        5..10 => settings(kind, 2, COUNTS[code - 5], 8, 1),
        10..16 => settings(kind, 2, 3, TAG_BITS[code - 10], 1),
        _ => settings(kind, 2, 3, 8, SEGMENTS[code - 16]),
    })
}

// Words lent, around the words used: none, one less and one more than those, as many, and all.
fn lent(k: usize) -> Case {
    let kind = KINDS[k % 2];
    let (s, used) = match (k / 2 % 2, kind) {
        (0, Kind::One) => (small(kind), 3),
        (0, Kind::Many) => (small(kind), 13),
        (_, Kind::One) => (settings(kind, 16, 16, 8, 1), 16),
        (_, Kind::Many) => (settings(kind, 16, 16, 8, 4), 144),
    };
    Case {
        lent: [0, used - 1, used, used + 1, 160][k / 4 % 5],
        ..sound(s)
    }
}

// Process numbers, on a board in good form and on one that is not.
fn numbers(k: usize) -> Case {
    let mask = [1, 65535][k / 2 % 2];
    Case {
        me: [0, 1, 2, 15, 16, usize::MAX][k / 4 % 6],
        ..with_process(small(KINDS[k % 2]), 0, process_at(Place::Idle, mask))
    }
}

// Calls: the variable, the process idle or in a call, its sequences, and the values.
fn calls(k: usize) -> Case {
    let kind = KINDS[k % 2];
    let mask = [0, 7][k / 2 % 2];
    let place = match (k / 4 % 2, kind) {
        (0, _) => Place::Idle,
        (_, Kind::One) => Place::LoadReadsWord(0),
        (_, Kind::Many) => Place::LoadReadsHeader(0),
    };
    Case {
        variable: [0, 2, 3, usize::MAX][k / 8 % 4],
        values: [
            [0, 0, 0, 0],
            [VALUES - 1, 0, 0, 0],
            [VALUES, 0, 0, 0],
            [0, 1, 0, 0],
            [0, 0, 1, 0],
        ][k / 32 % 5],
        ..with_process(small(kind), 0, process_at(place, mask))
    }
}
