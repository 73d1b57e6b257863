// Gathering a record in a lent line, from the bytes of a chunk, up to its closing CR LF.
ghost use Rattle.std.specs.Prelude.{◌≡◌, ◌==◌, ◌&&◌, ◌≤◌, length};
ghost use Rattle.schedule.specs.Feeds.{Gathers};
ghost use Rattle.schedule.specs.Gathering.{line_length, held_in, put};

use crate::LINE_LENGTH;

// What is held of the next record: how many bytes of it stand in the lent line, and whether its last byte was a CR. The line
// stays apart, since it is lent and a session goes by value.
#[derive(Clone, Copy, Debug, PartialEq, Eq)]
pub struct Kept {
    pub(crate) len: usize,
    pub(crate) cr: bool,
}

// Before a record's first byte.
pub(crate) const NOTHING: Kept = Kept { len: 0, cr: false };

// `closed` stands beside the others since they mean something either way: where the chunk ends first, the record goes on from
// what is held.
#[derive(Clone, Copy)]
pub struct Found {
    pub held: Kept,
    pub next: usize,
    pub closed: bool,
}

fn is_closing(byte: u8, cr: bool) -> bool
    ensures { result ≡ ((byte == 10) && cr) }
{
    byte == b'\n' && cr
}

#[tactic(auto, unfolding(crate::specs::Gathering::put))]
fn keep_byte(line: &mut [u8], held: Kept, byte: u8) -> Kept
    requires { (length line.old ≡ line_length) × (held.len ≤ line_length) }
    ensures { (held_in line.new result ≡ put (held_in line.old held) byte) × (result.len ≤ line_length) }
{
    let cr = byte == b'\r';
    if held.len < LINE_LENGTH {
        line[held.len] = byte;
        return Kept {
            len: held.len + 1,
            cr,
        };
    }
    Kept { cr, ..held }
}

// The bytes of the chunk from `at` on, until the record is closed or the chunk ends.
#[tactic(auto, using(crate::proofs::Gathering::gather_more, crate::proofs::Gathering::gather_end))]
pub(crate) fn gather(mut held: Kept, chunk: &[u8], at: usize, line: &mut [u8]) -> Found
    requires { (length line.old ≡ line_length) × (held.len ≤ line_length) × (at ≤ length chunk.now) }
    ensures { Gathers held chunk.now at line.old result line.new }
{
    for (i, &byte) in chunk[at..].iter().enumerate() {
        let closed = is_closing(byte, held.cr);
        held = keep_byte(line, held, byte);
        if closed {
            return Found {
                held,
                next: at + i + 1,
                closed: true,
            };
        }
    }
    Found {
        held,
        next: chunk.len(),
        closed: false,
    }
}
