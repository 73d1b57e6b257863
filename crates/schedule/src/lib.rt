// A run of the program from bytes in to bytes out: records are gathered across chunks, each is answered by the rules, and
// its row is written.
#![tactic(auto)]

ghost use Rattle.std.specs.Prelude.{◌≡◌, ◌-◌, ◌≤◌, length};
ghost use Rattle.writing.specs.Put.{SameLent};
ghost use Rattle.printout.specs.Writing.{Written, put_heading, longest_row};
ghost use Rattle.schedule.specs.Feeding.{feeding_to, session_of, is_over, finish_of};
ghost use Rattle.schedule.specs.Feeds.{Feeds};
ghost use Rattle.schedule.specs.Ready.{Ready};
ghost use Rattle.answers.specs.Run.{beginning_run};
ghost use Rattle.answers.specs.declared.Stage.TheVariants.{Running};

mod chunks; // chunks.rt: bytes of a chunk, as far as there is room for rows
mod ends; // ends.rt: the last row of a run
mod gather; // gather.rt: a record gathered in the lent line
mod setup; // setup.rt: the set-up record
mod take; // take.rt: one whole record

use answers::Stage;
use gather::{Kept, NOTHING};
use printout::put_heading;
use rules::Board;
use writing::Writer;

// Schedule records after this many are refused.
pub const MOST_RECORDS: u64 = 1000000;

// A record over 512 bytes is refused whatever it holds; the first 513 show that, and no more are kept.
pub const LINE_LENGTH: usize = 513;

// A run between two chunks. What is lent to it (line, words, output) stays apart, each by its own `&mut`: a caller has it back
// after each call, and a session goes by value. Only this crate makes one: so a caller has no other than `start`, `feed` and `finish` gave it.
#[derive(Clone, Copy, Debug, PartialEq, Eq)]
pub struct Session {
    stage: Stage,
    count: u64,
    held: Kept,
}

// A run after some bytes, and the place of the next byte.
#[derive(Clone, Copy, Debug, PartialEq, Eq)]
pub struct Fed {
    pub session: Session,
    pub next: usize,
}

// A run that waits for its set-up; the heading is written.
pub fn start(out: &mut Writer) -> Session
    ensures session { result ≡ session_of beginning_run }
    ensures written { ◌≡◌ {A = Written} (out.new.bytes.now, out.new.len) (put_heading out.old.bytes.now out.old.len) }
    ensures same { SameLent out.old out.new }
{
    put_heading(out);
    Session {
        stage: Stage::Waiting,
        count: 0,
        held: NOTHING,
    }
}

// A running session with its parts.
fn running(board: Board, count: u64, held: Kept) -> Session
    ensures { result ≡ record { stage = Running board; count = count; held = held } }
{
    Session {
        stage: Stage::Running(board),
        count,
        held,
    }
}

// Whether the run is over, so that the input is not looked at any more.
pub fn is_over(session: Session) -> bool
    ensures { result ≡ is_over session.stage }
{
    matches!(session.stage, Stage::Over)
}

// Bytes of the chunk from `at` on, until none is left, there is no room for another row, or the stage changes.
pub fn feed(
    session: Session,
    chunk: &[u8],
    at: usize,
    line: &mut [u8],
    mem: &mut [u64],
    out: &mut Writer,
) -> Fed
    requires { Ready session line.old mem.old × (at ≤ length chunk.now) }
    ensures { Feeds session chunk.now at line.old mem.old out.old
        result line.new mem.new out.new }
{
    if chunks::is_full(out) {
        return Fed { session, next: at };
    }
    match session.stage {
        Stage::Waiting => chunks::feed_set_up(session, chunk, at, line, mem, out),
        Stage::Running(board) => {
            chunks::feed_running(board, session, chunk, at, line, mem, out)
        },
        Stage::Over => Fed {
            session,
            next: chunk.len(),
        },
    }
}

// The input has ended: a last record without its pair is answered.
pub fn finish(session: Session, line: &[u8], mem: &mut [u64], out: &mut Writer) -> Session
    requires { Ready session line.now mem.old × (longest_row ≤ length out.old.bytes.now - out.old.len) }
    ensures fed { feeding_to result line.now mem.new out.new ≡ finish_of (feeding_to session line.now mem.old out.old) }
    ensures same { SameLent out.old out.new }
{
    let held = session.held.len;
    if held == 0 {
        return session;
    }
    take::take_record(session, &line[..held], mem, out)
}
