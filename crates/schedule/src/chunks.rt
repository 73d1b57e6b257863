// Bytes of the input fed to a run, as far as there is room for rows.
ghost use Rattle.std.specs.Prelude.{◌≡◌, ◌-◌, ◌≤◌, nat_lt, length};
ghost use Rattle.printout.specs.Writing.{longest_row};
ghost use Rattle.schedule.specs.Feeds.{Feeds};
ghost use Rattle.schedule.specs.Ready.{Ready};
ghost use Rattle.answers.specs.declared.Stage.TheVariants.{Waiting, Running};

use crate::ends::end_with_too_many;
use crate::gather::{Kept, NOTHING, gather};
use crate::setup::take_set_up;
use crate::{Fed, MOST_RECORDS, Session, running};
use answers::{answer, slot};
use printout::LONGEST_ROW;
use record::read_schedule;
use rules::Board;
use writing::Writer;

// There may be no room for another row.
pub(crate) fn is_full(out: &Writer) -> bool
    ensures { result ≡ nat_lt (length out.now.bytes.now - out.now.len) longest_row }
{
    out.room() < LONGEST_ROW
}

// A running session after some bytes.
fn fed_running(board: Board, count: u64, held: Kept, next: usize) -> Fed
    ensures { result ≡ record { session = record { stage = Running board; count = count; held = held }; next = next } }
{
    Fed {
        session: running(board, count, held),
        next,
    }
}

// Up to the end of the set-up record.
pub(crate) fn feed_set_up(
    session: Session,
    chunk: &[u8],
    at: usize,
    line: &mut [u8],
    mem: &mut [u64],
    out: &mut Writer,
) -> Fed
    requires { (session.stage ≡ Waiting) × Ready session line.old mem.old × (at ≤ length chunk.now)
        × (longest_row ≤ length out.old.bytes.now - out.old.len) }
    ensures { Feeds session chunk.now at line.old mem.old out.old
        result line.new mem.new out.new }
{
    let found = gather(session.held, chunk, at, line);
    let session = if found.closed {
        take_set_up(session, &line[..found.held.len], mem, out)
    } else {
        Session {
            held: found.held,
            ..session
        }
    };
    Fed {
        session,
        next: found.next,
    }
}

// The board stays where it is, and each record takes one process out of it and puts it back. How many bytes a turn takes
// `gather` says: no `for` goes over them.
#[tactic(auto, using(answers::proofs::OneProcess::all_sized))]
pub(crate) fn feed_running(
    mut board: Board,
    session: Session,
    chunk: &[u8],
    at: usize,
    line: &mut [u8],
    mem: &mut [u64],
    out: &mut Writer,
) -> Fed
    requires { (session.stage ≡ Running board) × Ready session line.old mem.old × (at ≤ length chunk.now) }
    ensures { Feeds session chunk.now at line.old mem.old out.old
        result line.new mem.new out.new }
{
    let s = board.settings;
    let mut count = session.count;
    let mut held = session.held;
    let mut next = at;
    while next < chunk.len() {
        if is_full(out) {
            return fed_running(board, count, held, next);
        }
        let found = gather(held, chunk, next, line);
        held = found.held;
        next = found.next;
        if found.closed {
            if count >= MOST_RECORDS {
                let session = end_with_too_many(running(board, count, held), out);
                return Fed { session, next };
            }
            let read = read_schedule(&line[..held.len], s.w);
            let me = slot(read, s.n);
            board.processes[me] = answer(count + 1, s, read, board.processes[me], mem, out);
            count += 1;
            held = NOTHING;
        }
    }
    fed_running(board, count, held, next)
}
