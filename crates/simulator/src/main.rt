// The program: a schedule read from standard input to its end, and its printout written to standard output. Contracts say that
// of each read all bytes are taken, once and in order (`turn`), that reads go on to the end of the input or of the run, and that
// as many bytes are taken as were read; that what is put into the output is written before another stands in its place, and
// so that, where no write failed, as many bytes were written as the printout of those taken has (`print`). What they cannot say
// is which bytes the system reads and writes: that is to be believed of the one read in input.rt and the one write in output.rt;
// and of this file that `turn` alone feeds the run, and that no result of `Input::read` or `Output::flush` is left unused.
#![tactic(auto)]

ghost use Rattle.std.specs.Prelude.{◌≡◌, ◌||◌, ◌+◌, ◌≤◌, ◌<◌, length};
ghost use Rattle.schedule.specs.Feeding.{is_over};
ghost use Rattle.schedule.specs.Longest.{longest_printout};
ghost use Rattle.simulator.specs.Inputs.{count_limit, buffer_length};
ghost use Rattle.simulator.specs.Outputs.{MakesRoom};
ghost use Rattle.simulator.specs.Points.{Lent, point, Stands, TakesChunk, Turns, ReadsAll, Finishes, Runs, Prints};

mod input; // input.rt: the bytes read from standard input
mod output; // output.rt: the bytes that wait for standard output

use input::Input;
use output::Output;
use printout::LONGEST_ROW;
use schedule::Session;
use writing::Writer;

// After so many bytes another read could give more than can be counted. No input is that long.
const MOST_READ: usize = usize::MAX - 65535;

// What is lent goes from function to function as four slices: each call lends some of them on while it reads another (`turn` the
// buffer), and each clause says what is left in which. The output's bytes and how many of them wait stay apart, since `Output`
// keeps that count private, so that only `flush` makes it 0. `Stands` is a clause, since it is asked of a state together with what
// is lent to it.

// A run, and what waits of its printout.
#[derive(Clone, Copy)]
struct State {
    session: Session,
    held: Output,
}

#[derive(Clone, Copy)]
struct AfterRead {
    state: State,
    input: Input,
}

// What is left of a run that has ended.
#[derive(Clone, Copy)]
struct Ended {
    held: Output,
    input: Input,
}

// The output with room for another row: where there may be none, it is written out.
fn make_room(rt: HostRuntime, out: &[u8], held: Output) -> Output
    requires { (held.len ≤ length out.now) × (held.written + held.len ≤ longest_printout) }
    ensures { MakesRoom (length out.now) held result }
{
    if out.len() - held.waiting() < LONGEST_ROW {
        held.flush(rt, out)
    } else {
        held
    }
}

// All bytes of one chunk.
fn take_chunk(
    rt: HostRuntime,
    mut state: State,
    chunk: &[u8],
    line: &mut [u8],
    mem: &mut [u64],
    out: &mut [u8],
) -> State
    requires { Stands (point state.session line.old mem.old out.old state.held) }
    ensures { TakesChunk
        (point state.session line.old mem.old out.old state.held) chunk.now
        (point result.session line.new mem.new out.new result.held) }
{
    let mut at: usize = 0;
    // A turn takes as many bytes as there is room for rows, so that no `for` counts them.
    while at < chunk.len() {
        let room = make_room(rt, out, state.held);
        let mut lent = Writer {
            bytes: out,
            len: room.waiting(),
        };
        let fed = schedule::feed(state.session, chunk, at, line, mem, &mut lent);
        at = fed.next;
        state = State {
            session: fed.session,
            held: room.grown(lent.len),
        };
    }
    state
}

// One read of the input, and all that it gave.
fn turn(
    rt: HostRuntime,
    state: State,
    input: Input,
    line: &mut [u8],
    mem: &mut [u64],
    buffer: &mut [u8],
    out: &mut [u8],
) -> AfterRead
    requires { Stands (point state.session line.old mem.old out.old state.held) × (input.total + length buffer.old < count_limit) }
    ensures { Turns
        (point state.session line.old mem.old out.old state.held) input
        (point result.state.session line.new mem.new out.new result.state.held) result.input buffer.new }
{
    let after = input.read(rt, buffer);
    let got = after.total() - input.total();
    AfterRead {
        state: take_chunk(rt, state, &buffer[..got], line, mem, out),
        input: after,
    }
}

fn has_stopped(session: Session, input: Input) -> bool
    ensures { result ≡ (input.ended || is_over session.stage) }
{
    input.has_ended() || schedule::is_over(session)
}

// The whole input, up to its end or the run's.
fn read_all(
    rt: HostRuntime,
    state: State,
    line: &mut [u8],
    mem: &mut [u64],
    buffer: &mut [u8],
    out: &mut [u8],
) -> AfterRead
    requires { Stands (point state.session line.old mem.old out.old state.held) × (length buffer.old ≡ buffer_length) }
    ensures { ReadsAll
        (point state.session line.old mem.old out.old state.held)
        (point result.state.session line.new mem.new out.new result.state.held) result.input }
{
    let mut after = AfterRead {
        state,
        input: Input::unread(),
    };
    // What a read gives is not known before it, so that no `for` counts the turns.
    while after.input.total() < MOST_READ {
        after = turn(rt, after.state, after.input, line, mem, buffer, out);
        if has_stopped(after.state.session, after.input) {
            return after;
        }
    }
    after
}

// The end of the input: the output with the last record's row.
fn end(rt: HostRuntime, state: State, line: &[u8], mem: &mut [u64], out: &mut [u8]) -> Output
    requires { Stands (point state.session line.now mem.old out.old state.held) }
    ensures { Finishes (point state.session line.now mem.old out.old state.held) out.new result }
{
    let room = make_room(rt, out, state.held);
    let mut lent = Writer {
        bytes: out,
        len: room.waiting(),
    };
    schedule::finish(state.session, line, mem, &mut lent);
    room.grown(lent.len)
}

// A whole run, but for what waits at its end.
fn run(
    rt: HostRuntime,
    line: &mut [u8],
    mem: &mut [u64],
    buffer: &mut [u8],
    out: &mut [u8],
) -> Ended
    requires { Lent line.old mem.old buffer.old out.old }
    ensures { Runs line.old out.old out.new result.held result.input }
{
    let mut lent = Writer { bytes: out, len: 0 };
    let session = schedule::start(&mut lent);
    let heading = Output::begun(lent.len);
    let begun = State {
        session,
        held: heading,
    };
    let read = read_all(rt, begun, line, mem, buffer, out);
    Ended {
        held: end(rt, read.state, line, mem, out),
        input: read.input,
    }
}

// A whole run, of which nothing waits any more.
fn print(
    rt: HostRuntime,
    line: &mut [u8],
    mem: &mut [u64],
    buffer: &mut [u8],
    out: &mut [u8],
) -> Ended
    requires { Lent line.old mem.old buffer.old out.old }
    ensures { Prints line.old out.old out.new result.held result.input }
{
    let ended = run(rt, line, mem, buffer, out);
    let written = ended.held.flush(rt, out);
    Ended {
        held: written,
        ..ended
    }
}

fn main(rt: HostRuntime) {
    let mut line = [0u8; 513];
    let mut mem = [0u64; 144];
    let mut buffer = [0u8; 65536];
    let mut out = [0u8; 65536];
    print(rt, &mut line, &mut mem, &mut buffer, &mut out);
}
