// A case handed to every entry point. Its line: family, case, then the number that set-up, a load, a validate and a store
// begun, a step and the open count answer, 0 where they are not refused; and the open count, where it is told.
use crate::cases::Case;
use rules::{Board, Call, Values};
use std::io;
use word::{Refusal, number_of};

fn print(rt: HostRuntime, n: u64) -> io::Result<()> {
    print!(rt; " {n}")
}

fn print_open(rt: HostRuntime, open: Result<u32, Refusal>) -> io::Result<()> {
    print(rt, number_of(open))?;
    match open {
        Ok(count) => print(rt, u64::from(count)),
        Err(_) => Ok(()),
    }
}

fn begin(
    rt: HostRuntime,
    board: Board,
    me: usize,
    call: Call,
    values: Values,
    mem: &[u64],
) -> io::Result<()> {
    print(
        rt,
        number_of(board::begin(board, me, call, values, mem).answer),
    )
}

// The three calls begun, the open count and a step, on one board.
fn serve(rt: HostRuntime, board: Board, case: Case, mem: &mut [u64]) -> io::Result<()> {
    let x = case.variable;
    let me = case.me;
    begin(rt, board, me, Call::Load(x), [0; 4], &mem[..])?;
    begin(rt, board, me, Call::Validate(x), [0; 4], &mem[..])?;
    begin(rt, board, me, Call::Store(x), case.values, &mem[..])?;
    let open = board::open_count(board, me, &mem[..]);
    print(rt, number_of(board::step(board, me, mem).answer))?;
    print_open(rt, open)
}

// The case's line, over the words lent.
fn on_words(rt: HostRuntime, f: usize, k: usize, case: Case, mem: &mut [u64]) -> io::Result<()> {
    print!(rt; "{f}")?;
    print(rt, k as u64)?;
    let made = board::set_up(case.settings, mem);
    print(rt, number_of(made))?;
    if let Some(word) = mem.get_mut(case.address) {
        *word = case.word;
    }
    let mut board = made.unwrap_or_else(|_| board::blank_board());
    board.settings = case.settings;
    if let Some(process) = board.processes.get_mut(case.at) {
        *process = case.process;
    }
    serve(rt, board, case, mem)?;
    println!(rt; "")
}

pub(crate) fn run(rt: HostRuntime, f: usize, k: usize, case: Case) -> io::Result<()> {
    let mut all = [0; 160];
    match all.get_mut(..case.lent) {
        Some(mem) => on_words(rt, f, k, case, mem),
        None => Ok(()),
    }
}
