// The bytes that wait for standard output, and how many were written to it. Both are told by an `Output`, which this file alone
// can make: it begins with the heading, grows by rows, and is emptied by `flush` alone, which counts what it writes. That the
// system writes as `flush` asks no contract can say: it is to be believed of the one write in it.
ghost use Rattle.std.specs.Prelude.{◌≡◌, false, ◌+◌, ◌≤◌, length};
ghost use Rattle.printout.specs.Row.{heading};
ghost use Rattle.schedule.specs.Longest.{longest_printout};
ghost use Rattle.simulator.specs.Outputs.{Flushes};

use std::io::Write;

// The first `len` bytes wait, and `written` were written before them. After a write that failed no other is made and none is
// counted, so that a printout is cut short but has no gap. So `failed` stands beside the counts: both mean something after a failure too.
#[derive(Clone, Copy)]
pub struct Output {
    len: usize,
    written: usize,
    failed: bool,
}

impl Output {
    // The heading waits.
    pub fn begun(len: usize) -> Output
        requires { len ≡ length heading }
        ensures { result ≡ record { len = len; written = 0; failed = false } }
    {
        Output {
            len,
            written: 0,
            failed: false,
        }
    }

    // More bytes wait than before.
    pub fn grown(self, len: usize) -> Output
        requires { self.len ≤ len }
        ensures { result ≡ record { len = len; written = self.written; failed = self.failed } }
    {
        Output { len, ..self }
    }

    // How many bytes wait.
    pub fn waiting(self) -> usize
        ensures { result ≡ self.len }
    {
        self.len
    }

    // Writes the bytes that wait, so that none does.
    pub fn flush(self, rt: HostRuntime, out: &[u8]) -> Output
        requires { (self.len ≤ length out.now) × (self.written + self.len ≤ longest_printout) }
        ensures { Flushes self result }
    {
        if self.failed {
            return emptied(self.written, true);
        }
        if rt.stdout().write_all(&out[..self.len]).is_ok() {
            return emptied(self.written + self.len, false);
        }
        warn(
            rt,
            b"simulator: the printout could not be written to its end\n",
        );
        emptied(self.written, true)
    }
}

fn emptied(written: usize, failed: bool) -> Output
    ensures { result ≡ record { len = 0; written = written; failed = failed } }
{
    Output {
        len: 0,
        written,
        failed,
    }
}

// What went wrong is told on standard error; the exit status stays 0.
pub fn warn(rt: HostRuntime, text: &[u8]) {
    let _ = rt.stderr().write_all(text);
}
