// The bytes of standard input: how many were read, and whether it has ended. Both are told by an `Input`, which this file alone
// can make: it begins with nothing read, and `read` alone adds to it, and ends it where a read gives nothing. That the bytes
// are those of standard input no contract can say: it is to be believed of the one read in `read`.
ghost use Rattle.std.specs.Prelude.{◌≡◌, false, ◌+◌, ◌<◌, length};
ghost use Rattle.simulator.specs.Inputs.{Reads, count_limit};

use crate::output::warn;
use std::io::Read;

// `ended` stands beside the count, since what was read counts after the end too.
#[derive(Clone, Copy)]
pub struct Input {
    total: usize,
    ended: bool,
}

impl Input {
    // Nothing is read yet.
    pub fn unread() -> Input
        ensures { result ≡ record { total = 0; ended = false } }
    {
        Input {
            total: 0,
            ended: false,
        }
    }

    // How many bytes were read.
    pub fn total(self) -> usize
        ensures { result ≡ self.total }
    {
        self.total
    }

    // Whether the last read gave nothing.
    pub fn has_ended(self) -> bool
        ensures { result ≡ self.ended }
    {
        self.ended
    }

    // One read. One that fails counts as the end of the input.
    pub fn read(self, rt: HostRuntime, buffer: &mut [u8]) -> Input
        requires { self.total + length buffer.old < count_limit }
        ensures { Reads self (length buffer.old) result }
    {
        let bytes = match rt.stdin().read(buffer) {
            Ok(got) => got,
            Err(_) => {
                warn(rt, b"simulator: the input could not be read to its end\n");
                0
            }
        };
        Input {
            total: self.total + bytes,
            ended: bytes == 0,
        }
    }
}
