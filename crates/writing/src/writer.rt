// Lent bytes that are written one after the other.
ghost use Rattle.std.specs.Prelude.{◌≡◌, ◌+◌, ◌-◌, ◌≤◌, length};
ghost use Rattle.writing.specs.Put.{Puts};

// The first `len` bytes are written.
#[derive(Drop)]
pub struct Writer<'a> {
    pub bytes: &'a mut [u8],
    pub len: usize,
}

impl Writer<'_> {
    // How many bytes can still be written.
    pub fn room(&self) -> usize
        ensures { result ≡ length self.now.bytes.now - self.now.len }
    {
        self.bytes.len().saturating_sub(self.len)
    }

    #[tactic(auto, using(crate::proofs::Puts::sets_at_once))]
    pub fn put(&mut self, part: &[u8])
        requires { self.old.len + length part.now ≤ length self.old.bytes.now }
        ensures { Puts self.old part.now self.new }
    {
        let end = self.len + part.len();
        self.bytes[self.len..end].copy_from_slice(part);
        self.len = end;
    }
}
