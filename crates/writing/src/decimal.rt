// Numbers written in decimal digits, the most significant first and no leading zero.
ghost use Rattle.std.specs.Prelude.{◌≡◌, ◌+◌, ◌≤◌, ◌<◌, length};
ghost use Rattle.fields.specs.Decimal.{decimal};
ghost use Rattle.writing.specs.Line.{after_comma};
ghost use Rattle.writing.specs.Put.{Puts};

use super::writer::Writer;

// The number of digits: one, and one more for each power of ten from 10 on that the number reaches.
#[tactic(auto, using(crate::proofs::Counting::counted))]
fn digit_count(x: u64) -> usize
    ensures { result ≡ length (decimal x) }
{
    x.checked_ilog10().unwrap_or(0) as usize + 1
}

impl Writer<'_> {
    // The digits are put from the last to the first.
    #[tactic(auto, using(crate::proofs::Digits::digits_left, crate::proofs::Digits::digit_put))]
    pub fn put_decimal(&mut self, x: u64)
        requires { self.old.len + length (decimal x) ≤ length self.old.bytes.now }
        ensures { Puts self.old (decimal x) self.new }
    {
        let end = self.len + digit_count(x);
        let mut left = x;
        for i in (self.len..end).rev() {
            self.bytes[i] = b'0' + (left % 10) as u8;
            left /= 10;
        }
        self.len = end;
    }

    // A number with the comma before it.
    pub fn put_number(&mut self, x: u64)
        requires { self.old.len + length (after_comma (decimal x)) ≤ length self.old.bytes.now }
        ensures { Puts self.old (after_comma (decimal x)) self.new }
    {
        self.put(b",");
        self.put_decimal(x);
    }
}
