// Document 01's number of each refusal, and of what an entry point answers: 0 where it is not refused.
ghost use Rattle.std.specs.Prelude.{◌≡◌};
ghost use Rattle.word.specs.Refusals.{number, told_number};

use super::Refusal;

impl Refusal {
    pub fn number(self) -> u64
        ensures { result ≡ number self }
    {
        self as u64
    }
}

pub fn number_of<T: Copy>(answer: Result<T, Refusal>) -> u64
    ensures { result ≡ told_number answer }
{
    match answer {
        Ok(_) => 0,
        Err(refusal) => refusal.number(),
    }
}
