// Good form of each used word: headers name a process below N, and announced values fit; then the board's as a whole.
ghost use Rattle.std.specs.Prelude.{◌≡◌, ◌≤◌, ◌<◌, length};
ghost use Rattle.rules.specs.Bounds.{Sized};
ghost use Rattle.rules.specs.GoodForm.{headers_fit, row_fits, rows_fit, words_fit, in_good_form};
ghost use Rattle.rules.specs.Sizes.{used_by, words_used};
ghost use Rattle.rules.specs.declared.Kind.TheVariants.{Many};

use crate::within::Within;
use process::addresses::{announce_at, header_at};
use rules::{Board, Kind};

// The words of a board of kind `many`, as many as it uses at least.
#[derive(Clone, Copy)]
struct Words<'a> {
    within: Within,
    mem: &'a [u64],
    ghost lent: { used_by Many within.s ≤ length mem.now },
}

impl Words<'_> {
    fn headers_fit(&self) -> bool
        ensures { result ≡ headers_fit self.now.within.s self.now.mem.now }
    {
        let Words { within, mem } = *self;
        (0..within.s.t).all(|x| within.names(mem[header_at(within.s, x)]))
    }

    fn row_fits(&self, p: usize) -> bool
        requires { p < self.now.within.s.n }
        ensures { result ≡ row_fits self.now.within.s p self.now.mem.now }
    {
        let Words { within, mem } = *self;
        (0..within.s.w).all(|i| within.value_fits(mem[announce_at(within.s, p, i)]))
    }

    fn rows_fit(&self) -> bool
        ensures { result ≡ rows_fit self.now.within.s self.now.mem.now }
    {
        (0..self.within.s.n).all(|p| self.row_fits(p))
    }
}

impl Within {
    #[tactic(auto, unfolding(rules::specs::GoodForm::words_fit))]
    fn words_fit(self, mem: &[u64]) -> bool
        requires { words_used self.s ≤ length mem.now }
        ensures { result ≡ words_fit self.s mem.now }
    {
        match self.s.kind {
            Kind::One => true,
            Kind::Many => {
                let words = Words { within: self, mem };
                words.headers_fit() && words.rows_fit()
            }
        }
    }
}

#[tactic(auto, unfolding(rules::specs::GoodForm::in_good_form))]
pub fn in_good_form(board: Board, mem: &[u64]) -> bool
    requires { Sized board.settings × (words_used board.settings ≤ length mem.now) }
    ensures { result ≡ in_good_form board mem.now }
{
    let within = Within { s: board.settings };
    within.processes_fit(board.processes) && within.words_fit(mem)
}
