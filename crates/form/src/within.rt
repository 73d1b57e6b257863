// Settings within the sizes, and what is tested of one word or value by them alone.
ghost use Rattle.std.specs.Prelude.{◌≡◌};
ghost use Rattle.rules.specs.Bounds.{Sized};
ghost use Rattle.rules.specs.GoodForm.{names, value_fits};

use rules::Settings;

#[derive(Clone, Copy)]
pub(crate) struct Within {
    pub(crate) s: Settings,
    ghost sized: { Sized s },
}

impl Within {
    #[tactic(auto, unfolding(rules::specs::GoodForm::names))]
    pub(crate) fn names(self, header: u64) -> bool
        ensures { result ≡ names self.s header }
    {
        self.s.layout.value_of(header) < self.s.n as u64
    }

    #[tactic(auto, unfolding(rules::specs::GoodForm::value_fits))]
    pub(crate) fn value_fits(self, value: u64) -> bool
        ensures { result ≡ value_fits self.s value }
    {
        value < self.s.layout.value_limit()
    }
}
