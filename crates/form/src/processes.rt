// Good form of each process below N: its place, its open sequences, its kept tags, its values and the gathered ones.
ghost use Rattle.std.specs.Prelude.{◌≡◌};
ghost use Rattle.rules.specs.GoodForm.{values_fit, kept_fit_by, kept_fit, open_fits, process_fits, processes_fit};
ghost use Rattle.rules.specs.declared.Board.{Board};
ghost use Rattle.rules.specs.declared.Kind.TheVariants.{Many};

use crate::within::Within;
use rules::{Kind, Process, Values};

impl Within {
    fn values_fit(self, values: Values) -> bool
        ensures { result ≡ values_fit self.s values }
    {
        values.iter().all(|value| self.value_fits(*value))
    }

    fn kept_tags_fit(self, keep: [u64; 16]) -> bool
        ensures { result ≡ kept_fit_by Many self.s keep }
    {
        let limit = self.s.layout.tag_limit();
        keep[..self.s.t].iter().all(|tag| *tag < limit)
    }

    #[tactic(auto, unfolding(rules::specs::GoodForm::kept_fit))]
    fn kept_fit(self, keep: [u64; 16]) -> bool
        ensures { result ≡ kept_fit self.s keep }
    {
        match self.s.kind {
            Kind::One => true,
            Kind::Many => self.kept_tags_fit(keep),
        }
    }

    #[tactic(auto, unfolding(rules::specs::GoodForm::open_fits))]
    fn open_fits(self, opened: u16) -> bool
        ensures { result ≡ open_fits self.s opened }
    {
        u64::from(opened) < 1 << self.s.t
    }

    #[tactic(auto, unfolding(rules::specs::GoodForm::process_fits))]
    fn process_fits(self, p: Process) -> bool
        ensures { result ≡ process_fits self.s p }
    {
        self.place_fits(p.opened, p.place)
            && self.open_fits(p.opened)
            && self.kept_fit(p.keep)
            && self.values_fit(p.values)
            && self.values_fit(p.gathered)
    }

    pub(crate) fn processes_fit(self, processes: [Process; 16]) -> bool
        ensures { result ≡ processes_fit (record { settings = self.s; processes = processes }) }
    {
        processes[..self.s.n].iter().all(|p| self.process_fits(*p))
    }
}
