// Document 01's sizes: which settings stand, and how many words they use.
ghost use Rattle.std.specs.Prelude.{◌≡◌};
ghost use Rattle.rules.specs.Bounds.{Sized};
ghost use Rattle.rules.specs.Sizes.{segments_fit, settings_fit, words_used};

use rules::{Kind, Settings};

fn segments_fit(kind: Kind, w: usize) -> bool
    ensures { result ≡ segments_fit kind w }
{
    match kind {
        Kind::One => w == 1,
        Kind::Many => (1..=4).contains(&w),
    }
}

#[tactic(auto, unfolding(rules::specs::Sizes::settings_fit))]
pub fn settings_fit(s: Settings) -> bool
    ensures { result ≡ settings_fit s }
{
    (1..=16).contains(&s.n)
        && (1..=16).contains(&s.t)
        && s.layout.stands()
        && segments_fit(s.kind, s.w)
}

// Within the sizes, so that no product is too great.
pub fn words_used(s: Settings) -> usize
    requires { Sized s }
    ensures { result ≡ words_used s }
{
    match s.kind {
        Kind::One => s.t,
        Kind::Many => s.t * (1 + s.w) + s.n * s.w,
    }
}
