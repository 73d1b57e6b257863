// Where the shared words of kind `many` lie: variable by variable, each header before its segments; then the announce
// rows, process by process. Of the code only these functions know that order, and `words_used` of `form`, which counts the
// words. In kind `one` a variable's word lies at the variable's number, and the crate `one` goes by that.
// What they ask of settings stands in each clause: a type that is within the sizes would ask more of public functions' callers.
ghost use Rattle.std.specs.Prelude.{◌≡◌, ◌<◌};
ghost use Rattle.rules.specs.Bounds.{Sized};
ghost use Rattle.rules.specs.Sizes.{header_at, segment_at, announce_at, used_by};
ghost use Rattle.rules.specs.declared.Kind.TheVariants.{Many};

use rules::Settings;

pub fn header_at(s: Settings, x: usize) -> usize
    requires { Sized s × (x < s.t) }
    ensures { (result ≡ header_at s x) × (result < used_by Many s) }
{
    x * (1 + s.w)
}

pub fn segment_at(s: Settings, x: usize, i: usize) -> usize
    requires { Sized s × (x < s.t) × (i < s.w) }
    ensures { (result ≡ segment_at s x i) × (result < used_by Many s) }
{
    x * (1 + s.w) + 1 + i
}

// In the announce row of process p.
pub fn announce_at(s: Settings, p: usize, i: usize) -> usize
    requires { Sized s × (p < s.n) × (i < s.w) }
    ensures { (result ≡ announce_at s p i) × (result < used_by Many s) }
{
    s.t * (1 + s.w) + p * s.w + i
}
