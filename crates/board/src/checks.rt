// What each entry point checks of a board before all else, in document 01's order; each check finds the first refusal
// that holds.
ghost use Rattle.std.specs.Prelude.{◌≡◌, not, ◌≤◌, nat_le, length};
ghost use Rattle.rules.specs.Bounds.{Sized};
ghost use Rattle.rules.specs.GoodForm.{in_good_form};
ghost use Rattle.rules.specs.Refusals.{fine, refuse_if, sizes_check, process_check};
ghost use Rattle.rules.specs.Sizes.{words_used};
ghost use Rattle.word.specs.declared.Refusal.TheVariants.{NotInGoodForm, NoSuchProcess};

use form::{in_good_form, settings_fit, words_used};
use rules::{Board, Settings};
use word::Refusal;

// 1 and 2, for so many words lent.
#[tactic(auto, using(rules::proofs::Sizes::Sized::sized), unfolding(rules::specs::Refusals::sizes_check))]
pub(crate) fn sizes_check(s: Settings, lent: usize) -> Result<(), Refusal>
    ensures { result ≡ sizes_check s lent }
{
    if !settings_fit(s) {
        return Err(Refusal::SettingOutsideSizes);
    }
    if lent < words_used(s) {
        return Err(Refusal::MemoryTooShort);
    }
    Ok(())
}

// 3 and 4, of a board whose sizes stand: a clause says so, since a type for that would serve this function alone.
fn form_check(board: Board, me: usize, mem: &[u64]) -> Result<(), Refusal>
    requires { Sized board.settings × (words_used board.settings ≤ length mem.now) }
    ensures { result ≡ refuse_if (not (in_good_form board mem.now)) NotInGoodForm (refuse_if (nat_le board.settings.n me) NoSuchProcess fine) }
{
    let s = board.settings;
    if !in_good_form(board, mem) {
        return Err(Refusal::NotInGoodForm);
    }
    if me >= s.n {
        return Err(Refusal::NoSuchProcess);
    }
    Ok(())
}

// 1 to 4.
#[tactic(auto, using(rules::proofs::Refusals::Served::sizes_served), unfolding(rules::specs::Refusals::process_check))]
pub(crate) fn process_check(board: Board, me: usize, mem: &[u64]) -> Result<(), Refusal>
    ensures { result ≡ process_check board me mem.now }
{
    sizes_check(board.settings, mem.len())?;
    form_check(board, me, mem)
}
