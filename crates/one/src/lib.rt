// The code of Figure 4 of source document 001, one word: a function for each place, which takes the step from there.
// What they ask of settings stands in each clause: a type that is within the sizes would ask more of public functions' callers,
// and `new_word`, alone beside them, needs none.
#![tactic(auto)]

ghost use Rattle.std.specs.Prelude.{◌≡◌, ◌≤◌, ◌<◌, length, get_or};
ghost use Rattle.word.specs.Word.{value_limit};
ghost use Rattle.rules.specs.Bounds.{Sized};
ghost use Rattle.rules.specs.Figure4.{Step, load_reads_word, validate_reads_word, new_word, store_swaps_word};
ghost use Rattle.rules.specs.Sizes.{bits};

use process::{closing, ends, keeping, kept_of, opening};
use rules::{Answer, Answered, Process, Settings};

// Lines 1 and 2: read the word, keep it whole, answer the value; the sequence opens.
pub fn load_reads_word(s: Settings, p: Process, x: usize, mem: &[u64]) -> Answered<Process>
    requires { Sized s × (x < s.t) × (s.t ≤ length mem.now) }
    ensures { result ≡ (load_reads_word s p x mem.now).0 }
{
    let word = mem[x];
    let value = s.layout.value_of(word);
    let kept = keeping(x, word, p);
    let opened = opening(x, kept);
    ends(Ok(Answer::Value([value, 0, 0, 0])), opened)
}

// Line 3: read the word; yes exactly if it equals the keep-word.
pub fn validate_reads_word(s: Settings, p: Process, x: usize, mem: &[u64]) -> Answered<Process>
    requires { Sized s × (x < s.t) × (s.t ≤ length mem.now) }
    ensures { result ≡ (validate_reads_word s p x mem.now).0 }
{
    if mem[x] == kept_of(x, p) {
        ends(Ok(Answer::Yes), p)
    } else {
        ends(Ok(Answer::No), p)
    }
}

// Line 4: the next tag of the keep-word, and the new value. Figure 6 has the like in line 18: each figure keeps its own line.
#[tactic(auto, using(word::proofs::Laws::tag_lt, word::proofs::Laws::next_lt))]
fn new_word(s: Settings, p: Process, x: usize) -> u64
    requires { Sized s × (x < s.t) × (get_or p.values 0 0 < value_limit (bits s)) }
    ensures { result ≡ new_word s p x }
{
    let old = s.layout.tag_of(kept_of(x, p));
    let next = s.layout.next_tag(old);
    s.layout.word_of(next, p.values[0])
}

// Line 4: compare-and-swap from the keep-word; the answer is whether it swapped; the sequence closes.
pub fn store_swaps_word(s: Settings, p: Process, x: usize, mem: &mut [u64]) -> Answered<Process>
    requires { Sized s × (x < s.t) × (s.t ≤ length mem.old) × (get_or p.values 0 0 < value_limit (bits s)) }
    ensures { ◌≡◌ {A = Step} (result, mem.new) (store_swaps_word s p x mem.old) }
{
    if mem[x] == kept_of(x, p) {
        mem[x] = new_word(s, p, x);
        ends(Ok(Answer::Yes), closing(x, p))
    } else {
        ends(Ok(Answer::No), closing(x, p))
    }
}
