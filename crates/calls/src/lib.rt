// A call begun on one process by value, and the count of its open sequences, for whoever keeps a board in good form and
// need not have it looked at again: the entry points do the same after their checks. Its step is `steps::process_step`,
// which refuses an idle process.
#![tactic(auto)]

ghost use Rattle.std.specs.Prelude.{◌≡◌, true};
ghost use Rattle.calls.specs.OneProcess.{begin_process_rule};
ghost use Rattle.rules.specs.Bounds.{Sized};
ghost use Rattle.rules.specs.GoodForm.{open_fits};
ghost use Rattle.rules.specs.Processes.{open_count};

use process::refusing;
use refusals::call_check;
use rules::{Answer, Answered, Call, Process, Settings, Values};
use steps::beginning;

mod refusals; // refusals.rt: 5 to 8, of a process and a call

// 5 to 8, and the call's beginning. A refused process is left as found.
#[tactic(auto, unfolding(crate::specs::OneProcess::begin_process_rule))]
pub fn begin_process(s: Settings, p: Process, call: Call, values: Values) -> Answered<Process>
    requires { Sized s }
    ensures { result ≡ begin_process_rule s p call values }
{
    match call_check(s, p, call, values) {
        Ok(()) => Answered {
            after: beginning(s, call, values, p),
            answer: Ok(Answer::Begun),
        },
        Err(refusal) => refusing(p, refusal),
    }
}

// The mask's ones, which are the variables below T on which a sequence is open, where none is open from T on.
#[tactic(auto, using(rules::proofs::Sequences::Counts::counted), unfolding(rules::specs::GoodForm::open_fits))]
pub fn sequences_open(s: Settings, opened: u16) -> u32
    requires { open_fits s opened ≡ true }
    ensures { result ≡ open_count opened s.t }
{
    opened.count_ones()
}
