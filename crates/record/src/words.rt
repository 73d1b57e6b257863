// The words of a record: the acts LL, VL, SC and step, and the kinds one and many, each exactly so written.
ghost use Rattle.std.specs.Prelude.{◌≡◌};
ghost use Rattle.record.specs.Words.{act_of, kind_of};

use super::Act;
use rules::Kind;

#[tactic(auto, unfolding(crate::specs::Words::act_of))]
pub(crate) fn read_act(bytes: &[u8]) -> Option<Act>
    ensures { result ≡ act_of bytes.now }
{
    match bytes {
        b"LL" => Some(Act::Load),
        b"VL" => Some(Act::Validate),
        b"SC" => Some(Act::Store),
        b"step" => Some(Act::Step),
        _ => None,
    }
}

#[tactic(auto, unfolding(crate::specs::Words::kind_of))]
pub(crate) fn read_kind(bytes: &[u8]) -> Option<Kind>
    ensures { result ≡ kind_of bytes.now }
{
    match bytes {
        b"one" => Some(Kind::One),
        b"many" => Some(Kind::Many),
        _ => None,
    }
}
