//! sub-bytes and sub-call.

ghost use Rattle.std.specs.Prelude.{◌≡◌, ◌<◌};
ghost use Rattle.tag_model.specs.StepRules.{SubtractsBytes, SubtractsCall, without_call};
ghost use Rattle.tag_model.specs.declared.state.Hand.{Hand};
ghost use Rattle.tag_rule.specs.Steps.{HoldsBytes, HoldsCall};

use crate::cpu::{CpuSeat, WordStep};
use tag_model::{Hand, Kind};

/// sub-bytes: a free or a trim takes bytes from those in hand.
pub fn sub_bytes(cpu: &mut CpuSeat, bytes: u64)
    requires { HoldsBytes bytes cpu.old }
    ensures subtracted { (hand : Hand) → cpu.old.part.hand ≡ Some hand → SubtractsBytes bytes hand cpu.old.part cpu.new.part }
    ensures board { cpu.new.board ≡ cpu.old.board }
{
    cpu.tell();
    let Some(hand) = cpu.hand() else {
        return;
    };
    let step = WordStep::of_bytes(hand, hand.bytes - bytes);
    cpu.lower(step, bytes);
}

/// sub-call: a free takes a call, its last touch of the tag, once no byte is left.
pub fn sub_call(cpu: &mut CpuSeat)
    requires { HoldsCall cpu.old }
    ensures subtracted { (hand : Hand) → cpu.old.part.hand ≡ Some hand → SubtractsCall hand cpu.old.part cpu.new.part }
    ensures board { cpu.new.board ≡ cpu.old.board }
{
    cpu.tell();
    let Some(hand) = cpu.hand() else {
        return;
    };
    let step = WordStep {
        kind: Kind::Calls,
        tag: hand.tag.number,
        hand: one_less(hand),
    };
    cpu.lower(step, 1);
}

// The hand with a call less, or none where that was its last.
fn one_less(hand: Hand) -> Option<Hand>
    requires { 0 < hand.calls }
    ensures { result ≡ without_call hand }
{
    if hand.calls == 1 {
        return None;
    }
    Some(Hand {
        calls: hand.calls - 1,
        ..hand
    })
}
