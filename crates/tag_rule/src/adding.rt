//! add-call and add-bytes.

ghost use Rattle.std.specs.Prelude.{◌≡◌, ◌<◌, IfSome};
ghost use Rattle.tag_model.specs.StepRules.{AddsBytes, AddsCall, BeginsAllocation};
ghost use Rattle.tag_model.specs.declared.state.Hand.{Hand};
ghost use Rattle.tag_rule.specs.Steps.{HoldsOpening, MayAddCall, with_call};

use crate::cpu::{CpuSeat, WordStep};
use tag_model::{Hand, Kind, MAX_HAND_CALLS, SIZE_END, Tag};

/// add-call: an allocation begins under the tag, or a split counts a call more for the tag that the CPU holds.
pub fn add_call(cpu: &mut CpuSeat, tag: Tag)
    requires { MayAddCall tag cpu.old }
    ensures begins { cpu.old.part.hand ≡ None → BeginsAllocation cpu.old.board.shape tag cpu.old.part cpu.new.part }
    ensures adds { (hand : Hand) → cpu.old.part.hand ≡ Some hand → AddsCall hand cpu.old.part cpu.new.part }
    ensures board { cpu.new.board ≡ cpu.old.board }
{
    cpu.tell();
    let hand = one_more(cpu.hand(), tag);
    let step = WordStep {
        kind: Kind::Calls,
        tag: tag.number,
        hand: Some(hand),
    };
    cpu.raise(step, 1);
}

// The hand with a call more, or that of a new allocation.
fn one_more(hand: Option<Hand>, tag: Tag) -> Hand
    requires { IfSome hand (λ h. h.calls < MAX_HAND_CALLS) }
    ensures { result ≡ with_call tag hand }
{
    match hand {
        None => Hand {
            tag,
            bytes: 0,
            calls: 1,
            opening: true,
        },
        Some(hand) => Hand {
            calls: hand.calls + 1,
            ..hand
        },
    }
}

/// add-bytes: the allocation counts its bytes.
pub fn add_bytes(cpu: &mut CpuSeat, size: u64)
    requires hand { HoldsOpening cpu.old }
    requires size { (0 < size) × (size < SIZE_END) }
    ensures added { (hand : Hand) → cpu.old.part.hand ≡ Some hand → AddsBytes size hand cpu.old.part cpu.new.part }
    ensures board { cpu.new.board ≡ cpu.old.board }
{
    cpu.tell();
    let Some(hand) = cpu.hand() else {
        return;
    };
    cpu.raise(WordStep::of_bytes(hand, size), size);
}
