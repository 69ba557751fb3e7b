//! Laws of the definitions. The functions do nothing: what they promise are laws.

ghost use Rattle.std.specs.Prelude.{IsTrue, None, Option, Some, ℕ, ◌-◌, ◌<◌, ◌≡◌, false};
ghost use Rattle.tag_model.specs.Reference.{hand_fits};
ghost use Rattle.tag_model.specs.StepRules.{WritesPlace};
ghost use Rattle.tag_model.specs.declared.state.CpuPart.{CpuPart};
ghost use Rattle.tag_model.specs.declared.state.Hand.{Hand};
ghost use Rattle.tag_model.specs.declared.state.Held.{Held};
ghost use Rattle.tag_model.specs.declared.state.Held.TheVariants as held;
ghost use Rattle.tag_model.specs.declared.state.Tag.{Tag};
ghost use Rattle.tag_rule.specs.Steps.{hand_after, with_hand};

/// A write that some hand makes a step of the rules is one with the hand that `write_cell` finds: its condition asks no
/// more than the step does.
pub fn the_hand_that_is_found_serves()
    ensures { (c : CpuPart) (was next : Held) (hand : Option Hand) → IsTrue (hand_fits c.hand) → WritesPlace c (with_hand hand c) was next → WritesPlace c (with_hand (hand_after c.hand was next) c) was next }
{}

/// What is in hand after a write: of an allocation's last step, of a free's first, of a split's, and of the middle step
/// of an exchange; the empty mark moves nothing.
pub fn hands_are_these()
    ensures taken { (tag : Tag) (size : ℕ) → hand_after None (held.Counted tag size) held.None ≡ Some (record { tag = tag; bytes = size; calls = 1; opening = false }) }
    ensures given { (h : Hand) → h.calls ≡ 1 → hand_after (Some h) held.None (held.Counted h.tag h.bytes) ≡ None }
    ensures shared { (h : Hand) (size : ℕ) → 1 < h.calls → hand_after (Some h) held.None (held.Counted h.tag size) ≡ Some (record h { bytes = h.bytes - size; calls = h.calls - 1; opening = false }) }
    ensures exchanged { (h : Hand) (tag : Tag) (size : ℕ) → h.calls ≡ 1 → hand_after (Some h) (held.Counted tag size) (held.Counted h.tag h.bytes) ≡ Some (record { tag = tag; bytes = size; calls = 1; opening = false }) }
    ensures marked { (o : Option Hand) → hand_after o held.None held.Empty ≡ o }
    ensures cleared { (o : Option Hand) → hand_after o held.Empty held.None ≡ o }
{}
