//! The sums over a state: each step of a CPU keeps each tag's words what is counted, and where no CPU has a hand, that is
//! what is live. The functions do nothing: what they promise are laws of the definitions.

ghost use Rattle.std.specs.List.{list_all};
ghost use Rattle.std.specs.Prelude.{ℕ, ◌≡◌, ◌+◌, ◌<◌, ◌≤◌, ◌==◌, ◌^◌, IsTrue, List, [], ◌∷◌, count_by, sum_by};
ghost use Rattle.tag_model.specs.Laws.{Safe, SumLaw, has_hand, is_held, live_of};
ghost use Rattle.tag_model.specs.Plainly.{calls_in_hand};
ghost use Rattle.tag_model.specs.Reference.{live_total};
ghost use Rattle.tag_model.specs.Shape.{IsChecked};
ghost use Rattle.tag_model.specs.StepRules.{AddsBytes, AddsCall, Becomes, BeginsAllocation, SubtractsBytes, SubtractsCall, WritesPlace};
ghost use Rattle.tag_model.specs.WordState.{counted, word_of};
ghost use Rattle.tag_model.specs.Wrap.{wrap};
ghost use Rattle.tag_model.specs.declared.shape.Shape.{Shape};
ghost use Rattle.tag_model.specs.declared.state.CpuPart.{CpuPart};
ghost use Rattle.tag_model.specs.declared.state.Hand.{Hand};
ghost use Rattle.tag_model.specs.declared.state.Held.{Held};
ghost use Rattle.tag_model.specs.declared.state.Kind.{Kind};
ghost use Rattle.tag_model.specs.declared.state.Part.TheVariants.{Cpu, Place};
ghost use Rattle.tag_model.specs.declared.state.Part.{Part};
ghost use Rattle.tag_model.specs.declared.state.Tag.{Tag};

/// After each step of a CPU on a word or a place, each tag's words are still what places and hands count, modulo
/// 2^64.
pub fn word_steps_keep_the_sums()
    ensures begins_allocation { (k : Shape) (tag : Tag) (c d : CpuPart) (old new : List Part) → IsChecked k → BeginsAllocation k tag c d → Becomes (Cpu c ∷ []) (Cpu d ∷ []) old new → Safe k old → SumLaw new }
    ensures adds_bytes { (k : Shape) (size : ℕ) (hand : Hand) (c d : CpuPart) (old new : List Part) → IsChecked k → AddsBytes size hand c d → Becomes (Cpu c ∷ []) (Cpu d ∷ []) old new → Safe k old → SumLaw new }
    ensures writes_place { (k : Shape) (n : ℕ) (c d : CpuPart) (was next : Held) (old new : List Part) → IsChecked k → WritesPlace c d was next → Becomes (Cpu c ∷ Place n was ∷ []) (Cpu d ∷ Place n next ∷ []) old new → Safe k old → SumLaw new }
    ensures adds_call { (k : Shape) (hand : Hand) (c d : CpuPart) (old new : List Part) → IsChecked k → AddsCall hand c d → Becomes (Cpu c ∷ []) (Cpu d ∷ []) old new → Safe k old → SumLaw new }
    ensures subtracts_bytes { (k : Shape) (bytes : ℕ) (hand : Hand) (c d : CpuPart) (old new : List Part) → IsChecked k → SubtractsBytes bytes hand c d → Becomes (Cpu c ∷ []) (Cpu d ∷ []) old new → Safe k old → SumLaw new }
    ensures subtracts_call { (k : Shape) (hand : Hand) (c d : CpuPart) (old new : List Part) → IsChecked k → SubtractsCall hand c d → Becomes (Cpu c ∷ []) (Cpu d ∷ []) old new → Safe k old → SumLaw new }
{}

/// Where no CPU has a hand, what is counted is what the live list holds, and so each tag's words are its bytes and
/// references now live, modulo 2^64. The live list has no place twice, and none that holds nothing.
pub fn quiet_sums_are_those_of_the_live_list()
    ensures counted { (parts : List Part) (kind : Kind) (t : ℕ) → sum_by has_hand parts ≡ 0 → sum_by (counted kind t) parts ≡ live_total kind t (live_of parts) }
    ensures words { (k : Shape) (parts : List Part) (kind : Kind) (t : ℕ) → Safe k parts → sum_by has_hand parts ≡ 0 → wrap (sum_by (word_of kind t) parts) ≡ wrap (live_total kind t (live_of parts)) }
    ensures none_holds_nothing { (parts : List Part) → IsTrue (list_all (λ (entry : ℕ × Held). is_held entry.1) (live_of parts)) }
    ensures no_place_twice { (k : Shape) (parts : List Part) (n : ℕ) → Safe k parts → count_by (λ (entry : ℕ × Held). entry.0 == n) (live_of parts) ≤ 1 }
{}

/// What is counted under a tag, by places and hands, is below 2^63: a word of 64 bits never loses it.
pub fn what_is_counted_is_below_2_63()
    ensures { (k : Shape) (parts : List Part) (kind : Kind) (t : ℕ) → IsChecked k → Safe k parts → sum_by (counted kind t) parts < 2 ^ 63 }
{}

/// A sub-call takes just one call from the hand, and an add-call adds just one.
pub fn a_step_on_a_call_word_counts_one_call()
    ensures begins { (k : Shape) (tag : Tag) (old new : CpuPart) → BeginsAllocation k tag old new → calls_in_hand tag.number new.hand ≡ calls_in_hand tag.number old.hand + 1 }
    ensures adds { (hand : Hand) (old new : CpuPart) → AddsCall hand old new → calls_in_hand hand.tag.number new.hand ≡ calls_in_hand hand.tag.number old.hand + 1 }
    ensures subtracts { (hand : Hand) (old new : CpuPart) → SubtractsCall hand old new → calls_in_hand hand.tag.number new.hand + 1 ≡ calls_in_hand hand.tag.number old.hand }
{}
