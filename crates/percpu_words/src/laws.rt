//! What the sums are worth. The function does nothing: what it promises is a law of the definitions.

ghost use Rattle.std.specs.Prelude.{ℕ, ◌≡◌, List, sum_by};
ghost use Rattle.percpu_words.specs.CpuWords.{lent, word_in};
ghost use Rattle.tag_model.specs.Laws.{Safe, has_hand, live_of};
ghost use Rattle.tag_model.specs.Reference.{live_total};
ghost use Rattle.tag_model.specs.StepRules.{Stands};
ghost use Rattle.tag_model.specs.Telling.{AreAllLent};
ghost use Rattle.tag_model.specs.Wrap.{wrap};
ghost use Rattle.tag_model.specs.declared.shape.Shape.{Shape};
ghost use Rattle.tag_model.specs.declared.state.Kind.{Kind};
ghost use Rattle.tag_model.specs.declared.state.ListPart.{ListPart};
ghost use Rattle.tag_model.specs.declared.state.Part.{Part};
ghost use Rattle.tag_rule.specs.Shown.{CpuShown};

/// Where these are all CPUs of a safe state and none has a hand, their words of a tag add up to the bytes and the
/// references that are live under it, modulo 2^64.
pub fn quiet_totals_are_those_of_the_live_list()
    ensures { (k : Shape) (cpus : List CpuShown) (l : ListPart) (next : ℕ) (parts : List Part) (kind : Kind) (t : ℕ) → AreAllLent k (lent cpus l next) → Stands (lent cpus l next) parts → Safe k parts → sum_by has_hand parts ≡ 0 → wrap (sum_by (word_in kind t) cpus) ≡ wrap (live_total kind t (live_of parts)) }
{}
