//! Laws of every schedule. The functions do nothing: what they promise are facts of the definitions.

ghost use Rattle.std.specs.Prelude.{ℕ, ◌≡◌, ◌+◌, ◌<◌, List, [], None, Ok};
ghost use Rattle.std.specs.List.{AllByRecursion};
ghost use Rattle.tag_model.specs.Laws.{Safe, live_of};
ghost use Rattle.tag_model.specs.Reference.{live_total};
ghost use Rattle.tag_model.specs.Wrap.{wrap};
ghost use Rattle.tag_model.specs.declared.state.Kind.{Kind};
ghost use Rattle.core_steps.specs.declared.op.Actor.{Actor};
ghost use Rattle.cpu_ops.specs.Machine.{hand_at};
ghost use Rattle.core_steps.specs.CoreState.{event_of, ops_of, reads_of, refused, state_after, word_state};
ghost use Rattle.core_steps.specs.Release.{IfReleases};
ghost use Rattle.step_text.specs.declared.steps.StepLine.{StepLine};
ghost use Rattle.step_text.specs.declared.steps.Steps.{Steps};
ghost use Rattle.step_text.specs.StepForm.{AreSteps};
ghost use Rattle.step_text.specs.StepReading.{steps_of};
ghost use Rattle.tag_model.specs.StepRules.{StepsWith};
ghost use Rattle.step_play.specs.Printed.{Setting, total_moved};
ghost use Rattle.step_play.specs.Reached.{Reached, IsSetting, IsLineOf, PassesThrough};
ghost use Rattle.step_play.specs.Schedule.{Played, core_played, nothing_played, play, setting_of, steps_on, with_step};

/// Every state that a schedule passes through is safe. A step that tells a release finds the module dead, and no place
/// and no hand that names it. Where no CPU has a hand, the sums that are printed are those of the live list.
pub fn schedules_are_safe()
    // A schedule that is read is about a setting, and asks for what it has.
    ensures setting { (steps : Steps) → AreSteps steps → IsSetting (setting_of steps) }
    ensures lines { (steps : Steps) → AreSteps steps → AllByRecursion (IsLineOf (setting_of steps)) steps.body }
    // So many of its lines as are played lead to a state that is reached.
    ensures reached { (s : Setting) (lines : List StepLine) (p : Played) → AllByRecursion (IsLineOf s) lines → play s lines (nothing_played s) ≡ Ok p → Reached s p }
    // From each state to the next, words by CPU included, is one step of the step rules; a reader may count the words that sweeps read.
    ensures row { (s : Setting) (p : Played) (who : Actor) (reads : ℕ) → IsSetting s → Reached s p → refused (core_played s p) who ≡ None
        → StepsWith s.shape (state_after reads (core_played s p)) (state_after (reads + reads_of (core_played s p) who) (core_played s (with_step s who p))) }
    // `go ACTOR all` ends idle, or it is refused.
    ensures all { (s : Setting) (p q : Played) (who : Actor) → IsSetting s → Reached s p → steps_on s who None p ≡ Ok q → ops_of (core_played s q) who ≡ [] }
    ensures safe { (s : Setting) (p : Played) → IsSetting s → Reached s p → Safe s.shape (word_state (core_played s p)) }
    ensures released { (s : Setting) (p : Played) (who : Actor) → IsSetting s → Reached s p → refused (core_played s p) who ≡ None → IfReleases (core_played s p) (event_of (core_played s p) who) }
    ensures quiet { (s : Setting) (p : Played) (kind : Kind) (t : ℕ) → IsSetting s → Reached s p → ((cpu : ℕ) → cpu < s.shape.cpus → hand_at p.machine cpu ≡ None) → t < s.shape.tags
        → total_moved s.shape.cpus p.moves kind t ≡ wrap (live_total kind t (live_of (word_state (core_played s p)))) }
{}

/// Of every input whose form passes, every state that its schedule passes through is safe.
pub fn inputs_are_safe()
    ensures { (input : List ℕ) (steps : Steps) (p : Played) → steps_of input ≡ Ok steps → PassesThrough steps p → Safe (setting_of steps).shape (word_state (core_played (setting_of steps) p)) }
{}
