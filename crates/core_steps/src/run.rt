//! Steps of many actors, one after another.

ghost use Rattle.std.specs.Prelude.{◌≡◌, ℕ, ◌<◌, ◌≤◌, length, take, IfSome, IsSome, None, slice_get};
ghost use Rattle.tag_model.specs.Laws.{Safe};
ghost use Rattle.core_steps.specs.CoreState.{run_of, refused, event_of, word_state};
ghost use Rattle.core_steps.specs.Release.{IfReleases};

use crate::machine::Core;
use crate::op::Actor;

/// Each actor in the list takes a step, until a step is refused. The answer is how many took one.
pub fn run_steps(core: &mut Core, actors: &[Actor]) -> usize
    ensures within { result ≤ length actors.now }
    ensures state { core.new ≡ run_of core.old (take result actors.now) }
    // None of these steps was refused, and the next one is, if there is one.
    ensures taken { (i : ℕ) → i < result → IfSome (slice_get actors.now i) (λ actor. refused (run_of core.old (take i actors.now)) actor ≡ None) }
    ensures stopped { IfSome (slice_get actors.now result) (λ actor. IsSome (refused core.new actor)) }
    // A module is released only where it is dead, and no place and no hand names it.
    ensures released { (i : ℕ) → i < result → IfSome (slice_get actors.now i) (λ actor. IfReleases (run_of core.old (take i actors.now)) (event_of (run_of core.old (take i actors.now)) actor)) }
    // Every state on the way is safe.
    ensures safe { (i : ℕ) → i ≤ result → Safe core.old.shape (word_state (run_of core.old (take i actors.now))) }
{
    core.tell();
    for (taken, actor) in actors.iter().enumerate() {
        if let Err(_refused) = core.go(*actor) {
            return taken;
        }
    }
    actors.len()
}
