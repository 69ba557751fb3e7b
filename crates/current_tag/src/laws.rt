//! What holds of hooks, whatever the task.

ghost use Rattle.std.specs.Prelude.{◌≡◌, Some, None};
ghost use Rattle.tag_model.specs.declared.state.Tag.{Tag};
ghost use Rattle.current_tag.specs.Hooks.{Kept, TaskShown, hooked, kept_of, restored, unhooked};

/// A hook that is put out and taken off leaves the task as it was, and its own depth is that of the task meanwhile, so
/// that it is the innermost.
pub fn hooks_are_inverse()
    ensures inverse { (tag : Tag) (task : TaskShown) → restored (kept_of task) (hooked tag task) ≡ task }
    ensures innermost { (tag : Tag) (task : TaskShown) → (kept_of task).depth ≡ (hooked tag task).depth }
{}

/// Two hooks, one in the other, and then the inner one off.
pub fn worked_hooks()
    ensures outer { (a b : Tag) → hooked a unhooked ≡ record { current = Some a; depth = 1 } }
    ensures inner { (a b : Tag) → hooked b (hooked a unhooked) ≡ record { current = Some b; depth = 2 } }
    ensures off { (a b : Tag) → restored (kept_of (hooked a unhooked)) (hooked b (hooked a unhooked)) ≡ hooked a unhooked }
{}
