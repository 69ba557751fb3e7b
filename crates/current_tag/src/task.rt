ghost use Rattle.std.specs.Prelude.{ℕ, ◌≡◌, ◌<◌};
ghost use Rattle.std.specs.Fn.{FnOnceReturnsAtMut, FnOnceTakesAtMut};
ghost use Rattle.current_tag.specs.Hooks.{TaskShown, hooked, kept_of, most_hooks, restored, unhooked};

use std::marker::Model;
use tag_model::Tag;

/// A task: the tag under which it allocates, or none, and how many hooks are out.
#[derive(Debug, Drop)]
pub struct Task {
    current: Option<Tag>,
    depth: u32,
}

impl Model for Task {
    ghost use Rattle.std.specs.Prelude.{◌≤◌};
    ghost use Rattle.current_tag.specs.Hooks.{TaskShown, most_hooks};

    ghost Value = { TaskShown };

    ghost view = { λ task. record { current = task.current; depth = task.depth } };

    ghost invariant = { λ task. task.depth ≤ most_hooks };
}

/// What a hook keeps until it is taken off. Where it is dropped, its hook stays out: the tag that it set stays the
/// current one, and none of the hooks below it can be taken off any more.
#[derive(Debug, Drop)]
pub struct Saved {
    tag: Option<Tag>,
    depth: u32,
}

impl Model for Saved {
    ghost use Rattle.std.specs.Prelude.{◌<◌, ◌≤◌};
    ghost use Rattle.current_tag.specs.Hooks.{Kept, most_hooks};

    ghost Value = { Kept };

    ghost view = { λ saved. record { tag = saved.tag; depth = saved.depth } };

    ghost invariant = { λ saved. (0 < saved.depth) × (saved.depth ≤ most_hooks) };
}

impl Saved {
    /// The task's depth with this hook out.
    pub fn depth(&self) -> u32
        ensures { result ≡ self.now.depth }
    {
        self.depth
    }
}

impl Task {
    /// A task with no tag and no hook out.
    pub fn new() -> Task
        ensures { result ≡ unhooked }
    {
        Task {
            current: None,
            depth: 0,
        }
    }

    /// The tag under which the task allocates.
    pub fn current(&self) -> Option<Tag>
        ensures { result ≡ self.now.current }
    {
        self.current
    }

    /// How many hooks are out.
    pub fn depth(&self) -> u32
        ensures { result ≡ self.now.depth }
    {
        self.depth
    }

    /// Makes the tag current.
    pub fn save(&mut self, tag: Tag) -> Saved
        requires { self.old.depth < most_hooks }
        ensures hooked { self.new ≡ hooked tag self.old }
        ensures kept { result ≡ kept_of self.old }
    {
        let tag_before = self.current;
        self.current = Some(tag);
        self.depth += 1;
        Saved {
            tag: tag_before,
            depth: self.depth,
        }
    }

    /// Takes the innermost hook off.
    pub fn restore(&mut self, saved: Saved)
        requires { saved.depth ≡ self.old.depth }
        ensures { self.new ≡ restored saved self.old }
    {
        self.current = saved.tag;
        self.depth -= 1;
    }

    /// Calls a function under the tag. The function leaves the task as it finds it, and so does this call.
    pub fn with_tag<R, F: FnOnce(&mut Task) -> R>(&mut self, tag: Tag, f: F) -> R
        requires room { self.old.depth < most_hooks }
        requires takes { FnOnceTakesAtMut F.FnOnce f (hooked tag self.old) }
        requires leaves { (answer : R) (after : TaskShown) → FnOnceReturnsAtMut F.FnOnce f (hooked tag self.old) answer after → after ≡ hooked tag self.old }
        ensures same { self.new ≡ self.old }
        ensures answer { FnOnceReturnsAtMut F.FnOnce f (hooked tag self.old) result (hooked tag self.old) }
    {
        let saved = self.save(tag);
        let answer = f(self);
        self.restore(saved);
        answer
    }
}
