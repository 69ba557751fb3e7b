//! How long a sweep takes. The function does nothing: what it promises are facts of the definitions.

ghost use Rattle.std.specs.Prelude.{◌≡◌, ◌↔◌, ℕ, ◌+◌, ◌*◌, ◌<◌, ◌≤◌, List, [], ◌∷◌, Some, None, true, false, length};
ghost use Rattle.module_ops.specs.declared.op.ManagerOp.{ManagerOp};
ghost use Rattle.module_ops.specs.declared.op.ManagerOp.TheVariants.{Unload, Clean};
ghost use Rattle.module_area.specs.declared.entry.Entry.{Entry};
ghost use Rattle.tag_model.specs.StepRules.{dead_ids};
ghost use Rattle.core_list.specs.ListState.{loaded_entry, records_of, sweep_steps, tags_of};
ghost use Rattle.core_steps.specs.declared.op.Actor.TheVariants as actor;
ghost use Rattle.core_steps.specs.CoreState.{CoreState, IsCore, refused, stepped};

/// How long an unload and a clean take, whatever other actors do in between: after its first step there are at most
/// so many left, each further step leaves fewer, and a step of a CPU leaves as many.
pub fn sweeps_are_bounded()
    // Two reads for each CPU and tag of the module, and a release.
    ensures unload { (s : CoreState) (section : ℕ) (e : Entry) (ops : List ManagerOp) → IsCore s → s.modules.manager ≡ record { ops = Unload section ∷ ops; under_way = false } → loaded_entry section s.modules.list ≡ Some e → e.users ≡ 0
        → sweep_steps s.shape (stepped s actor.Manager).modules.list ≤ 2 * s.shape.cpus * e.length + 1 }
    // Two reads for each CPU and tag of the dead modules, and a release for each.
    ensures clean { (s : CoreState) (ops : List ManagerOp) → IsCore s → s.modules.manager ≡ record { ops = Clean ∷ ops; under_way = false }
        → sweep_steps s.shape (stepped s actor.Manager).modules.list ≤ 2 * s.shape.cpus * tags_of (dead_ids (records_of s.modules.list)) s.modules.list.area.entries + length (dead_ids (records_of s.modules.list)) }
    // With no dead module a clean is over with its one step.
    ensures nothing_dead { (s : CoreState) (ops : List ManagerOp) → s.modules.manager ≡ record { ops = Clean ∷ ops; under_way = false } → dead_ids (records_of s.modules.list) ≡ [] → (stepped s actor.Manager).modules.manager ≡ record { ops = ops; under_way = false } }
    ensures fewer { (s : CoreState) → IsCore s → s.modules.manager.under_way ≡ true → sweep_steps s.shape (stepped s actor.Manager).modules.list < sweep_steps s.shape s.modules.list }
    // The op ends exactly where nothing is left to read or to release.
    ensures ends { (s : CoreState) (op : ManagerOp) (ops : List ManagerOp) → IsCore s → s.modules.manager ≡ record { ops = op ∷ ops; under_way = true } → (sweep_steps s.shape (stepped s actor.Manager).modules.list ≡ 0) ↔ ((stepped s actor.Manager).modules.manager ≡ record { ops = ops; under_way = false }) }
    ensures held { (s : CoreState) (cpu : ℕ) → IsCore s → s.modules.manager.under_way ≡ true → refused s (actor.Cpu cpu) ≡ None → (stepped s (actor.Cpu cpu)).modules ≡ s.modules }
{}
