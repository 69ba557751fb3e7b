//! Which step each `go` is. The functions do nothing: what they promise are facts of the definitions.

ghost use Rattle.std.specs.Prelude.{◌≡◌, ℕ, ◌+◌, ◌<◌, List, IsSomeAnd, None, Some, length, sum_by};
ghost use Rattle.tag_model.specs.WordState.{counted};
ghost use Rattle.tag_model.specs.declared.state.Kind.{Kind};
ghost use Rattle.cpu_ops.specs.Machine.{step_count};
ghost use Rattle.cpu_ops.specs.declared.op.CpuOp.{CpuOp};
ghost use Rattle.core_steps.specs.declared.op.Actor.{Actor};
ghost use Rattle.core_steps.specs.declared.op.Actor.TheVariants as actor;
ghost use Rattle.core_steps.specs.CoreState.{CoreState, IsCore, event_of, reads_of, refused, run_of, state_after, stepped, word_state};
ghost use Rattle.core_steps.specs.Kinds.{GoesAs, GoesOn, kind_of, pass_begun, steps_of};
ghost use Rattle.core_steps.specs.Release.{IsKept};

/// The table gives each op as many steps as it takes. A step that isn't refused is one of the step rules, of the kind
/// that the table gives it.
pub fn each_step_is_of_its_kind()
    ensures counts { (op : CpuOp) → 0 < step_count op → length (steps_of op) ≡ step_count op }
    ensures goes { (s : CoreState) (who : Actor) (reads : ℕ) → IsCore s → refused s who ≡ None → IsSomeAnd (kind_of s who) (λ kind. GoesAs s.shape kind (state_after reads s) (state_after (reads + reads_of s who) (stepped s who))) }
{}

/// A range is kept only where something of that kind was counted under the tag just after the step that began the pass,
/// whatever steps were taken since then.
pub fn a_kept_range_was_counted_as_its_pass_began()
    ensures { (s : CoreState) (who : Actor) (later : List Actor) (section index : ℕ) (kind : Kind) (sum : ℕ) → IsCore s → refused s who ≡ None → pass_begun s who ≡ Some kind → GoesOn (stepped s who) later
        → (x : IsKept (run_of (stepped s who) later) section index kind sum) → 0 < sum_by (counted kind x.reader.tag) (word_state (stepped s who)) }
{}
