//! What a checked trace's rounds do not do.

ghost use Rattle.std.specs.Prelude.{◌≡◌, ◌≢◌, ◌<◌, ◌+◌, ◌-◌, ℕ, List, [], ◌∷◌, true, Ok, Err, IsSome};
ghost use Rattle.input_form.specs.declared.code.Code.TheVariants as code;
ghost use Rattle.trace.specs.declared.traces.OnOp.{OnOp};
ghost use Rattle.trace.specs.declared.traces.Trace.{Trace};
ghost use Rattle.trace.specs.declared.traces.TraceOp.TheVariants as op;
ghost use Rattle.trace.specs.Formed.{IsFormedTrace};
ghost use Rattle.round_check.specs.declared.walk.Walk.{Walk};
ghost use Rattle.round_check.specs.declared.keys.KeyState.{KeyState};
ghost use Rattle.round_check.specs.declared.keys.Turn.{Turn};
ghost use Rattle.round_check.specs.Keys.{key_at, part_keys};
ghost use Rattle.round_check.specs.Rounds.{names_key, IsRound, IsLine};
ghost use Rattle.round_check.specs.Rows.{verdict, shared_and_unbound, object_and_unbound, trimmed_and_object, orders_and_trimmed, orders_differ, order_not_below, keys_past_the_last, keys_to_the_last, new_bound_and_shared, two_new_bound, split_onto_itself, pages_not_below, entered_and_busy, unloaded_and_absent, never_loaded, entered_twice, left_while_hooked, two_inside, hooked_too_deep, outside_and_deep, unhooked_twice, loaded_twice};
ghost use Rattle.round_check.specs.Rows.{both_shared, unbound_and_shared, both_unbound, both_objects, both_trimmed, shared_and_bound, split_of_shared_and_unbound, trim_of_shared_and_unbound, shared_two_lines_before, freed_in_the_next_round, trimmed_and_not_below, unloaded_and_outside, unloaded_twice, stray};
ghost use Rattle.round_check.specs.Walk.{enter_module, leave_module, unload_module, rounds_of};

/// In a round of a checked trace no two CPUs name one key, a key that is freed was bound, and a module that is
/// unloaded is neither entered nor left.
pub fn rounds_that_passed()
    ensures keys { (trace : Trace) (ops : List OnOp) (before : Walk) → IsFormedTrace trace → rounds_of trace ≡ Ok tt → IsRound trace ops before
        → (one two : OnOp) (at_one at_two : Walk) → IsLine before ops one at_one → IsLine before ops two at_two
        → (key : ℕ) → names_key at_one.keys one.op key ≡ true → names_key at_two.keys two.op key ≡ true → one.cpu ≡ two.cpu }
    ensures freed { (trace : Trace) (ops : List OnOp) (before : Walk) → IsFormedTrace trace → rounds_of trace ≡ Ok tt → IsRound trace ops before
        → (on : OnOp) (here : Walk) → IsLine before ops on here → (key : ℕ) → on.op ≡ op.Free key → IsSome (key_at here.keys key).bound }
    ensures unloaded { (trace : Trace) (ops : List OnOp) (before : Walk) → IsFormedTrace trace → rounds_of trace ≡ Ok tt → IsRound trace ops before
        → (one two : OnOp) (at_one at_two : Walk) → IsLine before ops one at_one → IsLine before ops two at_two
        → (section : ℕ) → one.op ≡ op.Unload section → (two.op ≢ op.Enter section) × (two.op ≢ op.Leave section) }
{}

/// Of lines that fail more than one check the earlier check gives the code.
pub fn refusals_in_order()
    ensures shared_key { verdict shared_and_unbound ≡ Err (3, code.SharedKey 1) }
    ensures no_key { verdict object_and_unbound ≡ Err (2, code.NoKey 2) }
    ensures kind { verdict trimmed_and_object ≡ Err (4, code.Kind 2) }
    ensures trimmed { verdict orders_and_trimmed ≡ Err (4, code.Trimmed 2) }
    ensures orders { verdict orders_differ ≡ Err (3, code.Orders) }
    ensures orders_of_split { verdict order_not_below ≡ Err (2, code.Orders) }
    ensures keys { verdict keys_past_the_last ≡ Err (2, code.Keys) }
    ensures keys_to_the_last { verdict keys_to_the_last ≡ Ok tt }
    ensures shared_new { verdict new_bound_and_shared ≡ Err (4, code.SharedKey 4) }
    ensures bound { verdict two_new_bound ≡ Err (4, code.Bound 3) }
    ensures bound_itself { verdict split_onto_itself ≡ Err (2, code.Bound 1) }
    ensures pages { verdict pages_not_below ≡ Err (3, code.Pages) }
    ensures unload_shared { verdict entered_and_busy ≡ Err (3, code.UnloadShared 1) }
    ensures unload_before { verdict unloaded_and_absent ≡ Err (3, code.UnloadShared 1) }
    ensures not_loaded { verdict never_loaded ≡ Err (2, code.NotLoaded 2) }
    ensures inside { verdict entered_twice ≡ Err (3, code.Inside 1) }
    ensures hooked { verdict left_while_hooked ≡ Err (5, code.Hooked 1) }
    ensures busy { verdict two_inside ≡ Err (4, code.Busy 2) }
    ensures deep { verdict hooked_too_deep ≡ Err (2, code.Deep) }
    ensures not_inside { verdict outside_and_deep ≡ Err (2, code.NotInside 1) }
    ensures no_hook { verdict unhooked_twice ≡ Err (3, code.NoHook) }
    ensures already_loaded { verdict loaded_twice ≡ Err (2, code.AlreadyLoaded 2) }
{}

/// The same of both keys of a swap, of a key that several lines name, and of a module that a round unloads.
pub fn refusals_of_a_line_in_order()
    ensures shared_first { verdict both_shared ≡ Err (3, code.SharedKey 1) }
    ensures shared_second { verdict unbound_and_shared ≡ Err (2, code.SharedKey 2) }
    ensures no_key_first { verdict both_unbound ≡ Err (1, code.NoKey 1) }
    ensures kind_first { verdict both_objects ≡ Err (3, code.Kind 1) }
    ensures trimmed_first { verdict both_trimmed ≡ Err (5, code.Trimmed 1) }
    ensures shared_before_bound { verdict shared_and_bound ≡ Err (2, code.SharedKey 1) }
    ensures shared_before_split { verdict split_of_shared_and_unbound ≡ Err (3, code.SharedKey 1) }
    ensures shared_before_trim { verdict trim_of_shared_and_unbound ≡ Err (3, code.SharedKey 1) }
    ensures shared_after_others { verdict shared_two_lines_before ≡ Err (3, code.SharedKey 1) }
    ensures next_round { verdict freed_in_the_next_round ≡ Ok tt }
    ensures trimmed_before_orders { verdict trimmed_and_not_below ≡ Err (3, code.Trimmed 1) }
    ensures unload_before_leave { verdict unloaded_and_outside ≡ Err (3, code.UnloadShared 1) }
    ensures unload_again { verdict unloaded_twice ≡ Err (3, code.UnloadShared 1) }
    ensures not_loaded_before_inside { enter_module (stray (1 ∷ [])) 0 1 ≡ Err (code.NotLoaded 1) }
    ensures not_loaded_before_busy { unload_module (stray (1 ∷ [])) 1 ≡ Err (code.NotLoaded 1) }
    ensures not_inside_before_hooked { leave_module (stray []) 0 1 ≡ Err (code.NotInside 1) }
    ensures past_the_last { (keys : List KeyState) (turn : Turn) (key order first count : ℕ) → 65535 < first + count - 1 → part_keys keys turn key order first count ≡ Err code.Keys }
{}
