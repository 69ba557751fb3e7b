//! The laws at work on a small state (`specs/Worked.antt`): it is safe, and where one thing in it is other than it is, it
//! isn't. The functions do nothing: what they promise are facts of the definitions.

ghost use Rattle.std.specs.Prelude.{true, false, List, [], ◌∷◌};
ghost use Rattle.tag_model.specs.Laws.{Safe};
ghost use Rattle.tag_model.specs.Worked.{at_second, dead_tag, first_cpu, first_module, freeing, kernel_tag, note_of_dead, run_inside, second_cpu, second_module, small_list, small_places, small_shape, small_state, state_of, with_hand, with_list, with_note, with_places, with_records, with_sweep};
ghost use Rattle.tag_model.specs.declared.state.Held.TheVariants as held;
ghost use Rattle.tag_model.specs.declared.state.Kind.TheVariants.{Calls};
ghost use Rattle.tag_model.specs.declared.state.Part.TheVariants.{NextId, Place};
ghost use Rattle.tag_model.specs.declared.state.Sweep.TheVariants as sweep;

/// The small state is safe: a run, a note, a reference and a hand of a dead module, words that wrapped, and a sweep
/// between two reads.
pub fn the_small_state_is_safe()
    ensures { Safe small_shape small_state }
{}

/// A note that tells the record of its id wrongly, or one of an id that wasn't given, isn't safe.
pub fn notes_agree_or_it_is_not_safe()
    ensures another_section { ¬ Safe small_shape (with_note (record note_of_dead { section = 1 })) }
    ensures another_start { ¬ Safe small_shape (with_note (record note_of_dead { start = 2 })) }
    ensures another_length { ¬ Safe small_shape (with_note (record note_of_dead { length = 1 })) }
    ensures dead_but_loaded { ¬ Safe small_shape (with_note (record { id = 1; section = 1; start = 2; length = 2; seen_dead = true })) }
    ensures not_given { ¬ Safe small_shape (with_note (record note_of_dead { id = 3 })) }
{}

/// A reference or a hand whose tag no record of its module has in its range isn't safe.
pub fn tags_are_covered_or_it_is_not_safe()
    ensures no_record { ¬ Safe small_shape (with_places (Place 0 (held.Counted (record dead_tag { «module» = 3 }) 64) ∷ Place 1 (held.Counted kernel_tag 8) ∷ [])) }
    ensures another_range { ¬ Safe small_shape (with_places (Place 0 (held.Counted (record dead_tag { «module» = 1 }) 64) ∷ Place 1 (held.Counted kernel_tag 8) ∷ [])) }
    ensures no_kernel_tag { ¬ Safe small_shape (with_places (Place 0 (held.Counted (record dead_tag { «module» = 0 }) 64) ∷ Place 1 (held.Counted kernel_tag 8) ∷ [])) }
    ensures hand { ¬ Safe small_shape (with_hand (record freeing { tag = record dead_tag { «module» = 1 } })) }
    ensures opening { ¬ Safe small_shape (with_hand (record freeing { opening = true })) }
{}

/// A run on a module that is dead or has another range, users that aren't the runs, ranges that overlap, ids that stand
/// twice or aren't below the next one: each isn't safe.
pub fn records_and_runs_agree_or_it_is_not_safe()
    ensures run_on_dead { ¬ Safe small_shape (with_records (record first_module { dead = true } ∷ second_module ∷ [])) }
    ensures run_on_another_range { ¬ Safe small_shape (state_of (record first_cpu { runs = record run_inside { length = 1 } ∷ [] }) second_cpu small_places small_list) }
    ensures another_user { ¬ Safe small_shape (with_records (record first_module { users = 2 } ∷ second_module ∷ [])) }
    ensures ranges_overlap { ¬ Safe small_shape (with_records (record first_module { length = 3 } ∷ second_module ∷ [])) }
    ensures an_id_twice { ¬ Safe small_shape (with_records (first_module ∷ record second_module { id = 1 } ∷ [])) }
    ensures not_below_next { ¬ Safe small_shape (with_records (first_module ∷ record second_module { id = 3 } ∷ [])) }
{}

/// Words that aren't what is counted, a sweep whose sum is too low for what is still to read, one that is done over what
/// is counted, one that reads calls over bytes, and one that lists what isn't dead: each isn't safe.
pub fn sums_and_sweep_agree_or_it_is_not_safe()
    ensures a_byte_more { ¬ Safe small_shape (with_places (Place 0 (held.Counted dead_tag 65) ∷ Place 1 (held.Counted kernel_tag 8) ∷ [])) }
    ensures a_call_less { ¬ Safe small_shape (with_places (Place 1 (held.Counted kernel_tag 8) ∷ [])) }
    ensures sum_too_low { ¬ Safe small_shape (with_sweep (sweep.Reading (2 ∷ []) (record at_second { sum = 40 }))) }
    ensures done_too_early { ¬ Safe small_shape (with_sweep (sweep.Done (2 ∷ []))) }
    ensures calls_too_early { ¬ Safe small_shape (with_sweep (sweep.Reading (2 ∷ []) (record at_second { pass = Calls; sum = 2 }))) }
    ensures past_the_tag { ¬ Safe small_shape (with_sweep (sweep.Reading (2 ∷ []) (record at_second { tag = 5; cpu = 0; sum = 0 }))) }
    ensures lists_the_loaded { ¬ Safe small_shape (with_sweep (sweep.Reading (1 ∷ []) (record at_second { id = 1; tag = 2; sum = 0 }))) }
{}
