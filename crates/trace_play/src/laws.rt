//! Laws of what a trace means. The functions do nothing: what they promise are laws of the definitions.

ghost use Rattle.trace_play.specs.Answer.{run_answer, told};
ghost use Rattle.trace_play.specs.Left.{held_at};
ghost use Rattle.trace_play.specs.Rows.{empty_mark_free, empty_mark_free_text, freed_twice, kept_range_bars_load, kept_rows_printed, kept_rows_printed_text, nested_hooks, nested_hooks_text, no_frames, no_frames_text, no_vectors, no_vectors_text, range_given_again, range_given_again_text, shared_key, slab_and_object, slab_and_object_text, storage_home_at_barrier, storage_home_at_barrier_text, swapped_references, swapped_references_text, swapped_unequal, top_one_text, two_file_systems, two_file_systems_text};
ghost use Rattle.std.specs.Prelude.{◌≡◌, None, Some, codes};
ghost use Rattle.tag_model.specs.Index.{page_index, program_shape};
ghost use Rattle.tag_model.specs.Moves.{moved_word};
ghost use Rattle.tag_model.specs.declared.state.Held.TheVariants as held;
ghost use Rattle.tag_model.specs.declared.state.Kind.TheVariants.{Bytes, Calls};

/// Worked traces, with the status and the text of each.
pub fn worked_traces_print_these()
    ensures slab_and_object { told (run_answer None slab_and_object) ≡ (0, slab_and_object_text) }
    ensures top_one { told (run_answer (Some 1) slab_and_object) ≡ (0, top_one_text) }
    ensures storage_home_at_barrier { told (run_answer None storage_home_at_barrier) ≡ (0, storage_home_at_barrier_text) }
    ensures no_vectors { told (run_answer None no_vectors) ≡ (0, no_vectors_text) }
    ensures kept_range_bars_load { told (run_answer None kept_range_bars_load) ≡ (1, codes "line 19: no-room\n") }
    ensures range_given_again { told (run_answer None range_given_again) ≡ (0, range_given_again_text) }
    ensures empty_mark_free { told (run_answer None empty_mark_free) ≡ (0, empty_mark_free_text) }
    ensures freed_twice { told (run_answer None freed_twice) ≡ (1, codes "line 11: no-key 1\n") }
    ensures nested_hooks { told (run_answer None nested_hooks) ≡ (0, nested_hooks_text) }
    ensures no_frames { told (run_answer None no_frames) ≡ (0, no_frames_text) }
    ensures swapped_references { told (run_answer None swapped_references) ≡ (0, swapped_references_text) }
    ensures swapped_unequal { told (run_answer None swapped_unequal) ≡ (1, codes "line 10: orders\n") }
    ensures shared_key { told (run_answer None shared_key) ≡ (1, codes "line 8: shared-key 1\n") }
    ensures two_file_systems { told (run_answer None two_file_systems) ≡ (0, two_file_systems_text) }
    ensures kept_rows_printed { told (run_answer None kept_rows_printed) ≡ (0, kept_rows_printed_text) }
{}

/// One of them leaves these words of the tag of its blocks, and these cells.
pub fn a_worked_trace_leaves_these()
    ensures bytes_of_the_allocating_cpu { moved_word (run_answer None storage_home_at_barrier).machine.tally.moves 0 Bytes 1 ≡ 32768 }
    ensures calls_of_the_allocating_cpu { moved_word (run_answer None storage_home_at_barrier).machine.tally.moves 0 Calls 1 ≡ 2 }
    ensures bytes_of_the_freeing_cpu { moved_word (run_answer None storage_home_at_barrier).machine.tally.moves 1 Bytes 1 ≡ 18446744073709535232 }
    ensures calls_of_the_freeing_cpu { moved_word (run_answer None storage_home_at_barrier).machine.tally.moves 1 Calls 1 ≡ 18446744073709551615 }
    ensures first_cell { held_at program_shape (run_answer None storage_home_at_barrier).machine (page_index program_shape 0 0) ≡ held.Counted (record { number = 1; «module» = 0 }) 16384 }
    ensures second_cell { held_at program_shape (run_answer None storage_home_at_barrier).machine (page_index program_shape 0 1) ≡ held.None }
{}
