//! Worked schedules. The functions do nothing: each of their clauses is what a schedule writes, or the line that is
//! refused.

ghost use Rattle.std.specs.Prelude.{◌≡◌, ◌++◌, Ok, Err, codes};
ghost use Rattle.allocinfo.specs.Text.{header_text};
ghost use Rattle.input_form.specs.declared.code.Code.TheVariants.{NoRoom, AlreadyLoaded};
ghost use Rattle.step_play.specs.Rows.{written_by, one_allocation, remote_free_words, split_counts, split_race, free_in_progress, clean_after_kept, range_used_again, loads_twice};

/// The words wrap and the sums don't; a split counts calls.
pub fn worked_schedules()
    ensures one_allocation { written_by one_allocation ≡ Ok (header_text
        ++ codes "        4096        1 mm/a.c:10 func:fa \n") }
    ensures remote_free_words { written_by remote_free_words ≡ Ok (header_text
        ++ codes "           0        0 mm/a.c:10 func:fa \n"
        ++ codes "cpu 0 bytes 4096 calls 1\n"
        ++ codes "cpu 1 bytes 18446744073709547520 calls 18446744073709551615\n"
        ++ codes "cpu 2 bytes 0 calls 0\n"
        ++ codes "cpu 3 bytes 0 calls 0\n") }
    ensures split_counts { written_by split_counts ≡ Ok (header_text
        ++ codes "       16384        4 mm/a.c:10 func:fa \n" ++ header_text
        ++ codes "       12288        3 mm/a.c:10 func:fa \n") }
{}

/// What a sweep finds while others step, and a range that is given again.
pub fn worked_schedules_of_modules()
    ensures split_race { written_by split_race ≡ Ok (codes "unload ext: kept m/x.c:5 bytes 4096\n") }
    ensures free_in_progress { written_by free_in_progress ≡ Ok (codes "unload ext: kept m/x.c:5 calls 1\n") }
    ensures clean_after_kept { written_by clean_after_kept ≡ Ok (codes "unload ext: kept m/x.c:5 calls 1\nclean ext: released\n") }
    ensures range_used_again { written_by range_used_again ≡ Ok (codes "unload ext: released\n" ++ header_text
        ++ codes "           0        0 mm/a.c:10 func:fa \n"
        ++ codes "         100        1 m/y.c:7 [two] func:fy \n"
        ++ codes "cpu 0 bytes 100 calls 2\n"
        ++ codes "cpu 1 bytes 0 calls 18446744073709551615\n") }
    ensures no_room_in_the_area { written_by (loads_twice 2) ≡ Err (13, NoRoom) }
    ensures already_loaded { written_by (loads_twice 1) ≡ Err (13, AlreadyLoaded 1) }
{}
