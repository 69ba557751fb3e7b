//! What holds of the groups of rows, by any key.

ghost use Rattle.std.specs.Prelude.{ℕ, ◌≡◌, ◌↔◌, ◌++◌, List, Ok, Err, codes, sum_by};
ghost use Rattle.tag_model.specs.Wrap.{wrap};
ghost use Rattle.info_read.specs.declared.row.InfoRow.{InfoRow};
ghost use Rattle.info_read.specs.Grammar.{IsInfoRow};
ghost use Rattle.info_group.specs.Keys.{file_key, module_key};
ghost use Rattle.info_group.specs.declared.group.Group.{Group};
ghost use Rattle.info_group.specs.Grouping.{bytes_of, calls_of, groups_of};
ghost use Rattle.info_group.specs.Laws.{IsGrouping};
ghost use Rattle.info_group.specs.Worked.{four_rows, grouped};

/// The groups stand in byte order, each name once. A name stands there exactly where it is some row's key. Each group
/// has the sums of the rows with its name as their key. And no other list of groups is like this.
pub fn groups_are_the_grouping()
    ensures grouping { (key : InfoRow → List ℕ) (rows : List InfoRow) → IsGrouping key rows (groups_of key rows) }
    ensures no_other { (key : InfoRow → List ℕ) (rows : List InfoRow) (groups : List Group) → IsGrouping key rows groups → groups ≡ groups_of key rows }
{}

/// The sums over all groups are those over all rows, as words of 64 bits.
pub fn groups_hold_what_the_rows_hold()
    ensures bytes { (key : InfoRow → List ℕ) (rows : List InfoRow) → wrap (sum_by (λ (group : Group). group.bytes) (groups_of key rows)) ≡ bytes_of rows }
    ensures calls { (key : InfoRow → List ℕ) (rows : List InfoRow) → wrap (sum_by (λ (group : Group). group.calls) (groups_of key rows)) ≡ calls_of rows }
{}

/// Rows whose parts are of their forms have the same key by module exactly where they have the same module, and it is
/// kept in both or in neither.
pub fn module_keys_tell_modules_apart()
    ensures { (one other : InfoRow) → IsInfoRow one → IsInfoRow other → (module_key one ≡ module_key other) ↔ ((one.module ≡ other.module) × (one.kept ≡ other.kept)) }
{}

/// The groups of a worked text.
pub fn worked_groups()
    ensures files { grouped file_key four_rows ≡ Ok (codes "        2048        1 fs/ext4/a.c\n"
        ++ codes "         -24        0 fs/ext4/b.c\n"
        ++ codes "           0        0 mm/a.c\n") }
    ensures modules { grouped module_key four_rows ≡ Ok (codes "         -24        0 ext4\n"
        ++ codes "        2048        1 ext4:kept\n"
        ++ codes "           0        0 kernel\n") }
    ensures refused { grouped file_key (four_rows ++ codes "done\n") ≡ Err 7 }
{}
