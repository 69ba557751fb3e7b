//! What the places of a walk, and many steps of it, are like. The functions do nothing: what they promise are laws of the
//! definitions.

ghost use Rattle.std.specs.Prelude.{ℕ, ◌≡◌, ◌++◌, Bool, true, false, List, AllPairs, MatchOption, [], ◌∷◌, replicate, take};
ghost use Rattle.reclaim.specs.State.{IsLocked, LockedShown};
ghost use Rattle.tag_iter.specs.Places.{IsBefore, after_place, fresh_iter, next_place, places_among, places_of};
ghost use Rattle.tag_iter.specs.Walks.{given, places_left};
ghost use Rattle.tag_iter.specs.Worked.{changed_entries, changed_places, worked_entries, worked_kept_places, worked_list, worked_places, worked_sections};
ghost use Rattle.tag_iter.specs.declared.iter.TagIter.{TagIter};

/// The places of a walk stand in its order, none of them twice.
pub fn places_rise()
    ensures { (all : Bool) (l : LockedShown) → IsLocked l → AllPairs IsBefore (places_of all l) }
{}

/// What an iterator gives next is the first of what it has still to give, and it then has the others to give.
pub fn a_step_gives_the_first_of_what_is_left()
    ensures { (iter : TagIter) (l : LockedShown) → IsLocked l
        → MatchOption (next_place iter l) (places_left iter l ≡ [])
        (λ place. places_left iter l ≡ place ∷ places_left (after_place iter (next_place iter l)) l) }
{}

/// Over a module list that stays as it is, the first steps of a new iterator give the first places, each once and in their
/// order, and all later steps give nothing.
pub fn a_walk_gives_each_place_once()
    ensures { (all : Bool) (l : LockedShown) (steps : ℕ) → IsLocked l → given (fresh_iter all) (replicate steps l) ≡ take steps (places_of all l) }
{}

/// Whatever becomes of the module list between the steps, no place comes twice, and none comes after a later one.
pub fn places_rise_while_the_list_changes()
    ensures { (iter : TagIter) (lists : List LockedShown) → AllPairs IsBefore (given iter lists) }
{}

/// A worked module list: the kernel's tag, the loaded modules by rising id, and then, where all are walked, the dead one,
/// though its id is the least.
pub fn a_worked_walk()
    ensures loaded { places_among false worked_sections worked_entries ≡ worked_places }
    ensures all { places_among true worked_sections worked_entries ≡ worked_places ++ worked_kept_places }
{}

/// A module of the worked list is unloaded when its first tag was given: its other tag isn't given as loaded any more, and at
/// the end both are given as kept.
pub fn a_worked_change()
    ensures { (l : LockedShown) → given (fresh_iter true) (replicate 2 (worked_list worked_entries l) ++ replicate 9 (worked_list changed_entries l)) ≡ changed_places }
{}
