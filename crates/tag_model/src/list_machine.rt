//! Laws of the list machine: what each op does to the bytes and the calls of the live list, and that this is what its
//! moves add up to.

ghost use Rattle.std.specs.Prelude.{IsTrue, List, [], count_by, length, slice_index, ℕ, ◌*◌, ◌+◌, ◌++◌, ◌-◌, ◌<◌, ◌==◌, ◌^◌, ◌∷◌, ◌≡◌, ◌≢◌, ◌≤◌};
ghost use Rattle.tag_model.specs.ListMachine.{Close, Live, Mark, MayDo, Open, RefOp, Split, Swap, Trim, done, done_all, held_at, in_order, op_moves, with_held};
ghost use Rattle.tag_model.specs.Moves.{Move, moved_word};
ghost use Rattle.tag_model.specs.RefMoves.{all_down, all_up, lowers, raises, words_after_move, words_after_moves};
ghost use Rattle.tag_model.specs.StepRules.{lowered, raised};
ghost use Rattle.tag_model.specs.Reference.{held_counts, live_total};
ghost use Rattle.tag_model.specs.declared.state.Held.{Held};
ghost use Rattle.tag_model.specs.declared.state.Held.TheVariants as held;
ghost use Rattle.tag_model.specs.declared.state.Kind.TheVariants.{Bytes, Calls};
ghost use Rattle.tag_model.specs.declared.state.Kind.{Kind};
ghost use Rattle.tag_model.specs.declared.state.Tag.{Tag};
ghost use Rattle.tag_model.specs.WordState.{word_place};

/// An op that may be done changes the bytes and the calls under each tag as its moves say.
pub fn ops_are_their_moves()
    ensures sums { (cpu : ℕ) (op : RefOp) (live : Live) (kind : Kind) (t : ℕ) → IsTrue (in_order live) → MayDo op live → live_total kind t (done op live) + all_down kind t (op_moves cpu op live) ≡ live_total kind t live + all_up kind t (op_moves cpu op live) }
{}

/// What this is for each op by itself. A split keeps the bytes and adds a call for each part but the first; a swap changes
/// nothing; a trim lowers bytes alone.
pub fn ops_one_by_one()
    ensures opened { (kind : Kind) (t place : ℕ) (tag : Tag) (size : ℕ) (live : Live) → IsTrue (in_order live) → MayDo (Open place tag size) live → live_total kind t (done (Open place tag size) live) ≡ live_total kind t live + held_counts kind t (held.Counted tag size) }
    ensures marked { (kind : Kind) (t place : ℕ) (live : Live) → IsTrue (in_order live) → MayDo (Mark place) live → live_total kind t (done (Mark place) live) ≡ live_total kind t live }
    ensures closed { (kind : Kind) (t place : ℕ) (live : Live) → IsTrue (in_order live) → live_total kind t (done (Close place) live) + held_counts kind t (held_at place live) ≡ live_total kind t live }
    ensures split_keeps_bytes { (t place : ℕ) (others : List ℕ) (live : Live) → IsTrue (in_order live) → MayDo (Split place others) live → live_total Bytes t (done (Split place others) live) ≡ live_total Bytes t live }
    ensures split_adds_calls { (t place : ℕ) (others : List ℕ) (live : Live) → IsTrue (in_order live) → MayDo (Split place others) live → live_total Calls t (done (Split place others) live) ≡ live_total Calls t live + length others * held_counts Calls t (held_at place live) }
    ensures swapped { (kind : Kind) (t one two : ℕ) (live : Live) → IsTrue (in_order live) → live_total kind t (done (Swap one two) live) ≡ live_total kind t live }
    ensures trim_lowers_bytes { (t place bytes : ℕ) (tag : Tag) (size : ℕ) (live : Live) → IsTrue (in_order live) → held_at place live ≡ held.Counted tag size → bytes < size → live_total Bytes t (done (Trim place bytes) live) + held_counts Bytes t (held.Counted tag bytes) ≡ live_total Bytes t live }
    ensures trim_keeps_calls { (t place bytes : ℕ) (live : Live) → IsTrue (in_order live) → live_total Calls t (done (Trim place bytes) live) ≡ live_total Calls t live }
{}

/// After an op the places still rise, so that none stands twice. A place holds what was put there last, and other places
/// hold what they held.
pub fn places_of_live_lists()
    ensures in_order { (op : RefOp) (live : Live) → IsTrue (in_order live) → IsTrue (in_order (done op live)) }
    ensures none_twice { (live : Live) (place : ℕ) → IsTrue (in_order live) → count_by (λ (entry : ℕ × Held). entry.0 == place) live ≤ 1 }
    ensures here { (place : ℕ) (h : Held) (live : Live) → held_at place (with_held place h live) ≡ h }
    ensures elsewhere { (other place : ℕ) (h : Held) (live : Live) → other ≢ place → held_at other (with_held place h live) ≡ held_at other live }
{}

/// Worked rows. 12,288 bytes at place 5 are split in three over places 9 and 2; a mark; a swap of a part with the mark; a
/// trim; a free.
pub fn rows_of_the_list_machine()
    ensures opened { done (Open 5 (record { number = 3; «module» = 2 }) 12288) [] ≡ (5, held.Counted (record { number = 3; «module» = 2 }) 12288) ∷ [] }
    ensures split { done_all (Open 5 (record { number = 3; «module» = 2 }) 12288 ∷ Split 5 (9 ∷ 2 ∷ []) ∷ []) [] ≡ (2, held.Counted (record { number = 3; «module» = 2 }) 4096) ∷ (5, held.Counted (record { number = 3; «module» = 2 }) 4096) ∷ (9, held.Counted (record { number = 3; «module» = 2 }) 4096) ∷ [] }
    ensures split_mark { done_all (Mark 5 ∷ Split 5 (6 ∷ []) ∷ []) [] ≡ (5, held.Empty) ∷ (6, held.Empty) ∷ [] }
    ensures swapped { done_all (Open 5 (record { number = 3; «module» = 2 }) 64 ∷ Mark 1 ∷ Swap 1 5 ∷ []) [] ≡ (1, held.Counted (record { number = 3; «module» = 2 }) 64) ∷ (5, held.Empty) ∷ [] }
    ensures trimmed { done_all (Open 5 (record { number = 3; «module» = 2 }) 12288 ∷ Mark 1 ∷ Trim 5 8192 ∷ Trim 1 8192 ∷ []) [] ≡ (1, held.Empty) ∷ (5, held.Counted (record { number = 3; «module» = 2 }) 4096) ∷ [] }
    ensures closed { done_all (Open 5 (record { number = 3; «module» = 2 }) 12288 ∷ Mark 1 ∷ Close 5 ∷ []) [] ≡ (1, held.Empty) ∷ [] }
    ensures split_move { op_moves 7 (Split 5 (9 ∷ 2 ∷ [])) ((5, held.Counted (record { number = 3; «module» = 2 }) 12288) ∷ []) ≡ record { cpu = 7; kind = Calls; tag = 3; up = 2; down = 0 } ∷ [] }
    ensures free_of_a_mark { op_moves 7 (Close 5) ((5, held.Empty) ∷ []) ≡ [] }
{}

/// A move that raises or lowers a CPU's word is the step that does. A CPU's words that were the sums of some moves are,
/// after more moves, the sums of all of them.
pub fn words_follow_moves()
    ensures raised { (cpu : ℕ) (kind : Kind) (tag : Tag) (n : ℕ) (words : List ℕ) → words_after_move cpu words (raises cpu kind tag n) ≡ raised kind tag.number n words }
    ensures lowered { (cpu : ℕ) (kind : Kind) (tag : Tag) (n : ℕ) (words : List ℕ) → words_after_move cpu words (lowers cpu kind tag n) ≡ lowered kind tag.number n words }
    ensures another_cpus { (cpu other : ℕ) (kind : Kind) (tag : Tag) (n : ℕ) (words : List ℕ) → other ≢ cpu → words_after_move cpu words (raises other kind tag n) ≡ words }
    ensures follow { (cpu tags : ℕ) (words : List ℕ) (before now : List Move) → length words ≡ 2 * tags → ((kind : Kind) (t : ℕ) → t < tags → slice_index words (word_place kind t) ≡ moved_word before cpu kind t) → (kind : Kind) (t : ℕ) → t < tags → slice_index (words_after_moves cpu words now) (word_place kind t) ≡ moved_word (before ++ now) cpu kind t }
{}
