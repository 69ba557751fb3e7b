//! What parts and exchanges are to the list machine, and the definitions at worked rows.

ghost use Rattle.std.specs.List.{range_with_len};
ghost use Rattle.std.specs.Prelude.{ℕ, ◌≡◌, ◌≢◌, ◌<◌, ◌∷◌, [], map};
ghost use Rattle.tag_model.specs.ListMachine.{Live, Swap, done, held_at, op_moves};
ghost use Rattle.tag_model.specs.RefMoves.{split_moves};
ghost use Rattle.tag_model.specs.declared.state.Held.TheVariants as held;
ghost use Rattle.tag_model.specs.declared.state.Kind.TheVariants.{Calls};
ghost use Rattle.tag_model.specs.declared.state.Tag.{Tag};
ghost use Rattle.page_ext.specs.Shown.{BlockShown, block_of};
ghost use Rattle.split_swap.specs.Parts.{part_at, part_shown, parts_in, split_op};

/// A split in parts is a split of the list machine, of the block's place in the places of its parts: each has what the
/// part holds, and its moves are those of the call. An exchange is a swap, with no move. A part with its cells is a part.
pub fn parts_follow_the_list_machine()
    ensures split { (order : ℕ) (block : BlockShown) (live : Live) → held_at block.cell.first live ≡ block.cell.held → (place : ℕ) → place < parts_in order block.order → held_at (part_shown order place block).cell.first (done (split_op order block) live) ≡ (part_shown order place block).cell.held }
    ensures split_moves { (cpu order : ℕ) (block : BlockShown) (live : Live) → held_at block.cell.first live ≡ block.cell.held → op_moves cpu (split_op order block) live ≡ split_moves cpu (parts_in order block.order) block.cell.held }
    ensures swapped_one { (one two : ℕ) (live : Live) → held_at one (done (Swap one two) live) ≡ held_at two live }
    ensures swapped_two { (one two : ℕ) (live : Live) → one ≢ two → held_at two (done (Swap one two) live) ≡ held_at one live }
    ensures swap_moves { (cpu one two : ℕ) (live : Live) → op_moves cpu (Swap one two) live ≡ [] }
    ensures shown { (order place : ℕ) (block : BlockShown) → block_of (part_shown order place block) ≡ part_at order place (block_of block) }
{}

/// A block of eight frames at frame 8 in parts of two: they begin at 8, 10, 12 and 14, and the move is three calls. The
/// parts of a block that isn't counted are marked, and no call is moved.
pub fn worked_parts()
    ensures four { (tag : Tag) → map (λ place. part_at 1 place (record { home = 0; frame = 8; order = 3; holds = held.Counted tag 32768 })) (range_with_len 0 (parts_in 1 3)) ≡ record { home = 0; frame = 8; order = 1; holds = held.Counted tag 8192 } ∷ record { home = 0; frame = 10; order = 1; holds = held.Counted tag 8192 } ∷ record { home = 0; frame = 12; order = 1; holds = held.Counted tag 8192 } ∷ record { home = 0; frame = 14; order = 1; holds = held.Counted tag 8192 } ∷ [] }
    ensures three_calls { (tag : Tag) → split_moves 5 (parts_in 1 3) (held.Counted tag 32768) ≡ record { cpu = 5; kind = Calls; tag = tag.number; up = 3; down = 0 } ∷ [] }
    ensures marked { part_at 0 1 (record { home = 2; frame = 4; order = 1; holds = held.Empty }) ≡ record { home = 2; frame = 5; order = 0; holds = held.Empty } }
    ensures no_call { split_moves 5 2 held.Empty ≡ [] }
{}
