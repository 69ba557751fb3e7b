//! What a block's reference is to the list machine, and the definitions at worked rows.

ghost use Rattle.std.specs.Prelude.{ℕ, ◌≡◌, ◌∷◌, [], true, false, Option, Some, None, List, replicate};
ghost use Rattle.tag_model.specs.ListMachine.{Close, Live, done, held_at, op_moves};
ghost use Rattle.tag_model.specs.RefMoves.{close_moves, open_moves, reference_to};
ghost use Rattle.tag_model.specs.declared.state.Held.TheVariants as held;
ghost use Rattle.tag_model.specs.declared.state.Tag.{Tag};
ghost use Rattle.tag_model.specs.Index.{page_index};
ghost use Rattle.page_ext.specs.Blocks.{block_at, is_whole, page_bytes, with_frames};
ghost use Rattle.page_ext.specs.Paging.{alloc_op};

/// An allocation is an open of the list machine, or a mark where there is no tag: at its place stands what the block
/// holds, and its moves are those of the call. A free is a close.
pub fn blocks_follow_the_list_machine()
    ensures allocated { (tag : Option Tag) (size place : ℕ) (live : Live) → held_at place (done (alloc_op tag size place) live) ≡ reference_to tag size }
    ensures allocated_moves { (cpu : ℕ) (tag : Option Tag) (size place : ℕ) (live : Live) → op_moves cpu (alloc_op tag size place) live ≡ open_moves cpu (reference_to tag size) }
    ensures freed { (place : ℕ) (live : Live) → held_at place (done (Close place) live) ≡ held.None }
    ensures freed_moves { (cpu place : ℕ) (live : Live) → op_moves cpu (Close place) live ≡ close_moves cpu (held_at place live) }
{}

/// The bytes of some orders; a block of two frames at frame 6 of CPU 2, under a tag and under none; two frames of a node
/// of four, taken and then free; whole references; and the cell of frame 2 of CPU 1 where each of two CPUs has 8 words
/// and 4 frames.
pub fn worked_blocks()
    ensures bytes { (page_bytes 0 ≡ 4096) × (page_bytes 3 ≡ 32768) × (page_bytes 10 ≡ 4194304) }
    ensures counted { (tag : Tag) → block_at (Some tag) 2 1 6 ≡ record { home = 2; frame = 6; order = 1; holds = held.Counted tag 8192 } }
    ensures marked { block_at None 2 1 6 ≡ record { home = 2; frame = 6; order = 1; holds = held.Empty } }
    ensures taken { with_frames true 2 1 (record { cpu = 0; frames = replicate 4 false }) ≡ record { cpu = 0; frames = false ∷ false ∷ true ∷ true ∷ [] } }
    ensures given { with_frames false 2 1 (record { cpu = 0; frames = replicate 4 true }) ≡ record { cpu = 0; frames = true ∷ true ∷ false ∷ false ∷ [] } }
    ensures whole { (tag : Tag) → (is_whole 1 (held.Counted tag 8192) ≡ true) × (is_whole 1 (held.Counted tag 4096) ≡ false) × (is_whole 1 held.Empty ≡ true) × (is_whole 1 held.None ≡ false) }
    ensures cell { page_index (record { cpus = 2; tags = 4; kernel_tags = 1; frames = 4; vectors = 0 }) 1 2 ≡ 23 }
{}
