ghost use Rattle.std.specs.Prelude.{ℕ, ◌≡◌, ◌+◌, ◌-◌, ◌++◌, ◌∷◌, [], ◌<◌, ◌≤◌, All, None, OnErr, OnOk, IfErr, vec_capacity, vec_len};
ghost use Rattle.tag_model.specs.RefMoves.{split_moves};
ghost use Rattle.tag_ref.specs.Refs.{moved_by};
ghost use Rattle.page_ext.specs.Shown.{Fits, IsWhole};
ghost use Rattle.split_swap.specs.Parts.{part_shown, parts_in, parts_shown};

use crate::refs::split_ref;
use page_ext::Block;
use std::alloc::AllocError;
use tag_rule::CpuSeat;

/// Splits a block in its halves, in frame order. Each has half of the reference; a counted one adds a call on this CPU.
pub fn split_half(cpu: &mut CpuSeat, block: Block) -> (Block, Block)
    requires table { block.cell.board ≡ cpu.old.board }
    requires hand { cpu.old.part.hand ≡ None }
    requires some { 0 < block.order }
    requires fits { Fits block }
    requires whole { IsWhole block }
    ensures first { result.0 ≡ part_shown (block.order - 1) 0 block }
    ensures second { result.1 ≡ part_shown (block.order - 1) 1 block }
    ensures fit { Fits result.0 × Fits result.1 }
    ensures whole { IsWhole result.0 × IsWhole result.1 }
    ensures cpu { cpu.new ≡ moved_by (split_moves cpu.old.part.number 2 block.cell.held) cpu.old }
{
    block.tell();
    let (mut first, mut second) = block.halve(cpu);
    split_ref(cpu, first.cell_mut(), second.cell_mut());
    (first, second)
}

/// Splits a block in all its parts of an order and appends them, by rising frame. A counted one adds a call on this CPU
/// for each part but the first. Memory comes first: where it is refused the block is handed back, and all is as before.
pub fn split_to(
    cpu: &mut CpuSeat,
    block: Block,
    order: u32,
    out: &mut Vec<Block>,
) -> Result<(), (Block, AllocError)>
    requires table { block.cell.board ≡ cpu.old.board }
    requires hand { cpu.old.part.hand ≡ None }
    requires order { order < block.order }
    requires fits { Fits block }
    requires whole { IsWhole block }
    ensures parts { OnOk result (out.new.items ≡ out.old.items ++ parts_shown order block) }
    ensures fit { All (λ part. Fits part × IsWhole part) (parts_shown order block) }
    ensures cpu { OnOk result (cpu.new ≡ moved_by (split_moves cpu.old.part.number (parts_in order block.order) block.cell.held) cpu.old) }
    ensures handed_back { IfErr result (λ refused. refused.0 ≡ block) }
    ensures same { OnErr result ((out.new.items ≡ out.old.items) × (cpu.new ≡ cpu.old)) }
{
    block.tell();
    let parts = 1usize << (block.order() - order);
    if let Err(error) = out.reserve(parts) {
        return Err((block, error));
    }
    split_into(cpu, block, order, out);
    Ok(())
}

// The same, into room that is there.
fn split_into(cpu: &mut CpuSeat, block: Block, order: u32, out: &mut Vec<Block>)
    requires table { block.cell.board ≡ cpu.old.board }
    requires hand { cpu.old.part.hand ≡ None }
    requires order { order < block.order }
    requires fits { Fits block }
    requires whole { IsWhole block }
    requires room { vec_len out.old + parts_in order block.order ≤ vec_capacity out.old }
    ensures parts { out.new.items ≡ out.old.items ++ parts_shown order block }
    ensures len { vec_len out.new ≡ vec_len out.old + parts_in order block.order }
    ensures room { vec_capacity out.old ≤ vec_capacity out.new }
    ensures cpu { cpu.new ≡ moved_by (split_moves cpu.old.part.number (parts_in order block.order) block.cell.held) cpu.old }
{
    let (first, second) = split_half(cpu, block);
    if first.order() == order {
        put(first, out);
        put(second, out);
    } else {
        split_into(cpu, first, order, out);
        split_into(cpu, second, order, out);
    }
}

fn put(block: Block, out: &mut Vec<Block>)
    requires { vec_len out.old < vec_capacity out.old }
    ensures items { out.new.items ≡ out.old.items ++ block ∷ [] }
    ensures len { vec_len out.new ≡ vec_len out.old + 1 }
    ensures room { vec_capacity out.old ≤ vec_capacity out.new }
{
    out.push(block).unwrap();
}
