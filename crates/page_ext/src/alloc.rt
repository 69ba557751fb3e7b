ghost use Rattle.std.specs.Prelude.{ℕ, ◌≡◌, ◌≢◌, ◌+◌, ◌^◌, ◌<◌, ◌≤◌, ◌↔◌, IfOk, IsErr, OnErr, Some, None, length, false};
ghost use Rattle.tag_model.specs.RefMoves.{close_moves, open_moves, reference_to};
ghost use Rattle.tag_model.specs.declared.state.Held.TheVariants as held;
ghost use Rattle.tag_ref.specs.Refs.{moved_by};
ghost use Rattle.buddy.specs.Frames.{least_start};
ghost use Rattle.page_ext.specs.Blocks.{page_bytes, with_frames};
ghost use Rattle.page_ext.specs.Shown.{Fits, holding};
ghost use Rattle.page_ext.specs.Paging.{GivesBlock, MayCount};

use crate::block::{Block, Returned};
use crate::node::Node;
use current_tag::Task;
use tag_model::{SIZE_END, page_cell};
use tag_ref::{close_ref, mark_empty, open_ref};
use tag_rule::{CellSeat, CpuSeat, part, unite};

/// The node has no free run of the order.
#[derive(Clone, Copy, Debug, PartialEq, Eq)]
pub struct NoFrames;

/// Takes the least run of 2^order free frames of the CPU's node, counted under the task's current tag, or marked as
/// memory that isn't counted where there is none.
pub fn alloc_pages(
    cpu: &mut CpuSeat,
    node: &mut Node,
    task: &Task,
    order: u32,
) -> Result<Block, NoFrames>
    requires table { node.old.board ≡ cpu.old.board }
    requires own { node.old.node.cpu ≡ cpu.old.part.number }
    requires hand { cpu.old.part.hand ≡ None }
    requires small { order ≤ 10 }
    requires allowed { MayCount task.now.current cpu.old }
    ensures gives { IfOk result (GivesBlock task.now.current order node.old node.new cpu.old cpu.new) }
    ensures no_frames { IsErr result ↔ (least_start node.old.node.frames order ≡ None) }
    ensures same { OnErr result ((node.new ≡ node.old) × (cpu.new ≡ cpu.old)) }
{
    cpu.tell();
    match node.zone.take(order) {
        None => Err(NoFrames),
        Some(start) => {
            let first = page_cell(node.pool.shape(), node.cpu, start);
            let mut cell = part(&mut node.pool, first, 1 << order);
            count_block(cpu, &mut cell, task, order);
            Ok(Block {
                home: node.cpu,
                frame: start,
                order,
                cell,
            })
        }
    }
}

// Counts a block's bytes under the task's current tag. Where there is none, its cell is marked.
fn count_block(cpu: &mut CpuSeat, cell: &mut CellSeat, task: &Task, order: u32)
    requires table { cell.old.board ≡ cpu.old.board }
    requires hand { cpu.old.part.hand ≡ None }
    requires none { cell.old.held ≡ held.None }
    requires small { order ≤ 10 }
    requires allowed { MayCount task.now.current cpu.old }
    ensures cell { cell.new ≡ record cell.old { held = reference_to task.now.current (page_bytes order) } }
    ensures cpu { cpu.new ≡ moved_by (open_moves cpu.old.part.number (reference_to task.now.current (page_bytes order))) cpu.old }
{
    count_under(cpu, cell, task, 4096 << order);
}

/// Counts so many bytes on a cell under the task's current tag. Where there is none, the cell is marked.
pub fn count_under(cpu: &mut CpuSeat, cell: &mut CellSeat, task: &Task, bytes: u64)
    requires table { cell.old.board ≡ cpu.old.board }
    requires hand { cpu.old.part.hand ≡ None }
    requires none { cell.old.held ≡ held.None }
    requires bytes { (0 < bytes) × (bytes < SIZE_END) }
    requires allowed { MayCount task.now.current cpu.old }
    ensures cell { cell.new ≡ record cell.old { held = reference_to task.now.current bytes } }
    ensures cpu { cpu.new ≡ moved_by (open_moves cpu.old.part.number (reference_to task.now.current bytes)) cpu.old }
{
    match task.current() {
        None => mark_empty(cpu, cell),
        Some(tag) => open_ref(cpu, cell, tag, bytes),
    }
}

/// Frees a block. Its reference is closed on this CPU. Where its home is this CPU its frames are free at once, and else
/// it is handed back, to go home.
pub fn free_pages(cpu: &mut CpuSeat, node: &mut Node, block: Block) -> Option<Returned>
    requires table { (node.old.board ≡ cpu.old.board) × (block.cell.board ≡ cpu.old.board) }
    requires own { node.old.node.cpu ≡ cpu.old.part.number }
    requires hand { cpu.old.part.hand ≡ None }
    requires fits { Fits block }
    requires live { block.cell.held ≢ held.None }
    requires there { block.home ≡ cpu.old.part.number → block.frame + 2 ^ block.order ≤ length node.old.node.frames }
    ensures cpu { cpu.new ≡ moved_by (close_moves cpu.old.part.number block.cell.held) cpu.old }
    ensures home { block.home ≡ cpu.old.part.number → (result ≡ None) × (node.new ≡ record node.old { node = with_frames false block.frame block.order node.old.node }) }
    ensures away { block.home ≢ cpu.old.part.number → (result ≡ Some (holding held.None block)) × (node.new ≡ node.old) }
{
    let mut block = block;
    close_ref(cpu, &mut block.cell);
    if block.home == node.cpu {
        come_home(node, block);
        None
    } else {
        Some(Returned { block })
    }
}

/// Frees the frames of a block that was freed on another CPU.
pub fn take_back(node: &mut Node, returned: Returned)
    requires table { returned.cell.board ≡ node.old.board }
    requires home { returned.home ≡ node.old.node.cpu }
    requires there { returned.frame + 2 ^ returned.order ≤ length node.old.node.frames }
    ensures { node.new ≡ record node.old { node = with_frames false returned.frame returned.order node.old.node } }
{
    come_home(node, returned.block);
}

// The cells go back to the pool, and the frames are free.
fn come_home(node: &mut Node, block: Block)
    requires table { block.cell.board ≡ node.old.board }
    requires home { block.home ≡ node.old.node.cpu }
    requires fits { Fits block }
    requires closed { block.cell.held ≡ held.None }
    requires there { block.frame + 2 ^ block.order ≤ length node.old.node.frames }
    ensures { node.new ≡ record node.old { node = with_frames false block.frame block.order node.old.node } }
{
    let Block {
        home: _,
        frame,
        order,
        cell,
    } = block;
    unite(&mut node.pool, cell);
    node.zone.give(frame, order);
}
