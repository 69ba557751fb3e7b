//! One reference is shared by two cells, and two cells exchange theirs, a step at a time.

ghost use Rattle.std.specs.Prelude.{ℕ, ◌≡◌, ◌+◌, ◌<◌, IsTrue, None};
ghost use Rattle.tag_model.specs.Reference.{held_fits};
ghost use Rattle.tag_model.specs.RefMoves.{part_of, split_moves};
ghost use Rattle.tag_model.specs.declared.state.Held.TheVariants as held;
ghost use Rattle.tag_ref.specs.Refs.{holding, moved_by};
ghost use Rattle.split_swap.specs.Sharing.{CanHalve};

use tag_model::{Held, SIZE_END, Tag};
use tag_rule::{CellSeat, CpuSeat, add_call, write_cell};

/// Shares the reference of the first cell out to both. A counted one adds a call.
pub(crate) fn split_ref(cpu: &mut CpuSeat, first: &mut CellSeat, second: &mut CellSeat)
    requires table { (first.old.board ≡ cpu.old.board) × (second.old.board ≡ cpu.old.board) }
    requires hand { cpu.old.part.hand ≡ None }
    requires none { second.old.held ≡ held.None }
    requires even { CanHalve first.old.held }
    ensures first { first.new ≡ holding (part_of 2 first.old.held) first.old }
    ensures second { second.new ≡ holding (part_of 2 first.old.held) second.old }
    ensures cpu { cpu.new ≡ moved_by (split_moves cpu.old.part.number 2 first.old.held) cpu.old }
{
    match first.held() {
        Held::Counted { tag, size } => share(cpu, first, second, tag, size / 2),
        held => write_cell(cpu, second, held),
    }
}

// Both halves of a counted reference: it is taken in hand, a call is added, and each cell gets its half.
fn share(cpu: &mut CpuSeat, first: &mut CellSeat, second: &mut CellSeat, tag: Tag, half: u64)
    requires table { (first.old.board ≡ cpu.old.board) × (second.old.board ≡ cpu.old.board) }
    requires hand { cpu.old.part.hand ≡ None }
    requires none { second.old.held ≡ held.None }
    requires two { first.old.held ≡ held.Counted tag (half + half) }
    requires some { (0 < half) × (half + half < SIZE_END) }
    ensures first { first.new ≡ holding (held.Counted tag half) first.old }
    ensures second { second.new ≡ holding (held.Counted tag half) second.old }
    ensures cpu { cpu.new ≡ moved_by (split_moves cpu.old.part.number 2 first.old.held) cpu.old }
{
    write_cell(cpu, first, Held::None);
    add_call(cpu, tag);
    write_cell(cpu, first, Held::Counted { tag, size: half });
    write_cell(cpu, second, Held::Counted { tag, size: half });
}

/// Two cells exchange what they hold. What the first held is in hand until the second holds it.
pub(crate) fn swap_refs(cpu: &mut CpuSeat, one: &mut CellSeat, two: &mut CellSeat)
    requires table { (one.old.board ≡ cpu.old.board) × (two.old.board ≡ cpu.old.board) }
    requires hand { cpu.old.part.hand ≡ None }
    ensures one { one.new ≡ holding two.old.held one.old }
    ensures two { two.new ≡ holding one.old.held two.old }
    ensures cpu { cpu.new ≡ cpu.old }
{
    one.tell();
    two.tell();
    let held = one.held();
    let other = two.held();
    write_cell(cpu, one, Held::None);
    write_cell(cpu, two, held);
    write_cell(cpu, one, other);
}
