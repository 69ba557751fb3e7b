//! What a cell's reference tells.

ghost use Rattle.std.specs.Prelude.{◌≡◌, ◌++◌, ◌↔◌, All, IfOk, IsNone, IsSomeAnd, IsTrue, OnErr, Some, map, ℕ};
ghost use Rattle.std.specs.List.{range_with_len};
ghost use Rattle.tag_model.specs.Telling.{is_covered_by};
ghost use Rattle.tag_model.specs.declared.state.Held.TheVariants as held;
ghost use Rattle.tag_model.specs.declared.state.Tag.{Tag};
ghost use Rattle.module_area.specs.Entries.{Covers, entry_of};
ghost use Rattle.reclaim.specs.Telling.{Appends, IsUntold, TellsTag, entry_text, kernel_text};
ghost use Rattle.reclaim.specs.State.{part_of};
ghost use Rattle.tag_rule.specs.Meeting.{AreMet, first_notes};
ghost use Rattle.tag_rule.specs.Shown.{CpuShown};

use crate::Locked;
use std::alloc::AllocError;
use tag_model::{Held, Tag};
use tag_rule::{CellSeat, CpuSeat, LoadPass, meet, meet_all};

impl Locked {
    /// A counted cell's tag is the kernel's, or the entry of its module has it in its range.
    pub fn meet(&mut self, cell: &mut CellSeat)
        requires table { cell.old.board ≡ self.old.board }
        ensures same { (self.new ≡ self.old) × (cell.new ≡ cell.old) }
        ensures covered { (tag : Tag) (size : ℕ) → cell.old.held ≡ held.Counted tag size → IsTrue (is_covered_by self.old.board.shape (part_of self.old).records tag) }
    {
        meet(&mut self.list, cell);
    }

    /// The module list, the next id and all CPUs meet.
    pub fn meet_all(&mut self, pass: &mut LoadPass, cpus: &mut [CpuSeat])
        requires tables { (pass.old.board ≡ self.old.board) × All (λ (c : CpuShown). c.board ≡ self.old.board) cpus.old }
        requires all { map (λ (c : CpuShown). c.part.number) cpus.old ≡ range_with_len 0 self.old.board.shape.cpus }
        ensures same { (self.new ≡ self.old) × (pass.new ≡ pass.old) }
        ensures noted { cpus.new ≡ first_notes (part_of self.old).records cpus.old }
        ensures met { AreMet self.old.board.shape (part_of self.old) pass.old.next cpus.new }
    {
        meet_all(&mut self.list, pass, cpus);
    }
}

/// Appends the text of the very tag under which the cell was counted, however often the area was used again. It tells no
/// tag exactly where the cell isn't counted, or is counted under a number at which the kernel's section has no tag.
pub fn tag_of_locked(
    locked: &mut Locked,
    cell: &mut CellSeat,
    out: &mut Vec<u8>,
) -> Result<Option<Tag>, AllocError>
    requires table { cell.old.board ≡ locked.old.board }
    ensures told { IfOk result (λ told. TellsTag locked.old cell.old.held told out.old.items out.new.items) }
    ensures none { IfOk result (λ told. IsNone told ↔ IsUntold locked.old cell.old.held) }
    ensures err { OnErr result (out.new.items ≡ out.old.items) }
    ensures same { (locked.new ≡ locked.old) × (cell.new ≡ cell.old) }
{
    locked.tell();
    locked.meet(cell);
    let Held::Counted { tag, .. } = cell.held() else {
        return Ok(None);
    };
    if tag.module == 0 {
        locked.kernel_tag(tag, out)
    } else {
        locked.module_tag(tag, out)
    }
}

impl Locked {
    // The text of a tag of the kernel.
    fn kernel_tag(&self, tag: Tag, out: &mut Vec<u8>) -> Result<Option<Tag>, AllocError>
        ensures told { IfOk result (λ told. Appends (kernel_text self.now.sections tag.number) tag told out.old.items out.new.items) }
        ensures err { OnErr result (out.new.items ≡ out.old.items) }
    {
        if self.sections.count() == 0 || self.sections.len_of(0) <= tag.number {
            return Ok(None);
        }
        self.sections.tag(0, tag.number).to_text(None, out)?;
        Ok(Some(tag))
    }

    // The text of a module's tag.
    fn module_tag(&self, tag: Tag, out: &mut Vec<u8>) -> Result<Option<Tag>, AllocError>
        requires { IsSomeAnd (entry_of self.now.area.entries tag.module) (λ entry. Covers entry tag.number) }
        ensures some { IfOk result (λ told. told ≡ Some tag) }
        ensures told { IfOk result (λ told. Appends (entry_text self.now.sections tag.number (entry_of self.now.area.entries tag.module)) tag told out.old.items out.new.items) }
        ensures err { OnErr result (out.new.items ≡ out.old.items) }
    {
        match self.book.get(tag.module) {
            None => Ok(None),
            Some(entry) => {
                let index = tag.number - entry.start;
                let name = self.sections.name(entry.section);
                self.sections
                    .tag(entry.section, index)
                    .to_text(Some(name), out)?;
                Ok(Some(tag))
            }
        }
    }
}
