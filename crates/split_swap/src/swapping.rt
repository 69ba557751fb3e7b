ghost use Rattle.std.specs.Prelude.{◌≡◌, None};
ghost use Rattle.page_ext.specs.Shown.{Fits, IsWhole, holding};

use crate::refs::swap_refs;
use page_ext::Block;
use tag_rule::CpuSeat;

/// Two blocks of one order exchange their references. No word of the CPU changes.
pub fn swap(cpu: &mut CpuSeat, one: &mut Block, two: &mut Block)
    requires table { (one.old.cell.board ≡ cpu.old.board) × (two.old.cell.board ≡ cpu.old.board) }
    requires hand { cpu.old.part.hand ≡ None }
    requires orders { one.old.order ≡ two.old.order }
    requires fit { Fits one.old × Fits two.old }
    requires whole { IsWhole one.old × IsWhole two.old }
    ensures one { one.new ≡ holding two.old.cell.held one.old }
    ensures two { two.new ≡ holding one.old.cell.held two.old }
    ensures fit { Fits one.new × Fits two.new }
    ensures whole { IsWhole one.new × IsWhole two.new }
    ensures cpu { cpu.new ≡ cpu.old }
{
    swap_refs(cpu, one.cell_mut(), two.cell_mut());
}
