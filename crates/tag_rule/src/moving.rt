//! A run goes from the module list to a CPU and back: base moves alone.

ghost use Rattle.std.specs.Prelude.{◌≡◌, ◌<◌, ◌∷◌, ◌++◌, [], IsTrue, None, Some, false, find, length};
ghost use Rattle.std.specs.List.{list_any};
ghost use Rattle.tag_model.specs.declared.state.Run.{Run};
ghost use Rattle.tag_rule.specs.Listed.{has_run, without_run};
ghost use Rattle.tag_rule.specs.Runs.{covers_run, is_on, other_runs, with_away, with_runs};

use crate::cpu::CpuSeat;
use crate::modules::ListSeat;
use crate::seats::exchange;
use std::marker::Brand;

/// Gives the CPU the first run on the id that an enter put on its way.
pub fn give_run(list: &mut ListSeat, cpu: &mut CpuSeat, id: u32)
    requires table { cpu.old.board ≡ list.old.board }
    requires there { IsTrue (has_run id list.old.part.away) }
    requires outside { has_run id cpu.old.part.runs ≡ false }
    requires room { length cpu.old.part.runs < 64 }
    ensures list { list.new ≡ with_away (without_run id list.old.part.away) list.old }
    ensures cpu { (run : Run) → find (is_on id) list.old.part.away ≡ Some run → cpu.new ≡ with_runs (cpu.old.part.runs ++ run ∷ []) cpu.old }
    ensures covered { (run : Run) → find (is_on id) list.old.part.away ≡ Some run → IsTrue (list_any (covers_run list.old.board.shape run list.new.part cpu.new.part) list.old.part.records) }
{
    exchange::<Brand, u32>(&cpu.words, &mut cpu.seat, &mut list.seat, &id);
    cpu.ids.push(id).unwrap();
}

/// Takes the CPU's run on the id, for a leave to end it.
pub fn take_run(list: &mut ListSeat, cpu: &mut CpuSeat, id: u32)
    requires table { cpu.old.board ≡ list.old.board }
    requires inside { IsTrue (has_run id cpu.old.part.runs) }
    requires free { cpu.old.part.hand ≡ None }
    ensures cpu { cpu.new ≡ with_runs (other_runs id cpu.old.part.runs) cpu.old }
    ensures list { (run : Run) → find (is_on id) cpu.old.part.runs ≡ Some run → list.new ≡ with_away (run ∷ list.old.part.away) list.old }
    ensures covered { (run : Run) → find (is_on id) cpu.old.part.runs ≡ Some run → IsTrue (list_any (covers_run list.old.board.shape run list.new.part cpu.new.part) list.old.part.records) }
{
    exchange::<Brand, u32>(&cpu.words, &mut cpu.seat, &mut list.seat, &id);
    cpu.ids.retain(|other| *other != id);
}
