//! The words of CPUs.

ghost use Rattle.std.specs.Prelude.{◌≡◌, ◌<◌, All, Some, length, slice_get};
ghost use Rattle.tag_rule.specs.Shown.{CpuShown};
ghost use Rattle.plant.specs.Table.{tag_words};

use tag_model::Kind;
use tag_rule::{CpuSeat, read_own};

/// The bytes and the calls of a tag that the CPU at a place has.
pub(crate) fn words_at(cpus: &mut [CpuSeat], place: usize, tag: u32) -> (u64, u64)
    requires place { place < length cpus.old }
    requires tag { All (λ (c : CpuShown). tag < c.board.shape.tags) cpus.old }
    ensures words { (c : CpuShown) → slice_get cpus.old place ≡ Some c → result ≡ tag_words tag c }
    ensures same { cpus.new ≡ cpus.old }
{
    read_words(&mut cpus[place], tag)
}

fn read_words(cpu: &mut CpuSeat, tag: u32) -> (u64, u64)
    requires { tag < cpu.old.board.shape.tags }
    ensures words { result ≡ tag_words tag cpu.old }
    ensures same { cpu.new ≡ cpu.old }
{
    let bytes = read_own(cpu, tag, Kind::Bytes);
    (bytes, read_own(cpu, tag, Kind::Calls))
}
