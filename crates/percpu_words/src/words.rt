//! Words of CPUs, as those read them who have the right to them.

ghost use Rattle.std.specs.Prelude.{All, sum_by, slice_index, ◌<◌, ◌≡◌};
ghost use Rattle.tag_model.specs.declared.state.Kind.TheVariants.{Bytes, Calls};
ghost use Rattle.tag_model.specs.WordState.{word_place};
ghost use Rattle.tag_model.specs.Wrap.{wrap};
ghost use Rattle.percpu_words.specs.CpuWords.{word_in};
ghost use Rattle.tag_rule.specs.Shown.{CpuShown};

use tag_model::Kind;
use tag_rule::{CpuSeat, read_own};

/// The CPU's words of a tag: bytes and calls.
pub fn own_word(cpu: &mut CpuSeat, tag: u32) -> (u64, u64)
    requires { tag < cpu.old.board.shape.tags }
    ensures bytes { result.0 ≡ word_in Bytes tag cpu.old }
    ensures calls { result.1 ≡ word_in Calls tag cpu.old }
    ensures same { cpu.new ≡ cpu.old }
{
    let bytes = read_own(cpu, tag, Kind::Bytes);
    (bytes, read_own(cpu, tag, Kind::Calls))
}

/// The words of a tag, added over these CPUs. As long as all of them are lent, no word changes, so with every CPU of the
/// table the sums are those of one moment.
pub fn quiet_total(cpus: &mut [CpuSeat], tag: u32) -> (u64, u64)
    requires { All (λ (c : CpuShown). tag < c.board.shape.tags) cpus.old }
    ensures bytes { result.0 ≡ wrap (sum_by (word_in Bytes tag) cpus.old) }
    ensures calls { result.1 ≡ wrap (sum_by (word_in Calls tag) cpus.old) }
    ensures same { cpus.new ≡ cpus.old }
{
    let mut bytes: u64 = 0;
    let mut calls: u64 = 0;
    for cpu in cpus.iter_mut() {
        let own = own_word(cpu, tag);
        bytes = bytes.wrapping_add(own.0);
        calls = calls.wrapping_add(own.1);
    }
    (bytes, calls)
}
