use super::*;
use crate::bench::{owned, sink_of, source_of};
use plant::Plant;
use round_worker::Gate;
use std::alloc::Global;
use std::sync::Wait;
use std::sync::atomic::{AtomicBool, AtomicU64, Ordering};
use std::test::Fail;
use std::thread::Threads;
use tag_model::Shape;

/// How often a CPU looks for the other.
const LOOKS: u32 = 1_000_000_000;

/// A gate at which two CPUs meet: each says that it is there, and looks for the other.
#[derive(Drop)]
struct Meeting {
    zero_is_here: AtomicBool,
    one_is_here: AtomicBool,
    zero_met: AtomicBool,
    one_met: AtomicBool,
}

impl Gate for Meeting {
    fn pass(&self, cpu: u32, _op: u64) {
        if cpu == 0 {
            meet(&self.zero_is_here, &self.one_is_here, &self.zero_met);
        } else {
            meet(&self.one_is_here, &self.zero_is_here, &self.one_met);
        }
    }
}

fn meet(own: &AtomicBool, other: &AtomicBool, met: &AtomicBool) {
    own.store(true, Ordering::SeqCst);
    for _look in 0..LOOKS {
        if other.load(Ordering::SeqCst) {
            met.store(true, Ordering::SeqCst);
            return;
        }
    }
}

/// A gate of one CPU, which is told 0, 1, 2 and so on.
#[derive(Drop)]
struct Counting {
    told: AtomicU64,
    out_of_turn: AtomicBool,
}

impl Gate for Counting {
    fn pass(&self, cpu: u32, op: u64) {
        if cpu != 0 || op != self.told.load(Ordering::SeqCst) {
            self.out_of_turn.store(true, Ordering::SeqCst);
        }
        self.told.store(op.saturating_add(1), Ordering::SeqCst);
    }
}

// The status of a run of the input whose CPUs pass the gate.
fn run_gated<R: Threads + Wait + Sync, G: Gate + Sync>(
    rt: &R,
    alloc: Global,
    gate: &G,
    input: &[u8],
) -> Result<u8, Fail> {
    let words = owned(alloc, &["run"])?;
    let mut source = source_of(alloc, input, &[])?;
    let mut sink = sink_of(alloc, &[])?;
    let mut plant = Plant::new(alloc, Shape::program())?;
    Ok(memprof(
        rt,
        alloc,
        &mut plant,
        gate,
        words.as_slice(),
        &mut source,
        &mut sink,
    ))
}

// CPU 0 and CPU 1 have an op each in one round. A run of one CPU after the other, or by one thread for all, would let
// the first one look in vain.
#[test]
fn side_by_side(rt: HostRuntime) -> Result<(), Fail> {
    let gate = Meeting {
        zero_is_here: AtomicBool::new(false),
        one_is_here: AtomicBool::new(false),
        zero_met: AtomicBool::new(false),
        one_met: AtomicBool::new(false),
    };
    let input =
        b"memprof-trace 1.0\nkernel\ntag mm/a.c 10 fa\nround\non 0 page 1 0\non 1 page 2 0\n";
    assert_eq!(rt; run_gated(&rt, rt.alloc(), &gate, input)?, 0);
    assert!(rt; gate.zero_met.load(Ordering::SeqCst) && gate.one_met.load(Ordering::SeqCst));
    Ok(())
}

// A CPU is told how many ops it has begun before, in all rounds.
#[test]
fn ops_are_counted_at_the_gate(rt: HostRuntime) -> Result<(), Fail> {
    let gate = Counting {
        told: AtomicU64::new(0),
        out_of_turn: AtomicBool::new(false),
    };
    let input =
        b"memprof-trace 1.0\nkernel\ntag mm/a.c 10 fa\nround\non 0 page 1 0\non 0 page 2 0\n\
        round\non 0 free 1\n";
    assert_eq!(rt; run_gated(&rt, rt.alloc(), &gate, input)?, 0);
    assert!(rt; !gate.out_of_turn.load(Ordering::SeqCst));
    assert_eq!(rt; gate.told.load(Ordering::SeqCst), 3);
    Ok(())
}
