ghost use Rattle.std.specs.Prelude.{◌≡◌};
ghost use Rattle.round_worker.specs.Shown.{Ready};

use super::*;
use reclaim::{Locked, ModuleList, load_locked};
use round_worker::{OpenGate, Worker};
use std::alloc::{AllocError, Global};
use std::marker::Brand;
use std::mem;
use std::sync::{Arc, Wait};
use std::test::Fail;
use tag_model::Shape;
use tag_rule::{CpuSeat, Name};
use tag_section::Sections;
use trace::{OnOp, TraceOp, read_trace};

const TEXT: &[u8] = b"memprof-trace 1.0\ncpus 1\narea 4\nkernel\ntag mm/slub.c 1 slab\nmodule ext\n\
    tag m/x.c 5 fx\n";

// The worker of CPU 0, which has done nothing, and the list of its table.
#[derive(Drop)]
struct Alone {
    worker: Worker,
    cpu: CpuSeat,
    locked: Locked,
    ghost ready: { Ready worker cpu },
    ghost none: { (worker.failed ≡ 0) × (worker.uncounted ≡ 0) },
}

// A run of the text begins, and the module of section 1 is loaded. The other tokens are let go.
fn new_alone(alloc: Global) -> Result<Alone, Fail> {
    let mut trace = read_trace(alloc, TEXT)?;
    let sections = mem::replace(&mut trace.sections, Sections::new(alloc));
    let sections = Arc::new(alloc, sections)?;
    let mut plant = Plant::new(alloc, Shape::program())?;
    let Started {
        mut cpus,
        mut workers,
        mut locked,
        mut pass,
        pages: _,
        vectors: _,
    } = plant.start(&trace, sections)?;
    let _id = load_locked(&mut locked, &mut pass, 1)?;
    let worker = workers.remove(0);
    let cpu = cpus.remove(0);
    Ok(Alone {
        worker,
        cpu,
        locked,
    })
}

// The id of the section's loaded module, before a round whose one op unloads it and after that round.
fn loaded_behind<N: Name, R: Wait>(
    rt: &R,
    worker: &mut Worker,
    cpu: &mut CpuSeat,
    locked: Locked,
    section: u32,
) -> Result<(Option<u32>, Option<u32>), AllocError>
    requires named { locked.board ≡ N.board }
    requires ready { Ready worker.old cpu.old }
    requires none { (worker.old.failed ≡ 0) × (worker.old.uncounted ≡ 0) }
{
    let list: ModuleList<N> = ModuleList::new(locked);
    let before = list.lock(rt).loaded(section);
    let ops = [OnOp {
        line: 1,
        cpu: 0,
        op: TraceOp::Unload { section },
    }];
    worker.round(rt, cpu, &list, &OpenGate, &ops)?;
    let after = list.lock(rt).loaded(section);
    Ok((before, after))
}

// The same, of a table that has no name.
fn loaded_around<R: Wait>(
    rt: &R,
    alone: Alone,
    section: u32,
) -> Result<(Option<u32>, Option<u32>), AllocError> {
    let Alone {
        mut worker,
        mut cpu,
        locked,
    } = alone;
    loaded_behind::<Brand, R>(rt, &mut worker, &mut cpu, locked, section)
}

// The module has no references, and no CPU is inside it. A round with the one op leaves none of the section loaded.
#[test]
fn worker_unloads(rt: HostRuntime) -> Result<(), Fail> {
    let alone = new_alone(rt.alloc())?;
    assert_eq!(rt; loaded_around(&rt, alone, 1)?, (Some(1), None));
    Ok(())
}
