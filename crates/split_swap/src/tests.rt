ghost use Rattle.std.specs.Prelude.{None, ◌≡◌};

use crate::{split_half, split_to, swap};
use current_tag::Task;
use page_ext::{Node, alloc_pages};
use std::alloc::{AllocError, Global};
use std::test::Fail;
use tag_model::{Held, Kind, Shape, Tag};
use tag_rule::{CpuSeat, make, read_own};

/// A CPU with its node of sixteen frames.
#[derive(Drop)]
struct Bench {
    cpu: CpuSeat,
    node: Node,
    ghost table: { node.board ≡ cpu.board },
    ghost own: { (cpu.part.number ≡ 0) × (node.node.cpu ≡ 0) },
    ghost rests: { cpu.part.hand ≡ None },
    ghost shape: { cpu.board.shape ≡ record { cpus = 1; tags = 4; kernel_tags = 4; frames = 16; vectors = 0 } },
}

fn new_bench(alloc: Global) -> Result<Bench, AllocError> {
    let shape = Shape {
        cpus: 1,
        tags: 4,
        kernel_tags: 4,
        frames: 16,
        vectors: 0,
    };
    let mut seats = make(alloc, shape)?;
    let cpu = seats.cpus.pop().unwrap();
    let node = Node::new(alloc, 0, 16, seats.pages.pop().unwrap())?;
    Ok(Bench { cpu, node })
}

fn kernel(number: u32) -> Tag
    ensures { result ≡ record { number = number; «module» = 0 } }
{
    Tag { number, module: 0 }
}

fn counted(number: u32, size: u64) -> Held {
    Held::Counted {
        tag: kernel(number),
        size,
    }
}

// A block of eight frames at frame 8 in parts of two. Where memory is refused, it is handed back whole.
#[test]
fn block_of_eight_split(rt: HostRuntime) -> Result<(), Fail> {
    let alloc = rt.alloc();
    let Bench { mut cpu, mut node } = new_bench(alloc)?;
    let mut task = Task::new();
    let _hook = task.save(kernel(1));
    let _low = alloc_pages(&mut cpu, &mut node, &task, 3).expect(&rt, "eight frames");
    let block = alloc_pages(&mut cpu, &mut node, &task, 3).expect(&rt, "eight more");
    let mut parts = Vec::new(alloc);
    let split = split_to(&mut cpu, block, 1, &mut parts);
    let calls = read_own(&mut cpu, 1, Kind::Calls);
    let bytes = read_own(&mut cpu, 1, Kind::Bytes);
    assert_eq!(rt; bytes, 65536);
    if let Err((block, error)) = split {
        assert_eq!(rt;
            (block.frame(), block.order(), block.cell().held()),
            (8, 3, counted(1, 32768))
        );
        assert_eq!(rt; (parts.len(), calls), (0, 2));
        return Err(error.into());
    }
    assert_eq!(rt; (parts.len(), calls), (4, 5));
    for (part, frame) in parts.iter().zip([8, 10, 12, 14]) {
        assert_eq!(rt;
            (part.frame(), part.order(), part.cell().held()),
            (frame, 1, counted(1, 8192))
        );
    }
    Ok(())
}

// Memory that isn't counted is split with no call, and its halves exchange their mark with a counted block.
#[test]
fn marks_are_shared_and_exchanged(rt: HostRuntime) -> Result<(), Fail> {
    let Bench { mut cpu, mut node } = new_bench(rt.alloc())?;
    let mut task = Task::new();
    let unmarked = alloc_pages(&mut cpu, &mut node, &task, 1).expect(&rt, "two frames");
    let (mut first, second) = split_half(&mut cpu, unmarked);
    assert_eq!(rt; (first.frame(), second.frame()), (0, 1));
    assert_eq!(rt;
        (first.cell().held(), second.cell().held()),
        (Held::Empty, Held::Empty)
    );
    let _hook = task.save(kernel(2));
    let mut other = alloc_pages(&mut cpu, &mut node, &task, 0).expect(&rt, "a frame");
    swap(&mut cpu, &mut first, &mut other);
    assert_eq!(rt;
        (first.cell().held(), other.cell().held()),
        (counted(2, 4096), Held::Empty)
    );
    let bytes = read_own(&mut cpu, 2, Kind::Bytes);
    let calls = read_own(&mut cpu, 2, Kind::Calls);
    assert_eq!(rt; (bytes, calls), (4096, 1));
    Ok(())
}
