ghost use Rattle.std.specs.Prelude.{IfOk, IfSome, None, length, ◌≡◌, ◌<◌};

use crate::{Block, NoFrames, Node, alloc_pages, free_pages, take_back};
use current_tag::Task;
use std::alloc::{AllocError, Global};
use std::test::Fail;
use tag_model::{Held, Kind, Shape, Tag};
use tag_rule::{CpuSeat, make, read_own};

// Threads may be handed the value.
fn moves<T: Send>(_value: &T) {}

/// Two CPUs of one table, each with its node of four frames.
#[derive(Drop)]
struct Desk {
    near: CpuSeat,
    far: CpuSeat,
    node: Node,
    far_node: Node,
    ghost tables: { (far.board ≡ near.board) × (node.board ≡ near.board) × (far_node.board ≡ near.board) },
    ghost numbers: { (near.part.number ≡ 0) × (far.part.number ≡ 1) × (node.node.cpu ≡ 0) × (far_node.node.cpu ≡ 1) },
    ghost rests: { (near.part.hand ≡ None) × (far.part.hand ≡ None) },
    ghost shape: { near.board.shape ≡ record { cpus = 2; tags = 4; kernel_tags = 4; frames = 4; vectors = 0 } },
}

fn new_desk(alloc: Global) -> Result<Desk, AllocError>
    ensures { IfOk result (λ desk. length desk.node.node.frames ≡ 4) }
{
    let shape = Shape {
        cpus: 2,
        tags: 4,
        kernel_tags: 4,
        frames: 4,
        vectors: 0,
    };
    let mut seats = make(alloc, shape)?;
    let far = seats.cpus.pop().unwrap();
    let near = seats.cpus.pop().unwrap();
    let far_node = Node::new(alloc, 1, 4, seats.pages.pop().unwrap())?;
    let node = Node::new(alloc, 0, 4, seats.pages.pop().unwrap())?;
    Ok(Desk {
        near,
        far,
        node,
        far_node,
    })
}

fn kernel(number: u32) -> Tag
    ensures { result ≡ record { number = number; «module» = 0 } }
{
    Tag { number, module: 0 }
}

// CPU 1 frees a block of CPU 0. Its frames are free once it came home.
#[test]
fn remote_block(rt: HostRuntime) -> Result<(), Fail> {
    let Desk {
        mut near,
        mut far,
        mut node,
        mut far_node,
    } = new_desk(rt.alloc())?;
    moves(&node);
    let mut task = Task::new();
    let _hook = task.save(kernel(1));
    let block = alloc_pages(&mut near, &mut node, &task, 2).expect(&rt, "four frames");
    moves(&block);
    let returned = free_pages(&mut far, &mut far_node, block).expect(&rt, "of CPU 0");
    moves(&returned);
    let bytes = read_own(&mut far, 1, Kind::Bytes);
    let calls = read_own(&mut far, 1, Kind::Calls);
    assert_eq!(rt;
        (bytes, calls),
        (18446744073709535232, 18446744073709551615)
    );
    assert!(rt; alloc_pages(&mut near, &mut node, &task, 0).is_err());
    take_back(&mut node, returned);
    let block = alloc_pages(&mut near, &mut node, &task, 0).expect(&rt, "a frame");
    assert_eq!(rt; block.frame(), 0);
    Ok(())
}

// Takes a page of CPU 0.
fn one_page(desk: Desk, task: &Task) -> (Desk, Result<Block, NoFrames>)
    requires { IfSome task.now.current (λ tag. (tag.«module» ≡ 0) × (tag.number < 4)) }
{
    let Desk {
        mut near,
        far,
        mut node,
        far_node,
    } = desk;
    let page = alloc_pages(&mut near, &mut node, task, 0);
    let desk = Desk {
        near,
        far,
        node,
        far_node,
    };
    (desk, page)
}

// A block that is taken under the inner tag, one under the outer after it, and one under none.
#[test]
fn nested_with_tag(rt: HostRuntime) -> Result<(), Fail> {
    let desk = new_desk(rt.alloc())?;
    let mut task = Task::new();
    let (desk, inside, after) = task.with_tag(kernel(1), |outer| {
        let (desk, inside) = outer.with_tag(kernel(2), |inner| one_page(desk, inner));
        let (desk, after) = one_page(desk, outer);
        (desk, inside, after)
    });
    assert_eq!(rt; inside.expect(&rt, "a frame").cell().held(), counted(2));
    assert_eq!(rt; after.expect(&rt, "another").cell().held(), counted(1));
    assert_eq!(rt; (task.current(), task.depth()), (None, 0));
    let (_desk, unmarked) = one_page(desk, &task);
    assert_eq!(rt; unmarked.expect(&rt, "a third").cell().held(), Held::Empty);
    Ok(())
}

fn counted(number: u32) -> Held {
    Held::Counted {
        tag: kernel(number),
        size: 4096,
    }
}
