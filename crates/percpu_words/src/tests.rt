ghost use Rattle.std.specs.Prelude.{◌≡◌};

mod desk;

use self::desk::{
    both, counted, cpus_of, exchanged, filled_there, finished_there, new_hall, new_pair, round,
    totals,
};
use tag_model::Shape;

fn shape(cpus: u32, frames: u32) -> Shape
    ensures { result ≡ record { cpus = cpus; tags = 4; kernel_tags = 4; frames = frames; vectors = 0 } }
{
    Shape {
        cpus,
        tags: 4,
        kernel_tags: 4,
        frames,
        vectors: 0,
    }
}

// CPU 0 allocates 1,000 times in a thread of its own, and CPU 1 frees it all in another. The words of one are what it
// allocated, those of the other wrap below 0, and the sums are 0.
#[test]
fn thousand_references(rt: HostRuntime) {
    let alloc = rt.alloc();
    let found = new_pair(alloc, shape(2, 1_024)).expect(&rt, "memory");
    let (first, second) = found.expect(&rt, "two CPUs");
    let (first, second) = exchanged(filled_there(&rt, first, 1), second);
    let found = both(alloc, first, finished_there(&rt, second), 1).expect(&rt, "memory");
    let (mut cpus, words) = found;
    let wrapped = (18_446_744_073_709_487_616, 18_446_744_073_709_550_616);
    assert_eq!(rt; words, [(64_000, 1_000), wrapped]);
    assert_eq!(rt; totals(cpus.as_mut_slice()), [(0, 0); 4]);
}

// Four threads with a CPU each. Each frees and allocates 100,000 times in ten rounds, and at the end of each round it
// hands half of the references that it holds to the next, which frees them.
#[test]
fn four_threads(rt: HostRuntime) {
    let alloc = rt.alloc();
    let found = new_hall(alloc, shape(4, 64), 8).expect(&rt, "memory");
    let mut hall = found.expect(&rt, "four CPUs");
    for _ in 0..10 {
        hall = round(&rt, hall, 625);
        assert_eq!(rt; counted(&mut hall, 0), (4_096, 64));
        assert_eq!(rt; counted(&mut hall, 3), (0, 0));
    }
    let mut cpus = cpus_of(alloc, hall).expect(&rt, "memory");
    assert_eq!(rt; totals(cpus.as_mut_slice()), [(0, 0); 4]);
}
