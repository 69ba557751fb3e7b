ghost use Rattle.std.specs.Prelude.{None, ◌<◌, ◌≡◌};
ghost use Rattle.tag_model.specs.declared.state.Held.TheVariants as held;
ghost use Rattle.tag_rule.specs.Fresh.{fresh_list};
ghost use Rattle.tag_rule.specs.Scripts.{small_shape};

use crate::{
    CellSeat, Change, CpuSeat, ListSeat, LoadPass, Seats, add_bytes, add_call, change_list, divide,
    load_list, make, part, read_own, scan_byte, scan_call, scan_own, sub_bytes, sub_call, unite,
    write_cell,
};
use std::test::Fail;
use tag_model::{Held, Kind, Reader, Shape, Tag, page_cell};

const TAG: Tag = Tag {
    number: 1,
    module: 0,
};

const COUNTED: Held = Held::Counted {
    tag: TAG,
    size: 8_192,
};

fn opens(cpu: &mut CpuSeat, cell: &mut CellSeat)
    requires table { cell.old.board ≡ cpu.old.board }
    requires free { (cpu.old.part.hand ≡ None) × (1 < cpu.old.board.shape.kernel_tags) }
    requires none { cell.old.held ≡ held.None }
    ensures cell { cell.new ≡ record cell.old { held = COUNTED } }
    ensures cpu { (cpu.new.board ≡ cpu.old.board) × (cpu.new.part.hand ≡ None) }
{
    add_call(cpu, TAG);
    add_bytes(cpu, 8_192);
    cpu.tell();
    write_cell(cpu, cell, COUNTED);
}

fn closes(cpu: &mut CpuSeat, cell: &mut CellSeat)
    requires table { cell.old.board ≡ cpu.old.board }
    requires free { cpu.old.part.hand ≡ None }
    requires counted { cell.old.held ≡ COUNTED }
    ensures cell { cell.new ≡ record cell.old { held = held.None } }
    ensures cpu { (cpu.new.board ≡ cpu.old.board) × (cpu.new.part.hand ≡ None) }
{
    write_cell(cpu, cell, Held::None);
    sub_bytes(cpu, 8_192);
    sub_call(cpu);
}

fn small() -> Shape
    ensures { result ≡ small_shape }
{
    Shape {
        cpus: 1,
        tags: 4,
        kernel_tags: 2,
        frames: 4,
        vectors: 1,
    }
}

// One reference of two frames is counted, and freed: the words rise and fall, and the cells come back.
#[test]
fn a_reference_comes_and_goes(rt: HostRuntime) -> Result<(), Fail> {
    let shape = small();
    let mut seats = make(rt.alloc(), shape)?;
    assert!(rt; seats.list.shape() == shape && seats.cpus.len() == 1 && seats.pages.len() == 1);
    let cpu = &mut seats.cpus[0];
    let pool = &mut seats.pages[0];
    let first = page_cell(shape, 0, 0);
    let mut cell = part(pool, first, 2);
    opens(cpu, &mut cell);
    let bytes = read_own(cpu, 1, Kind::Bytes);
    let calls = read_own(cpu, 1, Kind::Calls);
    assert!(rt; bytes == 8_192 && calls == 1);
    assert!(rt; cell.held() == COUNTED && cpu.hand().is_none());
    closes(cpu, &mut cell);
    let bytes = read_own(cpu, 1, Kind::Bytes);
    let calls = read_own(cpu, 1, Kind::Calls);
    assert!(rt; bytes == 0 && calls == 0 && cpu.hand().is_none());
    let (front, rest) = divide(cpu, cell, 1);
    assert!(rt; front.first() == first && front.count() == 1);
    assert!(rt; rest.first() == first + 1 && rest.count() == 1);
    unite(pool, rest);
    unite(pool, front);
    Ok(())
}

// A module of both tags of the area is loaded, and unloaded at once.
fn comes_and_dies(list: &mut ListSeat, loads: &mut LoadPass)
    requires table { loads.old.board ≡ list.old.board }
    requires shape { list.old.board.shape ≡ small_shape }
    requires fresh { (list.old.part ≡ fresh_list) × (loads.old.next ≡ 1) }
    ensures board { list.new.board ≡ list.old.board }
{
    let id = load_list(list, loads, 7, 2, 2);
    change_list(list, Change::Dead { id });
}

// The sweep's next read, of the CPU that is lent or as if it were another's.
fn read_next(list: &mut ListSeat, cpu: &mut CpuSeat, own: bool) -> Option<u64>
    requires table { cpu.old.board ≡ list.old.board }
    ensures board { (list.new.board ≡ list.old.board) × (cpu.new.board ≡ cpu.old.board) }
{
    let reader = list.reader()?;
    if own && reader.cpu == cpu.cpu() {
        return Some(scan_own(list, cpu));
    }
    match reader.pass {
        Kind::Bytes => Some(scan_byte(list)),
        Kind::Calls => Some(scan_call(list)),
    }
}

fn release_first(list: &mut ListSeat) -> Option<u32>
    ensures board { list.new.board ≡ list.old.board }
{
    let Some(id) = list.releasable() else {
        return None;
    };
    change_list(list, Change::Release { id });
    Some(id)
}

// A sweep reads the byte words of both tags before their call words, and then the module goes.
#[test]
fn a_module_comes_and_goes(rt: HostRuntime) -> Result<(), Fail> {
    let Seats {
        mut cpus,
        pages: _,
        objects: _,
        mut list,
        mut loads,
    } = make(rt.alloc(), small())?;
    let cpu = &mut cpus[0];
    comes_and_dies(&mut list, &mut loads);
    assert_eq!(rt; loads.next(), 2);
    let first = Reader {
        pass: Kind::Bytes,
        id: 1,
        tag: 2,
        cpu: 0,
        sum: 0,
    };
    assert_eq!(rt; list.reader(), Some(first));
    assert_eq!(rt; read_next(&mut list, cpu, false), Some(0));
    assert_eq!(rt; read_next(&mut list, cpu, true), Some(0));
    assert_eq!(rt; list.reader().map(|reader| reader.pass), Some(Kind::Calls));
    assert_eq!(rt; release_first(&mut list), None);
    assert_eq!(rt; read_next(&mut list, cpu, true), Some(0));
    assert_eq!(rt; read_next(&mut list, cpu, false), Some(0));
    assert_eq!(rt; read_next(&mut list, cpu, true), None);
    assert_eq!(rt; list.stops().len(), 0);
    assert_eq!(rt; release_first(&mut list), Some(1));
    assert_eq!(rt; release_first(&mut list), None);
    Ok(())
}
