ghost use Rattle.std.specs.Prelude.{◌≡◌, false};

use crate::{Row, print_rows, print_top, ranked_rows, write_header, write_line};
use codetag::CodeTag;
use std::alloc::Global;
use std::test::Fail;
use tag_section::Sections;

const HEADER: &[u8] = b"allocinfo - version: 1.0\n#     <size>  <calls> <tag info>\n";

// Two tags of the kernel, and one of a module.
fn three_tags(alloc: Global) -> Result<Sections, Fail> {
    let mut sections = Sections::new(alloc);
    let _kernel = sections.begin(b"kernel")?;
    sections.add_line(CodeTag::new(alloc, b"mm/a.c", 10, b"fa")?)?;
    sections.add_line(CodeTag::new(alloc, b"mm/b.c", 20, b"fb")?)?;
    let _module = sections.begin(b"ext4")?;
    sections.add_line(CodeTag::new(alloc, b"fs/ext4/a.c", 11, b"ext4_a")?)?;
    Ok(sections)
}

fn row(bytes: u64, calls: u64, section: u32, index: u32) -> Row
    ensures { result ≡ record { bytes = bytes; calls = calls; section = section; index = index; kept = false } }
{
    Row {
        bytes,
        calls,
        section,
        index,
        kept: false,
    }
}

#[test]
fn writes_lines(rt: HostRuntime) -> Result<(), Fail> {
    let sections = three_tags(rt.alloc())?;
    assert!(rt; sections.count() == 2);
    assert!(rt; sections.len_of(0) == 2);
    assert!(rt; sections.len_of(1) == 1);

    let mut out = Vec::new(rt.alloc());
    write_header(&mut out)?;
    assert_eq!(rt; out.as_slice(), HEADER);

    let mut out = Vec::new(rt.alloc());
    write_line(&sections, row(4096, 1, 0, 0), &mut out)?;
    write_line(&sections, row(0, 0, 1, 0), &mut out)?;
    let mut kept = row(2048, 1, 1, 0);
    kept.kept = true;
    write_line(&sections, kept, &mut out)?;
    write_line(&sections, row(u64::MAX, u64::MAX, 0, 1), &mut out)?;
    write_line(&sections, row(1 << 63, 123, 0, 1), &mut out)?;
    let lines =
        b"        4096        1 mm/a.c:10 func:fa \n           0        0 fs/ext4/a.c:11 [ext4] func:ext4_a \n        2048        1 fs/ext4/a.c:11 [ext4:kept] func:ext4_a \n          -1 18446744073709551615 mm/b.c:20 func:fb \n-9223372036854775808      123 mm/b.c:20 func:fb \n";
    assert_eq!(rt; out.as_slice(), lines.as_slice());
    Ok(())
}

#[test]
fn prints_all_rows_and_the_top(rt: HostRuntime) -> Result<(), Fail> {
    let sections = three_tags(rt.alloc())?;
    assert!(rt; sections.count() == 2);
    assert!(rt; sections.len_of(0) == 2);
    assert!(rt; sections.len_of(1) == 1);
    let rows = [
        row(0, 0, 0, 0),
        row(16384, 1, 0, 1),
        row(16384, 4, 1, 0),
        row(16384, 1, 0, 0),
    ];

    let mut out = Vec::new(rt.alloc());
    print_rows(&sections, &rows, &mut out)?;
    let all =
        b"allocinfo - version: 1.0\n#     <size>  <calls> <tag info>\n           0        0 mm/a.c:10 func:fa \n       16384        1 mm/b.c:20 func:fb \n       16384        4 fs/ext4/a.c:11 [ext4] func:ext4_a \n       16384        1 mm/a.c:10 func:fa \n";
    assert_eq!(rt; out.as_slice(), all.as_slice());

    let mut out = Vec::new(rt.alloc());
    print_top(rt.alloc(), &sections, &rows, 3, &mut out)?;
    let top =
        b"allocinfo - version: 1.0\n#     <size>  <calls> <tag info>\n       16384        4 fs/ext4/a.c:11 [ext4] func:ext4_a \n       16384        1 mm/b.c:20 func:fb \n       16384        1 mm/a.c:10 func:fa \n";
    assert_eq!(rt; out.as_slice(), top.as_slice());

    let ranking = ranked_rows(rt.alloc(), &rows)?;
    let [none, least, most, tie] = rows;
    assert_eq!(rt; ranking.as_slice(), [most, least, tie, none].as_slice());
    Ok(())
}
