ghost use Rattle.std.specs.Prelude.{◌≡◌};

use crate::{InfoError, InfoRow, printed_and_read, read_info, read_rows};
use allocinfo::{Row, print_rows};
use codetag::{CodeTag, TagText};
use std::alloc::Global;
use std::process::Abort;
use std::test::Fail;
use tag_section::Sections;

// Threads may move and share the value.
fn crosses<T: Send + Sync>(_value: &T) {}

fn read(rt: &impl Abort, alloc: Global, text: &[u8]) -> Result<Vec<InfoRow>, InfoError> {
    assert!(rt; text.len() <= 4_194_304);
    read_info(alloc, text)
}

fn name(row: &InfoRow) -> Option<&[u8]> {
    row.module.as_ref().map(TagText::bytes)
}

#[test]
fn reads_rows(rt: HostRuntime) -> Result<(), Fail> {
    let text =
        b"allocinfo - version: 1.0\n#     <size>  <calls> <tag info>\n        4096        1 mm/slub.c:1 func:slab \n         128        1 mm/a.c:10 func:fa\n           0        0 mm/b.c:20 func:fb \n         -32 18446744073709551615 fs/ext4/a.c:11 [ext4] func:ext4_a \n-9223372036854775808 123456789 fs/ext4/a.c:11 [ext4:kept] func:ext4_a\n         128        1 mm/a.c:10 func:fa\n";
    let rows = read(&rt, rt.alloc(), text)?;
    assert_eq!(rt; rows.len(), 6);
    crosses(&rows[0]);
    assert_eq!(rt; (rows[0].bytes, rows[0].calls), (4096, 1));
    assert_eq!(rt; rows[0].tag.file(), b"mm/slub.c".as_slice());
    assert_eq!(rt; rows[0].tag.line(), 1);
    assert_eq!(rt; rows[0].tag.function(), b"slab".as_slice());
    assert!(rt; name(&rows[0]).is_none() && !rows[0].kept);
    assert_eq!(rt; (rows[2].bytes, rows[2].calls), (0, 0));
    assert_eq!(rt; rows[3].bytes, 18_446_744_073_709_551_584);
    assert_eq!(rt; rows[3].calls, u64::MAX);
    assert!(rt; name(&rows[3]) == Some(b"ext4".as_slice()) && !rows[3].kept);
    let parts = read_rows(rt.alloc(), text)?;
    crosses(&parts);
    assert_eq!(rt; parts.len(), 6);
    assert_eq!(rt;
        (parts[4].file, parts[4].line, parts[4].kept),
        (b"fs/ext4/a.c".as_slice(), 11, true)
    );
    assert_eq!(rt; rows[4].bytes, 9_223_372_036_854_775_808);
    assert!(rt; name(&rows[4]) == Some(b"ext4".as_slice()) && rows[4].kept);
    assert_eq!(rt; rows[5].tag.function(), b"fa".as_slice());
    Ok(())
}

const HEADER: &[u8] = b"allocinfo - version: 1.0\n#     <size>  <calls> <tag info>\n";

#[test]
fn refuses_the_first_bad_line(rt: HostRuntime) -> Result<(), Fail> {
    let texts: [(&[u8], u32); 6] = [
        (b"", 1),
        (b"allocinfo - version: 1.1\n", 1),
        (b"allocinfo - version: 1.0", 1),
        (b"allocinfo - version: 1.0\n", 2),
        (
            b"allocinfo - version: 1.0\n        4096        1 mm/slub.c:1 func:slab \n",
            2,
        ),
        (
            b"allocinfo - version: 1.0\n#     <size>  <calls> <tag info>\n        4096        1 mm/slub.c:1 func:slab \n         128        1 mm/a.c:10 func:fa \n           0        0 mm/b.c:20 func:fb \ndone: rounds 1 ops 2 failed 0 uncounted 0 live 2 kept 0\n",
            6,
        ),
    ];
    for (text, line) in texts {
        assert_eq!(rt;
            read(&rt, rt.alloc(), text).err(),
            Some(InfoError::Refused { line })
        );
    }
    assert!(rt; read(&rt, rt.alloc(), HEADER)?.is_empty());
    Ok(())
}

#[test]
fn refuses_rows_that_no_printer_writes(rt: HostRuntime) -> Result<(), Fail> {
    let rows: [&[u8]; 12] = [
        b"           0        0 mm/a.c:1 func:f",
        b"\n",
        b"          -0        0 mm/a.c:1 func:f\n",
        b"          00        0 mm/a.c:1 func:f\n",
        b"0 0 mm/a.c:1 func:f\n",
        b"            0        0 mm/a.c:1 func:f\n",
        b"9223372036854775808        0 mm/a.c:1 func:f\n",
        b"           0       -1 mm/a.c:1 func:f\n",
        b"           0        0 mm/a.c:1 [kernel] func:f\n",
        b"           0        0 mm/a.c:1 [m:lost] func:f\n",
        b"           0        0 mm/a.c:0 func:f\n",
        b"           0        0 mm/a.c:1 func:f  \n",
    ];
    for row in rows {
        let mut text = Vec::from_slice(rt.alloc(), HEADER)?;
        text.extend_from_slice(row)?;
        assert_eq!(rt;
            read(&rt, rt.alloc(), &text).err(),
            Some(InfoError::Refused { line: 3 })
        );
    }
    Ok(())
}

fn row(calls: u64, section: u32, kept: bool) -> Row
    ensures { result ≡ record { bytes = 64; calls = calls; section = section; index = 0; kept = kept } }
{
    Row {
        bytes: 64,
        calls,
        section,
        index: 0,
        kept,
    }
}

#[test]
fn reads_back_what_is_printed(rt: HostRuntime) -> Result<(), Fail> {
    let alloc = rt.alloc();
    let mut sections = Sections::new(alloc);
    let _kernel = sections.begin(b"kernel")?;
    sections.add_line(CodeTag::new(alloc, b"mm/a.c", 10, b"fa")?)?;
    let _module = sections.begin(b"ext4")?;
    sections.add_line(CodeTag::new(alloc, b"fs/ext4/a.c", 11, b"ext4_a")?)?;
    assert!(rt; sections.count() == 2);
    assert!(rt; sections.len_of(0) == 1);
    assert!(rt; sections.len_of(1) == 1);
    let rows = [row(7, 0, false), row(0, 1, false), row(1, 1, true)];
    // What is printed isn't too long to be read.
    let mut text = Vec::new(alloc);
    print_rows(&sections, &rows, &mut text)?;
    assert!(rt; text.len() <= 4_194_304);
    let read = printed_and_read(alloc, &sections, &rows)?;
    assert_eq!(rt; read.len(), 3);
    for (place, calls, line, module) in [
        (0, 7, 10, None),
        (1, 0, 11, Some(b"ext4".as_slice())),
        (2, 1, 11, Some(b"ext4".as_slice())),
    ] {
        assert!(rt; place < read.len());
        let row = &read[place];
        assert_eq!(rt;
            (row.calls, row.tag.line(), row.kept),
            (calls, line, place == 2)
        );
        assert!(rt; name(row) == module);
    }
    Ok(())
}
