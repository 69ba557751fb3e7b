use crate::{Group, by_file, by_module, print_groups};
use info_read::{InfoRow, read_info};
use std::alloc::{AllocError, Global};
use std::process::Abort;
use std::test::Fail;

// Threads may move and share the value.
fn crosses<T: Send + Sync>(_value: &T) {}

fn read(rt: &impl Abort, alloc: Global, text: &[u8]) -> Result<Vec<InfoRow>, Fail> {
    assert!(rt; text.len() <= 4_194_304);
    Ok(read_info(alloc, text)?)
}

fn printed(alloc: Global, groups: &[Group]) -> Result<Vec<u8>, AllocError> {
    let mut out = Vec::from_slice(alloc, b"> ")?;
    print_groups(groups, &mut out)?;
    Ok(out)
}

#[test]
fn groups_rows_and_prints_the_groups(rt: HostRuntime) -> Result<(), Fail> {
    // The text that is read, its groups by file and its groups by module.
    let tables: [(&[u8], &[u8], &[u8]); 4] = [
        (
            b"allocinfo - version: 1.0\n#     <size>  <calls> <tag info>\n",
            b"> ",
            b"> ",
        ),
        (
            b"allocinfo - version: 1.0\n#     <size>  <calls> <tag info>\n        4096        1 mm/slub.c:1 func:slab \n         128        1 mm/a.c:10 func:fa \n           0        0 mm/b.c:20 func:fb \n",
            b">          128        1 mm/a.c\n           0        0 mm/b.c\n        4096        1 mm/slub.c\n",
            b">         4224        2 kernel\n",
        ),
        (
            b"allocinfo - version: 1.0\n#     <size>  <calls> <tag info>\n       40960        3 mm/slub.c:2326 func:alloc_slab_page \n       16384        4 mm/filemap.c:1951 func:__filemap_get_folio \n       16384        1 kernel/fork.c:308 func:alloc_thread_stack_node \n         256        2 fs/dcache.c:1690 func:__d_alloc \n       16384        1 fs/xfs/a.c:21 [xfs] func:xfs_a \n           0        0 fs/xfs/b.c:22 [xfs] func:xfs_b \n",
            b">          256        2 fs/dcache.c\n       16384        1 fs/xfs/a.c\n           0        0 fs/xfs/b.c\n       16384        1 kernel/fork.c\n       16384        4 mm/filemap.c\n       40960        3 mm/slub.c\n",
            b">        73984       10 kernel\n       16384        1 xfs\n",
        ),
        (
            b"allocinfo - version: 1.0\n#     <size>  <calls> <tag info>\n         -32        1 fs/ext4/b.c:12 [ext4] func:ext4_b \n        2048        1 fs/ext4/a.c:11 [ext4:kept] func:ext4_a \n           8 18446744073709551615 fs/ext4/b.c:13 [ext4] func:ext4_c \n           0        0 mm/a.c:1 func:fa \n",
            b">         2048        1 fs/ext4/a.c\n         -24        0 fs/ext4/b.c\n           0        0 mm/a.c\n",
            b">          -24        0 ext4\n        2048        1 ext4:kept\n           0        0 kernel\n",
        ),
    ];
    for (text, files, modules) in tables {
        let rows = read(&rt, rt.alloc(), text)?;
        let groups = by_file(rt.alloc(), &rows)?;
        crosses(&groups);
        assert_eq!(rt; printed(rt.alloc(), &groups)?.as_slice(), files);
        let groups = by_module(rt.alloc(), &rows)?;
        assert_eq!(rt; printed(rt.alloc(), &groups)?.as_slice(), modules);
    }
    Ok(())
}
