use crate::{CodeTag, TagError, TagText, is_file, is_function};
use std::alloc::{AllocError, Global};
use std::test::Fail;

// Threads may move and share the value.
fn crosses<T: Send + Sync>(_value: &T) {}

fn text(alloc: Global, tag: &CodeTag, module: Option<&[u8]>) -> Result<Vec<u8>, AllocError> {
    let mut out = Vec::from_slice(alloc, b"> ")?;
    tag.to_text(module, &mut out)?;
    Ok(out)
}

#[test]
fn tells_its_parts_and_texts(rt: HostRuntime) -> Result<(), Fail> {
    let tag = CodeTag::new(rt.alloc(), b"fs/ext4/a.c", 11, b"ext4_a")?;
    crosses(&tag);
    assert_eq!(rt; tag.file(), b"fs/ext4/a.c".as_slice());
    assert_eq!(rt; tag.line(), 11);
    assert_eq!(rt; tag.function(), b"ext4_a".as_slice());

    let plain = text(rt.alloc(), &tag, None)?;
    assert_eq!(rt;
        plain.as_slice(),
        b"> fs/ext4/a.c:11 func:ext4_a".as_slice()
    );
    let loaded = text(rt.alloc(), &tag, Some(b"ext4"))?;
    assert_eq!(rt;
        loaded.as_slice(),
        b"> fs/ext4/a.c:11 [ext4] func:ext4_a".as_slice()
    );
    let mut kept = Vec::from_slice(rt.alloc(), b"> ")?;
    tag.to_text_kept(b"ext4", &mut kept)?;
    assert_eq!(rt;
        kept.as_slice(),
        b"> fs/ext4/a.c:11 [ext4:kept] func:ext4_a".as_slice()
    );
    Ok(())
}

#[test]
fn refuses_the_first_bad_part(rt: HostRuntime) {
    let alloc = rt.alloc();
    let refusals: [(&[u8], u64, &[u8], TagError); 6] = [
        (b"a b", 1, b"f", TagError::BadFile),
        (b"", 0, b"", TagError::BadFile),
        (b"a", 0, b"f", TagError::BadLine),
        (b"a", 4_294_967_296, b"", TagError::BadLine),
        (b"a", 1, b"", TagError::BadFunction),
        (b"a", 1, b"f-g", TagError::BadFunction),
    ];
    for (file, line, function, refusal) in refusals {
        assert_eq!(rt;
            CodeTag::new(alloc, file, line, function).err(),
            Some(refusal)
        );
    }
    assert!(rt; CodeTag::new(alloc, b"a", 4_294_967_295, b"f").is_ok());
}

#[test]
fn tests_the_forms(rt: HostRuntime) {
    let longest = [b'x'; 127];
    let too_long = [b'x'; 128];
    assert!(rt; is_file(&longest) && !is_file(&too_long));
    assert!(rt; is_function(&longest) && !is_function(&too_long));
    assert!(rt; is_file(b"09azAZ_-./+") && !is_file(b"a:b") && !is_file(b""));
    assert!(rt; is_function(b"09azAZ_.") && !is_function(b"a/b") && !is_function(b""));
}

#[test]
fn keeps_the_bytes_of_a_text(rt: HostRuntime) -> Result<(), Fail> {
    let name = TagText::of(Vec::from_slice(rt.alloc(), b"ext4")?);
    crosses(&name);
    assert_eq!(rt; name.bytes(), b"ext4".as_slice());
    assert_eq!(rt; name.into_vec().as_slice(), b"ext4".as_slice());
    Ok(())
}
