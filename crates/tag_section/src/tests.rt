use crate::{SectionError, Sections, is_module_name};
use codetag::{CodeTag, TagError};
use std::alloc::Global;
use std::test::Fail;

// Threads may move and share the value.
fn crosses<T: Send + Sync>(_value: &T) {}

fn tag(alloc: Global, line: u64) -> Result<CodeTag, TagError> {
    CodeTag::new(alloc, b"mm/a.c", line, b"fa")
}

#[test]
fn lists_sections_and_tags(rt: HostRuntime) -> Result<(), Fail> {
    let mut sections = Sections::new(rt.alloc());
    crosses(&sections);
    assert_eq!(rt; sections.count(), 0);
    assert_eq!(rt; sections.find(b"kernel"), None);

    assert_eq!(rt; sections.begin(b"kernel")?, 0);
    sections.add_line(tag(rt.alloc(), 10)?)?;
    assert_eq!(rt; sections.begin(b"xfs")?, 1);
    assert_eq!(rt; sections.begin(b"ext4")?, 2);
    sections.add_line(tag(rt.alloc(), 11)?)?;
    sections.add_line(tag(rt.alloc(), 12)?)?;

    assert_eq!(rt; sections.count(), 3);
    assert_eq!(rt; sections.find(b"kernel"), Some(0));
    assert_eq!(rt; sections.find(b"xfs"), Some(1));
    assert_eq!(rt; sections.find(b"ext4"), Some(2));
    assert_eq!(rt; sections.find(b"ext"), None);
    assert_eq!(rt; sections.name(2), b"ext4".as_slice());
    assert_eq!(rt; sections.len_of(1), 0);
    assert_eq!(rt; sections.len_of(2), 2);
    assert_eq!(rt; sections.tag(2, 1).line(), 12);
    Ok(())
}

#[test]
fn refuses_names_in_order(rt: HostRuntime) -> Result<(), Fail> {
    let mut sections = Sections::new(rt.alloc());
    assert_eq!(rt; sections.begin(b"a b"), Err(SectionError::KernelFirst));
    let _kernel = sections.begin(b"kernel")?;
    assert_eq!(rt; sections.begin(b"kernel"), Err(SectionError::BadName));
    assert_eq!(rt; sections.begin(b"a.b"), Err(SectionError::BadName));
    for number in 1..=64u8 {
        assert_eq!(rt;
            sections.begin(&[b'm', number / 10 + b'0', number % 10 + b'0'])?,
            u32::from(number)
        );
    }
    assert_eq!(rt; sections.begin(b"m07"), Err(SectionError::SameName));
    assert_eq!(rt; sections.begin(b"m65"), Err(SectionError::TooManySections));
    assert_eq!(rt; sections.count(), 65);
    Ok(())
}

#[test]
fn limits_the_tags_of_a_section(rt: HostRuntime) -> Result<(), Fail> {
    let mut sections = Sections::new(rt.alloc());
    for (name, limit) in [(b"kernel".as_slice(), 128u64), (b"ext4".as_slice(), 896)] {
        let number = sections.begin(name)?;
        for line in 1..=limit {
            assert!(rt; number < sections.count());
            sections.add_line(tag(rt.alloc(), line)?)?;
        }
        assert!(rt; number < sections.count());
        assert_eq!(rt;
            sections.add_line(tag(rt.alloc(), 1)?),
            Err(SectionError::TooManyTags)
        );
        assert!(rt; number < sections.count());
        assert_eq!(rt; u64::from(sections.len_of(number)), limit);
    }
    Ok(())
}

#[test]
fn tests_the_form_of_a_name(rt: HostRuntime) {
    let longest = [b'x'; 55];
    let too_long = [b'x'; 56];
    assert!(rt; is_module_name(&longest) && !is_module_name(&too_long));
    assert!(rt; is_module_name(b"09azAZ_-") && !is_module_name(b"a.b") && !is_module_name(b""));
    assert!(rt; is_module_name(b"kernels") && !is_module_name(b"kernel"));
}
