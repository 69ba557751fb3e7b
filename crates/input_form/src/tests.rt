use super::*;
use std::test::Fail;
use tag_section::Sections;

/// The longest name of a module.
const LONGEST: &[u8] = b"module-with-the-longest-name-that-there-may-be_of_bytes";

#[test]
fn texts_of_codes(rt: HostRuntime) -> Result<(), Fail> {
    let mut sections = Sections::new(rt.alloc());
    let _kernel = sections.begin(b"kernel")?;
    if sections.count() != 1 {
        return Err("no section".into());
    }
    let cases: [(Code, &[u8]); 4] = [
        (Code::NoRound, b"no-round"),
        (Code::SharedKey(65_535), b"shared-key 65535"),
        (Code::Busy(0), b"busy 0"),
        (Code::NotInside(0), b"not-inside kernel"),
    ];
    for (code, wanted) in cases {
        let mut out = Vec::new(rt.alloc());
        code.to_text(&sections, &mut out)?;
        assert_eq!(rt; out.as_slice(), wanted);
    }
    Ok(())
}

// The longest text of a code. Each allocation in turn may be refused: then what stood before stays alone.
#[test]
fn the_longest_text(rt: HostRuntime) -> Result<(), Fail> {
    let mut sections = Sections::new(rt.alloc());
    let _kernel = sections.begin(b"kernel")?;
    let section = sections.begin(LONGEST)?;
    let mut out = Vec::from_slice(rt.alloc(), b"line 131072: ")?;
    match Code::AlreadyLoaded(section).to_text(&sections, &mut out) {
        Ok(()) => {
            let wanted =
                b"line 131072: already-loaded module-with-the-longest-name-that-there-may-be_of_bytes";
            assert_eq!(rt; out.as_slice(), wanted.as_slice());
        }
        Err(_) => assert_eq!(rt; out.as_slice(), b"line 131072: ".as_slice()),
    }
    Ok(())
}
