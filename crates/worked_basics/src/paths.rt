// Paths and the bytes of a write: the names from the root down, and what is wrong with a text.
use std::test::Fail;
use tree_model::{FileBytes, LineFault, Path};

// A slash, and then so many of the byte.
fn one_name(rt: &HostRuntime, byte: u8, count: usize) -> Result<Vec<u8>, Fail> {
    let mut text = Vec::new(rt.alloc());
    text.push(b'/')?;
    for _ in 0..count {
        text.push(byte)?;
    }
    Ok(text)
}

#[test]
fn tells_what_is_wrong(rt: HostRuntime) {
    let bad = Some(LineFault::BadPath);
    let rows: [(&[u8], Option<LineFault>); 22] = [
        (b"", bad),
        (b"a", bad),
        (b"a/b", bad),
        (b"//", bad),
        (b"//a", bad),
        (b"/a/", bad),
        (b"/a//b", bad),
        (b"/.", bad),
        (b"/..", bad),
        (b"/a/..", bad),
        (b"/%2E", bad),
        (b"/a%2Fb", bad),
        (b"/a%2fb", bad),
        (b"/a%00", bad),
        (b"/%", bad),
        (b"/%4", bad),
        (b"/%4g/a", bad),
        (b"/", None),
        (b"/...", None),
        (b"/a/b", None),
        (b"/%41%20b", None),
        (b"/%ff", None),
    ];
    for (text, fault) in rows {
        assert_eq!(rt; Path::parse(text).err(), fault, "at {text:?}");
    }
}

#[test]
fn a_fault_of_form_comes_before_a_long_name(rt: HostRuntime) -> Result<(), Fail> {
    let mut text = one_name(&rt, b'n', 110)?;
    assert_eq!(rt; Path::parse(text.as_slice()).err(), None);
    text.push(b'n')?;
    assert_eq!(rt;
        Path::parse(text.as_slice()).err(),
        Some(LineFault::NameTooLong)
    );
    for byte in b"/b" {
        text.push(*byte)?;
    }
    assert_eq!(rt;
        Path::parse(text.as_slice()).err(),
        Some(LineFault::NameTooLong)
    );
    text.push(b'/')?;
    assert_eq!(rt;
        Path::parse(text.as_slice()).err(),
        Some(LineFault::BadPath)
    );
    let mut text = one_name(&rt, b'n', 111)?;
    text.push(b'%')?;
    assert_eq!(rt;
        Path::parse(text.as_slice()).err(),
        Some(LineFault::BadPath)
    );
    Ok(())
}

#[test]
fn gives_the_names_from_the_root_down(rt: HostRuntime) -> Result<(), Fail> {
    let rows: [(&[u8], [&[u8]; 3]); 4] = [
        (b"/", [b"", b"", b""]),
        (b"/a", [b"a", b"", b""]),
        (b"/usr/l%69b/%7e", [b"usr", b"lib", b"~"]),
        (b"/a%20b/c", [b"a b", b"c", b""]),
    ];
    for (text, wanted) in rows {
        let path = Path::parse(text).ok().ok_or("no path")?;
        let mut names = path.names();
        for name in wanted {
            match names.next() {
                Some(found) => assert_eq!(rt; found.as_slice(), name, "at {text:?}"),
                None => assert!(rt; name.is_empty(), "too few names at {text:?}"),
            }
        }
        assert!(rt; names.next().is_none(), "too many names at {text:?}");
    }
    Ok(())
}

#[test]
fn lends_the_bytes_of_a_write(rt: HostRuntime) {
    let bytes = FileBytes::new(b"hi");
    assert_eq!(rt; bytes.as_slice(), b"hi".as_slice());
    assert!(rt; FileBytes::new(b"").as_slice().is_empty());
}
