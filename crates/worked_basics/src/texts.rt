// What is written: replies, listings, bytes in digits, what a check counted and what a workload came to.
use io_edge::MemSink;
use layout::Name;
use script::{
    CheckCounts, WorkSummary, write_bytes, write_check, write_count, write_name, write_newline,
    write_plain, write_space, write_work,
};
use std::test::Fail;
use tree_model::{Free, LineFault, Refusal, Reply, Stat};

#[test]
fn replies(rt: HostRuntime) -> Result<(), Fail> {
    let stat = |dir| Stat {
        dir,
        inode: 12,
        links: 3,
        amount: 18_446_744_073_709_551_615,
    };
    let free = Free {
        inodes: 3,
        inodes_all: 4,
        pages: 13,
        pages_all: 63_999,
    };
    for (reply, wanted) in [
        (Reply::Done, "ok\n"),
        (Reply::Count(0), "ok 0\n"),
        (
            Reply::Status(stat(false)),
            "ok file inode 12 links 3 size 18446744073709551615\n",
        ),
        (
            Reply::Status(stat(true)),
            "ok dir inode 12 links 3 names 18446744073709551615\n",
        ),
        (Reply::Space(free), "ok inodes 3 4 pages 13 63999\n"),
        (Reply::Refused(Refusal::IntoItself), "error IntoItself\n"),
        (Reply::Unread(LineFault::NameTooLong), "error NameTooLong\n"),
        (Reply::Fault, "error Fault\n"),
        (Reply::Stopped, "error Stopped\n"),
    ] {
        let mut sink = MemSink::new(rt.alloc(), 100, Vec::new(rt.alloc()))?;
        assert_eq!(rt; write_plain(&reply, &mut sink), Ok(()));
        assert_eq!(rt; sink.bytes(), wanted.as_bytes());
    }
    Ok(())
}

#[test]
fn listing_in_pieces(rt: HostRuntime) -> Result<(), Fail> {
    let mut sink = MemSink::new(rt.alloc(), 100, Vec::new(rt.alloc()))?;
    let name = Name::new(b"a b").ok().ok_or("no name")?;
    write_count(1, &mut sink)?;
    write_space(&mut sink)?;
    write_name(&name, &mut sink)?;
    write_newline(&mut sink)?;
    assert_eq!(rt; sink.bytes(), b"ok 1 a%20b\n".as_slice());
    Ok(())
}

#[test]
fn bytes_in_digits(rt: HostRuntime) -> Result<(), Fail> {
    let mut sink = MemSink::new(rt.alloc(), 100, Vec::new(rt.alloc()))?;
    let mut text = [b'x'; 40];
    write_bytes(&[0, 161, 255], &mut text, &mut sink)?;
    write_bytes(&[], &mut text, &mut sink)?;
    assert_eq!(rt; sink.bytes(), b"ok 3 00a1ff\nok 0 -\n".as_slice());
    Ok(())
}

#[test]
fn each_byte_in_digits(rt: HostRuntime) -> Result<(), Fail> {
    let mut bytes = Vec::new(rt.alloc());
    let mut wanted = Vec::from_slice(rt.alloc(), b"ok 256 ")?;
    for byte in 0..256 {
        bytes.push(byte as u8)?;
        wanted.push(b"0123456789abcdef"[byte / 16])?;
        wanted.push(b"0123456789abcdef"[byte % 16])?;
    }
    wanted.push(b'\n')?;
    // A second write would fail.
    let mut sink = MemSink::new(rt.alloc(), 1_000, vec![in rt.alloc(); 2; 1]?)?;
    let mut text = [b'x'; 544];
    let bytes = bytes.as_slice();
    assert!(rt; bytes.len() <= 256);
    write_bytes(bytes, &mut text, &mut sink)?;
    assert_eq!(rt; sink.bytes(), wanted.as_slice());
    Ok(())
}

#[test]
fn full_sink(rt: HostRuntime) -> Result<(), Fail> {
    let mut sink = MemSink::new(rt.alloc(), 4, Vec::new(rt.alloc()))?;
    assert!(rt; write_plain(&Reply::Done, &mut sink).is_ok());
    assert!(rt; write_plain(&Reply::Done, &mut sink).is_err());
    assert_eq!(rt; sink.bytes(), b"ok\no".as_slice());
    Ok(())
}

const COUNTS: CheckCounts = CheckCounts {
    directories: 1,
    files: 2,
    names: 3,
    pointers: 4,
    slots: 5,
    pages: 6,
    inodes: 7,
    counts: 18_446_744_073_709_551_615,
};

#[test]
fn a_check_is_written(rt: HostRuntime) -> Result<(), Fail> {
    let mut sink = MemSink::new(rt.alloc(), 1_000, Vec::new(rt.alloc()))?;
    write_check(&COUNTS, &mut sink)?;
    let wanted = b"sound\n\
        tree directories 1 files 2 names 3\n\
        repairs pointers 4 slots 5 pages 6 inodes 7 counts 18446744073709551615\n";
    assert_eq!(rt; sink.bytes(), wanted.as_slice());
    Ok(())
}

const SUMMARY: WorkSummary = WorkSummary {
    lines: 104,
    accepted: 24,
    refused: 80,
    space: Free {
        inodes: 53,
        inodes_all: 64,
        pages: 241,
        pages_all: 249,
    },
    names: 10,
    bytes: 18_446_744_073_709_551_615,
};

#[test]
fn a_summary_is_written(rt: HostRuntime) -> Result<(), Fail> {
    let mut sink = MemSink::new(rt.alloc(), 1_000, Vec::new(rt.alloc()))?;
    write_work(&SUMMARY, &mut sink)?;
    let wanted = b"work lines 104 ok 24 refused 80\n\
        ok inodes 53 64 pages 241 249\n\
        names 10 bytes 18446744073709551615\n";
    assert_eq!(rt; sink.bytes(), wanted.as_slice());
    Ok(())
}
