// Whose turn it is by a schedule, and which session a line is of.
use script::SessionLine;
use session_lines::LinesLeft;
use std::alloc::Global;
use std::test::Fail;

// The text of the line whose turn it is by a byte of a schedule. It is taken off.
fn taken<'a>(left: &mut LinesLeft<'a>, byte: u8) -> Option<&'a [u8]> {
    let session = left.turn(byte)?;
    let text = left.line(session);
    left.pass(session);
    Some(text)
}

// Whether a line that is left asks for a change.
fn may_change(alloc: Global, left: &LinesLeft<'_>) -> Result<bool, Fail> {
    let mut scratch = vec![in alloc; 0; 32_768]?;
    Ok(left.has_change(&mut scratch))
}

#[test]
fn turns(rt: HostRuntime) -> Result<(), Fail> {
    let mut left = LinesLeft::of(rt.alloc(), b"1 mkdir /a\n0 df\n1 stat /a", 2)?;
    assert!(rt; may_change(rt.alloc(), &left)?);
    for (byte, wanted) in [(1, "mkdir /a"), (0, "df"), (0, "stat /a")] {
        let text = taken(&mut left, byte).ok_or("no line is left")?;
        assert_eq!(rt; text, wanted.as_bytes());
        assert!(rt; !may_change(rt.alloc(), &left)?);
    }
    assert_eq!(rt; left.turn(1), None);
    Ok(())
}

#[test]
fn lines_of_sessions(rt: HostRuntime) -> Result<(), Fail> {
    for (line, session, text) in [
        ("1 df", 1, "df"),
        ("  1  df", 1, " df"),
        ("0001 df", 1, "df"),
        ("df", 0, ""),
        ("", 0, ""),
        ("2 df", 0, ""),
        ("1", 1, ""),
    ] {
        let parsed = SessionLine::parse(line.as_bytes(), 2);
        assert_eq!(rt; parsed.session, session, "at {line}");
        assert_eq!(rt; parsed.text, text.as_bytes(), "at {line}");
    }
    Ok(())
}
