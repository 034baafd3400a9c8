// Sources and sinks, in memory and over readers and writers of the standard library.
use io_edge::{
    MemSink, MemSource, ReadFault, Sink, Source, StdSink, StdSource, WriteFault, write_all,
};
use std::io;
use std::io::{Error, ErrorKind, Read, Write};
use std::test::Fail;

#[test]
fn a_source_in_memory_gives_steps_and_fails_where_it_is_listed(
    rt: HostRuntime,
) -> Result<(), Fail> {
    let bytes = b"abcde".to_vec(rt.alloc())?;
    let failing = [2].to_vec(rt.alloc())?;
    let mut source = MemSource::new(bytes, 2, failing);
    let mut buf = [0; 3];
    for (answer, held) in [
        (Ok(2), b"ab\0"),
        (Err(ReadFault), b"ab\0"),
        (Ok(2), b"cd\0"),
        (Ok(1), b"ed\0"),
        (Ok(0), b"ed\0"),
    ] {
        assert_eq!(rt; source.read(&mut buf), answer);
        assert_eq!(rt; buf.as_slice(), held.as_slice());
    }
    Ok(())
}

#[test]
fn a_sink_in_memory_takes_what_fits_and_fails_where_it_is_listed(
    rt: HostRuntime,
) -> Result<(), Fail> {
    let failing = [2].to_vec(rt.alloc())?;
    let mut sink = MemSink::new(rt.alloc(), 5, failing)?;
    for (piece, answer, held) in [
        ("ab", Ok(2), "ab"),
        ("cd", Err(WriteFault), "ab"),
        ("cd", Ok(2), "abcd"),
        ("ef", Ok(1), "abcde"),
        ("f", Err(WriteFault), "abcde"),
        ("", Ok(0), "abcde"),
    ] {
        assert_eq!(rt; sink.write(piece.as_bytes()), answer);
        assert_eq!(rt; sink.bytes(), held.as_bytes());
    }
    Ok(())
}

#[test]
fn a_whole_text_is_written_or_a_prefix_of_it(rt: HostRuntime) -> Result<(), Fail> {
    let mut sink = MemSink::new(rt.alloc(), 5, Vec::new(rt.alloc()))?;
    assert_eq!(rt; write_all(&mut sink, b"abc"), Ok(()));
    assert_eq!(rt; write_all(&mut sink, b"def"), Err(WriteFault));
    assert_eq!(rt; sink.bytes(), b"abcde".as_slice());
    Ok(())
}

// Answers its calls from a list, the last first.
#[derive(Drop)]
struct Scripted {
    answers: Vec<Result<usize, ErrorKind>>,
    flushes: Vec<Result<usize, ErrorKind>>,
}

fn next_of(answers: &mut Vec<Result<usize, ErrorKind>>) -> io::Result<usize> {
    match answers.pop() {
        None => Ok(0),
        Some(Ok(count)) => Ok(count),
        Some(Err(kind)) => Err(Error::from(kind)),
    }
}

impl Read for Scripted {
    fn read(&mut self, buf: &mut [u8]) -> io::Result<usize> {
        let count = next_of(&mut self.answers)?;
        Ok(count.min(buf.len()))
    }
}

impl Write for Scripted {
    fn write(&mut self, buf: &[u8]) -> io::Result<usize> {
        let count = next_of(&mut self.answers)?;
        Ok(count.min(buf.len()))
    }

    fn flush(&mut self) -> io::Result<()> {
        next_of(&mut self.flushes)?;
        Ok(())
    }
}

#[test]
fn a_reader_of_the_standard_library_is_a_source(rt: HostRuntime) -> Result<(), Fail> {
    let mut buf = [0; 4];
    let mut source = StdSource::new(b"abcde".as_slice());
    assert_eq!(rt; source.read(&mut buf), Ok(4));
    assert_eq!(rt; buf.as_slice(), b"abcd".as_slice());
    assert_eq!(rt; source.read(&mut buf), Ok(1));
    assert_eq!(rt; buf.as_slice(), b"ebcd".as_slice());
    assert_eq!(rt; source.read(&mut buf), Ok(0));

    let answers = [
        Ok(1),
        Err(ErrorKind::BrokenPipe),
        Err(ErrorKind::Interrupted),
        Ok(2),
    ];
    let mut source = StdSource::new(Scripted {
        answers: answers.to_vec(rt.alloc())?,
        flushes: Vec::new(rt.alloc()),
    });
    assert_eq!(rt; source.read(&mut buf), Ok(2));
    assert_eq!(rt; source.read(&mut buf), Err(ReadFault));
    assert_eq!(rt; source.read(&mut buf), Ok(1));
    Ok(())
}

#[test]
fn a_writer_of_the_standard_library_is_a_sink(rt: HostRuntime) -> Result<(), Fail> {
    let mut taken = Vec::new(rt.alloc());
    assert_eq!(rt; write_all(&mut StdSink::new(&mut taken), b"abc"), Ok(()));
    assert_eq!(rt; taken.as_slice(), b"abc".as_slice());
    Ok(())
}

// A flush that a signal ends is made again, and so is a write; a flush or a write that fails otherwise is a fault, and so is a
// writer that takes none of some bytes.
#[test]
fn a_writer_answers(rt: HostRuntime) -> Result<(), Fail> {
    let answers = [
        Ok(0),
        Err(ErrorKind::BrokenPipe),
        Ok(3),
        Err(ErrorKind::Interrupted),
        Ok(2),
    ];
    let flushes = [
        Err(ErrorKind::BrokenPipe),
        Ok(0),
        Err(ErrorKind::Interrupted),
    ];
    let mut sink = StdSink::new(Scripted {
        answers: answers.to_vec(rt.alloc())?,
        flushes: flushes.to_vec(rt.alloc())?,
    });
    for (text, answer, what) in [
        ("abc", Ok(2), "the flush is made again"),
        ("abc", Err(WriteFault), "the flush fails"),
        ("abc", Err(WriteFault), "the write fails"),
        ("abc", Err(WriteFault), "the writer takes none"),
        ("", Ok(0), "no bytes"),
    ] {
        assert_eq!(rt; sink.write(text.as_bytes()), answer, "{what}");
    }
    Ok(())
}
