// A file in memory, which shows its lock and tells its bytes: what is said of such files is said of some.
ghost use Rattle.std.specs.Prelude.{◌≡◌, ◌+◌, ◌≤◌, IfOk, length, Some};

use super::ImageFile;
use std::io;
use std::io::{Error, ErrorKind};
use std::test::Fail;

#[derive(Drop)]
struct Shown {
    bytes: Vec<u8>,
    is_locked: bool,
    is_shared: bool,
}

impl Shown {
    /// Where a range of so many bytes begins, which is within the file.
    fn first_of(&self, place: u64, count: usize) -> io::Result<usize>
        ensures { IfOk result (λ first. (first ≡ place) × (first + count ≤ length self.now.bytes.items)) }
    {
        let length = self.bytes.len();
        if place > length as u64 || count > length - place as usize {
            return Err(Error::from(ErrorKind::UnexpectedEof));
        }
        Ok(place as usize)
    }
}

impl ImageFile for Shown {
    ghost is_locked = { λ file. file.is_locked };

    ghost is_shared = { λ file. file.is_shared };

    ghost is_refused = { λ _. Unit {0} };

    ghost is_length = { λ file bytes. bytes ≡ length file.bytes.items };

    ghost bytes = { λ file. Some file.bytes.items };

    fn lock(self) -> io::Result<Shown> {
        Ok(Shown {
            is_locked: true,
            ..self
        })
    }

    fn lock_shared(self) -> io::Result<Shown> {
        Ok(Shown {
            is_shared: true,
            ..self
        })
    }

    fn length(&self) -> io::Result<u64> {
        Ok(self.bytes.len() as u64)
    }

    fn end(&mut self) -> io::Result<u64> {
        self.length()
    }

    fn read_place(&self, place: u64, buffer: &mut [u8]) -> io::Result<()> {
        let first = self.first_of(place, buffer.len())?;
        buffer.copy_from_slice(&self.bytes[first..first + buffer.len()]);
        Ok(())
    }

    fn write_place(&mut self, place: u64, run: &[u8]) -> io::Result<()> {
        let first = self.first_of(place, run.len())?;
        self.bytes[first..first + run.len()].copy_from_slice(run);
        Ok(())
    }
}

#[test]
fn a_file_in_memory(rt: HostRuntime) -> Result<(), Fail> {
    let bytes = vec![in rt.alloc(); 7u8; 16]?;
    let file = Shown {
        bytes,
        is_locked: false,
        is_shared: false,
    };
    let mut file = file.lock()?;
    assert!(rt; file.is_locked && !file.is_shared);
    file.write_place(14, b"ab")?;
    assert!(rt; file.write_place(15, b"ab").is_err());
    let mut read = [0; 3];
    file.read_place(13, &mut read)?;
    assert_eq!(rt; read, *b"\x07ab");
    assert!(rt; file.read_place(14, &mut read).is_err());
    Ok(())
}
