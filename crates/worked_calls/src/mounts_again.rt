// Volumes of 16 pages with the file `/a`, whose rename to `/b` has come as far as its commit. Inode 2 begins at word 528, the
// descriptors at 1,024, and the slots of data page 0 at 1,536.
use layout::Geometry;
use remounts::{Crash, words_after};
use std::alloc::Global;
use std::test::Fail;

const WORDS: usize = 8_192;

const FILE: [(usize, u64); 12] = [
    (512, 2),
    (513, 2),
    (515, 1),
    (528, 1),
    (529, 1),
    (531, 2),
    (1_024, 1),
    (1_025, 2),
    (1_536, 2),
    (1_538, 0x61_0001),
    (1_552, 2),
    (1_554, 0x62_0001),
];

const POINTER: (usize, u64) = (1_553, 1);

// A dead slot with a name, too many links, an inode that isn't named, a page past the end of the file, and one whose owner
// no volume of this size has.
const LITTER: [(usize, u64); 9] = [
    (529, 7),
    (544, 1),
    (547, 3),
    (1_032, 2),
    (1_033, 1),
    (1_040, 5),
    (1_041, 3),
    (1_042, 9),
    (1_570, 0x63_0001),
];

// The number and the name of the slot that the rename left.
const LEFT: [(usize, u64); 2] = [(1_536, 0), (1_538, 0)];

// Sets some of the words.
fn set(words: &mut [u64], changes: &[(usize, u64)]) -> Result<(), Fail> {
    for (address, value) in changes {
        *words.get_mut(*address).ok_or("no such word")? = *value;
    }
    Ok(())
}

// A volume with the file under its new name alone.
fn renamed(alloc: Global) -> Result<Vec<u64>, Fail> {
    let geometry = Geometry::of(16).ok_or("no volume")?;
    let mut words = vec![in alloc; 0; WORDS]?;
    for (address, value) in geometry.head().iter().enumerate() {
        set(words.as_mut_slice(), &[(address, *value)])?;
    }
    set(words.as_mut_slice(), &FILE)?;
    set(words.as_mut_slice(), &LEFT)?;
    Ok(words)
}

// What one crash leaves of a volume with the rename's words.
#[test]
fn a_crash_in_a_mount(rt: HostRuntime) -> Result<(), Fail> {
    let alloc = rt.alloc();
    let mended = renamed(alloc)?;
    let mut words = mended.clone()?;
    set(words.as_mut_slice(), &FILE)?;
    set(words.as_mut_slice(), &[POINTER])?;
    let mut numbered = words.clone()?;
    set(numbered.as_mut_slice(), &[(1_536, 0)])?;
    for (moment, keep, wanted) in [
        (0, [0], words.as_slice()),
        (1, [0], words.as_slice()),
        (1, [1], numbered.as_slice()),
        (3, [0], numbered.as_slice()),
        (24, [0], mended.as_slice()),
        (100, [0], mended.as_slice()),
    ] {
        let crash = Crash {
            moment,
            keep: keep.as_slice(),
        };
        let left = words_after(alloc, words.as_slice(), &[crash])?;
        assert_eq!(rt; left.as_slice(), wanted, "moment {moment}");
    }
    Ok(())
}

// Nine crashes in a row, and a tenth mount that comes to its end, with all that can be litter.
#[test]
fn ten_mounts(rt: HostRuntime) -> Result<(), Fail> {
    let alloc = rt.alloc();
    let mended = renamed(alloc)?;
    let mut words = mended.clone()?;
    set(words.as_mut_slice(), &FILE)?;
    set(words.as_mut_slice(), &LITTER)?;
    set(words.as_mut_slice(), &[POINTER])?;
    let keep = [1u8, 0, 0, 1, 1];
    let mut crashes = Vec::new(alloc);
    for moment in [1, 2, 4, 5, 9, 14, 25, 40, 7, 59] {
        crashes.push(Crash {
            moment,
            keep: keep.as_slice(),
        })?;
    }
    let left = words_after(alloc, words.as_slice(), crashes.as_slice())?;
    assert_eq!(rt; left.as_slice(), mended.as_slice());
    Ok(())
}
