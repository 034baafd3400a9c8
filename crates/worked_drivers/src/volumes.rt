// The words of volumes that rows begin on.
use crate::jobs::{job_on, same};
use squirrel_cli::Status;
use std::alloc::Global;
use std::test::Fail;

/// The words of a fresh volume of so many pages, at most 4,096.
pub fn fresh_volume(alloc: Global, pages: u64) -> Result<Vec<u64>, Fail> {
    let old = vec![in alloc; 0; 512 * pages.min(4_096) as usize]?;
    let line = format!(in alloc; "squirrel mkfs v {pages}")?;
    Ok(job_on(alloc, line.as_str(), old.as_slice(), b"")?.image)
}

/// The words of a fresh volume of so many pages, on which a script was run to its end.
pub fn volume_after(alloc: Global, pages: u64, script: &str) -> Result<Vec<u64>, Fail> {
    let fresh = fresh_volume(alloc, pages)?;
    let left = job_on(alloc, "squirrel run v", fresh.as_slice(), script.as_bytes())?;
    same(left.status, Status::Done, script)?;
    Ok(left.image)
}

/// The words of a fresh volume of 16 pages.
pub fn small_volume(alloc: Global) -> Result<Vec<u64>, Fail> {
    fresh_volume(alloc, 16)
}

/// The words of a volume of 16 pages with the file `/a`.
pub fn volume_with_a(alloc: Global) -> Result<Vec<u64>, Fail> {
    volume_after(alloc, 16, "create /a\n")
}

/// Words that are set in the volume of 16 pages with the file `/a`: it is renamed to `/b`, as far as the commit. Besides a dead slot
/// has a name, inode 2 has too many links, inode 3 isn't named, page 1 is past the end of the file, and page 2 has an owner that no
/// volume of this size has. It isn't closed. A mount mends them with 4 fences.
pub const LITTERED: [(usize, u64); 13] = [
    (5, 0),
    (529, 7),
    (544, 1),
    (547, 3),
    (1_032, 2),
    (1_033, 1),
    (1_040, 5),
    (1_041, 3),
    (1_042, 9),
    (1_552, 2),
    (1_553, 1),
    (1_554, 0x62_0001),
    (1_570, 0x63_0001),
];

/// The words of that volume.
pub fn littered(alloc: Global) -> Result<Vec<u64>, Fail> {
    with_words(alloc, volume_with_a(alloc)?.as_slice(), &LITTERED)
}

/// Sets some words.
pub fn set_words(image: &mut Vec<u64>, changes: &[(usize, u64)]) -> Result<(), Fail> {
    for (word, value) in changes {
        let place = image.get_mut(*word).ok_or("no word")?;
        *place = *value;
    }
    Ok(())
}

/// The words of a volume, some of them set.
pub fn with_words(
    alloc: Global,
    volume: &[u64],
    changes: &[(usize, u64)],
) -> Result<Vec<u64>, Fail> {
    let mut image = volume.to_vec(alloc)?;
    set_words(&mut image, changes)?;
    Ok(image)
}
