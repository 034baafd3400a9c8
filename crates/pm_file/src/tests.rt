// Over files of the system: what a fence gives the file, and which files give which device.
ghost use Rattle.std.specs.Prelude.{◌≤◌};
ghost use Rattle.layout.specs.Geometry.{IsVolumeSize};

use crate::{FileFault, FilePm};
use layout::Geometry;
use pm_trait::Pm;
use std::fs::File;
use std::io::{Read, Seek, SeekFrom};
use std::path::PathBuf;
use std::test::Fail;
use std::{env, fs, process};

/// A path of this process's own, where no file is.
fn fresh_path(rt: &HostRuntime, name: &str) -> Result<PathBuf, Fail> {
    let id = process::id(rt.process());
    let file = format!(in rt.alloc(); "pm_file-{id}-{name}")?;
    let path = env::temp_dir(rt)?.join(rt.alloc(), file)?;
    let _ = fs::remove_file(rt, path.as_path());
    Ok(path)
}

/// Whether the file has just these words, each as eight bytes, the lowest first.
fn has_words(rt: &HostRuntime, path: &str, words: &[u64]) -> Result<bool, Fail> {
    let bytes = fs::read(rt, path)?;
    let mut is_same = bytes.len() % 8 == 0 && bytes.len() / 8 == words.len();
    for (eight, word) in bytes.chunks(8).zip(words) {
        is_same = is_same && eight == word.to_le_bytes().as_slice();
    }
    Ok(is_same)
}

#[test]
fn a_fence_writes_the_flushed_lines(rt: HostRuntime) -> Result<(), Fail> {
    let path = fresh_path(&rt, "fence")?;
    let mut device = FilePm::make(&rt, rt.alloc(), path.as_str(), 16)?;
    device.store(9, 0x0807_0605_0403_0201);
    device.store(15, 12);
    device.store(8191, 7);
    device.flush(1);
    device.flush(1023);
    device.flush(1);
    assert!(rt; device.fence().is_ok());
    assert!(rt; has_words(&rt, path.as_str(), device.image())?);
    device.store(9, 11);
    device.flush(1);
    device.store(16, 5);
    assert!(rt; device.fence().is_ok());
    assert_eq!(rt; device.fences(), 2);
    device.store(16, 0);
    assert!(rt; has_words(&rt, path.as_str(), device.image())?);
    Ok(fs::remove_file(&rt, path.as_path())?)
}

#[test]
fn a_file_keeps_what_it_held(rt: HostRuntime) -> Result<(), Fail> {
    let path = fresh_path(&rt, "length")?;
    let missing = FilePm::from_path(&rt, rt.alloc(), path.as_str());
    assert!(rt; matches!(missing, Err(FileFault::Failed(_))));

    for length in [0usize, 15 * 4096, 16 * 4096 - 1, 16 * 4096 + 8] {
        let bytes = vec![in rt.alloc(); 3u8; length]?;
        fs::write(&rt, path.as_path(), bytes.as_slice())?;
        let device = FilePm::from_path(&rt, rt.alloc(), path.as_str())?;
        assert_eq!(rt; device.image().len(), 0, "of {length} bytes");
        assert_eq!(rt; fs::read(&rt, path.as_path())?.len(), length);
    }

    let longer = FilePm::make(&rt, rt.alloc(), path.as_str(), 17)?;
    assert_eq!(rt; longer.image().len(), 8704);
    assert_eq!(rt; longer.image()[8192], 0x0303_0303_0303_0303);
    assert!(rt; has_words(&rt, path.as_str(), longer.image())?);
    drop(longer);
    let shorter = FilePm::make(&rt, rt.alloc(), path.as_str(), 16)?;
    assert_eq!(rt; shorter.image().len(), 8192);
    assert!(rt; has_words(&rt, path.as_str(), shorter.image())?);
    Ok(fs::remove_file(&rt, path.as_path())?)
}

#[test]
fn a_device_without_a_file(rt: HostRuntime) {
    let mut device: FilePm<HostRuntime> = FilePm::none(rt.alloc());
    assert!(rt; device.image().is_empty());
    assert!(rt; device.reserve(u64::MAX).is_ok());
    assert!(rt; device.fence().is_ok());
    assert_eq!(rt; device.fences(), 1);
    device.ack();
    assert_eq!(rt; device.acks(), 1);
}

#[test]
fn a_file_serves_one_device_at_a_time(rt: HostRuntime) -> Result<(), Fail> {
    let path = fresh_path(&rt, "lock")?;
    let device = FilePm::make(&rt, rt.alloc(), path.as_str(), 16)?;
    let made = FilePm::make(&rt, rt.alloc(), path.as_str(), 17);
    assert!(rt; matches!(made, Err(FileFault::Failed(_))));
    let opened = FilePm::from_path(&rt, rt.alloc(), path.as_str());
    assert!(rt; matches!(opened, Err(FileFault::Failed(_))));
    assert!(rt; has_words(&rt, path.as_str(), device.image())?);
    drop(device);
    let opened = FilePm::from_path(&rt, rt.alloc(), path.as_str())?;
    assert_eq!(rt; opened.image().len(), 8192);
    Ok(fs::remove_file(&rt, path.as_path())?)
}

#[test]
fn a_file_is_read_beside_others_who_read_it(rt: HostRuntime) -> Result<(), Fail> {
    let path = fresh_path(&rt, "read")?;
    let missing = FilePm::to_read(&rt, rt.alloc(), path.as_str());
    assert!(rt; matches!(missing, Err(FileFault::Failed(_))));
    let folder = FilePm::to_read(&rt, rt.alloc(), ".");
    assert!(rt; matches!(folder, Err(FileFault::Failed(_))));
    let made = FilePm::make(&rt, rt.alloc(), path.as_str(), 16)?;
    let beside = FilePm::to_read(&rt, rt.alloc(), path.as_str());
    assert!(rt; matches!(beside, Err(FileFault::Failed(_))));
    drop(made);
    let mut device = FilePm::to_read(&rt, rt.alloc(), path.as_str())?;
    let other = FilePm::to_read(&rt, rt.alloc(), path.as_str())?;
    assert!(rt; has_words(&rt, path.as_str(), other.image())?);
    let opened = FilePm::from_path(&rt, rt.alloc(), path.as_str());
    assert!(rt; matches!(opened, Err(FileFault::Failed(_))));
    assert!(rt; device.fence().is_err());
    assert_eq!(rt; device.fences(), 0);
    Ok(fs::remove_file(&rt, path.as_path())?)
}

/// The eight bytes of a word in a file.
fn word_in(rt: &HostRuntime, path: &str, word: u64) -> Result<u64, Fail>
    requires { word ≤ 33554432 }
{
    let mut file = File::open(rt, path)?;
    file.seek(SeekFrom::Start(8 * word))?;
    let mut bytes = [0u8; 8];
    file.read_exact(&mut bytes)?;
    Ok(u64::from_le_bytes(bytes))
}

/// Whether a word of the first line and the last word of all reach their places in the file of so many pages.
fn lines_reach_their_places(rt: &HostRuntime, name: &str, pages: u64) -> Result<bool, Fail>
    requires { IsVolumeSize pages }
{
    let path = fresh_path(rt, name)?;
    let last = 512 * pages - 1;
    let mut device = FilePm::make(rt, rt.alloc(), path.as_str(), pages)?;
    device.store(1, 2);
    device.store(last, 3);
    device.flush(0);
    device.flush(last / 8);
    let is_fenced = device.fence().is_ok();
    drop(device);
    let first_word = word_in(rt, path.as_str(), 1)?;
    let last_word = word_in(rt, path.as_str(), last)?;
    let length = fs::metadata(rt, path.as_path())?.len();
    fs::remove_file(rt, path.as_path())?;
    Ok(is_fenced && first_word == 2 && last_word == 3 && length == 4_096 * pages)
}

#[test]
fn lines_of_the_smallest_and_the_largest_volume(rt: HostRuntime) -> Result<(), Fail> {
    assert!(rt; lines_reach_their_places(&rt, "smallest", Geometry::FEWEST_PAGES)?);
    assert!(rt; lines_reach_their_places(&rt, "largest", Geometry::MOST_PAGES)?);
    Ok(())
}
