// Rows of scripts: what is told, and how many fences that takes.
use crate::jobs::{Left, is_closed, is_done, job_on, mark_fences, same};
use std::alloc::Global;
use std::test::Fail;

/// A script, its replies, and how many fences its lines take.
pub type Row<'a> = (&'a str, &'a str, u64);

/// Runs each script on the same volume, and compares what is told alone.
pub fn compare_replies(alloc: Global, volume: &[u64], rows: &[(&str, &str)]) -> Result<(), Fail> {
    for (script, told) in rows {
        let left = job_on(alloc, "squirrel run v", volume, script.as_bytes())?;
        is_done(&left, told, script)?;
    }
    Ok(())
}

/// Runs each script on the same volume.
pub fn compare_rows(alloc: Global, volume: &[u64], rows: &[Row<'_>]) -> Result<(), Fail> {
    for (script, told, fences) in rows {
        compare_run(alloc, volume, script, told, *fences)?;
    }
    Ok(())
}

/// Runs a script to its end, which closes the volume.
pub fn compare_run(
    alloc: Global,
    volume: &[u64],
    script: &str,
    told: &str,
    fences: u64,
) -> Result<Left, Fail> {
    let left = job_on(alloc, "squirrel run v", volume, script.as_bytes())?;
    is_done(&left, told, script)?;
    let marking = mark_fences(volume, fences);
    same(left.fences, fences.saturating_add(marking), script)?;
    same(is_closed(left.image.as_slice()), true, script)?;
    Ok(left)
}

/// Some words are these.
pub fn compare_words(image: &[u64], words: &[(usize, u64)]) -> Result<(), Fail> {
    for (word, value) in words {
        same(
            (*word, image.get(*word).copied()),
            (*word, Some(*value)),
            "at a word",
        )?;
    }
    Ok(())
}
