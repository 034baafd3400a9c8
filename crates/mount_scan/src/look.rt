// What the words of a device are.
ghost use Rattle.mount_scan.specs.Looking.{IsAnswerFor};

use crate::build::volume_of_words;
use crate::error::MountError;
use crate::head::geometry_of;
use image_reading::{Scan, first_fault};
use layout::superblock::has_mark;
use recovery::Repairs;
use std::alloc::Global;
use volume::Volume;

/// What is found in the words of a device: the repairs that they need, and the volume that they are then.
#[derive(Drop)]
pub(crate) struct Found {
    pub volume: Volume,
    pub repairs: Repairs,
}

/// Looks for a volume in the words. The length and the first words are tested before memory is taken. In one that was closed
/// nothing is to be repaired.
pub(crate) fn look_at(alloc: Global, words: &[u64]) -> Result<Found, MountError>
    ensures { IsAnswerFor words.now result }
{
    let Some(geometry) = geometry_of(words) else {
        return Err(MountError::NotVolume);
    };
    let mut scan = Scan::new(alloc, &geometry)?;
    if let Some(violation) = first_fault(words, &mut scan) {
        return Err(MountError::Damaged(violation));
    }
    let scanned = scan.scanned(words);
    let repairs = if has_mark(words) {
        Repairs::none(alloc, &geometry, words)
    } else {
        Repairs::of(alloc, &scanned)?
    };
    let volume = volume_of_words(alloc, &scanned)?;
    Ok(Found { volume, repairs })
}
