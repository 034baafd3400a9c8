// What the words of a device are, told.
ghost use Rattle.std.specs.Prelude.{◌≡◌, Ok, Err, Some};
ghost use Rattle.image_reading.specs.Soundness.{IsFirstViolation};
ghost use Rattle.image_reading.specs.declared.Violation.{Violation};
ghost use Rattle.mount_scan.specs.Mounting.{HoldsVolume};
ghost use Rattle.mount_scan.specs.Reports.{IsCheckOf, IsUnwritten, IsWritten, Reports};

use crate::counts::check_counts;
use crate::error::ReportError;
use crate::head::{geometry_of, head_fault};
use image_reading::{Scan, Violation, first_fault};
use io_edge::Sink;
use pm_trait::{NoMemory, Pm};
use script::{CheckCounts, write_check};
use std::alloc::Global;

// What is found in words.
#[derive(Clone, Copy)]
enum Checked {
    // They are sound: what is counted in them.
    Sound(CheckCounts),
    // They break a rule: the first violation.
    Broken(Violation),
}

/// Writes that the words of the device are sound, what their tree has and what recovery would repair. Or, where they break a
/// rule, writes nothing and answers the first violation.
///
/// The device is only read. The length and the first words are tested before memory is taken, and all memory is taken before
/// anything is written.
pub fn report<P: Pm, K: Sink>(
    alloc: Global,
    pm: &P,
    sink: &mut K,
) -> Result<Option<Violation>, ReportError>
    ensures written { IsWritten result → Reports (P.view pm.now).words
        (K.took sink.old) (K.took sink.new) (K.faults sink.old) (K.faults sink.new) result }
    ensures broken { (violation : Violation) → result ≡ Ok (Some violation)
        → IsFirstViolation (P.view pm.now).words violation }
    ensures no_memory { result ≡ Err ReportError.NoMemory → HoldsVolume (P.view pm.now).words }
    ensures unwritten { IsUnwritten result → sink.new ≡ sink.old }
{
    match check_words(alloc, pm.image())? {
        Checked::Sound(counts) => write_check(&counts, sink)?,
        Checked::Broken(violation) => return Ok(Some(violation)),
    }
    Ok(None)
}

// Finds the first violation, or counts.
fn check_words(alloc: Global, words: &[u64]) -> Result<Checked, NoMemory>
    ensures { IsCheckOf words.now result }
{
    let Some(geometry) = geometry_of(words) else {
        return Ok(Checked::Broken(head_fault(words)));
    };
    let mut scan = Scan::new(alloc, &geometry)?;
    if let Some(violation) = first_fault(words, &mut scan) {
        return Ok(Checked::Broken(violation));
    }
    Ok(Checked::Sound(check_counts(&scan.scanned(words))))
}
