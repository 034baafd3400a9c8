//! A volume that is mounted again and again, each time cut off by a crash.
#![tactic(auto)]

ghost use Rattle.std.specs.Prelude.{◌≡◌, ◌⊎◌, ◌<◌, length, Err, IfErr, IfOk};
ghost use Rattle.image_reading.specs.Soundness.{pages_in_image};
ghost use Rattle.image_laws.specs.Frame.{IsSoundAs};
ghost use Rattle.mount_scan.specs.Mounting.{IsSound};
ghost use Rattle.mount_scan.specs.declared.error.MountError.{MountError};
ghost use Rattle.remounts.specs.Follow.{FollowLaw, MayFollow};
ghost use Rattle.remounts.specs.InTurn.{IsRefusedAs, LateCrashLaw, LeaveInTurn, LeavesImage};

use mount_scan::{MountError, mount};
use pm_memory::{Recorded, SteadyPm};
use pm_trait::NoMemory;
use std::alloc::Global;

/// A crash in a mount.
#[derive(Clone, Copy, Debug)]
pub struct Crash<'a> {
    /// How many events of the mount came before it: all of them, where there are fewer.
    pub moment: u64,
    /// Which candidate is kept of each word that has several: one byte a word, and from the first one again behind the
    /// last. Where there are none, the oldest.
    pub keep: &'a [u8],
}

/// What may follow sound words, by mounts and crashes at any moments of them, is sound and means what they mean.
pub fn follow_law()
    ensures { FollowLaw }
{}

/// A crash in a mount that comes as late as the repairs' events, or later, leaves the words that recovery makes.
pub fn late_crash_law()
    ensures { LateCrashLaw }
{}

/// A device of these words is mounted, and a crash comes; a device of the words that it leaves is mounted, and the next
/// crash comes. Answers what the last one leaves: of sound words what means the same, however many crashes there were. Of
/// others the first mount is refused, and that is the answer. Without a crash nothing is mounted, and it is the words.
/// The devices are in memory and never fail: of sound words nothing but memory can be short.
pub fn words_after(
    alloc: Global,
    words: &[u64],
    crashes: &[Crash<'_>],
) -> Result<Vec<u64>, MountError>
    ensures in_turn { IfOk result (λ after. LeaveInTurn crashes.now words.now after.items) }
    ensures refused { IfErr result (λ error.
        (error ≡ MountError.NoMemory) ⊎ (0 < length crashes.now) × IsRefusedAs words.now error) }
    ensures unsound { ¬ IsSound words.now → 0 < length crashes.now →
        (error : MountError) × (result ≡ Err error) × IsRefusedAs words.now error }
    ensures follows { IfOk result (λ after. MayFollow (pages_in_image words.now) words.now after.items) }
    ensures means { IsSound words.now → IfOk result (λ after.
        IsSoundAs (pages_in_image words.now) words.now after.items) }
    ensures fails { IsSound words.now → IfErr result (λ error. error ≡ MountError.NoMemory) }
{
    let mut left = copy_of(alloc, words)?;
    for crash in crashes {
        left = words_after_one(alloc, left.as_slice(), crash)?;
    }
    Ok(left)
}

// What one crash leaves in the mount of a device of these words.
fn words_after_one(alloc: Global, words: &[u64], crash: &Crash<'_>) -> Result<Vec<u64>, MountError>
    ensures leaves { IfOk result (λ image. LeavesImage crash.now words.now image.items) }
    ensures refused { IfErr result (λ error. IsRefusedAs words.now error) }
    ensures fails { IsSound words.now → IfErr result (λ error. error ≡ MountError.NoMemory) }
{
    let mut pm = SteadyPm::new(alloc, words)?;
    let _volume = mount(alloc, &mut pm)?;
    let oldest = [0];
    let keep = if crash.keep.is_empty() {
        oldest.as_slice()
    } else {
        crash.keep
    };
    let ram = pm.ram();
    let left = ram.image_at(alloc, crash.moment.min(ram.events()), keep)?;
    Ok(left)
}

// The words in a list of their own.
fn copy_of(alloc: Global, words: &[u64]) -> Result<Vec<u64>, NoMemory>
    ensures { IfOk result (λ copy. copy.items ≡ words.now) }
{
    words.to_vec(alloc).map_err(|_| NoMemory)
}
