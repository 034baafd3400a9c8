// How a step of a running call ended.
ghost use Rattle.std.specs.Prelude.{◌≡◌, ◌≤◌};
ghost use Rattle.volume.specs.Stages.{Advances};

use pm_trait::PmFault;
use volume::Volume;

/// Takes in how a step of a call ended, for which so many events were kept: where its fence succeeded these are kept no more, and where
/// it failed the volume is stopped.
pub fn settle<T>(volume: &mut Volume, made: Result<T, PmFault>, events: u64) -> Result<T, PmFault>
    requires kept { events ≤ volume.old.kept }
    ensures same { result ≡ made }
    ensures volume { Advances events (λ old new. new ≡ old) volume.old volume.new made }
{
    match &made {
        Ok(_) => volume.spend(events),
        Err(_) => volume.stop(),
    }
    made
}
