// Devices that record their trail in memory.
ghost use Rattle.std.specs.Prelude.{◌≡◌};

use crate::ram::RamPm;
use pm_trait::Pm;

/// A device that keeps its trail in a device in memory, and lends it.
pub trait Recorded: Pm {
    /// The device in memory, with the same trail and as many acknowledgements.
    fn ram(&self) -> &RamPm
        ensures trail { (⟦<RamPm as Pm>⟧.view result.now).trail ≡ (Self.view self.now).trail }
        ensures acks { (⟦<RamPm as Pm>⟧.view result.now).acks ≡ (Self.view self.now).acks };
}

impl Recorded for RamPm {
    fn ram(&self) -> &RamPm {
        self
    }
}
