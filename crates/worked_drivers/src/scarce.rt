// A device that is short of memory.
ghost use Rattle.std.specs.Prelude.{◌≡◌, IfOk};
ghost use Rattle.pm_trait.specs.Device.{IsSettledAt};
ghost use Rattle.pm_memory.specs.contracts.ram.RamPmPm.TheImpl.Laws.{honest-law};

use crate::jobs::events_of;
use pm_memory::RamPm;
use pm_trait::{NoMemory, Pm, PmFault};
use std::alloc::Global;
use std::test::Fail;

/// A device in memory that refuses the reserves with the numbers in `refusing`, counted from 1.
#[derive(Drop)]
pub struct ScarcePm {
    pm: RamPm,
    refusing: Vec<u64>,
    reserves: u64,
    refused: u64,
}

impl ScarcePm {
    /// A device of these words that did nothing yet.
    pub fn new(alloc: Global, image: &[u64], refusing: &[u64]) -> Result<ScarcePm, Fail>
        ensures settled { IfOk result (λ pm. IsSettledAt (⟦<ScarcePm as Pm>⟧.view pm).words
            (⟦<ScarcePm as Pm>⟧.view pm).trail) }
        ensures fences { IfOk result (λ pm. (⟦<ScarcePm as Pm>⟧.view pm).fences ≡ 0) }
        ensures acks { IfOk result (λ pm. (⟦<ScarcePm as Pm>⟧.view pm).acks ≡ 0) }
    {
        let pm = RamPm::new(alloc, image)?;
        let refusing = refusing.to_vec(alloc)?;
        Ok(ScarcePm {
            pm,
            refusing,
            reserves: 0,
            refused: 0,
        })
    }

    /// How often it was asked for room.
    pub fn reserves(&self) -> u64 {
        self.reserves
    }

    /// How many events it has recorded.
    pub fn events(&self) -> Result<u64, Fail> {
        events_of(&self.pm)
    }
}

impl Pm for ScarcePm {
    ghost view = { λ scarce. record (⟦<RamPm as Pm>⟧.view scarce.pm) { refused = scarce.refused } };

    fn image(&self) -> &[u64] {
        self.pm.image()
    }

    fn load(&self, word: u64) -> u64 {
        self.pm.load(word)
    }

    fn store(&mut self, word: u64, value: u64) {
        self.pm.store(word, value);
    }

    fn flush(&mut self, line: u64) {
        self.pm.flush(line);
    }

    fn fence(&mut self) -> Result<(), PmFault> {
        self.pm.fence()
    }

    fn ack(&mut self) {
        self.pm.ack();
    }

    fn reserve(&mut self, events: u64) -> Result<(), NoMemory> {
        self.reserves = self.reserves.saturating_add(1);
        let listed = self.refusing.contains(&self.reserves);
        if listed || self.pm.reserve(events).is_err() {
            self.refused = self.refused.saturating_add(1);
            return Err(NoMemory);
        }
        Ok(())
    }

    fn fences(&self) -> u64 {
        self.pm.fences()
    }

    fn acks(&self) -> u64 {
        self.pm.acks()
    }

    ghost honest = { λ scarce. honest-law scarce.pm };
}
