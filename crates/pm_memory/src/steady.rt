// A device in memory that never fails.
ghost use Rattle.std.specs.Prelude.{◌≡◌, [], IfOk};
ghost use Rattle.pm_memory.specs.Ram.{failing_calls};
ghost use Rattle.pm_memory.specs.contracts.ram.RamPmPm.TheImpl.Laws.{honest-law};

use crate::ram::RamPm;
use crate::recorded::Recorded;
use pm_trait::{NoMemory, Pm, PmFault};
use std::alloc::Global;

/// A device in memory of which no call of `fence` fails.
#[derive(Drop)]
pub struct SteadyPm {
    ram: RamPm,
    ghost unlisted: { failing_calls ram ≡ [] },
}

impl SteadyPm {
    ghost use Rattle.pm_memory.specs.Fresh.{IsNew};

    /// A device of these words. Fails only where there is no memory.
    pub fn new(alloc: Global, words: &[u64]) -> Result<SteadyPm, NoMemory>
        ensures { IfOk result (λ pm. IsNew (⟦<SteadyPm as Pm>⟧.view pm) words.now) }
    {
        let ram = RamPm::new(alloc, words)?;
        Ok(SteadyPm { ram })
    }
}

impl Recorded for SteadyPm {
    fn ram(&self) -> &RamPm {
        &self.ram
    }
}

impl Pm for SteadyPm {
    ghost view = { λ pm. record (⟦<RamPm as Pm>⟧.view pm.ram) { faults = 0 } };

    fn image(&self) -> &[u64] {
        self.ram.image()
    }

    fn load(&self, word: u64) -> u64 {
        self.ram.load(word)
    }

    fn store(&mut self, word: u64, value: u64) {
        self.ram.store(word, value);
    }

    fn flush(&mut self, line: u64) {
        self.ram.flush(line);
    }

    fn fence(&mut self) -> Result<(), PmFault> {
        self.ram.fence()
    }

    fn ack(&mut self) {
        self.ram.ack();
    }

    fn reserve(&mut self, events: u64) -> Result<(), NoMemory> {
        self.ram.reserve(events)
    }

    fn fences(&self) -> u64 {
        self.ram.fences()
    }

    fn acks(&self) -> u64 {
        self.ram.acks()
    }

    ghost honest = { λ pm. honest-law pm.ram };
}
