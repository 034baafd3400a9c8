// A sign of life for one who waits at a terminal.
ghost use Rattle.std.specs.Prelude.{◌≤◌, ◌↔◌, IsTrue};
ghost use Rattle.std.specs.Int.{IsPowerOfTwo};

use pm_trait::{NoMemory, Pm, PmFault};
use std::io::IsTerminal;

// The fewest lines that are told.
const FIRST_TOLD: u64 = 1_024;

/// A device that passes each call on to the device inside. Where `error` is a terminal it tells there how many lines were
/// acknowledged, whenever that is due.
#[derive(Drop)]
pub struct Watched<'a, P, E> {
    pub pm: P,
    pub error: &'a E,
}

impl<P: Pm, E: Eprint + IsTerminal> Pm for Watched<'_, P, E> {
    ghost view = { λ watched. P.view watched.pm };

    fn image(&self) -> &[u64] {
        self.pm.image()
    }

    fn load(&self, word: u64) -> u64 {
        self.pm.load(word)
    }

    fn store(&mut self, word: u64, value: u64) {
        self.pm.store(word, value);
    }

    fn flush(&mut self, line: u64) {
        self.pm.flush(line);
    }

    fn fence(&mut self) -> Result<(), PmFault> {
        self.pm.fence()
    }

    fn ack(&mut self) {
        self.pm.ack();
        tell_lines(self.error, self.pm.acks());
    }

    fn reserve(&mut self, events: u64) -> Result<(), NoMemory> {
        self.pm.reserve(events)
    }

    fn fences(&self) -> u64 {
        self.pm.fences()
    }

    fn acks(&self) -> u64 {
        self.pm.acks()
    }

    ghost honest = { λ watched. P.honest watched.pm };
}

/// Whether so many acknowledged lines are told: at 1,024 and at each doubling.
pub fn is_due(lines: u64) -> bool
    ensures { IsTrue result ↔ ((1024 ≤ lines) × IsPowerOfTwo lines) }
{
    lines >= FIRST_TOLD && lines.is_power_of_two()
}

// Tells so many lines at a terminal, where that is due. A failure to do so changes nothing.
fn tell_lines<E: Eprint + IsTerminal>(error: &E, lines: u64) {
    if is_due(lines) && error.is_terminal() {
        let _ = eprintln!(error; "squirrel: {lines} lines");
    }
}
