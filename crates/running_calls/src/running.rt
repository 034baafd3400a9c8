// A call that changes, between two of its steps. What each kind of call promises of a step is said of all.
ghost use Rattle.std.specs.Prelude.{◌≡◌, ◌*◌, ℕ, List, Some, IfOk};
ghost use Rattle.pm_trait.specs.DeviceView.{DeviceView};
ghost use Rattle.pm_trait.specs.Unfolds.{MayFence, Takes, fences_in};
ghost use Rattle.volume.specs.Volume.{VolumeView};
ghost use Rattle.volume.specs.Stages.{Advances, keeping, next_by};
ghost use Rattle.running_calls.specs.Stages.{StandsStage, StandsNext, MayBegin, IsNext, EntersAt, begun as begun_by, step_of, left_of, held_of};

use data_ops::{truncate, write};
use pm_trait::{Pm, PmFault};
use tree_model::Reply;
use unlink_ops::{link, removal};
use volume::{Action, Held, Plan, Volume};

/// A call that changes the volume, between two of its steps.
#[derive(Drop)]
pub enum Running {
    /// It makes a file or a directory.
    Makes(create_ops::Running),
    /// It gives a file one more name.
    Links(link::Running),
    /// It takes a name away.
    Removes(removal::Running),
    /// It moves a name. It runs alone.
    Moves(rename_ptr::Running),
    /// It writes bytes into a file.
    Writes(write::Running),
    /// It gives a file another size.
    Resizes(truncate::Running),
}

impl Running {
    /// How many inodes and data pages it holds, which aren't free for other calls.
    pub fn held(&self) -> Held
        ensures { result ≡ held_of self.now }
    {
        match self {
            Running::Makes(running) => running.held(),
            Running::Links(running) => running.held(),
            Running::Removes(running) => running.held(),
            Running::Moves(running) => running.held(),
            Running::Writes(running) => running.held(),
            Running::Resizes(running) => running.held(),
        }
    }

    /// How many fences it has left: one for each step that has a store.
    pub fn fences_left(&self) -> u64
        ensures { (volume : VolumeView) (device : DeviceView) (bytes : List ℕ) → StandsStage volume device bytes self.now
            → result ≡ fences_in (left_of volume bytes self.now) }
    {
        match self {
            Running::Makes(running) => running.fences_left(),
            Running::Links(running) => running.fences_left(),
            Running::Removes(running) => running.fences_left(),
            Running::Moves(running) => running.fences_left(),
            Running::Writes(running) => running.fences_left(),
            Running::Resizes(running) => running.fences_left(),
        }
    }

    /// Makes the next step, to its fence, and takes it into the volume; behind the last it gives the reply. The bytes are those of a write, the
    /// same in each step. Where the fence fails, the volume is stopped, and the call is over. It takes no memory.
    pub fn step<P: Pm>(
        &mut self,
        volume: &mut Volume,
        bytes: &[u8],
        pm: &mut P,
    ) -> Result<Option<Reply>, PmFault>
        requires stands { StandsStage volume.old (P.view pm.old) bytes.now self.old }
        requires begins { MayFence (P.view pm.old) (512 * volume.old.size) (step_of volume.old bytes.now self.old).events 1 }
        ensures takes { Takes (step_of volume.old bytes.now self.old) (P.view pm.old) (P.view pm.new) result }
        ensures next { IfOk result (λ reply. IsNext self.old (next_by reply self.new)) }
        ensures volume { Advances (step_of volume.old bytes.now self.old).events (EntersAt self.old) volume.old volume.new result }
        ensures stage { IfOk result (λ reply. StandsNext volume.new (P.view pm.new) bytes.now (next_by reply self.new)) }
    {
        match self {
            Running::Makes(running) => running.step(volume, pm),
            Running::Links(running) => running.step(volume, pm),
            Running::Removes(running) => running.step(volume, pm),
            Running::Moves(running) => running.step(volume, pm),
            Running::Writes(running) => running.step(volume, bytes, pm),
            Running::Resizes(running) => running.step(volume, pm),
        }
    }
}

/// Begins to carry out the plan of an accepted command that changes: its events are kept, and nothing is stored.
pub fn begin(volume: &mut Volume, plan: Plan) -> Running
    requires stands { (device : DeviceView) × (bytes : List ℕ) × MayBegin volume.old device bytes plan }
    ensures running { begun_by plan ≡ Some result }
    ensures volume { volume.new ≡ keeping volume.old plan }
{
    match plan.action() {
        Action::Make(_) => Running::Makes(create_ops::begin(volume, plan)),
        Action::Name(_) => Running::Links(link::begin(volume, plan)),
        Action::Remove(_) => Running::Removes(removal::begin(volume, plan)),
        Action::Move(_) | Action::KeepNames => Running::Moves(rename_ptr::begin(volume, plan)),
        Action::Write(_) | Action::WriteNothing => Running::Writes(write::begin(volume, plan)),
        Action::Resize(_) | Action::KeepSize => Running::Resizes(truncate::begin(volume, plan)),
        Action::Read(_) | Action::Status(_) | Action::Names(_) | Action::Space => unreachable!(),
    }
}
