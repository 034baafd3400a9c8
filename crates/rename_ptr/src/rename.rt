// A name moves, in place of another node's name or to a new place, each interval settled by its fence.
ghost use Rattle.std.specs.Prelude.{◌≡◌, ◌*◌, IfOk, OnOk};
ghost use Rattle.pm_trait.specs.DeviceView.{DeviceView};
ghost use Rattle.tree_model.specs.PathText.{Route};
ghost use Rattle.tree_model.specs.Run.{State};
ghost use Rattle.tree_model.specs.Step.{Done};
ghost use Rattle.tree_model.specs.declared.command.Command.TheVariants.{Rename};
ghost use Rattle.volume.specs.Carried.{IsPlanFor, MayCarry, Carries};
ghost use Rattle.volume.specs.declared.plan.Moving.{Moving as Moved};
ghost use Rattle.volume.specs.declared.plan.Action.TheVariants.{Move};
ghost use Rattle.layout.specs.Name.{IsName, IsBytes};
ghost use Rattle.pm_trait.specs.Unfolds.{MayFence, Takes, fences_in};
ghost use Rattle.volume.specs.Stages.{Advances, keeping, next_by};
ghost use Rattle.volume.specs.Volume.{VolumeView};
ghost use Rattle.removal_steps.specs.Steps.{gone_pages as pages_that_go};
ghost use Rattle.rename_ptr.specs.Renaming.{HasRenamed};
ghost use Rattle.rename_ptr.specs.Stages.{StandsStage, StandsNext, MayBegin, begun, step_of, left_of, next_of, next_moving, EntersAt, EntersMoving, held_of};
ghost use Rattle.rename_ptr.specs.declared.rename.Stage.TheVariants.{Moving as Moves};

use crate::enter::take_in;
use crate::left::{fences_left_at, gives_pages, held_at, node_goes, step_events};
use crate::step::take_step;
use entry_steps::settle;
use pm_trait::{Pm, PmFault};
use removal_steps::gone_pages;
use std::marker::Model;
use tree_model::Reply;
use volume::{Action, Held, Moving, Next, Plan, Volume};

// What of a move is settled.
#[derive(Clone, Copy)]
pub enum Progress {
    // Nothing.
    Begun,
    // The new page is filled, with the name, and has no owner yet.
    Filled,
    // It has its owner.
    Opened,
    // The new name's slot points at the old one's.
    Pointed,
    // It has the number: the name has moved.
    Moved,
    // The old slot has no number any more.
    Left,
    // The pointer and the rest of the old slot are gone.
    Cleared,
    // The pages that are given back have no owner.
    Disowned,
}

// What of a rename is settled.
#[derive(Drop)]
pub enum Stage {
    // Both names are one node's, and nothing is to be done.
    Nothing,
    // So much of a move.
    Moving(Moving, Progress),
}

/// The move of a name, between two of its steps.
#[derive(Drop)]
pub struct Running {
    stage: Stage,
}

impl Model for Running {
    ghost use Rattle.rename_ptr.specs.declared.rename.Stage.{Stage};

    ghost Value = { Stage };

    ghost view = { λ running. running.stage };

    ghost use Rattle.rename_ptr.specs.Counts.{IsBoundedStage};

    ghost invariant = { λ running. IsBoundedStage running.stage };
}

impl Running {
    /// How many inodes and data pages it holds, which aren't free for other calls: its new page until the name has moved, and then those
    /// that it has to give back.
    pub fn held(&self) -> Held
        ensures { result ≡ held_of self.now }
    {
        match &self.stage {
            Stage::Nothing => Held {
                inodes: 0,
                pages: 0,
            },
            Stage::Moving(moving, progress) => held_at(moving, *progress),
        }
    }

    /// How many fences it has left: one for each step that has a store.
    pub fn fences_left(&self) -> u64
        ensures { (volume : VolumeView) (device : DeviceView) → StandsStage volume device self.now
            → result ≡ fences_in (left_of volume self.now) }
    {
        match &self.stage {
            Stage::Nothing => 0,
            Stage::Moving(moving, progress) => fences_left_at(moving, *progress),
        }
    }

    /// Makes the next step of a move, to its fence, and takes it into the volume: a new page is taken behind the first step, the names
    /// are moved behind the one that commits, and what is given back is free behind the last, behind which it gives the reply. Where the
    /// fence fails, the volume is stopped, and the call is over. It takes no memory. No other call may run beside it.
    pub fn step<P: Pm>(&mut self, volume: &mut Volume, pm: &mut P) -> Result<Option<Reply>, PmFault>
        requires stands { StandsStage volume.old (P.view pm.old) self.old }
        requires begins { MayFence (P.view pm.old) (512 * volume.old.size) (step_of volume.old self.old).events 1 }
        ensures takes { Takes (step_of volume.old self.old) (P.view pm.old) (P.view pm.new) result }
        ensures next { IfOk result (λ reply. next_by reply self.new ≡ next_of self.old) }
        ensures volume { Advances (step_of volume.old self.old).events (EntersAt self.old) volume.old volume.new result }
        ensures stage { IfOk result (λ reply. StandsNext volume.new (P.view pm.new) (next_by reply self.new)) }
    {
        match &mut self.stage {
            Stage::Nothing => Ok(Some(Reply::Done)),
            Stage::Moving(moving, progress) => {
                move_on(moving, *progress, volume, pm)?;
                Ok(go_over(moving, progress))
            }
        }
    }
}

/// Begins to carry out the plan of an accepted `rename`: its events are kept, and nothing is stored.
pub fn begin(volume: &mut Volume, plan: Plan) -> Running
    requires stands { (device : DeviceView) × MayBegin volume.old device plan }
    ensures running { result ≡ begun plan }
    ensures volume { volume.new ≡ keeping volume.old plan }
{
    let Action::Move(moving) = plan.into_action() else {
        return Running {
            stage: Stage::Nothing,
        };
    };
    volume.keep(moving.events());
    Running {
        stage: Stage::Moving(moving, Progress::Begun),
    }
}

/// Makes the next step of a move, as `step` does, and gives what is left.
pub fn advance<P: Pm>(
    running: Running,
    volume: &mut Volume,
    pm: &mut P,
) -> Result<Next<Running>, PmFault>
    requires stands { StandsStage volume.old (P.view pm.old) running }
    requires begins { MayFence (P.view pm.old) (512 * volume.old.size) (step_of volume.old running).events 1 }
    ensures takes { Takes (step_of volume.old running) (P.view pm.old) (P.view pm.new) result }
    ensures next { IfOk result (λ next. next ≡ next_of running) }
    ensures volume { Advances (step_of volume.old running).events (EntersAt running) volume.old volume.new result }
    ensures stage { IfOk result (λ next. StandsNext volume.new (P.view pm.new) next) }
{
    let mut running = running;
    let reply = running.step(volume, pm)?;
    Ok(Next::of(reply, running))
}

// Makes the next step of a move on the device.
fn make_step<P: Pm>(
    moving: &Moving,
    progress: Progress,
    volume: &Volume,
    pm: &mut P,
) -> Result<(), PmFault>
    requires stands { StandsStage volume.now (P.view pm.old) (Moves moving.now progress) }
    requires begins { MayFence (P.view pm.old) (512 * volume.now.size)
        (step_of volume.now (Moves moving.now progress)).events 1 }
    ensures takes { Takes (step_of volume.now (Moves moving.now progress)) (P.view pm.old) (P.view pm.new) result }
{
    let geometry = volume.geometry();
    let pages = gone_pages(volume, moving.replaced);
    take_step(pm, geometry, moving, pages, progress)
}

// Makes the next step of a move, and takes it in.
fn move_on<P: Pm>(
    moving: &Moving,
    progress: Progress,
    volume: &mut Volume,
    pm: &mut P,
) -> Result<(), PmFault>
    requires stands { StandsStage volume.old (P.view pm.old) (Moves moving.now progress) }
    requires begins { MayFence (P.view pm.old) (512 * volume.old.size)
        (step_of volume.old (Moves moving.now progress)).events 1 }
    ensures takes { Takes (step_of volume.old (Moves moving.now progress)) (P.view pm.old) (P.view pm.new) result }
    ensures volume { Advances (step_of volume.old (Moves moving.now progress)).events
        (EntersMoving moving.now progress) volume.old volume.new result }
    ensures stage { OnOk result (StandsNext volume.new (P.view pm.new) (next_moving moving.now progress)) }
{
    let made = make_step(moving, progress, volume, pm);
    settle(volume, made, step_events(moving, progress))?;
    take_in(volume, moving, progress);
    Ok(())
}

// Goes over to the next step that has a store, and gives the reply where there is none.
fn go_over(moving: &Moving, progress: &mut Progress) -> Option<Reply>
    ensures { next_by result (Moves moving.now progress.new) ≡ next_moving moving.now progress.old }
{
    *progress = match *progress {
        Progress::Begun => match moving.new_page {
            None => Progress::Pointed,
            Some(_) => Progress::Filled,
        },
        Progress::Filled => Progress::Opened,
        Progress::Opened => Progress::Pointed,
        Progress::Pointed => Progress::Moved,
        Progress::Moved => Progress::Left,
        Progress::Left => {
            if gives_pages(moving) {
                Progress::Cleared
            } else if node_goes(moving) {
                Progress::Disowned
            } else {
                return Some(Reply::Done);
            }
        }
        Progress::Cleared => Progress::Disowned,
        Progress::Disowned => return Some(Reply::Done),
    };
    None
}

// The new name of a plan that moves one is a name.
fn name_of_plan(plan: &Plan)
    ensures { (moving : Moved) → plan.now ≡ Move moving → IsName moving.to_name × IsBytes moving.to_name }
{
    if let Action::Move(moving) = plan.action() {
        let _bytes = moving.to_name.as_slice();
    }
}

/// Moves a name, by the plan of an accepted `rename`; a node that has the new name loses it, and where this was its last name it goes
/// with its pages. It takes 4 fences; 2 more with a new page; one more where pages are given back, and one where pages or an inode are
/// cleared. Where both names are one node's, it does nothing. It takes no memory.
///
/// A crash at any moment leaves the tree before or the tree after. Where a fence fails, the volume is stopped, and the device may have
/// the name in either place.
pub fn apply_rename<P: Pm>(volume: &mut Volume, plan: Plan, pm: &mut P) -> Result<Reply, PmFault>
    requires planned { (state : State) × (from : Route) × (to : Route) × IsPlanFor volume.old (P.view pm.old) state
        (Rename from to) plan }
    requires ready { MayCarry volume.old (P.view pm.old) plan }
    ensures carries { Carries volume.old volume.new (P.view pm.old) (P.view pm.new) plan Done
        (λ command. Unit {0}) result }
    ensures stored { (moving : Moved) → plan ≡ Move moving → HasRenamed volume.old.size (P.view pm.old)
        (P.view pm.new) moving (pages_that_go volume.old moving.replaced) result }
{
    name_of_plan(&plan);
    let mut running = begin(volume, plan);
    loop {
        match running.step(volume, pm)? {
            None => {}
            Some(reply) => return Ok(reply),
        }
    }
}
