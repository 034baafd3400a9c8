// Bytes are written into a file: in one interval inside its size, or with its growth.
ghost use Rattle.std.specs.Prelude.{◌≡◌, ◌+◌, ◌*◌, ◌^◌, ◌<◌, ◌≤◌, ℕ, List, length, IfOk};
ghost use Rattle.pm_trait.specs.DeviceView.{DeviceView};
ghost use Rattle.tree_model.specs.PathText.{Route};
ghost use Rattle.tree_model.specs.Run.{State};
ghost use Rattle.tree_model.specs.Step.{Count};
ghost use Rattle.tree_model.specs.declared.command.Command.TheVariants.{Write};
ghost use Rattle.volume.specs.Carried.{IsPlanFor, MayCarry, Carries};
ghost use Rattle.volume.specs.Costs.{span_events as events_of_span, fence_events};
ghost use Rattle.volume.specs.Stages.{Advances, keeping, next_by};
ghost use Rattle.volume.specs.declared.plan.Writing.{Writing as Written};
ghost use Rattle.volume.specs.declared.plan.Action.TheVariants.{Write as Writes};
ghost use Rattle.pm_trait.specs.Unfolds.{MayFence, Takes, fences_in};
ghost use Rattle.data_ops.specs.Writing.{IsWriteOf, HasStoredBytes, growth_of as growth_of_writing, overwriting};
ghost use Rattle.data_ops.specs.WriteStages.{CanOverwrite, StandsStage, StandsNext, MayBegin, begun, begun_writing, step_of, left_of, next_of, EntersAt, held_of};
ghost use Rattle.data_ops.specs.declared.write.Stage.TheVariants.{Inside as Insides, Growing as Grows};

use crate::grow::{Growth, Progress, advance_growth};
use entry_steps::settle;
use fence_token::{Clean, end_interval};
use layout::{Geometry, PAGE_BYTES};
use page_state::{Live, PageH};
use pm_trait::{Pm, PmFault};
use std::marker::Model;
use tree_model::Reply;
use volume::{Action, FENCE_EVENTS, Held, LONGEST_FILE, Next, Plan, Volume, Writing, span_events};

// Writes bytes below the size of a file, whose pages these are.
fn write_inside<P: Pm>(
    pm: &mut P,
    geometry: &Geometry,
    writing: &Writing,
    pages: &[u64],
    bytes: &[u8],
) -> Result<(), PmFault>
    requires ready { CanOverwrite geometry.now.pages (P.view pm.old).words writing.now bytes.now pages.now }
    requires begins { MayFence (P.view pm.old) (512 * geometry.now.pages)
        (events_of_span writing.now.offset (writing.now.offset + length bytes.now) + fence_events) 1 }
    ensures takes { Takes (overwriting geometry.now.pages writing.now.inode writing.now.offset bytes.now) (P.view pm.old)
        (P.view pm.new) result }
{
    let first = writing.offset / PAGE_BYTES;
    let end = (writing.offset + bytes.len() as u64).div_ceil(PAGE_BYTES);
    let part = &pages[first as usize..end as usize];
    let live: PageH<Clean, Live> = PageH::at(pm, geometry, part);
    let written = live.write_span(pm, first, LONGEST_FILE, writing.offset, bytes);
    let _flushed = written.flush(pm);
    end_interval(pm)
}

// What of a write is settled.
#[derive(Drop)]
pub enum Stage {
    // There are no bytes, and nothing is to be done.
    Nothing,
    // Nothing; the range lies inside the size.
    Inside(Writing),
    // So much of its growth.
    Growing(Writing, Progress),
}

/// A write of bytes into a file, between two of its steps. It doesn't keep the bytes: each call is handed the same.
#[derive(Drop)]
pub struct Running {
    stage: Stage,
}

impl Model for Running {
    ghost use Rattle.data_ops.specs.declared.write.Stage.{Stage};

    ghost Value = { Stage };

    ghost view = { λ running. running.stage };
}

impl Running {
    /// How many inodes and data pages it holds, which are no longer free for other calls: its new pages.
    pub fn held(&self) -> Held
        ensures { result ≡ held_of self.now }
    {
        let pages = match &self.stage {
            Stage::Nothing | Stage::Inside(_) => 0,
            Stage::Growing(writing, _) => writing.new_pages.count(),
        };
        Held { inodes: 0, pages }
    }

    /// How many fences it has left: one for each step that has a store.
    pub fn fences_left(&self) -> u64
        ensures { (volume_pages : ℕ) (bytes : List ℕ) → result ≡ fences_in (left_of volume_pages bytes self.now) }
    {
        match &self.stage {
            Stage::Nothing => 0,
            Stage::Inside(_) => 1,
            Stage::Growing(writing, progress) => progress.fences_left(&writing.new_pages),
        }
    }

    /// Makes the next step of a write, to its fence, and takes it into the volume: new pages are taken behind the first step, and are the
    /// file's behind the last, behind which it gives the reply. Where the fence fails, the volume is stopped, and the call is over. It
    /// takes no memory.
    pub fn step<P: Pm>(
        &mut self,
        volume: &mut Volume,
        bytes: &[u8],
        pm: &mut P,
    ) -> Result<Option<Reply>, PmFault>
        requires stands { StandsStage volume.old (P.view pm.old) bytes.now self.old }
        requires begins { MayFence (P.view pm.old) (512 * volume.old.size) (step_of volume.old.size bytes.now self.old).events 1 }
        ensures takes { Takes (step_of volume.old.size bytes.now self.old) (P.view pm.old) (P.view pm.new) result }
        ensures next { IfOk result (λ reply. next_by reply self.new ≡ next_of self.old) }
        ensures volume { Advances (step_of volume.old.size bytes.now self.old).events (EntersAt self.old) volume.old
            volume.new result }
        ensures stage { IfOk result (λ reply. StandsNext volume.new (P.view pm.new) bytes.now (next_by reply self.new)) }
    {
        match &mut self.stage {
            Stage::Nothing => Ok(Some(Reply::Count(0))),
            Stage::Inside(writing) => overwrite(writing, volume, bytes, pm),
            Stage::Growing(writing, progress) => grow(writing, progress, volume, bytes, pm),
        }
    }
}

// Where a write begins: inside the size, or with a growth.
fn first_stage(writing: Writing) -> Stage
    requires { writing.offset + writing.count < 2 ^ 64 }
    ensures { result ≡ begun_writing writing }
{
    if writing.offset + writing.count <= writing.old_size {
        Stage::Inside(writing)
    } else {
        Stage::Growing(writing, Progress::Begun)
    }
}

// How the file grows where the bytes end past its size.
fn growth_of(writing: &Writing) -> Growth
    requires { writing.now.offset + writing.now.count < 2 ^ 64 }
    ensures { result ≡ growth_of_writing writing.now }
{
    Growth {
        inode: writing.inode,
        old_size: writing.old_size,
        new_size: writing.offset + writing.count,
        offset: writing.offset,
    }
}

// Makes the one step of a write inside the size, and gives the reply.
fn overwrite<P: Pm>(
    writing: &Writing,
    volume: &mut Volume,
    bytes: &[u8],
    pm: &mut P,
) -> Result<Option<Reply>, PmFault>
    requires stands { StandsStage volume.old (P.view pm.old) bytes.now (Insides writing.now) }
    requires begins { MayFence (P.view pm.old) (512 * volume.old.size)
        (step_of volume.old.size bytes.now (Insides writing.now)).events 1 }
    ensures takes { Takes (step_of volume.old.size bytes.now (Insides writing.now)) (P.view pm.old) (P.view pm.new) result }
    ensures next { IfOk result (λ reply. next_by reply (Insides writing.now) ≡ next_of (Insides writing.now)) }
    ensures volume { Advances (step_of volume.old.size bytes.now (Insides writing.now)).events (EntersAt (Insides writing.now))
        volume.old volume.new result }
{
    let geometry = *volume.geometry();
    let events = span_events(writing.offset, writing.offset + writing.count) + FENCE_EVENTS;
    let pages = volume.pages(writing.inode);
    let made = write_inside(pm, &geometry, writing, pages, bytes);
    settle(volume, made, events)?;
    Ok(Some(Reply::Count(writing.count)))
}

// Makes the next step of a write past the size, and gives the reply behind the last.
fn grow<P: Pm>(
    writing: &Writing,
    progress: &mut Progress,
    volume: &mut Volume,
    bytes: &[u8],
    pm: &mut P,
) -> Result<Option<Reply>, PmFault>
    requires stands { StandsStage volume.old (P.view pm.old) bytes.now (Grows writing.now progress.old) }
    requires begins { MayFence (P.view pm.old) (512 * volume.old.size)
        (step_of volume.old.size bytes.now (Grows writing.now progress.old)).events 1 }
    ensures takes { Takes (step_of volume.old.size bytes.now (Grows writing.now progress.old)) (P.view pm.old) (P.view pm.new) result }
    ensures next { IfOk result (λ reply. next_by reply (Grows writing.now progress.new) ≡ next_of (Grows writing.now progress.old)) }
    ensures volume { Advances (step_of volume.old.size bytes.now (Grows writing.now progress.old)).events
        (EntersAt (Grows writing.now progress.old)) volume.old volume.new result }
    ensures stage { IfOk result (λ reply. StandsNext volume.new (P.view pm.new) bytes.now
        (next_by reply (Grows writing.now progress.new))) }
{
    let growth = growth_of(writing);
    match advance_growth(&growth, *progress, &writing.new_pages, bytes, volume, pm)? {
        Some(next) => {
            *progress = next;
            Ok(None)
        }
        None => Ok(Some(Reply::Count(writing.count))),
    }
}

/// Begins to carry out the plan of an accepted `write`: its events are kept, and nothing is stored.
pub fn begin(volume: &mut Volume, plan: Plan) -> Running
    requires stands { (device : DeviceView) × (bytes : List ℕ) × MayBegin volume.old device bytes plan }
    ensures running { result ≡ begun plan }
    ensures volume { volume.new ≡ keeping volume.old plan }
{
    match plan.into_action() {
        Action::Write(writing) => {
            volume.keep(writing.events());
            Running {
                stage: first_stage(writing),
            }
        }
        _nothing => Running {
            stage: Stage::Nothing,
        },
    }
}

/// Makes the next step of a write, as `step` does, and gives what is left.
pub fn advance<P: Pm>(
    running: Running,
    volume: &mut Volume,
    bytes: &[u8],
    pm: &mut P,
) -> Result<Next<Running>, PmFault>
    requires stands { StandsStage volume.old (P.view pm.old) bytes.now running }
    requires begins { MayFence (P.view pm.old) (512 * volume.old.size) (step_of volume.old.size bytes.now running).events 1 }
    ensures takes { Takes (step_of volume.old.size bytes.now running) (P.view pm.old) (P.view pm.new) result }
    ensures next { IfOk result (λ next. next ≡ next_of running) }
    ensures volume { Advances (step_of volume.old.size bytes.now running).events (EntersAt running) volume.old
        volume.new result }
    ensures stage { IfOk result (λ next. StandsNext volume.new (P.view pm.new) bytes.now next) }
{
    let mut running = running;
    let reply = running.step(volume, bytes, pm)?;
    Ok(Next::of(reply, running))
}

/// Writes bytes into a file, by the plan of an accepted `write` of these bytes. It takes 1 fence where they end not past the size;
/// else 2, and 3 where the file needs new pages; and none where there are no bytes. It takes no memory.
///
/// A crash at any moment leaves the old size, with each byte of the range below it the old or the new one, or the tree with all
/// the bytes. Where a fence fails, the volume is stopped, and the device may have all, some or none of the bytes.
pub fn apply_write<P: Pm>(
    volume: &mut Volume,
    plan: Plan,
    bytes: &[u8],
    pm: &mut P,
) -> Result<Reply, PmFault>
    requires planned { (state : State) × (path : Route) × (offset : ℕ) × IsPlanFor volume.old (P.view pm.old) state
        (Write path offset bytes.now) plan }
    requires ready { MayCarry volume.old (P.view pm.old) plan }
    ensures carries { Carries volume.old volume.new (P.view pm.old) (P.view pm.new) plan (Count (length bytes.now))
        (IsWriteOf bytes.now) result }
    ensures stored { (writing : Written) → plan ≡ Writes writing → HasStoredBytes volume.old.size (P.view pm.old)
        (P.view pm.new) writing bytes.now result }
{
    let mut running = begin(volume, plan);
    loop {
        match running.step(volume, bytes, pm)? {
            None => {}
            Some(reply) => return Ok(reply),
        }
    }
}
