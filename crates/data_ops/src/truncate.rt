// A file gets another size: a greater one by its growth; a smaller one in the size alone, and then the pages behind it are given back.
ghost use Rattle.std.specs.Prelude.{◌≡◌, ◌*◌, ◌^◌, ◌≤◌, ℕ, List, nat_lt, length, IfOk};
ghost use Rattle.pm_trait.specs.DeviceView.{DeviceView};
ghost use Rattle.tree_model.specs.PathText.{Route};
ghost use Rattle.tree_model.specs.Run.{State};
ghost use Rattle.tree_model.specs.Step.{Done};
ghost use Rattle.tree_model.specs.declared.command.Command.TheVariants.{Truncate};
ghost use Rattle.volatile_index.specs.Index.{pages_of};
ghost use Rattle.volume.specs.Carried.{IsPlanFor, MayCarry, Carries};
ghost use Rattle.volume.specs.Costs.{where_true};
ghost use Rattle.volume.specs.Entered.{MayLosePages};
ghost use Rattle.volume.specs.Stages.{Advances, keeping, next_by};
ghost use Rattle.volume.specs.Volume.{VolumeView};
ghost use Rattle.volume.specs.declared.plan.Resizing.{Resizing as Resized};
ghost use Rattle.volume.specs.declared.plan.Action.TheVariants.{Resize as Resizes};
ghost use Rattle.pm_trait.specs.Unfolds.{MayFence, Takes, fences_in};
ghost use Rattle.data_ops.specs.Growing.{owner_events, release_events};
ghost use Rattle.data_ops.specs.Steps.{CanLower, CanDisown, CanRelease, sizing, giving, freeing};
ghost use Rattle.data_ops.specs.Cutting.{IsTruncation, HasStoredSize, gone_pages};
ghost use Rattle.data_ops.specs.ResizeStages.{StandsStage, StandsNext, MayBegin, IsCutAt, EntersAt, EntersCut, begun, begun_resizing, step_of, step_of_cut, left_of, next_of, next_cutting, held_of};
ghost use Rattle.data_ops.specs.declared.truncate.Stage.TheVariants.{Cutting as Cuts, Growing as Grows};

use crate::grow::{Growth, Progress, advance_growth};
use entry_steps::settle;
use fence_token::{Clean, end_interval};
use inode_state::{Cut, InodeH, Live as LiveNode};
use layout::Geometry;
use page_state::{Live, PageH, Released};
use pm_trait::{Pm, PmFault};
use std::marker::Model;
use tree_model::Reply;
use volume::{
    Action, COMMIT_EVENTS, DESCRIPTOR_REST_EVENTS, FENCE_EVENTS, Held, Next, Plan, Resizing,
    Volume, WORD_EVENTS,
};

// Lowers a file's size.
fn lower_size<P: Pm>(pm: &mut P, geometry: &Geometry, inode: u64, size: u64) -> Result<(), PmFault>
    requires ready { CanLower geometry.now.pages (P.view pm.old).words inode size }
    requires begins { MayFence (P.view pm.old) (512 * geometry.now.pages) COMMIT_EVENTS 1 }
    ensures takes { Takes (sizing inode size) (P.view pm.old) (P.view pm.new) result }
{
    let live: InodeH<Clean, LiveNode> = InodeH::at(pm, geometry, inode);
    let cut = live.shrink_size(pm, size);
    let _flushed = cut.flush(pm);
    end_interval(pm)
}

// Takes the pages behind a file's end from it, where there are any.
fn disown<P: Pm>(pm: &mut P, geometry: &Geometry, inode: u64, pages: &[u64]) -> Result<(), PmFault>
    requires ready { CanDisown geometry.now.pages (P.view pm.old).words inode pages.now }
    requires begins { MayFence (P.view pm.old) (512 * geometry.now.pages) (where_true (nat_lt 0 (length pages.now))
        (owner_events (length pages.now))) 1 }
    ensures takes { Takes (giving geometry.now.pages pages.now) (P.view pm.old) (P.view pm.new) result }
{
    if pages.is_empty() {
        return Ok(());
    }
    let file: InodeH<Clean, Cut> = InodeH::at(pm, geometry, inode);
    let live: PageH<Clean, Live> = PageH::at(pm, geometry, pages);
    let cut = live.cut_owner(pm, &file);
    let _flushed = cut.flush(pm);
    end_interval(pm)
}

// Makes pages that were a file's free ones, where there are any.
fn release<P: Pm>(pm: &mut P, geometry: &Geometry, pages: &[u64]) -> Result<(), PmFault>
    requires ready { CanRelease geometry.now.pages (P.view pm.old).words pages.now }
    requires begins { MayFence (P.view pm.old) (512 * geometry.now.pages) (where_true (nat_lt 0 (length pages.now))
        (release_events (length pages.now))) 1 }
    ensures takes { Takes (freeing geometry.now.pages pages.now) (P.view pm.old) (P.view pm.new) result }
{
    if pages.is_empty() {
        return Ok(());
    }
    let released: PageH<Clean, Released> = PageH::at(pm, geometry, pages);
    let free = released.release(pm);
    let _flushed = free.flush(pm);
    end_interval(pm)
}

// What of a cut is settled.
#[derive(Clone, Copy)]
pub enum CutProgress {
    // Nothing.
    Begun,
    // The size.
    Lowered,
    // That, and that the pages behind it have no owner.
    Trimmed,
}

// What of a truncation is settled.
#[derive(Drop)]
pub enum Stage {
    // The file has the size already, and nothing is to be done.
    Nothing,
    // So much of its growth.
    Growing(Resizing, Progress),
    // So much of its cut.
    Cutting(Resizing, CutProgress),
}

/// The change of a file to another size, between two of its steps.
#[derive(Drop)]
pub struct Running {
    stage: Stage,
}

impl Model for Running {
    ghost use Rattle.data_ops.specs.declared.truncate.Stage.{Stage};

    ghost Value = { Stage };

    ghost view = { λ running. running.stage };
}

impl Running {
    /// How many inodes and data pages it holds, which aren't free for other calls: the new pages of a growth, and behind the first step
    /// of a cut the pages that it has to give back.
    pub fn held(&self) -> Held
        ensures { result ≡ held_of self.now }
    {
        let pages = match &self.stage {
            Stage::Nothing => 0,
            Stage::Growing(resizing, _) => resizing.new_pages.count(),
            Stage::Cutting(resizing, progress) => match progress {
                CutProgress::Begun => 0,
                CutProgress::Lowered | CutProgress::Trimmed => resizing.cut,
            },
        };
        Held { inodes: 0, pages }
    }

    /// How many fences it has left: one for each step that has a store.
    pub fn fences_left(&self) -> u64
        ensures { (volume : VolumeView) (device : DeviceView) → StandsStage volume device self.now
            → result ≡ fences_in (left_of volume self.now) }
    {
        match &self.stage {
            Stage::Nothing => 0,
            Stage::Growing(resizing, progress) => progress.fences_left(&resizing.new_pages),
            Stage::Cutting(resizing, progress) => match progress {
                CutProgress::Begun => { if resizing.cut > 0 { 3 } else { 1 } }
                CutProgress::Lowered => 2,
                CutProgress::Trimmed => 1,
            },
        }
    }

    /// Makes the next step of a truncation, to its fence, and takes it into the volume: new pages are taken behind the first step and are
    /// the file's behind the last, and pages that a cut gives back are free behind its last. Behind the last step it gives the reply.
    /// Where the fence fails, the volume is stopped, and the call is over. It takes no memory.
    pub fn step<P: Pm>(&mut self, volume: &mut Volume, pm: &mut P) -> Result<Option<Reply>, PmFault>
        requires stands { StandsStage volume.old (P.view pm.old) self.old }
        requires begins { MayFence (P.view pm.old) (512 * volume.old.size) (step_of volume.old self.old).events 1 }
        ensures takes { Takes (step_of volume.old self.old) (P.view pm.old) (P.view pm.new) result }
        ensures next { IfOk result (λ reply. next_by reply self.new ≡ next_of self.old) }
        ensures volume { Advances (step_of volume.old self.old).events (EntersAt self.old) volume.old volume.new result }
        ensures stage { IfOk result (λ reply. StandsNext volume.new (P.view pm.new) (next_by reply self.new)) }
    {
        match &mut self.stage {
            Stage::Nothing => Ok(Some(Reply::Done)),
            Stage::Growing(resizing, progress) => grow(resizing, progress, volume, pm),
            Stage::Cutting(resizing, progress) => cut(resizing, progress, volume, pm),
        }
    }
}

// Where a file begins to get its new size.
fn first_stage(resizing: Resizing) -> Stage
    ensures { result ≡ begun_resizing resizing }
{
    if resizing.old_size < resizing.new_size {
        Stage::Growing(resizing, Progress::Begun)
    } else {
        Stage::Cutting(resizing, CutProgress::Begun)
    }
}

/// Begins to carry out the plan of an accepted `truncate`: its events are kept, and nothing is stored.
pub fn begin(volume: &mut Volume, plan: Plan) -> Running
    requires stands { (device : DeviceView) × MayBegin volume.old device plan }
    ensures running { result ≡ begun plan }
    ensures volume { volume.new ≡ keeping volume.old plan }
{
    match plan.into_action() {
        Action::Resize(resizing) => {
            volume.keep(resizing.events());
            Running {
                stage: first_stage(resizing),
            }
        }
        _nothing => Running {
            stage: Stage::Nothing,
        },
    }
}

// Makes the next step of a cut, to its fence, of a file whose pages these are.
fn cut_step<P: Pm>(
    pm: &mut P,
    geometry: &Geometry,
    resizing: &Resizing,
    progress: CutProgress,
    pages: &[u64],
) -> Result<(), PmFault>
    requires ready { IsCutAt geometry.now.pages (P.view pm.old).words resizing.now pages.now progress }
    requires enough { resizing.now.cut ≤ length pages.now }
    requires begins { MayFence (P.view pm.old) (512 * geometry.now.pages)
        (step_of_cut geometry.now.pages resizing.now pages.now progress).events 1 }
    ensures takes { Takes (step_of_cut geometry.now.pages resizing.now pages.now progress) (P.view pm.old)
        (P.view pm.new) result }
{
    let kept = pages.len() - resizing.cut as usize;
    let gone = &pages[kept..];
    match progress {
        CutProgress::Begun => lower_size(pm, geometry, resizing.inode, resizing.new_size),
        CutProgress::Lowered => disown(pm, geometry, resizing.inode, gone),
        CutProgress::Trimmed => release(pm, geometry, gone),
    }
}

// The events of that step, at most.
fn cut_events(resizing: &Resizing, progress: CutProgress) -> u64
    requires few { resizing.now.cut ≤ 2 ^ 28 }
    ensures { (volume_pages : ℕ) (pages : List ℕ) → length (gone_pages resizing.now pages) ≡ resizing.now.cut
        → result ≡ (step_of_cut volume_pages resizing.now pages progress).events }
{
    match progress {
        CutProgress::Begun => COMMIT_EVENTS,
        CutProgress::Lowered => resizing.cut * WORD_EVENTS + FENCE_EVENTS,
        CutProgress::Trimmed => resizing.cut * DESCRIPTOR_REST_EVENTS + FENCE_EVENTS,
    }
}

// Takes that step into the volume: behind the last one the pages are free.
fn enter_cut(volume: &mut Volume, resizing: &Resizing, progress: CutProgress)
    requires may { MayLosePages volume.old resizing.now.inode resizing.now.cut }
    ensures { EntersCut resizing.now progress volume.old volume.new }
{
    match progress {
        CutProgress::Begun | CutProgress::Lowered => {}
        CutProgress::Trimmed => volume.leave_pages(resizing.inode, resizing.cut),
    }
}

// What of a cut is settled behind that step, and the reply where it was the last.
fn next_cut(resizing: &Resizing, progress: &mut CutProgress) -> Option<Reply>
    ensures { next_by result (Cuts resizing.now progress.new) ≡ next_cutting resizing.now progress.old }
{
    *progress = match *progress {
        CutProgress::Begun => {
            if resizing.cut == 0 {
                return Some(Reply::Done);
            }
            CutProgress::Lowered
        }
        CutProgress::Lowered => CutProgress::Trimmed,
        CutProgress::Trimmed => return Some(Reply::Done),
    };
    None
}

// Makes the next step of a cut, takes it in, and gives the reply behind the last.
fn cut<P: Pm>(
    resizing: &Resizing,
    progress: &mut CutProgress,
    volume: &mut Volume,
    pm: &mut P,
) -> Result<Option<Reply>, PmFault>
    requires stands { StandsStage volume.old (P.view pm.old) (Cuts resizing.now progress.old) }
    requires begins { MayFence (P.view pm.old) (512 * volume.old.size) (step_of volume.old (Cuts resizing.now progress.old)).events 1 }
    ensures takes { Takes (step_of volume.old (Cuts resizing.now progress.old)) (P.view pm.old) (P.view pm.new) result }
    ensures next { IfOk result (λ reply. next_by reply (Cuts resizing.now progress.new) ≡ next_cutting resizing.now progress.old) }
    ensures volume { Advances (step_of volume.old (Cuts resizing.now progress.old)).events (EntersCut resizing.now progress.old)
        volume.old volume.new result }
    ensures stage { IfOk result (λ reply. StandsNext volume.new (P.view pm.new) (next_by reply (Cuts resizing.now progress.new))) }
{
    let geometry = *volume.geometry();
    let events = cut_events(resizing, *progress);
    let pages = volume.pages(resizing.inode);
    let made = cut_step(pm, &geometry, resizing, *progress, pages);
    settle(volume, made, events)?;
    enter_cut(volume, resizing, *progress);
    Ok(next_cut(resizing, progress))
}

// Makes the next step of a growth, in which no byte is written, takes it in, and gives the reply behind the last.
fn grow<P: Pm>(
    resizing: &Resizing,
    progress: &mut Progress,
    volume: &mut Volume,
    pm: &mut P,
) -> Result<Option<Reply>, PmFault>
    requires stands { StandsStage volume.old (P.view pm.old) (Grows resizing.now progress.old) }
    requires begins { MayFence (P.view pm.old) (512 * volume.old.size) (step_of volume.old (Grows resizing.now progress.old)).events 1 }
    ensures takes { Takes (step_of volume.old (Grows resizing.now progress.old)) (P.view pm.old) (P.view pm.new) result }
    ensures next { IfOk result (λ reply. next_by reply (Grows resizing.now progress.new) ≡ next_of (Grows resizing.now progress.old)) }
    ensures volume { Advances (step_of volume.old (Grows resizing.now progress.old)).events (EntersAt (Grows resizing.now progress.old))
        volume.old volume.new result }
    ensures stage { IfOk result (λ reply. StandsNext volume.new (P.view pm.new) (next_by reply (Grows resizing.now progress.new))) }
{
    let growth = Growth {
        inode: resizing.inode,
        old_size: resizing.old_size,
        new_size: resizing.new_size,
        offset: resizing.old_size,
    };
    match advance_growth(&growth, *progress, &resizing.new_pages, &[], volume, pm)? {
        Some(next) => {
            *progress = next;
            Ok(None)
        }
        None => Ok(Some(Reply::Done)),
    }
}

/// Makes the next step of a truncation, as `step` does, and gives what is left.
pub fn advance<P: Pm>(
    running: Running,
    volume: &mut Volume,
    pm: &mut P,
) -> Result<Next<Running>, PmFault>
    requires stands { StandsStage volume.old (P.view pm.old) running }
    requires begins { MayFence (P.view pm.old) (512 * volume.old.size) (step_of volume.old running).events 1 }
    ensures takes { Takes (step_of volume.old running) (P.view pm.old) (P.view pm.new) result }
    ensures next { IfOk result (λ next. next ≡ next_of running) }
    ensures volume { Advances (step_of volume.old running).events (EntersAt running) volume.old volume.new result }
    ensures stage { IfOk result (λ next. StandsNext volume.new (P.view pm.new) next) }
{
    let mut running = running;
    let reply = running.step(volume, pm)?;
    Ok(Next::of(reply, running))
}

/// Gives a file another size, by the plan of an accepted `truncate`. To more it takes 2 fences, and 3 where the file needs new pages;
/// to less 1, and 3 where pages are given back; to the same size none. It takes no memory.
///
/// A crash at any moment leaves the tree before or the tree with the new size. Where a fence fails, the volume is stopped, and the
/// device may have the new size or not.
pub fn apply_truncate<P: Pm>(volume: &mut Volume, plan: Plan, pm: &mut P) -> Result<Reply, PmFault>
    requires planned { (state : State) × (path : Route) × (size : ℕ) × IsPlanFor volume.old (P.view pm.old) state
        (Truncate path size) plan }
    requires ready { MayCarry volume.old (P.view pm.old) plan }
    ensures carries { Carries volume.old volume.new (P.view pm.old) (P.view pm.new) plan Done IsTruncation result }
    ensures stored { (resizing : Resized) → plan ≡ Resizes resizing → HasStoredSize volume.old.size (P.view pm.old)
        (P.view pm.new) resizing (pages_of volume.old.index resizing.inode) result }
{
    let mut running = begin(volume, plan);
    loop {
        match running.step(volume, pm)? {
            None => {}
            Some(reply) => return Ok(reply),
        }
    }
}
