// The making of an entry as a value: its node and its name are written, the owner of its page, its number, each step settled by its
// fence; and the volume takes in what each made.
ghost use Rattle.std.specs.Prelude.{◌≡◌, ◌*◌, ℕ, IfOk};
ghost use Rattle.pm_trait.specs.DeviceView.{DeviceView};
ghost use Rattle.pm_trait.specs.Unfolds.{MayFence, Takes, fences_in};
ghost use Rattle.volume.specs.Costs.{commit_events};
ghost use Rattle.volume.specs.Stages.{Advances, keeping, next_by};
ghost use Rattle.tree_model.specs.declared.reply.Reply.TheVariants.{Done};
ghost use Rattle.volume.specs.declared.next.Next.TheVariants.{Ended};
ghost use Rattle.volume.specs.declared.plan.NewEntry.{NewEntry as Entry};
ghost use Rattle.volume.specs.declared.plan.Action.TheVariants.{Make};
ghost use Rattle.entry_steps.specs.declared.place.NamePlace.TheVariants.{Page as InPage};
ghost use Rattle.entry_steps.specs.Steps.{naming, owning};
ghost use Rattle.create_ops.specs.declared.run.Stage.TheVariants.{Written, Claimed};
ghost use Rattle.create_ops.specs.Making.{written_events, writing};
ghost use Rattle.create_ops.specs.Stages.{StandsStage, StandsNext, MayBegin, IsNext, PutsEntryName, begun, step_of, left_of, EntersAt, held_of};

use crate::node::{NewNode, commit_node, write_node};
use dentry_state::{DentryH, Named};
use entry_steps::{NamePlace, claim_page, settle};
use fence_token::Clean;
use inode_state::{Init, InodeH};
use pm_trait::{Pm, PmFault};
use std::marker::Model;
use std::mem;
use tree_model::Reply;
use volume::{COMMIT_EVENTS, Held, NewEntry, Next, Plan, Volume};

// A new node and the slot of its name, in a page that its directory has; both are settled.
#[derive(Drop)]
pub struct NamedNode {
    pub inode: InodeH<Clean, Init>,
    pub slot: DentryH<Clean, Named>,
}

// What of the making of an entry is settled.
#[derive(Drop)]
pub enum Stage {
    // Nothing.
    Begun,
    // The node and its name.
    Written(NewNode),
    // These, and the owner of the new page that the name is in.
    Claimed(NamedNode),
}

/// The making of a file or a directory, between two of its steps.
#[derive(Drop)]
pub struct Running {
    entry: NewEntry,
    stage: Stage,
}

impl Model for Running {
    ghost use Rattle.create_ops.specs.Stages.{RunningView};

    ghost Value = { RunningView };

    ghost view = { λ running. record { entry = running.entry; stage = running.stage } };
}

impl Running {
    /// How many inodes and data pages it holds, which are no longer free for other calls: its new inode, and its new page.
    pub fn held(&self) -> Held
        ensures { result ≡ held_of self.now }
    {
        let pages = if self.entry.new_page.is_some() { 1 } else { 0 };
        Held { inodes: 1, pages }
    }

    /// How many fences it has left: one for each of its steps.
    pub fn fences_left(&self) -> u64
        ensures { (volume_pages : ℕ) → result ≡ fences_in (left_of volume_pages self.now) }
    {
        match &self.stage {
            Stage::Begun => { if self.entry.new_page.is_some() { 3 } else { 2 } }
            Stage::Written(node) => match &node.place {
                NamePlace::Slot(_) => 1,
                NamePlace::Page(_) => 2,
            },
            Stage::Claimed(_) => 1,
        }
    }

    /// Makes the next step of the making of an entry, to its fence, and takes it into the volume: its numbers behind the first step, its
    /// name behind the last, behind which it gives the reply. Where the fence fails, the volume is stopped, and the call is over.
    #[inline(always)]
    pub fn step<P: Pm>(&mut self, volume: &mut Volume, pm: &mut P) -> Result<Option<Reply>, PmFault>
        requires stands { StandsStage volume.old (P.view pm.old) self.old }
        requires begins { MayFence (P.view pm.old) (512 * volume.old.size) (step_of volume.old.size self.old).events 1 }
        ensures takes { Takes (step_of volume.old.size self.old) (P.view pm.old) (P.view pm.new) result }
        ensures next { IfOk result (λ reply. IsNext self.old (next_by reply self.new)) }
        ensures volume { Advances (step_of volume.old.size self.old).events (EntersAt self.old) volume.old volume.new result }
        ensures stage { IfOk result (λ reply. StandsNext volume.new (P.view pm.new) (next_by reply self.new)) }
    {
        // A stage with its objects is long, and moved only where it has some.
        if let Stage::Begun = self.stage {
            self.stage = Stage::Written(write(&self.entry, volume, pm)?);
            return Ok(None);
        }
        match mem::replace(&mut self.stage, Stage::Begun) {
            Stage::Begun => unreachable!(),
            Stage::Written(NewNode { inode, place }) => match place {
                NamePlace::Slot(slot) => {
                    commit(&self.entry, inode, slot, volume, pm)?;
                    Ok(Some(Reply::Done))
                }
                NamePlace::Page(page) => {
                    let slot = claim(&self.entry, &inode, page, volume, pm)?;
                    self.stage = Stage::Claimed(NamedNode { inode, slot });
                    Ok(None)
                }
            },
            Stage::Claimed(NamedNode { inode, slot }) => {
                commit(&self.entry, inode, slot, volume, pm)?;
                Ok(Some(Reply::Done))
            }
        }
    }
}

/// Begins to carry out the plan of an accepted `create` or `mkdir`: its events are kept, and nothing is stored.
pub fn begin(volume: &mut Volume, plan: Plan) -> Running
    requires stands { (device : DeviceView) × MayBegin volume.old device plan }
    ensures running { (entry : Entry) → plan ≡ Make entry → result ≡ begun entry }
    ensures volume { volume.new ≡ keeping volume.old plan }
{
    let entry = plan.into_entry();
    volume.keep(entry.events());
    Running {
        entry,
        stage: Stage::Begun,
    }
}

/// Makes the next step of the making of an entry, as `step` does, and gives what is left.
pub fn advance<P: Pm>(
    running: Running,
    volume: &mut Volume,
    pm: &mut P,
) -> Result<Next<Running>, PmFault>
    requires stands { StandsStage volume.old (P.view pm.old) running }
    requires begins { MayFence (P.view pm.old) (512 * volume.old.size) (step_of volume.old.size running).events 1 }
    ensures takes { Takes (step_of volume.old.size running) (P.view pm.old) (P.view pm.new) result }
    ensures next { IfOk result (λ next. IsNext running next) }
    ensures volume { Advances (step_of volume.old.size running).events (EntersAt running) volume.old volume.new result }
    ensures stage { IfOk result (λ next. StandsNext volume.new (P.view pm.new) next) }
{
    let mut running = running;
    let reply = running.step(volume, pm)?;
    Ok(Next::of(reply, running))
}

// The events of its first step: all but those of the owner of its new page, where there is one, and of its number.
fn first_events(entry: &NewEntry) -> u64
    ensures { result ≡ written_events entry.now }
{
    let events = entry.events() - COMMIT_EVENTS;
    if entry.new_page.is_some() {
        events - COMMIT_EVENTS
    } else {
        events
    }
}

// Writes the node, its name and the links of its directory, and takes its numbers.
#[inline(always)]
fn write<P: Pm>(entry: &NewEntry, volume: &mut Volume, pm: &mut P) -> Result<NewNode, PmFault>
    requires stands { StandsStage volume.old (P.view pm.old) (begun entry.now) }
    requires begins { MayFence (P.view pm.old) (512 * volume.old.size) (written_events entry.now) 1 }
    ensures takes { Takes (writing volume.old.size entry.now) (P.view pm.old) (P.view pm.new) result }
    ensures volume { Advances (written_events entry.now) (EntersAt (begun entry.now)) volume.old volume.new result }
    ensures stage { IfOk result (λ node. StandsStage volume.new (P.view pm.new)
        (record { entry = entry.now; stage = Written node })) }
{
    let geometry = *volume.geometry();
    let written = write_node(pm, &geometry, entry);
    let node = settle(volume, written, first_events(entry))?;
    volume.take_page(entry.new_page);
    volume.take_inode(entry.inode);
    Ok(node)
}

// Gives the new page that the name is in to its directory.
#[inline(always)]
fn claim<P: Pm>(
    entry: &NewEntry,
    inode: &InodeH<Clean, Init>,
    page: u64,
    volume: &mut Volume,
    pm: &mut P,
) -> Result<DentryH<Clean, Named>, PmFault>
    requires stands { StandsStage volume.old (P.view pm.old) (record {
      entry = entry.now;
      stage = Written (record { inode = inode.now; place = InPage page });
    }) }
    requires begins { MayFence (P.view pm.old) (512 * volume.old.size) commit_events 1 }
    ensures takes { Takes (owning volume.old.size page entry.now.directory) (P.view pm.old) (P.view pm.new) result }
    ensures volume { Advances commit_events (λ old new. new ≡ old) volume.old volume.new result }
    ensures stage { IfOk result (λ slot. StandsStage volume.new (P.view pm.new) (record {
      entry = entry.now;
      stage = Claimed (record { inode = inode.now; slot = slot });
    })) }
{
    let geometry = *volume.geometry();
    let claimed = claim_page(pm, &geometry, page, entry.directory);
    settle(volume, claimed, COMMIT_EVENTS)
}

// Gives the slot the number of the node, and puts the name into its directory.
#[inline(always)]
fn commit<P: Pm>(
    entry: &NewEntry,
    inode: InodeH<Clean, Init>,
    slot: DentryH<Clean, Named>,
    volume: &mut Volume,
    pm: &mut P,
) -> Result<(), PmFault>
    requires stands { StandsStage volume.old (P.view pm.old) (record {
      entry = entry.now;
      stage = Claimed (record { inode = inode; slot = slot });
    }) }
    requires begins { MayFence (P.view pm.old) (512 * volume.old.size) commit_events 1 }
    ensures takes { Takes (naming volume.old.size entry.now.slot entry.now.inode) (P.view pm.old) (P.view pm.new) result }
    ensures volume { Advances commit_events (PutsEntryName entry.now) volume.old volume.new result }
{
    let committed = commit_node(pm, slot, &inode);
    settle(volume, committed, COMMIT_EVENTS)?;
    volume.put_name(
        entry.directory,
        entry.name.copied(),
        entry.slot,
        entry.new_page,
    );
    Ok(())
}
