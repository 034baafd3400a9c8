// A crash in the run of a script, and the tree that the next mount finds.
ghost use Rattle.std.specs.Prelude.{◌≡◌, ◌⊎◌, ◌^◌, ◌<◌, ◌≤◌, ◌++◌, length, IfSome, IfOk, false};
ghost use Rattle.pm_trait.specs.Trail.{trail_at};
ghost use Rattle.tree_model.specs.Run.{State};
ghost use Rattle.tree_model.specs.Tree.{Tree};
ghost use Rattle.image_reading.specs.Reading.{Reads};
ghost use Rattle.image_reading.specs.Soundness.{pages_in_image};
ghost use Rattle.volume.specs.Stands.{IsStanding, StandsFor};
ghost use Rattle.io_edge.specs.Bytes.{Writes};
ghost use Rattle.script.specs.Texts.{acked_text, listing_text};
ghost use Rattle.squirrel_cli.specs.Causes.{TellsFaults};
ghost use Rattle.squirrel_cli.specs.Ends.{IsStart, IsMountable};
ghost use Rattle.squirrel_cli.specs.Replays.{IsUnbegun, ListsLeft};
ghost use Rattle.squirrel_cli.specs.ReplaySteps.{HasLeft, LeavesSound};
ghost use Rattle.squirrel_cli.specs.Rows.{Crashes, ReplaysCrash};
ghost use Rattle.squirrel_cli.specs.Seen.{seen};
ghost use Rattle.squirrel_cli.specs.Told.{IsToldUnlessShort, TellsWrites};

use crate::chosen::{ChosenCrash, SecondCrash};
use crate::refused::refuse;
use crate::scripted::{answer_lines, status_of_end};
use crate::status::{Status, status_of_write};
use crash_replay::{Moment, Tally, acks_before, place_of};
use engine::Session;
use io_edge::{Sink, Source, WriteFault};
use mount_scan::{MountError, mount};
use pm_memory::{RamPm, Recorded, SteadyPm};
use pm_trait::{NoMemory, Pm};
use remounts::{Crash, words_after};
use script::{RunEnd, write_acked};
use std::alloc::Global;
use volume::Volume;

/// Runs the script on the device, and writes what a crash at the moment leaves: the number of commands that were
/// acknowledged before it, and the listing of the tree.
///
/// Of each word that the crash leaves open the bytes of `keep` choose what it is. With `again` a second crash comes in the
/// mount of that image, behind so many of its events, with bytes of its own. Nothing is written before the last mount.
/// The device has no event yet, and `keep` and the bytes of `again` aren't empty.
pub fn replay<S: Source, K: Sink>(
    alloc: Global,
    pm: &mut RamPm,
    source: &mut S,
    sink: &mut K,
    moment: Moment,
    keep: &[u8],
    again: Option<(u64, &[u8])>,
) -> Status
    requires unbegun { IsUnbegun (⟦<RamPm as Pm>⟧.view pm.old) }
    requires some { 0 < length keep.now }
    requires some_again { IfSome again (λ crash. 0 < length crash.1.now) }

    // What `crash` does on a copy is done on this device.
    ensures replays { ReplaysCrash moment keep.now (seen S.Source K.Sink (⟦<RamPm as Pm>⟧.view pm.old) source.old sink.old)
        (seen S.Source K.Sink (⟦<RamPm as Pm>⟧.view pm.new) source.new sink.new) result }
    ensures cause { TellsFaults (seen S.Source K.Sink (⟦<RamPm as Pm>⟧.view pm.old) source.old sink.old)
        (seen S.Source K.Sink (⟦<RamPm as Pm>⟧.view pm.new) source.new sink.new) result }
{
    let again = match again {
        Some((at, keep)) => Some(SecondCrash { at, keep }),
        None => None,
    };
    let crash = ChosenCrash {
        moment,
        keep,
        again,
    };
    replay_on(alloc, pm, source, sink, &crash)
}

/// Does on a device in memory of the same words, which never fails, what `replay` does. The device is left alone.
pub fn replay_copy<P: Pm, S: Source, K: Sink>(
    alloc: Global,
    pm: &P,
    source: &mut S,
    sink: &mut K,
    crash: &ChosenCrash<'_, '_>,
) -> Status
    ensures crashes { Crashes crash.now.moment crash.now.keep.now (seen S.Source K.Sink (P.view pm.now) source.old sink.old)
        (seen S.Source K.Sink (P.view pm.now) source.new sink.new) result }
    ensures cause { TellsFaults (seen S.Source K.Sink (P.view pm.now) source.old sink.old)
        (seen S.Source K.Sink (P.view pm.now) source.new sink.new) result }
{
    let Ok(mut copy) = SteadyPm::new(alloc, pm.image()) else {
        return Status::NoMemory;
    };
    replay_on(alloc, &mut copy, source, sink, crash)
}

// Mounts the device, runs the script on it, and lists what the crash leaves.
fn replay_on<P: Recorded, S: Source, K: Sink>(
    alloc: Global,
    pm: &mut P,
    source: &mut S,
    sink: &mut K,
    crash: &ChosenCrash<'_, '_>,
) -> Status
    requires start { IsStart (P.view pm.old) }
    requires unbegun { IsUnbegun (P.view pm.old) }
    ensures replays { ReplaysCrash crash.now.moment crash.now.keep.now (seen S.Source K.Sink (P.view pm.old) source.old sink.old)
        (seen S.Source K.Sink (P.view pm.new) source.new sink.new) result }
    ensures cause { TellsFaults (seen S.Source K.Sink (P.view pm.old) source.old sink.old)
        (seen S.Source K.Sink (P.view pm.new) source.new sink.new) result }
{
    let volume = match mount(alloc, pm) {
        Ok(volume) => volume,
        Err(error) => return refuse(error, sink),
    };
    let mark = pm.ram().events();
    let mut tally = Tally::new();
    let Ok(answered) = answer_lines(alloc, volume, source, &mut tally, pm) else {
        return Status::NoMemory;
    };
    match answered.end {
        RunEnd::Done if tally.lacking() == 0 => list_left(alloc, pm.ram(), mark, sink, crash),
        RunEnd::Done => Status::NoMemory,
        end => status_of_end(end),
    }
}

// Lists what the crash leaves of the words of a device whose mount had the first `mark` events.
fn list_left<K: Sink>(
    alloc: Global,
    ram: &RamPm,
    mark: u64,
    sink: &mut K,
    crash: &ChosenCrash<'_, '_>,
) -> Status
    requires countable { (⟦<RamPm as Pm>⟧.view ram.now).acks ≤ 2 ^ 62 }
    requires sound { IfSome (⟦<RamPm as Pm>⟧.view ram.now).trail LeavesSound }
    ensures no_memory { result ≡ Status.NoMemory → sink.new ≡ sink.old }
    ensures lists { IfSome (⟦<RamPm as Pm>⟧.view ram.now).trail (λ trail. (result ≡ Status.NoMemory)
        ⊎ ListsLeft crash.now.moment crash.now.keep.now mark trail result (K.took sink.old) (K.took sink.new)) }
    ensures cause { TellsWrites result (K.faults sink.old) (K.faults sink.new) }
{
    let place = place_of(ram, mark, crash.moment);
    match words_left(alloc, ram, place, crash) {
        Ok(words) => list_words(alloc, words.as_slice(), acks_before(ram, place), sink),
        Err(NoMemory) => Status::NoMemory,
    }
}

// What the crash at this place leaves, and after it another one in the mount of that, where one is asked.
fn words_left(
    alloc: Global,
    ram: &RamPm,
    place: u64,
    crash: &ChosenCrash<'_, '_>,
) -> Result<Vec<u64>, NoMemory>
    requires in_range { IfSome (⟦<RamPm as Pm>⟧.view ram.now).trail (λ trail. place ≤ length trail.events) }
    requires sound { IfSome (⟦<RamPm as Pm>⟧.view ram.now).trail LeavesSound }
    ensures { IfOk result (λ words. IfSome (⟦<RamPm as Pm>⟧.view ram.now).trail (λ trail.
        HasLeft crash.now.keep.now crash.now.again (trail_at trail place) words.items)) }
{
    let image = ram.image_at(alloc, place, crash.keep)?;
    let Some(second) = crash.again else {
        return Ok(image);
    };
    let again = Crash {
        moment: second.at,
        keep: second.keep,
    };
    match words_after(alloc, image.as_slice(), &[again]) {
        Ok(words) => Ok(words),
        Err(error) => Err(memory_alone(error)),
    }
}

// The want of memory that this is: a device that never fails refuses sound words for nothing else.
fn memory_alone(error: MountError) -> NoMemory
    requires { error ≡ MountError.NoMemory }
{
    match error {
        MountError::NoMemory => NoMemory,
        MountError::NotVolume => unreachable!(),
        MountError::Damaged(_) => unreachable!(),
        MountError::PmFault => unreachable!(),
    }
}

// Mounts a device of these words, which never fails, and writes so many acknowledgements and the listing of the tree.
fn list_words<K: Sink>(alloc: Global, words: &[u64], acked: u64, sink: &mut K) -> Status
    requires mountable { IsMountable words.now }
    ensures no_memory { result ≡ Status.NoMemory → sink.new ≡ sink.old }
    ensures lists { (tree : Tree) → Reads (pages_in_image words.now) words.now tree →
        IsToldUnlessShort (acked_text acked ++ listing_text tree) result (K.took sink.old) (K.took sink.new) }
    ensures cause { TellsWrites result (K.faults sink.old) (K.faults sink.new) }
{
    let Ok(mut pm) = SteadyPm::new(alloc, words) else {
        return Status::NoMemory;
    };
    let volume = match mount(alloc, &mut pm) {
        Ok(volume) => volume,
        Err(error) => {
            let NoMemory = memory_alone(error);
            return Status::NoMemory;
        }
    };
    let Ok(mut session) = Session::start(alloc, volume) else {
        return Status::NoMemory;
    };
    status_of_write(write_left(acked, &mut session, sink, &pm), Status::Done)
}

// Writes so many acknowledgements and the listing of the session's tree.
fn write_left<P: Pm, K: Sink>(
    acked: u64,
    session: &mut Session,
    sink: &mut K,
    pm: &P,
) -> Result<(), WriteFault>
    requires going { session.old.volume.stopped ≡ false }
    requires stands { IsStanding session.old.volume (P.view pm.now) }
    ensures { (state : State) → StandsFor session.old.volume (P.view pm.now) state →
        Writes (K.took sink.old) (K.took sink.new) (K.faults sink.old) (K.faults sink.new)
        (acked_text acked ++ listing_text state.tree) result }
{
    write_acked(acked, sink)?;
    session.listing(sink, pm)
}
