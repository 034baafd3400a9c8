// The lines of sessions are executed step by step, by a schedule.
ghost use Rattle.std.specs.Prelude.{◌≡◌, ◌≢◌, ◌+◌, ◌^◌, ◌<◌, ◌≤◌, ℕ, List, length, MatchResult, OnErr, OnOk, IfOk, true, false, Some};
ghost use Rattle.pm_trait.specs.Device.{HasRisen};
ghost use Rattle.io_edge.specs.Bytes.{Writes};
ghost use Rattle.tree_model.specs.Run.{State};
ghost use Rattle.script.specs.Lines.{lines_of};
ghost use Rattle.volume.specs.Stands.{StandsFor, IsStanding};
ghost use Rattle.session_lines.specs.Turns.{has_line, turn_of};
ghost use Rattle.session_laws.specs.Calls.{Calls};
ghost use Rattle.sessions.specs.Interleave.{started};
ghost use Rattle.sessions.specs.declared.interleave.TheConstants.{MOST_CALLS};
ghost use Rattle.schedules.specs.Borders.{AreOfSessions, HasTurned, IsBorder, border_of};
ghost use Rattle.schedules.specs.Laws.{IsFirst};
ghost use Rattle.schedules.specs.Schedules.{RunsSchedule, TakesTurns, IsShortOfMemory, needs_unmark, text_of};
ghost use Rattle.schedules.specs.Taken.{MayStart, TookAll, lines_left};
ghost use Rattle.schedules.specs.Turns.{Turn};

use crate::weave_end::WeaveEnd;
use io_edge::{Sink, WriteFault};
use pm_trait::{NoMemory, Pm, PmFault};
use script::{Call, SCRATCH_BYTES};
use session_lines::LinesLeft;
use sessions::{Interleave, MOST_CALLS, StepReply};
use std::alloc::Global;
use volume::MARK_EVENTS;

// No more turns come: the fences of a call are at most eight, and it has at least one.
const MOST_TURNS: u64 = 10 * MOST_CALLS as u64;

/// Executes the lines of a script of many sessions. Each turn is a step of one session, with its next line: by the bytes of the schedule, taken
/// round and round, of the session of that number, or the next one round that has a line left. The reply of a call is written when it
/// ends, behind the number of its session. The first write that fails ends it.
///
/// Where some line changes the volume, and that has the mark of one that was closed, the mark is taken away first. All memory is taken
/// before the first event, but that of single commands, which may be answered `NoMemory`.
pub fn run_schedule<P: Pm, K: Sink>(
    alloc: Global,
    interleave: &mut Interleave,
    lines: &[u8],
    schedule: &[u8],
    sink: &mut K,
    pm: &mut P,
) -> Result<WeaveEnd, NoMemory>
    requires started { interleave.old ≡ started interleave.old.volume (length interleave.old.tasks) }
    requires some { 1 ≤ length interleave.old.tasks }
    requires sessions { length interleave.old.tasks ≤ 16 }
    requires going { interleave.old.volume.stopped ≡ false }
    requires stands { IsStanding interleave.old.volume (P.view pm.old) }
    requires lines { length (lines_of lines.now) ≤ MOST_CALLS }
    requires schedule { 0 < length schedule.now }
    requires fences { (P.view pm.old).fences ≤ 2 ^ 61 }
    requires acks { (P.view pm.old).acks ≤ 2 ^ 61 }
    ensures runs { (state : State) → StandsFor interleave.old.volume (P.view pm.old) state → MatchResult result
        (λ end. RunsSchedule state lines.now schedule.now end interleave.old interleave.new (P.view pm.old) (P.view pm.new) (K.took sink.old) (K.took sink.new))
        (λ _. IsShortOfMemory interleave.old interleave.new (P.view pm.old) (P.view pm.new) (K.took sink.old) (K.took sink.new)) }
    ensures cause { result ≡ Ok WeaveEnd.WriteFault → HasRisen (K.faults sink.old) (K.faults sink.new) }
    ensures no_write_fault { result ≢ Ok WeaveEnd.WriteFault → K.faults sink.new ≡ K.faults sink.old }
{
    let mut scratch = vec![in alloc; 0; SCRATCH_BYTES].map_err(|_| NoMemory)?;
    let mut left = LinesLeft::of(alloc, lines, interleave.sessions())?;
    let scratch = scratch.as_mut_slice();
    if interleave.volume().marked() && left.has_change(scratch) {
        unmark_and_take(interleave, &mut left, schedule, scratch, sink, pm)
    } else {
        Ok(take_turns(interleave, &mut left, schedule, scratch, sink, pm))
    }
}

// Takes the mark away, and then takes turns.
fn unmark_and_take<P: Pm, K: Sink>(
    interleave: &mut Interleave,
    left: &mut LinesLeft<'_>,
    schedule: &[u8],
    scratch: &mut [u8],
    sink: &mut K,
    pm: &mut P,
) -> Result<WeaveEnd, NoMemory>
    requires start { MayStart interleave.old (P.view pm.old) left.old }
    requires marked { interleave.old.volume.marked ≡ true }
    requires schedule { 0 < length schedule.now }
    requires scratch { 32768 ≤ length scratch.old }
    requires fences { (P.view pm.old).fences ≤ 2 ^ 61 }
    requires acks { (P.view pm.old).acks ≤ 2 ^ 61 }
    ensures runs { (state : State) (script : List ℕ) → StandsFor interleave.old.volume (P.view pm.old) state →
        left.old ≡ lines_left (length interleave.old.tasks) script → needs_unmark interleave.old script ≡ true → MatchResult result
        (λ end. RunsSchedule state script schedule.now end interleave.old interleave.new (P.view pm.old) (P.view pm.new) (K.took sink.old) (K.took sink.new))
        (λ _. IsShortOfMemory interleave.old interleave.new (P.view pm.old) (P.view pm.new) (K.took sink.old) (K.took sink.new)) }
    ensures cause { result ≡ Ok WeaveEnd.WriteFault → HasRisen (K.faults sink.old) (K.faults sink.new) }
    ensures no_write_fault { result ≢ Ok WeaveEnd.WriteFault → K.faults sink.new ≡ K.faults sink.old }
{
    pm.reserve(2 * MARK_EVENTS)?;
    match interleave.unmark(pm) {
        Ok(()) => Ok(take_turns(interleave, left, schedule, scratch, sink, pm)),
        Err(PmFault) => Ok(WeaveEnd::Faulted),
    }
}

// Takes turns until no session has a line left, or a write fails.
fn take_turns<P: Pm, K: Sink>(
    interleave: &mut Interleave,
    left: &mut LinesLeft<'_>,
    schedule: &[u8],
    scratch: &mut [u8],
    sink: &mut K,
    pm: &mut P,
) -> WeaveEnd
    requires first { (calls : Calls) × (history : State) × IsFirst (border_of interleave.old (P.view pm.old) calls history left.old) }
    requires lines { AreOfSessions left.old.sessions left.old.lines }
    requires schedule { 0 < length schedule.now }
    requires scratch { 32768 ≤ length scratch.old }
    requires fences { (P.view pm.old).fences ≤ 2 ^ 61 + 1 }
    requires acks { (P.view pm.old).acks ≤ 2 ^ 61 }
    ensures takes { (calls : Calls) (history : State) → IsFirst (border_of interleave.old (P.view pm.old) calls history left.old) →
        TakesTurns schedule.now (border_of interleave.old (P.view pm.old) calls history left.old) result
        interleave.new (P.view pm.new) (K.took sink.old) (K.took sink.new) }
    ensures cause { result ≡ WeaveEnd.WriteFault → HasRisen (K.faults sink.old) (K.faults sink.new) }
    ensures no_write_fault { result ≢ WeaveEnd.WriteFault → K.faults sink.new ≡ K.faults sink.old }
{
    match take_each(interleave, left, schedule, scratch, sink, pm) {
        Err(WriteFault) => WeaveEnd::WriteFault,
        Ok(()) => {
            if interleave.volume().stopped() {
                WeaveEnd::Faulted
            } else {
                WeaveEnd::Done
            }
        }
    }
}

// Takes one turn after another.
fn take_each<P: Pm, K: Sink>(
    interleave: &mut Interleave,
    left: &mut LinesLeft<'_>,
    schedule: &[u8],
    scratch: &mut [u8],
    sink: &mut K,
    pm: &mut P,
) -> Result<(), WriteFault>
    requires first { (calls : Calls) × (history : State) × IsFirst (border_of interleave.old (P.view pm.old) calls history left.old) }
    requires lines { AreOfSessions left.old.sessions left.old.lines }
    requires schedule { 0 < length schedule.now }
    requires scratch { 32768 ≤ length scratch.old }
    requires fences { (P.view pm.old).fences ≤ 2 ^ 61 + 1 }
    requires acks { (P.view pm.old).acks ≤ 2 ^ 61 }
    ensures takes { (calls : Calls) (history : State) → IsFirst (border_of interleave.old (P.view pm.old) calls history left.old) →
        TookAll schedule.now (border_of interleave.old (P.view pm.old) calls history left.old)
        interleave.new (P.view pm.new) left.new (K.took sink.old) (K.took sink.new) result }
    ensures cause { OnErr result (HasRisen (K.faults sink.old) (K.faults sink.new)) }
    ensures no_write_fault { OnOk result (K.faults sink.new ≡ K.faults sink.old) }
{
    for turn in 0..MOST_TURNS {
        let byte = schedule[(turn % schedule.len() as u64) as usize];
        let Some(session) = left.turn(byte) else {
            return Ok(());
        };
        if let Err(WriteFault) = take_turn(interleave, left, session, scratch, sink, pm) {
            return Err(WriteFault);
        }
    }
    Ok(())
}

// Takes the turn of a session, and writes the reply of a call that ends.
fn take_turn<P: Pm, K: Sink>(
    interleave: &mut Interleave,
    left: &mut LinesLeft<'_>,
    session: u64,
    scratch: &mut [u8],
    sink: &mut K,
    pm: &mut P,
) -> Result<(), WriteFault>
    requires border { (calls : Calls) × (history : State) × IsBorder (border_of interleave.old (P.view pm.old) calls history left.old) }
    requires session { session < left.old.sessions }
    requires line { has_line left.old.lines session ≡ true }
    requires scratch { 32768 ≤ length scratch.old }
    requires fences { (P.view pm.old).fences < 2 ^ 62 }
    requires acks { (P.view pm.old).acks < 2 ^ 62 }
    ensures scratch { length scratch.new ≡ length scratch.old }
    ensures takes { (calls : Calls) (history : State) (schedule : List ℕ) (count : ℕ) →
        IsBorder (border_of interleave.old (P.view pm.old) calls history left.old) → turn_of schedule count left.old ≡ Some session →
        (turn : Turn) × HasTurned schedule count (border_of interleave.old (P.view pm.old) calls history left.old) interleave.new (P.view pm.new) left.new turn
        × Writes (K.took sink.old) (K.took sink.new) (K.faults sink.old) (K.faults sink.new)
        (text_of (border_of interleave.old (P.view pm.old) calls history left.old) turn) result }
{
    let call = Call::parse(left.line(session), scratch);
    match interleave.step(session, &call, pm) {
        StepReply::Running { .. } => Ok(()),
        StepReply::Ended { reply, .. } => {
            left.pass(session);
            interleave.write_reply(session, &reply, sink, pm)
        }
    }
}
