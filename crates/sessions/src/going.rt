// The running calls of sessions go on: what the others hold, and the next step of one.
ghost use Rattle.std.specs.Prelude.{◌≡◌, ◌*◌, ◌+◌, ◌^◌, ◌<◌, ◌≤◌, ℕ, List, [], false, true, length, None, Some, Ok, MatchOption};
ghost use Rattle.pm_trait.specs.Unfolds.{MayFence};
ghost use Rattle.tree_model.specs.PathText.{Route};
ghost use Rattle.tree_model.specs.Run.{State};
ghost use Rattle.tree_model.specs.declared.command.Command.{Command as CommandOf};
ghost use Rattle.script.specs.Calls.{line_of_call};
ghost use Rattle.running_calls.specs.Stages.{StandsStage, step_of};
ghost use Rattle.running_laws.specs.Waits.{bytes_of_command};
ghost use Rattle.session_laws.specs.Calls.{Calls};
ghost use Rattle.sessions.specs.Advanced.{HasAdvanced, HasAnsweredAtOnce, with_entry, told_by, enters_now, fences_of_task};
ghost use Rattle.sessions.specs.Busy.{IsLeastInTheWay, AreNoneInTheWay, nearer_of};
ghost use Rattle.sessions.specs.Interleave.{with_task};
ghost use Rattle.sessions.specs.Tasks.{HoldFew, held_by_all, task_in};
ghost use Rattle.sessions.specs.declared.interleave.TheConstants.{MOST_CALLS};
ghost use Rattle.sessions.specs.Steps.{IsAsked, MayStep, Steps, IsStopped};

use crate::entry::{Entry, StepReply, WeaveReply};
use crate::interleave::{Interleave, MOST_CALLS};
use crate::task::{Task, least_of_both};
use pm_trait::{Pm, PmFault};
use script::Call;
use tree_model::{Command, Reply};
use volume::{Held, NamedNodes};

// The least inode that a command and a running call name both, and the number of that call.
#[derive(Clone, Copy)]
pub struct InTheWay {
    pub inode: u64,
    pub holder: u64,
}

impl Interleave {
    // Goes on with the call that the session ran, whose place is empty meanwhile.
    pub(crate) fn go_on<P: Pm>(
        &mut self,
        session: u64,
        task: Task,
        call: &Call,
        pm: &mut P,
    ) -> StepReply
        requires session { session < length self.old.tasks }
        requires empty { task_in self.old.tasks session ≡ None }
        requires stands { self.old.volume.stopped ≡ false → IsAsked (with_task self.old session task) (P.view pm.old) session (line_of_call call.now) }
        requires fences { (P.view pm.old).fences < 2 ^ 62 }
        requires acks { (P.view pm.old).acks < 2 ^ 62 }
        ensures stopped { self.old.volume.stopped ≡ true → IsStopped (with_task self.old session task) self.new session result × (pm.new ≡ pm.old) }
        ensures steps { (calls : Calls) (history : State) → self.old.volume.stopped ≡ false →
            MayStep (with_task self.old session task) (P.view pm.old) calls history session (line_of_call call.now) →
            Steps (with_task self.old session task) self.new (P.view pm.old) (P.view pm.new) calls history session (line_of_call call.now) result }
    {
        if self.volume.stopped() {
            return plain(task.number, Reply::Stopped);
        }
        self.advance(session, task, written_by(call), pm)
    }

    // Makes the next step of a call, whose place is empty meanwhile. Its entry comes at its commit, or where it has no fence.
    pub(crate) fn advance<P: Pm>(
        &mut self,
        session: u64,
        task: Task,
        bytes: &[u8],
        pm: &mut P,
    ) -> StepReply
        requires session { session < length self.old.tasks }
        requires stands { StandsStage self.old.volume (P.view pm.old) bytes.now task.running }
        requires fence { MayFence (P.view pm.old) (512 * self.old.volume.size) (step_of self.old.volume bytes.now task.running).events 1 }
        requires few { HoldFew self.old.tasks }
        requires room { enters_now (fences_of_task self.old.volume bytes.now task) task.behind ≡ true → length self.old.entries < MOST_CALLS }
        requires acks { (P.view pm.old).acks < 2 ^ 62 }
        ensures { HasAdvanced self.old self.new (P.view pm.old) (P.view pm.new) session task bytes.now result }
    {
        let mut task = task;
        let number = task.number;
        let fences = task.running.fences_left();
        let enters = fences == 0 || fences - 1 == task.behind;
        let Ok(reply) = task.running.step(&mut self.volume, bytes, pm) else {
            return plain(number, Reply::Fault);
        };
        if enters {
            self.enter(session, number, WeaveReply::Plain(told(reply)));
        }
        match reply {
            None => {
                self.tasks[session as usize] = Some(task);
                StepReply::Running { number }
            }
            Some(reply) => {
                pm.ack();
                plain(number, reply)
            }
        }
    }

    // Answers a call at once: it is an entry, and acknowledged.
    pub(crate) fn answer<P: Pm>(
        &mut self,
        session: u64,
        number: u64,
        reply: WeaveReply,
        pm: &mut P,
    ) -> StepReply
        requires few { HoldFew self.old.tasks }
        requires room { length self.old.entries < MOST_CALLS }
        requires acks { (P.view pm.old).acks < 2 ^ 62 }
        ensures { HasAnsweredAtOnce self.old self.new (P.view pm.old) (P.view pm.new) session number reply result }
    {
        self.enter(session, number, reply);
        pm.ack();
        StepReply::Ended { number, reply }
    }

    // Adds an entry, with what the running calls hold.
    fn enter(&mut self, session: u64, number: u64, reply: WeaveReply)
        requires few { HoldFew self.old.tasks }
        requires room { length self.old.entries < MOST_CALLS }
        ensures { self.new ≡ record self.old { entries = with_entry self.old session number reply } }
    {
        let held = self.held();
        let end = self.entries.len();
        // Unlike `push`, `insert` says that it grows no vector that has room.
        let _ = self.entries.insert(
            end,
            Entry {
                session,
                number,
                reply,
                inodes: held.inodes,
                pages: held.pages,
            },
        );
    }

    // What the running calls hold.
    fn held(&self) -> Held
        requires few { HoldFew self.now.tasks }
        ensures { result ≡ held_by_all self.now.tasks }
    {
        let mut held = Held {
            inodes: 0,
            pages: 0,
        };
        for k in 0..self.tasks.len() {
            if let Some(task) = &self.tasks[k] {
                let more = task.running.held();
                held.inodes += more.inodes;
                held.pages += more.pages;
            }
        }
        held
    }

    // The running call that is in the way of a command which names these nodes: that with the least inode that both name.
    pub(crate) fn in_the_way(&self, named: &NamedNodes) -> Option<InTheWay>
        ensures { MatchOption result (AreNoneInTheWay self.now.tasks named.now) (IsLeastInTheWay self.now.tasks named.now) }
    {
        let mut least = None;
        for k in 0..self.tasks.len() {
            if let Some(task) = &self.tasks[k] {
                least = nearer(least, least_of_both(named, &task.named), task.number);
            }
        }
        least
    }
}

// What was found, or this inode of a call where it is less.
fn nearer(found: Option<InTheWay>, inode: Option<u64>, holder: u64) -> Option<InTheWay>
    ensures { result ≡ nearer_of found inode holder }
{
    let Some(inode) = inode else {
        return found;
    };
    match found {
        Some(way) if way.inode <= inode => found,
        Some(_) | None => Some(InTheWay { inode, holder }),
    }
}

// What the entry of a call is answered that has this reply behind its commit, or none so far: only `Done` comes later.
fn told(reply: Option<Reply>) -> Reply
    ensures { result ≡ told_by reply }
{
    match reply {
        None => Reply::Done,
        Some(reply) => reply,
    }
}

// A call has ended with the reply that it would have alone.
pub fn plain(number: u64, reply: Reply) -> StepReply
    ensures { result ≡ StepReply.Ended number (WeaveReply.Plain reply) }
{
    StepReply::Ended {
        number,
        reply: WeaveReply::Plain(reply),
    }
}

// The bytes that a write asks for.
pub fn written<'a>(command: &Command<'a>) -> &'a [u8]
    ensures { result.now ≡ bytes_of_command command.now }
{
    if let Command::Write { bytes, .. } = command {
        return bytes.as_slice();
    }
    &[]
}

// The bytes that a call's write asks for.
fn written_by<'a>(call: &Call<'a>) -> &'a [u8]
    ensures { (command : CommandOf) → line_of_call call.now ≡ Ok command → result.now ≡ bytes_of_command command }
{
    match call {
        Call::Do(command) => written(command),
        Call::Refused(_) => &[],
    }
}
