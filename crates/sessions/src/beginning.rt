// The call of a session begins: it is answered at once, or makes its first step.
ghost use Rattle.std.specs.Prelude.{◌≡◌, ◌+◌, ◌^◌, ◌<◌, ◌≤◌, ℕ, [], false, true, length, None, Some, Ok, MatchOption};
ghost use Rattle.tree_model.specs.Run.{State};
ghost use Rattle.tree_model.specs.declared.command.Command.{Command as CommandOf};
ghost use Rattle.script.specs.Calls.{line_of_call};
ghost use Rattle.volume.specs.declared.named.NamedNodes.{NamedNodes as Nodes};
ghost use Rattle.session_laws.specs.Calls.{Calls};
ghost use Rattle.sessions.specs.Interleave.{unbegun};
ghost use Rattle.sessions.specs.Laws.{HasName};
ghost use Rattle.sessions.specs.Planned.{IsPlannedAmong, IsReadAs};
ghost use Rattle.sessions.specs.Tasks.{task_in};
ghost use Rattle.sessions.specs.declared.interleave.TheConstants.{MOST_CALLS};
ghost use Rattle.sessions.specs.Steps.{IsAsked, MayStep, Steps, IsStopped};

use crate::entry::{StepReply, WeaveReply};
use crate::going::{InTheWay, plain, written};
use crate::interleave::{Interleave, MOST_CALLS};
use crate::task::{Task, behind_commit};
use pm_trait::Pm;
use running_calls::begin;
use script::Call;
use tree_model::{Command, Reply};
use volume::{Action, NamedNodes, Plan};

impl Interleave {
    // Begins a call.
    pub(crate) fn begin<P: Pm>(&mut self, session: u64, call: &Call, pm: &mut P) -> StepReply
        requires session { session < length self.old.tasks }
        requires empty { task_in self.old.tasks session ≡ None }
        requires calls { self.old.begun < MOST_CALLS }
        requires stands { self.old.volume.stopped ≡ false → IsAsked self.old (P.view pm.old) session (line_of_call call.now) }
        requires fences { (P.view pm.old).fences < 2 ^ 62 }
        requires acks { (P.view pm.old).acks < 2 ^ 62 }
        ensures stopped { self.old.volume.stopped ≡ true → IsStopped self.old self.new session result × (pm.new ≡ pm.old) }
        ensures steps { (calls : Calls) (history : State) → self.old.volume.stopped ≡ false →
            MayStep self.old (P.view pm.old) calls history session (line_of_call call.now) →
            Steps self.old self.new (P.view pm.old) (P.view pm.new) calls history session (line_of_call call.now) result }
    {
        self.begun += 1;
        let number = self.begun;
        if self.volume.stopped() {
            return plain(number, Reply::Stopped);
        }
        match call {
            Call::Refused(fault) => {
                self.answer(
                    session,
                    number,
                    WeaveReply::Plain(Reply::Unread(*fault)),
                    pm,
                )
            }
            Call::Do(command) => self.begin_command(session, command, pm),
        }
    }

    // Begins a command, whose number is given out: where it names nothing of another call's it is prepared.
    fn begin_command<P: Pm>(&mut self, session: u64, command: &Command, pm: &mut P) -> StepReply
        requires going { self.old.volume.stopped ≡ false }
        requires session { session < length self.old.tasks }
        requires empty { task_in self.old.tasks session ≡ None }
        requires begun { 1 ≤ self.old.begun }
        requires calls { self.old.begun ≤ MOST_CALLS }
        requires stands { IsAsked (unbegun self.old) (P.view pm.old) session (Ok command.now) }
        requires fences { (P.view pm.old).fences < 2 ^ 62 }
        requires acks { (P.view pm.old).acks < 2 ^ 62 }
        ensures steps { (calls : Calls) (history : State) →
            MayStep (unbegun self.old) (P.view pm.old) calls history session (Ok command.now) →
            Steps (unbegun self.old) self.new (P.view pm.old) (P.view pm.new) calls history session (Ok command.now) result }
    {
        let number = self.begun;
        let named = match self.volume.named(command, pm) {
            Ok(named) => named,
            Err(refusal) => {
                return self.answer(
                    session,
                    number,
                    WeaveReply::Plain(Reply::Refused(refusal)),
                    pm,
                );
            }
        };
        if let Some(InTheWay { inode, holder }) = self.in_the_way(&named) {
            return self.answer(session, number, WeaveReply::Busy { inode, holder }, pm);
        }
        match self.volume.prepare(command, pm) {
            Ok(plan) => self.carry_out(session, named, command, plan, pm),
            Err(refusal) => {
                self.answer(
                    session,
                    number,
                    WeaveReply::Plain(Reply::Refused(refusal)),
                    pm,
                )
            }
        }
    }

    // Answers a command that reads, or makes the first step of one that changes.
    fn carry_out<P: Pm>(
        &mut self,
        session: u64,
        named: NamedNodes,
        command: &Command,
        plan: Plan,
        pm: &mut P,
    ) -> StepReply
        requires session { session < length self.old.tasks }
        requires empty { task_in self.old.tasks session ≡ None }
        requires begun { 1 ≤ self.old.begun }
        requires calls { self.old.begun ≤ MOST_CALLS }
        requires planned { (calls : Calls) × (history : State) × IsPlannedAmong (unbegun self.old) (P.view pm.old) calls history session command.now named plan }
        requires fences { (P.view pm.old).fences < 2 ^ 62 }
        requires acks { (P.view pm.old).acks < 2 ^ 62 }
        ensures steps { (calls : Calls) (history : State) →
            IsPlannedAmong (unbegun self.old) (P.view pm.old) calls history session command.now named plan →
            Steps (unbegun self.old) self.new (P.view pm.old) (P.view pm.new) calls history session (Ok command.now) result }
    {
        let number = self.begun;
        if let Some(reply) = self.read(&plan, pm) {
            return self.answer(session, number, WeaveReply::Plain(reply), pm);
        }
        let behind = behind_commit(&plan);
        name_of_plan(&plan);
        let running = begin(&mut self.volume, plan);
        let task = Task {
            number,
            named,
            behind,
            running,
        };
        self.advance(session, task, written(command), pm)
    }

    // The reply of a plan that reads.
    fn read<P: Pm>(&mut self, plan: &Plan, pm: &P) -> Option<Reply>
        requires planned { (calls : Calls) × (history : State) × (session : ℕ) × (command : CommandOf) × (named : Nodes)
            × IsPlannedAmong self.old (P.view pm.now) calls history session command named plan.now }
        ensures { (calls : Calls) (history : State) (session : ℕ) (command : CommandOf) (named : Nodes) →
            (planned : IsPlannedAmong self.old (P.view pm.now) calls history session command named plan.now) →
            IsReadAs self.old self.new planned.weaving.words calls command plan.now result }
    {
        match plan.action() {
            Action::Read(reading) => Some(Reply::Bytes(self.last.fill(&self.volume, reading, pm))),
            Action::Status(inode) => Some(Reply::Status(self.volume.stat(*inode, pm))),
            Action::Names(inode) => Some(Reply::Names {
                inode: *inode,
                count: self.volume.count(*inode),
            }),
            Action::Space => Some(Reply::Space(self.volume.free(pm))),
            Action::Make(_)
            | Action::Name(_)
            | Action::Remove(_)
            | Action::Move(_)
            | Action::KeepNames
            | Action::Write(_)
            | Action::WriteNothing
            | Action::Resize(_)
            | Action::KeepSize => None,
        }
    }
}

// The new name of a plan that moves one is a name.
fn name_of_plan(plan: &Plan)
    ensures { HasName plan.now }
{
    if let Action::Move(moving) = plan.action() {
        let _bytes = moving.to_name.as_slice();
    }
}
