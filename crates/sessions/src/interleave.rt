// Many sessions on one volume: one call of each runs, cut at its fences.
ghost use Rattle.std.specs.Prelude.{◌≡◌, ◌+◌, ◌^◌, ◌<◌, ◌≤◌, ℕ, false, true, length, vec_len, IfOk, OnOk, MatchResult, None};
ghost use Rattle.std.specs.Vec.{vec_capacity};
ghost use Rattle.io_edge.specs.Bytes.{Writes};
ghost use Rattle.layout.specs.Superblock.{open_mark};
ghost use Rattle.tree_model.specs.Run.{State, Line};
ghost use Rattle.tree_model.specs.Tree.{Tree};
ghost use Rattle.script.specs.Calls.{line_of_call};
ghost use Rattle.volume.specs.Costs.{kept_events};
ghost use Rattle.volume.specs.Stands.{StandsFor, IsStanding};
ghost use Rattle.session_laws.specs.Calls.{Calls};
ghost use Rattle.mark_ops.specs.Marking.{Closes, SetsMark};
ghost use Rattle.sessions.specs.Interleave.{started, HaveEnded};
ghost use Rattle.sessions.specs.Tasks.{task_in};
ghost use Rattle.sessions.specs.declared.interleave.TheConstants.{MOST_CALLS};
ghost use Rattle.sessions.specs.Steps.{IsAsked, MayStep, Steps, IsStopped};
ghost use Rattle.sessions.specs.Texts.{IsTold, told_text};

use crate::entry::{Entry, StepReply, WeaveReply};
use crate::task::Task;
use engine::{LastRead, write_reply};
use io_edge::{Sink, WriteFault};
use mark_ops::{close, unmark};
use pm_trait::{NoMemory, Pm, PmFault};
use script::{Call, write_busy, write_session};
use std::alloc::Global;
use std::marker::Model;
use std::mem;
use volume::Volume;

/// How many calls may begin.
pub const MOST_CALLS: usize = 65536;

/// Sessions on one volume, each of which runs at most one call, and the history of their calls.
#[derive(Drop)]
pub struct Interleave {
    pub(crate) volume: Volume,
    pub(crate) last: LastRead,
    // What each session runs.
    pub(crate) tasks: Vec<Option<Task>>,
    pub(crate) entries: Vec<Entry>,
    // How many calls have begun.
    pub(crate) begun: u64,
    ghost room: { 65536 ≤ vec_capacity entries },
    ghost most: { begun ≤ 65536 },
}

impl Model for Interleave {
    ghost use Rattle.sessions.specs.Interleave.{InterleaveView};

    ghost Value = { InterleaveView };

    ghost view = { λ weave. record { volume = weave.volume; tasks = weave.tasks.items; entries = weave.entries.items; begun = weave.begun; bytes = weave.last } };
}

impl Interleave {
    /// So many sessions on the volume, from 1 to 16, none of which runs a call. Room for the entries of 65,536 calls is made here, and for the
    /// bytes of a read.
    pub fn start(alloc: Global, volume: Volume, sessions: u64) -> Result<Interleave, NoMemory>
        requires some { 1 ≤ sessions }
        requires few { sessions ≤ 16 }
        ensures { IfOk result (λ weave. weave ≡ started volume sessions) }
    {
        let last = LastRead::new(alloc)?;
        let mut tasks = Vec::with_capacity(alloc, sessions as usize).map_err(|_| NoMemory)?;
        for _session in 0..sessions {
            tasks.push(None).map_err(|_| NoMemory)?;
        }
        let entries = Vec::with_capacity(alloc, MOST_CALLS).map_err(|_| NoMemory)?;
        Ok(Interleave {
            volume,
            last,
            tasks,
            entries,
            begun: 0,
        })
    }

    /// The volume.
    pub fn volume(&self) -> &Volume
        ensures { result.now ≡ self.now.volume }
    {
        &self.volume
    }

    /// How many sessions there are.
    pub fn sessions(&self) -> u64
        ensures { result ≡ length self.now.tasks }
    {
        self.tasks.len() as u64
    }

    /// The entries of the history, in their order.
    pub fn entries(&self) -> &[Entry]
        ensures { result.now ≡ self.now.entries }
    {
        self.entries.as_slice()
    }

    /// The bytes of the last read of any session.
    pub fn bytes(&self) -> &[u8]
        ensures { result.now ≡ self.now.bytes }
    {
        self.last.as_slice()
    }

    /// Makes the next step of a session: of the call that it runs, or of this one, which then begins. A step is one interval with its fence;
    /// a call without a fence has one step. A session gives the same call until it has ended; fewer than 65,536 calls have begun where one
    /// begins, and one that changes finds a volume without the mark.
    pub fn step<P: Pm>(&mut self, session: u64, call: &Call, pm: &mut P) -> StepReply
        requires session { session < length self.old.tasks }
        requires stands { self.old.volume.stopped ≡ false → IsAsked self.old (P.view pm.old) session (line_of_call call.now) }
        requires calls { task_in self.old.tasks session ≡ None → self.old.begun < MOST_CALLS }
        requires fences { (P.view pm.old).fences < 2 ^ 62 }
        requires acks { (P.view pm.old).acks < 2 ^ 62 }
        ensures stopped { self.old.volume.stopped ≡ true → IsStopped self.old self.new session result × (pm.new ≡ pm.old) }
        ensures steps { (calls : Calls) (history : State) → self.old.volume.stopped ≡ false →
            MayStep self.old (P.view pm.old) calls history session (line_of_call call.now) →
            Steps self.old self.new (P.view pm.old) (P.view pm.new) calls history session (line_of_call call.now) result }
    {
        match mem::replace(&mut self.tasks[session as usize], None) {
            None => self.begin(session, call, pm),
            Some(task) => self.go_on(session, task, call, pm),
        }
    }

    /// Writes the line of a reply behind the number of its session. The names of a listing are asked of the volume; of a read it is the last one.
    pub fn write_reply<P: Pm, K: Sink>(
        &mut self,
        session: u64,
        reply: &WeaveReply,
        sink: &mut K,
        pm: &P,
    ) -> Result<(), WriteFault>
        requires told { (tree : Tree) × (line : Line) × IsTold self.old (P.view pm.now) tree line reply.now }
        ensures same { self.new ≡ self.old }
        ensures writes { (tree : Tree) (line : Line) → IsTold self.old (P.view pm.now) tree line reply.now →
            Writes (K.took sink.old) (K.took sink.new) (K.faults sink.old) (K.faults sink.new) (told_text session tree line reply.now) result }
    {
        write_session(session, sink)?;
        match reply {
            WeaveReply::Plain(reply) => write_reply(&self.volume, &mut self.last, reply, sink),
            WeaveReply::Busy { inode, holder } => write_busy(*inode, *holder, sink),
        }
    }

    /// Takes the mark of a closed volume away, before a call begins that changes: one fence, for which there is room. Where the fence fails the
    /// volume is stopped. A crash at any moment leaves the volume with the mark or without it, which mean the same.
    pub fn unmark<P: Pm>(&mut self, pm: &mut P) -> Result<(), PmFault>
        requires going { self.old.volume.stopped ≡ false }
        requires marked { self.old.volume.marked ≡ true }
        requires stands { IsStanding self.old.volume (P.view pm.old) }
        requires room { kept_events true ≤ (P.view pm.old).spare }
        requires countable { (P.view pm.old).fences < 2 ^ 63 }
        ensures sets { (state : State) → StandsFor self.old.volume (P.view pm.old) state →
            SetsMark self.old.volume.size open_mark state (P.view pm.old) (P.view pm.new) result }
        ensures weave { MatchResult result (λ _. self.new ≡ record self.old { volume = record self.old.volume { marked = false } })
            (λ _. self.new ≡ record self.old { volume = record self.old.volume { stopped = true } }) }
        ensures stands { (state : State) → StandsFor self.old.volume (P.view pm.old) state →
            OnOk result (StandsFor self.new.volume (P.view pm.new) state) }
    {
        unmark(&mut self.volume, pm)
    }

    /// Ends the sessions, none of which runs a call, and gives the volume the mark of one that was closed, where it doesn't have it. It takes
    /// no memory.
    ///
    /// A crash at any moment leaves the tree of the history. Where the fence fails, the volume may have the mark or not.
    pub fn close<P: Pm>(self, pm: &mut P) -> Result<(), PmFault>
        requires going { self.volume.stopped ≡ false }
        requires ended { (history : State) × HaveEnded self (P.view pm.old) history }
        requires fences { (P.view pm.old).fences < 2 ^ 62 }
        ensures { (history : State) → HaveEnded self (P.view pm.old) history →
            Closes self.volume.marked self.volume.size history (P.view pm.old) (P.view pm.new) result }
    {
        close(self.volume, pm)
    }
}
