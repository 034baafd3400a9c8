// What many sessions are answered, and the history of their calls.
use tree_model::Reply;

/// What a call is answered beside others.
#[derive(Clone, Copy, Debug, PartialEq, Eq)]
pub enum WeaveReply {
    /// What a session would be answered that runs alone.
    Plain(Reply),
    /// The node of this inode, the least one, is named by it and by the running call of this number. Nothing is changed.
    Busy { inode: u64, holder: u64 },
}

/// An entry of the history: a call that came to stand there.
#[derive(Clone, Copy, Debug, PartialEq, Eq)]
pub struct Entry {
    /// The session, from 0 on.
    pub session: u64,
    /// The number of the call: they are numbered from 1 as they begin.
    pub number: u64,
    /// What it is answered at its end, unless a fence fails behind its commit.
    pub reply: WeaveReply,
    /// How many inodes the other running calls hold, which aren't free for it.
    pub inodes: u64,
    /// How many data pages they hold.
    pub pages: u64,
}

/// What a step gives.
#[derive(Clone, Copy, Debug, PartialEq, Eq)]
pub enum StepReply {
    /// The call of this number has fences left.
    Running { number: u64 },
    /// It has ended with this reply.
    Ended { number: u64, reply: WeaveReply },
}
