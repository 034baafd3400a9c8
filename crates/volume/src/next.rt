// What is left of a running call behind one of its steps, and what it holds.
ghost use Rattle.std.specs.Prelude.{◌≡◌};
ghost use Rattle.volume.specs.Stages.{next_by};

use tree_model::Reply;

/// What is left of a call behind one of its steps.
#[derive(Drop)]
pub enum Next<R> {
    /// The call goes on.
    More(R),
    /// It is done, and this is its reply.
    Ended(Reply),
}

impl<R: Drop> Next<R> {
    /// What is left behind a step that gave this reply, or none.
    pub fn of(reply: Option<Reply>, running: R) -> Next<R>
        ensures { result ≡ next_by reply running }
    {
        match reply {
            None => Next::More(running),
            Some(reply) => Next::Ended(reply),
        }
    }
}

/// How many free inodes and data pages a running call holds: those that it has for its command until its commit, and behind that
/// those that it has to give back.
#[derive(Clone, Copy, Debug, PartialEq, Eq)]
pub struct Held {
    /// How many inodes.
    pub inodes: u64,
    /// How many data pages.
    pub pages: u64,
}
