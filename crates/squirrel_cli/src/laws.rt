// What a caller may rest on of jobs and replays, as contracts.
ghost use Rattle.squirrel_cli.specs.Complete.{ClosedLaw, CompleteLaw, ReplayCompleteLaw};
ghost use Rattle.squirrel_cli.specs.ReplayLaw.{ReplayEndLaw, ReplayLaw};

use io_edge::{Sink, Source};

/// When a job is done: where nothing fails, unless memory is short or the script is too long.
pub fn complete_law<S: Source, K: Sink>()
    ensures { CompleteLaw S.Source K.Sink }
{}

/// A `run`, `tree`, `work` or `weave` that is done has closed the volume.
pub fn closed_law<S: Source, K: Sink>()
    ensures { ClosedLaw S.Source K.Sink }
{}

/// When a replay is done: that of a short script where nothing fails, unless memory is short.
pub fn replay_complete_law<S: Source, K: Sink>()
    ensures { ReplayCompleteLaw S.Source K.Sink }
{}

/// What the number and the tree that a replay tells say of the lines of its script: the tree is one that a crash in the line
/// behind the acknowledged ones may leave; which of them it is where the moment is at a line's border, or at either end.
pub fn replay_law()
    ensures { ReplayLaw }
{}

/// A crash behind as many events as the mount and the lines may make leaves the last tree, with all lines acknowledged.
pub fn replay_end_law()
    ensures { ReplayEndLaw }
{}
