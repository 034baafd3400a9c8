//! One session alone, whatever the schedule: its replies are such as `run` may give.
#![tactic(auto)]

ghost use Rattle.lone_laws.specs.Lone.{LoneLaw};

/// The replies of one session's calls are those that a run of its lines may give, whatever the schedule.
pub fn lone_law()
    ensures { LoneLaw }
{}
