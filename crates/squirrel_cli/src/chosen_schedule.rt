// Which schedule of how many sessions is woven.
ghost use Rattle.std.specs.Prelude.{◌<◌, ◌≤◌, length};

/// So many sessions, and the schedule of their steps.
#[derive(Clone, Copy)]
pub struct ChosenSchedule<'a> {
    /// How many sessions there are.
    pub sessions: u64,
    /// Whose turn it is, a byte a step, round and round.
    pub schedule: &'a [u8],
    pub ghost some: { 1 ≤ sessions },
    pub ghost few: { sessions ≤ 16 },
    pub ghost filled: { 0 < length schedule.now },
}
