// Which moment of a run is asked for.

/// A moment of a run.
#[derive(Clone, Copy, Debug, PartialEq, Eq)]
pub enum Moment {
    /// After so many events, or after all of them where there are fewer.
    At(u64),
    /// Just before a fence of a call, counted from 1, a failed one too. Where the call has fewer, or for 0, it is just
    /// before the call's acknowledgement. Call 0 is what came before the first call.
    Before { call: u64, fence: u64 },
}
