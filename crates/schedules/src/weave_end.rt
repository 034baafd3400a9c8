// How a schedule ended.

/// How a schedule ended.
#[derive(Clone, Copy, Debug, PartialEq, Eq)]
pub enum WeaveEnd {
    /// All lines were answered, and no fence failed.
    Done,
    /// All lines were answered, and a fence failed; or that failed which takes the mark away, and nothing was executed.
    Faulted,
    /// A write failed, and then nothing more was executed. Calls may be running.
    WriteFault,
}
