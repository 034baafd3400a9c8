/// How a run of a script ended.
#[derive(Clone, Copy, Debug, PartialEq, Eq)]
pub enum RunEnd {
    /// Every line was executed and answered.
    Done,
    /// A fence failed, and every line was answered.
    Faulted,
    /// A read of the script failed.
    ReadFault,
    /// A write of a reply failed.
    WriteFault,
    /// The script has 2^32 bytes or more.
    Limit,
}
