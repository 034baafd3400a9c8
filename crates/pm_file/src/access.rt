// What a device does with its file.

/// What a device does with its file.
#[derive(Clone, Copy, Debug, PartialEq, Eq)]
pub enum Access {
    /// It reads it and writes into it, and has it alone.
    Write,
    /// It only reads it, beside others who only read it.
    Read,
}
