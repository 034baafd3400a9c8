use crate::lines::Lines;
use pm_trait::NoMemory;
use std::alloc::Global;

/// How many bytes the longest line, of 65,536 bytes, gives at the most: each stands in two hexadecimal digits.
pub const SCRATCH_BYTES: usize = 32_768;

/// What a run reads lines with: the lines, and room for the bytes that a line gives, of 32,768 bytes.
#[derive(Drop)]
pub struct Buffers {
    pub lines: Lines,
    pub scratch: Vec<u8>,
}

impl Buffers {
    ghost use Rattle.std.specs.Prelude.{IfOk};
    ghost use Rattle.script.specs.Buffers.{AreNew};

    /// Nothing is read yet. All the memory is taken here.
    pub fn new(alloc: Global) -> Result<Buffers, NoMemory>
        ensures { IfOk result AreNew }
    {
        let lines = Lines::new(alloc)?;
        let scratch = vec![in alloc; 0; SCRATCH_BYTES].map_err(|_| NoMemory)?;
        Ok(Buffers { lines, scratch })
    }
}
