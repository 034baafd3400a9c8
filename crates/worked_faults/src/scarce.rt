// Jobs on a device that is short of memory.
use crate::ends::NONE;
use std::alloc::Global;
use std::test::Fail;
use worked_drivers::jobs::{Left, PIECE, ROOM, do_job, sink_of, source_of};
use worked_drivers::scarce::ScarcePm;

/// How a job ended on a device that is short of memory, and how often it asked for room.
#[derive(Drop)]
pub struct Short {
    pub left: Left,
    pub reserves: u64,
}

/// Does a job on a device that refuses the listed reserves, with a script of which the read of this number fails.
pub fn short_of_memory(
    alloc: Global,
    line: &str,
    image: &[u64],
    (script, read): (&str, u64),
    refusing: &[u64],
) -> Result<Short, Fail> {
    let mut pm = ScarcePm::new(alloc, image, refusing)?;
    let source = source_of(alloc, script.as_bytes(), PIECE, read)?;
    let sink = sink_of(alloc, ROOM, NONE)?;
    let left = do_job(alloc, line, &mut pm, source, sink)?;
    Ok(Short {
        left,
        reserves: pm.reserves(),
    })
}
