// The text of a workload's summary.
ghost use Rattle.std.specs.Prelude.{◌≡◌};
ghost use Rattle.io_edge.specs.Bytes.{Writes};
ghost use Rattle.script.specs.Work.{work_text};

use crate::check::{CountsText, text_of_table};
use crate::texts::{push_text, space_line};
use io_edge::{Sink, WriteFault, write_all};
use tree_model::Free;

/// What a workload did, and what the volume has after it.
#[derive(Clone, Copy, Debug, PartialEq, Eq)]
pub struct WorkSummary {
    /// The lines of the script.
    pub lines: u64,
    /// How many of their answers begin with `ok`.
    pub accepted: u64,
    /// How many begin with `error`.
    pub refused: u64,
    /// The inodes and data pages that are free, and all of them.
    pub space: Free,
    /// The paths of the tree but the root's.
    pub names: u64,
    /// The bytes of its files, each file counted once.
    pub bytes: u64,
}

/// Writes the text of a workload: a line of its answers, the text of what `df` tells, and a line of the tree.
pub fn write_work<K: Sink>(summary: &WorkSummary, sink: &mut K) -> Result<(), WriteFault>
    ensures { Writes (K.took sink.old) (K.took sink.new) (K.faults sink.old) (K.faults sink.new)
        (work_text summary.now) result }
{
    write_all(sink, text_of(summary).as_slice())
}

// The text of a workload.
fn text_of(summary: &WorkSummary) -> CountsText
    ensures { result.items ≡ work_text summary.now }
{
    let mut text = text_of_table(&[
        (b"work lines ", summary.lines),
        (b" ok ", summary.accepted),
        (b" refused ", summary.refused),
    ]);
    let totals = text_of_table(&[(b"names ", summary.names), (b" bytes ", summary.bytes)]);
    push_text(&mut text, space_line(&summary.space).as_slice());
    push_text(&mut text, totals.as_slice());
    text
}
