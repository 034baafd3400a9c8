// A script that is read whole.
ghost use Rattle.std.specs.Prelude.{◌≡◌, ◌≢◌, ◌⊎◌, ◌↔◌, ◌<◌, ◌≤◌, take, length, MatchResult, OnOk, OnErr, IfOk, Err, IsTrue};
ghost use Rattle.pm_trait.specs.Device.{HasRisen};
ghost use Rattle.io_edge.specs.Bytes.{GivesFirst, IsEnd};
ghost use Rattle.squirrel_cli.specs.Whole.{HasRead, IsFirstPart, IsWholeScript, IsWithinLimits, StopsBeforeLines};

use crate::status::Status;
use io_edge::{ReadFault, Source};
use session_lines::count_lines;
use sessions::MOST_CALLS;
use std::alloc::Global;

// The most bytes of a script that is read whole.
const MOST_BYTES: usize = 1 << 24;

/// The bytes of a script of at most 2^24 bytes and 65,536 lines. The status says why it could not be read: memory was short, a read failed,
/// or there is more.
pub fn read_whole<S: Source>(alloc: Global, source: &mut S) -> Result<Vec<u8>, Status>
    ensures reads { MatchResult result (λ script. IsWholeScript (S.left source.old) (S.left source.new) script.items)
        (λ status. StopsBeforeLines status (S.left source.old) (S.left source.new)) }
    ensures cause { result ≡ Err Status.ReadFault → HasRisen (S.faults source.old) (S.faults source.new) }
    ensures no_read_fault { result ≢ Err Status.ReadFault → S.faults source.new ≡ S.faults source.old }
{
    match read_first(alloc, MOST_BYTES + 1, source) {
        Ok(script) if is_within_limits(script.as_slice()) => Ok(script),
        Ok(_) => Err(Status::ScriptLimit),
        Err(status) => Err(status),
    }
}

// Whether a script has no more bytes and lines than one that is read whole.
fn is_within_limits(script: &[u8]) -> bool
    ensures { IsTrue result ↔ IsWithinLimits script.now }
{
    script.len() <= MOST_BYTES && count_lines(script) <= MOST_CALLS as u64
}

// So many bytes of the source, or all that it has.
fn read_first<S: Source>(alloc: Global, most: usize, source: &mut S) -> Result<Vec<u8>, Status>
    ensures reads { MatchResult result (λ bytes. IsFirstPart most (S.left source.old) (S.left source.new) bytes.items)
        (λ status. ((status ≡ Status.NoMemory) ⊎ (status ≡ Status.ReadFault)) × HasRead (S.left source.old) (S.left source.new)) }
    ensures cause { result ≡ Err Status.ReadFault → HasRisen (S.faults source.old) (S.faults source.new) }
    ensures no_read_fault { result ≢ Err Status.ReadFault → S.faults source.new ≡ S.faults source.old }
{
    let Ok(mut bytes) = vec![in alloc; 0; most] else {
        return Err(Status::NoMemory);
    };
    match fill(bytes.as_mut_slice(), source) {
        Ok(count) => {
            bytes.truncate(count);
            Ok(bytes)
        }
        Err(ReadFault) => Err(Status::ReadFault),
    }
}

// Fills a prefix of the buffer: all of it, or to the end of the source.
fn fill<S: Source>(buffer: &mut [u8], source: &mut S) -> Result<usize, ReadFault>
    ensures same { length buffer.new ≡ length buffer.old }
    ensures fills { IfOk result (λ count. (count ≤ length buffer.new)
        × GivesFirst (S.left source.old) (take count buffer.new) (S.left source.new)
        × (count < length buffer.new → IsEnd (S.left source.new))) }
    ensures err { OnErr result (HasRead (S.left source.old) (S.left source.new)) }
    ensures cause { OnErr result (HasRisen (S.faults source.old) (S.faults source.new)) }
    ensures no_fault { OnOk result (S.faults source.new ≡ S.faults source.old) }
{
    let mut filled = 0;
    'reading: while filled < buffer.len() {
        match source.read(&mut buffer[filled..]) {
            Ok(0) => return Ok(filled),
            Ok(count) => filled += count,
            Err(fault) => return Err(fault),
        }
    }
    Ok(filled)
}
