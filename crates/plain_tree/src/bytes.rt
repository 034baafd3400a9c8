// Bytes of files.
ghost use Rattle.std.specs.Prelude.{◌≡◌, ◌+◌, ◌-◌, ◌<◌, ◌^◌, ◌++◌, length, replicate, IfOk};
ghost use Rattle.std.proofs.Common.{nat_cmp};
ghost use Rattle.std.specs.FinMap.Entries.{find};
ghost use Rattle.tree_model.specs.Tree.{bytes_of_node};
ghost use Rattle.tree_model.specs.Step.{resized as resized_of, overwritten as overwritten_of};

use crate::lookups::node_of_id;
use crate::parts::{NodeEntry, PlainNode};
use pm_trait::NoMemory;
use std::alloc::Global;

/// The bytes of an id's file; none where it is no file.
pub fn bytes_of_id(entries: &[NodeEntry], id: u64) -> &[u8]
    ensures { result.now ≡ bytes_of_node (find nat_cmp id entries.now) }
{
    match node_of_id(entries, id) {
        Some(PlainNode::File(bytes)) => bytes.as_slice(),
        _ => &[],
    }
}

/// The first bytes, lengthened with zeros.
///
/// Fails only where memory is out.
pub fn resized(alloc: Global, bytes: &[u8], size: u64) -> Result<Vec<u8>, NoMemory>
    ensures { IfOk result (λ new. new.items ≡ resized_of bytes.now size) }
{
    let mut new = bytes.to_vec(alloc)?;
    new.resize(size as usize, 0)?;
    Ok(new)
}

// The bytes, lengthened with zeros where they are shorter.
fn lengthened(alloc: Global, bytes: &[u8], size: usize) -> Result<Vec<u8>, NoMemory>
    ensures { IfOk result (λ long. long.items ≡ bytes.now ++ replicate (size - length bytes.now) 0) }
{
    let mut long = bytes.to_vec(alloc)?;
    if long.len() < size {
        long.resize(size, 0)?;
    }
    Ok(long)
}

/// The bytes with new ones from an offset on, lengthened with zeros where they are shorter.
///
/// Fails only where memory is out.
pub fn overwritten(
    alloc: Global,
    old: &[u8],
    offset: u64,
    bytes: &[u8],
) -> Result<Vec<u8>, NoMemory>
    requires within { offset + length bytes.now < 2 ^ 64 }
    ensures { IfOk result (λ new. new.items ≡ overwritten_of old.now offset bytes.now) }
{
    let start = offset as usize;
    let end = start + bytes.len();
    let long = lengthened(alloc, old, end)?;
    let mut new = long[..start].to_vec(alloc)?;
    new.extend_from_slice(bytes)?;
    new.extend_from_slice(&long[end..])?;
    Ok(new)
}
