// Bytes of a file that are written or read, and a file that gets another size.
ghost use Rattle.std.specs.Prelude.{◌≡◌, ◌-◌, ◌^◌, ◌<◌, ◌≤◌, false, length, Some, None, IfOk, MatchResult};
ghost use Rattle.layout.specs.Geometry.{pieces};
ghost use Rattle.tree_model.specs.Capacity.{file_limit};
ghost use Rattle.tree_model.specs.Run.{State};
ghost use Rattle.tree_model.specs.declared.command.Command.TheVariants.{Read as ReadBytes};
ghost use Rattle.image_reading.specs.Residue.{Residue};
ghost use Rattle.allocators.specs.Numbers.{IsFree, free_in};
ghost use Rattle.volume.specs.Lowest.{AreLowestOf};
ghost use Rattle.volume.specs.Beside.{StandsBeside, IsStandingBeside};
ghost use Rattle.volume.specs.Walks.{file_row, IsSizedFile};
ghost use Rattle.volume.specs.Prepared.{IsPlanOrRefusal, IsPlanOrShort, AreNewPagesOr};

use crate::plan::{Action, NewPages, Plan, Reading, Resizing, Writing};
use crate::volume::Volume;
use allocators::Numbers;
use layout::PAGE_BYTES;
use pm_trait::{NoMemory, Pm};
use std::alloc::Global;
use tree_model::{Command, FileBytes, Path, Refusal};

/// The greatest size of a file, in bytes.
pub const LONGEST_FILE: u64 = 1_099_511_627_776;

/// The most bytes that are read at once.
pub const LONGEST_READ: u64 = 16_384;

// A file, and its size in bytes.
#[derive(Clone, Copy, Drop)]
struct SizedFile {
    inode: u64,
    size: u64,
}

// How many pages hold so many bytes of a file.
fn pages_for(size: u64) -> u64
    requires { size ≤ file_limit }
    ensures { result ≡ pieces size 4096 }
{
    (size + (PAGE_BYTES - 1)) / PAGE_BYTES
}

// The least free numbers, so many of them, in rising order.
fn lowest_numbers(alloc: Global, free: &Numbers, count: u64) -> Result<Vec<u64>, NoMemory>
    requires few { length free.now < 2 ^ 32 }
    requires enough { count ≤ free_in free.now }
    ensures { IfOk result (λ numbers. AreLowestOf (IsFree free.now) count numbers.items) }
{
    let mut numbers = Vec::new(alloc);
    numbers.reserve(count as usize)?;
    let mut from = 0;
    while (numbers.len() as u64) < count {
        let Some(number) = free.next_free(from) else {
            unreachable!()
        };
        numbers.push(number)?;
        from = number + 1;
    }
    Ok(numbers)
}

impl Volume {
    // The writing of bytes into a file.
    pub(super) fn writing<P: Pm>(
        &self,
        path: &Path,
        offset: u64,
        bytes: &FileBytes,
        pm: &P,
    ) -> Result<Action, Refusal>
        requires going { self.now.stopped ≡ false }
        requires stands { IsStandingBeside self.now (P.view pm.now) }
        ensures { IsPlanOrShort self.now (P.view pm.now) (Command.Write path.now offset bytes.now) result }
    {
        let file = self.file_at(path, pm)?;
        let count = bytes.as_slice().len() as u64;
        if offset > LONGEST_FILE || count > LONGEST_FILE - offset {
            return Err(Refusal::TooBig);
        }
        if count == 0 {
            return Ok(Action::WriteNothing);
        }
        let new_pages = self.new_pages(file.size, offset + count)?;
        Ok(Action::Write(Writing {
            inode: file.inode,
            offset,
            count,
            old_size: file.size,
            new_pages,
        }))
    }

    // The change of a file to another size.
    pub(super) fn resizing<P: Pm>(&self, path: &Path, size: u64, pm: &P) -> Result<Action, Refusal>
        requires going { self.now.stopped ≡ false }
        requires stands { IsStandingBeside self.now (P.view pm.now) }
        ensures { IsPlanOrShort self.now (P.view pm.now) (Command.Truncate path.now size) result }
    {
        let file = self.file_at(path, pm)?;
        if size > LONGEST_FILE {
            return Err(Refusal::TooBig);
        }
        if size == file.size {
            return Ok(Action::KeepSize);
        }
        let new_pages = self.new_pages(file.size, size)?;
        let cut = pages_for(file.size).saturating_sub(pages_for(size));
        Ok(Action::Resize(Resizing {
            inode: file.inode,
            old_size: file.size,
            new_size: size,
            new_pages,
            cut,
        }))
    }

    // The reading of bytes of a file.
    pub(super) fn reading<P: Pm>(
        &self,
        path: &Path,
        offset: u64,
        count: u64,
        pm: &P,
    ) -> Result<Plan, Refusal>
        requires going { self.now.stopped ≡ false }
        requires stands { IsStandingBeside self.now (P.view pm.now) }
        ensures { IsPlanOrRefusal self.now (P.view pm.now) (ReadBytes path.now offset count) result }
    {
        let file = self.file_at(path, pm)?;
        if count > LONGEST_READ {
            return Err(Refusal::TooBig);
        }
        Ok(Plan::of(Action::Read(Reading {
            inode: file.inode,
            offset,
            count,
        })))
    }

    // The file that a path leads to.
    fn file_at<P: Pm>(&self, path: &Path, pm: &P) -> Result<SizedFile, Refusal>
        requires going { self.now.stopped ≡ false }
        requires stands { IsStandingBeside self.now (P.view pm.now) }
        ensures { (state : State) (residue : Residue) → StandsBeside self.now (P.view pm.now) state residue → MatchResult result
            (λ file. IsSizedFile state.tree path.now file.inode file.size)
            (λ refusal. file_row state.tree path.now ≡ Some refusal) }
    {
        let inode = self.resolve(path, pm)?;
        if self.is_directory(inode, pm) {
            return Err(Refusal::IsDir);
        }
        let size = self.geometry.inode_at(pm.image(), inode).size;
        Ok(SizedFile { inode, size })
    }

    // The pages by which a file grows from one size to another: none where it doesn't.
    fn new_pages(&self, old_size: u64, new_size: u64) -> Result<NewPages, Refusal>
        requires few { length self.now.data_pages < 2 ^ 32 }
        requires old { old_size ≤ file_limit }
        requires new { new_size ≤ file_limit }
        ensures { AreNewPagesOr self.now.data_pages (pieces new_size 4096 - pieces old_size 4096) result }
    {
        let need = pages_for(new_size).saturating_sub(pages_for(old_size));
        if need > self.data_pages.free_count() {
            return Err(Refusal::NoPages);
        }
        if need == 0 {
            return Ok(NewPages::of(Vec::new(self.alloc)));
        }
        match lowest_numbers(self.alloc, &self.data_pages, need) {
            Ok(pages) => Ok(NewPages::of(pages)),
            Err(NoMemory) => Err(Refusal::NoMemory),
        }
    }
}
