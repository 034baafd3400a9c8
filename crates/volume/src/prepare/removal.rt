// A name that is taken away, and its node where that was its last one.
ghost use Rattle.std.specs.Prelude.{◌≡◌, ◌*◌, ◌<◌, ◌≤◌, ℕ, true, false, None, Some, length, IfOk, MatchResult};
ghost use Rattle.layout.specs.Geometry.{inodes_of, slots_of};
ghost use Rattle.tree_model.specs.Run.{State};
ghost use Rattle.image_reading.specs.Counts.{Count};
ghost use Rattle.image_reading.specs.Residue.{Residue};
ghost use Rattle.image_counts.specs.Entries.{IsPageIn};
ghost use Rattle.volatile_index.specs.Index.{inodes_of_index, pages_of};
ghost use Rattle.volume.specs.Beside.{StandsBeside, IsStandingBeside, IsTouchedByNone, IsAsked};
ghost use Rattle.volume.specs.Planned.{IsNameAt, IsAlone, IsGivenBack};
ghost use Rattle.volume.specs.Walks.{name_row};
ghost use Rattle.volume.specs.Prepared.{IsPlanOrRefusal};

use crate::plan::{Action, Loss, Removal};
use crate::volume::Volume;
use layout::{Geometry, Name, NodeKind, PAGE_SLOTS};
use pm_trait::Pm;
use tree_model::{Command, Path, Refusal};

// A file has as many links as names.
pub(super) const LAST_LINK: u64 = 1;

// A name that stands in a directory: its slot, and the inode that it names.
#[derive(Drop)]
pub(crate) struct Named {
    pub directory: u64,
    pub name: Name,
    pub slot: u64,
    pub inode: u64,
}

// The page of a slot, where no other slot of it names anything.
pub(super) fn emptied_page(geometry: &Geometry, words: &[u64], slot: u64) -> Option<u64>
    requires whole { length words.now ≡ 512 * geometry.now.pages }
    requires slot { slot < slots_of geometry.now.pages }
    ensures { IsGivenBack (IsAlone geometry.now.pages words.now slot) slot result }
{
    let page = geometry.page_of(slot);
    let first = PAGE_SLOTS * page;
    for other in first..first + PAGE_SLOTS {
        if other != slot && geometry.slot_at(words, other).inode != 0 {
            return None;
        }
    }
    Some(page)
}

impl Volume {
    // The removal of a file's name.
    pub(super) fn file_removal<P: Pm>(&self, path: &Path, pm: &P) -> Result<Action, Refusal>
        requires asked { IsAsked self.now (P.view pm.now) (Command.Unlink path.now) }
        ensures { IsPlanOrRefusal self.now (P.view pm.now) (Command.Unlink path.now) result }
    {
        let named = self.name_at(path, pm)?;
        if self.is_directory(named.inode, pm) {
            return Err(Refusal::IsDir);
        }
        let links = self.geometry.inode_at(pm.image(), named.inode).links;
        let removal = self.removal_of(named, NodeKind::File, links == LAST_LINK, pm);
        Ok(Action::Remove(removal))
    }

    // The removal of a directory, which is empty.
    pub(super) fn directory_removal<P: Pm>(&self, path: &Path, pm: &P) -> Result<Action, Refusal>
        requires asked { IsAsked self.now (P.view pm.now) (Command.Rmdir path.now) }
        ensures { IsPlanOrRefusal self.now (P.view pm.now) (Command.Rmdir path.now) result }
    {
        let named = self.name_at(path, pm)?;
        if !self.is_directory(named.inode, pm) {
            return Err(Refusal::NotDir);
        }
        if self.count(named.inode) > 0 {
            return Err(Refusal::NotEmpty);
        }
        let removal = self.removal_of(named, NodeKind::Directory, true, pm);
        Ok(Action::Remove(removal))
    }

    // The name that a path ends in, which the root doesn't have.
    pub(crate) fn name_at<P: Pm>(&self, path: &Path, pm: &P) -> Result<Named, Refusal>
        requires stands { IsStandingBeside self.now (P.view pm.now) }
        ensures row { (state : State) (residue : Residue) → StandsBeside self.now (P.view pm.now) state residue → MatchResult result
            (λ named. name_row state.tree path.now ≡ None) (λ refusal. name_row state.tree path.now ≡ Some refusal) }
        ensures named { (state : State) (residue : Residue) → StandsBeside self.now (P.view pm.now) state residue → IfOk result (λ named.
            IsNameAt self.now.size (P.view pm.now).words state path.now named.directory named.name named.slot
            named.inode) }
    {
        let Some(last) = self.resolve_parent(path, pm)? else {
            return Err(Refusal::Root);
        };
        let Some(slot) = self.index.find(last.directory, &last.name) else {
            return Err(Refusal::NotFound);
        };
        Ok(Named {
            directory: last.directory,
            name: last.name,
            slot,
            inode: self.geometry.slot_at(pm.image(), slot).inode,
        })
    }

    // The removal of a name, with which its node goes or not.
    fn removal_of<P: Pm>(&self, named: Named, kind: NodeKind, goes: bool, pm: &P) -> Removal
        requires stands { IsTouchedByNone self.now (P.view pm.now) named.inode }
        requires slot { named.slot < slots_of self.now.size }
        requires least { 1 ≤ named.inode }
        requires most { named.inode ≤ inodes_of self.now.size }
        ensures is { result ≡ record {
          directory = named.directory;
          name = named.name;
          slot = named.slot;
          loss = record { inode = named.inode; kind = kind; goes = goes; pages = result.loss.pages };
          given_back = result.given_back;
        } }
        ensures pages { goes ≡ true →
            Count (IsPageIn self.now.size (P.view pm.now).words named.inode) result.loss.pages }
        ensures no_pages { goes ≡ false → result.loss.pages ≡ 0 }
        ensures given_back { IsGivenBack (IsAlone self.now.size (P.view pm.now).words named.slot) named.slot
            result.given_back }
    {
        let loss = self.loss_of(named.inode, kind, goes);
        let given_back = emptied_page(&self.geometry, pm.image(), named.slot);
        Removal {
            directory: named.directory,
            name: named.name,
            slot: named.slot,
            loss,
            given_back,
        }
    }

    // What a node loses that loses a name, with which it goes or not.
    pub(super) fn loss_of(&self, inode: u64, kind: NodeKind, goes: bool) -> Loss
        requires least { 1 ≤ inode }
        requires most { inode ≤ inodes_of_index self.now.index }
        ensures is { result ≡ record { inode = inode; kind = kind; goes = goes; pages = result.pages } }
        ensures pages { goes ≡ true → result.pages ≡ length (pages_of self.now.index inode) }
        ensures no_pages { goes ≡ false → result.pages ≡ 0 }
    {
        let pages = if goes {
            self.index.pages(inode).len() as u64
        } else {
            0
        };
        Loss {
            inode,
            kind,
            goes,
            pages,
        }
    }
}
