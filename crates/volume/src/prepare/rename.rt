// A name that moves: to a new place, or in place of another node's name.
ghost use Rattle.std.specs.Prelude.{◌≡◌, ◌≢◌, ◌<◌, ◌&&◌, false, None, Some, Contains, MatchResult};
ghost use Rattle.layout.specs.Fields.{slot_inode};
ghost use Rattle.layout.specs.Geometry.{slots_of, page_of_slot};
ghost use Rattle.tree_model.specs.Tree.{is_directory as is_directory_in, is_above as is_above_in};
ghost use Rattle.tree_model.specs.Run.{State};
ghost use Rattle.volatile_index.specs.Entries.{IsAbsent};
ghost use Rattle.volatile_index.specs.Index.{entries_of};
ghost use Rattle.volume.specs.Moves.{is_directory_kind};
ghost use Rattle.volume.specs.Beside.{StandsAlone, IsStandingAlone, HasNodeAlone};
ghost use Rattle.volume.specs.Planned.{IsAlone, IsGivenBack, IsPlace, IsNameAt};
ghost use Rattle.volume.specs.Walks.{WouldHold, IsMovedName, replace_row};
ghost use Rattle.volume.specs.Prepared.{IsPlanOrRefusal, IsLeftWith};

use super::removal::{LAST_LINK, Named, emptied_page};
use crate::place::FreePlace;
use crate::plan::{Action, Loss, Moving};
use crate::resolve::LastName;
use crate::volume::Volume;
use layout::{DIRECTORY, NodeKind};
use pm_trait::Pm;
use tree_model::{Command, Path, Refusal};

// Whether the names of one path begin those of another, which has more.
fn is_above(path: &Path, other: &Path) -> bool
    ensures { result ≡ is_above_in path.now other.now }
{
    let mut others = other.names();
    let mut names = path.names();
    while let Some(name) = names.next() {
        let Some(same) = others.next() else {
            return false;
        };
        if name != same {
            return false;
        }
    }
    others.next().is_some()
}

impl Volume {
    // The move of a name to another, or nothing where both are of one node.
    pub(super) fn renaming<P: Pm>(&self, from: &Path, to: &Path, pm: &P) -> Result<Action, Refusal>
        requires going { self.now.stopped ≡ false }
        requires stands { IsStandingAlone self.now (P.view pm.now) }
        ensures { IsPlanOrRefusal self.now (P.view pm.now) (Command.Rename from.now to.now) result }
    {
        self.resolve(from, pm)?;
        let Some(target) = self.resolve_parent(to, pm)? else {
            return Err(Refusal::Root);
        };
        // This one refuses the root, which comes after both walks.
        let source = self.name_at(from, pm)?;
        match self.index.find(target.directory, &target.name) {
            None => self.move_to_new_name(from, to, source, target, pm),
            Some(slot) => self.move_onto_name(from, to, source, target, slot, pm),
        }
    }

    // The move to a name that isn't there. The old name's slot isn't free for it.
    fn move_to_new_name<P: Pm>(
        &self,
        from: &Path,
        to: &Path,
        source: Named,
        target: LastName,
        pm: &P,
    ) -> Result<Action, Refusal>
        requires stands { IsStandingAlone self.now (P.view pm.now) }
        requires source { (state : State) → StandsAlone self.now (P.view pm.now) state → IsMovedName
            self.now.size (P.view pm.now).words state from.now source.directory source.name source.slot source.inode }
        requires target { (state : State) → StandsAlone self.now (P.view pm.now) state →
            WouldHold state.tree to.now target.directory target.name }
        requires absent { IsAbsent (entries_of self.now.index target.directory) target.name }
        ensures { IsPlanOrRefusal self.now (P.view pm.now) (Command.Rename from.now to.now) result }
    {
        if self.is_into_itself(source.inode, from, to, pm) {
            return Err(Refusal::IntoItself);
        }
        let Some(place) = self.place_for_name(target.directory, pm) else {
            return Err(Refusal::NoPages);
        };
        let kind = self.kind_of(source.inode, pm);
        let moving = self.moving(source, kind, target, &place, None, pm);
        Ok(Action::Move(moving))
    }

    // The move to a name that is there, whose node it replaces, or that is of the node itself.
    fn move_onto_name<P: Pm>(
        &self,
        from: &Path,
        to: &Path,
        source: Named,
        target: LastName,
        slot: u64,
        pm: &P,
    ) -> Result<Action, Refusal>
        requires stands { IsStandingAlone self.now (P.view pm.now) }
        requires source { (state : State) → StandsAlone self.now (P.view pm.now) state → IsMovedName
            self.now.size (P.view pm.now).words state from.now source.directory source.name source.slot source.inode }
        requires target { (state : State) → StandsAlone self.now (P.view pm.now) state →
            WouldHold state.tree to.now target.directory target.name }
        requires there { Contains (entries_of self.now.index target.directory)
            (record { name = target.name; slot = slot }) }
        ensures { IsPlanOrRefusal self.now (P.view pm.now) (Command.Rename from.now to.now) result }
    {
        let inode = self.geometry.slot_at(pm.image(), slot).inode;
        if inode == source.inode {
            return Ok(Action::KeepNames);
        }
        let kind = self.kind_of(source.inode, pm);
        let loss = self.replaced(inode, kind, pm)?;
        if self.is_into_itself(source.inode, from, to, pm) {
            return Err(Refusal::IntoItself);
        }
        let place = FreePlace {
            slot,
            new_page: None,
        };
        let moving = self.moving(source, kind, target, &place, Some(loss), pm);
        Ok(Action::Move(moving))
    }

    // Whether a directory would come below itself.
    fn is_into_itself<P: Pm>(&self, inode: u64, from: &Path, to: &Path, pm: &P) -> bool
        requires stands { IsStandingAlone self.now (P.view pm.now) }
        requires there { HasNodeAlone self.now (P.view pm.now) inode }
        ensures { (state : State) → StandsAlone self.now (P.view pm.now) state
            → result ≡ (is_directory_in state.tree inode && is_above_in from.now to.now) }
    {
        self.is_directory(inode, pm) && is_above(from, to)
    }

    // What a node loses that one of this kind replaces: only one of its kind, and no directory with names.
    fn replaced<P: Pm>(&self, inode: u64, kind: NodeKind, pm: &P) -> Result<Loss, Refusal>
        requires stands { IsStandingAlone self.now (P.view pm.now) }
        requires there { HasNodeAlone self.now (P.view pm.now) inode }
        ensures { (state : State) → StandsAlone self.now (P.view pm.now) state → MatchResult result
            (λ loss. (replace_row state.tree kind inode ≡ None)
            × IsLeftWith self.now.size (P.view pm.now).words inode kind loss)
            (λ refusal. replace_row state.tree kind inode ≡ Some refusal) }
    {
        match (kind, self.kind_of(inode, pm)) {
            (NodeKind::Directory, NodeKind::File) => Err(Refusal::NotDir),
            (NodeKind::File, NodeKind::Directory) => Err(Refusal::IsDir),
            (NodeKind::Directory, NodeKind::Directory) => {
                if self.count(inode) > 0 {
                    return Err(Refusal::NotEmpty);
                }
                Ok(self.loss_of(inode, kind, true))
            }
            (NodeKind::File, NodeKind::File) => {
                let links = self.geometry.inode_at(pm.image(), inode).links;
                Ok(self.loss_of(inode, kind, links == LAST_LINK))
            }
        }
    }

    // What an inode's node is.
    fn kind_of<P: Pm>(&self, inode: u64, pm: &P) -> NodeKind
        requires stands { IsStandingAlone self.now (P.view pm.now) }
        requires there { HasNodeAlone self.now (P.view pm.now) inode }
        ensures { (state : State) → StandsAlone self.now (P.view pm.now) state
            → is_directory_in state.tree inode ≡ is_directory_kind result }
    {
        if self.is_directory(inode, pm) {
            NodeKind::Directory
        } else {
            NodeKind::File
        }
    }

    // A move from one name to another, and the old slot's page where neither the old name nor another is left in it.
    fn moving<P: Pm>(
        &self,
        source: Named,
        kind: NodeKind,
        target: LastName,
        place: &FreePlace,
        replaced: Option<Loss>,
        pm: &P,
    ) -> Moving
        requires stands { IsStandingAlone self.now (P.view pm.now) }
        requires source { source.slot < slots_of self.now.size }
        requires target { place.now.slot < slots_of self.now.size }
        ensures is { result ≡ record {
          inode = source.inode;
          kind = kind;
          from_directory = source.directory;
          from_name = source.name;
          from_slot = source.slot;
          to_directory = target.directory;
          to_name = target.name;
          to_slot = place.now.slot;
          new_page = place.now.new_page;
          replaced = replaced;
          given_back = result.given_back;
        } }
        ensures given_back { IsGivenBack (IsAlone self.now.size (P.view pm.now).words source.slot
            × (page_of_slot place.now.slot ≢ page_of_slot source.slot)) source.slot result.given_back }
    {
        let same_page = self.geometry.page_of(place.slot) == self.geometry.page_of(source.slot);
        let given_back = if same_page {
            None
        } else {
            emptied_page(&self.geometry, pm.image(), source.slot)
        };
        Moving {
            inode: source.inode,
            kind,
            from_directory: source.directory,
            from_name: source.name,
            from_slot: source.slot,
            to_directory: target.directory,
            to_name: target.name,
            to_slot: place.slot,
            new_page: place.new_page,
            replaced,
            given_back,
        }
    }
}
