// What a command names, before it is prepared.
ghost use Rattle.std.specs.Prelude.{◌≡◌, false, true, None, Some, MatchResult};
ghost use Rattle.tree_model.specs.PathText.{Route};
ghost use Rattle.tree_model.specs.Tree.{id_at};
ghost use Rattle.tree_model.specs.Run.{State};
ghost use Rattle.tree_model.specs.declared.command.Command.TheVariants.{Create, Link, Unlink, Rename, Stat as Tell};
ghost use Rattle.image_reading.specs.Reading.{Reached};
ghost use Rattle.image_reading.specs.Residue.{Residue};
ghost use Rattle.naming_laws.specs.Naming.{names_inode as is_named, names_all};
ghost use Rattle.volume.specs.Beside.{StandsBeside, IsStandingBeside};
ghost use Rattle.volume.specs.Walks.{WouldHold};
ghost use Rattle.volume.specs.Named.{refusal_of_walks, IsNamedOrRefused};

use crate::resolve::LastName;
use crate::volume::Volume;
use pm_trait::Pm;
use tree_model::{Command, Path, Refusal};

/// How many nodes a command names at most, unless it names all.
pub const MOST_NAMED: usize = 3;

/// The nodes that a command names: those of its paths, and the directories whose names it would change.
#[derive(Clone, Copy, Debug, PartialEq, Eq)]
pub enum NamedNodes {
    /// All nodes: the command moves every path below its own.
    All,
    /// Those of these inodes, in no order that is told; one may stand twice. Inodes are numbered from 1.
    These([Option<u64>; MOST_NAMED]),
}

impl Volume {
    /// What a command names; or the refusal of its walks, or that of the root, which come before all others. It takes no memory.
    pub fn named<P: Pm>(&self, command: &Command, pm: &P) -> Result<NamedNodes, Refusal>
        requires going { self.now.stopped ≡ false }
        requires stands { IsStandingBeside self.now (P.view pm.now) }
        ensures { IsNamedOrRefused self.now (P.view pm.now) command.now result }
    {
        match command {
            Command::Create { path } => self.named_by_new(path, pm),
            Command::Mkdir { path } => self.named_by_new(path, pm),
            Command::Link { from, to } => self.named_by_link(from, to, pm),
            Command::Unlink { path } => self.named_by_removal(path, pm),
            Command::Rmdir { path } => self.named_by_removal(path, pm),
            Command::Rename { from, to } => self.named_by_rename(from, to, pm),
            Command::Write { path, .. } => self.named_by_path(path, pm),
            Command::Truncate { path, .. } => self.named_by_path(path, pm),
            Command::Read { path, .. } => self.named_by_path(path, pm),
            Command::Stat { path } => self.named_by_path(path, pm),
            Command::List { path } => self.named_by_path(path, pm),
            Command::Df => Ok(NamedNodes::These([None, None, None])),
        }
    }

    /// Whether a command names the node of an inode that is in use or that a running call names, which a rename always does; or the refusal
    /// that `named` gives. It takes no memory.
    pub fn names_inode<P: Pm>(&self, command: &Command, inode: u64, pm: &P) -> Result<bool, Refusal>
        requires going { self.now.stopped ≡ false }
        requires stands { IsStandingBeside self.now (P.view pm.now) }
        ensures { (state : State) (residue : Residue) → StandsBeside self.now (P.view pm.now) state residue → MatchResult result
            (λ names. (refusal_of_walks state.tree command.now ≡ None) × (names_all command.now ≡ true → names ≡ true)
            × (names_all command.now ≡ false → names ≡ is_named state.tree command.now inode))
            (λ refusal. refusal_of_walks state.tree command.now ≡ Some refusal) }
    {
        match self.named(command, pm)? {
            NamedNodes::All => Ok(true),
            NamedNodes::These(inodes) => Ok(inodes.contains(&Some(inode))),
        }
    }

    // What a new entry names: the node that has its name already, where one does, and the directory.
    fn named_by_new<P: Pm>(&self, path: &Path, pm: &P) -> Result<NamedNodes, Refusal>
        requires stands { IsStandingBeside self.now (P.view pm.now) }
        ensures { IsNamedOrRefused self.now (P.view pm.now) (Create path.now) result }
    {
        let Some(last) = self.resolve_parent(path, pm)? else {
            return Err(Refusal::Root);
        };
        Ok(NamedNodes::These([self.inode_of(&last, pm), Some(last.directory), None]))
    }

    // What a link names: its file, the node that has the new name already, where one does, and the new name's directory.
    fn named_by_link<P: Pm>(&self, from: &Path, to: &Path, pm: &P) -> Result<NamedNodes, Refusal>
        requires going { self.now.stopped ≡ false }
        requires stands { IsStandingBeside self.now (P.view pm.now) }
        ensures { IsNamedOrRefused self.now (P.view pm.now) (Link from.now to.now) result }
    {
        let inode = self.resolve(from, pm)?;
        let Some(last) = self.resolve_parent(to, pm)? else {
            return Err(Refusal::Root);
        };
        Ok(NamedNodes::These([Some(inode), self.inode_of(&last, pm), Some(last.directory)]))
    }

    // What the removal of a name names: its node, and its directory.
    fn named_by_removal<P: Pm>(&self, path: &Path, pm: &P) -> Result<NamedNodes, Refusal>
        requires stands { IsStandingBeside self.now (P.view pm.now) }
        ensures { IsNamedOrRefused self.now (P.view pm.now) (Unlink path.now) result }
    {
        let named = self.name_at(path, pm)?;
        Ok(NamedNodes::These([Some(named.inode), Some(named.directory), None]))
    }

    // All, where its walks lead somewhere and neither name is the root's.
    fn named_by_rename<P: Pm>(&self, from: &Path, to: &Path, pm: &P) -> Result<NamedNodes, Refusal>
        requires going { self.now.stopped ≡ false }
        requires stands { IsStandingBeside self.now (P.view pm.now) }
        ensures { IsNamedOrRefused self.now (P.view pm.now) (Rename from.now to.now) result }
    {
        self.resolve(from, pm)?;
        if self.resolve_parent(to, pm)?.is_none() {
            return Err(Refusal::Root);
        }
        self.name_at(from, pm)?;
        Ok(NamedNodes::All)
    }

    // The node of a path, of a command that names no other.
    fn named_by_path<P: Pm>(&self, path: &Path, pm: &P) -> Result<NamedNodes, Refusal>
        requires going { self.now.stopped ≡ false }
        requires stands { IsStandingBeside self.now (P.view pm.now) }
        ensures { IsNamedOrRefused self.now (P.view pm.now) (Tell path.now) result }
    {
        let inode = self.resolve(path, pm)?;
        Ok(NamedNodes::These([Some(inode), None, None]))
    }

    // The inode that a directory's name names, where the name is there.
    fn inode_of<P: Pm>(&self, last: &LastName, pm: &P) -> Option<u64>
        requires stands { IsStandingBeside self.now (P.view pm.now) }
        requires reached { Reached self.now.size (P.view pm.now).words last.now.directory }
        ensures { (state : State) (residue : Residue) (path : Route) → StandsBeside self.now (P.view pm.now) state residue
            → WouldHold state.tree path last.now.directory last.now.name → result ≡ id_at state.tree path }
    {
        let slot = self.index.find(last.directory, &last.name)?;
        Some(self.geometry.slot_at(pm.image(), slot).inode)
    }
}
