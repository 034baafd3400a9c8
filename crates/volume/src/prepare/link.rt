// One more name for a file.
ghost use Rattle.std.specs.Prelude.{◌≡◌, false};
ghost use Rattle.volume.specs.Beside.{IsAsked};
ghost use Rattle.volume.specs.Prepared.{IsPlanOrRefusal};

use crate::plan::{Action, NewName};
use crate::volume::Volume;
use pm_trait::Pm;
use tree_model::{Command, Path, Refusal};

impl Volume {
    // The naming of the file of one path by another.
    pub(super) fn new_name<P: Pm>(&self, from: &Path, to: &Path, pm: &P) -> Result<Action, Refusal>
        requires going { self.now.stopped ≡ false }
        requires asked { IsAsked self.now (P.view pm.now) (Command.Link from.now to.now) }
        ensures { IsPlanOrRefusal self.now (P.view pm.now) (Command.Link from.now to.now) result }
    {
        let inode = self.resolve(from, pm)?;
        let Some(last) = self.resolve_parent(to, pm)? else {
            return Err(Refusal::Root);
        };
        if self.has_name(last.directory, &last.name) {
            return Err(Refusal::Exists);
        }
        if self.is_directory(inode, pm) {
            return Err(Refusal::IsDir);
        }
        let Some(place) = self.place_for_name(last.directory, pm) else {
            return Err(Refusal::NoPages);
        };
        Ok(Action::Name(NewName {
            directory: last.directory,
            name: last.name,
            inode,
            slot: place.slot,
            new_page: place.new_page,
        }))
    }
}
