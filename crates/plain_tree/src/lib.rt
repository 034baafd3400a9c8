//! A tree without a device, to compare a volume with: the definitions, run slowly in memory.
#![tactic(auto)]

ghost use Rattle.std.specs.Prelude.{◌≡◌, IfOk};
ghost use Rattle.tree_model.specs.Run.{fresh_state};
ghost use Rattle.plain_tree.specs.Plain.{Answers};

mod after;
mod answers;
mod bytes;
mod edits;
mod fronts;
mod lookups;
mod parts;
mod routes;
mod row;
mod rows;
mod tables;
mod walks;

use crate::after::state_after;
use crate::answers::{answer, is_changing, page_of_name};
use crate::rows::refusal_for;
use crate::tables::{Rooms, Tables};
use layout::Geometry;
use pm_trait::NoMemory;
use std::alloc::Global;
use std::marker::Model;
use tree_model::{Command, Refusal, Reply};

/// A tree with its room, on a volume of so many pages: a slow reference to compare a volume with. A page is given back
/// only where the directory's names would be too few for its pages.
#[derive(Drop)]
pub struct PlainTree {
    alloc: Global,
    geometry: Geometry,
    tree: Tables,
    room: Rooms,
}

impl Model for PlainTree {
    ghost use Rattle.tree_model.specs.Run.{IsVolumeState};
    ghost use Rattle.plain_tree.specs.Plain.{Plain};

    ghost Value = { Plain };

    ghost view = { λ plain. record { state = record { tree = plain.tree; room = plain.room }; pages = plain.geometry.pages } };

    ghost invariant = { λ plain. IsVolumeState plain.geometry.pages (record { tree = plain.tree; room = plain.room }) };
}

impl PlainTree {
    /// The root alone, on a volume of this geometry.
    ///
    /// Fails only where memory is out.
    pub fn new(alloc: Global, geometry: Geometry) -> Result<PlainTree, NoMemory>
        ensures fresh { IfOk result (λ plain. plain ≡ record { state = fresh_state; pages = geometry.pages }) }
    {
        let tree = Tables::fresh(alloc)?;
        let room = Rooms::fresh(alloc)?;
        Ok(PlainTree {
            alloc,
            geometry,
            tree,
            room,
        })
    }

    /// The answer to a command, which is done where it isn't refused. The bytes of a read and the names of a listing are
    /// not among it.
    ///
    /// A command that changes and is accepted may be refused for want of memory, and then nothing changes.
    pub fn apply(&mut self, command: &Command) -> Reply
        ensures pages { self.new.pages ≡ self.old.pages }
        ensures answered { Answers self.old.pages self.old.state command.now result self.new.state }
    {
        if let Some(refusal) = refusal_for(&self.tree, &self.room, &self.geometry, command) {
            return Reply::Refused(refusal);
        }
        let reply = answer(&self.tree, &self.room, &self.geometry, command);
        if is_changing(command) {
            let page = page_of_name(&self.tree, &self.room, command);
            match state_after(self.alloc, &self.tree, &self.room, command, page) {
                Ok((tree, room)) => {
                    self.tree = tree;
                    self.room = room;
                }
                Err(NoMemory) => return Reply::Refused(Refusal::NoMemory),
            }
        }
        reply
    }
}
