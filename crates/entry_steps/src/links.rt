// A file or a directory gets one link more.
ghost use Rattle.std.specs.Prelude.{◌≡◌, ◌+◌, ◌≤◌, ◌*◌, ℕ, length, Some};
ghost use Rattle.pm_trait.specs.Device.{IsFlushed, IsClean};
ghost use Rattle.pm_trait.specs.DeviceView.{Stores};
ghost use Rattle.layout.specs.Geometry.{inode_word_of};
ghost use Rattle.layout.specs.Fields.{inode_links};
ghost use Rattle.inode_state.specs.States.{linked_fields};
ghost use Rattle.inode_state.specs.Inode.{IsInodeWord, fields_at, InodeIsInFlight};
ghost use Rattle.entry_steps.specs.Steps.{IsLinkable};

use fence_token::{Clean, InFlight};
use inode_state::{InodeH, Linked, Live};
use layout::Geometry;
use pm_trait::Pm;
use volume::WORD_EVENTS;

/// Counts one more link of a file or a directory, and flushes the count. It takes `WORD_EVENTS` events.
pub fn raise_links<P: Pm>(pm: &mut P, geometry: &Geometry, inode: u64) -> InodeH<InFlight, Linked>
    requires whole { length (P.view pm.old).words ≡ 512 * geometry.now.pages }
    requires linkable { IsLinkable geometry.now.pages (P.view pm.old).words inode }
    requires settled { (word : ℕ) → IsInodeWord inode word
        → IsClean (P.view pm.old).words (P.view pm.old).trail word }
    requires room { WORD_EVENTS ≤ (P.view pm.old).spare }

    ensures object { result ≡ record {
      pages = geometry.now.pages;
      number = inode;
      fields = linked_fields (fields_at (P.view pm.old).words inode);
      ticket = Some (P.view pm.new).fences;
    } }
    ensures in_flight { InodeIsInFlight result (P.view pm.new) }
    ensures links { inode_links (P.view pm.new).words inode ≡ inode_links (P.view pm.old).words inode + 1 }
    ensures flushed { IsFlushed (P.view pm.new).trail (inode_word_of inode 1) }
    ensures device { Stores (λ word. word ≡ inode_word_of inode 1) (P.view pm.old) (P.view pm.new) WORD_EVENTS }
{
    let live: InodeH<Clean, Live> = InodeH::at(pm, geometry, inode);
    let linked = live.inc_links(pm);
    linked.flush(pm)
}
