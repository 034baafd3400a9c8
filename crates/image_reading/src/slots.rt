// Which slots are reached, once the walk is done.
ghost use Rattle.std.specs.Prelude.{◌≡◌, ◌↔◌, ◌*◌, ◌+◌, ◌<◌, ℕ, IsTrue, length};
ghost use Rattle.layout.specs.Geometry.{data_pages_of, slots_of, page_of_slot};
ghost use Rattle.image_reading.specs.Images.{In};
ghost use Rattle.image_reading.specs.Reading.{IsReachedSlot};
ghost use Rattle.image_reading.specs.Walk.{IsWalked};

use crate::held::{is_live, owner_of};
use crate::image::Walked;
use layout::DIRECTORY;

/// Whether the slot is live and stands in a page of a reached directory.
pub fn is_reached_slot(walked: &Walked<'_>, slot: u64) -> bool
    requires { IsWalked walked.now }
    ensures { IsTrue result ↔ In walked.now.image IsReachedSlot slot }
{
    if !is_live(&walked.image, walked.reach.rename, slot) {
        return false;
    }
    let owner = owner_of(&walked.image, slot);
    if !walked.reach.has(owner) {
        return false;
    }
    walked
        .image
        .geometry
        .inode_at(walked.image.words, owner)
        .kind
        == DIRECTORY
}
