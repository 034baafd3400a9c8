// An image, and an image with what a walk of it has found.
ghost use Rattle.std.specs.Prelude.{◌≡◌, ◌*◌, length};

use crate::pages::Lists;
use crate::reach::Reach;
use layout::Geometry;

/// The words of a volume, of as many pages as its geometry says.
#[derive(Clone, Copy)]
pub struct Image<'a> {
    pub words: &'a [u64],
    pub geometry: Geometry,
    pub ghost whole: { length words.now ≡ 512 * geometry.pages },
}

/// An image, the pages of each of its inodes, and what is reached.
#[derive(Clone, Copy)]
pub struct Walked<'a> {
    pub image: Image<'a>,
    pub lists: Lists<'a>,
    pub reach: &'a Reach,
}

impl<'a> Walked<'a> {
    ghost use Rattle.std.specs.Prelude.{◌≡◌, ◌*◌, length};
    ghost use Rattle.image_reading.specs.Walk.{IsWalkDone, IsWalked};

    /// The image of these words, with what the walk of it has found.
    pub fn new(image: Image<'a>, lists: Lists<'a>, reach: &'a Reach) -> Walked<'a>
        requires { IsWalkDone image.geometry.pages image.words.now lists.first.now lists.next.now lists.held.now
            reach.now }
        ensures walked { IsWalked result }
        ensures geometry { result.image.geometry ≡ image.entry.geometry }
        ensures words { result.image.words.now ≡ image.entry.words.now }
    {
        Walked {
            image,
            lists,
            reach,
        }
    }
}
