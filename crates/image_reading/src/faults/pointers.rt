// The rename pointers of held slots.
ghost use Rattle.std.specs.Prelude.{◌≡◌, ◌↔◌, ◌*◌, ◌<◌, ℕ, IsTrue, None, length};
ghost use Rattle.layout.specs.Geometry.{slots_of};
ghost use Rattle.image_reading.specs.Images.{In};
ghost use Rattle.image_reading.specs.Soundness.{PointsAtHeld, IsOnlyPointer};
ghost use Rattle.image_reading.specs.Scan.{Finds, AreHeld, IsPointerAt};

use crate::held::{has_pointer, is_held};
use crate::image::Image;
use crate::pages::next_held;

/// Rule 3: a held slot's rename pointer is 0 or names another held slot.
pub fn pointers_broken_at(image: &Image<'_>, held: &[u64]) -> Option<u64>
    requires { AreHeld image.now.geometry.pages image.now.words.now held.now }
    ensures { Finds (In image.now PointsAtHeld) result }
{
    let mut slot = next_held(image, held, 0);
    while slot < image.geometry.slots() {
        if !points_at_held(image, slot) {
            return Some(slot);
        }
        slot = next_held(image, held, slot + 1);
    }
    None
}

// Whether the slot's rename pointer, if it is held, is 0 or names another held slot.
fn points_at_held(image: &Image<'_>, slot: u64) -> bool
    requires { slot < slots_of image.now.geometry.pages }
    ensures { IsTrue result ↔ In image.now PointsAtHeld slot }
{
    if !is_held(image, slot) {
        return true;
    }
    let pointer = image.geometry.slot_at(image.words, slot).pointer;
    if pointer == 0 {
        return true;
    }
    if pointer - 1 == slot {
        return false;
    }
    is_held(image, pointer - 1)
}

/// Rule 4: one held slot at most has a rename pointer. Where that holds, `pointer` is set to the slot that has it.
pub fn one_pointer_broken_at(
    image: &Image<'_>,
    held: &[u64],
    pointer: &mut Option<u64>,
) -> Option<u64>
    requires { AreHeld image.now.geometry.pages image.now.words.now held.now }
    ensures found { Finds (In image.now IsOnlyPointer) result }
    ensures pointer { result ≡ None → IsPointerAt image.now.geometry.pages image.now.words.now pointer.new }
{
    let mut found = None;
    let mut slot = next_held(image, held, 0);
    while slot < image.geometry.slots() {
        if has_pointer(image, slot) {
            if found.is_some() {
                return Some(slot);
            }
            found = Some(slot);
        }
        slot = next_held(image, held, slot + 1);
    }
    *pointer = found;
    None
}
