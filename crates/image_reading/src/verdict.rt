// Whether an image is sound, and whether it needs recovery.
ghost use Rattle.std.specs.Prelude.{◌≡◌, ◌↔◌, ◌*◌, IfSome, IsTrue, MatchOption, None, length};
ghost use Rattle.image_reading.specs.Scanned.{HasScanned, IsScanned};
ghost use Rattle.image_reading.specs.Soundness.{BreaksMark, IsCoherent, IsFirstViolation, Sound, pages_in_image};
ghost use Rattle.image_reading.specs.Tidy.{IsTidied};

use crate::Violation;
use crate::chain::fault_of_head;
use crate::image::Image;
use crate::scan::Scan;
use crate::scanned::Scanned;
use crate::tidy::has_no_repairs;
use layout::superblock::{MARK_WORD, has_mark};

/// The number of the rule of the mark.
const MARK_RULE: u64 = 15;

/// The first place at which the words break a rule, by rule and then by place. `None` where the image is sound, and then the
/// scan knows the words.
pub fn first_fault(words: &[u64], scan: &mut Scan) -> Option<Violation>
    requires made_for { length words.now ≡ 512 * scan.old.geometry.pages }
    ensures none { (result ≡ None) ↔ Sound (pages_in_image words.now) words.now }
    ensures first { IfSome result (IsFirstViolation words.now) }
    ensures knows { result ≡ None → HasScanned words.now scan.new }
    ensures made_for { scan.new.geometry ≡ scan.old.geometry }
{
    let image = Image {
        words,
        geometry: scan.geometry,
    };
    if let Some(fault) = fault_of_head(&image) {
        return Some(fault);
    }
    if let Some(fault) = scan.fault_of_tree(words) {
        return Some(fault);
    }
    mark_broken_at(&scan.scanned(words))
}

// Where something is to be repaired in a volume that says that it was closed. No other is looked at for repairs.
fn mark_broken_at(scanned: &Scanned<'_>) -> Option<Violation>
    requires scanned { IsScanned scanned.now }
    requires whole { scanned.now.image.geometry.pages ≡ pages_in_image scanned.now.image.words.now }
    ensures { MatchOption result (Sound (pages_in_image scanned.now.image.words.now) scanned.now.image.words.now)
        (BreaksMark scanned.now.image.words.now) }
{
    if !has_mark(scanned.image.words) || has_no_repairs(scanned) {
        return None;
    }
    Some(Violation {
        rule: MARK_RULE,
        place: MARK_WORD,
    })
}

/// Whether words that fit together need no recovery, once the scan knows them. No memory is taken.
pub fn is_tidy(words: &[u64], scan: &Scan) -> bool
    requires made_for { length words.now ≡ 512 * scan.now.geometry.pages }
    requires known { HasScanned words.now scan.now }
    requires coherent { IsCoherent (pages_in_image words.now) words.now }
    ensures { IsTrue result ↔ IsTidied (pages_in_image words.now) words.now }
{
    has_no_repairs(&scan.scanned(words))
}
