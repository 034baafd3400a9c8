// One word is given a value by itself.
ghost use Rattle.std.specs.Prelude.{◌<◌, length};
ghost use Rattle.pm_trait.specs.Unfolds.{MayFence, Takes};
ghost use Rattle.fence_token.specs.Setting.{setting};

use crate::tokens::{end_interval, flush_span};
use pm_trait::{Pm, PmFault};

/// The store of a word, the flush of its line, and a fence.
pub const SETTING_EVENTS: u64 = 3;

/// Gives a word a value, durably. Where the fence fails, a crash leaves the old value or the new one.
pub fn set_word<P: Pm>(pm: &mut P, word: u64, value: u64) -> Result<(), PmFault>
    requires in_range { word < length (P.view pm.old).words }
    requires begins { MayFence (P.view pm.old) (length (P.view pm.old).words) SETTING_EVENTS 1 }
    ensures takes { Takes (setting word value) (P.view pm.old) (P.view pm.new) result }
{
    pm.store(word, value);
    let _line = flush_span(pm, word, word);
    end_interval(pm)
}
