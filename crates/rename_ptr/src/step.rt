// The steps of a move: each asks for what those before it made.
ghost use Rattle.std.specs.Prelude.{◌*◌};
ghost use Rattle.pm_trait.specs.Unfolds.{MayFence, Takes};
ghost use Rattle.rename_ptr.specs.Stages.{IsAt, step_at};

use crate::clear::clear_source;
use crate::number::{leave_number, take_number};
use crate::open::{fill_or_point, own_page};
use crate::point::point;
use crate::rename::Progress;
use layout::Geometry;
use pm_trait::{Pm, PmFault};
use removal_steps::{clear_rest, disown};
use volume::Moving;

// Makes the next step of a move, with these pages of a replaced node where that goes.
pub fn take_step<P: Pm>(
    pm: &mut P,
    geometry: &Geometry,
    moving: &Moving,
    pages: &[u64],
    progress: Progress,
) -> Result<(), PmFault>
    requires at { IsAt geometry.now.pages (P.view pm.old).words moving.now pages.now progress }
    requires begins { MayFence (P.view pm.old) (512 * geometry.now.pages)
        (step_at geometry.now.pages moving.now pages.now progress).events 1 }
    ensures takes { Takes (step_at geometry.now.pages moving.now pages.now progress) (P.view pm.old) (P.view pm.new)
        result }
{
    let _bytes = moving.to_name.as_slice();
    match progress {
        Progress::Begun => fill_or_point(pm, geometry, moving),
        Progress::Filled => own_page(pm, geometry, moving),
        Progress::Opened => point(pm, geometry, moving),
        Progress::Pointed => take_number(pm, geometry, moving),
        Progress::Moved => leave_number(pm, geometry, moving),
        Progress::Left => clear_source(pm, geometry, moving),
        Progress::Cleared => disown(pm, geometry, moving.replaced, pages, moving.given_back),
        Progress::Disowned => clear_rest(pm, geometry, moving.replaced, pages, moving.given_back),
    }
}
