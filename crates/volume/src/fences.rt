// How many fences the calls of plans make: one for each step that stores something.
ghost use Rattle.std.specs.Prelude.{◌≡◌, ◌+◌};
ghost use Rattle.volume.specs.Costs.{count_of, fences_for_claim, fences_for_loss, fences_for_growth, fences_of_write, fences_of_resize, fences_of_move, fences_of_plan};

use crate::plan::{Action, Moving, NewPages, Plan, Resizing, Writing};

impl Plan {
    /// How many fences the call that carries the plan out makes. Where it answers Ok, the device's own count has risen by exactly
    /// this; where a fence fails, by less.
    pub fn fences(&self) -> u64
        ensures { result ≡ fences_of_plan self.now }
    {
        match self.action() {
            Action::Make(entry) => 2 + claim_fences(entry.new_page),
            Action::Name(link) => 2 + claim_fences(link.new_page),
            Action::Remove(removal) => {
                2 + loss_fences(removal.loss.pages, removal.given_back, removal.loss.goes)
            }
            Action::Move(moving) => move_fences(moving),
            Action::Write(writing) => write_fences(writing),
            Action::Resize(resizing) => resize_fences(resizing),
            Action::KeepNames
            | Action::WriteNothing
            | Action::KeepSize
            | Action::Read(_)
            | Action::Status(_)
            | Action::Names(_)
            | Action::Space => 0,
        }
    }
}

// A new page, where there is one, gets its owner.
fn claim_fences(new_page: Option<u64>) -> u64
    ensures { result ≡ fences_for_claim new_page }
{
    match new_page {
        None => 0,
        Some(_) => 1,
    }
}

// A name moves. Its new page, where there is one, is filled by itself.
fn move_fences(moving: &Moving) -> u64
    ensures { result ≡ fences_of_move moving.now }
{
    let page = match moving.new_page {
        None => 0,
        Some(_) => 2,
    };
    let loss = match moving.replaced {
        None => loss_fences(0, moving.given_back, false),
        Some(loss) => loss_fences(loss.pages, moving.given_back, loss.goes),
    };
    page + 4 + loss
}

// So many pages of a node lose their owners, with one that a directory gives back; then the rest of their descriptors goes, and
// the inode where it goes.
fn loss_fences(pages: u64, given_back: Option<u64>, goes: bool) -> u64
    ensures { result ≡ fences_for_loss (pages + count_of given_back) goes }
{
    if pages > 0 || given_back.is_some() {
        2
    } else if goes {
        1
    } else {
        0
    }
}

// Bytes are written inside a file's size, or past it.
fn write_fences(writing: &Writing) -> u64
    ensures { result ≡ fences_of_write writing.now }
{
    let inside = writing.count <= writing.old_size
        && writing.offset <= writing.old_size - writing.count;
    if inside {
        1
    } else {
        growth_fences(&writing.new_pages)
    }
}

// A file grows, or is cut.
fn resize_fences(resizing: &Resizing) -> u64
    ensures { result ≡ fences_of_resize resizing.now }
{
    if resizing.old_size < resizing.new_size {
        growth_fences(&resizing.new_pages)
    } else {
        1 + loss_fences(resizing.cut, None, false)
    }
}

// A file grows over these new pages.
fn growth_fences(new_pages: &NewPages) -> u64
    ensures { result ≡ fences_for_growth new_pages.now }
{
    if new_pages.count() > 0 { 3 } else { 2 }
}
