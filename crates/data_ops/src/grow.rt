// A file grows, each interval settled by its fence: its bytes with the new pages, their owners, and then its size.
ghost use Rattle.std.specs.Prelude.{◌≡◌, ◌+◌, ◌*◌, ◌^◌, ◌<◌, ◌≤◌, ℕ, List, nat_lt, length, IfOk};
ghost use Rattle.pm_trait.specs.Device.{IsFlushed, IsClean};
ghost use Rattle.pm_trait.specs.DeviceView.{DeviceView, IsSettledView, Stores};
ghost use Rattle.page_state.specs.Spans.{span_of};
ghost use Rattle.page_state.specs.Page.{OfSome, IsOwnWord, IsFilledWord};
ghost use Rattle.page_state.specs.Events.{HaveBytes};
ghost use Rattle.content_laws.specs.Range.{WritesBelow, WritesTail};
ghost use Rattle.volume.specs.Costs.{where_true, page_events};
ghost use Rattle.volume.specs.Stages.{Advances};
ghost use Rattle.pm_trait.specs.Unfolds.{MayFence, Takes, fences_in};
ghost use Rattle.data_ops.specs.Files.{AreBytesFrom, AreFree};
ghost use Rattle.data_ops.specs.Growing.{MayFill, IsTailWord, old_page_events, fill_events as events_of_fill, owner_events};
ghost use Rattle.data_ops.specs.Steps.{CanOwn, CanRaise, filling_file, owning, sizing};
ghost use Rattle.data_ops.specs.GrowthStages.{CanFill, IsGrowthAt, KnowsGrowth, EntersGrowth, left_of_growth, step_of_growth, next_of_growth};
ghost use Rattle.data_ops.specs.GrowthSteps.{StandsGrowth, StandsNextGrowth};
ghost use Rattle.data_ops.specs.declared.grow.Growth.{Growth as Grown};
ghost use Rattle.data_ops.specs.declared.grow.Progress.TheVariants.{Begun as Begins};

use entry_steps::settle;
use fence_token::{Clean, end_interval};
use inode_state::{InodeH, Live as LiveNode};
use layout::{Geometry, PAGE_BYTES};
use page_state::{Filled, Free, Live, PageH};
use pm_trait::{Pm, PmFault};
use volume::{
    COMMIT_EVENTS, FENCE_EVENTS, NewPages, PAGE_EVENTS, Volume, WORD_EVENTS, span_events,
};

/// A file that grows, and where the bytes begin that are written with that. All are in bytes.
#[derive(Clone, Copy)]
pub struct Growth {
    /// The file's inode. Inodes are numbered from 1.
    pub inode: u64,
    /// The size before.
    pub old_size: u64,
    /// The size after, which is more.
    pub new_size: u64,
    /// Where the bytes begin that are written: the old size where there are none.
    pub offset: u64,
}

// What of a growth is settled.
#[derive(Clone, Copy)]
pub enum Progress {
    // Nothing.
    Begun,
    // The bytes, with new pages that have no owner yet.
    Filled,
    // These, and the owner of the new pages, where there are any.
    Owned,
}

// Writes into old pages of a file the bytes of the range, and beside it zeros from the old size on, and flushes them.
fn fill_old<P: Pm>(pm: &mut P, geometry: &Geometry, growth: &Growth, pages: &[u64], bytes: &[u8])
    requires whole { length (P.view pm.old).words ≡ 512 * geometry.now.pages }
    requires settled { IsSettledView (P.view pm.old) }
    requires may { MayFill geometry.now.pages (P.view pm.old).words growth.now bytes.now pages.now }
    requires room { old_page_events growth.now ≤ (P.view pm.old).spare }
    ensures below { WritesBelow geometry.now.pages (P.view pm.old).words (P.view pm.new).words growth.now.inode
        growth.now.offset bytes.now }
    ensures tail { WritesTail geometry.now.pages (P.view pm.old).words (P.view pm.new).words growth.now.inode
        growth.now.offset bytes.now }
    ensures flushed { (word : ℕ) → IsTailWord geometry.now.pages growth.now bytes.now pages.now word
        → IsFlushed (P.view pm.new).trail word }
    ensures device { Stores (IsTailWord geometry.now.pages growth.now bytes.now pages.now) (P.view pm.old)
        (P.view pm.new) (old_page_events growth.now) }
{
    let first = growth.offset.min(growth.old_size) / PAGE_BYTES;
    let last = &pages[first as usize..];
    if !last.is_empty() {
        let live: PageH<Clean, Live> = PageH::at(pm, geometry, last);
        let written = live.write_span(pm, first, growth.old_size, growth.offset, bytes);
        let _flushed = written.flush(pm);
    }
}

// Fills new pages with the bytes of the range, and beside it zeros, and flushes them. Page `first` of the file is the first of them.
fn fill_new<P: Pm>(
    pm: &mut P,
    geometry: &Geometry,
    pages: &[u64],
    first: u64,
    offset: u64,
    bytes: &[u8],
)
    requires whole { length (P.view pm.old).words ≡ 512 * geometry.now.pages }
    requires settled { (word : ℕ) → OfSome pages.now (IsOwnWord geometry.now.pages) word
        → IsClean (P.view pm.old).words (P.view pm.old).trail word }
    requires free { AreFree geometry.now.pages (P.view pm.old).words pages.now }
    requires places { first + length pages.now ≤ 2 ^ 28 }
    requires range { offset + length bytes.now ≤ 2 ^ 40 }
    requires room { length pages.now * page_events ≤ (P.view pm.old).spare }
    ensures filled { AreBytesFrom geometry.now.pages (P.view pm.new).words 0 first pages.now }
    ensures bytes { HaveBytes geometry.now.pages pages.now (span_of first 0 offset bytes.now) bytes.now
        (λ page byte. 0) (P.view pm.new).words }
    ensures flushed { (word : ℕ) → OfSome pages.now (IsFilledWord geometry.now.pages) word
        → IsFlushed (P.view pm.new).trail word }
    ensures device { Stores (OfSome pages.now (IsFilledWord geometry.now.pages)) (P.view pm.old) (P.view pm.new)
        (length pages.now * page_events) }
{
    if !pages.is_empty() {
        let free: PageH<Clean, Free> = PageH::at(pm, geometry, pages);
        let filled = free.fill_bytes(pm, first, offset, bytes);
        let _flushed = filled.flush(pm);
    }
}

// Fills a file's old pages from the range or its old size on, and its new pages.
fn fill<P: Pm>(
    pm: &mut P,
    geometry: &Geometry,
    growth: &Growth,
    old_pages: &[u64],
    new_pages: &[u64],
    bytes: &[u8],
) -> Result<(), PmFault>
    requires ready { CanFill geometry.now.pages (P.view pm.old).words growth.now bytes.now old_pages.now new_pages.now }
    requires begins { MayFence (P.view pm.old) (512 * geometry.now.pages)
        (events_of_fill growth.now (length new_pages.now)) 1 }
    ensures takes { Takes (filling_file geometry.now.pages growth.now bytes.now new_pages.now) (P.view pm.old)
        (P.view pm.new) result }
{
    fill_old(pm, geometry, growth, old_pages, bytes);
    let first = old_pages.len() as u64;
    fill_new(pm, geometry, new_pages, first, growth.offset, bytes);
    end_interval(pm)
}

// Gives filled pages to a file, where there are any.
fn own<P: Pm>(pm: &mut P, geometry: &Geometry, pages: &[u64], inode: u64) -> Result<(), PmFault>
    requires ready { CanOwn geometry.now.pages (P.view pm.old).words inode pages.now }
    requires begins { MayFence (P.view pm.old) (512 * geometry.now.pages) (where_true (nat_lt 0 (length pages.now))
        (owner_events (length pages.now))) 1 }
    ensures takes { Takes (owning geometry.now.pages inode pages.now) (P.view pm.old) (P.view pm.new) result }
{
    if pages.is_empty() {
        return Ok(());
    }
    let filled: PageH<Clean, Filled> = PageH::at(pm, geometry, pages);
    let claimed = filled.claim(pm, inode);
    let _flushed = claimed.flush(pm);
    end_interval(pm)
}

// Raises a file's size, for which its pages stand.
fn raise_size<P: Pm>(pm: &mut P, geometry: &Geometry, inode: u64, size: u64) -> Result<(), PmFault>
    requires ready { CanRaise geometry.now.pages (P.view pm.old) inode size }
    requires begins { MayFence (P.view pm.old) (512 * geometry.now.pages) COMMIT_EVENTS 1 }
    ensures takes { Takes (sizing inode size) (P.view pm.old) (P.view pm.new) result }
{
    let live: InodeH<Clean, LiveNode> = InodeH::at(pm, geometry, inode);
    let grown = live.grow_size(pm, size);
    let _flushed = grown.flush(pm);
    end_interval(pm)
}

// Makes the next step of a growth, to its fence.
fn grow_step<P: Pm>(
    pm: &mut P,
    geometry: &Geometry,
    growth: &Growth,
    progress: Progress,
    old_pages: &[u64],
    new_pages: &[u64],
    bytes: &[u8],
) -> Result<(), PmFault>
    requires stands { IsGrowthAt geometry.now.pages (P.view pm.old) growth.now bytes.now old_pages.now new_pages.now progress }
    requires begins { MayFence (P.view pm.old) (512 * geometry.now.pages)
        (step_of_growth geometry.now.pages growth.now bytes.now new_pages.now progress).events 1 }
    ensures takes { Takes (step_of_growth geometry.now.pages growth.now bytes.now new_pages.now progress) (P.view pm.old)
        (P.view pm.new) result }
{
    match progress {
        Progress::Begun => fill(pm, geometry, growth, old_pages, new_pages, bytes),
        Progress::Filled => own(pm, geometry, new_pages, growth.inode),
        Progress::Owned => raise_size(pm, geometry, growth.inode, growth.new_size),
    }
}

// The events by which a file's old pages are written and so many new ones are filled.
fn fill_events(growth: &Growth, new_pages: u64) -> u64
    requires small { growth.now.old_size ≤ 2 ^ 40 }
    requires countable { events_of_fill growth.now new_pages < 2 ^ 64 }
    ensures { result ≡ events_of_fill growth.now new_pages }
{
    let old_end = growth.old_size.div_ceil(PAGE_BYTES) * PAGE_BYTES;
    span_events(growth.offset.min(growth.old_size), old_end)
        + new_pages * PAGE_EVENTS
        + FENCE_EVENTS
}

// Takes a step of a growth into the volume: the new pages behind the first, and their places in the file's list behind the last.
fn enter_growth(volume: &mut Volume, inode: u64, pages: &[u64], progress: Progress)
    requires knows { KnowsGrowth volume.old inode pages.now progress }
    ensures { EntersGrowth inode pages.now progress volume.old volume.new }
{
    match progress {
        Progress::Begun => volume.take_pages(pages),
        Progress::Filled => {}
        Progress::Owned => volume.put_pages(inode, pages),
    }
}

// Makes the next step of a growth over these new pages, to its fence, and takes it into the volume. It answers what is settled then,
// where the growth has a step left.
pub fn advance_growth<P: Pm>(
    growth: &Growth,
    progress: Progress,
    new_pages: &NewPages,
    bytes: &[u8],
    volume: &mut Volume,
    pm: &mut P,
) -> Result<Option<Progress>, PmFault>
    requires stands { StandsGrowth volume.old (P.view pm.old) growth.now bytes.now new_pages.now progress }
    requires begins { MayFence (P.view pm.old) (512 * volume.old.size)
        (step_of_growth volume.old.size growth.now bytes.now new_pages.now progress).events 1 }
    ensures takes { Takes (step_of_growth volume.old.size growth.now bytes.now new_pages.now progress) (P.view pm.old)
        (P.view pm.new) result }
    ensures next { IfOk result (λ next. next ≡ next_of_growth progress new_pages.now) }
    ensures volume { Advances (step_of_growth volume.old.size growth.now bytes.now new_pages.now progress).events
        (EntersGrowth growth.now.inode new_pages.now progress) volume.old volume.new result }
    ensures stands { IfOk result (λ next. StandsNextGrowth volume.new (P.view pm.new) growth.now bytes.now new_pages.now next) }
{
    let geometry = *volume.geometry();
    let events = progress.step_events(growth, new_pages);
    let old_pages = volume.pages(growth.inode);
    let pages = new_pages.as_slice();
    let made = grow_step(pm, &geometry, growth, progress, old_pages, pages, bytes);
    settle(volume, made, events)?;
    enter_growth(volume, growth.inode, pages, progress);
    Ok(progress.next(new_pages))
}

impl Progress {
    // How many fences a growth over these pages has left.
    pub fn fences_left(&self, new_pages: &NewPages) -> u64
        ensures { (volume_pages : ℕ) (growth : Grown) (bytes : List ℕ)
            → result ≡ fences_in (left_of_growth volume_pages growth bytes new_pages.now self.now) }
    {
        let owners = if new_pages.count() > 0 { 1 } else { 0 };
        match self {
            Progress::Begun => 2 + owners,
            Progress::Filled => 1 + owners,
            Progress::Owned => 1,
        }
    }

    // How many events the next step of a growth over these pages makes, at most.
    fn step_events(&self, growth: &Growth, new_pages: &NewPages) -> u64
        requires small { self.now ≡ Begins → growth.now.old_size ≤ 2 ^ 40 }
        requires countable { (volume_pages : ℕ) × (bytes : List ℕ)
            × (step_of_growth volume_pages growth.now bytes new_pages.now self.now).events < 2 ^ 64 }
        ensures { (volume_pages : ℕ) (bytes : List ℕ)
            → result ≡ (step_of_growth volume_pages growth.now bytes new_pages.now self.now).events }
    {
        match self {
            Progress::Begun => fill_events(growth, new_pages.count()),
            Progress::Filled => new_pages.count() * WORD_EVENTS + FENCE_EVENTS,
            Progress::Owned => COMMIT_EVENTS,
        }
    }

    // What is settled behind the next step of a growth over these pages, where it isn't the last: owners are given where there are pages.
    fn next(&self, new_pages: &NewPages) -> Option<Progress>
        ensures { result ≡ next_of_growth self.now new_pages.now }
    {
        match self {
            Progress::Begun => {
                if new_pages.count() > 0 {
                    Some(Progress::Filled)
                } else {
                    Some(Progress::Owned)
                }
            }
            Progress::Filled => Some(Progress::Owned),
            Progress::Owned => None,
        }
    }
}
