// The words that rows begin on.
use std::alloc::Global;
use std::test::Fail;
use worked_drivers::volumes::{LITTERED, volume_after, with_words};

/// The word that marks a volume as closed, and its values.
pub const MARK: usize = 5;

pub const CLOSED: u64 = 1;

pub const OPEN: u64 = 0;

/// What a script left of a fresh volume of so many pages, and words that are set in it then. A script's end closes the volume.
#[derive(Clone, Copy)]
pub struct Begin<'a> {
    pub pages: u64,
    pub script: &'a str,
    pub set: &'a [(usize, u64)],
}

/// A fresh volume of 16 pages.
pub const FRESH: Begin<'static> = Begin {
    pages: 16,
    script: "",
    set: &[],
};

/// A volume that a mount mends with 4 fences: `/a` becomes `/b`.
pub const MUCH_LITTER: Begin<'static> = Begin {
    script: "create /a\n",
    set: &LITTERED,
    ..FRESH
};

/// A volume that a mount mends with one fence: the links of `/a` are too many.
pub const LINKS_TOO_HIGH: Begin<'static> = Begin {
    script: "create /a\n",
    set: &[(MARK, OPEN), (529, 7)],
    ..FRESH
};

/// A volume that wasn't closed, with nothing to mend.
pub const NOT_CLOSED: Begin<'static> = Begin {
    script: "create /a\n",
    set: &[(MARK, OPEN)],
    ..FRESH
};

/// The words themselves.
pub fn words_of(alloc: Global, begin: Begin<'_>) -> Result<Vec<u64>, Fail> {
    let volume = volume_after(alloc, begin.pages, begin.script)?;
    with_words(alloc, volume.as_slice(), begin.set)
}

/// The words of 16 pages that are no volume: each is 7.
pub fn no_volume(alloc: Global) -> Result<Vec<u64>, Fail> {
    Ok(vec![in alloc; 7; 8_192]?)
}
