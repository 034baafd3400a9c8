// Which crash is replayed.
ghost use Rattle.std.specs.Prelude.{◌<◌, length};

use crash_replay::Moment;

/// A crash in a run, and maybe a second one in the mount after it.
#[derive(Clone, Copy)]
pub struct ChosenCrash<'a, 'b> {
    /// When it comes.
    pub moment: Moment,
    /// The bytes that choose, one a word and from the first again behind the last, what each word is that the crash leaves open.
    pub keep: &'a [u8],
    /// The second crash.
    pub again: Option<SecondCrash<'b>>,
    pub ghost some: { 0 < length keep.now },
}

/// A crash in the mount after a crash.
#[derive(Clone, Copy)]
pub struct SecondCrash<'a> {
    /// Behind so many events of the mount, or at its end where there are fewer.
    pub at: u64,
    /// The bytes that choose, as those of the first crash.
    pub keep: &'a [u8],
    pub ghost some: { 0 < length keep.now },
}
