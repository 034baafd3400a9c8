// Where the words come from and go to.
ghost use Rattle.std.specs.Prelude.{◌≡◌, ◌+◌, ◌*◌, ◌^◌, ◌<◌, ◌≤◌, ℕ, List, Option, length, OnOk, vec_len};
ghost use Rattle.std.specs.Vec.{vec_capacity};
ghost use Rattle.pm_file.specs.Faults.{CountsFaults};
ghost use Rattle.pm_file.specs.Given.{AppendsRead, HasRun};

use std::io;

/// A medium of words, which is read by pages and written by runs of lines.
pub trait Medium {
    /// The words as a read finds them, where it tells them.
    ghost held: { Self → Option (List ℕ) };

    /// The words that no crash takes from it, where it tells them.
    ghost safe: { Self → Option (List ℕ) };

    /// How many of its calls failed, as far as that can be counted.
    ghost faults: { Self → ℕ };

    /// It has so many bytes, which only its own answer gives.
    ghost is_length: { Self → ℕ → Type 0 };

    /// Appends the words of so many pages, at most 256, from a page on, where there is room for them. They are settled:
    /// no crash takes them from the medium.
    fn read_pages(&mut self, page: u64, count: usize, words: &mut Vec<u64>) -> io::Result<()>
        requires settled { safe self.old ≡ held self.old }
        requires most { count ≤ 256 }
        requires in_file { 4096 * (page + count) < 2 ^ 63 }
        requires room { vec_len words.old + 512 * count ≤ vec_capacity words.old }
        ensures ok { OnOk result
            (AppendsRead (held self.old) (512 * page) (512 * count) words.old.items words.new.items) }
        ensures capacity { vec_capacity words.old ≤ vec_capacity words.new }
        ensures held { held self.new ≡ held self.old }
        ensures safe { safe self.new ≡ safe self.old }
        ensures faults { CountsFaults (faults self.old) (faults self.new) result };

    /// Writes words from a line on, at most those of 512 lines.
    fn write_run(&mut self, line: u64, words: &[u64]) -> io::Result<()>
        requires most { length words.now ≤ 8 * 512 }
        requires in_range { 64 * line < 2 ^ 63 }
        ensures run { OnOk result (HasRun (held self.old) (held self.new) line words.now) }
        ensures faults { CountsFaults (faults self.old) (faults self.new) result };

    /// Waits until what was written is safe. It fails where the medium hasn't just so many bytes by then.
    fn sync(&mut self, bytes: u64) -> io::Result<()>
        ensures held { held self.new ≡ held self.old }
        ensures ok { OnOk result (safe self.new ≡ held self.old) }
        ensures whole { OnOk result (is_length self.new bytes) }
        ensures faults { CountsFaults (faults self.old) (faults self.new) result };
}
