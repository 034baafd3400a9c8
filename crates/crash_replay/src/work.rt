// The script of a workload, generated as it is read.
ghost use Rattle.std.specs.Prelude.{◌≡◌, ◌<◌, ◌≤◌, Some, IsOk};
ghost use Rattle.arrayvec.specs.ArrayVec.{array_vec_len};
ghost use Rattle.io_edge.specs.Bytes.{Reads};
ghost use Rattle.crash_replay.specs.Work.{work_script};

use crate::work_line::{Line, line_of, next_draw, push_text};
use arrayvec::ArrayVec;
use io_edge::{ReadFault, Source};
use rand_pcg::Lcg64Xsh32;

/// A source of the script that a seed generates. It makes each line when it comes to it, takes no memory, and never fails.
///
/// Four lines `mkdir /d0` to `mkdir /d3` come first. Each line behind them is made of three words a, b and c of the PCG
/// generator of the seed, of 64 bits of state, on stream 1. D(x) is `/d` and x mod 4, and F(x) is D(x), `/f` and
/// (x / 4) mod 16. By a mod 12 the line is
///
/// - 0 or 1: `create F(b)`,
/// - 2: `mkdir D(b)`,
/// - 3: `link F(b) F(c)`,
/// - 4: `unlink F(b)`,
/// - 5: `rmdir D(b)`,
/// - 6: `rename F(b) F(c)`,
/// - 7: `rename D(b) D(c)`,
/// - 8 or 9: `write F(b)`, the offset c mod 8192, and 1 + (a / 12) mod 64 bytes, each (c / 8192) mod 256,
/// - 10: `truncate F(b)`, and the size c mod 10000,
/// - 11: `read F(b) 0 64`.
#[derive(Drop)]
pub struct Work {
    generator: Lcg64Xsh32,
    // How many lines are still to come behind the present one.
    to_come: u64,
    // The present line, of which so many bytes were given; at first the four lines that make directories.
    line: Line,
    at: usize,
    ghost in_range: { at ≤ array_vec_len line },
}

impl Work {
    ghost use Rattle.crash_replay.specs.WorkLeft.{left_of};

    /// The script of a seed: the four lines that make directories, and `count` more.
    pub fn new(seed: u64, count: u64) -> Work
        ensures { ⟦<Work as Source>⟧.left result ≡ Some (work_script seed count) }
    {
        let mut line = ArrayVec::new();
        push_text(&mut line, b"mkdir /d0\nmkdir /d1\nmkdir /d2\nmkdir /d3\n");
        Work {
            generator: Lcg64Xsh32::new(seed, 1),
            to_come: count,
            line,
            at: 0,
        }
    }

    // Makes the next line, where the present one was given whole.
    fn next_line(&mut self)
        requires given { self.old.at ≡ array_vec_len self.old.line }
        requires some { 0 < self.old.to_come }
        ensures left { left_of self.new ≡ left_of self.old }
        ensures filled { self.new.at < array_vec_len self.new.line }
    {
        let draw = next_draw(&mut self.generator);
        self.line = line_of(&draw);
        self.at = 0;
        self.to_come -= 1;
    }

    // Makes the next line where the present one was given whole and another is to come.
    fn make_line(&mut self)
        ensures left { left_of self.new ≡ left_of self.old }
        ensures filled { self.new.at ≡ array_vec_len self.new.line → self.new.to_come ≡ 0 }
    {
        if self.at == self.line.len() && self.to_come > 0 {
            self.next_line();
        }
    }
}

impl Source for Work {
    ghost use Rattle.crash_replay.specs.WorkLeft.{left_of};

    ghost left = { λ work. Some (left_of work) };

    ghost faults = { λ _. 0 };

    /// Gives the rest of the present line, or of the next one where none is left of it, as far as the buffer goes.
    fn read(&mut self, buf: &mut [u8]) -> Result<usize, ReadFault>
        ensures gives { Reads (Some (left_of self.old)) (Some (left_of self.new)) 0 0 buf.new result }
        ensures never_fails { IsOk result }
    {
        self.make_line();
        let rest = &self.line[self.at..];
        let count = buf.len().min(rest.len());
        buf[..count].copy_from_slice(&rest[..count]);
        self.at += count;
        Ok(count)
    }
}
