ghost use Rattle.std.specs.Prelude.{◌≡◌, ◌<◌, ◌≤◌, ◌+◌, ◌-◌, ◌^◌, [], length, take, drop, vec_len, IsTrue, true, false, IsOk, IfOk, OnErr, IfSome, IfNone, MatchOption, Contains, nat_le, min, if◌then◌else◌};
ghost use Rattle.script.specs.declared.lines.TheConstants.{CAPACITY, SCRIPT_LIMIT};

use crate::places::first_place;
use io_edge::{ReadFault, Source};
use pm_trait::NoMemory;
use std::alloc::Global;

/// The longest line, in bytes without its newline.
pub const LONGEST_LINE: usize = 65_536;

/// The most bytes that are read of a script.
pub const SCRIPT_LIMIT: u64 = 1 << 32;

// The least room that a read is given, but at the limit.
const READ_SIZE: usize = 4_096;

const CAPACITY: usize = LONGEST_LINE + READ_SIZE;

/// What reading on to the next line came to.
#[derive(Clone, Copy, Debug, PartialEq, Eq)]
pub enum Step {
    /// A line stands in `line`.
    Line,
    /// A line of more bytes than `LONGEST_LINE` was passed over to its end.
    TooLong,
    /// The input has ended.
    End,
    /// `SCRIPT_LIMIT` bytes were read, and no further line ends among them.
    Limit,
}

// What a read found.
enum Found {
    Limit,
    End,
    Newline(usize),
    Nothing,
}

/// The lines of a source, each borrowed from a buffer that is made once.
#[derive(Drop)]
pub struct Lines {
    buffer: Vec<u8>,
    // Where the last line begins and ends.
    line_start: usize,
    line_end: usize,
    // Where the bytes that were read and not given begin and end.
    start: usize,
    end: usize,
    read: u64,
    // Whether a read gave none. Nothing is read from then on.
    ended: bool,
    ghost whole: { vec_len buffer ≡ CAPACITY },
    ghost line_in_order: { line_start ≤ line_end },
    ghost line_inside: { line_end ≤ CAPACITY },
    ghost in_order: { start ≤ end },
    ghost inside: { end ≤ CAPACITY },
    ghost within_limit: { read ≤ SCRIPT_LIMIT },
    ghost ended_below: { IsTrue ended → read < SCRIPT_LIMIT },
    ghost ended_empty: { IsTrue ended → start ≡ end },
    ghost were_read: { end - start ≤ read },
}

impl Lines {
    ghost use Rattle.io_edge.specs.Bytes.{IsEnd};
    ghost use Rattle.script.specs.Lines.{newline, line_limit, script_limit, IsUnbroken};
    ghost use Rattle.script.specs.Places.{BreaksAt};
    ghost use Rattle.script.specs.Reader.{pending, current, read_count, given_count, has_ended, IsUnread};
    ghost use Rattle.script.specs.Reading.{rest_of, IfTold, ReadPrefix, ReadsOnto, ReadsOn, IsFound};
    ghost use Rattle.script.specs.Stepping.{StepsTo, CountsStep, IsBegun, TakesAt, TakesLast, DropsAll, Keeps, CountsRead, CountsPiece};

    /// Nothing is read yet. All the memory is taken here.
    pub fn new(alloc: Global) -> Result<Lines, NoMemory>
        ensures { IfOk result IsUnread }
    {
        let buffer = vec![in alloc; 0; CAPACITY].map_err(|_| NoMemory)?;
        Ok(Lines {
            buffer,
            line_start: 0,
            line_end: 0,
            start: 0,
            end: 0,
            read: 0,
            ended: false,
        })
    }

    /// Goes on to the next line. A line that was read already is given before anything is read, and each read is given
    /// room for at least 4,096 bytes, or what is left of the limit. After an `Err` a further step may begin inside the line
    /// that was begun.
    ///
    /// Once the end of the input was seen, the source has to be one with none left.
    pub fn next<S: Source>(&mut self, source: &mut S) -> Result<Step, ReadFault>
        requires { IsTrue (has_ended self.old) → IsEnd (S.left source.old) }
        ensures step { StepsTo (rest_of (pending self.old) (S.left source.old)) (S.left source.new) self.new result }
        ensures counted { IfTold (S.left source.old) (S.left source.new)
            (ReadPrefix (read_count self.old) (read_count self.new)) }
        ensures counts { CountsStep (S.left source.new)
            (S.faults source.old) (S.faults source.new) self.old self.new result }
        ensures line_ready { Contains (pending self.old) newline → IsOk result × (source.new ≡ source.old) }
        ensures end_seen { IsTrue (has_ended self.old) → (result ≡ Ok Step.End) × (source.new ≡ source.old) }
    {
        match self.newline_behind(0) {
            Some(place) => Ok(self.take_line(place)),
            None if self.ended => Ok(Step::End),
            None => self.read_line(source),
        }
    }

    /// The line that was given last.
    pub fn line(&self) -> &[u8]
        ensures { result.now ≡ current self.now }
    {
        &self.buffer[self.line_start..self.line_end]
    }

    // Takes the line before this place, and the newline there, off the bytes that were read.
    fn take_line(&mut self, place: usize) -> Step
        requires { place < length (pending self.old) }
        ensures { TakesAt place self.old self.new result }
    {
        self.line_start = self.start;
        self.line_end = self.start + place;
        self.start = self.line_end + 1;
        if place <= LONGEST_LINE {
            Step::Line
        } else {
            Step::TooLong
        }
    }

    // Takes all the bytes that were read as the last line, if there are any: the input has ended.
    fn take_last(&mut self) -> Step
        requires { read_count self.old < script_limit }
        ensures { TakesLast self.old self.new result }
    {
        self.line_start = self.start;
        self.line_end = self.end;
        self.start = self.end;
        self.ended = true;
        if self.line_start < self.line_end {
            Step::Line
        } else {
            Step::End
        }
    }

    // Drops the bytes that were read.
    fn drop_pending(&mut self)
        ensures { DropsAll self.old self.new }
    {
        self.start = self.end;
    }

    // Moves the bytes that were read to the buffer's start, where too little room is behind them.
    fn make_room(&mut self)
        requires { length (pending self.old) ≤ line_limit }
        ensures keeps { Keeps self.old self.new }
        ensures room { self.new.end + READ_SIZE ≤ CAPACITY }
    {
        if self.end > CAPACITY - READ_SIZE {
            self.buffer.copy_within(self.start..self.end, 0);
            self.end -= self.start;
            self.start = 0;
        }
    }

    // How many bytes are asked of the next read: at least `READ_SIZE`, or all that the limit leaves.
    fn room(&self) -> usize
        requires room { self.now.end + READ_SIZE ≤ CAPACITY }
        ensures count { result ≡ min (CAPACITY - self.now.end) (script_limit - read_count self.now) }
    {
        let left = SCRIPT_LIMIT - self.read;
        (CAPACITY - self.end).min(left as usize)
    }

    // Reads once, behind the bytes that were read.
    fn read_more<S: Source>(&mut self, source: &mut S) -> Result<usize, ReadFault>
        requires room { length (pending self.old) ≤ line_limit }
        requires below { read_count self.old < script_limit }
        requires unended { has_ended self.old ≡ false }
        ensures behind { IfOk result (λ count.
            ReadsOnto count (S.left source.old) (pending self.old) (S.left source.new) (pending self.new)) }
        ensures err { OnErr result (pending self.new ≡ pending self.old) }
        ensures counts { CountsRead (S.left source.old) (S.left source.new) (S.faults source.old) (S.faults source.new)
            self.old self.new result }
    {
        self.make_room();
        let room = self.room();
        let end = self.end;
        match source.read(&mut self.buffer[end..end + room]) {
            Ok(count) => {
                self.end += count;
                self.read += count as u64;
                Ok(count)
            }
            Err(fault) => Err(fault),
        }
    }

    // Where the first newline is among the bytes that were read, if none is among the first ones.
    fn newline_behind(&self, known: usize) -> Option<usize>
        requires within { known ≤ length (pending self.now) }
        requires unbroken { IsUnbroken (take known (pending self.now)) }
        ensures place { MatchOption result (IsUnbroken (pending self.now)) (BreaksAt newline (pending self.now)) }
    {
        match first_place(&self.buffer[self.start + known..self.end], b'\n') {
            Some(place) => Some(known + place),
            None => None,
        }
    }

    // Reads once, unless the limit is reached, and looks for a newline in what came.
    fn read_piece<S: Source>(&mut self, source: &mut S) -> Result<Found, ReadFault>
        requires room { length (pending self.old) ≤ line_limit }
        requires begun { IsBegun self.old }
        ensures reads { ReadsOn (S.left source.old) (pending self.old) (read_count self.old)
            (S.left source.new) (pending self.new) (read_count self.new) }
        ensures found { IfOk result (λ found.
            IsFound found (S.left source.new) (pending self.old) (pending self.new)
            (read_count self.old) (read_count self.new)) }
        ensures counts { CountsPiece (S.faults source.old) (S.faults source.new) self.old self.new result }
    {
        if self.read == SCRIPT_LIMIT {
            return Ok(Found::Limit);
        }
        let known = self.end - self.start;
        match self.read_more(source) {
            Ok(0) => Ok(Found::End),
            Ok(_) => match self.newline_behind(known) {
                Some(place) => Ok(Found::Newline(place)),
                None => Ok(Found::Nothing),
            },
            Err(fault) => Err(fault),
        }
    }

    // Reads on to the end of the line that was begun.
    fn read_line<S: Source>(&mut self, source: &mut S) -> Result<Step, ReadFault>
        requires { IsBegun self.old }
        ensures step { StepsTo (rest_of (pending self.old) (S.left source.old)) (S.left source.new) self.new result }
        ensures counted { IfTold (S.left source.old) (S.left source.new)
            (ReadPrefix (read_count self.old) (read_count self.new)) }
        ensures counts { CountsStep (S.left source.new)
            (S.faults source.old) (S.faults source.new) self.old self.new result }
    {
        'reading: while self.end - self.start <= LONGEST_LINE {
            match self.read_piece(source) {
                Ok(Found::Nothing) => {}
                Ok(Found::Newline(place)) => return Ok(self.take_line(place)),
                Ok(Found::End) => return Ok(self.take_last()),
                Ok(Found::Limit) => return Ok(Step::Limit),
                Err(fault) => return Err(fault),
            }
        }
        self.skip_line(source)
    }

    // Reads on to the end of a line that is over the limit.
    fn skip_line<S: Source>(&mut self, source: &mut S) -> Result<Step, ReadFault>
        requires begun { IsBegun self.old }
        requires long { line_limit < length (pending self.old) }
        ensures step { StepsTo (rest_of (pending self.old) (S.left source.old)) (S.left source.new) self.new result }
        ensures counted { IfTold (S.left source.old) (S.left source.new)
            (ReadPrefix (read_count self.old) (read_count self.new)) }
        ensures counts { CountsStep (S.left source.new)
            (S.faults source.old) (S.faults source.new) self.old self.new result }
    {
        self.drop_pending();
        'skipping: loop {
            match self.read_piece(source) {
                Ok(Found::Nothing) => self.drop_pending(),
                Ok(Found::Newline(place)) => {
                    self.take_line(place);
                    return Ok(Step::TooLong);
                }
                Ok(Found::End) => {
                    self.take_last();
                    return Ok(Step::TooLong);
                }
                Ok(Found::Limit) => return Ok(Step::Limit),
                Err(fault) => return Err(fault),
            }
        }
    }
}
