// The words of a file in memory, and which of their lines the file has still to be given.
ghost use Rattle.std.specs.Prelude.{◌≡◌, ◌+◌, ◌-◌, ◌*◌, ◌^◌, ◌<◌, ◌≤◌, ℕ, List, [], ◌∷◌, ◌++◌, length, slice_index, slice_set, vec_len, take, IfOk, OnOk, OnErr, true};
ghost use Rattle.std.specs.List.Sorted.{IsPermutation, IsStrictlyIncreasing};
ghost use Rattle.std.specs.Vec.{vec_capacity};
ghost use Rattle.std.proofs.lemmas.Map.Keys.{IsDistinct-prop};
ghost use Rattle.pm_file.specs.Faults.{CountsFaults};
ghost use Rattle.pm_file.specs.Given.{is_listed, IsEachOnce, IsRun, KeepsListed, HasLines, ReadsFrom};
ghost use Rattle.pm_file.specs.Room.{IsRoomFor};

use crate::FileFault;
use crate::medium::Medium;
use crate::sizes::{
    BYTES_OF_A_WORD, LINES_OF_A_PAGE, LINES_OF_A_RUN, PAGES_OF_A_READ, WORDS_OF_A_LINE,
    WORDS_OF_A_PAGE,
};
use layout::PAGE_BYTES;
use std::alloc::{AllocError, Global};
use std::io;

/// What a file's words take of memory.
#[derive(Drop)]
pub struct Room {
    pub words: Vec<u64>,
    pub rounds: Vec<u64>,
    pub flushed: Vec<u64>,
}

/// Takes the memory for the words of so many pages, of which none is there yet.
pub fn take_room(alloc: Global, pages: usize) -> Result<Room, AllocError>
    requires { 4096 * pages < 2 ^ 63 }
    ensures { IfOk result (IsRoomFor pages) }
{
    let lines = LINES_OF_A_PAGE * pages;
    Ok(Room {
        words: Vec::with_capacity(alloc, WORDS_OF_A_PAGE * pages)?,
        rounds: vec![in alloc; 0u64; lines]?,
        flushed: Vec::with_capacity(alloc, lines)?,
    })
}

/// Adds the words of so many pages from the start of a medium.
fn read_all<F: Medium>(medium: &mut F, words: &mut Vec<u64>, pages: usize) -> io::Result<()>
    requires settled { F.safe medium.old ≡ F.held medium.old }
    requires in_file { 4096 * pages < 2 ^ 63 }
    requires none { words.old.items ≡ [] }
    requires room { 512 * pages ≤ vec_capacity words.old }
    ensures length { OnOk result (length words.new.items ≡ 512 * pages) }
    ensures read { OnOk result (ReadsFrom (F.safe medium.old) 0 (512 * pages) words.new.items) }
    ensures safe { F.safe medium.new ≡ F.safe medium.old }
    ensures held { F.held medium.new ≡ F.held medium.old }
{
    let mut done = 0;
    while done < pages {
        let count = (pages - done).min(PAGES_OF_A_READ);
        medium.read_pages(done as u64, count, words)?;
        done += count;
    }
    Ok(())
}

/// How many lines at the front go to a medium in one write: each is the one after the line before it, and there are at
/// most 512 of them.
fn next_run(lines: &[u64]) -> usize
    requires any { 0 < length lines.now }
    requires in_range { 64 * slice_index lines.now 0 < 2 ^ 63 }
    ensures any { 0 < result }
    ensures within { result ≤ length lines.now }
    ensures most { result ≤ 512 }
    ensures run { IsRun (take result lines.now) (slice_index lines.now 0) }
    ensures longest { result < length lines.now → result < 512 → ¬ IsRun (take (result + 1) lines.now) (slice_index lines.now 0) }
{
    let most = lines.len().min(LINES_OF_A_RUN);
    for count in 1..most {
        if lines[count] != lines[0] + count as u64 {
            return count;
        }
    }
    most
}

/// Gives a medium each of the listed lines, in the order of their addresses, and those that follow one another in one write.
fn write_lines<F: Medium>(medium: &mut F, words: &[u64], lines: &[u64]) -> io::Result<()>
    requires rising { IsStrictlyIncreasing lines.now }
    requires in_file { 8 * length words.now < 2 ^ 63 }
    requires in_range { (k : ℕ) → k < length lines.now → 8 * slice_index lines.now k + 8 ≤ length words.now }
    ensures lines { OnOk result (HasLines (F.held medium.old) (F.held medium.new) words.now lines.now) }
    ensures faults { CountsFaults (F.faults medium.old) (F.faults medium.new) result }
{
    let mut done = 0;
    while done < lines.len() {
        let line = lines[done];
        let count = next_run(&lines[done..]);
        let first = line as usize * WORDS_OF_A_LINE;
        medium.write_run(line, &words[first..first + count * WORDS_OF_A_LINE])?;
        done += count;
    }
    Ok(())
}

/// Adds a line where there is room for it.
fn note(flushed: &mut Vec<u64>, line: u64)
    requires { vec_len flushed.old < vec_capacity flushed.old }
    ensures items { flushed.new.items ≡ flushed.old.items ++ line ∷ [] }
    ensures capacity { vec_capacity flushed.old ≤ vec_capacity flushed.new }
{
    let _ = flushed.push(line);
}

/// Brings the last line to the front where it is below the first: a page's descriptor is flushed behind the page, and stands before it.
fn bring_to_front(lines: &mut [u64])
    ensures { IsPermutation lines.old lines.new }
{
    let count = lines.len();
    if 1 < count && lines[count - 1] < lines[0] {
        lines.rotate_right(1);
    }
}

/// The words of a medium. A round ends each time that the flushed lines were written and are safe there.
#[derive(Drop)]
pub struct Mirror<F> {
    medium: F,
    words: Vec<u64>,
    /// For each line the last round in which it was flushed, or 0.
    rounds: Vec<u64>,
    /// The lines that were flushed in this round, each once, in any order.
    flushed: Vec<u64>,
    round: u64,
    ghost whole_lines: { length words.items ≡ 8 * length rounds.items },
    ghost in_file: { 8 * length words.items < 2 ^ 63 },
    ghost started: { 1 ≤ round },
    ghost past: { (line : ℕ) → slice_index rounds.items line ≤ round },
    ghost in_range: { (k : ℕ) → k < length flushed.items → slice_index flushed.items k < length rounds.items },
    ghost room: { length rounds.items ≤ vec_capacity flushed },
    ghost noted: { (line : ℕ) → slice_index rounds.items line ≡ round → is_listed flushed.items line ≡ true },
    ghost only: { (line : ℕ) → is_listed flushed.items line ≡ true → slice_index rounds.items line ≡ round },
    ghost once: { IsEachOnce flushed.items } by { IsDistinct-prop _ flushed.items },
}

impl<F: Medium + Drop> Mirror<F> {
    /// Reads the words of so many pages from the start of a medium, for which there is room. What the medium was given
    /// before is made safe first, so that no crash takes what was read.
    pub fn read_from(mut medium: F, room: Room, pages: usize) -> Result<Mirror<F>, FileFault>
        requires in_file { 4096 * pages < 2 ^ 63 }
        requires room { IsRoomFor pages room }
        ensures length { IfOk result (λ mirror. length mirror.words.items ≡ 512 * pages) }
        ensures held { IfOk result (λ mirror. F.held mirror.medium ≡ F.held medium) }
        ensures safe { IfOk result (λ mirror. F.safe mirror.medium ≡ F.held medium) }
        ensures read { IfOk result (λ mirror. ReadsFrom (F.safe mirror.medium) 0 (512 * pages) mirror.words.items) }
    {
        let Room {
            mut words,
            rounds,
            flushed,
        } = room;
        medium.sync(PAGE_BYTES * pages as u64)?;
        read_all(&mut medium, &mut words, pages)?;
        Ok(Mirror {
            medium,
            words,
            rounds,
            flushed,
            round: 1,
        })
    }

    /// A mirror of no words over a medium. It takes no memory.
    pub fn none(alloc: Global, medium: F) -> Mirror<F>
        ensures words { result.words.items ≡ [] }
        ensures medium { result.medium ≡ medium }
    {
        Mirror {
            medium,
            words: Vec::new(alloc),
            rounds: Vec::new(alloc),
            flushed: Vec::new(alloc),
            round: 1,
        }
    }

    /// The words as they read.
    pub fn words(&self) -> &[u64]
        ensures { result.now ≡ self.now.words.items }
    {
        &self.words
    }

    /// Gives a word a value.
    pub fn set(&mut self, word: u64, value: u64)
        requires { word < length self.old.words.items }
        ensures words { self.new.words.items ≡ slice_set self.old.words.items word value }
        ensures medium { self.new.medium ≡ self.old.medium }
        ensures flushed { self.new.flushed.items ≡ self.old.flushed.items }
    {
        self.words[word as usize] = value;
    }

    /// Notes that a line was flushed. It takes no memory.
    pub fn flush(&mut self, line: u64)
        requires { 8 * line < length self.old.words.items }
        ensures words { self.new.words.items ≡ self.old.words.items }
        ensures medium { self.new.medium ≡ self.old.medium }
        ensures noted { is_listed self.new.flushed.items line ≡ true }
        ensures kept { KeepsListed self.old.flushed.items self.new.flushed.items }
    {
        if self.rounds[line as usize] < self.round {
            self.rounds[line as usize] = self.round;
            note(&mut self.flushed, line);
        }
    }

    /// Puts the flushed lines in the order of their addresses, in place.
    fn sort_flushed(&mut self)
        ensures words { self.new.words.items ≡ self.old.words.items }
        ensures medium { self.new.medium ≡ self.old.medium }
        ensures round { self.new.round ≡ self.old.round }
        ensures same { IsPermutation self.old.flushed.items self.new.flushed.items }
        ensures rising { IsStrictlyIncreasing self.new.flushed.items }
    {
        bring_to_front(&mut self.flushed);
        self.flushed.sort_unstable();
    }

    /// Writes the flushed lines to the medium and waits until they are safe there. Where that fails the same lines are
    /// noted still, in any order.
    pub fn write_back(&mut self) -> io::Result<()>
        ensures words { self.new.words.items ≡ self.old.words.items }
        ensures ok { OnOk result
            (HasLines (F.held self.old.medium) (F.safe self.new.medium) self.old.words.items self.old.flushed.items) }
        ensures forgotten { OnOk result (self.old.round < 2 ^ 64 - 1 → self.new.flushed.items ≡ []) }
        ensures err { OnErr result (IsPermutation self.old.flushed.items self.new.flushed.items) }
        ensures whole { OnOk result (F.is_length self.new.medium (8 * length self.new.words.items)) }
        ensures faults { CountsFaults (F.faults self.old.medium) (F.faults self.new.medium) result }
    {
        self.sort_flushed();
        write_lines(&mut self.medium, &self.words, &self.flushed)?;
        let bytes = BYTES_OF_A_WORD * self.words.len();
        self.medium.sync(bytes as u64)?;
        self.end_round();
        Ok(())
    }

    #[tactic(auto, using(crate::proofs::Rounds::none_once))]
    /// Forgets the flushed lines. In the last round that there can be they stay, to be written again.
    fn end_round(&mut self)
        ensures words { self.new.words.items ≡ self.old.words.items }
        ensures medium { self.new.medium ≡ self.old.medium }
        ensures forgotten { self.old.round < 2 ^ 64 - 1 → self.new.flushed.items ≡ [] }
    {
        if self.round < u64::MAX {
            self.flushed.clear();
            self.round += 1;
        }
    }
}

#[cfg(test)]
mod tests;
