// What sessions have left of a script.
ghost use Rattle.std.specs.Prelude.{◌≡◌, ◌<◌, ◌≤◌, length, true, IfOk, Some};
ghost use Rattle.script.specs.Calls.{line_of_call};
ghost use Rattle.script.specs.Lines.{call_of};
ghost use Rattle.script.specs.SessionLines.{session_calls};
ghost use Rattle.session_lines.specs.Places.{AreLines, IsNextFrom};
ghost use Rattle.session_lines.specs.Turns.{next_line, without_next, has_line, turn_from, has_change, is_change};

use pm_trait::NoMemory;
use script::{Call, SessionLine, first_line};
use std::alloc::Global;
use std::marker::Model;
use tree_model::Command;

/// The lines that sessions have left of a script, which they borrow.
#[derive(Drop)]
pub struct LinesLeft<'a> {
    // All lines of the script.
    lines: Vec<SessionLine<'a>>,
    // For each session where its next line is among them, or their number.
    next: Vec<usize>,
}

impl<'a> Model for LinesLeft<'a> {
    ghost use Rattle.std.specs.Prelude.{vec_len};
    ghost use Rattle.session_lines.specs.Places.{left_from, AreLeft};
    ghost use Rattle.session_lines.specs.Turns.{LeftView};

    ghost Value = { LeftView };

    ghost view = { λ left. record { sessions = vec_len left.next; lines = left_from left.next.items 0 left.lines.items } };

    ghost invariant = { λ left. AreLeft left.lines.items left.next.items };
}

impl<'a> LinesLeft<'a> {
    /// All lines of a script, of so many sessions. All the memory is taken here.
    pub fn of(alloc: Global, script: &'a [u8], sessions: u64) -> Result<LinesLeft<'a>, NoMemory>
        requires some { 0 < sessions }
        ensures { IfOk result (λ left. (left.sessions ≡ sessions) × (left.lines ≡ session_calls sessions script.now)) }
    {
        let lines = all_lines(alloc, script, sessions)?;
        let mut next = Vec::with_capacity(alloc, sessions as usize).map_err(|_| NoMemory)?;
        'sessions: for session in 0..sessions {
            next.push(next_of(lines.as_slice(), 0, session))
                .map_err(|_| NoMemory)?;
        }
        Ok(LinesLeft { lines, next })
    }

    /// Whether one of the lines asks for a change. `scratch`, of at least 32,768 bytes, is where the bytes of a line are decoded.
    pub fn has_change(&self, scratch: &mut [u8]) -> bool
        requires scratch { 32768 ≤ length scratch.old }
        ensures { result ≡ has_change self.now.lines }
    {
        'lines: for (place, line) in self.lines.iter().enumerate() {
            if self.next[line.session as usize] <= place
                && changes(&Call::parse(line.text, scratch))
            {
                return true;
            }
        }
        false
    }

    /// The session whose turn it is by this byte of a schedule: that of its number, or the next one round that has a line left.
    pub fn turn(&self, byte: u8) -> Option<u64>
        ensures { result ≡ turn_from self.now byte }
    {
        let sessions = self.next.len() as u64;
        'turns: for step in 0..sessions {
            let session = (byte as u64 + step) % sessions;
            if self.next[session as usize] < self.lines.len() {
                return Some(session);
            }
        }
        None
    }

    /// The next line of a session that has one left.
    pub fn line(&self, session: u64) -> &'a [u8]
        requires some { has_line self.now.lines session ≡ true }
        ensures { next_line self.now.lines session ≡ Some (call_of result.now) }
    {
        let place = self.next[session as usize];
        self.lines[place].text
    }

    /// Takes the next line of a session off.
    pub fn pass(&mut self, session: u64)
        requires some { has_line self.old.lines session ≡ true }
        ensures sessions { self.new.sessions ≡ self.old.sessions }
        ensures lines { self.new.lines ≡ without_next self.old.lines session }
    {
        let behind = self.next[session as usize] + 1;
        self.next[session as usize] = next_of(self.lines.as_slice(), behind, session);
    }
}

// The lines of a script, of so many sessions.
fn all_lines<'a>(
    alloc: Global,
    script: &'a [u8],
    sessions: u64,
) -> Result<Vec<SessionLine<'a>>, NoMemory>
    requires some { 0 < sessions }
    ensures { IfOk result (λ lines. AreLines lines.items script.now sessions) }
{
    let mut lines = Vec::new(alloc);
    let mut rest = script;
    'reading: while let Some((line, more)) = first_line(rest) {
        lines
            .push(SessionLine::parse(line, sessions))
            .map_err(|_| NoMemory)?;
        rest = more;
    }
    Ok(lines)
}

// Where the session's first line stands, from this place on; or the number of lines where it has none.
fn next_of(lines: &[SessionLine<'_>], start: usize, session: u64) -> usize
    requires within { start ≤ length lines.now }
    ensures { IsNextFrom lines.now start session result }
{
    'places: for place in start..lines.len() {
        if lines[place].session == session {
            return place;
        }
    }
    lines.len()
}

// Whether a call is a command that changes.
fn changes(call: &Call) -> bool
    ensures { result ≡ is_change (line_of_call call.now) }
{
    match call {
        Call::Refused(_) => false,
        Call::Do(command) => match command {
            Command::Create { .. }
            | Command::Mkdir { .. }
            | Command::Link { .. }
            | Command::Unlink { .. }
            | Command::Rmdir { .. }
            | Command::Rename { .. }
            | Command::Write { .. }
            | Command::Truncate { .. } => true,
            Command::Read { .. } | Command::Stat { .. } | Command::List { .. } | Command::Df => {
                false
            }
        },
    }
}
