// A line of a script of many sessions.
ghost use Rattle.std.specs.Prelude.{◌≡◌, ◌<◌, ◌≤◌, ◌∷◌, ℕ, List, length, MatchOption};
ghost use Rattle.script.specs.Lines.{call_of, words_of};
ghost use Rattle.script.specs.SessionLines.{session_call, of_session_words};

use crate::lines::LONGEST_LINE;
use crate::number::number_of;
use crate::words::next_word;

/// A line of a script of many sessions: whose it is, and the text of what it asks for.
#[derive(Clone, Copy)]
pub struct SessionLine<'a> {
    /// The session, from 0 on.
    pub session: u64,
    /// A line as one session alone has it.
    pub text: &'a [u8],
}

impl<'a> SessionLine<'a> {
    /// Reads a line of so many sessions: blanks, the number of one of them, and what is asked of it. A line that is too long, or has no such
    /// number, is one of session 0 with no text, which is no command.
    pub fn parse(line: &'a [u8], sessions: u64) -> SessionLine<'a>
        requires some { 0 < sessions }
        ensures call { session_call sessions line.now ≡ (result.session, call_of result.text.now) }
        ensures below { result.session < sessions }
    {
        let empty = SessionLine {
            session: 0,
            text: &line[line.len()..],
        };
        if line.len() > LONGEST_LINE {
            return empty;
        }
        let Some((word, text)) = next_word(line) else {
            return empty;
        };
        match number_of(word) {
            Some(session) if session < sessions => SessionLine { session, text },
            Some(_) | None => empty,
        }
    }
}
