// The first line of a script in memory.
ghost use Rattle.std.specs.Prelude.{◌≡◌, ◌<◌, [], ◌∷◌, length, IfSome, MatchOption};
ghost use Rattle.script.specs.Lines.{lines_of};

use crate::places::first_place;

/// The first line of a script, without its newline, and what comes behind it; none where nothing is left.
pub fn first_line(script: &[u8]) -> Option<(&[u8], &[u8])>
    ensures found { MatchOption result (lines_of script.now ≡ [])
        (λ found. lines_of script.now ≡ found.0.now ∷ lines_of found.1.now) }
    ensures shorter { IfSome result (λ found. length found.1.now < length script.now) }
{
    if script.is_empty() {
        return None;
    }
    match first_place(script, b'\n') {
        Some(end) => Some((&script[..end], &script[end + 1..])),
        None => Some((script, &script[script.len()..])),
    }
}
