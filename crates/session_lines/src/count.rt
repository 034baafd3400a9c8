// How many lines a script in memory has.
ghost use Rattle.std.specs.Prelude.{◌≡◌, length};
ghost use Rattle.script.specs.Lines.{lines_of};

use script::first_line;

/// How many lines a script in memory has.
pub fn count_lines(script: &[u8]) -> u64
    ensures { result ≡ length (lines_of script.now) }
{
    let mut count = 0;
    let mut rest = script;
    'counting: while let Some((_, more)) = first_line(rest) {
        count += 1;
        rest = more;
    }
    count
}
