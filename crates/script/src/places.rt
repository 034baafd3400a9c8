ghost use Rattle.std.specs.Prelude.{MatchOption};
ghost use Rattle.script.specs.Places.{Lacks, BreaksAt};

use memchr::memchr;

// The first place at which a byte stands.
pub fn first_place(bytes: &[u8], wanted: u8) -> Option<usize>
    ensures { MatchOption result (Lacks wanted bytes.now) (BreaksAt wanted bytes.now) }
{
    memchr(wanted, bytes)
}
