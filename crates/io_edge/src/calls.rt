// Which calls fail, by their numbers.
ghost use Rattle.std.specs.Prelude.{◌+◌, ◌↔◌, IsTrue, Contains};

/// Whether the call after so many is listed. No call past the end of the count is.
pub fn is_next_listed(failing: &[u64], made: u64) -> bool
    ensures { IsTrue result ↔ Contains failing.now (made + 1) }
{
    match made.checked_add(1) {
        Some(call) => failing.contains(&call),
        None => false,
    }
}
