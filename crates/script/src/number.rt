// A number in a word.
ghost use Rattle.std.specs.Prelude.{◌≡◌, ◌≤◌, IsTrue, length};
ghost use Rattle.std.specs.List.{list_all};
ghost use Rattle.script.specs.Lines.{number_of as number_of_word, decimal_value, is_decimal_digit};

// The most digits that a number has.
const MOST_DIGITS: usize = 20;

/// The number that a word spells: one to 20 decimal digits, of a value below 2^64.
pub fn number_of(word: &[u8]) -> Option<u64>
    ensures { result ≡ number_of_word word.now }
{
    if word.is_empty() || word.len() > MOST_DIGITS || !has_digits_alone(word) {
        return None;
    }
    let value = decimal_value_of(word);
    if value > u64::MAX as u128 {
        return None;
    }
    Some(value as u64)
}

fn has_digits_alone(word: &[u8]) -> bool
    ensures { result ≡ list_all is_decimal_digit word.now }
{
    word.iter().all(|byte| *byte >= b'0' && *byte <= b'9')
}

fn decimal_value_of(word: &[u8]) -> u128
    requires short { length word.now ≤ 20 }
    requires digits { IsTrue (list_all is_decimal_digit word.now) }
    ensures { result ≡ decimal_value word.now }
{
    let mut value = 0u128;
    for byte in word {
        value = 10 * value + (*byte - b'0') as u128;
    }
    value
}
