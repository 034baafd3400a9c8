// Hexadecimal digits, as the crate `hex` reads and writes them. The loops have no branches, so that the compiler makes
// them ones over sixteen digits at once: docs/decisions.md has the figures.
ghost use Rattle.std.specs.Prelude.{◌≡◌, ◌<◌, ◌*◌, ◌/◌, length, Some, None, IfSome, slice_index, if◌then◌else◌};
ghost use Rattle.hex.specs.Hex.{decode_of, encode_lower, hex_digit_value, is_hex_digit, lower_digits};
ghost use Rattle.script.specs.Lines.{if_decoded};

/// Decodes a text of two hexadecimal digits, of either case, for each byte, and tells whether it is one. Where it is none,
/// the bytes are unspecified.
pub fn decode(text: &[u8], bytes: &mut [u8]) -> bool
    requires room { length bytes.old ≡ length text.now / 2 }
    ensures { if_decoded (decode_of text.now) ≡ (if result then Some bytes.new else None) }
{
    if text.len() % 2 != 0 {
        return false;
    }
    let mut valid = true;
    'pairs: for i in 0..bytes.len() {
        let high = text[2 * i];
        let low = text[2 * i + 1];
        valid = valid & is_digit(high) & is_digit(low);
        bytes[i] = value_of(high) * 16 + value_of(low);
    }
    valid
}

fn is_digit(byte: u8) -> bool
    ensures { result ≡ is_hex_digit byte }
{
    (byte >= b'0') & (byte <= b'9')
        | (byte >= b'A') & (byte <= b'F')
        | (byte >= b'a') & (byte <= b'f')
}

// The value of a digit. Of another byte it is any below 16.
fn value_of(byte: u8) -> u8
    ensures value { IfSome (hex_digit_value byte) (λ value. result ≡ value) }
    ensures small { result < 16 }
{
    let digit = byte % 16;
    if byte > b'9' { (digit + 9) % 16 } else { digit }
}

/// Writes each byte as two hexadecimal digits in lower case.
pub fn encode(bytes: &[u8], text: &mut [u8])
    requires room { length text.old ≡ 2 * length bytes.now }
    ensures { text.new ≡ encode_lower bytes.now }
{
    'bytes: for i in 0..bytes.len() {
        let byte = bytes[i];
        text[2 * i] = digit_of(byte / 16);
        text[2 * i + 1] = digit_of(byte % 16);
    }
}

fn digit_of(value: u8) -> u8
    requires small { value < 16 }
    ensures { result ≡ slice_index lower_digits value }
{
    if value < 10 {
        b'0' + value
    } else {
        b'a' - 10 + value
    }
}
