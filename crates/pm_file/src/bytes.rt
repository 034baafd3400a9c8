// Where lines and pages stand in a file, and which bytes their words are there.
ghost use Rattle.std.specs.Prelude.{◌≡◌, ◌+◌, ◌*◌, ◌/◌, ◌%◌, ◌^◌, ◌<◌, ◌≤◌, length, vec_len};
ghost use Rattle.std.specs.Vec.{vec_capacity};
ghost use Rattle.pm_file.specs.Bytes.{place_of_line as line_place, place_of_page as page_place, bytes_of_words};
ghost use Rattle.pm_file.specs.Placed.{AppendsWords};

use crate::sizes::{BYTES_OF_A_PAGE, WORDS_OF_A_PAGE};
use byteorder::{ByteOrder, LittleEndian};
use layout::{LINE_BYTES, PAGE_BYTES};

/// The first byte of a line.
pub fn place_of_line(line: u64) -> u64
    requires { 64 * line < 2 ^ 63 }
    ensures { result ≡ line_place line }
{
    LINE_BYTES * line
}

/// The first byte of a page.
pub fn place_of_page(page: u64) -> u64
    requires { 4096 * page < 2 ^ 63 }
    ensures { result ≡ page_place page }
{
    PAGE_BYTES * page
}

/// Puts the bytes of words into a buffer of just as many.
pub fn put_words(words: &[u64], bytes: &mut [u8])
    requires { length bytes.old ≡ 8 * length words.now }
    ensures { bytes.new ≡ bytes_of_words words.now }
{
    LittleEndian::write_u64_into(words, bytes);
}

/// Appends the words of whole pages' bytes, where there is room for them.
pub fn append_words(bytes: &[u8], words: &mut Vec<u64>)
    requires whole { length bytes.now % 4096 ≡ 0 }
    requires room { 8 * vec_len words.old + length bytes.now ≤ 8 * vec_capacity words.old }
    ensures words { AppendsWords bytes.now (length bytes.now / 8) words.old.items words.new.items }
    ensures capacity { vec_capacity words.old ≤ vec_capacity words.new }
{
    let mut read = [0u64; WORDS_OF_A_PAGE];
    for page in 0..bytes.len() / BYTES_OF_A_PAGE {
        let start = page * BYTES_OF_A_PAGE;
        LittleEndian::read_u64_into(&bytes[start..start + BYTES_OF_A_PAGE], &mut read);
        let _ = words.extend_from_slice(&read);
    }
}
