// Bytes of a file are read into a buffer.
ghost use Rattle.std.specs.Prelude.{◌≡◌, ◌+◌, ◌*◌, ◌/◌, ◌%◌, ◌-◌, ◌^◌, ◌<◌, ◌≤◌, ℕ, false, Some, length, slice_index, take, drop};
ghost use Rattle.layout.specs.Fields.{page_byte};
ghost use Rattle.layout.specs.Name.{bytes_of_word};
ghost use Rattle.tree_model.specs.Tree.{bytes_of};
ghost use Rattle.tree_model.specs.Run.{State};
ghost use Rattle.image_reading.specs.Residue.{Residue};
ghost use Rattle.volume.specs.Beside.{StandsBeside};
ghost use Rattle.page_state.specs.Page.{EachPage};
ghost use Rattle.data_ops.specs.Reading.{HasFile, IsRead, file_byte, AreFileBytes};

use byteorder::{ByteOrder, LittleEndian};
use layout::{Geometry, PAGE_BYTES, WORD_BYTES};
use pm_trait::Pm;
use volume::Volume;

// The bytes of a word, as a length of a buffer.
const BYTES_OF_A_WORD: usize = WORD_BYTES as usize;

// The word that holds byte `at` of a file. The pages are the file's, in order.
fn word_of_file<P: Pm>(pm: &P, geometry: &Geometry, pages: &[u64], at: u64) -> u64
    requires whole { length (P.view pm.now).words ≡ 512 * geometry.now.pages }
    requires in_range { EachPage pages.now (λ page. page < geometry.now.data_pages) }
    requires inside { at < 4096 * length pages.now }
    ensures { (k : ℕ) → at % 8 + k < 8 → slice_index (bytes_of_word result) (at % 8 + k) ≡ file_byte geometry.now.pages
        (P.view pm.now).words pages.now (at + k) }
{
    let page = pages[(at / PAGE_BYTES) as usize];
    pm.load(geometry.page_word(page, at % PAGE_BYTES / WORD_BYTES))
}

// Fills a buffer with bytes of one word of a file, from byte `at` of the file on.
fn read_part<P: Pm>(pm: &P, geometry: &Geometry, pages: &[u64], at: u64, buf: &mut [u8])
    requires whole { length (P.view pm.now).words ≡ 512 * geometry.now.pages }
    requires in_range { EachPage pages.now (λ page. page < geometry.now.data_pages) }
    requires inside { 0 < length buf.old → at < 4096 * length pages.now }
    requires in_word { at % 8 + length buf.old ≤ 8 }
    ensures { AreFileBytes geometry.now.pages (P.view pm.now).words pages.now at buf.new }
{
    if buf.is_empty() {
        return;
    }
    let parts = word_of_file(pm, geometry, pages, at).to_le_bytes();
    let from = (at % WORD_BYTES) as usize;
    buf.copy_from_slice(&parts[from..from + buf.len()]);
}

// Fills a buffer with words of a page, from this one on.
fn read_page<P: Pm>(pm: &P, geometry: &Geometry, page: u64, place: u64, buf: &mut [u8])
    requires whole { length (P.view pm.now).words ≡ 512 * geometry.now.pages }
    requires in_range { page < geometry.now.data_pages }
    requires place { place < 512 }
    requires in_page { 8 * place + length buf.old ≤ 4096 }
    requires whole_words { length buf.old % 8 ≡ 0 }
    ensures { (k : ℕ) → k < length buf.new → slice_index buf.new k ≡ page_byte geometry.now.pages
        (P.view pm.now).words page (8 * place + k) }
{
    let start = geometry.page_word(page, place) as usize;
    let words = &pm.image()[start..start + buf.len() / BYTES_OF_A_WORD];
    LittleEndian::write_u64_into(words, buf);
}

// Fills a buffer of whole words with a file's bytes from `offset` on, where a word begins.
fn read_words<P: Pm>(pm: &P, geometry: &Geometry, pages: &[u64], offset: u64, buf: &mut [u8])
    requires whole { length (P.view pm.now).words ≡ 512 * geometry.now.pages }
    requires in_range { EachPage pages.now (λ page. page < geometry.now.data_pages) }
    requires inside { 0 < length buf.old → offset + length buf.old ≤ 4096 * length pages.now }
    requires small { 0 < length buf.old → offset + length buf.old ≤ 2 ^ 40 }
    requires at_a_word { 0 < length buf.old → offset % 8 ≡ 0 }
    requires whole_words { length buf.old % 8 ≡ 0 }
    ensures { AreFileBytes geometry.now.pages (P.view pm.now).words pages.now offset buf.new }
{
    let mut done = 0;
    'pages: while done < buf.len() {
        let at = offset + done as u64;
        let page = pages[(at / PAGE_BYTES) as usize];
        let left = PAGE_BYTES - at % PAGE_BYTES;
        let end = buf.len().min(done + left as usize);
        let place = at % PAGE_BYTES / WORD_BYTES;
        read_page(pm, geometry, page, place, &mut buf[done..end]);
        done = end;
    }
}

// Fills a buffer with a file's bytes from `offset` on. The pages are the file's, in order.
fn read_pages<P: Pm>(pm: &P, geometry: &Geometry, pages: &[u64], offset: u64, buf: &mut [u8])
    requires whole { length (P.view pm.now).words ≡ 512 * geometry.now.pages }
    requires in_range { EachPage pages.now (λ page. page < geometry.now.data_pages) }
    requires inside { 0 < length buf.old → offset + length buf.old ≤ 4096 * length pages.now }
    requires small { 0 < length buf.old → offset + length buf.old ≤ 2 ^ 40 }
    ensures { (k : ℕ) → k < length buf.new → slice_index buf.new k ≡ page_byte geometry.now.pages
        (P.view pm.now).words (slice_index pages.now ((offset + k) / 4096)) ((offset + k) % 4096) }
{
    let to_next_word = (WORD_BYTES - offset % WORD_BYTES) % WORD_BYTES;
    let first = buf.len().min(to_next_word as usize);
    let (head, rest) = buf.split_at_mut(first);
    let middle = rest.len() - rest.len() % BYTES_OF_A_WORD;
    let (words, tail) = rest.split_at_mut(middle);
    let start = offset + first as u64;
    read_part(pm, geometry, pages, offset, head);
    read_words(pm, geometry, pages, start, words);
    read_part(pm, geometry, pages, start + middle as u64, tail);
}

/// Reads bytes of a file, from byte `offset` on, into a buffer, and gives their number: as many as the buffer holds and the file
/// has left, none from its end on. The other bytes of the buffer stay. It takes no memory.
pub fn read<P: Pm>(volume: &Volume, inode: u64, offset: u64, buf: &mut [u8], pm: &P) -> u64
    requires going { volume.now.stopped ≡ false }
    requires file { HasFile volume.now (P.view pm.now) inode }
    ensures { (state : State) (residue : Residue) → StandsBeside volume.now (P.view pm.now) state residue
        → IsRead (bytes_of state.tree inode) offset buf.old buf.new result }
{
    let geometry = volume.geometry();
    let size = geometry.inode_at(pm.image(), inode).size;
    let left = size.saturating_sub(offset);
    let count = left.min(buf.len() as u64);
    read_pages(
        pm,
        geometry,
        volume.pages(inode),
        offset,
        &mut buf[..count as usize],
    );
    count
}
