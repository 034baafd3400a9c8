// Stores of new bytes of a file to the words of its pages.
ghost use Rattle.std.specs.Prelude.{◌≡◌, ℕ, ◌+◌, ◌*◌, ◌^◌, ◌<◌, ◌≤◌, if◌then◌else◌, [], ◌∷◌, length, slice_index, true};
ghost use Rattle.pm_trait.specs.declared.event.Event.TheVariants.{Store};
ghost use Rattle.layout.specs.Geometry.{page_word_of};
ghost use Rattle.layout.specs.Fields.{page_byte};
ghost use Rattle.fence_token.specs.Stored.{StoresExactly};
ghost use Rattle.page_state.specs.Spans.{has_new as has_new_byte, new_pieces, new_words, word_after as word_that_becomes, word_now};
ghost use Rattle.page_state.specs.Page.{EachPage, AreDataPages, OfSome, OfSomeBelow, IsContentWord, IsOwnWord, IsFilledWord, IsNewWord, IsNewWordOf, IsBytesPage, AreBytesPages};
ghost use Rattle.page_state.specs.Events.{new_stores, bytes_of_page, FillsBytes, WritesSpan, HasWords, HaveWords};

use crate::span::FileSpan;
use layout::{
    BYTES, DESCRIPTOR_KIND, DESCRIPTOR_OFFSET, Geometry, PAGE_BYTES, PAGE_WORDS, WORD_BYTES,
};
use pm_trait::Pm;

// Stores the word whose bytes are those from byte `at` of the file on, where it has a new one.
fn store_word<P: Pm>(pm: &mut P, word: u64, at: u64, span: &FileSpan, bytes: &[u8])
    requires in_range { word < length (P.view pm.old).words }
    requires range { span.now.offset + span.now.length ≤ 2 ^ 40 }
    requires long { length bytes.now ≡ span.now.length }
    requires place { at ≤ 2 ^ 40 }
    requires room { has_new_byte span.now at 8 ≡ true → 1 ≤ (P.view pm.old).spare }
    ensures word { slice_index (P.view pm.new).words word ≡ word_now span.now bytes.now at (slice_index (P.view pm.old).words word) }
    ensures device { StoresExactly (λ other. (other ≡ word) × (has_new_byte span.now at 8 ≡ true)) (P.view pm.old) (P.view pm.new)
        (if has_new_byte span.now at 8
        then Store word (word_that_becomes span.now bytes.now at (slice_index (P.view pm.old).words word)) ∷ []
        else []) (if has_new_byte span.now at 8 then 1 else 0) }
{
    if span.has_new(at, WORD_BYTES) {
        let value = match span.whole_word(bytes, at) {
            Some(whole) => whole,
            None => span.word_after(bytes, at, pm.load(word)),
        };
        pm.store(word, value);
    }
}

// Stores the word whose bytes are those from byte `at` of the file on, all of the range.
fn store_of_range<P: Pm>(pm: &mut P, word: u64, at: u64, span: &FileSpan, bytes: &[u8])
    requires in_range { word < length (P.view pm.old).words }
    requires range { span.now.offset + span.now.length ≤ 2 ^ 40 }
    requires long { length bytes.now ≡ span.now.length }
    requires from { span.now.offset ≤ at }
    requires to { at + 8 ≤ span.now.offset + span.now.length }
    requires room { 1 ≤ (P.view pm.old).spare }
    ensures word { slice_index (P.view pm.new).words word ≡ word_now span.now bytes.now at (slice_index (P.view pm.old).words word) }
    ensures device { StoresExactly (λ other. (other ≡ word) × (has_new_byte span.now at 8 ≡ true)) (P.view pm.old) (P.view pm.new)
        (if has_new_byte span.now at 8
        then Store word (word_that_becomes span.now bytes.now at (slice_index (P.view pm.old).words word)) ∷ []
        else []) (if has_new_byte span.now at 8 then 1 else 0) }
{
    pm.store(word, span.word_of_range(bytes, at));
}

// Stores the words of a page that have a new byte: those that the range has whole by nothing but their stores. The page's offset is
// in pages.
fn store_page<P: Pm>(
    pm: &mut P,
    geometry: &Geometry,
    page: u64,
    offset: u64,
    span: &FileSpan,
    bytes: &[u8],
)
    requires in_range { page < geometry.now.data_pages }
    requires inside { (word : ℕ) → IsContentWord geometry.now.pages page word → word < length (P.view pm.old).words }
    requires range { span.now.offset + span.now.length ≤ 2 ^ 40 }
    requires long { length bytes.now ≡ span.now.length }
    requires place { offset < 2 ^ 28 }
    requires room { new_pieces span.now (4096 * offset) 8 512 ≤ (P.view pm.old).spare }
    ensures words { HasWords span.now bytes.now geometry.now.pages offset page (P.view pm.old).words (P.view pm.new).words }
    ensures device { StoresExactly (IsNewWord span.now geometry.now.pages offset page) (P.view pm.old) (P.view pm.new)
        (new_stores span.now bytes.now (P.view pm.old).words geometry.now.pages offset page)
        (new_pieces span.now (4096 * offset) 8 512) }
{
    // Copies, which no store can change: the compiler reads them once.
    let geometry = *geometry;
    let span = *span;
    let start = PAGE_BYTES * offset;
    let (from, to) = span.whole_words(start);
    'head: for place in 0..from {
        let word = geometry.page_word(page, place);
        store_word(pm, word, start + WORD_BYTES * place, &span, bytes);
    }
    'whole: for place in from..to {
        let word = geometry.page_word(page, place);
        store_of_range(pm, word, start + WORD_BYTES * place, &span, bytes);
    }
    'tail: for place in to..PAGE_WORDS {
        let word = geometry.page_word(page, place);
        store_word(pm, word, start + WORD_BYTES * place, &span, bytes);
    }
}

// Stores the words of the pages that have a new byte.
pub fn store_pages<P: Pm>(
    pm: &mut P,
    geometry: &Geometry,
    pages: &[u64],
    span: &FileSpan,
    bytes: &[u8],
)
    requires data_pages { AreDataPages geometry.now.data_pages pages.now }
    requires inside { (word : ℕ) → OfSome pages.now (IsOwnWord geometry.now.pages) word
        → word < length (P.view pm.old).words }
    requires range { span.now.offset + span.now.length ≤ 2 ^ 40 }
    requires long { length bytes.now ≡ span.now.length }
    requires places { span.now.first + length pages.now ≤ 2 ^ 28 }
    requires room { new_words span.now (length pages.now) ≤ (P.view pm.old).spare }
    ensures words { HaveWords span.now bytes.now geometry.now.pages pages.now (P.view pm.old).words (P.view pm.new).words }
    ensures device { WritesSpan geometry.now.pages pages.now span.now bytes.now (P.view pm.old) (P.view pm.new) }
{
    let mut offset = span.first;
    for page in pages {
        store_page(pm, geometry, *page, offset, span, bytes);
        offset += 1;
    }
}

// Makes a page one of the file's bytes at this offset, in pages. It takes 514 events.
fn fill_page<P: Pm>(
    pm: &mut P,
    geometry: &Geometry,
    page: u64,
    offset: u64,
    span: &FileSpan,
    bytes: &[u8],
)
    requires in_range { page < geometry.now.data_pages }
    requires inside { (word : ℕ) → IsOwnWord geometry.now.pages page word → word < length (P.view pm.old).words }
    requires range { span.now.offset + span.now.length ≤ 2 ^ 40 }
    requires long { length bytes.now ≡ span.now.length }
    requires whole { span.now.zero_from ≡ 0 }
    requires place { offset < 2 ^ 28 }
    requires room { 514 ≤ (P.view pm.old).spare }
    ensures words { HasWords span.now bytes.now geometry.now.pages offset page (P.view pm.old).words (P.view pm.new).words }
    ensures filled { IsBytesPage geometry.now.pages (P.view pm.new).words offset page }
    ensures device { StoresExactly (IsFilledWord geometry.now.pages page) (P.view pm.old) (P.view pm.new)
        (bytes_of_page span.now bytes.now geometry.now.pages offset page) 514 }
{
    store_page(pm, geometry, page, offset, span, bytes);
    pm.store(geometry.descriptor_word(page, DESCRIPTOR_KIND), BYTES);
    pm.store(geometry.descriptor_word(page, DESCRIPTOR_OFFSET), offset);
}

// Makes each page one of the file's bytes. It takes 514 events a page.
pub fn fill_with_bytes<P: Pm>(
    pm: &mut P,
    geometry: &Geometry,
    pages: &[u64],
    span: &FileSpan,
    bytes: &[u8],
)
    requires data_pages { AreDataPages geometry.now.data_pages pages.now }
    requires inside { (word : ℕ) → OfSome pages.now (IsOwnWord geometry.now.pages) word
        → word < length (P.view pm.old).words }
    requires range { span.now.offset + span.now.length ≤ 2 ^ 40 }
    requires long { length bytes.now ≡ span.now.length }
    requires whole { span.now.zero_from ≡ 0 }
    requires places { span.now.first + length pages.now ≤ 2 ^ 28 }
    requires room { 514 * length pages.now ≤ (P.view pm.old).spare }
    ensures words { HaveWords span.now bytes.now geometry.now.pages pages.now (P.view pm.old).words (P.view pm.new).words }
    ensures filled { AreBytesPages geometry.now.pages (P.view pm.new).words span.now.first pages.now }
    ensures device { FillsBytes geometry.now.pages pages.now span.now bytes.now (P.view pm.old) (P.view pm.new) }
{
    let mut offset = span.first;
    for page in pages {
        fill_page(pm, geometry, *page, offset, span, bytes);
        offset += 1;
    }
}
