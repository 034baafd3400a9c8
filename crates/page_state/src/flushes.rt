// Flushes of the lines of pages.
ghost use Rattle.std.specs.Prelude.{◌≡◌, ◌⊎◌, ℕ, ◌+◌, ◌*◌, ◌/◌, ◌^◌, ◌<◌, ◌≤◌, if◌then◌else◌, [], ◌∷◌, Some, length, true};
ghost use Rattle.pm_trait.specs.declared.event.Event.TheVariants.{Flush};
ghost use Rattle.pm_trait.specs.Device.{IsFlushed};
ghost use Rattle.layout.specs.Geometry.{descriptor_word_of, page_word_of};
ghost use Rattle.fence_token.specs.Flushes.{Flushes};
ghost use Rattle.page_state.specs.declared.page.Touched.TheVariants.{Descriptors, Whole, Words};
ghost use Rattle.page_state.specs.Spans.{has_new as has_new_byte, new_pieces, new_lines, IsWithinLimits};
ghost use Rattle.page_state.specs.Page.{AreDataPages, OfSome, IsContentWord, IsDescriptorWord, IsOwnWord, IsNewWord, IsNewWordOf, AreTouched, IsTouchable, touched_lines};
ghost use Rattle.page_state.specs.Events.{content_flushes, whole_flush, new_flushes, FlushesPages, FlushesWords};

use crate::page::Touched;
use crate::span::FileSpan;
use fence_token::{FlushTicket, flush_span};
use layout::{
    DESCRIPTOR_FIELDS, DESCRIPTOR_OWNER, Geometry, LINE_BYTES, LINE_WORDS, PAGE_BYTES, PAGE_LINES,
    PAGE_WORDS,
};
use pm_trait::Pm;

// Flushes the line of a page's descriptor.
fn flush_descriptor<P: Pm>(pm: &mut P, geometry: &Geometry, page: u64) -> FlushTicket
    requires in_range { page < geometry.now.data_pages }
    requires inside { (word : ℕ) → IsDescriptorWord geometry.now.pages page word → word < length (P.view pm.old).words }
    requires room { 1 ≤ (P.view pm.old).spare }
    ensures { FlushesWords (IsDescriptorWord geometry.now.pages page) (P.view pm.old) (P.view pm.new)
        (Flush (descriptor_word_of geometry.now.pages page 0 / 8) ∷ []) 1 result }
{
    let first = geometry.descriptor_word(page, DESCRIPTOR_OWNER);
    let last = geometry.descriptor_word(page, DESCRIPTOR_FIELDS - 1);
    flush_span(pm, first, last)
}

// Flushes the lines of a page's own words.
fn flush_contents<P: Pm>(pm: &mut P, geometry: &Geometry, page: u64) -> FlushTicket
    requires in_range { page < geometry.now.data_pages }
    requires inside { (word : ℕ) → IsContentWord geometry.now.pages page word → word < length (P.view pm.old).words }
    requires room { 64 ≤ (P.view pm.old).spare }
    ensures { FlushesWords (IsContentWord geometry.now.pages page) (P.view pm.old) (P.view pm.new)
        (content_flushes geometry.now.pages page) 64 result }
{
    let first = geometry.page_word(page, 0);
    let last = geometry.page_word(page, PAGE_WORDS - 1);
    flush_span(pm, first, last)
}

// Flushes the lines of a page's own words and the one of its descriptor.
fn flush_whole<P: Pm>(pm: &mut P, geometry: &Geometry, page: u64) -> FlushTicket
    requires in_range { page < geometry.now.data_pages }
    requires inside { (word : ℕ) → IsOwnWord geometry.now.pages page word → word < length (P.view pm.old).words }
    requires room { 65 ≤ (P.view pm.old).spare }
    ensures { FlushesWords (IsOwnWord geometry.now.pages page) (P.view pm.old) (P.view pm.new)
        (whole_flush geometry.now.pages page) 65 result }
{
    let _contents = flush_contents(pm, geometry, page);
    flush_descriptor(pm, geometry, page)
}

// Flushes the line of each page's descriptor.
fn flush_descriptors<P: Pm>(pm: &mut P, geometry: &Geometry, pages: &[u64]) -> Option<FlushTicket>
    requires data_pages { AreDataPages geometry.now.data_pages pages.now }
    requires inside { (word : ℕ) → OfSome pages.now (IsOwnWord geometry.now.pages) word
        → word < length (P.view pm.old).words }
    requires room { length pages.now ≤ (P.view pm.old).spare }
    ensures ticket { result ≡ Some (P.view pm.new).fences }
    ensures flushed { (word : ℕ) → OfSome pages.now (IsDescriptorWord geometry.now.pages) word
        → IsFlushed (P.view pm.new).trail word }
    ensures device { FlushesPages geometry.now.pages pages.now Descriptors (P.view pm.old) (P.view pm.new) }
{
    let mut ticket = None;
    for page in pages {
        ticket = Some(flush_descriptor(pm, geometry, *page));
    }
    ticket
}

// Flushes the lines of each page's own words and the one of its descriptor.
fn flush_wholes<P: Pm>(pm: &mut P, geometry: &Geometry, pages: &[u64]) -> Option<FlushTicket>
    requires data_pages { AreDataPages geometry.now.data_pages pages.now }
    requires inside { (word : ℕ) → OfSome pages.now (IsOwnWord geometry.now.pages) word
        → word < length (P.view pm.old).words }
    requires room { 65 * length pages.now ≤ (P.view pm.old).spare }
    ensures ticket { result ≡ Some (P.view pm.new).fences }
    ensures flushed { (word : ℕ) → OfSome pages.now (IsOwnWord geometry.now.pages) word
        → IsFlushed (P.view pm.new).trail word }
    ensures device { FlushesPages geometry.now.pages pages.now Whole (P.view pm.old) (P.view pm.new) }
{
    let mut ticket = None;
    for page in pages {
        ticket = Some(flush_whole(pm, geometry, *page));
    }
    ticket
}

// Flushes a line of a page, where it has a new byte. Byte `at` of the file is its first one, and `ticket` that of the flush before.
fn flush_line<P: Pm>(
    pm: &mut P,
    geometry: &Geometry,
    page: u64,
    line: u64,
    at: u64,
    span: &FileSpan,
    ticket: Option<FlushTicket>,
) -> Option<FlushTicket>
    requires in_range { page < geometry.now.data_pages }
    requires in_page { line < 64 }
    requires inside { (word : ℕ) → IsContentWord geometry.now.pages page word → word < length (P.view pm.old).words }
    requires range { span.now.offset + span.now.length ≤ 2 ^ 40 }
    requires place { at ≤ 2 ^ 40 }
    requires room { has_new_byte span.now at 64 ≡ true → 1 ≤ (P.view pm.old).spare }
    ensures ticket { result ≡ (if has_new_byte span.now at 64 then Some (P.view pm.new).fences else ticket) }
    ensures flushed { has_new_byte span.now at 64 ≡ true → (place : ℕ) → place / 8 ≡ line
        → IsFlushed (P.view pm.new).trail (page_word_of geometry.now.pages page place) }
    ensures device { Flushes (P.view pm.old) (P.view pm.new)
        (if has_new_byte span.now at 64
        then Flush (page_word_of geometry.now.pages page (8 * line) / 8) ∷ []
        else []) (if has_new_byte span.now at 64 then 1 else 0) }
{
    if span.has_new(at, LINE_BYTES) {
        let first = geometry.page_word(page, LINE_WORDS * line);
        let last = geometry.page_word(page, LINE_WORDS * line + LINE_WORDS - 1);
        Some(flush_span(pm, first, last))
    } else {
        ticket
    }
}

// Flushes the lines of a page that have a new byte. The page's offset is in pages, and `ticket` is that of the flush before.
fn flush_new<P: Pm>(
    pm: &mut P,
    geometry: &Geometry,
    page: u64,
    offset: u64,
    span: &FileSpan,
    ticket: Option<FlushTicket>,
) -> Option<FlushTicket>
    requires in_range { page < geometry.now.data_pages }
    requires inside { (word : ℕ) → IsContentWord geometry.now.pages page word → word < length (P.view pm.old).words }
    requires range { span.now.offset + span.now.length ≤ 2 ^ 40 }
    requires place { offset < 2 ^ 28 }
    requires room { new_pieces span.now (4096 * offset) 64 64 ≤ (P.view pm.old).spare }
    ensures ticket { (ticket ≡ Some (P.view pm.old).fences) ⊎ (0 < new_pieces span.now (4096 * offset) 64 64)
        → result ≡ Some (P.view pm.new).fences }
    ensures flushed { (word : ℕ) → IsNewWord span.now geometry.now.pages offset page word
        → IsFlushed (P.view pm.new).trail word }
    ensures device { Flushes (P.view pm.old) (P.view pm.new) (new_flushes span.now geometry.now.pages offset page)
        (new_pieces span.now (4096 * offset) 64 64) }
{
    let mut ticket = ticket;
    for line in 0..PAGE_LINES {
        let at = PAGE_BYTES * offset + LINE_BYTES * line;
        ticket = flush_line(pm, geometry, page, line, at, span, ticket);
    }
    ticket
}

// Flushes the lines of each page that have a new byte.
fn flush_words<P: Pm>(
    pm: &mut P,
    geometry: &Geometry,
    pages: &[u64],
    span: &FileSpan,
) -> Option<FlushTicket>
    requires data_pages { AreDataPages geometry.now.data_pages pages.now }
    requires inside { (word : ℕ) → OfSome pages.now (IsOwnWord geometry.now.pages) word
        → word < length (P.view pm.old).words }
    requires span { IsWithinLimits span.now (length pages.now) }
    requires some { 0 < new_lines span.now (length pages.now) }
    requires room { new_lines span.now (length pages.now) ≤ (P.view pm.old).spare }
    ensures ticket { result ≡ Some (P.view pm.new).fences }
    ensures flushed { (word : ℕ) → IsNewWordOf span.now geometry.now.pages pages.now word
        → IsFlushed (P.view pm.new).trail word }
    ensures device { FlushesPages geometry.now.pages pages.now (Words span.now) (P.view pm.old) (P.view pm.new) }
{
    let mut ticket = None;
    let mut offset = span.first;
    for page in pages {
        ticket = flush_new(pm, geometry, *page, offset, span, ticket);
        offset += 1;
    }
    ticket
}

// Flushes the lines of the pages that were stored to.
pub fn flush_pages<P: Pm>(
    pm: &mut P,
    geometry: &Geometry,
    pages: &[u64],
    touched: Touched,
) -> Option<FlushTicket>
    requires data_pages { AreDataPages geometry.now.data_pages pages.now }
    requires inside { (word : ℕ) → OfSome pages.now (IsOwnWord geometry.now.pages) word
        → word < length (P.view pm.old).words }
    requires touched { IsTouchable touched (length pages.now) }
    requires room { touched_lines touched (length pages.now) ≤ (P.view pm.old).spare }
    ensures ticket { result ≡ Some (P.view pm.new).fences }
    ensures flushed { (word : ℕ) → AreTouched touched geometry.now.pages pages.now word
        → IsFlushed (P.view pm.new).trail word }
    ensures device { FlushesPages geometry.now.pages pages.now touched (P.view pm.old) (P.view pm.new) }
{
    match touched {
        Touched::Descriptors => flush_descriptors(pm, geometry, pages),
        Touched::Whole => flush_wholes(pm, geometry, pages),
        Touched::Words(span) => flush_words(pm, geometry, pages, &span),
    }
}
