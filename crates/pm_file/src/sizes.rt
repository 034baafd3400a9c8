// The sizes of lines and pages as lengths of arrays and lists.
use layout::{LINE_BYTES, LINE_WORDS, PAGE_BYTES, PAGE_LINES, PAGE_WORDS};

pub const WORDS_OF_A_LINE: usize = LINE_WORDS as usize;

pub const LINES_OF_A_PAGE: usize = PAGE_LINES as usize;

pub const WORDS_OF_A_PAGE: usize = PAGE_WORDS as usize;

pub const BYTES_OF_A_WORD: usize = (LINE_BYTES / LINE_WORDS) as usize;

/// The most lines that one write takes.
pub const LINES_OF_A_RUN: usize = 512;

pub const BYTES_OF_A_PAGE: usize = PAGE_BYTES as usize;

/// The most pages that one read takes.
pub const PAGES_OF_A_READ: usize = 256;

pub const BYTES_OF_A_READ: usize = PAGES_OF_A_READ * BYTES_OF_A_PAGE;
