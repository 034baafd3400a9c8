//! Data pages as a value that stands for their words, with what they mean and how far they have come in its type.
#![tactic(auto)]

mod bytes;
mod flushes;
mod laws;
mod page;
mod span;
mod states;
mod words;

pub use laws::{page_law, span_law};
pub use page::{PageH, Touched};
pub use span::FileSpan;
pub use states::{Filled, Free, Live, PageState, Released};
