//! Steps that several calls of accepted commands make: a directory gets a name, in a slot or in a new page, a node gets a link.
#![tactic(auto)]

mod links;
mod name;
mod page;
mod place;
mod settling;

pub use links::raise_links;
pub use page::{claim_page, fill_page};
pub use place::NamePlace;
pub use settling::settle;
