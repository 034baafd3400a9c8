//! The call that moves a name on a mounted volume, each step of it settled by a fence of its own.
#![tactic(auto)]

mod clear;
mod enter;
mod left;
mod number;
mod open;
mod point;
mod rename;
mod step;

pub use rename::{Running, advance, apply_rename, begin};
