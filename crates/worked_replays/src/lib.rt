//! Worked rows of crashes that are replayed, of listings, of what a check tells, and of generated scripts.
#![tactic(auto)]

#[cfg(test)]
mod checks;
#[cfg(test)]
mod cuts;
#[cfg(test)]
mod moments;
#[cfg(test)]
mod torn;
#[cfg(test)]
mod trees;
#[cfg(test)]
mod works;
