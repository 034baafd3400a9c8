//! Worked rows of the lowest crates by hand: public functions, each called as a test calls it.
#![tactic(auto)]

#[cfg(test)]
mod devices;
#[cfg(test)]
mod edges;
#[cfg(test)]
mod lines;
#[cfg(test)]
mod lists;
#[cfg(test)]
mod numbers;
#[cfg(test)]
mod paths;
#[cfg(test)]
mod regions;
#[cfg(test)]
mod rules;
#[cfg(test)]
mod texts;
#[cfg(test)]
mod tokens;
