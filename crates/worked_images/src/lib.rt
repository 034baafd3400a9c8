//! Worked rows of hostile images: volumes of which some words are set.
#![tactic(auto)]

#[cfg(test)]
mod images;
#[cfg(test)]
mod odd;
#[cfg(test)]
mod pairs;
#[cfg(test)]
mod places;
#[cfg(test)]
mod rules;
