//! Worked rows of calls that fail: each fence, read and write, and each growth that is refused.
#![tactic(auto)]

#[cfg(test)]
mod begins;
#[cfg(test)]
mod commands;
#[cfg(test)]
mod doubled;
#[cfg(test)]
mod ends;
#[cfg(test)]
mod growths;
#[cfg(test)]
mod jobs;
#[cfg(test)]
mod mounts;
#[cfg(test)]
mod reads;
#[cfg(test)]
mod runs;
#[cfg(test)]
mod scarce;
#[cfg(test)]
mod scripts;
#[cfg(test)]
mod writes;
