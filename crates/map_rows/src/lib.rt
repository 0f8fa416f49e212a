//! Worked rows of boxes by number, of messages that are tried on one counter, and of random changes.
#![tactic(auto)]

mod tries;

pub use tries::try_both;

#[cfg(test)]
mod changes;
#[cfg(test)]
mod indexes;
#[cfg(test)]
mod messages;
