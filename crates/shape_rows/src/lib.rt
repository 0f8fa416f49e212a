//! Worked rows of the layers of shapes: how edges meet, rings, and shapes, each with the answer that it has to get.
//!
//! It stands above those layers, so that none of them is proved twice for its tests.
#![tactic(auto)]

mod counted;

pub use counted::are_counted;

#[cfg(test)]
mod built;
#[cfg(test)]
mod cancelling;
#[cfg(test)]
mod meetings;
#[cfg(test)]
mod points;
#[cfg(test)]
mod shapes;
#[cfg(test)]
mod sharing;
#[cfg(test)]
mod singles;
#[cfg(test)]
mod turns;
