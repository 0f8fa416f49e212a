//! A simple ring is never misread: which way it runs is told by the turn at its least corner.
//!
//! A layer above rings. A ring whose edges meet in turn alone winds each point off its edges 0 times, or once and always
//! the same way round: counter-clockwise where the ring turns left at its least corner, clockwise where it turns right.
//! It never goes straight on there. So no sweep is needed to judge a ring by itself. It knows no hole and no shape.
#![tactic(auto)]

pub mod laws;
mod turned;

pub use turned::{runs_left, turn_at_least};
