//! Rings by themselves: is my ring the right way round?
//!
//! A layer above texts and shapes. Each line of an input is read as an outer ring, judged, and answered by one reply line. A
//! simple ring is never misread: which way it runs is told by the turn at its least corner, for every ring. It knows no
//! message and no map, and not how the replies reach the user.
#![tactic(auto)]

pub mod laws;
mod lines;
mod rings;
mod verdict;

pub use rings::{Judged, judge_rings};
pub use verdict::Verdict;
