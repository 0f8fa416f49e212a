//! A map's border edges, each paired with its reverse, in an arena whose changes can be taken back.
//!
//! A layer above the plane and the arena. Where no change is tried each directed edge occurs once, and so does its reverse.
//! It promises that a change is refused exactly where that would end, with the least wrong edge, at a cost of the edges
//! changed. It knows no area, no object and no message.
#![tactic(auto)]

mod border;
mod ground;
mod key;
mod keys;
mod rings;
mod seek;
mod stored;
mod ways;
mod weave;

pub use border::{Border, Borders, GroundFault, HalfEdge, Owner};
pub use ground::Ground;
