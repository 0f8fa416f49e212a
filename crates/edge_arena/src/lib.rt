//! An arena whose changes since the last `keep` can be taken back.
//!
//! A layer of its own, over the word for no memory alone. It keeps values in slots, and promises that a change touches one
//! slot, that `roll_back` gives back slots and free list as they were, and that only `reserve` takes memory. Each call that
//! reads or changes a slot ticks one step on the counter of its caller. It does not know what its values are.
#![tactic(auto)]

mod arena;
mod steps;

pub use arena::{Arena, Slot};
pub use steps::Steps;
