//! Whether a list of corners is a ring: at least three, all different, whose edges meet in turn alone.
//!
//! A layer above the plane. `check_ring` promises that what it takes is a simple ring, and names the first place where
//! another list is not one. It knows no shape and no hole, and not which way a ring runs.
#![tactic(auto)]

mod fault;
mod pairs;
mod repeats;
mod ring;
mod stretch;

pub use fault::RingFault;
pub use pairs::meets_badly;
pub use ring::check_ring;
