//! A quick test that a long ring is simple: its edges are parted by straight lines until few are left to compare.
//!
//! A layer above ring_simple. `ring_fault` gives the answer of `check_ring` and is quicker at long rings, for which it
//! takes memory; `parts_clean` promises nothing where it says no. It knows no shape and no hole.
#![tactic(auto)]

mod clean;
mod different;
mod line;
mod long;
mod pairs;
mod parted;

pub use clean::parts_clean;
pub use different::are_different;
pub use long::ring_fault;
