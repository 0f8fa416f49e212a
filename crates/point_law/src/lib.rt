//! Where a point lies: off all borders in the area of one holder at most, and in one ground part exactly where it lies in an area.
//!
//! A law over the register on paper, whose every moment is right.
#![tactic(auto)]

pub mod laws;
