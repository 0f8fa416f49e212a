//! An export loads back: the messages of the map at a moment, taken from the beginning, leave that map.
//!
//! A law over the register on paper and over what is exported of it. It has no code that runs.
#![tactic(auto)]

pub mod laws;
