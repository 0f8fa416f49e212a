//! Worked rows: runs of the whole program over a file in memory, and test maps.
//!
//! It stands above all other crates, so that none of them is proved twice for its tests.
#![tactic(auto)]

#[cfg(test)]
mod damage;
#[cfg(test)]
mod explain;
#[cfg(test)]
mod exports;
#[cfg(test)]
mod load;
#[cfg(test)]
mod load_fails;
#[cfg(test)]
mod neighbourhood;
#[cfg(test)]
mod queries;
#[cfg(test)]
mod trial;
#[cfg(test)]
mod untiled;
