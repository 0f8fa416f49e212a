//! Tests of fields, tables, items and streams, so that no crate below is proved twice for them.
#![tactic(auto)]

#[cfg(test)]
mod feeds;
#[cfg(test)]
mod fields;
#[cfg(test)]
mod items;
#[cfg(test)]
mod tables;
