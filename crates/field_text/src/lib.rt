//! The fields of a line: coordinates, days and moments, read from bytes and printed.
//!
//! A layer above the plane. It keeps how each field is spelled and what it stands for, and promises that a field has
//! one value, that a value has one printed text, and that what was printed is read back.
//! It knows no line, no message and no clock: a moment is civil time, as it is written.
#![tactic(auto)]

mod coordinate;
mod day;
mod fault;
pub mod laws;
mod leading;
mod moment;
mod numbers;
mod printed;

pub use coordinate::{Axis, print_mm, read_mm};
pub use day::{Day, print_day, read_day};
pub use fault::FieldFault;
pub use leading::leading_mm;
pub use moment::{Moment, print_moment, read_moment};
pub use numbers::digits;
pub use printed::{Field, Printed};
