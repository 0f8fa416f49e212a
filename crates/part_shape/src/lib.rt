//! Sound shapes: an outer ring and its holes, without a fault.
//!
//! A layer above rings and winding numbers. `Shape::check` is the only way to a `Shape`, so that whoever holds one
//! knows that its rings are simple, meet one another in corners alone, wind each point 0 or 1 times, and turn the right
//! way. A list of rings that is no sound shape gets its first fault, part by part in that order, with the least place.
//! It knows no object, no holder and no area.
#![tactic(auto)]

mod check;
mod fault;
pub mod laws;
mod meets;
mod points;
mod shape;
mod turned;

pub use check::check_rings;
pub use fault::{ShapeFault, ShapeNote, SingleFault};
pub use points::{is_on_rings, lies_in_rings};
pub use shape::{Shape, ShapeList};
