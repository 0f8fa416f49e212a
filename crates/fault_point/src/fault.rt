use rd_plane::{Edge, FracPt};
use std::fmt;

/// Why a map is not tiled.
#[derive(Clone, Copy, Debug)]
pub enum Fault {
    /// Two border edges cross: the least pair that does, the smaller edge first.
    Crossing {
        first: Edge,
        second: Edge,
    },
    /// The point is off the border, and lies in this number of parts, which is not 1 inside the area or not 0 outside.
    Point {
        at: FracPt,
        parts: u32,
        inside: bool,
    },
}

impl fmt::Display for Fault {
    fn fmt<W: fmt::Write>(&self, f: &mut fmt::Formatter<W>) -> fmt::Result {
        match self {
            Fault::Crossing { .. } => write!(f, "two border edges cross"),
            Fault::Point {
                parts,
                inside: true,
                ..
            } => write!(f, "a point of the area lies in {parts} parts"),
            Fault::Point {
                parts,
                inside: false,
                ..
            } => write!(f, "a point outside the area lies in {parts} parts"),
        }
    }
}
