use edge_arena::Slot;
use rd_plane::{Edge, Listed, Ring};
use std::fmt;

/// Whose border it is.
#[derive(Clone, Copy, Debug, PartialEq, Eq)]
pub enum Owner {
    /// The area of the map, whose rings run the other way.
    Area,
    /// A ground part, by the number that its map gave it.
    Part(u32),
}

/// A ring with its owner. The rings of an area come reversed.
#[derive(Debug, Drop)]
pub struct Border {
    /// Whose it is.
    pub owner: Owner,
    /// Its corners in order.
    pub ring: Ring,
}

/// Some borders.
pub type Borders = Listed<Border>;

/// One side of an edge, with what lies at its left.
#[derive(Clone, Copy, Debug)]
pub struct HalfEdge {
    /// The directed edge.
    pub edge: Edge,
    // The side that goes on where this one ends, on the same ring. No call tells of it, so it is no promise.
    pub(crate) next: Slot,
    /// The other side of the edge. `None` only inside a change, until that side is in.
    pub twin: Option<Slot>,
    /// Whose ground lies at its left.
    pub owner: Owner,
}

/// Why a change was refused: the least edge of the new map that is wrong.
#[derive(Clone, Copy, Debug, PartialEq, Eq)]
pub enum GroundFault {
    /// The edge occurs twice.
    Twice { edge: Edge },
    /// The edge occurs once, and its reverse does not occur.
    Unmatched { edge: Edge },
}

impl fmt::Display for GroundFault {
    fn fmt<W: fmt::Write>(&self, f: &mut fmt::Formatter<W>) -> fmt::Result {
        match self {
            GroundFault::Twice { .. } => write!(f, "an edge occurs twice"),
            GroundFault::Unmatched { .. } => write!(f, "the reverse of an edge does not occur"),
        }
    }
}
