ghost use Rattle.std.specs.Prelude.{◌≡◌};
ghost use Rattle.local_check.specs.declared.fault.MapFault.TheVariants.{NoMemory};

use imgeo_types::Ident;
use rd_plane::{Edge, NoMemory as OutOfMemory, Pt};
use std::fmt;

/// Why a change is not tried: the first of these that applies to the whole new map, in this order. The map is as before.
#[derive(Clone, Copy, Debug, PartialEq, Eq)]
pub enum MapFault {
    /// The least pair of objects at one level that share a point off their borders, the smaller identification first.
    LevelOverlap { first: Ident, second: Ident },
    /// The least vertex that lies strictly inside a border edge, and the least such edge.
    Node { vertex: Pt, edge: Edge },
    /// The least border edge that occurs twice or whose reverse does not occur.
    Tiled { edge: Edge },
    /// Memory was refused.
    NoMemory,
}

impl From<OutOfMemory> for MapFault {
    ghost from_gives = { λ _ e. e ≡ NoMemory };

    fn from(_: OutOfMemory) -> Self {
        MapFault::NoMemory
    }
}

impl fmt::Display for MapFault {
    fn fmt<W: fmt::Write>(&self, f: &mut fmt::Formatter<W>) -> fmt::Result {
        match self {
            MapFault::LevelOverlap { .. } => write!(f, "two objects at one level share a point"),
            MapFault::Node { .. } => write!(f, "a corner lies inside an edge"),
            MapFault::Tiled { .. } => write!(
                f,
                "an edge occurs twice, or its reverse does not occur"
            ),
            MapFault::NoMemory => write!(f, "there is not enough memory"),
        }
    }
}
