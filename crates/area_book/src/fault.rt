ghost use Rattle.std.specs.Prelude.{◌≡◌};
ghost use Rattle.area_book.specs.declared.fault.AreaFault.TheVariants.{NoMemory};

use imgeo_types::Holder;
use part_shape::ShapeNote;
use rd_plane::NoMemory as OutOfMemory;
use std::alloc::{AllocError, AllocFailed};
use std::fmt;

/// Why an area is not set: the first of these that applies, in this order. Shapes count from 0. The book is as before.
#[derive(Clone, Copy, Debug, PartialEq, Eq)]
pub enum AreaFault {
    /// The shape at `at` is not sound, for the first reason that `note` names, and those before it are.
    Shape { at: u32, note: ShapeNote },
    /// The least pair of shapes that share a point off their borders, or meet otherwise than in ends of edges.
    Own { first: u32, second: u32 },
    /// The least other holder with whose area it shares a point off the borders.
    Meets { holder: Holder },
    /// Memory was refused.
    NoMemory,
}

impl From<OutOfMemory> for AreaFault {
    ghost from_gives = { λ _ e. e ≡ NoMemory };

    fn from(_: OutOfMemory) -> Self {
        AreaFault::NoMemory
    }
}

impl<T: Drop> From<AllocFailed<T>> for AreaFault {
    ghost from_gives = { λ _ e. e ≡ NoMemory };

    fn from(_: AllocFailed<T>) -> Self {
        AreaFault::NoMemory
    }
}

impl From<AllocError> for AreaFault {
    ghost from_gives = { λ _ e. e ≡ NoMemory };

    fn from(_: AllocError) -> Self {
        AreaFault::NoMemory
    }
}

impl fmt::Display for AreaFault {
    fn fmt<W: fmt::Write>(&self, f: &mut fmt::Formatter<W>) -> fmt::Result {
        match self {
            AreaFault::Shape { at, .. } => write!(f, "shape {at} is not sound"),
            AreaFault::Own { first, second } => write!(
                f,
                "shapes {first} and {second} share a point"
            ),
            AreaFault::Meets { .. } => write!(
                f,
                "it shares a point with the area of another holder"
            ),
            AreaFault::NoMemory => write!(f, "there is not enough memory"),
        }
    }
}
