ghost use Rattle.std.specs.Prelude.{◌≡◌};
ghost use Rattle.box_index.specs.declared.fault.IndexFault.TheVariants.{NoMemory};

use rd_plane::NoMemory as OutOfMemory;
use std::alloc::AllocFailed;
use std::fmt;

/// Why a box is not put in. The index is as before.
#[derive(Clone, Copy, Debug, PartialEq, Eq)]
pub enum IndexFault {
    /// The slot has a box already.
    Taken,
    /// Memory was refused.
    NoMemory,
}

/// Why a box is not taken out: the slot has none. The index is as before.
#[derive(Clone, Copy, Debug, PartialEq, Eq)]
pub struct Absent;

impl From<OutOfMemory> for IndexFault {
    ghost from_gives = { λ _ e. e ≡ NoMemory };

    fn from(_: OutOfMemory) -> Self {
        IndexFault::NoMemory
    }
}

impl<T: Drop> From<AllocFailed<T>> for IndexFault {
    ghost from_gives = { λ _ e. e ≡ NoMemory };

    fn from(_: AllocFailed<T>) -> Self {
        IndexFault::NoMemory
    }
}

impl fmt::Display for IndexFault {
    fn fmt<W: fmt::Write>(&self, f: &mut fmt::Formatter<W>) -> fmt::Result {
        match self {
            IndexFault::Taken => write!(f, "the slot has a box already"),
            IndexFault::NoMemory => write!(f, "there is not enough memory"),
        }
    }
}

impl fmt::Display for Absent {
    fn fmt<W: fmt::Write>(&self, f: &mut fmt::Formatter<W>) -> fmt::Result {
        write!(f, "the slot has no box")
    }
}
