use map_rules::Refusal;
use rd_plane::NoMemory as OutOfMemory;
use std::fmt;

/// Why a message is not tried.
#[derive(Clone, Copy, Debug, PartialEq, Eq)]
pub enum CoreFault {
    /// The message is refused, for this reason.
    Refused(Refusal),
    /// Memory was refused.
    NoMemory,
}

impl fmt::Display for CoreFault {
    fn fmt<W: fmt::Write>(&self, f: &mut fmt::Formatter<W>) -> fmt::Result {
        match self {
            CoreFault::Refused(refusal) => write!(f, "{refusal}"),
            CoreFault::NoMemory => write!(f, "no memory"),
        }
    }
}

impl From<OutOfMemory> for CoreFault {
    ghost use Rattle.std.specs.Prelude.{◌≡◌};
    ghost use Rattle.map_core.specs.declared.fault.CoreFault.TheVariants as fault;

    ghost from_gives = { λ _ e. e ≡ fault.NoMemory };

    fn from(_: OutOfMemory) -> Self {
        CoreFault::NoMemory
    }
}
