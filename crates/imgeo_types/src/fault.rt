use crate::kind::Attr;
use std::fmt;

/// What is wrong with an item. Of more faults than one the first in this order counts, and the attributes are tried one
/// after the other: functie, fysiekVoorkomen, type.
#[derive(Clone, Copy, Debug, PartialEq, Eq)]
pub enum ItemFault {
    /// The level is not from -99 to 99, as `100`.
    Level,
    /// The attribute has a value that the kind's table does not list, as `gras` for the fysiekVoorkomen of an
    /// `onbegroeid_terreindeel`, or the kind has no such attribute.
    Code {
        /// The attribute that has the value.
        attr: Attr,
    },
    /// The kind has the attribute, and the item gives no value.
    Missing {
        /// The attribute that has no value.
        attr: Attr,
    },
    /// There is a number of a building, and the kind is another than `pand`, or it is not 16 digits.
    PandNumber,
}

impl fmt::Display for ItemFault {
    fn fmt<W: fmt::Write>(&self, f: &mut fmt::Formatter<W>) -> fmt::Result {
        match self {
            ItemFault::Level => write!(f, "the level is not from -99 to 99"),
            ItemFault::Code { attr } => write!(f, "{} has a value that is not listed", attr.word()),
            ItemFault::Missing { attr } => write!(f, "{} has no value", attr.word()),
            ItemFault::PandNumber => write!(f, "the number of a building is out of place"),
        }
    }
}
