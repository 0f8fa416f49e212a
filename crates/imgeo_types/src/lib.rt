//! The names of the register: holders, identifications, kinds, codes, and the items that have them.
//!
//! A layer above the fields of a line and the code tables. It keeps which bytes are such a name, which kinds there are
//! and which codes each takes. It promises that a name that was read has the bytes that were read, that each kind has a
//! word of its own, and that an item passes exactly where the catalogue has it so.
//! It knows no message and no version.
#![tactic(auto)]

mod check;
mod code;
mod fault;
mod holder;
mod ident;
mod item;
mod key;
mod kind;
pub mod laws;

pub use check::check_item;
pub use code::Code;
pub use fault::ItemFault;
pub use holder::Holder;
pub use ident::{Ident, Idents};
pub use item::Item;
pub use key::IdentKey;
pub use kind::{Attr, Kind};
