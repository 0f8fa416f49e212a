//! The code tables of the object catalogues BGT and IMGeo, as this register's own profile has them.
//!
//! A layer of its own: it stands on nothing. It keeps twelve closed lists of texts, and promises that a text is known
//! exactly where its table lists it, and then has one place. A look costs at most 17 comparisons of texts.
//! It does not know which kind of object has which table, nor what a code is good for.
#![tactic(auto)]

mod codes;
pub mod laws;
mod table;

pub use codes::{Codes, HasText, TextTable};
pub use table::{Table, known};
