//! The register as a machine on paper: what it has, why a message is refused, what a message leaves, and what holds at every
//! moment.
//!
//! A layer between one holder's map and the register. It keeps the definitions of the state, of the rules in their order, of
//! one step and of a run over texts, with the words for a refusal; and the laws over them: a message has one answer, and where
//! the map of each holder tiled its area at every moment, it does so after every step. It has no code that judges a message.
#![tactic(auto)]

mod last;
pub mod laws;
mod refusal;
pub mod run_laws;

pub use last::LastMessage;
pub use refusal::{Answer, AreaNote, FullName, Refusal};
