//! Text: the limits of a run, and the texts of messages, read and printed.
//!
//! A middle layer, over the plane, the fields and the names. It keeps which lines a message has, how each line is spelled,
//! and the numbers that bound a run. It promises that a text is read exactly where the grammar has it, with the line of
//! each fault exact, that a message has one canonical text, and that this text is read back. It knows no holder's history,
//! no rule on rings and codes, and no disk.
#![tactic(auto)]

mod cuts;
mod draft;
mod fault;
mod fields;
mod item_line;
pub mod laws;
mod level;
mod limited;
mod limits;
mod line;
mod message;
mod outer_line;
mod plain_ring;
mod print;
mod print_fields;
mod print_line;
mod read;
mod ring_line;
mod token;

pub use fault::{LimitName, TextFault};
pub use limits::Limits;
pub use message::{Header, Message, Mutation, Mutations};
pub use outer_line::read_ring;
pub use print::{print_message, push_object_lines, push_shape_lines};
pub use print_fields::{push_bytes, push_field};
pub use read::read_message;
