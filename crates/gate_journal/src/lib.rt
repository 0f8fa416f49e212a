//! A file of payloads, each after a gate: what was added survives a crash, and a crash never invents a payload.
//!
//! ```text
//! | mark (8) | gate | length (8) | payload | gate | ..      a gate is 1 where the record after it counts
//! ```
//!
//! To add a record: 1 write it with the next gate after it, closed. 2 sync. 3 open the gate before it. 4 sync.
//!
//! - Without the closed gate after it, what stood in the file there could count once the gate is opened.
//! - Without 2, a crash may keep the open gate and lose the record.
//! - Without 4, a crash may close the gate again that was told to be open.
//!
//! It stands on `outside` and knows its disk model; it knows nothing of messages.
#![tactic(auto)]

mod fault;
mod frame;
mod journal;
mod laws;
mod mode;

pub use fault::JournalFault;
pub use frame::Frame;
pub use journal::Journal;
pub use laws::stands_for_one;
pub use mode::Mode;
