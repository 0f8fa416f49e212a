//! What the program reaches: input to take bytes from, a sink to give bytes to, and one file.
//!
//! The lowest crate of the disk's layer, and the only one that meets the world. It keeps no message and no map.
//! It promises that a call fails only where its count rose, and, where the object tells its content, that the bytes
//! taken are the next ones of the input, the bytes told those of the piece, and the bytes read those of the file.
//! Of each moment it says what had been told by then and what a crash might have left of the file:
//!
//! - a write that was not synced may be torn: any bytes in its range, and any past the synced length; all others stay;
//! - after a sync a crash leaves what a read gives, and nothing else.
//!
//! `RealOutside` is the trusted edge; `MemOutside` and `FaultFree` stand in memory. It knows nothing of what the bytes say.
#![tactic(auto)]

mod call;
mod fault;
mod fault_free;
mod mem_disk;
mod mem_outside;
mod real_outside;
mod traits;

pub use call::{Call, ENTRY_BYTES};
pub use fault::Failed;
pub use fault_free::FaultFree;
pub use mem_outside::MemOutside;
pub use real_outside::RealOutside;
pub use traits::Outside;
