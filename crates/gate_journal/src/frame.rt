ghost use Rattle.std.specs.Prelude.{◌≡◌, ◌<◌, ◌^◌, ◌+◌, ◌++◌, ◌∷◌, [], length, IfOk};
ghost use Rattle.gate_journal.specs.Journal.{frame};

use byteorder::{BigEndian, ByteOrder};
use rd_plane::NoMemory;
use std::alloc::Global;
use std::marker::Model;

/// A record's bytes after its gate: length, payload and the next gate, closed. Contracts see it as the payload.
#[derive(Drop)]
pub struct Frame {
    bytes: Vec<u8>,
}

impl Model for Frame {
    ghost use Rattle.std.specs.Prelude.{◌≡◌, ◌<◌, ◌^◌, ◌++◌, ◌∷◌, [], List, ℕ, length};
    ghost use Rattle.gate_journal.specs.Journal.{frame};
    ghost use Rattle.gate_journal.specs.Frames.{payload_in};

    ghost Value = { List ℕ };

    ghost view = { λ f. payload_in f.bytes.items };

    ghost invariant = { λ f. (f.bytes.items ≡ frame (payload_in f.bytes.items) ++ 0 ∷ []) × (length (payload_in f.bytes.items) < 2 ^ 64) };
}

impl Frame {
    /// The record of a payload. It takes the memory that adding it to a journal wants.
    pub fn make(alloc: Global, payload: &[u8]) -> Result<Frame, NoMemory>
        ensures { IfOk result (λ f. f ≡ payload.now) }
    {
        let mut bytes = Vec::with_capacity(alloc, 9)?;
        let mut size = [0; 8];
        BigEndian::write_u64(&mut size, payload.len() as u64);
        bytes.extend_from_slice(&size)?;
        bytes.extend_from_slice(payload)?;
        bytes.push(0)?;
        Ok(Frame { bytes })
    }

    /// How many bytes the record has, with the next gate.
    pub fn len(&self) -> usize
        ensures { result ≡ length self.now + 9 }
    {
        self.bytes.len()
    }

    pub fn bytes(&self) -> &[u8]
        ensures bytes { result.now ≡ frame self.now ++ 0 ∷ [] }
        ensures size { length self.now < 2 ^ 64 }
    {
        &self.bytes
    }
}
