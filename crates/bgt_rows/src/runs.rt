//! Runs of the whole program over an outside in memory, where no call fails.

use bgt_cli::{Status, run};
use message_text::Limits;
use outside::MemOutside;
use std::alloc::{AllocError, Global};
use std::test::Fail;

/// These texts, one after the other.
pub fn joined(alloc: Global, texts: &[&str]) -> Result<String, AllocError> {
    let mut stream = String::new(alloc);
    for text in texts {
        stream.push_str(text)?;
    }
    Ok(stream)
}

/// How a run over this outside ends; `Usage` where the limits are not valid, and then nothing is run. It says nothing of the run, so
/// that a test that calls it does not carry the contract of `run` through its proof.
pub fn ran(alloc: Global, words: &[&str], limits: &Limits, outside: &mut MemOutside) -> Status {
    if limits.is_valid() {
        run(alloc, words, limits, outside)
    } else {
        Status::Usage
    }
}

/// What a run tells, and how it ends, where no call fails.
pub fn answered(
    alloc: Global,
    words: &[&str],
    limits: &Limits,
    input: &[u8],
    piece: usize,
) -> Result<(Vec<u8>, Status), Fail> {
    let piece = piece.max(1);
    let mut outside = MemOutside::new(alloc, input, b"", piece, &[], None, 1 << 20)?;
    let ends = ran(alloc, words, limits, &mut outside);
    Ok((outside.told().to_vec(alloc)?, ends))
}

/// What `check` tells of an input, and how it ends.
pub fn checked(alloc: Global, input: &[u8], piece: usize) -> Result<(Vec<u8>, Status), Fail> {
    answered(alloc, &["check"], &Limits::standard(), input, piece)
}
