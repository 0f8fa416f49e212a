//! Loads in which one call fails, or none is answered after one: what each tells, how it ends, and what the next `load` finds in
//! the file as it reads, as it was synced last, and with each byte that was written since then changed.

use bgt_cli::Status;
use bgt_rows::messages::{BENT, HALVES};
use bgt_rows::runs::{joined, ran};
use message_text::Limits;
use outside::{Call, MemOutside};
use std::alloc::{AllocError, Global};
use std::test::Fail;

// Messages that are all taken, and what a `load` of them tells over a file that has none of them, the first, and so on.
#[derive(Clone, Copy)]
struct Case {
    messages: &'static [&'static str],
    told: &'static [&'static [u8]],
}

const SMALL: Case = Case {
    messages: &[
        "BERICHT G0001 2024-01-01T00:00:01\nEINDE\n",
        "BERICHT G0001 2024-01-01T00:00:02\nEINDE\n",
        "BERICHT G0001 2024-01-01T00:00:03\nEINDE\n",
    ],
    told: &[
        b"1 OK\n2 OK\n3 OK\n",
        b"1 E5 STALE 2024-01-01T00:00:01\n2 OK\n3 OK\n",
        b"1 E5 STALE 2024-01-01T00:00:02\n2 E5 STALE 2024-01-01T00:00:02\n3 OK\n",
        b"1 E5 STALE 2024-01-01T00:00:03\n2 E5 STALE 2024-01-01T00:00:03\n3 E5 STALE 2024-01-01T00:00:03\n",
    ],
};

// Two parts, and the border between them moved.
const MOVED: Case = Case {
    messages: &[HALVES, BENT],
    told: &[
        b"1 OK\n2 OK\n",
        b"1 E5 STALE 2024-01-01T00:00:01\n2 OK\n",
        b"1 E5 STALE 2024-01-01T00:00:02\n2 E5 STALE 2024-01-01T00:00:02\n",
    ],
};

const ROOM: usize = 1 << 15;

// How a run ends whose last call this is.
fn ends(last: Option<&Call>) -> Status {
    match last {
        Some(Call::TakeFailed) => Status::ReadFault,
        Some(Call::GiveFailed) => Status::WriteFault,
        Some(Call::DiskFailed) => Status::DiskFault,
        Some(Call::WriteFailed { .. }) => Status::DiskFault,
        _ => Status::Good,
    }
}

// Changes the byte at this place of the file, which is at its end at most.
fn change(file: &mut Vec<u8>, place: u64) -> Result<(), AllocError> {
    match file.get_mut(place as usize) {
        Some(byte) => *byte = 255,
        None => file.push(255)?,
    }
    Ok(())
}

// The file as it was synced last, with each byte that was written since then as 255.
fn torn(alloc: Global, outside: &MemOutside) -> Result<Vec<u8>, AllocError> {
    let mut file = outside.synced().to_vec(alloc)?;
    for call in 0..outside.entries().len() {
        let (at, size) = outside.written(call).unwrap_or((0, 0));
        for place in at..at.saturating_add(size) {
            change(&mut file, place)?;
        }
    }
    Ok(file)
}

// The file with all of the messages: before each an open gate and its length, and a closed gate at the end.
fn file_of(alloc: Global, messages: &[&str]) -> Result<Vec<u8>, AllocError> {
    let mut file = b"BGTJ0001".to_vec(alloc)?;
    for message in messages {
        file.push(1)?;
        file.extend_from_slice(&(message.len() as u64).to_be_bytes())?;
        file.extend_from_slice(message.as_bytes())?;
    }
    file.push(0)?;
    Ok(file)
}

// How many of the messages a `load` finds in the file, by what it tells, where the file has all of them then.
fn found(alloc: Global, case: &Case, file: &[u8]) -> Result<Option<usize>, Fail> {
    let input = joined(alloc, case.messages)?;
    let mut outside = MemOutside::new(alloc, input.as_bytes(), file, 1 << 12, &[], None, ROOM)?;
    ran(alloc, &["load", "F"], &Limits::standard(), &mut outside);
    let whole = file_of(alloc, case.messages)?;
    if outside.disk() != whole.as_slice() {
        return Ok(None);
    }
    Ok(case.told.iter().position(|told| *told == outside.told()))
}

// What a run over an empty file told, how it ended, how its last call says that it ends, and how many messages the next run finds.
#[derive(Drop)]
struct Ended {
    told: Vec<u8>,
    status: Status,
    due: Status,
    found: [Option<usize>; 3],
}

// A run of which these calls fail.
fn tried(
    alloc: Global,
    case: &Case,
    piece: usize,
    failing: &[u64],
    stop: Option<u64>,
) -> Result<Ended, Fail> {
    let piece = piece.max(1);
    let input = joined(alloc, case.messages)?;
    let mut outside = MemOutside::new(alloc, input.as_bytes(), b"", piece, failing, stop, ROOM)?;
    let status = ran(alloc, &["load", "F"], &Limits::standard(), &mut outside);
    let torn = torn(alloc, &outside)?;
    Ok(Ended {
        told: outside.told().to_vec(alloc)?,
        status,
        due: ends(outside.entries().last()),
        found: [
            found(alloc, case, outside.disk())?,
            found(alloc, case, outside.synced())?,
            found(alloc, case, &torn)?,
        ],
    })
}

// What it tells where no call fails.
fn whole_text(case: &Case) -> &'static [u8] {
    case.told.first().copied().unwrap_or(b"")
}

#[test]
fn each_call_fails_or_is_the_last(rt: HostRuntime) -> Result<(), Fail> {
    // The messages, the bytes of a piece, and the calls of a run of which none fails. In pieces of 4 bytes a line is told in two
    // calls.
    for (case, piece, calls) in [(SMALL, 4, 54), (SMALL, 100, 23), (MOVED, 100, 27)] {
        for call in 0..calls + 1 {
            let fails = tried(rt.alloc(), &case, piece, &[call + 1], None)?;
            let stops = tried(rt.alloc(), &case, piece, &[], Some(call))?;
            for tried in [fails, stops] {
                let lines = tried.told.iter().filter(|byte| **byte == b'\n').count();
                assert_eq!(rt; tried.status, tried.due, "call {call}");
                assert_eq!(rt; tried.status == Status::Good, call == calls, "call {call}");
                assert!(rt; whole_text(&case).starts_with(&tried.told), "call {call}");
                // Only where a write failed a line may be told in part.
                let whole = tried.told.len() == lines.wrapping_mul(5);
                assert!(rt; whole || tried.status == Status::WriteFault, "call {call}");
                for found in tried.found {
                    let near = found == Some(lines) || found == Some(lines + 1);
                    assert!(rt; near, "call {call}, {lines} lines, {found:?} found");
                }
            }
        }
    }
    Ok(())
}
