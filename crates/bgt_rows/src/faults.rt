//! A failing call at each place of a run, and an input as long as its limit.

use crate::messages::FIRST;
use crate::runs::{answered, joined, ran};
use bgt_cli::Status;
use message_text::Limits;
use outside::MemOutside;
use std::alloc::Global;
use std::test::Fail;

// The run of `check` on the smallest map takes its 266 bytes in three pieces, tells the 5 bytes of its line in one, and
// takes once more to meet the end.
const PIECE: usize = 100;

const LINE: &[u8] = b"1 OK\n";

fn failing(alloc: Global, call: u64, piece: usize) -> Result<(Vec<u8>, Status), Fail> {
    let piece = piece.max(1);
    let mut outside = MemOutside::new(alloc, FIRST.as_bytes(), b"", piece, &[call], None, 1 << 20)?;
    let status = ran(alloc, &["check"], &Limits::standard(), &mut outside);
    Ok((outside.told().to_vec(alloc)?, status))
}

#[test]
fn each_call_fails(rt: HostRuntime) -> Result<(), Fail> {
    // Call, bytes of the line that are told, and the status.
    let rows = [
        (1, 0, Status::ReadFault),
        (2, 0, Status::ReadFault),
        (3, 0, Status::ReadFault),
        (4, 0, Status::WriteFault),
        (5, 5, Status::ReadFault),
        (6, 5, Status::Good),
    ];
    for (call, bytes, ends) in rows {
        let (told, status) = failing(rt.alloc(), call, PIECE)?;
        assert_eq!(rt; told.as_slice(), &LINE[..bytes], "call {call}");
        assert_eq!(rt; status, ends, "call {call}");
    }
    Ok(())
}

#[test]
fn each_give_of_a_byte_fails(rt: HostRuntime) -> Result<(), Fail> {
    // In one-byte pieces there are 266 takes, then five gives, and then the take that meets the end.
    for bytes in 0..5usize {
        let (told, status) = failing(rt.alloc(), 267 + bytes as u64, 1)?;
        assert_eq!(rt; told.as_slice(), &LINE[..bytes], "byte {bytes}");
        assert_eq!(rt; status, Status::WriteFault, "byte {bytes}");
    }
    Ok(())
}

#[test]
fn all_calls_stop(rt: HostRuntime) -> Result<(), Fail> {
    // No call after this one is answered: bytes of the line that are told, and the status.
    let rows = [
        (0, 0, Status::ReadFault),
        (3, 0, Status::WriteFault),
        (4, 5, Status::ReadFault),
        (5, 5, Status::Good),
    ];
    for (stop, bytes, ends) in rows {
        let input = FIRST.as_bytes();
        let mut outside = MemOutside::new(rt.alloc(), input, b"", PIECE, &[], Some(stop), 1 << 20)?;
        let status = ran(rt.alloc(), &["check"], &Limits::standard(), &mut outside);
        assert_eq!(rt; outside.told(), &LINE[..bytes], "stop {stop}");
        assert_eq!(rt; status, ends, "stop {stop}");
    }
    Ok(())
}

#[test]
fn usage_is_cut_short(rt: HostRuntime) -> Result<(), Fail> {
    for (call, front) in [
        (1, b"".as_slice()),
        (2, b"USA".as_slice()),
        (3, b"USAGE\n".as_slice()),
    ] {
        let mut outside = MemOutside::new(rt.alloc(), b"x", b"", 3, &[call], None, 1 << 20)?;
        let status = ran(rt.alloc(), &["chec"], &Limits::standard(), &mut outside);
        assert_eq!(rt; outside.told(), front, "call {call}");
        let ends = if call < 3 {
            Status::WriteFault
        } else {
            Status::Usage
        };
        assert_eq!(rt; status, ends, "call {call}");
    }
    Ok(())
}

#[test]
fn input_as_long_as_the_limit(rt: HostRuntime) -> Result<(), Fail> {
    // The smallest map has 266 bytes. How many may be taken, and how the run ends.
    let rows = [
        (1, Status::InputLong),
        (265, Status::InputLong),
        (266, Status::InputLong),
        (267, Status::Good),
    ];
    for (input_bytes, ends) in rows {
        let limits = Limits {
            input_bytes,
            ..Limits::standard()
        };
        let (told, status) = answered(rt.alloc(), &["check"], &limits, FIRST.as_bytes(), 64)?;
        assert_eq!(rt; status, ends, "{input_bytes} bytes");
        let line = if input_bytes >= 266 {
            LINE
        } else {
            b"".as_slice()
        };
        assert_eq!(rt; told.as_slice(), line, "{input_bytes} bytes");
    }
    Ok(())
}

#[test]
fn no_reply_waits_for_the_next_piece(rt: HostRuntime) -> Result<(), Fail> {
    // The source stops after the last byte of the smallest map: its line was told before another byte was asked for.
    let stream = joined(
        rt.alloc(),
        &[FIRST, "BERICHT G0001 2024-01-01T00:00:02\nEIN"],
    )?;
    let stop = FIRST.len() as u64 + 5;
    let mut outside = MemOutside::new(
        rt.alloc(),
        stream.as_bytes(),
        b"",
        1,
        &[],
        Some(stop),
        1 << 20,
    )?;
    let status = ran(rt.alloc(), &["check"], &Limits::standard(), &mut outside);
    assert_eq!(rt; outside.told(), LINE);
    assert_eq!(rt; status, Status::ReadFault);
    Ok(())
}
