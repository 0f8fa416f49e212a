//! The worked rows of `rings`: what is said of each line, of a tail and of other words, and what fails.

use crate::runs::ran;
use bgt_cli::Status;
use message_text::{Limits, read_ring};
use outside::{Call, MemOutside};
use std::alloc::Global;
use std::test::Fail;

// What a run told, how it ended, and whether it did anything but take and tell.
#[derive(Drop)]
struct Outcome {
    told: Vec<u8>,
    ends: Status,
    is_quiet: bool,
}

// A run of `rings` in which these calls fail, with pieces of so many bytes.
fn judged(
    alloc: Global,
    input: &[u8],
    limits: &Limits,
    piece: usize,
    failing: &[u64],
) -> Result<Outcome, Fail> {
    let piece = piece.max(1);
    let mut outside = MemOutside::new(
        alloc,
        input,
        b"hello, world",
        piece,
        failing,
        None,
        1 << 16,
    )?;
    let ends = ran(alloc, &["rings"], limits, &mut outside);
    let is_quiet = outside.entries().iter().all(|call| matches!(
        call,
        Call::Took { .. } | Call::TakeFailed | Call::Gave { .. } | Call::GiveFailed
    ));
    Ok(Outcome {
        told: outside.told().to_vec(alloc)?,
        ends,
        is_quiet,
    })
}

const SQUARE: &str =
    "RING 100000.000 400000.000 100010.000 400000.000 100010.000 400010.000 100000.000 400010.000\n";

// An input, what is told of it, and the status.
const ROWS: &[(&str, &str, Status)] = &[
    ("", "", Status::Good),
    (SQUARE, "1 OK\n", Status::Good),
    // a corner in the middle of a side, other spellings, and a closing point
    (
        "RING 100000.000 400000.000 100005.000 400000.000 100010.000 400000.000 100010.000 400010.000 100000.000 400010.000\n",
        "1 OK\n",
        Status::Good,
    ),
    (
        "RING 100000 400000 0100010.5 400000.0 100000 400010.00 100000.000 400000\n",
        "1 OK\n",
        Status::Good,
    ),
    (
        "RING 100000.000 400000.000 100000.000 400010.000 100010.000 400010.000 100010.000 400000.000\n",
        "1 CLOCKWISE\n",
        Status::Refused,
    ),
    (
        "RING 100000.000 400000.000 100010.000 400010.000 100010.000 400000.000 100000.000 400010.000\n",
        "1 meets 0 2\n",
        Status::Refused,
    ),
    (
        "RING 100000.000 400000.000 100005.000 400005.000 100010.000 400000.000 100005.000 400005.000 100000.000 400010.000\n",
        "1 repeat 3\n",
        Status::Refused,
    ),
    (
        "RING 100000.000 400000.000 100010.000 400000.000 100000.000 400000.000\n",
        "1 few\n",
        Status::Refused,
    ),
    // lines that are no outer ring
    ("X\n", "1 SYNTAX\n", Status::Refused),
    ("\n", "1 SYNTAX\n", Status::Refused),
    ("RING\n", "1 SYNTAX\n", Status::Refused),
    ("RING 100000\n", "1 SYNTAX\n", Status::Refused),
    (
        "RING 100000 400000 100010 400000 100010 400010 100000 800000.001\n",
        "1 SYNTAX\n",
        Status::Refused,
    ),
    (
        "RING  100000 400000 100010 400000 100010 400010\n",
        "1 SYNTAX\n",
        Status::Refused,
    ),
    (
        "RING 100000 400000 100010 400000 100010 400010\r\n",
        "1 SYNTAX\n",
        Status::Refused,
    ),
    (
        "GAT 100000 400000 100000 400010 100010 400010\n",
        "1 SYNTAX\n",
        Status::Refused,
    ),
    (
        "RINGBOOG 100000 400000 100010 400000 100010 400010\n",
        "1 SYNTAX\n",
        Status::Refused,
    ),
    ("EINDE\n", "1 SYNTAX\n", Status::Refused),
    // tails, of which the line feed is no part
    ("RING 1", "TAIL 6\n", Status::Refused),
    (
        "RING 100000 400000 100010 400000 100010 400010",
        "TAIL 46\n",
        Status::Refused,
    ),
    (
        "\nRING 100000 400000 100010 400000 100010 400010\n\nRING 100000 400000 100010 400010 100010 400000\nX",
        "1 SYNTAX\n2 OK\n3 SYNTAX\n4 CLOCKWISE\nTAIL 1\n",
        Status::Refused,
    ),
    (
        "RING 100000 400000 100010 400000 100010 400010\nRING 100000 400000 100010 400000 100010 400010\n",
        "1 OK\n2 OK\n",
        Status::Good,
    ),
];

#[test]
fn rows(rt: HostRuntime) -> Result<(), Fail> {
    for (i, (input, want, ends)) in ROWS.iter().enumerate() {
        for piece in [1, 65_536] {
            let found = judged(
                rt.alloc(),
                input.as_bytes(),
                &Limits::standard(),
                piece,
                &[],
            )?;
            assert_eq!(rt; found.told.as_slice(), want.as_bytes(), "row {i}");
            assert_eq!(rt; found.ends, *ends, "row {i}");
            assert!(rt; found.is_quiet, "row {i}");
        }
    }
    Ok(())
}

// How many points a ring may have, a line, and the reply.
const LIMITED: &[(u32, &str, &str)] = &[
    (4, SQUARE, "1 OK\n"),
    (3, SQUARE, "1 LIMIT\n"),
    // the closing point does not count
    (
        3,
        "RING 100000 400000 100010 400000 100010 400010 100000 400000\n",
        "1 OK\n",
    ),
    // the limit is tried before the ring is judged, and after the line is read
    (2, "RING 100000 400000 100010 400000\n", "1 few\n"),
    (1, "RING 100000 400000 100010 400000\n", "1 LIMIT\n"),
    (
        3,
        "RING 100000 400000 100010 400010 100010 400000 100000 400010\n",
        "1 LIMIT\n",
    ),
    (
        3,
        "RING 100000 400000 100010 400010 100010 400000 100000\n",
        "1 SYNTAX\n",
    ),
];

#[test]
fn limits(rt: HostRuntime) -> Result<(), Fail> {
    for (i, (points, line, want)) in LIMITED.iter().enumerate() {
        let limits = Limits {
            ring_points: *points,
            ..Limits::standard()
        };
        let found = judged(rt.alloc(), line.as_bytes(), &limits, 7, &[])?;
        assert_eq!(rt; found.told.as_slice(), want.as_bytes(), "row {i}");
    }
    Ok(())
}

// Two lines of 2 bytes and a tail, in pieces of 4 bytes: two takes and the end, then the text of 25 bytes in seven gives.
const SHORT: &[u8] = b"X\nY\nZ";

// Which calls fail, how many bytes the input may have, how many bytes are told, and the status.
const FAULTS: &[(&[u64], u64, usize, Status)] = &[
    (&[], 6, 25, Status::Refused),
    (&[], 5, 0, Status::InputLong),
    (&[], 1, 0, Status::InputLong),
    (&[1], 6, 0, Status::ReadFault),
    (&[2], 6, 0, Status::ReadFault),
    (&[3], 6, 0, Status::ReadFault),
    (&[4], 6, 0, Status::WriteFault),
    (&[6], 6, 8, Status::WriteFault),
    (&[10], 6, 24, Status::WriteFault),
];

#[test]
fn each_call_fails(rt: HostRuntime) -> Result<(), Fail> {
    let want = b"1 SYNTAX\n2 SYNTAX\nTAIL 1\n";
    for (i, (failing, most, bytes, ends)) in FAULTS.iter().enumerate() {
        let limits = Limits {
            input_bytes: *most,
            ..Limits::standard()
        };
        let found = judged(rt.alloc(), SHORT, &limits, 4, failing)?;
        assert!(rt; want.starts_with(&found.told), "row {i}");
        assert_eq!(rt; found.told.len(), *bytes, "row {i}");
        assert_eq!(rt; found.ends, *ends, "row {i}");
        assert!(rt; found.is_quiet, "row {i}");
    }
    Ok(())
}

// A line, and how many points its ring has; `None` where it is no line of an outer ring.
const LINES: &[(&str, Option<usize>)] = &[
    (SQUARE, Some(4)),
    ("RING 1 400000\n", Some(1)),
    ("RING 1 400000 2 400000 1 400000\n", Some(2)),
    ("RING 1 400000", None),
    ("RING 1 400000\n\n", None),
    ("RING 1 400000\nRING 1 400000\n", None),
    ("RINGBOOG 1 400000\n", None),
    ("GAT 1 400000\n", None),
    ("\n", None),
    ("", None),
];

#[test]
fn lines(rt: HostRuntime) -> Result<(), Fail> {
    for (i, (line, want)) in LINES.iter().enumerate() {
        match read_ring(rt.alloc(), line.as_bytes()) {
            Ok(Some(ring)) => assert!(rt; *want == Some(ring.len()), "row {i}"),
            Ok(None) => assert!(rt; want.is_none(), "row {i}"),
            Err(_) => assert!(rt; false, "row {i}"),
        }
    }
    Ok(())
}
