//! The worked rows of the command `check`, and what other words do.

use crate::messages::{
    ADDED_AGAIN, AREA_AGAIN, BEFORE_IT, BENT, BESIDE, CHANGED, CORNER, CROSSING, DOUBLED, ENDED,
    FAR, FIRST, GAP, HALVES, LESS, NO_AREA, NOTHING, OLD, OPEN, OTHER, OTHER_AGAIN, OVER, PAIRS,
    PINCHED, SIDE_BY_SIDE, SQUARE_AGAIN, TOO_FAR, TOUCHING,
};
use crate::runs::{answered, checked, joined};
use bgt_cli::Status;
use message_text::Limits;
use std::test::Fail;

const ROWS: &[(&[&str], &str, Status)] = &[
    (&[], "", Status::Good),
    (&[FIRST], "1 OK\n", Status::Good),
    (&[HALVES], "1 OK\n", Status::Good),
    (
        &[GAP],
        "1 E20 TILED 100005.000 400000.000 100006.000 400005.000\n",
        Status::Refused,
    ),
    (
        &[DOUBLED],
        "1 E20 TILED 100000.000 400000.000 100010.000 400000.000\n",
        Status::Refused,
    ),
    // Three parts of which one lacks the corner of the others.
    (
        &[CROSSING],
        "1 E19 NODE 100005.000 400005.000 100005.000 400000.000 100005.000 400010.000\n",
        Status::Refused,
    ),
    (
        &[HALVES, BENT, OLD],
        "1 OK\n2 OK\n3 E11 WAS 1 2024-01-01T00:00:02\n",
        Status::Refused,
    ),
    (
        &[HALVES, HALVES],
        "1 OK\n2 E5 STALE 2024-01-01T00:00:01\n",
        Status::Refused,
    ),
    (
        &[HALVES, OPEN, LESS, ENDED],
        "1 OK\n2 E20 TILED 100005.000 400000.000 100005.000 400010.000\n3 OK\n4 E9 UNKNOWN 1 2024-01-01T00:00:03\n",
        Status::Refused,
    ),
    // An identification is known also once its version has ended.
    (
        &[HALVES, LESS, ADDED_AGAIN],
        "1 OK\n2 OK\n3 E8 KNOWN 1\n",
        Status::Refused,
    ),
    // An area may not come before the last area of another holder.
    (
        &[HALVES, AREA_AGAIN, OTHER],
        "1 OK\n2 OK\n3 E5 STALE 2024-01-01T00:00:02\n",
        Status::Refused,
    ),
    (&[PINCHED], "1 OK\n", Status::Good),
    (&[FAR], "1 OK\n", Status::Good),
    (&[TOO_FAR], "1 E2 SYNTAX 3\n", Status::Refused),
    (
        &[FIRST, "BERICHT G0001 2024-01-01T00:00:02\nEIN"],
        "1 OK\nTAIL 37\n",
        Status::Refused,
    ),
    (
        &[FIRST, NOTHING],
        "1 OK\n2 E5 STALE 2024-01-01T00:00:01\n",
        Status::Refused,
    ),
    // Two holders, each answered as alone.
    (
        &[HALVES, OTHER, BENT, OTHER_AGAIN, OLD],
        "1 OK\n2 OK\n3 OK\n4 OK\n5 E11 WAS 1 2024-01-01T00:00:02\n",
        Status::Refused,
    ),
    (
        &[OTHER, HALVES, OTHER, HALVES, OTHER_AGAIN, BENT],
        "1 OK\n2 OK\n3 E5 STALE 2024-01-01T00:00:01\n4 E5 STALE 2024-01-01T00:00:01\n5 OK\n6 OK\n",
        Status::Refused,
    ),
    // The areas of two holders are apart, and may share a side.
    (
        &[
            FIRST,
            OVER,
            CHANGED,
            BESIDE,
            NO_AREA,
            SQUARE_AGAIN,
            BEFORE_IT,
        ],
        "1 OK\n2 E17 AREA meets G0001\n3 OK\n4 OK\n5 OK\n6 OK\n7 E5 STALE 2024-01-01T00:00:03\n",
        Status::Refused,
    ),
    // The shapes of one area meet in corners of both alone.
    (&[SIDE_BY_SIDE], "1 E17 AREA own 0 1\n", Status::Refused),
    (&[CORNER], "1 OK\n", Status::Good),
    (&[TOUCHING], "1 E17 AREA own 0 1\n", Status::Refused),
    (&[PAIRS], "1 E17 AREA own 0 2\n", Status::Refused),
    (&["\n", FIRST], "1 E2 SYNTAX 1\n", Status::Refused),
    (
        &["EINDE\nEINDE\n"],
        "1 E2 SYNTAX 1\n2 E2 SYNTAX 1\n",
        Status::Refused,
    ),
    (
        &["<?xml version=\"1.0\"?>\nEINDE\n"],
        "1 E2 SYNTAX 1\n",
        Status::Refused,
    ),
    (&["x"], "TAIL 1\n", Status::Refused),
];

#[test]
fn worked_rows(rt: HostRuntime) -> Result<(), Fail> {
    for (row, (texts, lines, ends)) in ROWS.iter().enumerate() {
        let stream = joined(rt.alloc(), texts)?;
        for piece in [1, 7, 64, 1 << 20] {
            let (told, status) = checked(rt.alloc(), stream.as_bytes(), piece)?;
            assert_eq!(rt;
                told.as_slice(),
                lines.as_bytes(),
                "row {row} in pieces of {piece}"
            );
            assert_eq!(rt; status, *ends, "row {row} in pieces of {piece}");
        }
    }
    Ok(())
}

#[test]
fn any_chunking(rt: HostRuntime) -> Result<(), Fail> {
    let stream = joined(rt.alloc(), &[NOTHING, "X\nEINDE\n", NOTHING, "EIND"])?;
    let lines = b"1 OK\n2 E2 SYNTAX 1\n3 E5 STALE 2024-01-01T00:00:01\nTAIL 4\n";
    for piece in 1..=stream.len() {
        let (told, status) = checked(rt.alloc(), stream.as_bytes(), piece)?;
        assert_eq!(rt; told.as_slice(), lines.as_slice(), "pieces of {piece}");
        assert_eq!(rt; status, Status::Refused, "pieces of {piece}");
    }
    Ok(())
}

// A second message after the two halves, and its reply.
const SECOND: &[(&str, &str)] = &[
    (
        "BERICHT G0001 2024-01-01T00:00:02
T G0002.00000000000000000000000000000001 onbegroeid_terreindeel 0 2024-01-01 fysiekVoorkomen=erf
RING 100000.000 400000.000 100010.000 400000.000 100010.000 400010.000 100000.000 400010.000
EINDE
",
        "2 E7 PREFIX 1\n",
    ),
    (
        "BERICHT G0001 2024-01-01T00:00:02
T G0001.00000000000000000000000000000001 onbegroeid_terreindeel 0 2024-01-01 fysiekVoorkomen=erf
RING 100000.000 400000.000 100010.000 400000.000 100010.000 400010.000 100000.000 400010.000
EINDE
",
        "2 E8 KNOWN 1\n",
    ),
    (
        "BERICHT G0001 2024-01-01T00:00:02
W G0001.00000000000000000000000000000009 2024-01-01T00:00:01 onbegroeid_terreindeel 0 2024-01-01 fysiekVoorkomen=erf
RING 100000.000 400000.000 100010.000 400000.000 100010.000 400010.000 100000.000 400010.000
EINDE
",
        "2 E9 UNKNOWN 1 -\n",
    ),
    (
        "BERICHT G0001 2024-01-01T00:00:02
W G0001.00000000000000000000000000000001 2024-01-01T00:00:01 pand 0 2024-01-01
RING 100000.000 400000.000 100010.000 400000.000 100010.000 400010.000 100000.000 400010.000
EINDE
",
        "2 E12 KIND 1 onbegroeid_terreindeel\n",
    ),
    (
        "BERICHT G0001 2024-01-01T00:00:02
W G0001.00000000000000000000000000000001 2024-01-01T00:00:01 onbegroeid_terreindeel 0 2024-01-01 fysiekVoorkomen=gras
RING 100000.000 400000.000 100010.000 400000.000 100010.000 400010.000 100000.000 400010.000
EINDE
",
        "2 E13 ITEM 1 code fysiekVoorkomen\n",
    ),
    (
        "BERICHT G0001 2024-01-01T00:00:02
W G0001.00000000000000000000000000000001 2024-01-01T00:00:01 onbegroeid_terreindeel 0 2024-01-01
RING 100000.000 400000.000 100010.000 400000.000 100010.000 400010.000 100000.000 400010.000
EINDE
",
        "2 E13 ITEM 1 missing fysiekVoorkomen\n",
    ),
    (
        "BERICHT G0001 2024-01-01T00:00:02
W G0001.00000000000000000000000000000001 2024-01-01T00:00:01 onbegroeid_terreindeel 100 2024-01-01 fysiekVoorkomen=erf
RING 100000.000 400000.000 100010.000 400000.000 100010.000 400010.000 100000.000 400010.000
EINDE
",
        "2 E13 ITEM 1 level\n",
    ),
    (
        "BERICHT G0001 2024-01-01T00:00:02
T G0001.00000000000000000000000000000003 pand 0 2024-01-01 bagpnd=123
RING 100000.000 400000.000 100010.000 400000.000 100010.000 400010.000 100000.000 400010.000
EINDE
",
        "2 E13 ITEM 1 bagpnd\n",
    ),
    (
        "BERICHT G0001 2024-01-01T00:00:02
T G0001.00000000000000000000000000000003 pand 0 2024-01-02
RING 100000.000 400000.000 100010.000 400000.000 100010.000 400010.000 100000.000 400010.000
EINDE
",
        "2 E14 DAYS 1\n",
    ),
    (
        "BERICHT G0001 2024-01-01T00:00:02
V G0001.00000000000000000000000000000001 2024-01-01T00:00:01 2024-01-01
V G0001.00000000000000000000000000000001 2024-01-01T00:00:01 2024-01-01
EINDE
",
        "2 E6 TWICE 2\n",
    ),
    (
        "BERICHT G0002 2024-01-01T00:00:02
V G0001.00000000000000000000000000000001 2024-01-01T00:00:01 2024-01-01
EINDE
",
        "2 E10 OWNER 1 G0001\n",
    ),
    (
        "BERICHT G0001 2024-01-01T00:00:02
V G0001.00000000000000000000000000000001 2024-01-01T00:00:02 2024-01-01
EINDE
",
        "2 E11 WAS 1 2024-01-01T00:00:01\n",
    ),
    (
        "BERICHT G0001 2024-01-01T00:00:02
V G0001.00000000000000000000000000000001 2024-01-01T00:00:01 2023-12-31
EINDE
",
        "2 E14 DAYS 1\n",
    ),
    (
        "BERICHT G0001 2024-01-01T00:00:02
V G0001.00000000000000000000000000000001 2024-01-01T00:00:01 2024-01-02
EINDE
",
        "2 E14 DAYS 1\n",
    ),
    (
        "BERICHT G0001 2024-01-01T00:00:02
W G0001.00000000000000000000000000000001 2024-01-01T00:00:01 onbegroeid_terreindeel 0 2024-01-02 fysiekVoorkomen=erf
RING 100000.000 400000.000 100010.000 400000.000 100010.000 400010.000 100000.000 400010.000
EINDE
",
        "2 E14 DAYS 1\n",
    ),
    (
        "BERICHT G0001 2024-01-01T00:00:01
EINDE
",
        "2 E5 STALE 2024-01-01T00:00:01\n",
    ),
    (
        "BERICHT G0001 2024-01-01T00:00:02
W G0001.00000000000000000000000000000001 2024-01-01T00:00:01 onbegroeid_terreindeel 0 2024-01-01 fysiekVoorkomen=erf
RING 100000.000 400000.000 100010.000 400000.000
EINDE
",
        "2 E15 SHAPE 1 few 0\n",
    ),
    (
        "BERICHT G0001 2024-01-01T00:00:02
W G0001.00000000000000000000000000000001 2024-01-01T00:00:01 onbegroeid_terreindeel 0 2024-01-01 fysiekVoorkomen=erf
RING 100000.000 400000.000 100010.000 400000.000 100000.000 400000.000 100000.000 400010.000
EINDE
",
        "2 E15 SHAPE 1 repeat 0 2\n",
    ),
    (AREA_AGAIN, "2 OK\n"),
    (
        "BERICHT G0001 2024-01-01T00:00:02
GEBIED
EINDE
",
        "2 E20 TILED 100000.000 400000.000 100005.000 400000.000\n",
    ),
];

#[test]
fn second_messages(rt: HostRuntime) -> Result<(), Fail> {
    for (row, (message, line)) in SECOND.iter().enumerate() {
        let stream = joined(rt.alloc(), &[HALVES, message])?;
        let (told, _) = checked(rt.alloc(), stream.as_bytes(), 1 << 16)?;
        let lines = joined(rt.alloc(), &["1 OK\n", line])?;
        assert_eq!(rt; told.as_slice(), lines.as_bytes(), "row {row}");
    }
    Ok(())
}

#[test]
fn other_words(rt: HostRuntime) -> Result<(), Fail> {
    let lists: [&[&str]; 6] = [
        &[],
        &["Check"],
        &["check", ""],
        &["check", "check"],
        &["load"],
        &["load", "F", "G"],
    ];
    for (row, words) in lists.iter().enumerate() {
        let (told, status) = answered(rt.alloc(), words, &Limits::standard(), FIRST.as_bytes(), 3)?;
        assert_eq!(rt; told.as_slice(), b"USAGE\n".as_slice(), "words {row}");
        assert_eq!(rt; status, Status::Usage, "words {row}");
    }
    Ok(())
}

#[test]
fn codes(rt: HostRuntime) {
    let codes = [
        (Status::Good, 0),
        (Status::Refused, 1),
        (Status::Usage, 2),
        (Status::ReadFault, 3),
        (Status::WriteFault, 4),
        (Status::DiskFault, 5),
        (Status::BadJournal, 6),
        (Status::NoMemory, 7),
        (Status::InputLong, 8),
        (Status::JournalFull, 9),
    ];
    for (status, code) in codes {
        assert_eq!(rt; status.code(), code, "{status:?}");
    }
}
