//! The worked rows of the command `explain`: what is told of each map that is not tiled, and that the file stays as it is.

use crate::load::{EMPTY, KEPT};
use bgt_cli::Status;
use bgt_rows::messages::{BENT, DOUBLED, FIRST, GAP, HALVES, OPEN};
use bgt_rows::runs::{joined, ran};
use message_text::Limits;
use outside::MemOutside;
use std::alloc::Global;
use std::test::Fail;

/// A part that crosses the south and the north of the smallest map.
const ACROSS: &str = "BERICHT G0001 2024-01-01T00:00:01
GEBIED
RING 100000 400000 100010 400000 100010 400010 100000 400010
T G0001.00000000000000000000000000000001 onbegroeid_terreindeel 0 2024-01-01 fysiekVoorkomen=erf
RING 100000 400000 100010 400000 100010 400010 100000 400010
T G0001.00000000000000000000000000000002 onbegroeid_terreindeel 0 2024-01-01 fysiekVoorkomen=erf
RING 100004 399998 100006 399998 100006 400012 100004 400012
EINDE
";

/// The smallest map, and a part beside its area.
const OUTSIDE: &str = "BERICHT G0001 2024-01-01T00:00:01
GEBIED
RING 100000 400000 100010 400000 100010 400010 100000 400010
T G0001.00000000000000000000000000000001 onbegroeid_terreindeel 0 2024-01-01 fysiekVoorkomen=erf
RING 100000 400000 100010 400000 100010 400010 100000 400010
T G0001.00000000000000000000000000000002 onbegroeid_terreindeel 0 2024-01-01 fysiekVoorkomen=erf
RING 100010 400000 100020 400000 100020 400010 100010 400010
EINDE
";

/// A map in the far corner of the grid, of which a triangle of two millimetres is missing at the corner.
const CORNER: &str = "BERICHT G0001 2024-01-01T00:00:01
GEBIED
RING 399990 799990 400000 799990 400000 799999.998 400000 800000 399999.998 800000 399990 800000
T G0001.00000000000000000000000000000001 onbegroeid_terreindeel 0 2024-01-01 fysiekVoorkomen=erf
RING 399990 799990 400000 799990 400000 799999.998 399999.998 800000 399990 800000
EINDE
";

/// What is told over this file, the file then, and how the run ends.
pub(crate) fn explained(
    alloc: Global,
    texts: &[&str],
    disk: &[u8],
    piece: usize,
) -> Result<(Vec<u8>, Vec<u8>, Status), Fail> {
    let stream = joined(alloc, texts)?;
    let piece = piece.max(1);
    let mut outside = MemOutside::new(alloc, stream.as_bytes(), disk, piece, &[], None, 1 << 20)?;
    let ends = ran(alloc, &["explain", "F"], &Limits::standard(), &mut outside);
    Ok((
        outside.told().to_vec(alloc)?,
        outside.disk().to_vec(alloc)?,
        ends,
    ))
}

// The texts, what is told, and the status.
const ROWS: [(&[&str], &str, Status); 9] = [
    (&[], "", Status::Good),
    (&[FIRST], "1 OK\n", Status::Good),
    (
        &[GAP],
        "1 E20 TILED 100005.000 400000.000 100006.000 400005.000
POINT 2000100002001/20000 800000001/2 0 in
",
        Status::Refused,
    ),
    (
        &[DOUBLED],
        "1 E20 TILED 100000.000 400000.000 100010.000 400000.000
POINT 100005000/1 800000001/2 2 in
",
        Status::Refused,
    ),
    (
        &[ACROSS],
        "1 E20 TILED 100004.000 399998.000 100006.000 399998.000
CROSS 100000.000 400000.000 100010.000 400000.000 100004.000 400012.000 100004.000 399998.000
",
        Status::Refused,
    ),
    (
        &[OUTSIDE],
        "1 E20 TILED 100010.000 400000.000 100020.000 400000.000
POINT 100015000/1 800000001/2 1 out
",
        Status::Refused,
    ),
    (
        &[CORNER],
        "1 E20 TILED 399999.998 800000.000 400000.000 800000.000
POINT 1599999999/4 1599999997/2 0 in
",
        Status::Refused,
    ),
    // A map from which a part is taken away, after one that was accepted and before another.
    (
        &[GAP, HALVES, OPEN, BENT],
        "1 E20 TILED 100005.000 400000.000 100006.000 400005.000
POINT 2000100002001/20000 800000001/2 0 in
2 OK
3 E20 TILED 100005.000 400000.000 100005.000 400010.000
POINT 100007500/1 800000001/2 0 in
4 OK
",
        Status::Refused,
    ),
    (
        &[FIRST, "EIN"],
        "1 OK
TAIL 3
",
        Status::Refused,
    ),
];

#[test]
fn rows(rt: HostRuntime) -> Result<(), Fail> {
    for (texts, told, ends) in ROWS {
        for disk in [b"".as_slice(), EMPTY] {
            let got = explained(rt.alloc(), texts, disk, 7)?;
            assert_eq!(rt; got.0.as_slice(), told.as_bytes());
            assert_eq!(rt; got.1.as_slice(), disk);
            assert_eq!(rt; got.2, ends);
        }
    }
    Ok(())
}

// Over a file that has a message, and over one that is none.
#[test]
fn files(rt: HostRuntime) -> Result<(), Fail> {
    let stale = b"1 E5 STALE 2024-01-01T00:00:01\n".as_slice();
    for (disk, told, ends) in [
        (KEPT, stale, Status::Refused),
        (b"hello, world", b"NOTJOURNAL\n", Status::BadJournal),
        (b"BGTJ0001\x01\0\0\0\0", b"DAMAGED 8\n", Status::BadJournal),
    ] {
        let got = explained(rt.alloc(), &[FIRST], disk, 100)?;
        assert_eq!(rt; got.0.as_slice(), told);
        assert_eq!(rt; got.1.as_slice(), disk);
        assert_eq!(rt; got.2, ends);
    }
    Ok(())
}
