//! The worked rows of the queries: what `state`, `history` and `point` tell of a file, and how they end.

use bgt_cli::Status;
use bgt_rows::messages::{BENT, BESIDE, CORNER, FIRST, HALVES, OTHER, PINCHED};
use bgt_rows::runs::{joined, ran};
use message_text::Limits;
use outside::MemOutside;
use std::alloc::Global;
use std::test::Fail;

// The border between the two halves is straight again.
pub const STRAIGHT: &str = "BERICHT G0001 2024-01-01T00:00:03
W G0001.00000000000000000000000000000001 2024-01-01T00:00:02 onbegroeid_terreindeel 0 2024-01-01 fysiekVoorkomen=erf
RING 100000.000 400000.000 100005.000 400000.000 100005.000 400010.000 100000.000 400010.000
W G0001.00000000000000000000000000000002 2024-01-01T00:00:02 onbegroeid_terreindeel 0 2024-01-01 fysiekVoorkomen=erf
RING 100005.000 400000.000 100010.000 400000.000 100010.000 400010.000 100005.000 400010.000
EINDE
";

// The right half ends, and the area with it.
pub const LEFT_ALONE: &str = "BERICHT G0001 2024-01-01T00:00:04
GEBIED
RING 100000.000 400000.000 100005.000 400000.000 100005.000 400010.000 100000.000 400010.000
V G0001.00000000000000000000000000000002 2024-01-01T00:00:03 2024-01-01
EINDE
";

// A bridge one level up and one on the ground, neither of which is a ground part, over the smallest map.
const BRIDGES: &str = "BERICHT G0001 2024-01-01T00:00:02
T G0001.00000000000000000000000000000002 wegdeel 1 2024-01-01 functie=fietspad fysiekVoorkomen=onverhard
RING 100002.000 400002.000 100008.000 400002.000 100008.000 400008.000 100002.000 400008.000
T G0001.00000000000000000000000000000003 overbruggingsdeel 0 2024-01-01 type=dek
RING 100002.000 400002.000 100008.000 400002.000 100008.000 400008.000 100002.000 400008.000
EINDE
";

// The smallest message, and the file that has it alone.
const SMALL_FILE: &[u8] =
    b"BGTJ0001\x01\0\0\0\0\0\0\0\x28BERICHT G0001 2024-01-01T00:00:01\nEINDE\n\0";

// Lines of the texts.
const LEFT: &str =
    "T G0001.00000000000000000000000000000001 onbegroeid_terreindeel 0 2024-01-01 fysiekVoorkomen=erf\n";

const RIGHT: &str =
    "T G0001.00000000000000000000000000000002 onbegroeid_terreindeel 0 2024-01-01 fysiekVoorkomen=erf\n";

const BOTH_RING: &str =
    "RING 100000.000 400000.000 100005.000 400000.000 100010.000 400000.000 100010.000 400010.000 100005.000 400010.000 100000.000 400010.000\n";

const LEFT_RING: &str =
    "RING 100000.000 400000.000 100005.000 400000.000 100005.000 400010.000 100000.000 400010.000\n";

const RIGHT_RING: &str =
    "RING 100005.000 400000.000 100010.000 400000.000 100010.000 400010.000 100005.000 400010.000\n";

const LEFT_BENT: &str =
    "RING 100000.000 400000.000 100005.000 400000.000 100006.000 400005.000 100005.000 400010.000 100000.000 400010.000\n";

const RIGHT_BENT: &str =
    "RING 100005.000 400000.000 100010.000 400000.000 100010.000 400010.000 100005.000 400010.000 100006.000 400005.000\n";

const OTHER_RING: &str =
    "RING 100020.000 400000.000 100030.000 400000.000 100030.000 400010.000 100020.000 400010.000\n";

const A1: &str = "G0001.00000000000000000000000000000001";

const A2: &str = "G0001.00000000000000000000000000000002";

const NO_OBJECT: &str = "G0001.00000000000000000000000000000009";

const M1: &str = "2024-01-01T00:00:01";

// The file that `load` makes of these messages.
pub fn kept(alloc: Global, texts: &[&str]) -> Result<Vec<u8>, Fail> {
    let stream = joined(alloc, texts)?;
    let mut outside = MemOutside::new(alloc, stream.as_bytes(), b"", 1 << 12, &[], None, 1 << 14)?;
    ran(alloc, &["load", "F"], &Limits::standard(), &mut outside);
    Ok(outside.disk().to_vec(alloc)?)
}

// What the words tell of the file, in pieces of so many bytes, and how they end, where these calls fail. The input has one byte.
pub fn asked(
    alloc: Global,
    file: &[u8],
    words: &[&str],
    piece: usize,
    failing: &[u64],
) -> Result<(Vec<u8>, Status), Fail> {
    let piece = piece.max(1);
    let mut outside = MemOutside::new(alloc, b"x", file, piece, failing, None, 1 << 14)?;
    let ends = ran(alloc, words, &Limits::standard(), &mut outside);
    Ok((outside.told().to_vec(alloc)?, ends))
}

// Whether the words tell this of the file, in small pieces, and end so.
fn tells(
    alloc: Global,
    file: &[u8],
    words: &[&str],
    want: &[u8],
    status: Status,
) -> Result<bool, Fail> {
    let (told, ends) = asked(alloc, file, words, 7, &[])?;
    Ok(told.as_slice() == want && ends == status)
}

// The words, and the parts of the text that they tell.
type Row = (&'static [&'static str], &'static [&'static str]);

const LEFT_LINE: &str = "G0001.00000000000000000000000000000001\n";

const RIGHT_LINE: &str = "G0001.00000000000000000000000000000002\n";

const OTHER_LINE: &str = "G0002.00000000000000000000000000000001\n";

// Two halves.
const HALF_ROWS: &[Row] = &[
    (&["history", "F", NO_OBJECT], &["NONE\n"]),
    (&["point", "F", "100002", "400003", M1], &[LEFT_LINE]),
    (
        &[
            "point",
            "F",
            "0100002.0",
            "400003.00",
            "2024-01-01T00:00:01.0",
        ],
        &[LEFT_LINE],
    ),
    (&["point", "F", "100005", "400003", M1], &["BORDER\n"]),
    (&["point", "F", "100005.001", "400003", M1], &[RIGHT_LINE]),
    (&["point", "F", "100020", "400003", M1], &["NONE\n"]),
    (
        &["point", "F", "100002", "400003", "2024-01-01T00:00:00"],
        &["NONE\n"],
    ),
    (
        &["point", "F", "100005", "400003", "2024-01-01T00:00:00"],
        &["NONE\n"],
    ),
    (&["point", "F", "-100000", "800000", M1], &["NONE\n"]),
];

// Two halves whose border was moved.
const BENT_ROWS: &[Row] = &[
    (
        &["state", "F", "2024-01-01T00:00:01.999"],
        &[
            "GEBIED G0001 2024-01-01T00:00:01 -\n",
            BOTH_RING,
            "OBJECT G0001 2024-01-01T00:00:01 2024-01-01T00:00:02 -\n",
            LEFT,
            LEFT_RING,
            "OBJECT G0001 2024-01-01T00:00:01 2024-01-01T00:00:02 -\n",
            RIGHT,
            RIGHT_RING,
        ],
    ),
    (
        &["state", "F", "2024-01-01T00:00:02"],
        &[
            "GEBIED G0001 2024-01-01T00:00:01 -\n",
            BOTH_RING,
            "OBJECT G0001 2024-01-01T00:00:02 - -\n",
            LEFT,
            LEFT_BENT,
            "OBJECT G0001 2024-01-01T00:00:02 - -\n",
            RIGHT,
            RIGHT_BENT,
        ],
    ),
    (
        &["history", "F", A1],
        &[
            "OBJECT G0001 2024-01-01T00:00:01 2024-01-01T00:00:02 -\n",
            LEFT,
            LEFT_RING,
            "OBJECT G0001 2024-01-01T00:00:02 - -\n",
            LEFT,
            LEFT_BENT,
        ],
    ),
];

// Two holders, the greater of which was first: areas come by rising holder, and objects by rising identification.
const ORDER_ROWS: &[Row] = &[(
    &["state", "F", M1],
    &[
        "GEBIED G0001 2024-01-01T00:00:01 -\n",
        BOTH_RING,
        "GEBIED G0002 2024-01-01T00:00:01 -\n",
        OTHER_RING,
        "OBJECT G0001 2024-01-01T00:00:01 - -\n",
        LEFT,
        LEFT_RING,
        "OBJECT G0001 2024-01-01T00:00:01 - -\n",
        RIGHT,
        RIGHT_RING,
        "OBJECT G0002 2024-01-01T00:00:01 - -\n",
        "T G0002.00000000000000000000000000000001 onbegroeid_terreindeel 0 2024-01-01 fysiekVoorkomen=erf\n",
        OTHER_RING,
    ],
)];

// What holds between two changes: the area and the two halves.
const FIRST_TEXT: &[&str] = &[
    "GEBIED G0001 2024-01-01T00:00:01 2024-01-01T00:00:04\n",
    BOTH_RING,
    "OBJECT G0001 2024-01-01T00:00:01 2024-01-01T00:00:02 -\n",
    LEFT,
    LEFT_RING,
    "OBJECT G0001 2024-01-01T00:00:01 2024-01-01T00:00:02 -\n",
    RIGHT,
    RIGHT_RING,
];

const SECOND_TEXT: &[&str] = &[
    "GEBIED G0001 2024-01-01T00:00:01 2024-01-01T00:00:04\n",
    BOTH_RING,
    "OBJECT G0001 2024-01-01T00:00:02 2024-01-01T00:00:03 -\n",
    LEFT,
    LEFT_BENT,
    "OBJECT G0001 2024-01-01T00:00:02 2024-01-01T00:00:03 -\n",
    RIGHT,
    RIGHT_BENT,
];

const THIRD_TEXT: &[&str] = &[
    "GEBIED G0001 2024-01-01T00:00:01 2024-01-01T00:00:04\n",
    BOTH_RING,
    "OBJECT G0001 2024-01-01T00:00:03 - -\n",
    LEFT,
    LEFT_RING,
    "OBJECT G0001 2024-01-01T00:00:03 2024-01-01T00:00:04 2024-01-01\n",
    RIGHT,
    RIGHT_RING,
];

const LAST_TEXT: &[&str] = &[
    "GEBIED G0001 2024-01-01T00:00:04 -\n",
    LEFT_RING,
    "OBJECT G0001 2024-01-01T00:00:03 - -\n",
    LEFT,
    LEFT_RING,
];

// The two halves are changed twice, and the right one ends: a millisecond before each moment at which something begins or ends,
// at it, and a millisecond after it; a history of three versions, the last of which has an end day; and points.
const CHANGED_ROWS: &[Row] = &[
    (&["state", "F", "2024-01-01T00:00:00.999"], &[]),
    (&["state", "F", "2024-01-01T00:00:01"], FIRST_TEXT),
    (&["state", "F", "2024-01-01T00:00:01.001"], FIRST_TEXT),
    (&["state", "F", "2024-01-01T00:00:01.999"], FIRST_TEXT),
    (&["state", "F", "2024-01-01T00:00:02"], SECOND_TEXT),
    (&["state", "F", "2024-01-01T00:00:02.001"], SECOND_TEXT),
    (&["state", "F", "2024-01-01T00:00:02.999"], SECOND_TEXT),
    (&["state", "F", "2024-01-01T00:00:03"], THIRD_TEXT),
    (&["state", "F", "2024-01-01T00:00:03.001"], THIRD_TEXT),
    (&["state", "F", "2024-01-01T00:00:03.999"], THIRD_TEXT),
    (&["state", "F", "2024-01-01T00:00:04"], LAST_TEXT),
    (&["state", "F", "2024-01-01T00:00:04.001"], LAST_TEXT),
    (&["state", "F", "9999-12-31T23:59:59.999"], LAST_TEXT),
    (
        &["history", "F", A2],
        &[
            "OBJECT G0001 2024-01-01T00:00:01 2024-01-01T00:00:02 -\n",
            RIGHT,
            RIGHT_RING,
            "OBJECT G0001 2024-01-01T00:00:02 2024-01-01T00:00:03 -\n",
            RIGHT,
            RIGHT_BENT,
            "OBJECT G0001 2024-01-01T00:00:03 2024-01-01T00:00:04 2024-01-01\n",
            RIGHT,
            RIGHT_RING,
        ],
    ),
    (
        &["point", "F", "100007", "400003", "2024-01-01T00:00:03.999"],
        &[RIGHT_LINE],
    ),
    (
        &["point", "F", "100007", "400003", "2024-01-01T00:00:04"],
        &["NONE\n"],
    ),
    (
        &["point", "F", "100010", "400003", "2024-01-01T00:00:03.999"],
        &["BORDER\n"],
    ),
    (
        &["point", "F", "100010", "400003", "2024-01-01T00:00:04"],
        &["NONE\n"],
    ),
    (
        &["point", "F", "100005", "400003", "2024-01-01T00:00:04"],
        &["BORDER\n"],
    ),
];

// Two holders beside each other, and bridges over the first.
const HOLDER_ROWS: &[Row] = &[
    (&["point", "F", "100005", "400005", M1], &[LEFT_LINE]),
    (&["point", "F", "100015", "400005", M1], &[OTHER_LINE]),
    (&["point", "F", "100010", "400005", M1], &["BORDER\n"]),
    (&["point", "F", "100010", "400000", M1], &["BORDER\n"]),
    (&["point", "F", "100020", "400005", M1], &["BORDER\n"]),
    (&["point", "F", "100020.001", "400005", M1], &["NONE\n"]),
    (
        &["point", "F", "100005", "400005", "2024-01-01T00:00:02"],
        &[LEFT_LINE],
    ),
    (
        &["point", "F", "100002", "400005", "2024-01-01T00:00:02"],
        &[LEFT_LINE],
    ),
];

// A part with a hole, and the part that fills it.
const HOLE_ROWS: &[Row] = &[
    (&["point", "F", "100002", "400002", M1], &[RIGHT_LINE]),
    (&["point", "F", "100001", "400002", M1], &["BORDER\n"]),
    (&["point", "F", "100002", "400004", M1], &["BORDER\n"]),
    (&["point", "F", "100000", "400000", M1], &["BORDER\n"]),
    (&["point", "F", "100002", "400004.001", M1], &[LEFT_LINE]),
    (&["point", "F", "100008", "400008", M1], &[LEFT_LINE]),
];

// An area of two shapes that share one corner.
const SHAPE_ROWS: &[Row] = &[
    (&["point", "F", "100005", "400005", M1], &[LEFT_LINE]),
    (&["point", "F", "100015", "400015", M1], &[RIGHT_LINE]),
    (&["point", "F", "100010", "400010", M1], &["BORDER\n"]),
    (&["point", "F", "100015", "400005", M1], &["NONE\n"]),
    (&["point", "F", "100005", "400010", M1], &["BORDER\n"]),
];

// The first row that is not told of the file with these messages.
fn first_untold(alloc: Global, messages: &[&str], rows: &[Row]) -> Result<Option<usize>, Fail> {
    let file = kept(alloc, messages)?;
    for (place, (words, parts)) in rows.iter().enumerate() {
        let want = joined(alloc, parts)?;
        if !tells(alloc, &file, words, want.as_bytes(), Status::Good)? {
            return Ok(Some(place));
        }
    }
    Ok(None)
}

#[test]
fn states_and_histories(rt: HostRuntime) -> Result<(), Fail> {
    assert_eq!(rt; first_untold(rt.alloc(), &[HALVES, BENT], BENT_ROWS)?, None);
    assert_eq!(rt;
        first_untold(rt.alloc(), &[OTHER, HALVES], ORDER_ROWS)?,
        None
    );
    let changed = [HALVES, BENT, STRAIGHT, LEFT_ALONE];
    assert_eq!(rt; first_untold(rt.alloc(), &changed, CHANGED_ROWS)?, None);
    Ok(())
}

#[test]
fn points(rt: HostRuntime) -> Result<(), Fail> {
    assert_eq!(rt; first_untold(rt.alloc(), &[HALVES], HALF_ROWS)?, None);
    let holders = [FIRST, BESIDE, BRIDGES];
    assert_eq!(rt; first_untold(rt.alloc(), &holders, HOLDER_ROWS)?, None);
    assert_eq!(rt; first_untold(rt.alloc(), &[PINCHED], HOLE_ROWS)?, None);
    assert_eq!(rt; first_untold(rt.alloc(), &[CORNER], SHAPE_ROWS)?, None);
    Ok(())
}

// The file, the words, what is told, and the status. In the first rows the words are no query: their fields are none, or
// there are too few or too many words.
const ENDS: &[(&[u8], &[&str], &str, Status)] = &[
    (SMALL_FILE, &["state", "F"], "USAGE\n", Status::Usage),
    (
        SMALL_FILE,
        &["state", "F", "2024-01-01"],
        "USAGE\n",
        Status::Usage,
    ),
    (
        SMALL_FILE,
        &["state", "F", "2024-01-01T24:00:00"],
        "USAGE\n",
        Status::Usage,
    ),
    (
        SMALL_FILE,
        &["state", "F", M1, M1],
        "USAGE\n",
        Status::Usage,
    ),
    (SMALL_FILE, &["history", "F"], "USAGE\n", Status::Usage),
    (
        SMALL_FILE,
        &["history", "F", "G0001.1"],
        "USAGE\n",
        Status::Usage,
    ),
    (
        SMALL_FILE,
        &["point", "F", "100002", "400003"],
        "USAGE\n",
        Status::Usage,
    ),
    (
        SMALL_FILE,
        &["point", "F", "400000.001", "400003", M1],
        "USAGE\n",
        Status::Usage,
    ),
    (
        SMALL_FILE,
        &["point", "F", "100002", "199999.999", M1],
        "USAGE\n",
        Status::Usage,
    ),
    (
        SMALL_FILE,
        &["point", "F", "100002", "4e5", M1],
        "USAGE\n",
        Status::Usage,
    ),
    (
        SMALL_FILE,
        &["point", "F", "100002", "400003", "now"],
        "USAGE\n",
        Status::Usage,
    ),
    (SMALL_FILE, &["State", "F", M1], "USAGE\n", Status::Usage),
    (SMALL_FILE, &["state", "F", M1], "", Status::Good),
    (SMALL_FILE, &["history", "F", A1], "NONE\n", Status::Good),
    (
        SMALL_FILE,
        &["point", "F", "100002", "400003", M1],
        "NONE\n",
        Status::Good,
    ),
    (b"", &["state", "F", M1], "", Status::Good),
    (b"", &["history", "F", A1], "NONE\n", Status::Good),
    (
        b"123456789",
        &["point", "F", "100002", "400003", M1],
        "NONE\n",
        Status::Good,
    ),
    (
        b"hello, world",
        &["state", "F", M1],
        "NOTJOURNAL\n",
        Status::BadJournal,
    ),
    (
        b"hello, world",
        &["history", "F", A1],
        "NOTJOURNAL\n",
        Status::BadJournal,
    ),
    (
        b"hello, world",
        &["point", "F", "100002", "400003", M1],
        "NOTJOURNAL\n",
        Status::BadJournal,
    ),
    (
        b"BGTJ0001\x01\0\0\0\0",
        &["state", "F", M1],
        "DAMAGED 8\n",
        Status::BadJournal,
    ),
    (
        b"BGTJ0001\x01\0\0\0\0",
        &["history", "F", A1],
        "DAMAGED 8\n",
        Status::BadJournal,
    ),
    (
        b"BGTJ0001\x01\0\0\0\0",
        &["point", "F", "100002", "400003", M1],
        "DAMAGED 8\n",
        Status::BadJournal,
    ),
];

#[test]
fn ends(rt: HostRuntime) -> Result<(), Fail> {
    for (row, (file, words, want, status)) in ENDS.iter().enumerate() {
        let is_told = tells(rt.alloc(), file, words, want.as_bytes(), *status)?;
        assert!(rt; is_told, "row {row}");
    }
    Ok(())
}

// A query of the file with one message measures it, and reads its mark, the open gate, the record and the closed gate; then it
// tells its five bytes in pieces of two. Each call fails once: bytes told, and the status. A file that is missing fails the first.
const CALLS: [(usize, Status); 9] = [
    (0, Status::DiskFault),
    (0, Status::DiskFault),
    (0, Status::DiskFault),
    (0, Status::DiskFault),
    (0, Status::DiskFault),
    (0, Status::WriteFault),
    (2, Status::WriteFault),
    (4, Status::WriteFault),
    (5, Status::Good),
];

#[test]
fn each_call_of_a_query_fails(rt: HostRuntime) -> Result<(), Fail> {
    let want = b"NONE\n".as_slice();
    for (place, (bytes, status)) in CALLS.iter().enumerate() {
        let call = place as u64 + 1;
        let words = ["history", "F", NO_OBJECT];
        let (told, ends) = asked(rt.alloc(), SMALL_FILE, &words, 2, &[call])?;
        assert_eq!(rt; told.as_slice(), &want[..*bytes], "call {call}");
        assert_eq!(rt; ends, *status, "call {call}");
    }
    Ok(())
}
