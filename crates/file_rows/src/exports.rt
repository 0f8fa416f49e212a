//! The worked rows of `export`: a neighbourhood that is loaded, changed, exported and loaded again, and exports at other moments.

use crate::neighbourhood::{AREA, BUILD, NORTH, SHED, SOUTH, YARD, YARD_WITH_SHED};
use crate::queries::{LEFT_ALONE, STRAIGHT, asked, kept};
use bgt_cli::Status;
use bgt_rows::messages::{BENT, FIRST, HALVES, OTHER};
use bgt_rows::runs::{joined, ran};
use message_text::Limits;
use outside::MemOutside;
use std::alloc::Global;
use std::test::Fail;

const M1: &str = "2024-01-01T00:00:01";

const M2: &str = "2024-01-01T00:00:02";

// The first message, which has the neighbourhood without the shed.
const BEFORE: &[&str] = &[
    "BERICHT G0001 2024-01-01T00:00:01\n",
    AREA,
    SOUTH,
    YARD,
    NORTH,
    "EINDE\n",
];

// The same at a later moment.
const STILL: &[&str] = &[
    "BERICHT G0001 2024-01-01T00:00:01.999\n",
    AREA,
    SOUTH,
    YARD,
    NORTH,
    "EINDE\n",
];

// The neighbourhood with the shed.
const AFTER: &[&str] = &[
    "BERICHT G0001 2024-01-01T00:00:02\n",
    AREA,
    SOUTH,
    YARD_WITH_SHED,
    NORTH,
    SHED,
    "EINDE\n",
];

// What `load` tells of the input over an empty file, and the file then.
fn loaded(alloc: Global, input: &str) -> Result<(Vec<u8>, Vec<u8>), Fail> {
    let mut outside = MemOutside::new(alloc, input.as_bytes(), b"", 1 << 12, &[], None, 1 << 14)?;
    ran(alloc, &["load", "F"], &Limits::standard(), &mut outside);
    Ok((outside.told().to_vec(alloc)?, outside.disk().to_vec(alloc)?))
}

// Whether the words tell this of the file, and end so.
fn tells(
    alloc: Global,
    file: &[u8],
    words: &[&str],
    want: &[u8],
    status: Status,
) -> Result<bool, Fail> {
    let (told, ends) = asked(alloc, file, words, 1 << 12, &[])?;
    Ok(told.as_slice() == want && ends == status)
}

// Whether the words tell these parts of the file.
fn is_told(alloc: Global, file: &[u8], words: &[&str], parts: &[&str]) -> Result<bool, Fail> {
    let want = joined(alloc, parts)?;
    tells(alloc, file, words, want.as_bytes(), Status::Good)
}

#[test]
fn a_neighbourhood_comes_back(rt: HostRuntime) -> Result<(), Fail> {
    let alloc = rt.alloc();
    let before = joined(alloc, BEFORE)?;
    let after = joined(alloc, AFTER)?;
    let stream = joined(alloc, &[before.as_str(), BUILD])?;
    let (told, file) = loaded(alloc, stream.as_str())?;
    assert_eq!(rt; told.as_slice(), b"1 OK\n2 OK\n".as_slice());

    // The words, and what they tell: a house, the third yard, the shed in its place, and the map before, between and after.
    let rows: [(&[&str], &[&str]); 7] = [
        (
            &["point", "F", "100010", "400025", M2],
            &["G0001.00000000000000000000000000000006\n"],
        ),
        (
            &["point", "F", "100057", "400033", M1],
            &["G0001.00000000000000000000000000000009\n"],
        ),
        (
            &["point", "F", "100057", "400033", M2],
            &["G0001.00000000000000000000000000000013\n"],
        ),
        (&["export", "F", "2024-01-01T00:00:00.999"], &[]),
        (&["export", "F", M1], BEFORE),
        (&["export", "F", "2024-01-01T00:00:01.999"], STILL),
        (&["export", "F", M2], AFTER),
    ];
    for (place, (words, parts)) in rows.iter().enumerate() {
        assert!(rt; is_told(alloc, &file, words, parts)?, "row {place}");
    }

    let (told, again) = loaded(alloc, after.as_str())?;
    assert_eq!(rt; told.as_slice(), b"1 OK\n".as_slice());
    assert!(rt; is_told(alloc, &again, &["export", "F", M2], AFTER)?);
    Ok(())
}

const LEFT_RING: &str =
    "RING 100000.000 400000.000 100005.000 400000.000 100005.000 400010.000 100000.000 400010.000\n";

const LEFT: &str =
    "T G0001.00000000000000000000000000000001 onbegroeid_terreindeel 0 2024-01-01 fysiekVoorkomen=erf\n";

// A holder with a viaduct and no area.
const VIADUCT: &str = "BERICHT G0003 2024-01-01T00:00:01
T G0003.00000000000000000000000000000001 overbruggingsdeel 1 2024-01-01 type=dek
RING 100000.000 400000.000 100005.000 400000.000 100005.000 400010.000 100000.000 400010.000
EINDE
";

// Its export has an area block without shapes.
const VIADUCT_MAP: &str = "BERICHT G0003 2024-01-01T00:00:01
GEBIED
T G0003.00000000000000000000000000000001 overbruggingsdeel 1 2024-01-01 type=dek
RING 100000.000 400000.000 100005.000 400000.000 100005.000 400010.000 100000.000 400010.000
EINDE
";

// A holder that has nothing.
const NOTHING: &str = "BERICHT G0004 2024-01-01T00:00:01\nGEBIED\nEINDE\n";

// The words, and the parts of the text.
type Row = (&'static [&'static str], &'static [&'static str]);

// Holders rise, whichever came first, and one that has nothing is left out.
const HOLDER_ROWS: &[Row] = &[(&["export", "F", M1], &[HALVES, OTHER, VIADUCT_MAP])];

// The left half is alone from its moment on, and the area with it.
const CHANGED_ROWS: &[Row] = &[
    (
        &["export", "F", "2024-01-01T00:00:04"],
        &[
            "BERICHT G0001 2024-01-01T00:00:04\nGEBIED\n",
            LEFT_RING,
            LEFT,
            LEFT_RING,
            "EINDE\n",
        ],
    ),
    (&["export", "F", "2024-01-01T00:00:00"], &[]),
];

// Words that ask nothing.
const UNLISTED: &[&[&str]] = &[
    &["export", "F"],
    &["export", "F", "2024-01-01"],
    &["export", "F", M1, M1],
    &["exports", "F", M1],
];

#[test]
fn exports(rt: HostRuntime) -> Result<(), Fail> {
    let alloc = rt.alloc();
    let holders = kept(alloc, &[NOTHING, VIADUCT, OTHER, HALVES])?;
    for (words, parts) in HOLDER_ROWS {
        assert!(rt; is_told(alloc, &holders, words, parts)?);
    }
    let changed = kept(alloc, &[HALVES, BENT, STRAIGHT, LEFT_ALONE])?;
    for (place, (words, parts)) in CHANGED_ROWS.iter().enumerate() {
        assert!(rt; is_told(alloc, &changed, words, parts)?, "row {place}");
    }
    for words in UNLISTED {
        assert!(rt; tells(alloc, &changed, words, b"USAGE\n", Status::Usage)?);
    }
    Ok(())
}

// Files without a list of messages, and the smallest map, which is told in printed form.
#[test]
fn other_files(rt: HostRuntime) -> Result<(), Fail> {
    let alloc = rt.alloc();
    let words = ["export", "F", M1];
    assert!(rt; tells(alloc, b"", &words, b"", Status::Good)?);
    assert!(rt;
        tells(
            alloc,
            b"hello, world",
            &words,
            b"NOTJOURNAL\n",
            Status::BadJournal
        )?
    );
    assert!(rt;
        tells(
            alloc,
            b"BGTJ0001\x01\0\0\0\0",
            &words,
            b"DAMAGED 8\n",
            Status::BadJournal
        )?
    );
    let first = kept(alloc, &[FIRST])?;
    let square =
        "RING 100000.000 400000.000 100010.000 400000.000 100010.000 400010.000 100000.000 400010.000\n";
    let parts = [
        "BERICHT G0001 2024-01-01T00:00:01\nGEBIED\n",
        square,
        LEFT,
        square,
        "EINDE\n",
    ];
    assert!(rt; is_told(alloc, &first, &words, &parts)?);
    Ok(())
}
