//! The worked rows of levels and of shared vertices: each text is put together from lines, and has one reply.

use crate::runs::{answered, joined};
use message_text::Limits;
use std::test::Fail;

const FIRST: &str = "BERICHT G0001 2024-01-01T00:00:01\n";

const SECOND: &str = "BERICHT G0001 2024-01-01T00:00:02\n";

const END: &str = "EINDE\n";

/// The area and the part of the smallest map.
const SQUARE: &str = "GEBIED
RING 100000 400000 100010 400000 100010 400010 100000 400010
T G0001.00000000000000000000000000000001 onbegroeid_terreindeel 0 2024-01-01 fysiekVoorkomen=erf
RING 100000 400000 100010 400000 100010 400010 100000 400010
";
/// A part of a bridge above it, which the rule of levels does not speak of.
const BRIDGE: &str =
    "T G0001.00000000000000000000000000000002 overbruggingsdeel 1 2024-01-01 type=dek
RING 100002 400002 100008 400002 100008 400008 100002 400008
";
/// A road on it, and another just as it.
const ROAD: &str =
    "T G0001.00000000000000000000000000000003 wegdeel 1 2024-01-01 functie=rijbaan_lokale_weg fysiekVoorkomen=gesloten_verharding
RING 100002 400002 100008 400002 100008 400008 100002 400008
";

const SAME_ROAD: &str =
    "T G0001.00000000000000000000000000000004 wegdeel 1 2024-01-01 functie=rijbaan_lokale_weg fysiekVoorkomen=gesloten_verharding
RING 100002 400002 100008 400002 100008 400008 100002 400008
";
/// One a level higher, one beside it, and one that covers a corner of it.
const HIGHER_ROAD: &str =
    "T G0001.00000000000000000000000000000004 wegdeel 2 2024-01-01 functie=rijbaan_lokale_weg fysiekVoorkomen=gesloten_verharding
RING 100002 400002 100008 400002 100008 400008 100002 400008
";

const ROAD_BESIDE: &str =
    "T G0001.00000000000000000000000000000004 wegdeel 1 2024-01-01 functie=rijbaan_lokale_weg fysiekVoorkomen=gesloten_verharding
RING 100008 400002 100009 400002 100009 400008 100008 400008
";

const ROAD_OVER: &str =
    "T G0001.00000000000000000000000000000004 wegdeel 1 2024-01-01 functie=rijbaan_lokale_weg fysiekVoorkomen=gesloten_verharding
RING 100007.999 400007.999 100009 400007.999 100009 400009 100007.999 400009
";
/// The road ends.
const ROAD_ENDS: &str = "V G0001.00000000000000000000000000000003 2024-01-01T00:00:01 2024-01-01
";

/// A square area with a corner in the middle of its south and of its north, and one without.
const AREA_OF_HALVES: &str = "GEBIED
RING 100000 400000 100005 400000 100010 400000 100010 400010 100005 400010 100000 400010
";

const AREA: &str = "GEBIED
RING 100000 400000 100010 400000 100010 400010 100000 400010
";

const PART: &str =
    "T G0001.00000000000000000000000000000001 onbegroeid_terreindeel 0 2024-01-01 fysiekVoorkomen=erf
RING 100000 400000 100010 400000 100010 400010 100000 400010
";

const WEST: &str =
    "T G0001.00000000000000000000000000000001 onbegroeid_terreindeel 0 2024-01-01 fysiekVoorkomen=erf
RING 100000 400000 100005 400000 100005 400010 100000 400010
";

const EAST: &str =
    "T G0001.00000000000000000000000000000002 onbegroeid_terreindeel 0 2024-01-01 fysiekVoorkomen=erf
RING 100005 400000 100010 400000 100010 400010 100005 400010
";
/// The halves with a corner in the middle of the side between them.
const WEST_WITH_CORNER: &str =
    "T G0001.00000000000000000000000000000001 onbegroeid_terreindeel 0 2024-01-01 fysiekVoorkomen=erf
RING 100000 400000 100005 400000 100005 400005 100005 400010 100000 400010
";

const EAST_WITH_CORNER: &str =
    "T G0001.00000000000000000000000000000002 onbegroeid_terreindeel 0 2024-01-01 fysiekVoorkomen=erf
RING 100005 400000 100010 400000 100010 400010 100005 400010 100005 400005
";
/// The corner goes from the west half alone, or comes to the east half alone.
const WEST_WITHOUT: &str =
    "W G0001.00000000000000000000000000000001 2024-01-01T00:00:01 onbegroeid_terreindeel 0 2024-01-01 fysiekVoorkomen=erf
RING 100000 400000 100005 400000 100005 400010 100000 400010
";

const EAST_WITH: &str =
    "W G0001.00000000000000000000000000000002 2024-01-01T00:00:01 onbegroeid_terreindeel 0 2024-01-01 fysiekVoorkomen=erf
RING 100005 400000 100010 400000 100010 400010 100005 400010 100005 400005
";
/// One half, and the other in two quarters that meet in the middle of its side.
const QUARTERS: &str = "GEBIED
RING 100000 400000 100005 400000 100010 400000 100010 400005 100010 400010 100005 400010 100000 400010
T G0001.00000000000000000000000000000001 onbegroeid_terreindeel 0 2024-01-01 fysiekVoorkomen=erf
RING 100000 400000 100005 400000 100005 400010 100000 400010
T G0001.00000000000000000000000000000002 onbegroeid_terreindeel 0 2024-01-01 fysiekVoorkomen=erf
RING 100005 400000 100010 400000 100010 400005 100005 400005
T G0001.00000000000000000000000000000003 onbegroeid_terreindeel 0 2024-01-01 fysiekVoorkomen=erf
RING 100005 400005 100010 400005 100010 400010 100005 400010
";

const ROADS_SHARE: &str =
    "E18 LEVELS G0001.00000000000000000000000000000003 G0001.00000000000000000000000000000004\n";

const CORNER_BETWEEN: &str =
    "E19 NODE 100005.000 400005.000 100005.000 400000.000 100005.000 400010.000\n";

/// The lines of a stream, and the replies, each in two pieces.
const ROWS: &[(&[&str], &[&str])] = &[
    // Levels: what is new among itself, and with what stands.
    (&[FIRST, SQUARE, BRIDGE, ROAD, END], &["1 OK\n"]),
    (
        &[FIRST, SQUARE, BRIDGE, ROAD, SAME_ROAD, END],
        &["1 ", ROADS_SHARE],
    ),
    (&[FIRST, SQUARE, ROAD, HIGHER_ROAD, END], &["1 OK\n"]),
    (&[FIRST, SQUARE, ROAD, ROAD_BESIDE, END], &["1 OK\n"]),
    (&[FIRST, SQUARE, ROAD, ROAD_OVER, END], &["1 ", ROADS_SHARE]),
    (
        &[FIRST, SQUARE, ROAD, END, SECOND, SAME_ROAD, END],
        &["1 OK\n2 ", ROADS_SHARE],
    ),
    (
        &[FIRST, SQUARE, ROAD, END, SECOND, ROAD_ENDS, SAME_ROAD, END],
        &["1 OK\n2 OK\n"],
    ),
    // Levels come before vertices and the tiling.
    (
        &[FIRST, AREA, WEST, ROAD, SAME_ROAD, END],
        &["1 ", ROADS_SHARE],
    ),
    // Three parts, of which one lacks the corner of the two others.
    (&[FIRST, QUARTERS, END], &["1 ", CORNER_BETWEEN]),
    // A corner of the area that a part lacks, and corners of parts that the area lacks.
    (
        &[FIRST, AREA_OF_HALVES, PART, END],
        &["1 E19 NODE 100005.000 400000.000 100000.000 400000.000 100010.000 400000.000\n"],
    ),
    (
        &[FIRST, AREA, WEST, EAST, END],
        &["1 E19 NODE 100005.000 400000.000 100010.000 400000.000 100000.000 400000.000\n"],
    ),
    // A new corner on a side that stands, and a corner that stands on a new side.
    (
        &[
            FIRST,
            AREA_OF_HALVES,
            WEST,
            EAST,
            END,
            SECOND,
            EAST_WITH,
            END,
        ],
        &["1 OK\n2 ", CORNER_BETWEEN],
    ),
    (
        &[
            FIRST,
            AREA_OF_HALVES,
            WEST_WITH_CORNER,
            EAST_WITH_CORNER,
            END,
            SECOND,
            WEST_WITHOUT,
            END,
        ],
        &["1 OK\n2 ", CORNER_BETWEEN],
    ),
    (
        &[
            FIRST,
            AREA_OF_HALVES,
            WEST_WITH_CORNER,
            EAST_WITH_CORNER,
            END,
        ],
        &["1 OK\n"],
    ),
];

#[test]
fn levels_and_vertices(rt: HostRuntime) -> Result<(), Fail> {
    let alloc = rt.alloc();
    for (k, (lines, replies)) in ROWS.iter().enumerate() {
        let input = joined(alloc, lines)?;
        let want = joined(alloc, replies)?;
        let (told, _) = answered(
            alloc,
            &["check"],
            &Limits::standard(),
            input.as_bytes(),
            65_536,
        )?;
        assert_eq!(rt; told.as_slice(), want.as_bytes(), "row {k}");
    }
    Ok(())
}
