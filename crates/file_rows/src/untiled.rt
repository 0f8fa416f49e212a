//! Maps that are not tiled, each with what `explain` tells. What it tells of a point is counted once more here, by the edges to the east
//! of it.

use crate::explain::explained;
use bgt_cli::Status;
use std::alloc::{AllocError, Global};
use std::test::Fail;

/// Corners in millimetres from the row's corner of the map.
type Ring = &'static [(i64, i64)];

type Shapes = &'static [&'static [Ring]];

/// Why a map is not tiled: two edges that cross, or a point with its x as a fraction, its y in halves, the parts that hold it, and
/// whether it is in the area.
enum Why {
    Cross(&'static str),
    Point(i64, i64, i64, u32, bool),
}

/// The corner of the map, its area, its parts, the edge that the refusal names, and why it is not tiled.
type Row = ((i64, i64), Shapes, Shapes, &'static str, Why);

const MIDDLE: (i64, i64) = (100_000_000, 400_000_000);

const SOUTH_WEST: (i64, i64) = (-100_000_000, 200_000_000);

const NORTH_EAST: (i64, i64) = (399_999_000, 799_999_000);

const SQUARE: Ring = &[(0, 0), (10000, 0), (10000, 10000), (0, 10000)];

const WEST: Ring = &[(0, 0), (5000, 0), (5000, 10000), (0, 10000)];

const EAST: Ring = &[(5000, 0), (10000, 0), (10000, 10000), (5000, 10000)];

const BOTH: Ring = &[
    (0, 0),
    (5000, 0),
    (10000, 0),
    (10000, 10000),
    (5000, 10000),
    (0, 10000),
];

const BANDS: Ring = &[
    (0, 0),
    (10000, 0),
    (10000, 5000),
    (10000, 5001),
    (10000, 10000),
    (0, 10000),
    (0, 5001),
    (0, 5000),
];

const HOLE: Ring = &[(3000, 3000), (3000, 6000), (6000, 6000), (6000, 3000)];

const UPPER: Ring = &[
    (0, 5000),
    (10000, 5000),
    (10000, 5001),
    (10000, 10000),
    (0, 10000),
    (0, 5001),
];

const ROWS: [Row; 20] = [
    // a gap between two slopes
    (
        MIDDLE,
        &[&[BOTH]],
        &[
            &[&[(0, 0), (5000, 0), (6000, 5000), (5000, 10000), (0, 10000)]],
            &[&[
                (5000, 0),
                (10000, 0),
                (10000, 10000),
                (5000, 10000),
                (6001, 5000),
            ]],
        ],
        "100005.000 400000.000 100006.000 400005.000",
        Why::Point(2_000_100_002_001, 20_000, 800_000_001, 0, true),
    ),
    // a gap of one millimetre between two level sides
    (
        MIDDLE,
        &[&[BANDS]],
        &[
            &[&[(0, 0), (10000, 0), (10000, 5000), (0, 5000)]],
            &[&[(0, 5001), (10000, 5001), (10000, 10000), (0, 10000)]],
        ],
        "100000.000 400005.000 100000.000 400005.001",
        Why::Point(100_005_000, 1, 800_010_001, 0, true),
    ),
    // two parts that overlap between two level sides
    (
        MIDDLE,
        &[&[BANDS]],
        &[
            &[&[
                (0, 0),
                (10000, 0),
                (10000, 5000),
                (10000, 5001),
                (0, 5001),
                (0, 5000),
            ]],
            &[UPPER],
        ],
        "100000.000 400005.000 100010.000 400005.000",
        Why::Point(100_005_000, 1, 800_010_001, 2, true),
    ),
    // one of two parts is missing
    (
        MIDDLE,
        &[&[BOTH]],
        &[&[WEST]],
        "100005.000 400000.000 100005.000 400010.000",
        Why::Point(100_007_500, 1, 800_000_001, 0, true),
    ),
    // the lower of two parts is missing
    (
        MIDDLE,
        &[&[BANDS]],
        &[&[UPPER]],
        "100000.000 400000.000 100000.000 400005.000",
        Why::Point(100_005_000, 1, 800_000_001, 0, true),
    ),
    // no part
    (
        MIDDLE,
        &[&[SQUARE]],
        &[],
        "100000.000 400000.000 100000.000 400010.000",
        Why::Point(100_005_000, 1, 800_000_001, 0, true),
    ),
    // no area
    (
        MIDDLE,
        &[],
        &[&[SQUARE]],
        "100000.000 400000.000 100010.000 400000.000",
        Why::Point(100_005_000, 1, 800_000_001, 1, false),
    ),
    // a part beside the area
    (
        MIDDLE,
        &[&[WEST]],
        &[&[WEST], &[EAST]],
        "100005.000 400000.000 100010.000 400000.000",
        Why::Point(100_007_500, 1, 800_000_001, 1, false),
    ),
    // a part thrice
    (
        MIDDLE,
        &[&[SQUARE]],
        &[&[SQUARE], &[SQUARE], &[SQUARE]],
        "100000.000 400000.000 100010.000 400000.000",
        Why::Point(100_005_000, 1, 800_000_001, 3, true),
    ),
    // a hole that no part fills
    (
        MIDDLE,
        &[&[SQUARE]],
        &[&[SQUARE, HOLE]],
        "100003.000 400003.000 100003.000 400006.000",
        Why::Point(100_004_500, 1, 800_006_001, 0, true),
    ),
    // a part over a hole of the area
    (
        MIDDLE,
        &[&[SQUARE, HOLE]],
        &[&[SQUARE]],
        "100003.000 400003.000 100006.000 400003.000",
        Why::Point(100_004_500, 1, 800_006_001, 1, false),
    ),
    // a part lies on another
    (
        MIDDLE,
        &[&[SQUARE]],
        &[&[SQUARE], &[&[(3000, 3000), (7000, 3001), (7000, 7000)]]],
        "100003.000 400003.000 100007.000 400003.001",
        Why::Point(400_016_001, 4, 800_006_001, 2, true),
    ),
    // of two gaps at one height the one in the west
    (
        MIDDLE,
        &[&[SQUARE]],
        &[&[
            SQUARE,
            &[(6000, 2000), (6000, 3000), (9000, 2500)],
            &[(1000, 2000), (1000, 3000), (4000, 2500)],
        ]],
        "100001.000 400002.000 100001.000 400003.000",
        Why::Point(200_002_003, 2, 800_004_001, 0, true),
    ),
    // of two gaps the lower one, in the east
    (
        MIDDLE,
        &[&[SQUARE]],
        &[&[
            SQUARE,
            &[(6000, 1999), (6000, 3000), (9000, 2500)],
            &[(1000, 2000), (1000, 3000), (4000, 2500)],
        ]],
        "100001.000 400002.000 100001.000 400003.000",
        Why::Point(16_701_002_250, 167, 800_003_999, 0, true),
    ),
    // a gap and a lower overlap
    (
        MIDDLE,
        &[&[SQUARE]],
        &[
            &[SQUARE, &[(6000, 2000), (6000, 3000), (9000, 2500)]],
            &[&[(1000, 1000), (4000, 1500), (1000, 3000)]],
        ],
        "100001.000 400001.000 100004.000 400001.500",
        Why::Point(200_002_003, 2, 800_002_001, 2, true),
    ),
    // an area of two shapes, one of them empty
    (
        MIDDLE,
        &[&[WEST], &[&[(20000, 0), (30000, 0), (30000, 10000)]]],
        &[&[WEST]],
        "100020.000 400000.000 100030.000 400010.000",
        Why::Point(400_100_001, 4, 800_000_001, 0, true),
    ),
    // two pairs of edges that cross
    (
        MIDDLE,
        &[&[SQUARE]],
        &[
            &[SQUARE],
            &[&[(4000, -2000), (6000, -2000), (6000, 12000), (4000, 12000)]],
        ],
        "100004.000 399998.000 100006.000 399998.000",
        Why::Cross(
            "100000.000 400000.000 100010.000 400000.000 100004.000 400012.000 100004.000 399998.000",
        ),
    ),
    // a crossing above a wrong point
    (
        MIDDLE,
        &[&[SQUARE]],
        &[
            &[SQUARE],
            &[&[(4000, 2000), (6000, 2000), (6000, 12000), (4000, 12000)]],
        ],
        "100004.000 400002.000 100006.000 400002.000",
        Why::Cross(
            "100000.000 400010.000 100010.000 400010.000 100004.000 400012.000 100004.000 400002.000",
        ),
    ),
    // in the south-west corner of the grid
    (
        SOUTH_WEST,
        &[&[&[(0, 0), (2, 0), (1000, 0), (1000, 1000), (0, 1000), (0, 3)]]],
        &[&[&[(2, 0), (1000, 0), (1000, 1000), (0, 1000), (0, 3)]]],
        "-100000.000 200000.000 -100000.000 200000.003",
        Why::Point(-599_999_995, 6, 400_000_001, 0, true),
    ),
    // in the north-east corner of the grid
    (
        NORTH_EAST,
        &[&[&[
            (0, 0),
            (1000, 0),
            (1000, 998),
            (1000, 1000),
            (998, 1000),
            (0, 1000),
        ]]],
        &[&[&[(0, 0), (1000, 0), (1000, 998), (998, 1000), (0, 1000)]]],
        "399999.998 800000.000 400000.000 800000.000",
        Why::Point(1_599_999_999, 4, 1_599_999_997, 0, true),
    ),
];

// A coordinate in metres.
fn push_number(alloc: Global, text: &mut String, value: i64) -> Result<(), AllocError> {
    let sign = if value < 0 { "-" } else { "" };
    let size = value.unsigned_abs();
    let number = format!(in alloc;
        " {sign}{}.{}{}{}",
        size / 1_000,
        size / 100 % 10,
        size / 10 % 10,
        size % 10
    )?;
    text.push_str(&number)
}

// A line of corners.
fn push_ring(
    alloc: Global,
    text: &mut String,
    at: (i64, i64),
    ring: &[(i64, i64)],
) -> Result<(), AllocError> {
    for (x, y) in ring {
        push_number(alloc, text, at.0.wrapping_add(*x))?;
        push_number(alloc, text, at.1.wrapping_add(*y))?;
    }
    text.push_str("\n")
}

// The lines of a shape.
fn push_shape(
    alloc: Global,
    text: &mut String,
    at: (i64, i64),
    shape: &[Ring],
) -> Result<(), AllocError> {
    for (k, ring) in shape.iter().enumerate() {
        text.push_str(if k == 0 { "RING" } else { "GAT" })?;
        push_ring(alloc, text, at, ring)?;
    }
    Ok(())
}

// The message that brings the map.
fn message(alloc: Global, row: &Row) -> Result<String, AllocError> {
    let mut text = String::new(alloc);
    text.push_str("BERICHT G0001 2024-01-01T00:00:01\nGEBIED\n")?;
    for shape in row.1 {
        push_shape(alloc, &mut text, row.0, shape)?;
    }
    for (k, shape) in row.2.iter().enumerate() {
        text.push_str("T G0001.0000000000000000000000000000000")?;
        text.push_str(&format!(in alloc; "{}", k % 10)?)?;
        text.push_str(" onbegroeid_terreindeel 0 2024-01-01 fysiekVoorkomen=erf\n")?;
        push_shape(alloc, &mut text, row.0, shape)?;
    }
    text.push_str("EINDE\n")?;
    Ok(text)
}

// What is told of it.
fn told(alloc: Global, row: &Row) -> Result<String, AllocError> {
    let tiled = row.3;
    match row.4 {
        Why::Cross(edges) => format!(in alloc; "1 E20 TILED {tiled}\nCROSS {edges}\n"),
        Why::Point(x, by, y, parts, inside) => {
            let side = if inside { "in" } else { "out" };
            format!(in alloc; "1 E20 TILED {tiled}\nPOINT {x}/{by} {y}/2 {parts} {side}\n")
        }
    }
}

// A point of a row: its x as a fraction and its y in halves, from the corner of the map.
type Point = (i64, i64, i64);

// Whether the edge runs past the east of the point: over its height, its lower end counted and its upper not.
fn passes(from: (i64, i64), to: (i64, i64), p: Point) -> bool {
    let (x, by, y) = p;
    let is_over = (from.1.wrapping_mul(2) <= y) != (to.1.wrapping_mul(2) <= y);
    let east = to
        .0
        .wrapping_sub(from.0)
        .wrapping_mul(by)
        .wrapping_mul(y.wrapping_sub(from.1.wrapping_mul(2)));
    let rise = to
        .1
        .wrapping_sub(from.1)
        .wrapping_mul(2)
        .wrapping_mul(x.wrapping_sub(from.0.wrapping_mul(by)));
    is_over && (east > rise) == (from.1 < to.1)
}

// Whether an odd number of the ring's edges do.
fn is_odd(ring: &[(i64, i64)], p: Point) -> bool {
    let mut from = match ring.last() {
        Some(last) => *last,
        None => return false,
    };
    let mut odd = false;
    for to in ring {
        odd = odd != passes(from, *to, p);
        from = *to;
    }
    odd
}

fn lies_in(shape: &[Ring], p: Point) -> bool {
    let mut odd = false;
    for ring in shape {
        odd = odd != is_odd(ring, p);
    }
    odd
}

// In how many of the shapes the point lies.
fn holding(shapes: &[&[Ring]], p: Point) -> u32 {
    let mut count = 0u32;
    for shape in shapes {
        count = count.wrapping_add(lies_in(shape, p) as u32);
    }
    count
}

// Whether a plain count says the same of the point of the row, and that it is wrong.
fn is_so(row: &Row) -> bool {
    let Why::Point(x, by, y, parts, inside) = row.4 else {
        return true;
    };
    let (east, north) = row.0;
    let p = (
        x.wrapping_sub(east.wrapping_mul(by)),
        by,
        y.wrapping_sub(north.wrapping_mul(2)),
    );
    let covers = holding(row.1, p) > 0;
    holding(row.2, p) == parts && covers == inside && parts != inside as u32
}

#[test]
fn maps_that_are_not_tiled(rt: HostRuntime) -> Result<(), Fail> {
    for (k, row) in ROWS.iter().enumerate() {
        let text = message(rt.alloc(), row)?;
        let got = explained(rt.alloc(), &[text.as_str()], b"", 1000)?;
        let want = told(rt.alloc(), row)?;
        assert_eq!(rt; got.0.as_slice(), want.as_bytes(), "row {k}");
        assert_eq!(rt; got.1.as_slice(), b"".as_slice(), "row {k}");
        assert_eq!(rt; got.2, Status::Refused, "row {k}");
        assert!(rt; is_so(row), "row {k}");
    }
    Ok(())
}
