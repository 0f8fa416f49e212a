//! Maps that are tiled, and others: their least border edge that occurs twice or has no reverse.

use crate::built::rings;
use crate::counted::are_counted;
use chain_cancel::unmatched;
use part_shape::{Shape, ShapeList};
use rd_plane::{Edge, Edges, NoMemory};
use std::alloc::Global;

type Corners = &'static [(i64, i64)];

const SQUARE: Corners = &[(0, 0), (10_000, 0), (10_000, 10_000), (0, 10_000)];

const SIX: Corners = &[
    (0, 0),
    (5000, 0),
    (10_000, 0),
    (10_000, 10_000),
    (5000, 10_000),
    (0, 10_000),
];

const LEFT: Corners = &[(0, 0), (5000, 0), (6000, 5000), (5000, 10_000), (0, 10_000)];

const RIGHT: Corners = &[
    (5000, 0),
    (10_000, 0),
    (10_000, 10_000),
    (5000, 10_000),
    (6000, 5000),
];

const RIGHT_OFF: Corners = &[
    (5000, 0),
    (10_000, 0),
    (10_000, 10_000),
    (5000, 10_000),
    (6001, 5000),
];

const ACROSS: Corners = &[(4000, -2000), (6000, -2000), (6000, 12_000), (4000, 12_000)];

fn shapes(alloc: Global, outers: &[Corners]) -> Result<ShapeList, NoMemory> {
    let mut list = ShapeList::new(alloc);
    for outer in outers {
        let shape = rings(alloc, &[outer])?;
        if are_counted(&shape) {
            if let Ok(sound) = Shape::check(alloc, &shape) {
                list.push(sound)?;
            }
        }
    }
    Ok(list)
}

fn edges_of(alloc: Global, shapes: &ShapeList) -> Result<Edges, NoMemory> {
    let mut edges = Edges::new(alloc);
    for shape in shapes.as_slice() {
        let of_shape = shape.edges(alloc)?;
        edges.extend_from_slice(of_shape.as_slice())?;
    }
    Ok(edges)
}

// The area, the parts, and the ends of the least border edge that is wrong, in millimetres from (100000, 400000) metres.
const MAPS: &[(&[Corners], &[Corners], Option<[i64; 4]>)] = &[
    (&[SQUARE], &[SQUARE], None),
    (&[SIX], &[LEFT, RIGHT], None),
    // a gap of one millimetre
    (&[SIX], &[LEFT, RIGHT_OFF], Some([5000, 0, 6000, 5000])),
    // twice the same part, a part outside, a part that lacks, one across another
    (&[SQUARE], &[SQUARE, SQUARE], Some([0, 0, 10_000, 0])),
    (&[], &[SQUARE], Some([0, 0, 10_000, 0])),
    (&[SQUARE], &[], Some([0, 0, 0, 10_000])),
    (
        &[SQUARE],
        &[SQUARE, ACROSS],
        Some([4000, -2000, 6000, -2000]),
    ),
];

// Whether these are the ends of the edge.
fn has_ends(e: Edge, ends: [i64; 4]) -> bool {
    let [ax, ay, bx, by] = ends;
    let a = e.a.x.wrapping_sub(100_000_000) == ax && e.a.y.wrapping_sub(400_000_000) == ay;
    let b = e.b.x.wrapping_sub(100_000_000) == bx && e.b.y.wrapping_sub(400_000_000) == by;
    a && b
}

// Whether this is the least border edge that is wrong, or there is none.
fn lacks(
    alloc: Global,
    area: &ShapeList,
    parts: &ShapeList,
    want: Option<[i64; 4]>,
) -> Result<bool, NoMemory> {
    let area = edges_of(alloc, area)?;
    let parts = edges_of(alloc, parts)?;
    let found = unmatched(alloc, area.as_slice(), parts.as_slice())?;
    Ok(match (found, want) {
        (Some(e), Some(ends)) => has_ends(e, ends),
        (None, None) => true,
        _ => false,
    })
}

#[test]
fn maps_cancel_where_tiled(rt: HostRuntime) {
    let alloc = rt.alloc();
    for (i, (area, parts, least)) in MAPS.iter().enumerate() {
        let area = shapes(alloc, area).expect(&rt, "memory");
        let parts = shapes(alloc, parts).expect(&rt, "memory");
        assert!(rt; lacks(alloc, &area, &parts, *least) == Ok(true), "row {i}");
    }
}
