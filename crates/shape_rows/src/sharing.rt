//! Pairs of shapes: whether they share a point off their borders.

use crate::are_counted;
use crate::built::rings;
use part_shape::Shape;
use rd_plane::NoMemory;
use std::alloc::Global;

type Corners = &'static [(i64, i64)];

const SQUARE: Corners = &[(0, 0), (1000, 0), (1000, 1000), (0, 1000)];

const HOLE: Corners = &[(200, 200), (200, 800), (800, 800), (800, 200)];

const ROUND: Corners = &[(-100, -100), (1100, -100), (1100, 1100), (-100, 1100)];

// A shape of one ring, and whether it shares a point with the square.
const PAIRS: &[(Corners, bool)] = &[
    // the same square
    (SQUARE, true),
    // beside it, along a whole edge, along a part of one and along more than one
    (&[(1000, 0), (2000, 0), (2000, 1000), (1000, 1000)], false),
    (&[(1000, 200), (2000, 200), (2000, 700), (1000, 700)], false),
    (
        &[(1000, -200), (2000, -200), (2000, 1200), (1000, 1200)],
        false,
    ),
    // beside it in a corner, with corners of both and with an edge of the other
    (
        &[(1000, 1000), (2000, 1000), (2000, 2000), (1000, 2000)],
        false,
    ),
    (&[(1500, 500), (1500, 1500), (500, 1500)], false),
    // over that corner by one millimetre
    (&[(1499, 500), (1500, 1500), (499, 1500)], true),
    // inside it: free, along a part of an edge, and touching an edge with a corner
    (&[(200, 200), (700, 200), (700, 700), (200, 700)], true),
    (&[(0, 200), (700, 200), (700, 700), (0, 700)], true),
    (&[(0, 500), (500, 300), (500, 700)], true),
    // touching it with a corner from without
    (&[(1000, 500), (1500, 300), (1500, 700)], false),
    // over an edge by one millimetre, one millimetre away
    (&[(999, 200), (2000, 200), (2000, 700), (999, 700)], true),
    (&[(1001, 200), (2000, 200), (2000, 700), (1001, 700)], false),
    // crossing it with a corner of each inside the other, and with no corner inside, straight and aslant
    (&[(500, 500), (1500, 500), (1500, 1500), (500, 1500)], true),
    (&[(-100, 400), (1100, 400), (1100, 600), (-100, 600)], true),
    (&[(500, -200), (1200, 500), (500, 1200), (-200, 500)], true),
    // round it, and far from it
    (ROUND, true),
    (
        &[(5000, 5000), (6000, 5000), (6000, 6000), (5000, 6000)],
        false,
    ),
];

// A shape, and whether it shares a point with the square that has the hole.
const HOLED: &[(&[Corners], bool)] = &[
    // the same
    (&[SQUARE, HOLE], true),
    // in the hole: filling it, free, and touching it with a corner
    (&[&[(200, 200), (800, 200), (800, 800), (200, 800)]], false),
    (&[&[(300, 300), (700, 300), (700, 700), (300, 700)]], false),
    (&[&[(200, 500), (500, 300), (500, 700)]], false),
    // over the edge of the hole by one millimetre
    (&[&[(199, 300), (700, 300), (700, 700), (199, 700)]], true),
    // round the hole, and across it
    (&[&[(100, 100), (900, 100), (900, 900), (100, 900)]], true),
    (&[&[(100, 400), (900, 400), (900, 600), (100, 600)]], true),
    // with a hole that the square fills, and with one that is a millimetre too small
    (
        &[ROUND, &[(0, 0), (0, 1000), (1000, 1000), (1000, 0)]],
        false,
    ),
    (&[ROUND, &[(1, 1), (1, 999), (999, 999), (999, 1)]], true),
];

// Whether the shapes of these rings share a point, asked either way round. Want of memory is an error.
fn shared(alloc: Global, one: &[Corners], other: &[Corners]) -> Result<(bool, bool), NoMemory> {
    let one = rings(alloc, one)?;
    let other = rings(alloc, other)?;
    if !are_counted(&one) || !are_counted(&other) {
        return Err(NoMemory);
    }
    let Ok(first) = Shape::check(alloc, &one) else {
        return Err(NoMemory);
    };
    let Ok(second) = Shape::check(alloc, &other) else {
        return Err(NoMemory);
    };
    Ok((first.shares(alloc, &second)?, second.shares(alloc, &first)?))
}

#[test]
fn shapes_share_points(rt: HostRuntime) -> Result<(), NoMemory> {
    for (i, (outer, want)) in PAIRS.iter().enumerate() {
        let found = shared(rt.alloc(), &[SQUARE], &[outer])?;
        assert!(rt; found.0 == *want && found.1 == *want, "pair {i}");
    }
    for (i, (rings, want)) in HOLED.iter().enumerate() {
        let found = shared(rt.alloc(), &[SQUARE, HOLE], rings)?;
        assert!(rt;
            found.0 == *want && found.1 == *want,
            "pair with a hole {i}"
        );
    }
    Ok(())
}
