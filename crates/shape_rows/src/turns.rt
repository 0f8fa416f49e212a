//! Rings in every rotation of their corners and both ways round: a ring by itself against the sweep, which judges it with a hole.

use crate::built::{band, ring};
use crate::shapes::note_of;
use crate::singles::fault_of;
use part_shape::{ShapeNote, SingleFault};
use rd_plane::{NoMemory, Ring, Rings};
use std::alloc::Global;

type Corners = &'static [(i64, i64)];

// Rings that run counter-clockwise, each with a small hole in it.
const SMALL: &[(Corners, Corners)] = &[
    (
        &[(0, 0), (100, 0), (0, 100)],
        &[(10, 10), (10, 20), (20, 10)],
    ),
    // corners in line with the least one along both of its sides
    (
        &[
            (0, 0),
            (50, 0),
            (100, 0),
            (100, 50),
            (100, 100),
            (50, 100),
            (0, 100),
            (0, 50),
        ],
        &[(10, 10), (10, 20), (20, 10)],
    ),
    // a neighbour north of the least corner, and one that is neither north nor east of it
    (
        &[(0, 0), (100, 20), (0, 100)],
        &[(10, 20), (10, 40), (20, 20)],
    ),
    // a neighbour east of it, and one that is neither north nor east of it
    (
        &[(0, 0), (100, 0), (20, 100)],
        &[(20, 10), (20, 20), (30, 10)],
    ),
    // a diamond: the neighbours lie on both sides of it
    (
        &[(0, 50), (50, 0), (100, 50), (50, 100)],
        &[(45, 45), (45, 55), (55, 45)],
    ),
    // both neighbours lie on one side of it
    (
        &[(0, 0), (100, 10), (100, 100), (90, 20)],
        &[(92, 15), (92, 20), (95, 15)],
    ),
    // two arms that reach as far west
    (
        &[
            (0, 0),
            (100, 0),
            (100, 100),
            (0, 100),
            (0, 70),
            (60, 70),
            (60, 30),
            (0, 30),
        ],
        &[(10, 10), (10, 20), (20, 10)],
    ),
];

// The corner of the square spiral where its wall turns for this time, so far from the wall.
fn spiral_corner(time: i64, size: i64, off: i64) -> (i64, i64) {
    let round = time.div_euclid(4).wrapping_mul(10);
    let low = round.wrapping_add(off);
    let high = size.wrapping_sub(low);
    match time.rem_euclid(4) {
        0 => (low.wrapping_sub(10).max(0), low),
        1 => (high, low),
        2 => (high, high),
        _ => (low, high),
    }
}

// A corridor of four millimetres that winds inwards so many times along a quarter.
fn spiral(alloc: Global, quarters: i64) -> Result<Ring, NoMemory> {
    let size = quarters.wrapping_mul(20);
    let mut corners = Vec::new(alloc);
    for time in 0..quarters {
        corners.push(spiral_corner(time, size, 0))?;
    }
    for back in 0..quarters {
        let time = quarters.wrapping_sub(1).wrapping_sub(back);
        corners.push(spiral_corner(time, size, 4))?;
    }
    ring(alloc, corners.as_slice())
}

// A back along the south, and so many teeth that lean to the east.
fn teeth(alloc: Global, count: i64) -> Result<Ring, NoMemory> {
    let mut corners = Vec::new(alloc);
    corners.push((0, 0))?;
    corners.push((count.wrapping_mul(10), 0))?;
    for back in 0..count {
        let x = count.wrapping_sub(1).wrapping_sub(back).wrapping_mul(10);
        corners.push((x.wrapping_add(8), 100))?;
        corners.push((x.wrapping_add(1), 10))?;
    }
    ring(alloc, corners.as_slice())
}

// Sixteen directions, counter-clockwise.
const ROUND: [(i64, i64); 16] = [
    (10, 0),
    (9, 4),
    (7, 7),
    (4, 9),
    (0, 10),
    (-4, 9),
    (-7, 7),
    (-9, 4),
    (-10, 0),
    (-9, -4),
    (-7, -7),
    (-4, -9),
    (0, -10),
    (4, -9),
    (7, -7),
    (9, -4),
];

// A star of eight points.
fn star(alloc: Global) -> Result<Ring, NoMemory> {
    let mut corners = Vec::new(alloc);
    let mut far = true;
    for (x, y) in ROUND {
        let times = if far { 10 } else { 3 };
        corners.push((x.wrapping_mul(times), y.wrapping_mul(times)))?;
        far = !far;
    }
    ring(alloc, corners.as_slice())
}

// The point of the square around the origin that comes so many steps after its south-east corner.
fn on_square(step: i64, half: i64) -> (i64, i64) {
    let side = half.wrapping_mul(2);
    let along = step.rem_euclid(side.max(1)).wrapping_sub(half);
    let back = along.wrapping_neg();
    match step.div_euclid(side.max(1)) {
        0 => (half, along),
        1 => (back, half),
        2 => (half.wrapping_neg(), back),
        _ => (along, half.wrapping_neg()),
    }
}

// A star with a corner in each direction of such a square, eight times as many as half its side.
fn large_star(alloc: Global, half: i64) -> Result<Ring, NoMemory> {
    let mut corners = Vec::new(alloc);
    for step in 0..half.wrapping_mul(8) {
        let (x, y) = on_square(step, half);
        let times = step.rem_euclid(2).wrapping_add(2);
        corners.push((x.wrapping_mul(times), y.wrapping_mul(times)))?;
    }
    ring(alloc, corners.as_slice())
}

// The ring from this corner on, or, the other way round, up to it.
fn rotated(alloc: Global, ring: &Ring, first: usize, is_back: bool) -> Result<Ring, NoMemory> {
    let mut corners = ring.as_slice().to_vec(alloc)?;
    if first <= corners.len() {
        corners.rotate_left(first);
    }
    if is_back {
        corners.reverse();
    }
    Ok(Ring::from_vec(corners))
}

// What is wrong with the ring as a shape, with this hole where there is one.
fn noted(alloc: Global, ring: &Ring, hole: Option<&Ring>) -> Result<Option<ShapeNote>, NoMemory> {
    let mut rings = Rings::new(alloc);
    rings.push(Ring::from_slice(alloc, ring.as_slice())?)?;
    if let Some(hole) = hole {
        rings.push(Ring::from_slice(alloc, hole.as_slice())?)?;
    }
    note_of(alloc, &rings)
}

// What a ring is by itself that runs counter-clockwise, or, the other way round, clockwise.
fn fault_so(is_back: bool) -> Option<SingleFault> {
    if is_back {
        Some(SingleFault::Clockwise)
    } else {
        None
    }
}

// Whether the ring, rotated so, is judged as it should be by itself.
fn is_right_alone(
    alloc: Global,
    ring: &Ring,
    first: usize,
    is_back: bool,
) -> Result<bool, NoMemory> {
    let ring = rotated(alloc, ring, first, is_back)?;
    Ok(fault_of(alloc, &ring)? == fault_so(is_back))
}

// Whether it is judged as it should be by itself, as a shape, and by the sweep as a shape with a hole.
fn is_right(
    alloc: Global,
    ring: &Ring,
    hole: &Ring,
    first: usize,
    is_back: bool,
) -> Result<bool, NoMemory> {
    let ring = rotated(alloc, ring, first, is_back)?;
    let note = if is_back {
        Some(ShapeNote::Wound)
    } else {
        None
    };
    Ok(
        fault_of(alloc, &ring)? == fault_so(is_back)
            && noted(alloc, &ring, None)? == note
            && noted(alloc, &ring, Some(hole))? == note,
    )
}

// The same both ways round.
fn are_right(alloc: Global, ring: &Ring, hole: &Ring, first: usize) -> Result<bool, NoMemory> {
    Ok(is_right(alloc, ring, hole, first, false)? && is_right(alloc, ring, hole, first, true)?)
}

// The first rotation that is judged otherwise than it should be.
fn first_wrong(alloc: Global, ring: &Ring, hole: &Ring) -> Result<Option<usize>, NoMemory> {
    for first in 0..ring.len() {
        if !are_right(alloc, ring, hole, first)? {
            return Ok(Some(first));
        }
    }
    Ok(None)
}

// The same of four rotations of a long ring.
fn some_wrong(alloc: Global, ring: &Ring, hole: &Ring) -> Result<Option<usize>, NoMemory> {
    let count = ring.len();
    for first in [0, 1, count / 2, count.saturating_sub(1)] {
        if !are_right(alloc, ring, hole, first)? {
            return Ok(Some(first));
        }
    }
    Ok(None)
}

#[test]
fn every_rotation(rt: HostRuntime) -> Result<(), NoMemory> {
    let alloc = rt.alloc();
    for (i, (corners, hole)) in SMALL.iter().enumerate() {
        let wrong = first_wrong(alloc, &ring(alloc, corners)?, &ring(alloc, hole)?)?;
        assert!(rt; wrong.is_none(), "ring {i}, rotation {wrong:?}");
    }
    let hole = ring(alloc, &[(1, 1), (1, 2), (2, 1)])?;
    for count in [4, 7] {
        let wrong = first_wrong(alloc, &spiral(alloc, count)?, &hole)?;
        assert!(rt; wrong.is_none(), "spiral {count}, rotation {wrong:?}");
        let wrong = first_wrong(alloc, &teeth(alloc, count)?, &hole)?;
        assert!(rt; wrong.is_none(), "teeth {count}, rotation {wrong:?}");
    }
    let wrong = first_wrong(alloc, &star(alloc)?, &hole)?;
    assert!(rt; wrong.is_none(), "star, rotation {wrong:?}");
    Ok(())
}

// The same by themselves alone.
fn some_wrong_alone(alloc: Global, ring: &Ring) -> Result<Option<usize>, NoMemory> {
    let count = ring.len();
    for first in [0, 1, count / 2, count.saturating_sub(1)] {
        let is_right = is_right_alone(alloc, ring, first, false)?
            && is_right_alone(alloc, ring, first, true)?;
        if !is_right {
            return Ok(Some(first));
        }
    }
    Ok(None)
}

// Rings around the lengths at which the search for faults changes, and longer ones.
#[test]
fn long_rings(rt: HostRuntime) -> Result<(), NoMemory> {
    let alloc = rt.alloc();
    let hole = ring(alloc, &[(1, 1), (1, 2), (2, 1)])?;
    for half in [24, 25, 32, 33, 128] {
        let wrong = some_wrong(alloc, &spiral(alloc, half)?, &hole)?;
        assert!(rt; wrong.is_none(), "spiral {half}, rotation {wrong:?}");
        let wrong = some_wrong(alloc, &teeth(alloc, half.wrapping_sub(1))?, &hole)?;
        assert!(rt; wrong.is_none(), "teeth {half}, rotation {wrong:?}");
    }
    for half in [6, 7, 8, 9, 32] {
        let wrong = some_wrong(alloc, &large_star(alloc, half)?, &hole)?;
        assert!(rt; wrong.is_none(), "star {half}, rotation {wrong:?}");
    }
    Ok(())
}

// The longest rings that a message may have, one of them by the sweep too, and a spiral that no line parts well.
#[test]
fn the_longest_rings(rt: HostRuntime) -> Result<(), NoMemory> {
    let alloc = rt.alloc();
    let saw = band(alloc, 2048)?;
    assert!(rt; saw.len() == 4096);
    let wrong = some_wrong_alone(alloc, &saw)?;
    assert!(rt; wrong.is_none(), "band, rotation {wrong:?}");
    let wrong = some_wrong_alone(alloc, &spiral(alloc, 512)?)?;
    assert!(rt; wrong.is_none(), "spiral, rotation {wrong:?}");
    let wrong = some_wrong_alone(alloc, &teeth(alloc, 2047)?)?;
    assert!(rt; wrong.is_none(), "teeth, rotation {wrong:?}");
    let wrong = some_wrong_alone(alloc, &large_star(alloc, 512)?)?;
    assert!(rt; wrong.is_none(), "star, rotation {wrong:?}");
    let hole = ring(alloc, &[(1, 1000), (1, 1002), (2, 1000)])?;
    assert!(rt; is_right(alloc, &saw, &hole, 2048, false)?);
    Ok(())
}
