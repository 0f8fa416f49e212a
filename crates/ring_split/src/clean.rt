//! Do any two edges of a ring meet otherwise than in turn?
//!
//! Idea: a straight line parts a list of edges into those that have a point left of it or on it and those that have one
//! right of it or on it. Two edges with a common point stand together in one of the two lists. So where the short lists at
//! the end are clean, so is the ring.
//! Cost: a list of k edges is parted by 2k turns. With lines that part well, n edges take n log n turns in all. At most 256
//! edges are looked at for each edge of the ring, and lists are parted 64 times in a row; past that, nothing is known.
//! After binary space partitions (Fuchs, Kedem and Naylor, On visible surface generation by a priori tree structures,
//! 1980): here an edge that a line crosses stands in both lists and is not cut, and no tree is kept.

ghost use Rattle.std.specs.Prelude.{ℕ, ◌<◌, ◌^◌, length, IfOk, IsTrue};
ghost use Rattle.std.specs.List.{Contains};
ghost use Rattle.rd_plane.specs.Shapes.{HasCorners, MeetsInTurn};
ghost use Rattle.ring_split.specs.Parts.{AreClean, AreInside};

use crate::line::parting_line;
use crate::pairs::are_clean;
use crate::parted::left_of;
use rd_plane::{NoMemory, Pt};
use std::alloc::Global;

// A list of no more edges is compared pair by pair.
const FEW: usize = 32;

// How often a list is parted at most, one time after the other.
const DEPTH: usize = 64;

// How many edges are looked at in all lists together, for each edge of the ring.
const SHARE: usize = 256;

// Whether a line leaves so many of n edges on one side that it hardly parts them.
fn is_stuck(n: usize, most: usize) -> bool {
    most >= n - n / 64
}

// Whether no two of the listed edges meet badly, where it may cost so much to compare each with each.
fn are_found_clean(points: &[Pt], places: &[usize], left: &mut usize) -> bool
    requires corners { HasCorners points.now }
    requires places { AreInside points.now places.now }
    ensures { IsTrue result → AreClean points.now places.now }
{
    let n = places.len();
    let Some(pairs) = n.checked_mul(n) else {
        return false;
    };
    let cost = pairs / 8;
    if *left < cost {
        return false;
    }
    *left -= cost;
    are_clean(points, places)
}

// Whether no two of the listed edges meet badly, as far as lines and what is left to spend show it: `false` says nothing.
// A line that parts them is looked for, and then each of the two lists is parted in turn.
fn clean_parts(
    alloc: Global,
    points: &[Pt],
    places: &[usize],
    depth: usize,
    left: &mut usize,
) -> Result<bool, NoMemory>
    requires corners { HasCorners points.now }
    requires places { AreInside points.now places.now }
    ensures { IfOk result (λ clean. IsTrue clean → AreClean points.now places.now) }
{
    if places.len() <= FEW {
        return Ok(are_clean(points, places));
    }
    if depth == 0 {
        return Ok(false);
    }
    if *left < places.len() {
        return Ok(false);
    }
    *left -= places.len();
    let line = parting_line(points, places);
    let west = left_of(alloc, points, places, line)?;
    let east = left_of(alloc, points, places, line.reversed())?;
    if is_stuck(places.len(), west.len().max(east.len())) {
        return Ok(are_found_clean(points, places, left));
    }
    if !clean_parts(alloc, points, west.as_slice(), depth - 1, left)? {
        return Ok(false);
    }
    if !clean_parts(alloc, points, east.as_slice(), depth - 1, left)? {
        return Ok(false);
    }
    Ok(true)
}

// The places of all edges.
fn all_places(alloc: Global, n: usize) -> Result<Vec<usize>, NoMemory>
    ensures inside { IfOk result (λ places. (k : ℕ) → Contains places.items k → k < n) }
    ensures all { IfOk result (λ places. (k : ℕ) → k < n → Contains places.items k) }
{
    let mut places = Vec::with_capacity(alloc, n)?;
    for i in 0..n {
        places.push(i)?;
    }
    Ok(places)
}

/// Whether any two edges of the ring meet in turn alone, where lines part it well. `false` says nothing.
pub fn parts_clean(alloc: Global, points: &[Pt]) -> Result<bool, NoMemory>
    requires corners { HasCorners points.now }
    requires length { length points.now < 2 ^ 32 }
    ensures { IfOk result (λ clean. IsTrue clean → MeetsInTurn points.now) }
{
    let places = all_places(alloc, points.len())?;
    let mut left = SHARE * points.len();
    let clean = clean_parts(alloc, points, places.as_slice(), DEPTH, &mut left)?;
    Ok(clean)
}
