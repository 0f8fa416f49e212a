//! Which way round does a simple ring run?
//!
//! Idea: at its least corner, by x and then y, the whole ring lies on one side, so the turn there is that of the ring.
//! Cost: one walk over the n corners, and one turn. It takes no memory.
//! The test is known (comp.graphics.algorithms, Frequently asked questions, 2.07, kept by O'Rourke); that it is right for
//! each simple ring is proved here from the law of the jump.

ghost use Rattle.std.specs.Prelude.{◌≡◌, ◌≢◌, ◌+◌, ◌<◌, ◌⊎◌, [], pos, negsuc, length, IsFalse, IsTrue};
ghost use Rattle.std.specs.Bool.{if◌then◌else◌};
ghost use Rattle.rd_plane.specs.Shapes.{HasCorners, MeetsInTurn, WindsBy, ring_edges};
ghost use Rattle.rd_plane.specs.declared.turn.Turn.TheVariants.{Left, Right};
ghost use Rattle.ring_law.specs.Turns.{IsLeastUpTo, TurnsAtLeast, WindsSome};

use rd_plane::{Pt, Turn, edge_at, orient};
use std::cmp::Ordering;

// The place of the lesser of two corners, the first where they are equal.
fn lesser_place(points: &[Pt], i: usize, k: usize) -> usize
    requires { (i < k) × (k < length points.now) }
    ensures { IsLeastUpTo points.now i k → IsLeastUpTo points.now result (k + 1) }
{
    if points[k].cmp(&points[i]) == Ordering::Less {
        return k;
    }
    i
}

// The place of the least corner.
fn least_place(points: &[Pt]) -> usize
    requires { points.now ≢ [] }
    ensures { IsLeastUpTo points.now result (length points.now) }
{
    let mut least = 0;
    for k in 1..points.len() {
        least = lesser_place(points, least, k);
    }
    least
}

// The place before this one, round the list.
fn place_before(count: usize, place: usize) -> usize
    requires { place < count }
    ensures inside { result < count }
    ensures next { (place ≡ result + 1) ⊎ ((place ≡ 0) × (result + 1 ≡ count)) }
{
    if place == 0 {
        return count - 1;
    }
    place - 1
}

/// The turn of the ring at its least corner, by x and then y, from the corner before it to the corner after it. Linear in
/// the number of corners, and takes no memory.
pub fn turn_at_least(points: &[Pt]) -> Turn
    requires { HasCorners points.now }
    ensures { TurnsAtLeast points.now result }
{
    let least = least_place(points);
    let comes = edge_at(points, place_before(points.len(), least));
    let goes = edge_at(points, least);
    orient(comes.a, goes.a, goes.b)
}

/// Whether a simple ring turns left at its least corner. Then it runs counter-clockwise, and winds each point off its edges
/// 0 or 1 times, some of them once. Else it turns right there, runs clockwise and winds each 0 or -1 times, some of them
/// once back. Linear in the number of corners, and takes no memory.
pub fn runs_left(points: &[Pt]) -> bool
    requires { HasCorners points.now × MeetsInTurn points.now }
    ensures turn { TurnsAtLeast points.now (if result then Left else Right) }
    ensures left { IsTrue result → WindsBy (pos 1) (ring_edges points.now) × WindsSome (pos 1) (ring_edges points.now) }
    ensures right { IsFalse result → WindsBy (negsuc 0) (ring_edges points.now) × WindsSome (negsuc 0) (ring_edges points.now) }
{
    match turn_at_least(points) {
        Turn::Left => true,
        Turn::Straight => false,
        Turn::Right => false,
    }
}
