//! The edges of a short list, each compared with each.

ghost use Rattle.std.specs.Prelude.{ℕ, ◌<◌, length, IsTrue};
ghost use Rattle.std.specs.List.{Contains};
ghost use Rattle.rd_plane.specs.Shapes.{HasCorners};
ghost use Rattle.ring_simple.specs.Faults.{MeetsBadly};
ghost use Rattle.ring_split.specs.Parts.{AreClean, AreInside};

use rd_plane::{Pt, edge_at};
use ring_simple::meets_badly;

// Whether the edges at i and j do not meet badly, or i is not before j.
fn pair_is_clean(points: &[Pt], i: usize, j: usize) -> bool
    requires corners { HasCorners points.now }
    requires first { i < length points.now }
    requires second { j < length points.now }
    ensures { IsTrue result → MeetsBadly points.now i j → ⊥ }
{
    if i >= j {
        return true;
    }
    !meets_badly(points, i, edge_at(points, i), j, edge_at(points, j))
}

// Whether the edge at i meets badly none that is listed and comes later.
fn is_clean(points: &[Pt], i: usize, places: &[usize]) -> bool
    requires corners { HasCorners points.now }
    requires inside { i < length points.now }
    requires places { AreInside points.now places.now }
    ensures { IsTrue result → (j : ℕ) → Contains places.now j → MeetsBadly points.now i j → ⊥ }
{
    for j in places {
        if !pair_is_clean(points, i, *j) {
            return false;
        }
    }
    true
}

/// Whether no two of the listed edges meet badly. Compares each with each.
pub fn are_clean(points: &[Pt], places: &[usize]) -> bool
    requires corners { HasCorners points.now }
    requires places { AreInside points.now places.now }
    ensures { IsTrue result → AreClean points.now places.now }
{
    for i in places {
        if !is_clean(points, *i, places) {
            return false;
        }
    }
    true
}
