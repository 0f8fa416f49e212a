//! Boxes of areas, as a cheap test in front of the exact one.

ghost use Rattle.std.specs.Prelude.{◌≡◌, ◌↔◌, ◌++◌, [], List, IsTrue, MatchOption};
ghost use Rattle.rd_plane.specs.Bounds.{IsLeastBox};
ghost use Rattle.rd_plane.specs.Plane.{Vertex};
ghost use Rattle.area_book.specs.Standing.{BoxesMeet, IsBoxOf};

use part_shape::Shape;
use rd_plane::Bounds;

// The least box of what the first has, if there is one, and the other.
fn joined(bounds: Option<Bounds>, other: Bounds) -> Bounds
    ensures { (corners others : List Vertex) → MatchOption bounds (corners ≡ []) (IsLeastBox corners) → IsLeastBox others other → IsLeastBox (corners ++ others) result }
{
    match bounds {
        Some(box_so_far) => box_so_far.join(other),
        None => other,
    }
}

/// The least box of the corners of all shapes. `None` exactly where there are no shapes. Linear in the corners.
pub(crate) fn bounds_of(shapes: &[Shape]) -> Option<Bounds>
    ensures { IsBoxOf result shapes.now }
{
    let mut bounds = None;
    for shape in shapes {
        bounds = Some(joined(bounds, shape.bounds()));
    }
    bounds
}

/// Whether both have a box, and the boxes have a common point.
pub(crate) fn boxes_meet(one: &Option<Bounds>, other: &Option<Bounds>) -> bool
    ensures { IsTrue result ↔ BoxesMeet one.now other.now }
{
    let Some(first) = one else {
        return false;
    };
    let Some(second) = other else {
        return false;
    };
    first.meets(second)
}
