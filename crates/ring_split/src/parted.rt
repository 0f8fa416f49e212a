//! Lists of edges, parted by a straight line.

ghost use Rattle.std.specs.Prelude.{◌↔◌, ◌<ℤ◌, pos, IfOk, IsTrue};
ghost use Rattle.rd_plane.specs.Plane.{Point, on, point_of, side};
ghost use Rattle.rd_plane.specs.Shapes.{HasCorners};
ghost use Rattle.ring_split.specs.Parts.{AreInside, HasAllLeftOf};

use rd_plane::{Edge, NoMemory, Pt, Turn, edge_at, orient};
use std::alloc::Global;

// Whether the corner lies right of the straight line through `line`.
fn is_right_of(v: Pt, line: Edge) -> bool
    ensures { IsTrue result ↔ (side (point_of v) line <ℤ pos 0) }
{
    orient(line.a, line.b, v) == Turn::Right
}

/// Whether both ends of the edge, and so each point of it, lie right of the straight line through `line`.
pub fn lies_right_of(e: Edge, line: Edge) -> bool
    ensures { IsTrue result → (p : Point) → IsTrue (on p e) → side p line <ℤ pos 0 }
{
    if !is_right_of(e.a, line) {
        return false;
    }
    is_right_of(e.b, line)
}

/// The listed edges that have a point left of the line or on it, and maybe others.
pub fn left_of(
    alloc: Global,
    points: &[Pt],
    places: &[usize],
    line: Edge,
) -> Result<Vec<usize>, NoMemory>
    requires corners { HasCorners points.now }
    requires places { AreInside points.now places.now }
    ensures inside { IfOk result (λ kept. AreInside points.now kept.items) }
    ensures kept { IfOk result (λ kept. HasAllLeftOf line points.now places.now kept.items) }
{
    let mut kept = Vec::new(alloc);
    for i in places {
        if lies_right_of(edge_at(points, *i), line) {
            continue;
        }
        kept.push(*i)?;
    }
    Ok(kept)
}
