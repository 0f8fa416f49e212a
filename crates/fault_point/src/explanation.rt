ghost use Rattle.std.specs.Prelude.{◌≡◌, ◌↔◌, ◌<◌, ◌^◌, length, IfOk, OnOk, None, Some, false};
ghost use Rattle.std.specs.List.{All};
ghost use Rattle.rd_plane.specs.Covering.{IsNoded, IsSoundArea, IsTiled, border, cover_count, covers_any};
ghost use Rattle.rd_plane.specs.Frac.{StandsFor};
ghost use Rattle.rd_plane.specs.Plane.{Point};
ghost use Rattle.rd_plane.specs.Shapes.{IsSoundShape, all_edges};
ghost use Rattle.fault_point.specs.Faults.{Explains, PointRule};
ghost use Rattle.fault_point.specs.declared.fault.Fault.TheVariants as fault;
ghost use Rattle.slab_wind.specs.Rows.{IsLowestWrong};

use crate::crossing::least_crossing;
use crate::fault::Fault;
use crate::lowest_terms::in_lowest_terms;
use part_shape::ShapeList;
use rd_plane::{Edge, Edges, FracPt, NoMemory, push_shape};
use slab_wind::first_wound;
use std::alloc::Global;

// The edges of the shapes, which are sound.
fn edges_of_shapes(alloc: Global, shapes: &ShapeList) -> Result<Edges, NoMemory>
    ensures value { IfOk result (λ edges. edges ≡ all_edges shapes.now) }
    ensures sound { OnOk result (All IsSoundShape shapes.now) }
{
    let mut edges = Edges::new(alloc);
    for shape in shapes.as_slice() {
        push_shape(&mut edges, shape.rings())?;
    }
    Ok(edges)
}

// The border edges.
fn border_edges(alloc: Global, area: &ShapeList, parts: &ShapeList) -> Result<Edges, NoMemory>
    ensures value { IfOk result (λ edges. edges ≡ border area.now parts.now) }
    ensures sound { OnOk result (All IsSoundShape parts.now) }
{
    let mut edges = edges_of_shapes(alloc, parts)?;
    let of_area = edges_of_shapes(alloc, area)?;
    for e in of_area.as_slice() {
        edges.push(e.reversed())?;
    }
    Ok(edges)
}

// In how many of the shapes the point lies.
fn holding(shapes: &ShapeList, at: &FracPt) -> u32
    requires { length shapes.now < 2 ^ 32 }
    ensures { (p : Point) → StandsFor at.now p → result ≡ cover_count p shapes.now }
{
    let mut count = 0;
    for shape in shapes.as_slice() {
        if shape.holds(at) {
            count += 1;
        }
    }
    count
}

// Whether the point lies in one of the shapes.
fn some_holds(shapes: &ShapeList, at: &FracPt) -> bool
    ensures { (p : Point) → StandsFor at.now p → result ≡ covers_any p shapes.now }
{
    for shape in shapes.as_slice() {
        if shape.holds(at) {
            return true;
        }
    }
    false
}

// The fault of two edges that cross.
fn crossing_fault(pair: (Edge, Edge)) -> Fault
    ensures { result ≡ fault.Crossing pair.0 pair.1 }
{
    Fault::Crossing {
        first: pair.0,
        second: pair.1,
    }
}

// The fault of the point that a sweep over the border found.
fn point_fault(area: &ShapeList, parts: &ShapeList, found: FracPt) -> Fault
    requires sound { IsSoundArea area.now }
    requires parts_sound { All IsSoundShape parts.now }
    requires few { length parts.now < 2 ^ 32 }
    requires found { IsLowestWrong false (border area.now parts.now) found }
    ensures { PointRule area.now parts.now (Some result) }
{
    let at = in_lowest_terms(found);
    let count = holding(parts, &at);
    let inside = some_holds(area, &at);
    Fault::Point {
        at,
        parts: count,
        inside,
    }
}

/// Why the parts do not tile the area: two border edges that cross, the least pair, or else the first point that lies in
/// the wrong number of parts. `None` exactly where they tile it. Asks for a sound area and shared vertices.
///
/// It costs a search for two edges that cross, by boxes of 1024 and of 16 successive edges, and one sweep over the border.
pub fn explain(
    alloc: Global,
    area: &ShapeList,
    parts: &ShapeList,
) -> Result<Option<Fault>, NoMemory>
    requires sound { IsSoundArea area.now }
    requires noded { IsNoded (border area.now parts.now) }
    requires few { length parts.now < 2 ^ 32 }
    ensures explains { IfOk result (λ found. Explains area.now parts.now found) }
    ensures exact { IfOk result (λ found. (found ≡ None) ↔ IsTiled area.now parts.now) }
{
    let edges = border_edges(alloc, area, parts)?;
    let crossing = least_crossing(alloc, edges.as_slice())?;
    if let Some(pair) = crossing {
        return Ok(Some(crossing_fault(pair)));
    }
    let Some(found) = first_wound(alloc, edges.as_slice())? else {
        return Ok(None);
    };
    Ok(Some(point_fault(area, parts, found)))
}
