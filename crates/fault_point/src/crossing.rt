//! The least two edges that cross.
//!
//! The edges are taken in blocks of 1024 successive ones, which lie near to one another where they are those of rings, and
//! the edges near a block are listed by boxes. Within a block they are taken in stretches of 16: an edge whose box lies
//! apart from that of a stretch is compared with none of it.

ghost use Rattle.std.specs.Prelude.{◌≡◌, ◌≢◌, ◌⊎◌, ◌↔◌, ◌<◌, ◌≤◌, length, IfOk, IsTrue, MatchOption};
ghost use Rattle.std.specs.declared.cmp.Ordering.TheVariants.{Less};
ghost use Rattle.rd_plane.specs.EdgeBoxes.{HoldsEdges};
ghost use Rattle.rd_plane.specs.Improving.{Improves};
ghost use Rattle.rd_plane.specs.Meeting.{IsMeet};
ghost use Rattle.rd_plane.specs.Order.{IsLeast};
ghost use Rattle.rd_plane.specs.Plane.{Segment};
ghost use Rattle.fault_point.specs.Crossings.{AreCrossing, AreNearBox, IsPair, IsPairOf, IsPairWith};
ghost use Rattle.fault_point.specs.Faults.{IsCrossing, pair_cmp};

use rd_plane::{Bounds, Edge, Meet, NoMemory, box_of_edge, box_of_edges, meet_of};
use std::alloc::Global;
use std::cmp::Ordering;

// More would make the boxes wide, fewer would make them many.
const STRETCH: usize = 16;

// Successive edges whose near edges are looked up together.
const BLOCK: usize = 1024;

// Whether e and f come before g and h: by the first edge, then by the second.
fn comes_before(e: Edge, f: Edge, g: Edge, h: Edge) -> bool
    ensures { IsTrue result ↔ (pair_cmp (e, f) (g, h) ≡ Less) }
{
    e.cmp(&g).then(f.cmp(&h)) == Ordering::Less
}

// The first of the two pairs in their order.
fn lesser(e: Edge, f: Edge, g: Edge, h: Edge) -> (Edge, Edge)
    ensures { ((result ≡ (e, f)) × (pair_cmp (e, f) (g, h) ≡ Less)) ⊎ ((result ≡ (g, h)) × (pair_cmp (e, f) (g, h) ≢ Less)) }
{
    if comes_before(e, f, g, h) {
        return (e, f);
    }
    (g, h)
}

// Whether edges that meet so cross.
fn is_cross(meet: Meet) -> bool
    ensures { IsTrue result ↔ (meet ≡ Meet.Cross) }
{
    match meet {
        Meet::Cross => true,
        _ => false,
    }
}

// Whether e is the smaller edge and they cross.
fn are_crossing(e: Edge, f: Edge) -> bool
    ensures { IsTrue result ↔ AreCrossing e f }
{
    if e.cmp(&f) != Ordering::Less {
        return false;
    }
    is_cross(meet_of(e, f))
}

// The lesser of what was found so far and of e and f, where they cross.
fn tried(best: Option<(Edge, Edge)>, e: Edge, f: Edge) -> Option<(Edge, Edge)>
    ensures { Improves pair_cmp (IsPair e f) best result }
{
    if !are_crossing(e, f) {
        return best;
    }
    let Some(found) = best else {
        return Some((e, f));
    };
    Some(lesser(found.0, found.1, e, f))
}

// The same of e and each of these edges.
fn tried_with(best: Option<(Edge, Edge)>, e: Edge, edges: &[Edge]) -> Option<(Edge, Edge)>
    ensures { Improves pair_cmp (IsPairWith e edges.now) best result }
{
    let mut least = best;
    for f in edges {
        least = tried(least, e, *f);
    }
    least
}

// The same, by a box of these edges.
fn tried_near(
    best: Option<(Edge, Edge)>,
    e: Edge,
    edges: &[Edge],
    bounds: &Bounds,
) -> Option<(Edge, Edge)>
    requires { HoldsEdges bounds.now edges.now }
    ensures { Improves pair_cmp (IsPairWith e edges.now) best result }
{
    if !box_of_edge(e).meets(bounds) {
        return best;
    }
    tried_with(best, e, edges)
}

// The same of each edge and each edge of the stretch.
fn tried_stretch(
    best: Option<(Edge, Edge)>,
    edges: &[Edge],
    stretch: &[Edge],
) -> Option<(Edge, Edge)>
    ensures { Improves pair_cmp (IsPairOf edges.now stretch.now) best result }
{
    let Some(bounds) = box_of_edges(stretch) else {
        return best;
    };
    let mut least = best;
    for e in edges {
        least = tried_near(least, *e, stretch, &bounds);
    }
    least
}

// Where the stretch of this size from this place ends: at most at the end of the list.
fn end_of_stretch(edges: &[Edge], from: usize, size: usize) -> usize
    requires inside { from < length edges.now }
    requires some { 0 < size }
    ensures further { from < result }
    ensures inside { result ≤ length edges.now }
{
    if edges.len() - from <= size {
        edges.len()
    } else {
        from + size
    }
}

// The same of each edge and each of the block, stretch by stretch.
fn tried_stretches(
    best: Option<(Edge, Edge)>,
    edges: &[Edge],
    block: &[Edge],
) -> Option<(Edge, Edge)>
    ensures { Improves pair_cmp (IsPairOf edges.now block.now) best result }
{
    let mut least = best;
    let mut from = 0;
    while from < block.len() {
        let to = end_of_stretch(block, from, STRETCH);
        least = tried_stretch(least, edges, &block[from..to]);
        from = to;
    }
    least
}

// The edges whose boxes meet the box.
fn near_edges(alloc: Global, edges: &[Edge], bounds: &Bounds) -> Result<Vec<Edge>, NoMemory>
    ensures { IfOk result (λ near. AreNearBox bounds.now edges.now near.items) }
{
    let mut near = Vec::new(alloc);
    for e in edges {
        if box_of_edge(*e).meets(bounds) {
            near.push(*e)?;
        }
    }
    Ok(near)
}

// The same of each edge and each of the block. Only the edges near the block are looked at more than once.
fn tried_block(
    alloc: Global,
    best: Option<(Edge, Edge)>,
    edges: &[Edge],
    block: &[Edge],
) -> Result<Option<(Edge, Edge)>, NoMemory>
    ensures { IfOk result (Improves pair_cmp (IsPairOf edges.now block.now) best) }
{
    let Some(bounds) = box_of_edges(block) else {
        return Ok(best);
    };
    let near = near_edges(alloc, edges, &bounds)?;
    Ok(tried_stretches(best, near.as_slice(), block))
}

/// The least two of the edges that cross, the smaller one first. `None` exactly where no two cross.
///
/// For n edges n / 1024 blocks, each compared with n edges by boxes, and then each stretch of 16 of the block with the
/// edges near the block. Takes the memory of one list of edges for a block.
pub fn least_crossing(alloc: Global, edges: &[Edge]) -> Result<Option<(Edge, Edge)>, NoMemory>
    ensures { IfOk result (λ found. MatchOption found ((x : Segment × Segment) → IsCrossing edges.now x → ⊥) (IsLeast pair_cmp (IsCrossing edges.now))) }
{
    let mut least = None;
    let mut from = 0;
    while from < edges.len() {
        let to = end_of_stretch(edges, from, BLOCK);
        least = tried_block(alloc, least, edges, &edges[from..to])?;
        from = to;
    }
    Ok(least)
}
