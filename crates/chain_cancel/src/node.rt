//! The least vertex of a border that lies strictly inside an edge of it.
//!
//! The edges are taken in stretches of 64 successive ones, which lie near to one another where they are those of rings.
//! An edge whose box lies apart from that of a stretch is compared with none of its ends. So most edges cost four
//! comparisons for each stretch. It takes no memory.

ghost use Rattle.std.specs.Prelude.{◌≡◌, ◌≢◌, ◌⊎◌, ◌↔◌, ◌<◌, ◌≤◌, [], List, length, IsTrue, MatchOption, None};
ghost use Rattle.std.specs.declared.cmp.Ordering.TheVariants.{Less};
ghost use Rattle.rd_plane.specs.Covering.{IsNoded, border_of};
ghost use Rattle.rd_plane.specs.EdgeBoxes.{HoldsEdges};
ghost use Rattle.rd_plane.specs.Improving.{Improves};
ghost use Rattle.rd_plane.specs.Order.{IsLeast};
ghost use Rattle.rd_plane.specs.Plane.{Segment};
ghost use Rattle.chain_cancel.specs.Nodes.{AreAllBut, AreNear, IsEndIn, IsEndInside, IsIn, IsUnnoded, node_cmp, turned_if};

use rd_plane::{Bounds, Edge, Pt, box_of_edge, box_of_edges, strictly_inside};
use std::cmp::Ordering;

// More would make the boxes wide, fewer would make them many.
const STRETCH: usize = 64;

// Whether v and e come before w and f: by the vertex, then by the edge.
fn comes_before(v: Pt, e: Edge, w: Pt, f: Edge) -> bool
    ensures { IsTrue result ↔ (node_cmp (v, e) (w, f) ≡ Less) }
{
    v.cmp(&w).then(e.cmp(&f)) == Ordering::Less
}

// The first of the two in their order.
fn lesser(v: Pt, e: Edge, w: Pt, f: Edge) -> (Pt, Edge)
    ensures { ((result ≡ (v, e)) × (node_cmp (v, e) (w, f) ≡ Less)) ⊎ ((result ≡ (w, f)) × (node_cmp (v, e) (w, f) ≢ Less)) }
{
    if comes_before(v, e, w, f) {
        return (v, e);
    }
    (w, f)
}

// The lesser of what was found so far and of v in e, where it lies strictly inside.
fn tried(best: Option<(Pt, Edge)>, v: Pt, e: Edge) -> Option<(Pt, Edge)>
    ensures { Improves node_cmp (IsIn v e) best result }
{
    if !strictly_inside(v, e) {
        return best;
    }
    let Some(found) = best else {
        return Some((v, e));
    };
    Some(lesser(found.0, found.1, v, e))
}

// The same of each end of these edges.
fn tried_ends(best: Option<(Pt, Edge)>, ends: &[Edge], e: Edge) -> Option<(Pt, Edge)>
    ensures { Improves node_cmp (IsEndIn ends.now e) best result }
{
    let mut least = best;
    for own in ends {
        least = tried(least, own.a, e);
        least = tried(least, own.b, e);
    }
    least
}

// The same, by a box of these edges.
fn tried_near(
    best: Option<(Pt, Edge)>,
    ends: &[Edge],
    bounds: &Bounds,
    e: Edge,
) -> Option<(Pt, Edge)>
    requires { HoldsEdges bounds.now ends.now }
    ensures { Improves node_cmp (IsEndIn ends.now e) best result }
{
    if !box_of_edge(e).meets(bounds) {
        return best;
    }
    tried_ends(best, ends, e)
}

// The edge, run the other way where that is asked for.
fn turned_edge(e: Edge, turned: bool) -> Edge
    ensures { result ≡ turned_if turned e }
{
    if turned {
        return e.reversed();
    }
    e
}

// The same of all of these edges, each run the other way where that is asked for.
fn tried_stretch(
    best: Option<(Pt, Edge)>,
    ends: &[Edge],
    edges: &[Edge],
    turned: bool,
) -> Option<(Pt, Edge)>
    ensures { Improves node_cmp (IsEndInside ends.now edges.now turned) best result }
{
    let Some(bounds) = box_of_edges(ends) else {
        return best;
    };
    let mut least = best;
    for e in edges {
        least = tried_near(least, ends, &bounds, turned_edge(*e, turned));
    }
    least
}

// Where the stretch from this place ends: at most at the end of the list.
fn end_of_stretch(edges: &[Edge], from: usize) -> usize
    requires { from < length edges.now }
    ensures further { from < result }
    ensures inside { result ≤ length edges.now }
{
    if edges.len() - from <= STRETCH {
        edges.len()
    } else {
        from + STRETCH
    }
}

// The same, stretch by stretch.
fn tried_all(
    best: Option<(Pt, Edge)>,
    ends: &[Edge],
    edges: &[Edge],
    turned: bool,
) -> Option<(Pt, Edge)>
    ensures { Improves node_cmp (IsEndInside ends.now edges.now turned) best result }
{
    let mut least = best;
    let mut from = 0;
    while from < ends.len() {
        let to = end_of_stretch(ends, from);
        least = tried_stretch(least, &ends[from..to], edges, turned);
        from = to;
    }
    least
}

/// The least end of a border edge that lies strictly inside a border edge, and the least such edge. `None` exactly where
/// vertices are shared. The area's edges are given unreversed. Takes no memory.
///
/// For n border edges n / 64 boxes, each compared with n edges, and 128 trials for each edge and each box that meet.
pub fn unnoded(area: &[Edge], parts: &[Edge]) -> Option<(Pt, Edge)>
    ensures { MatchOption result (IsNoded (border_of area.now parts.now)) (IsLeast node_cmp (IsUnnoded (border_of area.now parts.now))) }
{
    let of_parts = tried_all(None, parts, parts, false);
    let in_area = tried_all(of_parts, parts, area, true);
    let of_area = tried_all(in_area, area, parts, false);
    tried_all(of_area, area, area, true)
}

/// The same, where the border edges but the added ones share their vertices, as those of a map before a change do. Only
/// an end of an added edge, or one that lies inside an added edge, is looked for. The added edges are given as they run.
///
/// For n border edges and m added ones m / 64 boxes, each compared with n edges, and n / 64 boxes, each compared with m.
pub fn unnoded_with(area: &[Edge], parts: &[Edge], added: &[Edge]) -> Option<(Pt, Edge)>
    requires { AreAllBut (border_of area.now parts.now) added.now }
    ensures { MatchOption result (IsNoded (border_of area.now parts.now)) (IsLeast node_cmp (IsUnnoded (border_of area.now parts.now))) }
{
    let in_parts = tried_all(None, added, parts, false);
    let in_area = tried_all(in_parts, added, area, true);
    let of_parts = tried_all(in_area, parts, added, false);
    tried_all(of_parts, area, added, false)
}

/// The same, where the edges near the added ones are at hand: those of them that have a point in common with an added one
/// are enough. Both lists are given as they run. It finds the least of the whole border.
pub fn unnoded_near(near: &[Edge], added: &[Edge]) -> Option<(Pt, Edge)>
    ensures { (edges : List Segment) → AreAllBut edges added.now → AreNear edges near.now added.now → MatchOption result (IsNoded edges) (IsLeast node_cmp (IsUnnoded edges)) }
{
    let of_added = tried_all(None, added, near, false);
    tried_all(of_added, near, added, false)
}
