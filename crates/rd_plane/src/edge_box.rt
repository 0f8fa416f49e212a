//! Boxes of edges, as a cheap test in front of the exact ones.

ghost use Rattle.std.specs.Prelude.{◌≡◌, ◌∷◌, [], MatchOption};
ghost use Rattle.rd_plane.specs.Bounds.{IsLeastBox};
ghost use Rattle.rd_plane.specs.EdgeBoxes.{HoldsEdges};

use crate::bounds::Bounds;
use crate::edge::Edge;

/// The least box of an edge.
pub fn box_of_edge(e: Edge) -> Bounds
    ensures { IsLeastBox (e.a ∷ e.b ∷ []) result }
{
    Bounds::of(&[e.a, e.b]).unwrap()
}

/// A box that holds these edges. `None` exactly where there are none. Linear in their number.
pub fn box_of_edges(edges: &[Edge]) -> Option<Bounds>
    ensures { MatchOption result (edges.now ≡ []) (λ bounds. HoldsEdges bounds edges.now) }
{
    let (first, behind) = edges.split_first()?;
    let mut bounds = box_of_edge(*first);
    for e in behind {
        bounds = bounds.join(box_of_edge(*e));
    }
    Some(bounds)
}
