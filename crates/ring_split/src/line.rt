//! The choice of a line that parts a list of edges well. Nothing hangs on it but time.

ghost use Rattle.std.specs.Prelude.{◌≡◌, ◌≤◌, ◌<◌, length};
ghost use Rattle.std.specs.List.{Contains};
ghost use Rattle.rd_plane.specs.Shapes.{HasCorners};
ghost use Rattle.ring_split.specs.Parts.{AreInside};

use crate::parted::lies_right_of;
use rd_plane::{Edge, Pt, X_HIGH, X_LOW, Y_HIGH, Y_LOW, edge_at};

// How many edges of a list are looked at to judge a line.
const SAMPLES: usize = 32;

// How many edges of a list give lines that are judged.
const LINES: usize = 5;

// The place at k / of of the list.
fn sampled(places: &[usize], k: usize, of: usize) -> usize
    requires part { k < of }
    requires some { of ≤ length places.now }
    ensures { Contains places.now result }
{
    let step = places.len() / of;
    places[step * k]
}

// The upright line through a corner.
fn upright(p: Pt) -> Edge {
    Edge {
        a: Pt { x: p.x, y: Y_LOW },
        b: Pt { x: p.x, y: Y_HIGH },
    }
}

// The level line through a corner.
fn level(p: Pt) -> Edge {
    Edge {
        a: Pt { x: X_LOW, y: p.y },
        b: Pt { x: X_HIGH, y: p.y },
    }
}

// How badly the line parts the list, by a sample: how many edges stand on each side, those of the fuller one thrice.
fn badness(points: &[Pt], places: &[usize], line: Edge) -> usize
    requires corners { HasCorners points.now }
    requires places { AreInside points.now places.now }
    requires some { SAMPLES ≤ length places.now }
{
    let mut left = 0;
    let mut right = 0;
    for k in 0..SAMPLES {
        let e = edge_at(points, sampled(places, k, SAMPLES));
        if !lies_right_of(e, line) {
            left += 1;
        }
        if !lies_right_of(e, line.reversed()) {
            right += 1;
        }
    }
    left + right + 2 * left.max(right)
}

/// A line that parts the list well, of a few: those along some edges, and upright and level ones.
pub fn parting_line(points: &[Pt], places: &[usize]) -> Edge
    requires corners { HasCorners points.now }
    requires places { AreInside points.now places.now }
    requires some { SAMPLES ≤ length places.now }
{
    let mut best = edge_at(points, places[0]);
    let mut least = badness(points, places, best);
    for k in 0..LINES {
        let e = edge_at(points, sampled(places, k, LINES));
        for line in [e, upright(e.a), level(e.a)] {
            let bad = badness(points, places, line);
            if bad < least {
                least = bad;
                best = line;
            }
        }
    }
    best
}
