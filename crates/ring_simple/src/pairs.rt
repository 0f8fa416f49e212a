//! The first two edges that meet badly: in a point that is not the shared end of an edge and the next, or of the last
//! and the first.
//!
//! An edge whose box has no point in common with that of a stretch meets no edge of it. So most edges cost a dozen
//! comparisons for each stretch of edges before them. The others are held by their box against each edge of it, and most
//! of those lie beyond one side of that box. An edge and the next are told apart by one turn at most.

ghost use Rattle.std.specs.Prelude.{◌≡◌, ℕ, pos, ◌↔◌, ◌+◌, ◌⊎◌, ◌≤◌, ◌<◌, ◌<ℤ◌, length, slice_index_or, IsTrue, MatchOption};
ghost use Rattle.rd_plane.specs.Bounds.{LiesInBox};
ghost use Rattle.rd_plane.specs.EdgeBoxes.{HoldsEdge};
ghost use Rattle.rd_plane.specs.Plane.{Point, is_at, on, point_of, side};
ghost use Rattle.rd_plane.specs.Shapes.{HasCorners, ring_edges};
ghost use Rattle.ring_simple.specs.Faults.{IsPairBefore, MeetsBadly};
ghost use Rattle.ring_simple.specs.Stretches.{HoldsStretch, MeetsSomeOf, SomeMeetBadly};

use crate::stretch::{box_of_edges, end_of_stretch};
use rd_plane::{Bounds, Edge, Meet, Pt, Turn, box_of_edge, edge_at, meet_of, orient};

// Whether the edges at i and j of n, i before j, are an edge and the next, or the first and the last.
fn in_turn(i: usize, j: usize, n: usize) -> bool
    requires { (i < j) × (j < n) }
    ensures { IsTrue result ↔ ((j ≡ i + 1) ⊎ ((i ≡ 0) × (j + 1 ≡ n))) }
{
    j == i + 1 || (i == 0 && j + 1 == n)
}

// Whether n lies between m and k, and is neither.
fn is_between(m: i64, n: i64, k: i64) -> bool
    ensures { IsTrue result → ((m <ℤ n) × (n <ℤ k)) ⊎ ((k <ℤ n) × (n <ℤ m)) }
{
    if m < n {
        return n < k;
    }
    k < n && n < m
}

// Whether v is on the straight line of the edge.
fn is_in_line(e: Edge, v: Pt) -> bool
    ensures { IsTrue result ↔ (side (point_of v) e ≡ pos 0) }
{
    orient(e.a, e.b, v) == Turn::Straight
}

// Whether f, which goes on where e ends, has no other point of e. Mostly one coordinate tells it, and else the turn.
fn goes_off(e: Edge, f: Edge) -> bool
    requires { e.b ≡ f.a }
    ensures { IsTrue result → (p : Point) → IsTrue (on p e) → IsTrue (on p f) → IsTrue (is_at p e.b) }
{
    if is_between(e.a.x, e.b.x, f.b.x) {
        return true;
    }
    if is_between(e.a.y, e.b.y, f.b.y) {
        return true;
    }
    !is_in_line(e, f.b)
}

// Whether the edges e and f, which are those at i and j, share an end and go off from it. `false` says nothing.
fn go_off(points: &[Pt], i: usize, e: Edge, j: usize, f: Edge) -> bool
    requires corners { HasCorners points.now }
    requires first { e ≡ slice_index_or (ring_edges points.now) i e }
    requires second { f ≡ slice_index_or (ring_edges points.now) j f }
    requires before { i < j }
    requires inside { j < length points.now }
    ensures { IsTrue result → MeetsBadly points.now i j → ⊥ }
{
    if j == i + 1 {
        return goes_off(e, f);
    }
    if i == 0 && j + 1 == points.len() {
        return goes_off(f, e);
    }
    false
}

/// Whether the edges e and f, which are those at i and j, meet badly.
pub fn meets_badly(points: &[Pt], i: usize, e: Edge, j: usize, f: Edge) -> bool
    requires corners { HasCorners points.now }
    requires first { e ≡ slice_index_or (ring_edges points.now) i e }
    requires second { f ≡ slice_index_or (ring_edges points.now) j f }
    requires before { i < j }
    requires inside { j < length points.now }
    ensures { IsTrue result ↔ MeetsBadly points.now i j }
{
    if go_off(points, i, e, j, f) {
        return false;
    }
    let turn = in_turn(i, j, points.len());
    match meet_of(e, f) {
        Meet::Apart => false,
        Meet::Ends => !turn,
        Meet::Touch => true,
        Meet::Cross => true,
        Meet::Along => true,
    }
}

// Whether both numbers are below the third.
fn are_below(m: i64, k: i64, low: i64) -> bool
    ensures { IsTrue result → (m <ℤ low) × (k <ℤ low) }
{
    m < low && k < low
}

// Whether both numbers are above the third.
fn are_above(m: i64, k: i64, high: i64) -> bool
    ensures { IsTrue result → (high <ℤ m) × (high <ℤ k) }
{
    high < m && high < k
}

// Whether the edge from a to b lies beyond one side of the box, so that no point of it is in the box.
fn lies_beyond(a: Pt, b: Pt, bounds: &Bounds) -> bool
    ensures { IsTrue result → (p : Point) → IsTrue (on p (record { a = a; b = b })) → LiesInBox bounds.now p → ⊥ }
{
    if are_below(a.x, b.x, bounds.low.x) {
        return true;
    }
    if are_above(a.x, b.x, bounds.high.x) {
        return true;
    }
    if are_below(a.y, b.y, bounds.low.y) {
        return true;
    }
    are_above(a.y, b.y, bounds.high.y)
}

// Whether the edge at i and the later edge f, which is the one at j and has this box, meet badly.
fn meets_badly_near(points: &[Pt], i: usize, j: usize, f: Edge, own: &Bounds) -> bool
    requires corners { HasCorners points.now }
    requires edge { f ≡ slice_index_or (ring_edges points.now) j f }
    requires own { HoldsEdge own.now f }
    requires before { i < j }
    requires inside { j < length points.now }
    ensures { IsTrue result ↔ MeetsBadly points.now i j }
{
    if lies_beyond(points[i], points[i + 1], own) {
        return false;
    }
    meets_badly(points, i, edge_at(points, i), j, f)
}

// Whether the edge f, which is the one at j and has this box, meets badly an earlier edge from `from` up to `to`.
fn meets_some(points: &[Pt], from: usize, to: usize, j: usize, f: Edge, own: &Bounds) -> bool
    requires corners { HasCorners points.now }
    requires edge { f ≡ slice_index_or (ring_edges points.now) j f }
    requires own { HoldsEdge own.now f }
    requires inside { j < length points.now }
    ensures { IsTrue result ↔ MeetsSomeOf points.now from to j }
{
    for i in from..to.min(j) {
        if meets_badly_near(points, i, j, f, own) {
            return true;
        }
    }
    false
}

// The same of the edge at j. Where its box lies apart from that of the edges, none of them is looked at.
fn meets_some_near(points: &[Pt], from: usize, to: usize, j: usize, bounds: &Bounds) -> bool
    requires corners { HasCorners points.now }
    requires bounds { HoldsStretch bounds.now points.now from to }
    requires inside { j < length points.now }
    ensures { IsTrue result ↔ MeetsSomeOf points.now from to j }
{
    let f = edge_at(points, j);
    let own = box_of_edge(f);
    if !own.meets(bounds) {
        return false;
    }
    meets_some(points, from, to, j, f, &own)
}

// Whether the edge at j meets an earlier one badly. The one before it ends where it begins, so its box tells nothing.
fn meets_earlier(points: &[Pt], j: usize) -> bool
    requires corners { HasCorners points.now }
    requires later { 0 < j }
    requires inside { j < length points.now }
    ensures { IsTrue result ↔ MeetsSomeOf points.now 0 (length points.now) j }
{
    let f = edge_at(points, j);
    if meets_badly(points, j - 1, edge_at(points, j - 1), j, f) {
        return true;
    }
    meets_some(points, 0, j - 1, j, f, &box_of_edge(f))
}

// Whether some two edges meet badly. Each is compared with those before it, since no edge lies apart from a short ring.
fn some_two_meet_badly(points: &[Pt]) -> bool
    requires { HasCorners points.now }
    ensures { IsTrue result ↔ SomeMeetBadly points.now 0 (length points.now) }
{
    for j in 1..points.len() {
        if meets_earlier(points, j) {
            return true;
        }
    }
    false
}

// Whether some edge from `from` up to `to` and a later one meet badly.
fn some_meet_badly(points: &[Pt], from: usize, to: usize) -> bool
    requires corners { HasCorners points.now }
    requires some { from < to }
    requires inside { to ≤ length points.now }
    ensures { IsTrue result ↔ SomeMeetBadly points.now from to }
{
    if from == 0 && to == points.len() {
        return some_two_meet_badly(points);
    }
    let bounds = box_of_edges(points, from, to);
    for j in from + 1..points.len() {
        if meets_some_near(points, from, to, j, &bounds) {
            return true;
        }
    }
    false
}

// The first edge behind the one at i that meets it badly.
fn bad_partner(points: &[Pt], i: usize) -> Option<usize>
    requires corners { HasCorners points.now }
    requires inside { i < length points.now }
    ensures { MatchOption result ((j : ℕ) → MeetsBadly points.now i j → ⊥) (λ j. (j < length points.now) × MeetsBadly points.now i j × ((k : ℕ) → k < j → MeetsBadly points.now i k → ⊥)) }
{
    let e = edge_at(points, i);
    for j in i + 1..points.len() {
        if meets_badly(points, i, e, j, edge_at(points, j)) {
            return Some(j);
        }
    }
    None
}

// The least pair of edges that meet badly, the first of them from `from` up to `to`.
fn bad_pair_in(points: &[Pt], from: usize, to: usize) -> Option<(usize, usize)>
    requires corners { HasCorners points.now }
    requires some { from < to }
    requires inside { to ≤ length points.now }
    ensures { MatchOption result ((i j : ℕ) → from ≤ i → i < to → MeetsBadly points.now i j → ⊥) (λ pair. (pair.0 < length points.now) × (pair.1 < length points.now) × MeetsBadly points.now pair.0 pair.1 × ((k l : ℕ) → from ≤ k → IsPairBefore k l pair.0 pair.1 → MeetsBadly points.now k l → ⊥)) }
{
    if !some_meet_badly(points, from, to) {
        return None;
    }
    for i in from..to {
        if let Some(j) = bad_partner(points, i) {
            return Some((i, j));
        }
    }
    None
}

/// The least pair of edges that meet badly.
pub fn bad_pair(points: &[Pt]) -> Option<(usize, usize)>
    requires corners { HasCorners points.now }
    ensures { MatchOption result ((i j : ℕ) → MeetsBadly points.now i j → ⊥) (λ pair. (pair.0 < length points.now) × (pair.1 < length points.now) × MeetsBadly points.now pair.0 pair.1 × ((k l : ℕ) → IsPairBefore k l pair.0 pair.1 → MeetsBadly points.now k l → ⊥)) }
{
    let mut from = 0;
    while from < points.len() {
        let to = end_of_stretch(points, from);
        if let Some(pair) = bad_pair_in(points, from, to) {
            return Some(pair);
        }
        from = to;
    }
    None
}
