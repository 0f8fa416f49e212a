//! Is every point off the edges wound 0 or 1 times, or 0 times? If not, where is one that is not?
//!
//! Idea: between two neighbouring heights of corners no edge begins or ends and none cross, so the edges that run through
//! this slab have one order from west to east, and between two neighbours the winding number is the same all over: what
//! the edges east of there add up to. One look at half height in each gap decides it.
//! Slabs, from the lowest up: edges that end at the lower height leave the row, those that begin there come in.
//! Cost: for n edges, of which at most k run through one slab, and s heights of corners: sorts of 2n heights and of the n
//! edges, and one walk over at most k edges for each of the s slabs; for each edge log k comparisons, and those east of it
//! are moved by one.
//! After the sweep of Shamos and Hoey (Geometric intersection problems, 1976), with whole slabs and a list in place of a
//! tree; it sums winding numbers and looks for no crossing.

ghost use Rattle.std.specs.Prelude.{false, pos, IfOk, MatchOption};
ghost use Rattle.rd_plane.specs.Frac.{StandsFor};
ghost use Rattle.rd_plane.specs.Jump.{EndsBalance};
ghost use Rattle.rd_plane.specs.Plane.{Point};
ghost use Rattle.rd_plane.specs.Shapes.{WindsBy};
ghost use Rattle.slab_wind.specs.Rows.{IsLowestWrong, most};
ghost use Rattle.slab_wind.specs.Slabs.{RiseByBottom};
ghost use Rattle.slab_wind.specs.Wounds.{IsWoundWrongly, MeetInEnds, NoneCross};

use crate::gap::wrong_gap;
use crate::heights::{by_bottom, half_above, heights_of};
use crate::row::climb;
use rd_plane::{Edge, FracPt, NoMemory};
use std::alloc::Global;

// The middle of the leftmost stretch that is wound wrongly, at the lowest height that has one, where no two of the
// edges cross. The edges are in rising order of their lower ends.
fn sweep(alloc: Global, rising: &[Edge], once: bool) -> Result<Option<FracPt>, NoMemory>
    requires joined { NoneCross rising.now }
    requires balanced { EndsBalance rising.now }
    requires order { RiseByBottom rising.now }
    ensures { IfOk result (λ found. MatchOption found (WindsBy (most once) rising.now) (IsLowestWrong once rising.now)) }
{
    let heights = heights_of(alloc, rising)?;
    let Some((first, behind)) = heights.as_slice().split_first() else {
        return Ok(None);
    };
    let mut row = Vec::new(alloc);
    let mut next = 0;
    let mut low = *first;
    for high in behind {
        next = climb(&mut row, rising, next, low)?;
        if let Some(at) = wrong_gap(row.as_slice(), half_above(low), once) {
            return Ok(Some(at));
        }
        low = *high;
    }
    Ok(None)
}

// The same, of edges in any order.
pub fn lowest_wrong(alloc: Global, edges: &[Edge], once: bool) -> Result<Option<FracPt>, NoMemory>
    requires joined { NoneCross edges.now }
    requires balanced { EndsBalance edges.now }
    ensures { IfOk result (λ found. MatchOption found (WindsBy (most once) edges.now) (IsLowestWrong once edges.now)) }
{
    let rising = by_bottom(alloc, edges)?;
    sweep(alloc, rising.as_slice(), once)
}

/// A point off the edges that is wound neither 0 nor 1 times. `None` exactly where there is no such point. Asks that
/// any two edges have only ends of both in common, and that each corner is as often a first as a second end.
pub fn off_zero_one(alloc: Global, edges: &[Edge]) -> Result<Option<FracPt>, NoMemory>
    requires joined { MeetInEnds edges.now }
    requires balanced { EndsBalance edges.now }
    ensures { IfOk result (λ found. MatchOption found (WindsBy (pos 1) edges.now) (λ at. (p : Point) × StandsFor at p × IsWoundWrongly edges.now p)) }
{
    lowest_wrong(alloc, edges, true)
}

/// The middle of the leftmost stretch whose points are wound, at the lowest height half a millimetre above a corner at
/// which points are wound. `None` exactly where no point off the edges is wound. Asks that no two edges cross, and that
/// each corner is as often a first as a second end; edges may run upon one another. It costs what `off_zero_one` does.
pub fn first_wound(alloc: Global, edges: &[Edge]) -> Result<Option<FracPt>, NoMemory>
    requires joined { NoneCross edges.now }
    requires balanced { EndsBalance edges.now }
    ensures { IfOk result (λ found. MatchOption found (WindsBy (pos 0) edges.now) (IsLowestWrong false edges.now)) }
{
    lowest_wrong(alloc, edges, false)
}
