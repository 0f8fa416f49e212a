//! The first fault of a ring: a quick test first, and the whole search only where that one leaves it open.

ghost use Rattle.std.specs.Prelude.{◌<◌, ◌^◌, length, IfOk, IsTrue, MatchOption};
ghost use Rattle.rd_plane.specs.Shapes.{HasCorners, MeetsInTurn};
ghost use Rattle.ring_simple.specs.Faults.{IsRingFault};

use crate::clean::parts_clean;
use crate::different::are_different;
use rd_plane::{NoMemory, Pt};
use ring_simple::{RingFault, check_ring};
use std::alloc::Global;

// A ring of no more corners is checked pair by pair at once.
const SHORT: usize = 48;

// Whether this is found to be a simple ring. `false` says nothing.
fn is_found_simple(alloc: Global, points: &[Pt]) -> Result<bool, NoMemory>
    requires { length points.now < 2 ^ 32 }
    ensures { IfOk result (λ found. IsTrue found → HasCorners points.now × MeetsInTurn points.now) }
{
    if points.len() <= SHORT {
        return Ok(false);
    }
    if !are_different(alloc, points)? {
        return Ok(false);
    }
    let clean = parts_clean(alloc, points)?;
    Ok(clean)
}

/// The first fault of the corners as a ring, as `check_ring` names it. `None` where they are a simple ring.
///
/// A simple ring of more than 48 corners costs mostly a sort and n log n turns. Only where lines part it badly, or where
/// it has a fault, do stretches of it come to be compared.
pub fn ring_fault(alloc: Global, points: &[Pt]) -> Result<Option<RingFault>, NoMemory>
    requires { length points.now < 2 ^ 32 }
    ensures { IfOk result (λ found. MatchOption found (HasCorners points.now × MeetsInTurn points.now) (IsRingFault points.now)) }
{
    if is_found_simple(alloc, points)? {
        return Ok(None);
    }
    if let Err(fault) = check_ring(points) {
        return Ok(Some(fault));
    }
    Ok(None)
}
