//! The border of all cells together.

ghost use Rattle.std.specs.Prelude.{◌≡◌, ◌≤◌, ◌++◌, ◌∷◌, [], OnOk, IfOk};
ghost use Rattle.map_maker.specs.Made as made;

use crate::points::{corner, east, north};
use rd_plane::{NoMemory, Pt, Ring};
use std::alloc::Global;

// Adds two corners.
fn push_both(ring: &mut Ring, first: Pt, second: Pt) -> Result<(), NoMemory>
    ensures { OnOk result (ring.new ≡ ring.old ++ first ∷ second ∷ []) }
{
    ring.push(first)?;
    ring.push(second)
}

fn push_along_south(ring: &mut Ring, n: u32) -> Result<(), NoMemory>
    requires { n ≤ 400 }
    ensures { OnOk result (ring.new ≡ ring.old ++ made.along_south n) }
{
    for i in 0..n {
        push_both(ring, corner(i, 0), east(i, 0))?;
    }
    Ok(())
}

fn push_along_east(ring: &mut Ring, n: u32) -> Result<(), NoMemory>
    requires { n ≤ 400 }
    ensures { OnOk result (ring.new ≡ ring.old ++ made.along_east n) }
{
    for j in 0..n {
        push_both(ring, corner(n, j), north(n, j))?;
    }
    Ok(())
}

fn push_along_north(ring: &mut Ring, n: u32) -> Result<(), NoMemory>
    requires { n ≤ 400 }
    ensures { OnOk result (ring.new ≡ ring.old ++ made.along_north n) }
{
    for i in (0..n).rev() {
        push_both(ring, corner(i + 1, n), east(i, n))?;
    }
    Ok(())
}

fn push_along_west(ring: &mut Ring, n: u32) -> Result<(), NoMemory>
    requires { n ≤ 400 }
    ensures { OnOk result (ring.new ≡ ring.old ++ made.along_west n) }
{
    for j in (0..n).rev() {
        push_both(ring, corner(0, j + 1), north(0, j))?;
    }
    Ok(())
}

/// The border of n by n cells.
pub(crate) fn outline(alloc: Global, n: u32) -> Result<Ring, NoMemory>
    requires { n ≤ 400 }
    ensures { IfOk result (λ ring. ring ≡ made.outline n) }
{
    let mut ring = Ring::with_capacity(alloc, 8 * n as usize)?;
    push_along_south(&mut ring, n)?;
    push_along_east(&mut ring, n)?;
    push_along_north(&mut ring, n)?;
    push_along_west(&mut ring, n)?;
    Ok(ring)
}
