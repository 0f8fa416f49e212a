//! What the messages say of a cell, or of two that are joined.

ghost use Rattle.std.specs.Prelude.{◌≡◌, ◌<◌, IfOk};
ghost use Rattle.map_maker.specs.Made as made;

use crate::fields::{day, greenery};
use crate::points::{push_cell, push_double};
use imgeo_types::{Item, Kind};
use rd_plane::{NoMemory, Ring, Rings};
use std::alloc::Global;

// Greenery of one ring.
fn item_of(alloc: Global, ring: Ring) -> Result<Item, NoMemory>
    ensures { IfOk result (λ item. item ≡ made.item ring) }
{
    let mut rings = Rings::with_capacity(alloc, 1)?;
    rings.push(ring)?;
    Ok(Item {
        kind: Kind::BegroeidTerreindeel,
        level: 0,
        begin: day(),
        functie: None,
        voorkomen: Some(greenery()),
        soort: None,
        pand: None,
        rings: rings.shared(alloc)?,
    })
}

/// One cell.
pub(crate) fn cell_item(alloc: Global, i: u32, j: u32) -> Result<Item, NoMemory>
    requires { (i < 400) × (j < 400) }
    ensures { IfOk result (λ item. item ≡ made.item (made.cell i j)) }
{
    let mut ring = Ring::with_capacity(alloc, 8)?;
    push_cell(&mut ring, i, j)?;
    item_of(alloc, ring)
}

/// The first two cells of a row, joined.
pub(crate) fn double_item(alloc: Global, row: u32) -> Result<Item, NoMemory>
    requires { row < 400 }
    ensures { IfOk result (λ item. item ≡ made.item (made.double row)) }
{
    let mut ring = Ring::with_capacity(alloc, 12)?;
    push_double(&mut ring, row)?;
    item_of(alloc, ring)
}
