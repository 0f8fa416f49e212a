//! The whole map that a change makes, with shapes of its own.

ghost use Rattle.std.specs.Prelude.{◌≡◌, [], ◌∷◌, ◌++◌, ℕ, List, IfOk, OnOk};
ghost use Rattle.local_check.specs.Maps.{IsSetOf, changed, ground_of, staying};
ghost use Rattle.local_check.specs.Placed.{parts_of, present};

use crate::change::Change;
use crate::edges::is_ground;
use crate::map::{Map, copy_shapes, stays};
use imgeo_types::Ident;
use level_rules::{LevelItem, set_of};
use part_shape::ShapeList;
use rd_plane::NoMemory;
use std::alloc::Global;
use std::collections::BTreeSet;

// Adds a copy of the part's shape, where it is a part of the ground.
fn add_ground(alloc: Global, shapes: &mut ShapeList, part: &LevelItem) -> Result<(), NoMemory>
    ensures { OnOk result (shapes.new ≡ shapes.old ++ ground_of (part.now ∷ [])) }
{
    if is_ground(part) {
        shapes.push(part.shape.copy(alloc)?)?;
    }
    Ok(())
}

// The same of the object at a place, where there is one that stays.
fn add_staying(
    alloc: Global,
    shapes: &mut ShapeList,
    slot: &Option<LevelItem>,
    gone: &BTreeSet<Ident>,
) -> Result<(), NoMemory>
    ensures { OnOk result ((leaving : List (List ℕ)) → IsSetOf leaving gone.now → shapes.new ≡ shapes.old ++ ground_of (staying leaving (present (slot.now ∷ [])))) }
{
    let Some(part) = slot else {
        return Ok(());
    };
    if !stays(part, gone) {
        return Ok(());
    }
    add_ground(alloc, shapes, part)
}

// The shapes of the ground parts that stay.
fn staying_ground(
    alloc: Global,
    slots: &[Option<LevelItem>],
    leaving: &[Ident],
) -> Result<ShapeList, NoMemory>
    ensures { IfOk result (λ shapes. shapes ≡ ground_of (staying leaving.now (present slots.now))) }
{
    let gone = set_of(alloc, leaving)?;
    let mut shapes = ShapeList::new(alloc);
    for slot in slots {
        add_staying(alloc, &mut shapes, slot, &gone)?;
    }
    Ok(shapes)
}

/// The shapes of the ground parts of the changed map: of those that stay, and of those that come.
pub(crate) fn ground_after(alloc: Global, map: &Map, change: &Change) -> Result<ShapeList, NoMemory>
    ensures { IfOk result (λ shapes. shapes ≡ ground_of (changed change.now (parts_of map.now)).parts) }
{
    let mut shapes = staying_ground(alloc, &map.parts.slots, change.leaving.as_slice())?;
    for part in change.coming.as_slice() {
        add_ground(alloc, &mut shapes, part)?;
    }
    Ok(shapes)
}

/// The shapes of the area of the changed map.
pub(crate) fn area_of_changed(
    alloc: Global,
    map: &Map,
    change: &Change,
) -> Result<ShapeList, NoMemory>
    ensures { IfOk result (λ shapes. shapes ≡ (changed change.now (parts_of map.now)).area) }
{
    let Some(shapes) = &change.area else {
        return copy_shapes(alloc, map.area.as_slice());
    };
    copy_shapes(alloc, shapes.as_slice())
}
