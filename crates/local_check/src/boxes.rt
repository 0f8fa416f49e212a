//! The boxes of objects, each under the place of its object, and the places near a shape.
//!
//! A place at which no object stands yet may have the box of one that was refused; it is overwritten when the place is
//! given again.

ghost use Rattle.std.specs.Prelude.{◌≡◌, ◌≢◌, ◌+◌, ◌<◌, ◌^◌, ℕ, Contains, IfOk, OnOk, length};
ghost use Rattle.std.specs.FinMap as map;
ghost use Rattle.level_rules.specs.declared.item.LevelItem.{LevelItem as Item};
ghost use Rattle.level_rules.specs.Levels.{IsLevelled};
ghost use Rattle.local_check.specs.Kept.{AreBoxedFrom, FindsNear, HasBox};

use box_index::BoxIndex;
use level_rules::LevelItem;
use part_shape::Shape;
use rd_plane::NoMemory;
use std::alloc::Global;
use std::collections::BTreeSet;

/// Takes the box of the place out, where there is one. Takes no memory.
pub(crate) fn drop_box(boxes: &mut BoxIndex, place: usize)
    ensures { (q : ℕ) → q ≢ place → map.get boxes.new q ≡ map.get boxes.old q }
{
    let Ok(()) = boxes.remove(place as u64) else {
        return;
    };
}

// Keeps the box of the object under the place.
fn put_box(boxes: &mut BoxIndex, place: usize, part: &LevelItem) -> Result<(), NoMemory>
    ensures here { OnOk result (HasBox boxes.new place part.now) }
    ensures others { (q : ℕ) → q ≢ place → map.get boxes.new q ≡ map.get boxes.old q }
{
    drop_box(boxes, place);
    let Ok(()) = boxes.insert(place as u64, part.shape.bounds()) else {
        return Err(NoMemory);
    };
    Ok(())
}

/// Keeps the boxes of the objects under successive places, from this one on. After an `Err` some of them may be kept.
pub(crate) fn put_boxes(
    boxes: &mut BoxIndex,
    from: usize,
    parts: &[LevelItem],
) -> Result<(), NoMemory>
    requires { from + length parts.now < 2 ^ 64 }
    ensures here { OnOk result (AreBoxedFrom boxes.new from parts.now) }
    ensures before { (q : ℕ) → q < from → map.get boxes.new q ≡ map.get boxes.old q }
{
    for (i, part) in parts.iter().enumerate() {
        put_box(boxes, from + i, part)?;
    }
    Ok(())
}

// Adds the place.
fn add_place(near: &mut BTreeSet<u64>, place: u64) -> Result<(), NoMemory>
    ensures here { OnOk result (Contains near.new.keys place) }
    ensures kept { OnOk result ((q : ℕ) → Contains near.old.keys q → Contains near.new.keys q) }
{
    let Ok(_) = near.insert(place) else {
        return Err(NoMemory);
    };
    Ok(())
}

// Adds the places of the list.
fn add_places(near: &mut BTreeSet<u64>, places: &[u64]) -> Result<(), NoMemory>
    ensures here { OnOk result ((q : ℕ) → Contains places.now q → Contains near.new.keys q) }
    ensures kept { OnOk result ((q : ℕ) → Contains near.old.keys q → Contains near.new.keys q) }
{
    for place in places {
        add_place(near, *place)?;
    }
    Ok(())
}

/// Adds the places whose boxes meet that of the shape.
pub(crate) fn add_near(
    alloc: Global,
    near: &mut BTreeSet<u64>,
    boxes: &BoxIndex,
    shape: &Shape,
) -> Result<(), NoMemory>
    ensures here { OnOk result (FindsNear boxes.now near.new.keys shape.now) }
    ensures kept { OnOk result ((q : ℕ) → Contains near.old.keys q → Contains near.new.keys q) }
{
    let places = boxes.meeting(alloc, &shape.bounds())?;
    add_places(near, places.as_slice())
}

/// The places whose boxes meet that of one of the objects that the level rule speaks of.
pub(crate) fn near_levelled(
    alloc: Global,
    boxes: &BoxIndex,
    parts: &[LevelItem],
) -> Result<BTreeSet<u64>, NoMemory>
    ensures { IfOk result (λ near. (part : Item) → Contains parts.now part → IsLevelled part → FindsNear boxes.now near.keys part.shape) }
{
    let mut near = BTreeSet::new(alloc);
    for part in parts {
        if !part.is_levelled() {
            continue;
        }
        add_near(alloc, &mut near, boxes, &part.shape)?;
    }
    Ok(near)
}
