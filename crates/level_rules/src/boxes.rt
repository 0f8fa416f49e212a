//! The boxes of those objects that the rule speaks of, each under its place. An object that it does not speak of costs one
//! look.

ghost use Rattle.std.specs.Prelude.{◌+◌, ◌<◌, ◌↔◌, IfOk, IsTrue, OnOk, length, slice_index_or};
ghost use Rattle.std.specs.List.{Any};
ghost use Rattle.level_rules.specs.declared.item.LevelItem.{LevelItem as Item};
ghost use Rattle.level_rules.specs.Levels.{HasBoxes, IsLevelled};

use crate::item::LevelItem;
use box_index::BoxIndex;
use rd_plane::NoMemory;
use std::alloc::Global;

/// Whether the rule speaks of one of the objects.
pub fn some_levelled(items: &[LevelItem]) -> bool
    ensures { IsTrue result ↔ Any IsLevelled items.now }
{
    items.iter().any(|item| item.is_levelled())
}

// Puts the box of the object at i under its place. The rule speaks of it.
pub(crate) fn put_box(index: &mut BoxIndex, items: &[LevelItem], i: usize) -> Result<(), NoMemory>
    requires inside { i < length items.now }
    requires levelled { (d : Item) → IsLevelled (slice_index_or items.now i d) }
    requires before { HasBoxes items.now index.old i }
    ensures { OnOk result (HasBoxes items.now index.new (i + 1)) }
{
    let Ok(()) = index.insert(i as u64, items[i].shape.bounds()) else {
        return Err(NoMemory);
    };
    Ok(())
}

/// The boxes of the objects that the rule speaks of, each under its place.
pub fn boxes_of(alloc: Global, items: &[LevelItem]) -> Result<BoxIndex, NoMemory>
    ensures { IfOk result (λ index. HasBoxes items.now index (length items.now)) }
{
    let mut index = BoxIndex::new(alloc);
    for i in 0..items.len() {
        if !items[i].is_levelled() {
            continue;
        }
        put_box(&mut index, items, i)?;
    }
    Ok(index)
}
