//! The whole map that a message would leave its holder, for a look at why it is not tiled.

ghost use Rattle.std.specs.Prelude.{◌≡◌, ◌++◌, ◌∷◌, [], IfOk, OnOk};
ghost use Rattle.std.specs.List.{All};
ghost use Rattle.part_shape.specs.Counted.{AreCounted};
ghost use Rattle.message_text.specs.Reading.{area_shapes};
ghost use Rattle.message_text.specs.Texts.{rings_of};
ghost use Rattle.local_check.specs.Maps.{changed, ground_of};
ghost use Rattle.map_rules.specs.Changes.{change_of, coming_by, part};
ghost use Rattle.map_core.specs.Maps.{now_in};

use crate::maps::HolderMaps;
use crate::soundness::push_leaving;
use imgeo_types::{Holder, Ident, Idents, Item};
use local_check::{Change, MapIndex, Part, Parts};
use message_text::{Message, Mutation};
use part_shape::{Shape, ShapeList};
use rd_plane::{NoMemory, Shapes};
use std::alloc::Global;

// Adds the object of this identification. Its shape is sound, so that only memory can be wanting.
fn push_part(alloc: Global, coming: &mut Parts, ident: Ident, item: &Item) -> Result<(), NoMemory>
    requires { AreCounted item.now.rings }
    ensures { OnOk result (coming.new ≡ coming.old ++ part ident item.now ∷ []) }
{
    let Ok(shape) = Shape::check(alloc, &item.rings) else {
        return Err(NoMemory);
    };
    coming.push(Part {
        ident,
        kind: item.kind,
        level: item.level,
        shape,
    })
}

// Adds the object that the mutation brings.
fn push_coming(alloc: Global, coming: &mut Parts, mutation: &Mutation) -> Result<(), NoMemory>
    requires { AreCounted (rings_of mutation.now) }
    ensures { OnOk result (coming.new ≡ coming.old ++ coming_by mutation.now) }
{
    match mutation {
        Mutation::Add { ident, item } => push_part(alloc, coming, *ident, item),
        Mutation::Change { ident, item, .. } => push_part(alloc, coming, *ident, item),
        Mutation::End { .. } => Ok(()),
    }
}

// The shapes of these rings. They are sound, so that only memory can be wanting.
fn shapes_of(alloc: Global, shapes: &Shapes) -> Result<ShapeList, NoMemory>
    requires { All AreCounted shapes.now }
    ensures { IfOk result (λ list. list ≡ shapes.now) }
{
    let mut list = ShapeList::new(alloc);
    for rings in shapes.as_slice() {
        let Ok(shape) = Shape::check(alloc, rings) else {
            return Err(NoMemory);
        };
        list.push(shape)?;
    }
    Ok(list)
}

// The shapes of the area block, where there is one.
fn area_in(alloc: Global, message: &Message) -> Result<Option<ShapeList>, NoMemory>
    requires { All AreCounted (area_shapes message.now) }
    ensures { IfOk result (λ area. area ≡ message.now.area) }
{
    let Some(shapes) = &message.area else {
        return Ok(None);
    };
    Ok(Some(shapes_of(alloc, shapes)?))
}

/// What the message changes of its holder's map. Its shapes are sound.
pub fn change_by(alloc: Global, message: &Message) -> Result<Change, NoMemory>
    requires mutations { All (λ mutation. AreCounted (rings_of mutation)) message.now.mutations }
    requires shapes { All AreCounted (area_shapes message.now) }
    ensures { IfOk result (λ change. change ≡ change_of message.now) }
{
    let mut coming = Parts::new(alloc);
    let mut leaving = Idents::new(alloc);
    for mutation in message.mutations.as_slice() {
        push_coming(alloc, &mut coming, mutation)?;
        push_leaving(&mut leaving, mutation)?;
    }
    Ok(Change {
        area: area_in(alloc, message)?,
        leaving,
        coming,
    })
}

/// The area and the ground parts of the holder's map once the change is made.
pub fn map_after(
    alloc: Global,
    maps: &HolderMaps,
    holder: Holder,
    change: &Change,
) -> Result<(ShapeList, ShapeList), NoMemory>
    ensures area { IfOk result (λ map. map.0 ≡ (changed change.now (now_in maps.now holder)).area) }
    ensures parts { IfOk result (λ map. map.1 ≡ ground_of (changed change.now (now_in maps.now holder)).parts) }
{
    match maps.get(&holder) {
        Some(map) => map.map_with(alloc, change),
        None => MapIndex::new(alloc).map_with(alloc, change),
    }
}
