//! The border edges near those that a change puts in.

ghost use Rattle.std.specs.Prelude.{◌≡◌, [], ◌∷◌, ◌++◌, ℕ, true, Contains, List, IfOk, OnOk, unwrap_or};
ghost use Rattle.rd_plane.specs.Covering.{border};
ghost use Rattle.rd_plane.specs.Plane.{Vertex};
ghost use Rattle.chain_cancel.specs.Nodes.{AreNear};
ghost use Rattle.level_rules.specs.declared.item.LevelItem.{LevelItem as Item};
ghost use Rattle.local_check.specs.Kept.{AreBoxed, FindsNear};
ghost use Rattle.local_check.specs.Maps.{IsSetOf, changed, ground_of, is_ground as is_ground_in};
ghost use Rattle.local_check.specs.MapRules.{border_in};
ghost use Rattle.local_check.specs.Placed.{parts_of};
ghost use Rattle.local_check.specs.Nearby.{AddsNear, area_kept, own_at, turned};

use crate::boxes::add_near;
use crate::change::Change;
use crate::edges::{added_edges, edges_of_shapes, is_ground, push_reversed, push_staying};
use crate::map::Map;
use box_index::BoxIndex;
use imgeo_types::Ident;
use level_rules::{LevelItem, set_of};
use part_shape::{Shape, ShapeList};
use rd_plane::{Edges, NoMemory};
use std::alloc::Global;
use std::collections::BTreeSet;

// Adds the places whose boxes meet that of one of the shapes.
fn add_near_shapes(
    alloc: Global,
    near: &mut BTreeSet<u64>,
    boxes: &BoxIndex,
    shapes: &[Shape],
) -> Result<(), NoMemory>
    ensures { OnOk result ((rings : List (List Vertex)) → Contains shapes.now rings → FindsNear boxes.now near.new.keys rings) }
{
    for shape in shapes {
        add_near(alloc, near, boxes, shape)?;
    }
    Ok(())
}

// The places whose boxes meet that of a shape of the new area.
fn near_area(
    alloc: Global,
    boxes: &BoxIndex,
    area: &Option<ShapeList>,
) -> Result<BTreeSet<u64>, NoMemory>
    ensures { IfOk result (λ near. (rings : List (List Vertex)) → Contains (unwrap_or area.now []) rings → FindsNear boxes.now near.keys rings) }
{
    let mut near = BTreeSet::new(alloc);
    let Some(shapes) = area else {
        return Ok(near);
    };
    add_near_shapes(alloc, &mut near, boxes, shapes.as_slice())?;
    Ok(near)
}

// Adds the places whose boxes meet that of one of the ground parts.
fn add_near_ground(
    alloc: Global,
    near: &mut BTreeSet<u64>,
    boxes: &BoxIndex,
    parts: &[LevelItem],
) -> Result<(), NoMemory>
    ensures here { OnOk result ((part : Item) → Contains parts.now part → is_ground_in part ≡ true → FindsNear boxes.now near.new.keys part.shape) }
    ensures kept { OnOk result ((q : ℕ) → Contains near.old.keys q → Contains near.new.keys q) }
{
    for part in parts {
        if !is_ground(part) {
            continue;
        }
        add_near(alloc, near, boxes, &part.shape)?;
    }
    Ok(())
}

// Adds the edges of the object at the place, where it is a ground part that stays.
fn push_place(
    edges: &mut Edges,
    slots: &[Option<LevelItem>],
    place: u64,
    gone: &BTreeSet<Ident>,
) -> Result<(), NoMemory>
    ensures { OnOk result ((leaving : List (List ℕ)) → IsSetOf leaving gone.now → edges.new ≡ edges.old ++ own_at leaving slots.now place) }
{
    let Some(slot) = slots.get(place as usize) else {
        return Ok(());
    };
    push_staying(edges, slot, gone)
}

// Adds the edges of the ground parts at these places that stay.
fn push_places(
    alloc: Global,
    edges: &mut Edges,
    slots: &[Option<LevelItem>],
    near: &BTreeSet<u64>,
    leaving: &[Ident],
) -> Result<(), NoMemory>
    ensures { OnOk result (AddsNear leaving.now slots.now near.now.keys edges.old edges.new) }
{
    let gone = set_of(alloc, leaving)?;
    for place in near {
        push_place(edges, slots, *place, &gone)?;
    }
    Ok(())
}

// Adds the edges of the area that stays, each run the other way. None where a new area comes.
fn push_area_kept(
    alloc: Global,
    edges: &mut Edges,
    map: &Map,
    change: &Change,
) -> Result<(), NoMemory>
    ensures { OnOk result (edges.new ≡ edges.old ++ turned (area_kept change.now.area map.now.area)) }
{
    if change.area.is_some() {
        return Ok(());
    }
    let area = edges_of_shapes(alloc, map.area.as_slice())?;
    push_reversed(edges, area.as_slice())
}

/// Border edges of the changed map, among them each that has a point in common with one that the change puts in: those that it
/// puts in, those of the ground parts that stay and whose boxes meet, and those of the area that stays.
pub(crate) fn near_edges(alloc: Global, map: &Map, change: &Change) -> Result<Edges, NoMemory>
    requires { AreBoxed map.now.parts.boxes map.now.parts.slots.items }
    ensures { IfOk result (λ near. AreNear (border_in (changed change.now (parts_of map.now))) near (border (unwrap_or change.now.area []) (ground_of change.now.coming))) }
{
    let boxes = &map.parts.boxes;
    let mut places = near_area(alloc, boxes, &change.area)?;
    add_near_ground(alloc, &mut places, boxes, change.coming.as_slice())?;
    let mut edges = added_edges(alloc, change)?;
    push_places(
        alloc,
        &mut edges,
        &map.parts.slots,
        &places,
        change.leaving.as_slice(),
    )?;
    push_area_kept(alloc, &mut edges, map, change)?;
    Ok(edges)
}
