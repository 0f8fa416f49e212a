//! Border edges of ground parts and of an area, as they run.

ghost use Rattle.std.specs.Prelude.{◌≡◌, [], ◌∷◌, ◌++◌, ℕ, List, IfOk, OnOk, map, unwrap_or};
ghost use Rattle.rd_plane.specs.Covering.{border};
ghost use Rattle.rd_plane.specs.Plane.{reversed};
ghost use Rattle.rd_plane.specs.Shapes.{all_edges};
ghost use Rattle.local_check.specs.Maps.{IsSetOf, ground_of, is_ground as is_ground_in, staying};
ghost use Rattle.local_check.specs.Placed.{present};

use crate::change::Change;
use crate::map::stays;
use imgeo_types::Ident;
use level_rules::LevelItem;
use part_shape::Shape;
use rd_plane::{Edge, Edges, NoMemory, push_shape};
use std::alloc::Global;
use std::collections::BTreeSet;

/// The edges of the shapes.
pub(crate) fn edges_of_shapes(alloc: Global, shapes: &[Shape]) -> Result<Edges, NoMemory>
    ensures { IfOk result (λ edges. edges ≡ all_edges shapes.now) }
{
    let mut edges = Edges::new(alloc);
    for shape in shapes {
        push_shape(&mut edges, shape.rings())?;
    }
    Ok(edges)
}

/// Whether it is a part of the ground.
pub(crate) fn is_ground(part: &LevelItem) -> bool
    ensures { result ≡ is_ground_in part.now }
{
    part.kind.dividing() && part.level == 0
}

// Adds the edges of the part, where it is a part of the ground.
fn push_ground(edges: &mut Edges, part: &LevelItem) -> Result<(), NoMemory>
    ensures { OnOk result (edges.new ≡ edges.old ++ all_edges (ground_of (part.now ∷ []))) }
{
    if is_ground(part) {
        push_shape(edges, part.shape.rings())?;
    }
    Ok(())
}

// The edges of the ground parts.
fn ground_edges(alloc: Global, parts: &[LevelItem]) -> Result<Edges, NoMemory>
    ensures { IfOk result (λ edges. edges ≡ all_edges (ground_of parts.now)) }
{
    let mut edges = Edges::new(alloc);
    for part in parts {
        push_ground(&mut edges, part)?;
    }
    Ok(edges)
}

/// Adds the edges of the object at a place, where there is one that stays and is a part of the ground.
pub(crate) fn push_staying(
    edges: &mut Edges,
    slot: &Option<LevelItem>,
    gone: &BTreeSet<Ident>,
) -> Result<(), NoMemory>
    ensures { OnOk result ((leaving : List (List ℕ)) → IsSetOf leaving gone.now → edges.new ≡ edges.old ++ all_edges (ground_of (staying leaving (present (slot.now ∷ []))))) }
{
    let Some(part) = slot else {
        return Ok(());
    };
    if !stays(part, gone) {
        return Ok(());
    }
    push_ground(edges, part)
}

/// Adds the edges, each run the other way.
pub(crate) fn push_reversed(edges: &mut Edges, turned: &[Edge]) -> Result<(), NoMemory>
    ensures { OnOk result (edges.new ≡ edges.old ++ map reversed turned.now) }
{
    for edge in turned {
        edges.push(edge.reversed())?;
    }
    Ok(())
}

/// The border edges that the change puts in, as they run.
pub(crate) fn added_edges(alloc: Global, change: &Change) -> Result<Edges, NoMemory>
    ensures { IfOk result (λ edges. edges ≡ border (unwrap_or change.now.area []) (ground_of change.now.coming)) }
{
    let mut edges = ground_edges(alloc, change.coming.as_slice())?;
    if let Some(shapes) = &change.area {
        let area = edges_of_shapes(alloc, shapes.as_slice())?;
        push_reversed(&mut edges, area.as_slice())?;
    }
    Ok(edges)
}
