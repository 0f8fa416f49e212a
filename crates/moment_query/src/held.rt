//! What holds at a moment.

ghost use Rattle.std.specs.Prelude.{◌≡◌, ◌<◌, IfOk, filter, IsTrue, length, slice_index_or};
ghost use Rattle.version_history.specs.declared.version.Version.{Version};
ghost use Rattle.version_history.specs.Moments.{contents, holds, holds_at, rising};
ghost use Rattle.area_book.specs.declared.version.AreaVersion.{AreaVersion};
ghost use Rattle.moment_query.specs.Ordered.{AreAreasByHolder, AreByHolder};
ghost use Rattle.moment_query.specs.Queries.{areas_at};

use area_book::{AreaBook, AreaVersion};
use field_text::Moment;
use part_shape::Shape;
use rd_plane::{NoMemory, Shapes, copy_rings};
use std::alloc::Global;
use version_history::Version;

/// Whether the area holds at the moment.
pub(crate) fn is_held(area: &AreaVersion, moment: Moment) -> bool
    ensures { result ≡ holds moment area.now.since area.now.until }
{
    if moment < area.since {
        return false;
    }
    match area.until {
        Some(until) => moment < until,
        None => true,
    }
}

/// Whether the version holds at the moment.
pub(crate) fn is_version_held(version: &Version, moment: Moment) -> bool
    ensures { result ≡ holds_at moment version.now }
{
    if moment < version.since {
        return false;
    }
    match version.until {
        Some(until) => moment < until,
        None => true,
    }
}

/// The version of an area at this place, in order of making.
pub(crate) fn area_at(areas: &AreaBook, place: usize) -> &AreaVersion
    requires { place < length areas.now.areas }
    ensures { result.now ≡ slice_index_or areas.now.areas place result.now }
{
    let Some(area) = areas.version(place) else {
        unreachable!();
    };
    area
}

/// The shapes as lists of rings of their own.
pub(crate) fn shapes_of(alloc: Global, shapes: &[Shape]) -> Result<Shapes, NoMemory>
    ensures { IfOk result (λ copy. copy ≡ shapes.now) }
{
    let mut copy = Shapes::new(alloc);
    for shape in shapes {
        copy.push(copy_rings(alloc, shape.rings())?)?;
    }
    Ok(copy)
}

// The areas that hold at the moment, in their order.
fn held_at(alloc: Global, areas: &AreaBook, moment: Moment) -> Result<Vec<&AreaVersion>, NoMemory>
    ensures { IfOk result (λ found. contents found.items ≡ filter (λ (a : AreaVersion). holds moment a.since a.until) areas.now.areas) }
{
    let mut found = Vec::new(alloc);
    for place in 0..areas.count() {
        let area = area_at(areas, place);
        if is_held(area, moment) {
            found.push(area)?;
        }
    }
    Ok(found)
}

/// The areas that hold at the moment, by rising holder.
pub(crate) fn areas_at(
    alloc: Global,
    areas: &AreaBook,
    moment: Moment,
) -> Result<Vec<&AreaVersion>, NoMemory>
    ensures value { IfOk result (λ found. contents found.items ≡ areas_at moment areas.now.areas) }
    ensures order { IfOk result (λ found. AreAreasByHolder found.items) }
{
    let mut found = held_at(alloc, areas, moment)?;
    found.sort_by_key(|area| area.holder)?;
    Ok(found)
}

/// The versions by rising holder, those of one holder as they stood.
pub(crate) fn by_holder(versions: Vec<&Version>) -> Result<Vec<&Version>, NoMemory>
    ensures value { IfOk result (λ grouped. contents grouped.items ≡ rising (λ (v : Version). v.holder) (contents versions.entry.items)) }
    ensures order { IfOk result (λ grouped. AreByHolder grouped.items) }
{
    let mut grouped = versions;
    grouped.sort_by_key(|version| version.holder)?;
    Ok(grouped)
}
