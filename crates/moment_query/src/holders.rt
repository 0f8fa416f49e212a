//! Who has something in the map at a moment.

ghost use Rattle.std.specs.Prelude.{◌≡◌, ◌++◌, ◌∷◌, [], OnOk, IfOk, map, filter};
ghost use Rattle.version_history.specs.declared.version.Version.{Version};
ghost use Rattle.version_history.specs.Moments.{contents};
ghost use Rattle.area_book.specs.declared.version.AreaVersion.{AreaVersion};
ghost use Rattle.moment_query.specs.Exports.{has_shapes, holders_of};

use area_book::AreaVersion;
use imgeo_types::Holder;
use rd_plane::NoMemory;
use std::alloc::Global;
use version_history::Version;

// Adds the holder of the area, where it has a shape.
fn push_area_holder(holders: &mut Vec<Holder>, area: &AreaVersion) -> Result<(), NoMemory>
    ensures { OnOk result (holders.new.items ≡ holders.old.items ++ map (λ (a : AreaVersion). a.holder) (filter has_shapes (area.now ∷ []))) }
{
    if area.shapes.is_empty() {
        return Ok(());
    }
    holders.push(area.holder)?;
    Ok(())
}

// Adds the holder of each area that has a shape.
fn push_area_holders(holders: &mut Vec<Holder>, areas: &[&AreaVersion]) -> Result<(), NoMemory>
    ensures { OnOk result (holders.new.items ≡ holders.old.items ++ map (λ (a : AreaVersion). a.holder) (filter has_shapes (contents areas.now))) }
{
    for area in areas {
        push_area_holder(holders, area)?;
    }
    Ok(())
}

// Adds the holder of each version.
fn push_version_holders(holders: &mut Vec<Holder>, versions: &[&Version]) -> Result<(), NoMemory>
    ensures { OnOk result (holders.new.items ≡ holders.old.items ++ map (λ (v : Version). v.holder) (contents versions.now)) }
{
    for version in versions {
        holders.push(version.holder)?;
    }
    Ok(())
}

/// The holders with a shape of one of these areas, or with one of these versions, rising, each once.
pub(crate) fn holders_of(
    alloc: Global,
    areas: &[&AreaVersion],
    versions: &[&Version],
) -> Result<Vec<Holder>, NoMemory>
    ensures { IfOk result (λ holders. holders.items ≡ holders_of (contents areas.now) (contents versions.now)) }
{
    let mut holders = Vec::new(alloc);
    push_area_holders(&mut holders, areas)?;
    push_version_holders(&mut holders, versions)?;
    holders.sort()?;
    holders.dedup();
    Ok(holders)
}
