//! The map at a moment as messages, one for each holder.
//!
//! Areas and versions are put by rising holder first. So what is a holder's stands together and is found by halving, and no walk over
//! all is made for each holder.

ghost use Rattle.std.specs.Prelude.{◌≡◌, ◌++◌, None, OnOk, IfOk, map, filter};
ghost use Rattle.std.specs.List.{flat_map};
ghost use Rattle.version_history.specs.Moments.{contents};
ghost use Rattle.moment_query.specs.Exports.{is_own, is_own_area, own_addition, own_shapes, export_from, AreJoined, IsExportText, PushesMessage};
ghost use Rattle.moment_query.specs.Ordered.{AreAreasByHolder, AreByHolder, AreExportable};

use crate::held::{areas_at, by_holder, shapes_of};
use crate::holders::holders_of;
use area_book::AreaVersion;
use field_text::Moment;
use imgeo_types::Holder;
use map_core::Core;
use message_text::{Message, Mutation, Mutations, print_message, push_bytes};
use rd_plane::{NoMemory, Shapes, Text};
use std::alloc::Global;
use version_history::Version;

// Adds the version as a new object, where it is the holder's.
fn push_own(
    alloc: Global,
    mutations: &mut Mutations,
    version: &Version,
    holder: Holder,
) -> Result<(), NoMemory>
    ensures { OnOk result (mutations.new ≡ mutations.old ++ own_addition holder version.now) }
{
    if version.holder != holder {
        return Ok(());
    }
    let item = version.item.copy(alloc)?;
    mutations.push(Mutation::Add {
        ident: version.ident,
        item,
    })
}

// The holder's versions as new objects, in their order.
fn own_additions(
    alloc: Global,
    versions: &[&Version],
    holder: Holder,
) -> Result<Mutations, NoMemory>
    ensures { IfOk result (λ mutations. mutations ≡ flat_map (own_addition holder) (contents versions.now)) }
{
    let mut mutations = Mutations::new(alloc);
    for version in versions {
        push_own(alloc, &mut mutations, version, holder)?;
    }
    Ok(mutations)
}

// The shapes of the holder's area, none where it has none.
fn own_shapes(alloc: Global, areas: &[&AreaVersion], holder: Holder) -> Result<Shapes, NoMemory>
    ensures { IfOk result (λ shapes. shapes ≡ own_shapes holder (contents areas.now)) }
{
    for area in areas {
        if area.holder == holder {
            let shapes = shapes_of(alloc, area.shapes.as_slice())?;
            return Ok(shapes);
        }
    }
    Ok(Shapes::new(alloc))
}

// A stretch of the areas that has all areas of the holder.
fn own_areas<'a>(areas: &'a [&'a AreaVersion], holder: Holder) -> &'a [&'a AreaVersion]
    requires { AreAreasByHolder areas.now }
    ensures { filter (is_own_area holder) (contents result.now) ≡ filter (is_own_area holder) (contents areas.now) }
{
    let from = areas.partition_point(|area| area.holder < holder);
    let to = areas.partition_point(|area| area.holder <= holder);
    &areas[from..to]
}

// A stretch of the versions that has all versions of the holder.
fn own_versions<'a>(versions: &'a [&'a Version], holder: Holder) -> &'a [&'a Version]
    requires { AreByHolder versions.now }
    ensures { filter (is_own holder) (contents result.now) ≡ filter (is_own holder) (contents versions.now) }
{
    let from = versions.partition_point(|version| version.holder < holder);
    let to = versions.partition_point(|version| version.holder <= holder);
    &versions[from..to]
}

// What the holder has of these, as a message.
fn export_from(
    alloc: Global,
    areas: &[&AreaVersion],
    versions: &[&Version],
    moment: Moment,
    holder: Holder,
) -> Result<Message, NoMemory>
    requires areas { AreAreasByHolder areas.now }
    requires versions { AreByHolder versions.now }
    ensures { IfOk result (λ message. message ≡ export_from (contents areas.now) (contents versions.now) moment holder) }
{
    let shapes = own_shapes(alloc, own_areas(areas, holder), holder)?;
    let mutations = own_additions(alloc, own_versions(versions, holder), holder)?;
    Ok(Message {
        holder,
        moment,
        area: Some(shapes),
        mutations,
    })
}

// Adds the canonical text of what the holder has of these.
fn push_export(
    alloc: Global,
    text: &mut Text,
    areas: &[&AreaVersion],
    versions: &[&Version],
    moment: Moment,
    holder: Holder,
) -> Result<(), NoMemory>
    requires { AreExportable areas.now versions.now }
    ensures { OnOk result (PushesMessage (export_from (contents areas.now) (contents versions.now) moment holder) text.old text.new) }
{
    let message = export_from(alloc, areas, versions, moment, holder)?;
    let printed = print_message(alloc, &message)?;
    push_bytes(text, printed.as_slice())
}

// The canonical texts of what each of the holders has of these.
fn exports_from(
    alloc: Global,
    areas: &[&AreaVersion],
    versions: &[&Version],
    moment: Moment,
    holders: &[Holder],
) -> Result<Text, NoMemory>
    requires { AreExportable areas.now versions.now }
    ensures { IfOk result (λ text. AreJoined (map (export_from (contents areas.now) (contents versions.now) moment) holders.now) text) }
{
    let mut text = Text::new(alloc);
    for holder in holders {
        push_export(alloc, &mut text, areas, versions, moment, *holder)?;
    }
    Ok(text)
}

/// The text of the map at the moment: for each holder that has a shape of an area or an object then, by rising holder, one
/// message in canonical form, with its area and each of its objects as a new one, by rising identification.
/// Looks at all versions, and sorts those that hold.
pub fn export_text(alloc: Global, core: &Core, moment: Moment) -> Result<Text, NoMemory>
    requires { core.now.tried ≡ None }
    ensures { IfOk result (λ text. IsExportText core.now.state moment text) }
{
    let areas = areas_at(alloc, core.areas(), moment)?;
    let versions = core.history().at(alloc, moment)?;
    let holders = holders_of(alloc, &areas, &versions)?;
    let grouped = by_holder(versions)?;
    exports_from(alloc, &areas, &grouped, moment, &holders)
}
