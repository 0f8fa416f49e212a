//! The lines of an area and of a version, printed after what a text has already.

ghost use Rattle.std.specs.Prelude.{◌≡◌, ◌++◌, ◌∷◌, [], ℕ, List, OnOk};
ghost use Rattle.std.specs.List.{All, flat_map};
ghost use Rattle.message_text.specs.Fields.{spaced};
ghost use Rattle.message_text.specs.Printable.{IsPrintableItem, IsPrintableShape};
ghost use Rattle.version_history.specs.Moments.{contents};
ghost use Rattle.moment_query.specs.Rows.{PushesRows, AreaOf, ObjectOf, IsEnd, IsEndDay};
ghost use Rattle.moment_query.specs.Queries.{area_rows, version_rows};
ghost use Rattle.moment_query.specs.Printed.{IsPrintableArea, IsPrintableVersion};

use crate::held::shapes_of;
use area_book::AreaVersion;
use field_text::{Day, Moment, print_day, print_moment};
use imgeo_types::Holder;
use message_text::{push_bytes, push_field, push_object_lines, push_shape_lines};
use rd_plane::{NoMemory, Text};
use std::alloc::Global;
use version_history::Version;

// Adds a space and the moment, or a dash where there is none.
fn push_until(text: &mut Text, until: Option<Moment>) -> Result<(), NoMemory>
    ensures { OnOk result ((field : List ℕ) × IsEnd field until × (text.new ≡ text.old ++ spaced (field ∷ []))) }
{
    match until {
        Some(moment) => push_field(text, print_moment(moment).bytes()),
        None => push_field(text, b"-"),
    }
}

// Adds a space and the day, or a dash where there is none.
fn push_end_day(text: &mut Text, day: Option<Day>) -> Result<(), NoMemory>
    ensures { OnOk result ((field : List ℕ) × IsEndDay field day × (text.new ≡ text.old ++ spaced (field ∷ []))) }
{
    match day {
        Some(day) => push_field(text, print_day(day).bytes()),
        None => push_field(text, b"-"),
    }
}

// Adds the line that says whose area follows, and when it holds.
fn push_area_head(
    text: &mut Text,
    holder: Holder,
    since: Moment,
    until: Option<Moment>,
) -> Result<(), NoMemory>
    ensures { OnOk result (PushesRows (AreaOf holder since until ∷ []) text.old text.new) }
{
    push_bytes(text, b"GEBIED")?;
    push_field(text, holder.bytes())?;
    push_field(text, print_moment(since).bytes())?;
    push_until(text, until)?;
    text.push(b'\n')
}

// Adds the line that says whose object follows, when it holds, and on which day the object ended.
fn push_object_head(
    text: &mut Text,
    holder: Holder,
    since: Moment,
    until: Option<Moment>,
    end_day: Option<Day>,
) -> Result<(), NoMemory>
    ensures { OnOk result (PushesRows (ObjectOf holder since until end_day ∷ []) text.old text.new) }
{
    push_bytes(text, b"OBJECT")?;
    push_field(text, holder.bytes())?;
    push_field(text, print_moment(since).bytes())?;
    push_until(text, until)?;
    push_end_day(text, end_day)?;
    text.push(b'\n')
}

// Adds the lines of an area.
fn push_area(alloc: Global, text: &mut Text, area: &AreaVersion) -> Result<(), NoMemory>
    requires { IsPrintableArea area.now }
    ensures { OnOk result (PushesRows (area_rows area.now) text.old text.new) }
{
    push_area_head(text, area.holder, area.since, area.until)?;
    let shapes = shapes_of(alloc, area.shapes.as_slice())?;
    push_shape_lines(text, &shapes)
}

/// Adds the lines of these areas.
pub(crate) fn push_areas(
    alloc: Global,
    text: &mut Text,
    areas: &[&AreaVersion],
) -> Result<(), NoMemory>
    requires { All IsPrintableArea (contents areas.now) }
    ensures { OnOk result (PushesRows (flat_map area_rows (contents areas.now)) text.old text.new) }
{
    for area in areas {
        push_area(alloc, text, area)?;
    }
    Ok(())
}

// Adds the lines of a version.
fn push_version(text: &mut Text, version: &Version) -> Result<(), NoMemory>
    requires { IsPrintableVersion version.now }
    ensures { OnOk result (PushesRows (version_rows version.now) text.old text.new) }
{
    push_object_head(
        text,
        version.holder,
        version.since,
        version.until,
        version.end_day,
    )?;
    push_object_lines(text, &version.ident, &version.item)
}

/// Adds the lines of these versions.
pub(crate) fn push_versions(text: &mut Text, versions: &[&Version]) -> Result<(), NoMemory>
    requires { All IsPrintableVersion (contents versions.now) }
    ensures { OnOk result (PushesRows (flat_map version_rows (contents versions.now)) text.old text.new) }
{
    for version in versions {
        push_version(text, version)?;
    }
    Ok(())
}
