ghost use Rattle.std.specs.Prelude.{◌≡◌, None, IfOk, find, option_map};
ghost use Rattle.std.specs.List.{All, list_any};
ghost use Rattle.std.specs.Option.{option_copied};
ghost use Rattle.rd_plane.specs.Plane.{point_of};
ghost use Rattle.rd_plane.specs.Shapes.{IsSoundShape};
ghost use Rattle.rd_plane.specs.Covering.{covers};
ghost use Rattle.map_rules.specs.SoundVersions.{HasSoundShape};
ghost use Rattle.moment_query.specs.Points.{is_bordered, is_area_border, is_ground_at as is_ground_in, is_part_border, is_part_at, is_border, point_line, IsPointText};

use crate::held::{area_at, is_held, is_version_held};
use crate::laws::one_word;
use area_book::{AreaBook, AreaVersion};
use field_text::Moment;
use map_core::Core;
use message_text::push_bytes;
use part_shape::{Shape, is_on_rings, lies_in_rings};
use rd_plane::{FracPt, NoMemory, Pt, Rings, Text};
use std::alloc::Global;
use version_history::Version;

// Whether the point is on an edge of the shape.
fn is_on_shape(rings: &Rings, point: Pt) -> bool
    requires { IsSoundShape rings.now }
    ensures { result ≡ is_bordered (point_of point) rings.now }
{
    is_on_rings(&FracPt::of(point), rings.as_slice())
}

// Whether it lies in the shape.
fn lies_in_shape(rings: &Rings, point: Pt) -> bool
    requires { IsSoundShape rings.now }
    ensures { result ≡ covers (point_of point) rings.now }
{
    lies_in_rings(&FracPt::of(point), rings.as_slice())
}

// Whether it is on an edge of one of the shapes.
fn is_on_shapes(shapes: &[Shape], point: Pt) -> bool
    ensures { result ≡ list_any (is_bordered (point_of point)) shapes.now }
{
    for shape in shapes {
        if is_on_shape(shape.rings(), point) {
            return true;
        }
    }
    false
}

// Whether the area holds, and the point is on an edge of it.
fn is_on_area(area: &AreaVersion, moment: Moment, point: Pt) -> bool
    ensures { result ≡ is_area_border moment (point_of point) area.now }
{
    is_held(area, moment) && is_on_shapes(area.shapes.as_slice(), point)
}

// Whether it is on an edge of an area that holds.
fn is_on_areas(areas: &AreaBook, moment: Moment, point: Pt) -> bool
    ensures { result ≡ list_any (is_area_border moment (point_of point)) areas.now.areas }
{
    for place in 0..areas.count() {
        if is_on_area(area_at(areas, place), moment, point) {
            return true;
        }
    }
    false
}

// Whether the version holds, and divides the ground.
fn is_ground_at(version: &Version, moment: Moment) -> bool
    ensures { result ≡ is_ground_in moment version.now }
{
    if !is_version_held(version, moment) {
        return false;
    }
    version.item.kind.dividing() && version.item.level == 0
}

// Whether it is such a part, and the point is on an edge of it.
fn is_on_part(version: &Version, moment: Moment, point: Pt) -> bool
    requires { HasSoundShape version.now }
    ensures { result ≡ is_part_border moment (point_of point) version.now }
{
    is_ground_at(version, moment) && is_on_shape(&version.item.rings, point)
}

// Whether it is such a part, and the point lies in it.
fn lies_in_part(version: &Version, moment: Moment, point: Pt) -> bool
    requires { HasSoundShape version.now }
    ensures { result ≡ is_part_at moment (point_of point) version.now }
{
    is_ground_at(version, moment) && lies_in_shape(&version.item.rings, point)
}

// Whether the point is on an edge of a ground part that holds.
fn is_on_parts(versions: &[Version], moment: Moment, point: Pt) -> bool
    requires { All HasSoundShape versions.now }
    ensures { result ≡ list_any (is_part_border moment (point_of point)) versions.now }
{
    for version in versions {
        if is_on_part(version, moment, point) {
            return true;
        }
    }
    false
}

// The first ground part that holds in which the point lies.
fn part_at(versions: &[Version], moment: Moment, point: Pt) -> Option<&Version>
    requires { All HasSoundShape versions.now }
    ensures { option_copied result ≡ find (is_part_at moment (point_of point)) versions.now }
{
    for version in versions {
        if lies_in_part(version, moment, point) {
            return Some(version);
        }
    }
    None
}

// Whether the point is on an edge of an area or of a ground part that holds.
fn is_on_border(core: &Core, moment: Moment, point: Pt) -> bool
    requires { core.now.tried ≡ None }
    ensures { result ≡ is_border core.now.state moment (point_of point) }
{
    if is_on_areas(core.areas(), moment, point) {
        return true;
    }
    is_on_parts(core.history().as_slice(), moment, point)
}

/// The text of the point at the moment: `BORDER` on an edge of an area or of a ground part that holds then, else the
/// identification of the one ground part in which it lies, else `NONE`. Looks at all versions.
pub fn point_text(alloc: Global, core: &Core, point: Pt, moment: Moment) -> Result<Text, NoMemory>
    requires { core.now.tried ≡ None }
    ensures one { IfOk result (λ text. IsPointText core.now.state moment point text) }
    ensures line { IfOk result (λ text. text ≡ point_line core.now.state moment point) }
{
    one_word();
    let versions = core.history().as_slice();
    let mut text = Text::new(alloc);
    if is_on_border(core, moment, point) {
        push_bytes(&mut text, b"BORDER\n")?;
        return Ok(text);
    }
    let Some(part) = part_at(versions, moment, point) else {
        push_bytes(&mut text, b"NONE\n")?;
        return Ok(text);
    };
    push_bytes(&mut text, part.ident.bytes())?;
    text.push(b'\n')?;
    Ok(text)
}
