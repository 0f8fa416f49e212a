//! The current area of each holder, among all versions.

ghost use Rattle.std.specs.Prelude.{◌≡◌, ◌<◌, find, length, slice_index_or};
ghost use Rattle.std.specs.Option.{option_copied};
ghost use Rattle.area_book.specs.declared.version.AreaVersion.{AreaVersion as Version};
ghost use Rattle.area_book.specs.Areas.{is_area_of};
ghost use Rattle.area_book.specs.Standing.{AreCurrent, place_in};

use crate::version::AreaVersion;
use imgeo_types::Holder;
use rd_plane::Bounds;

/// Which version is a holder's current area.
#[derive(Clone, Copy, Debug)]
pub(crate) struct Current {
    pub(crate) holder: Holder,
    /// Its place among all versions.
    pub(crate) place: usize,
    /// The least box of its corners. `None` where the area has no shapes.
    pub(crate) bounds: Option<Bounds>,
}

// The version at this place.
pub(crate) fn area_at(areas: &[AreaVersion], place: usize) -> &AreaVersion
    requires { place < length areas.now }
    ensures { (d : Version) → result.now ≡ slice_index_or areas.now place d }
{
    &areas[place]
}

/// The place of the holder among those that have an area. `None` exactly where it has none.
pub(crate) fn place_of(current: &[Current], holder: Holder) -> Option<usize>
    ensures { result ≡ place_in holder current.now }
{
    current.iter().position(|one| one.holder == holder)
}

/// The holder's current area.
pub(crate) fn current_of<'a>(
    areas: &'a [AreaVersion],
    current: &[Current],
    holder: Holder,
) -> Option<&'a AreaVersion>
    requires { AreCurrent current.now areas.now }
    ensures { option_copied result ≡ find (is_area_of holder) areas.now }
{
    let at = place_of(current, holder)?;
    Some(area_at(areas, current[at].place))
}
