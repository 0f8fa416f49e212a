//! An area that is set, and how it is taken back.

ghost use Rattle.std.specs.Prelude.{◌≡◌, ◌<◌, [], slice_set, vec_capacity, vec_len};
ghost use Rattle.area_book.specs.Standing.{IsReplaced, IsSetBy, ending_at, stood, stood_before};

use crate::bounds::bounds_of;
use crate::current::{Current, place_of};
use crate::version::AreaVersion;
use field_text::Moment;
use imgeo_types::Holder;
use part_shape::ShapeList;

/// What an area that was set stands in the place of: the holder's area until then, and its place among the current ones.
#[derive(Clone, Copy, Debug)]
pub(crate) struct Replaced {
    pub(crate) at: usize,
    pub(crate) before: Current,
}

// Gives the version at this place an end, or takes it away.
fn end_at(areas: &mut [AreaVersion], place: usize, until: Option<Moment>)
    ensures { areas.new ≡ ending_at place until areas.old }
{
    if areas.len() <= place {
        return;
    }
    let area = &mut areas[place];
    area.until = until;
}

// Puts this one there.
fn put_at(current: &mut [Current], at: usize, one: Current)
    ensures { current.new ≡ slice_set current.old at one }
{
    if current.len() <= at {
        return;
    }
    current[at] = one;
}

// Makes this one its holder's current area. What was current before it ends at the moment, and is told.
fn make_current(
    areas: &mut [AreaVersion],
    current: &mut Vec<Current>,
    one: Current,
    moment: Moment,
) -> Option<Replaced>
    requires { vec_len current.old < vec_capacity current.old }
    ensures { IsReplaced one moment (record { areas = areas.old; current = current.old.items }) result (record { areas = areas.new; current = current.new.items }) }
{
    let Some(at) = place_of(current, one.holder) else {
        let Ok(()) = current.push(one) else {
            unreachable!();
        };
        return None;
    };
    let before = current[at];
    end_at(areas, before.place, Some(moment));
    put_at(current, at, one);
    Some(Replaced { at, before })
}

/// The shapes become the holder's current area from the moment on, as a version of their own, for which there is room.
pub(crate) fn replace_area(
    areas: &mut Vec<AreaVersion>,
    current: &mut Vec<Current>,
    undo: &mut Vec<Option<Replaced>>,
    holder: Holder,
    moment: Moment,
    shapes: ShapeList,
)
    requires areas { vec_len areas.old < vec_capacity areas.old }
    requires current { vec_len current.old < vec_capacity current.old }
    requires undo { vec_len undo.old < vec_capacity undo.old }
    ensures { IsSetBy holder moment shapes (record { areas = areas.old.items; current = current.old.items }) (record { areas = areas.new.items; current = current.new.items }) undo.old.items undo.new.items }
{
    let one = Current {
        holder,
        place: areas.len(),
        bounds: bounds_of(shapes.as_slice()),
    };
    let replaced = make_current(areas, current, one, moment);
    let version = AreaVersion {
        holder,
        shapes,
        since: moment,
        until: None,
    };
    let Ok(()) = areas.push(version) else {
        unreachable!();
    };
    let Ok(()) = undo.push(replaced) else {
        unreachable!();
    };
}

// Takes the last area that was set away, and gives back what it stood in the place of.
fn take_back(areas: &mut Vec<AreaVersion>, current: &mut Vec<Current>, replaced: &Option<Replaced>)
    ensures { record { areas = areas.new.items; current = current.new.items } ≡ stood_before replaced.now (record { areas = areas.old.items; current = current.old.items }) }
{
    areas.pop();
    let Some(was) = replaced else {
        current.pop();
        return;
    };
    end_at(areas, was.before.place, None);
    put_at(current, was.at, was.before);
}

/// Takes all areas away that were set and replaced these, the last one first. Linear in their number.
pub(crate) fn take_all_back(
    areas: &mut Vec<AreaVersion>,
    current: &mut Vec<Current>,
    undo: &mut Vec<Option<Replaced>>,
)
    ensures stood { record { areas = areas.new.items; current = current.new.items } ≡ stood undo.old.items (record { areas = areas.old.items; current = current.old.items }) }
    ensures none { undo.new.items ≡ [] }
{
    while let Some(replaced) = undo.pop() {
        take_back(areas, current, &replaced);
    }
}
