ghost use Rattle.std.specs.Prelude.{◌≡◌, ◌<◌, ◌^◌, ◌≤◌, ◌<ℤ◌, ◌≤ℤ◌, [], length, find, IfErr, IfSome, IsNone, OnErr, OnOk, slice_get, ◌↔◌};
ghost use Rattle.std.specs.List.{All};
ghost use Rattle.std.specs.Option.{option_copied};
ghost use Rattle.part_shape.specs.Counted.{AreCounted};
ghost use Rattle.area_book.specs.Areas.{BookView, areas_with, is_area_of as is_area_in, newest_area};
ghost use Rattle.area_book.specs.Rule.{IsAreaFault, KeepsAreas};

use crate::current::{Current, current_of};
use crate::fault::AreaFault;
use crate::judge::judged;
use crate::undo::{Replaced, replace_area, take_all_back};
use crate::version::AreaVersion;
use field_text::Moment;
use imgeo_types::Holder;
use rd_plane::Shapes;
use std::alloc::Global;
use std::marker::Model;

/// All versions of areas in order of making. Contracts see that list, and the list as at the last `keep`.
#[derive(Drop)]
pub struct AreaBook {
    areas: Vec<AreaVersion>,
    // Of each holder that has an area the current one.
    current: Vec<Current>,
    // What the areas that were set since the last `keep` stand in the place of, one for each.
    undo: Vec<Option<Replaced>>,
}

impl Model for AreaBook {
    ghost use Rattle.area_book.specs.Areas.{BookView};
    ghost use Rattle.area_book.specs.Standing.{Fits, stood};

    ghost Value = { BookView };

    ghost view = { λ b. record { areas = b.areas.items; kept = (stood b.undo.items (record { areas = b.areas.items; current = b.current.items })).areas } };

    ghost invariant = { λ b. Fits b.areas.items b.current.items b.undo.items };
}

impl AreaBook {
    /// No versions. Takes no memory.
    pub fn new(alloc: Global) -> AreaBook
        ensures { result ≡ record { areas = []; kept = [] } }
    {
        AreaBook {
            areas: Vec::new(alloc),
            current: Vec::new(alloc),
            undo: Vec::new(alloc),
        }
    }

    /// How many versions there are.
    pub fn count(&self) -> usize
        ensures { result ≡ length self.now.areas }
    {
        self.areas.len()
    }

    /// The version at this place, in order of making. `None` exactly at `count` and above.
    pub fn version(&self, place: usize) -> Option<&AreaVersion>
        ensures value { option_copied result ≡ slice_get self.now.areas place }
        ensures none { IsNone result ↔ (length self.now.areas ≤ place) }
    {
        self.areas.get(place)
    }

    /// The shapes become the holder's area from the moment on, as a version of their own; the one that was current ends there.
    ///
    /// An `Err` names the first reason: a shape that is not sound, two shapes that do not keep apart, another holder with
    /// whose area they share a point. It looks at each current area once, and at the shapes of those whose boxes meet the
    /// box of these. Versions that have ended cost nothing.
    pub fn set_area(
        &mut self,
        alloc: Global,
        holder: Holder,
        moment: Moment,
        shapes: &Shapes,
    ) -> Result<(), AreaFault>
        requires few { length shapes.now < 2 ^ 32 }
        requires counted { All AreCounted shapes.now }
        requires later { IfSome (find (is_area_in holder) self.old.areas) (λ a. a.since <ℤ moment) }
        requires newest { IfSome (newest_area self.old.areas) (λ t. t ≤ℤ moment) }
        ensures ok { OnOk result (KeepsAreas self.old.areas holder shapes.now × (self.new.areas ≡ areas_with holder moment shapes.now self.old.areas)) }
        ensures fault { IfErr result (IsAreaFault self.old.areas holder shapes.now) }
        ensures err { OnErr result (self.new.areas ≡ self.old.areas) }
        ensures kept { self.new.kept ≡ self.old.kept }
    {
        let own = match judged(alloc, &self.areas, &self.current, holder, shapes) {
            Ok(own) => own,
            Err(fault) => return Err(fault),
        };
        self.areas.reserve(1)?;
        self.current.reserve(1)?;
        self.undo.reserve(1)?;
        replace_area(
            &mut self.areas,
            &mut self.current,
            &mut self.undo,
            holder,
            moment,
            own,
        );
        Ok(())
    }

    /// From here on, `roll_back` gives back the list as it is now. Takes no memory, and costs the areas that were set since
    /// the last `keep`.
    pub fn keep(&mut self)
        ensures { self.new ≡ record { areas = self.old.areas; kept = self.old.areas } }
    {
        self.undo.clear();
    }

    /// Gives back the list as it was at the last `keep`. Takes no memory, and costs the areas that were set since.
    pub fn roll_back(&mut self)
        ensures { self.new ≡ record { areas = self.old.kept; kept = self.old.kept } }
    {
        take_all_back(&mut self.areas, &mut self.current, &mut self.undo);
    }

    /// The holder's current version. `None` exactly where it has none. Linear in the holders that have an area.
    pub fn current(&self, holder: Holder) -> Option<&AreaVersion>
        ensures { option_copied result ≡ find (is_area_in holder) self.now.areas }
    {
        current_of(&self.areas, &self.current, holder)
    }

    /// The greatest moment from which a version holds. `None` exactly where there is no version. That of the version that was
    /// made last: it costs nothing.
    pub fn last_moment(&self) -> Option<Moment>
        ensures { result ≡ newest_area self.now.areas }
    {
        let last = self.areas.last()?;
        Some(last.since)
    }
}
