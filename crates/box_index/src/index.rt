ghost use Rattle.std.specs.Prelude.{◌≡◌, ◌↔◌, None, IsErr, IsErrOf, IsSome, IsTrue, IfOk, OnOk, OnErr};
ghost use Rattle.std.specs.FinMap as map;
ghost use Rattle.box_index.specs.Boxed.{AreMeeting, MeetsAt};

use crate::fault::{Absent, IndexFault};
use crate::grid::Grid;
use rd_plane::{Bounds, Listed, NoMemory};
use std::alloc::Global;
use std::collections::BTreeMap;
use std::marker::Model;

/// The numbers of boxes.
pub type Slots = Listed<u64>;

/// Boxes, each under a number of its own, its slot. Contracts see a finite map.
///
/// Each box stands in the cells of a grid that it meets, squares of 65,536 mm, or beside the grid where these are more
/// than 64. It goes in and out in the logarithm of the number of boxes, for each of its cells.
#[derive(Drop)]
pub struct BoxIndex {
    boxes: BTreeMap<u64, Bounds>,
    grid: Grid,
}

impl Model for BoxIndex {
    ghost use Rattle.std.specs.FinMap as map;
    ghost use Rattle.std.specs.Ordering.{nat_cmp};
    ghost use Rattle.std.specs.Coded.{coded_ℕ};
    ghost use Rattle.rd_plane.specs.Bounds.{Box};
    ghost use Rattle.box_index.specs.Boxed.{coded_box};
    ghost use Rattle.box_index.specs.Filing.{AreFound};

    ghost Value = { map.FinMap nat_cmp Box };

    ghost coded = { map.code coded_ℕ coded_box };

    ghost view = { λ i. map.from_entries i.boxes.entries };

    ghost invariant = { λ i. AreFound i.grid (map.from_entries i.boxes.entries) };
}

// The slot has a box, which meets this one.
fn meets_at(boxes: &BTreeMap<u64, Bounds>, slot: u64, bounds: &Bounds) -> bool
    ensures { IsTrue result ↔ MeetsAt (map.from_entries boxes.now.entries) bounds.now slot }
{
    let Some(own) = boxes.get(&slot) else {
        return false;
    };
    own.meets(bounds)
}

impl BoxIndex {
    /// No boxes. Takes no memory.
    pub fn new(alloc: Global) -> BoxIndex
        ensures { result ≡ map.empty }
    {
        BoxIndex {
            boxes: BTreeMap::new(alloc),
            grid: Grid::new(alloc),
        }
    }

    /// Puts a box under a slot. `Taken` exactly where the slot has one.
    pub fn insert(&mut self, slot: u64, bounds: Bounds) -> Result<(), IndexFault>
        ensures taken { IsErrOf result IndexFault.Taken ↔ IsSome (map.get self.old slot) }
        ensures ok { OnOk result (self.new ≡ map.insert self.old slot bounds) }
        ensures err { OnErr result (self.new ≡ self.old) }
    {
        if self.boxes.contains_key(&slot) {
            return Err(IndexFault::Taken);
        }
        let Ok(()) = self.grid.put(slot, bounds) else {
            self.grid.take(slot, &bounds);
            return Err(IndexFault::NoMemory);
        };
        let Ok(_) = self.boxes.insert(slot, bounds) else {
            self.grid.take(slot, &bounds);
            return Err(IndexFault::NoMemory);
        };
        Ok(())
    }

    /// Takes the box of a slot out. `Absent` exactly where it has none. Takes no memory.
    pub fn remove(&mut self, slot: u64) -> Result<(), Absent>
        ensures absent { IsErr result ↔ (map.get self.old slot ≡ None) }
        ensures ok { OnOk result (self.new ≡ map.remove self.old slot) }
        ensures err { OnErr result (self.new ≡ self.old) }
    {
        let Some(bounds) = self.boxes.remove(&slot) else {
            return Err(Absent);
        };
        self.grid.take(slot, &bounds);
        Ok(())
    }

    /// The slots whose boxes have a point in common with this one, rising. Boxes that touch in a border or a corner have.
    ///
    /// It looks at the boxes beside the grid, and at those in the cells that this one meets.
    pub fn meeting(&self, alloc: Global, bounds: &Bounds) -> Result<Slots, NoMemory>
        ensures { IfOk result (AreMeeting self.now bounds.now) }
    {
        let near = self.grid.near(alloc, bounds)?;
        let mut slots = Slots::new(alloc);
        for slot in &near {
            if meets_at(&self.boxes, *slot, bounds) {
                slots.push(*slot)?;
            }
        }
        Ok(slots)
    }
}
