//! Boxes filed in the cells of a grid, or beside it.

ghost use Rattle.std.specs.Prelude.{◌≡◌, ◌≢◌, ◌≤◌, ◌<◌, ℕ, Contains, IfOk, OnOk, Some};
ghost use Rattle.std.specs.BTreeMap.{get};
ghost use Rattle.std.specs.Ordering.{nat_cmp};
ghost use Rattle.rd_plane.specs.Bounds.{Box, HaveCommonPoint};
ghost use Rattle.box_index.specs.declared.grid.Filed.{Filed as Place};
ghost use Rattle.box_index.specs.Filing.{AreFiled, IsFound, KeepsFiled, KeepsOthers, filed, place_cmp};

use crate::cells::Cells;
use rd_plane::{Bounds, NoMemory};
use std::alloc::Global;
use std::collections::{BTreeMap, BTreeSet};

/// Where a box is filed: in a cell, under its slot. In order of columns, then of rows, then of slots.
#[derive(Clone, Copy, Debug, PartialEq, Eq, PartialOrd, Ord)]
pub(crate) struct Filed {
    pub column: u64,
    pub row: u64,
    pub slot: u64,
}

/// The boxes, each in every cell that it meets. Those that meet many cells stand in a list of their own.
#[derive(Drop)]
pub(crate) struct Grid {
    cells: BTreeMap<Filed, Bounds>,
    wide: BTreeMap<u64, Bounds>,
}

// Files the box in the cells of a column.
fn file_in_column(
    filings: &mut BTreeMap<Filed, Bounds>,
    cells: &Cells,
    column: u64,
    slot: u64,
    bounds: Bounds,
) -> Result<(), NoMemory>
    ensures here { OnOk result ((row : ℕ) → cells.now.south ≤ row → row < cells.now.north → get place_cmp filings.new (filed column row slot) ≡ Some bounds) }
    ensures kept { KeepsFiled bounds filings.old filings.new }
    ensures others { KeepsOthers slot filings.old filings.new }
{
    for row in cells.south..cells.north {
        let Ok(_) = filings.insert(Filed { column, row, slot }, bounds) else {
            return Err(NoMemory);
        };
    }
    Ok(())
}

// Files the box in its cells.
fn file(
    filings: &mut BTreeMap<Filed, Bounds>,
    cells: &Cells,
    slot: u64,
    bounds: Bounds,
) -> Result<(), NoMemory>
    ensures here { OnOk result (AreFiled filings.new cells.now slot bounds) }
    ensures others { KeepsOthers slot filings.old filings.new }
{
    for column in cells.west..cells.east {
        file_in_column(filings, cells, column, slot, bounds)?;
    }
    Ok(())
}

// Takes what is filed under the slot out of the cells of a column.
fn clear_column(filings: &mut BTreeMap<Filed, Bounds>, cells: &Cells, column: u64, slot: u64)
    ensures { KeepsOthers slot filings.old filings.new }
{
    for row in cells.south..cells.north {
        let _ = filings.remove(&Filed { column, row, slot });
    }
}

// Takes what is filed under the slot out of these cells.
fn clear(filings: &mut BTreeMap<Filed, Bounds>, cells: &Cells, slot: u64)
    ensures { KeepsOthers slot filings.old filings.new }
{
    for column in cells.west..cells.east {
        clear_column(filings, cells, column, slot);
    }
}

// Adds the slot, where its box meets the other one.
fn add_meeting(
    slots: &mut BTreeSet<u64>,
    slot: u64,
    own: &Bounds,
    bounds: &Bounds,
) -> Result<(), NoMemory>
    ensures here { OnOk result (HaveCommonPoint own.now bounds.now → Contains slots.new.keys slot) }
    ensures kept { OnOk result ((s : ℕ) → Contains slots.old.keys s → Contains slots.new.keys s) }
{
    if !own.meets(bounds) {
        return Ok(());
    }
    let Ok(_) = slots.insert(slot) else {
        return Err(NoMemory);
    };
    Ok(())
}

// Adds the slots of the boxes in the cells of a column that meet this box.
fn add_column(
    slots: &mut BTreeSet<u64>,
    filings: &BTreeMap<Filed, Bounds>,
    cells: &Cells,
    column: u64,
    bounds: &Bounds,
) -> Result<(), NoMemory>
    ensures here { OnOk result ((row : ℕ) (slot : ℕ) (own : Box) → cells.now.south ≤ row → row < cells.now.north → get place_cmp filings.now (filed column row slot) ≡ Some own → HaveCommonPoint own bounds.now → Contains slots.new.keys slot) }
    ensures kept { OnOk result ((s : ℕ) → Contains slots.old.keys s → Contains slots.new.keys s) }
{
    let (south, north) = (cells.south, cells.north);
    if north <= south {
        return Ok(());
    }
    let first = Filed {
        column,
        row: south,
        slot: 0,
    };
    let end = Filed {
        column,
        row: north,
        slot: 0,
    };
    for (place, own) in filings.range(first..end) {
        add_meeting(slots, place.slot, own, bounds)?;
    }
    Ok(())
}

// The slots of the boxes beside the grid that meet this box.
fn wide_meeting(
    alloc: Global,
    wide: &BTreeMap<u64, Bounds>,
    bounds: &Bounds,
) -> Result<BTreeSet<u64>, NoMemory>
    ensures { IfOk result (λ slots. (slot : ℕ) (own : Box) → get nat_cmp wide.now slot ≡ Some own → HaveCommonPoint own bounds.now → Contains slots.keys slot) }
{
    let mut slots = BTreeSet::new(alloc);
    for (slot, own) in wide {
        add_meeting(&mut slots, *slot, own, bounds)?;
    }
    Ok(slots)
}

// Puts the box under the slot. An `Err` leaves all as it was.
fn put_wide(wide: &mut BTreeMap<u64, Bounds>, slot: u64, bounds: Bounds) -> Result<(), NoMemory>
    ensures here { OnOk result (get nat_cmp wide.new slot ≡ Some bounds) }
    ensures others { (other : ℕ) → other ≢ slot → get nat_cmp wide.new other ≡ get nat_cmp wide.old other }
{
    let Ok(_) = wide.insert(slot, bounds) else {
        return Err(NoMemory);
    };
    Ok(())
}

// Takes what is under the slot out.
fn take_wide(wide: &mut BTreeMap<u64, Bounds>, slot: u64)
    ensures { (other : ℕ) → other ≢ slot → get nat_cmp wide.new other ≡ get nat_cmp wide.old other }
{
    let _ = wide.remove(&slot);
}

impl Grid {
    /// No boxes. Takes no memory.
    pub(crate) fn new(alloc: Global) -> Grid {
        Grid {
            cells: BTreeMap::new(alloc),
            wide: BTreeMap::new(alloc),
        }
    }

    /// Files the box under the slot. After an `Err` some of it may be filed.
    pub(crate) fn put(&mut self, slot: u64, bounds: Bounds) -> Result<(), NoMemory>
        ensures here { OnOk result (IsFound self.new slot bounds) }
        ensures others { (other : ℕ) (own : Box) → other ≢ slot → IsFound self.old other own → IsFound self.new other own }
    {
        let cells = Cells::of(&bounds);
        if cells.are_many() {
            put_wide(&mut self.wide, slot, bounds)?;
            return Ok(());
        }
        file(&mut self.cells, &cells, slot, bounds)?;
        Ok(())
    }

    /// Takes what is filed under the slot out of the cells of this box. Takes no memory.
    pub(crate) fn take(&mut self, slot: u64, bounds: &Bounds)
        ensures { (other : ℕ) (own : Box) → other ≢ slot → IsFound self.old other own → IsFound self.new other own }
    {
        let cells = Cells::of(bounds);
        if cells.are_many() {
            take_wide(&mut self.wide, slot);
            return;
        }
        clear(&mut self.cells, &cells, slot);
    }

    /// The slots under which a box is filed that meets this one. There may be others among them.
    pub(crate) fn near(&self, alloc: Global, bounds: &Bounds) -> Result<BTreeSet<u64>, NoMemory>
        ensures { IfOk result (λ slots. (slot : ℕ) (own : Box) → IsFound self.now slot own → HaveCommonPoint own bounds.now → Contains slots.keys slot) }
    {
        let cells = Cells::of(bounds);
        let mut slots = wide_meeting(alloc, &self.wide, bounds)?;
        for column in cells.west..cells.east {
            add_column(&mut slots, &self.cells, &cells, column, bounds)?;
        }
        Ok(slots)
    }
}
