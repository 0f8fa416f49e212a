//! The objects of a map, each at a place of its own.

ghost use Rattle.std.specs.Prelude.{◌≡◌, ◌≢◌, ◌⊎◌, ◌≤◌, ◌+◌, ◌<◌, [], ◌∷◌, ◌++◌, ℕ, List, Some, All, Contains, IfNone, IfSome, IsSome, IfOk, OnOk, length, map, reverse, vec_len, vec_capacity};
ghost use Rattle.std.specs.FinMap as map_of;
ghost use Rattle.local_check.specs.Borders.{AreDifferent};
ghost use Rattle.local_check.specs.Kept.{AreBoxed, AreBoxedFrom};
ghost use Rattle.local_check.specs.Maps.{staying};
ghost use Rattle.local_check.specs.Numbered.{IsGrown, IsNumbering, KeepsPlaces, number_at, place_at};
ghost use Rattle.local_check.specs.Placed.{HasRoomFor, IsPlaced, at_place, cleared, present};

use crate::boxes::{drop_box, put_boxes};
use crate::numbers::Numbers;
use box_index::BoxIndex;
use imgeo_types::Ident;
use level_rules::{LevelItem, LevelItems};
use rd_plane::NoMemory;
use std::alloc::Global;
use std::collections::BTreeSet;

/// The objects in order of coming, and what is kept of their identifications and of their boxes. The place of an object that
/// went stays empty.
#[derive(Drop)]
pub(crate) struct Places {
    pub slots: Vec<Option<LevelItem>>,
    pub numbers: Numbers,
    /// How many objects stand.
    pub count: usize,
    pub boxes: BoxIndex,
}

impl Places {
    /// No objects. Takes no memory.
    pub(crate) fn new(alloc: Global) -> Places
        ensures none { result.slots.items ≡ [] }
        ensures numbering { IsNumbering result.numbers }
        ensures placed { IsPlaced result }
    {
        Places {
            slots: Vec::new(alloc),
            numbers: Numbers::new(alloc),
            count: 0,
            boxes: BoxIndex::new(alloc),
        }
    }

    // The place where the object with this identification stands.
    fn place(&self, ident: Ident) -> Option<usize>
        requires { IsPlaced self.now }
        ensures some { IfSome result (λ k. (p : LevelItem) × (at_place self.now.slots.items k ≡ Some p) × (p.ident ≡ ident)) }
        ensures none { IfNone result ((k : ℕ) (p : LevelItem) → at_place self.now.slots.items k ≡ Some p → p.ident ≢ ident) }
    {
        let place = self.numbers.place(ident)?;
        let Some(Some(part)) = self.slots.get(place) else {
            return None;
        };
        if part.ident != ident {
            return None;
        }
        Some(place)
    }

    /// The object with this identification.
    pub(crate) fn find(&self, ident: Ident) -> Option<&LevelItem>
        requires { IsPlaced self.now }
        ensures some { IfSome result (λ p. Contains (present self.now.slots.items) p.now × (p.now.ident ≡ ident)) }
        ensures none { IfNone result ((p : LevelItem) → Contains (present self.now.slots.items) p → p.ident ≢ ident) }
    {
        let place = self.place(ident)?;
        self.slots[place].as_ref()
    }

    // Empties the place of the object with this identification, where there is one.
    fn clear(&mut self, ident: Ident)
        requires { IsPlaced self.old }
        ensures slots { self.new.slots.items ≡ map (cleared ident) self.old.slots.items }
        ensures count { self.new.count ≡ length (present self.new.slots.items) }
        ensures numbers { self.new.numbers ≡ self.old.numbers }
        ensures len { vec_len self.new.slots ≡ vec_len self.old.slots }
        ensures capacity { vec_capacity self.new.slots ≡ vec_capacity self.old.slots }
        ensures boxed { AreBoxed self.old.boxes self.old.slots.items → AreBoxed self.new.boxes self.new.slots.items }
        ensures later { (q : ℕ) → length self.old.slots.items ≤ q → map_of.get self.new.boxes q ≡ map_of.get self.old.boxes q }
    {
        if let Some(place) = self.place(ident) {
            drop_box(&mut self.boxes, place);
            self.slots[place] = None;
            self.count -= 1;
        }
    }

    // Empties the places of those that leave.
    fn clear_all(&mut self, leaving: &[Ident])
        requires { IsPlaced self.old }
        ensures present { present self.new.slots.items ≡ staying leaving.now (present self.old.slots.items) }
        ensures placed { IsPlaced self.new }
        ensures numbers { self.new.numbers ≡ self.old.numbers }
        ensures len { vec_len self.new.slots ≡ vec_len self.old.slots }
        ensures capacity { vec_capacity self.new.slots ≡ vec_capacity self.old.slots }
        ensures boxed { AreBoxed self.old.boxes self.old.slots.items → AreBoxed self.new.boxes self.new.slots.items }
        ensures later { (q : ℕ) → length self.old.slots.items ≤ q → map_of.get self.new.boxes q ≡ map_of.get self.old.boxes q }
    {
        for ident in leaving {
            self.clear(*ident);
        }
    }

    // Puts the object behind all others.
    fn put(&mut self, part: LevelItem)
        requires room { vec_len self.old.slots < vec_capacity self.old.slots }
        requires few { self.old.count ≤ vec_len self.old.slots }
        requires known { IsSome (number_at self.old.numbers part.ident) }
        ensures slots { self.new.slots.items ≡ self.old.slots.items ++ Some part ∷ [] }
        ensures count { self.new.count ≡ self.old.count + 1 }
        ensures same { (q : List ℕ) → number_at self.new.numbers q ≡ number_at self.old.numbers q }
        ensures next { self.new.numbers.next ≡ self.old.numbers.next }
        ensures here { place_at self.new.numbers part.ident ≡ Some (length self.old.slots.items) }
        ensures elsewhere { (q : List ℕ) → part.ident ≢ q → place_at self.new.numbers q ≡ place_at self.old.numbers q }
        ensures capacity { vec_capacity self.new.slots ≡ vec_capacity self.old.slots }
        ensures boxes { self.new.boxes ≡ self.old.boxes }
    {
        self.numbers.set_place(part.ident, self.slots.len());
        self.slots.push_reserved(Some(part));
        self.count += 1;
    }

    // Puts the objects behind all others, the last of the list first.
    fn put_all(&mut self, mut coming: Vec<LevelItem>)
        requires placed { IsPlaced self.old }
        requires room { HasRoomFor self.old coming.items }
        requires different { AreDifferent (present self.old.slots.items ++ reverse coming.items) }
        requires boxed { AreBoxed self.old.boxes self.old.slots.items }
        ensures present { present self.new.slots.items ≡ present self.old.slots.items ++ reverse coming.items }
        ensures placed { IsPlaced self.new }
        ensures same { (q : List ℕ) → number_at self.new.numbers q ≡ number_at self.old.numbers q }
        ensures next { self.new.numbers.next ≡ self.old.numbers.next }
        ensures boxed { AreBoxed self.new.boxes self.new.slots.items }
    {
        while let Some(part) = coming.pop() {
            self.put(part);
        }
    }

    /// Makes room for these objects, gives each that has none a number, and keeps their boxes under the places that they
    /// will have. Who has a number keeps it, also after an `Err`.
    pub(crate) fn prepare(&mut self, coming: &[LevelItem]) -> Result<(), NoMemory>
        requires { IsNumbering self.old.numbers }
        ensures slots { self.new.slots.items ≡ self.old.slots.items }
        ensures count { self.new.count ≡ self.old.count }
        ensures numbering { IsNumbering self.new.numbers }
        ensures grown { IsGrown self.old.numbers self.new.numbers }
        ensures places { KeepsPlaces self.old.numbers self.new.numbers }
        ensures known { OnOk result (All (λ p. IsSome (number_at self.new.numbers p.ident)) coming.now) }
        ensures room { OnOk result (vec_len self.new.slots + length coming.now ≤ vec_capacity self.new.slots) }
        ensures boxed { AreBoxed self.old.boxes self.old.slots.items → AreBoxed self.new.boxes self.new.slots.items }
        ensures boxes { OnOk result (AreBoxedFrom self.new.boxes (length self.new.slots.items) coming.now) }
    {
        self.slots.reserve(coming.len())?;
        put_boxes(&mut self.boxes, self.slots.len(), coming)?;
        give_all(&mut self.numbers, coming)
    }

    /// Those that leave go, and those that come stand behind all others, the last of the list first. Takes no memory.
    pub(crate) fn change(&mut self, leaving: &[Ident], coming: Vec<LevelItem>)
        requires placed { IsPlaced self.old }
        requires room { HasRoomFor self.old coming.items }
        requires different { AreDifferent (staying leaving.now (present self.old.slots.items) ++ reverse coming.items) }
        requires boxed { AreBoxed self.old.boxes self.old.slots.items }
        ensures present { present self.new.slots.items ≡ staying leaving.now (present self.old.slots.items) ++ reverse coming.items }
        ensures placed { IsPlaced self.new }
        ensures same { (q : List ℕ) → number_at self.new.numbers q ≡ number_at self.old.numbers q }
        ensures next { self.new.numbers.next ≡ self.old.numbers.next }
        ensures boxed { AreBoxed self.new.boxes self.new.slots.items }
    {
        self.clear_all(leaving);
        self.put_all(coming);
    }

    /// Copies of the objects at these places, where there are some. Linear in their corners.
    pub(crate) fn copies(&self, alloc: Global, near: &BTreeSet<u64>) -> Result<LevelItems, NoMemory>
        ensures those { IfOk result (λ list. (p : LevelItem) → Contains list p → Contains (present self.now.slots.items) p) }
        ensures all { IfOk result (λ list. (k : ℕ) (p : LevelItem) → Contains near.now.keys k → at_place self.now.slots.items k ≡ Some p → Contains list p) }
    {
        let mut list = LevelItems::new(alloc);
        for place in near {
            push_copy(alloc, &mut list, &self.slots, *place)?;
        }
        Ok(list)
    }
}

// Adds a copy of the object at the place, where there is one.
fn push_copy(
    alloc: Global,
    list: &mut LevelItems,
    slots: &[Option<LevelItem>],
    place: u64,
) -> Result<(), NoMemory>
    ensures kept { OnOk result ((p : LevelItem) → Contains list.old p → Contains list.new p) }
    ensures here { OnOk result ((p : LevelItem) → at_place slots.now place ≡ Some p → Contains list.new p) }
    ensures those { OnOk result ((p : LevelItem) → Contains list.new p → Contains list.old p ⊎ Contains (present slots.now) p) }
{
    let Some(Some(part)) = slots.get(place as usize) else {
        return Ok(());
    };
    list.push(part.copy(alloc)?)?;
    Ok(())
}

// Gives each of the objects a number. Who has one keeps it, also after an `Err`.
fn give_all(numbers: &mut Numbers, parts: &[LevelItem]) -> Result<(), NoMemory>
    requires { IsNumbering numbers.old }
    ensures numbering { IsNumbering numbers.new }
    ensures grown { IsGrown numbers.old numbers.new }
    ensures places { KeepsPlaces numbers.old numbers.new }
    ensures known { OnOk result (All (λ p. IsSome (number_at numbers.new p.ident)) parts.now) }
{
    for part in parts {
        numbers.give(part.ident)?;
    }
    Ok(())
}
