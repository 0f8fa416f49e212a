ghost use Rattle.std.specs.Prelude.{◌≡◌, ◌≤◌, ◌<◌, ◌+◌, ◌-◌, ◌++◌, ◌∷◌, ◌^◌, [], List, Option, length, take, vec_len, vec_capacity, IsSome, Some, None, OnOk, OnErr};
ghost use Rattle.edge_arena.specs.Contents.{nothing, value_at, next_slot, Changes};
ghost use Rattle.edge_arena.specs.Undo.{IsNoted, MayUndo, undo};

use crate::steps::Steps;
use rd_plane::NoMemory;
use std::alloc::Global;
use std::marker::Model;
use std::sync::ledger::Ledger;

/// A place of an arena. It names the same value until it is removed; then a later `put` may hand it out again.
#[derive(Clone, Copy, Debug, PartialEq, Eq)]
pub struct Slot(pub usize);

// What takes a change back.
#[derive(Clone, Copy)]
pub(crate) enum Change<T> {
    // The first slot was added. Nothing stood before, so it takes back whatever came since.
    Began,
    // The last free slot was filled.
    Reused(usize),
    // A slot was added at the end.
    Grown,
    // The slot held this value, and holds another.
    Changed(usize, T),
    // The slot held this value, and became the last free one.
    Removed(usize, T),
}

/// Values in slots, of which each keeps its place until it is removed.
#[derive(Drop)]
pub struct Arena<T> {
    slots: Vec<Option<T>>,
    free: Vec<usize>,
    log: Vec<Change<T>>,
    spare: usize,
}

impl<T> Model for Arena<T> {
    ghost use Rattle.std.specs.Prelude.{◌+◌, ◌≤◌, length, vec_len, vec_capacity};
    ghost use Rattle.edge_arena.specs.Contents.{Holding};

    ghost Value = { Holding T };

    ghost use Rattle.edge_arena.specs.Undo.{undo_all, AreSound};

    ghost view = { λ a. record {
      now = record { slots = a.slots.items; free = a.free.items };
      kept = undo_all a.log.items (record { slots = a.slots.items; free = a.free.items });
      spare = a.spare;
    } };

    ghost invariant = { λ a.
        AreSound (vec_capacity a.slots) (vec_capacity a.free) a.log.items (record { slots = a.slots.items; free = a.free.items })
        × (vec_len a.slots + a.spare ≤ vec_capacity a.slots)
        × (vec_len a.free + a.spare ≤ vec_capacity a.free)
        × (vec_len a.log + a.spare ≤ vec_capacity a.log) };
}

// What takes back a slot that was added behind so many.
fn added<T>(slots: usize) -> Change<T>
    ensures back { (xs : List (Option T)) (o : Option T) → length xs ≡ slots → undo result (record { slots = xs ++ o ∷ []; free = [] }) ≡ record { slots = xs; free = [] } }
    ensures may { (xs : List (Option T)) (o : Option T) → MayUndo result (record { slots = xs ++ o ∷ []; free = [] }) }
{
    if slots == 0 {
        return Change::Began;
    }
    Change::Grown
}

// Logs a change. Where nothing stood at the last `keep` the log says so, and no more is needed: a first load is taken
// back with no old values at hand.
fn note<T: Copy>(log: &mut Vec<Change<T>>, change: Change<T>)
    requires { vec_len log.old < vec_capacity log.old }
    ensures items { IsNoted log.old.items change log.new.items }
    ensures len { vec_len log.new ≤ vec_len log.old + 1 }
    ensures capacity { vec_capacity log.new ≡ vec_capacity log.old }
{
    if let Some(Change::Began) = log.last() {
        return;
    }
    log.push_reserved(change);
}

impl<T: Copy> Arena<T> {
    /// An arena with no live slot.
    pub fn new(alloc: Global) -> Arena<T>
        ensures now { result.now ≡ nothing }
        ensures kept { result.kept ≡ nothing }
    {
        Arena {
            slots: Vec::new(alloc),
            free: Vec::new(alloc),
            log: Vec::new(alloc),
            spare: 0,
        }
    }

    /// Makes room for n changes. An `Err` leaves all as before.
    pub fn reserve(&mut self, n: usize) -> Result<(), NoMemory>
        ensures now { self.new.now ≡ self.old.now }
        ensures kept { self.new.kept ≡ self.old.kept }
        ensures ok { OnOk result (n ≤ self.new.spare) }
        ensures err { OnErr result (self.new ≡ self.old) }
    {
        if n > self.spare {
            self.slots.reserve(n)?;
            self.free.reserve(n)?;
            self.log.reserve(n)?;
            self.spare = n;
        }
        Ok(())
    }

    /// Puts a value into the last free slot, or into a new one where none is free.
    pub fn put<L: Ledger>(&mut self, value: T, steps: &mut Steps<L>) -> Slot
        requires { 0 < self.old.spare }
        ensures slot { result.0 ≡ next_slot self.old.now }
        ensures vacant { value_at self.old.now result.0 ≡ None }
        ensures now { Changes self.old.now self.new.now result.0 (Some value) }
        ensures free { self.new.now.free ≡ take (length self.old.now.free - 1) self.old.now.free }
        ensures kept { self.new.kept ≡ self.old.kept }
        ensures spare { self.new.spare + 1 ≡ self.old.spare }
        ensures fits { length self.new.now.slots < 2 ^ 64 }
        ensures cost { steps.new ≡ steps.old + 1 }
    {
        steps.tick();
        self.spare -= 1;
        match self.free.pop() {
            Some(slot) => {
                self.slots[slot] = Some(value);
                note(&mut self.log, Change::Reused(slot));
                Slot(slot)
            }
            None => {
                let slot = self.slots.len();
                self.slots.push_reserved(Some(value));
                note(&mut self.log, added(slot));
                Slot(slot)
            }
        }
    }

    /// The slot that the next `put` fills.
    pub fn next_slot(&self) -> Slot
        ensures { result.0 ≡ next_slot self.now.now }
    {
        match self.free.last() {
            Some(slot) => Slot(*slot),
            None => Slot(self.slots.len()),
        }
    }

    /// Changes the value of a live slot.
    pub fn set<L: Ledger>(&mut self, slot: Slot, value: T, steps: &mut Steps<L>)
        requires spare { 0 < self.old.spare }
        requires live { IsSome (value_at self.old.now slot.0) }
        ensures now { Changes self.old.now self.new.now slot.0 (Some value) }
        ensures free { self.new.now.free ≡ self.old.now.free }
        ensures kept { self.new.kept ≡ self.old.kept }
        ensures spare { self.new.spare + 1 ≡ self.old.spare }
        ensures fits { length self.new.now.slots < 2 ^ 64 }
        ensures cost { steps.new ≡ steps.old + 1 }
    {
        steps.tick();
        self.spare -= 1;
        let Slot(place) = slot;
        match self.slots[place] {
            Some(old) => {
                self.slots[place] = Some(value);
                note(&mut self.log, Change::Changed(place, old));
            }
            None => unreachable!(),
        }
    }

    /// Frees a live slot, which is then the next one to be used.
    pub fn remove<L: Ledger>(&mut self, slot: Slot, steps: &mut Steps<L>)
        requires spare { 0 < self.old.spare }
        requires live { IsSome (value_at self.old.now slot.0) }
        ensures now { Changes self.old.now self.new.now slot.0 None }
        ensures free { self.new.now.free ≡ self.old.now.free ++ slot.0 ∷ [] }
        ensures kept { self.new.kept ≡ self.old.kept }
        ensures spare { self.new.spare + 1 ≡ self.old.spare }
        ensures cost { steps.new ≡ steps.old + 1 }
    {
        steps.tick();
        self.spare -= 1;
        let Slot(place) = slot;
        match self.slots[place] {
            Some(old) => {
                self.slots[place] = None;
                self.free.push_reserved(place);
                note(&mut self.log, Change::Removed(place, old));
            }
            None => unreachable!(),
        }
    }

    /// The value of a slot, or `None` where it is not live.
    pub fn get<L: Ledger>(&self, slot: Slot, steps: &mut Steps<L>) -> Option<T>
        ensures value { result ≡ value_at self.now.now slot.0 }
        ensures cost { steps.new ≡ steps.old + 1 }
    {
        steps.tick();
        let Slot(place) = slot;
        match self.slots.get(place) {
            Some(held) => *held,
            None => None,
        }
    }

    /// Takes back every change since the last `keep`. Takes no memory. `reserve` comes before the next change.
    pub fn roll_back(&mut self)
        ensures now { self.new.now ≡ self.old.kept }
        ensures kept { self.new.kept ≡ self.old.kept }
    {
        self.spare = 0;
        while let Some(change) = self.log.pop() {
            match change {
                Change::Began => {
                    self.slots.clear();
                    self.free.clear();
                }
                Change::Reused(slot) => {
                    self.slots[slot] = None;
                    self.free.push_reserved(slot);
                }
                Change::Grown => {
                    let _held = self.slots.pop();
                }
                Change::Changed(slot, old) => self.slots[slot] = Some(old),
                Change::Removed(slot, old) => {
                    self.slots[slot] = Some(old);
                    let _slot = self.free.pop();
                }
            }
        }
    }

    /// Keeps what stands now. Takes no memory. `reserve` comes before the next change.
    pub fn keep(&mut self)
        ensures now { self.new.now ≡ self.old.now }
        ensures kept { self.new.kept ≡ self.old.now }
    {
        self.spare = 0;
        self.log.clear();
    }
}
