ghost use Rattle.std.specs.Prelude.{◌≡◌, [], ◌∷◌, ◌++◌, ◌↔◌, ◌≤◌, length, slice_get, IsTrue, OnOk, OnErr, IfOk, IsNone};
ghost use Rattle.std.specs.Option.{option_copied};

use crate::listed::{Listed, Ring};
use crate::memory::NoMemory;
use std::alloc::Global;
use std::marker::Model;
use std::rc::Rc;

// Who holds the rings: one alone, who may add to them, or several, who only read them.
#[derive(Debug, Drop)]
pub(crate) enum Held {
    Own(Listed<Ring>),
    Shared(Rc<Listed<Ring>>),
}

/// The rings of a shape, the outer one first. Contracts see them as a list of rings.
///
/// A shape that has come goes to the map, to the history and to the message's own list. Once shared, each of these holds
/// the same corners, and a copy takes no memory.
#[derive(Debug, Drop)]
pub struct Rings {
    held: Held,
}

impl Model for Rings {
    ghost use Rattle.std.specs.Prelude.{List};
    ghost use Rattle.rd_plane.specs.Plane.{Vertex};
    ghost use Rattle.rd_plane.specs.HeldRings.{held_rings};

    ghost Value = { List (List Vertex) };

    ghost view = { λ r. held_rings r.held };
}

// Equal rings with lists of their own, and room for so many more.
fn copied(alloc: Global, rings: &[Ring], more: usize) -> Result<Listed<Ring>, NoMemory>
    ensures { IfOk result (λ copy. copy ≡ rings.now) }
{
    let mut copy = Listed::with_capacity(alloc, rings.len().saturating_add(more))?;
    for ring in rings {
        copy.push(Ring::from_slice(alloc, ring.as_slice())?)?;
    }
    Ok(copy)
}

impl Rings {
    /// No rings. Takes no memory.
    pub fn new(alloc: Global) -> Rings
        ensures { result ≡ [] }
    {
        let held = Held::Own(Listed::new(alloc));
        Rings { held }
    }

    /// No rings, with room for so many.
    pub fn with_capacity(alloc: Global, room: usize) -> Result<Rings, NoMemory>
        ensures { IfOk result (λ rings. rings ≡ []) }
    {
        let held = Held::Own(Listed::with_capacity(alloc, room)?);
        Ok(Rings { held })
    }

    /// The same rings, of which a copy takes no memory from now on.
    pub fn shared(self, alloc: Global) -> Result<Rings, NoMemory>
        ensures { IfOk result (λ rings. rings ≡ self) }
    {
        match self.held {
            Held::Own(rings) => {
                let held = Held::Shared(Rc::new(alloc, rings)?);
                Ok(Rings { held })
            }
            held => Ok(Rings { held }),
        }
    }

    // Equal rings: the same corners where they are shared, and else corners of their own.
    pub(crate) fn copy(&self, alloc: Global) -> Result<Rings, NoMemory>
        ensures { IfOk result (λ copy. copy ≡ self.now) }
    {
        let held = match &self.held {
            Held::Own(rings) => Held::Own(copied(alloc, rings.as_slice(), 0)?),
            Held::Shared(rings) => Held::Shared(rings.clone()?),
        };
        Ok(Rings { held })
    }

    /// How many rings there are.
    pub fn len(&self) -> usize
        ensures { result ≡ length self.now }
    {
        self.as_slice().len()
    }

    /// Whether there is no ring.
    pub fn is_empty(&self) -> bool
        ensures { IsTrue result ↔ (self.now ≡ []) }
    {
        self.as_slice().is_empty()
    }

    /// The ring at this place, counted from 0. `None` exactly at `len` and above.
    pub fn get(&self, place: usize) -> Option<&Ring>
        ensures value { option_copied result ≡ slice_get self.now place }
        ensures none { IsNone result ↔ (length self.now ≤ place) }
    {
        self.as_slice().get(place)
    }

    /// All rings in order.
    pub fn as_slice(&self) -> &[Ring]
        ensures { result.now ≡ self.now }
    {
        match &self.held {
            Held::Own(rings) => rings.as_slice(),
            Held::Shared(rings) => rings.as_ref().as_slice(),
        }
    }

    /// Adds a ring at the end. Shared rings are copied first, so nobody else's change. An `Err` leaves them as they were.
    pub fn push(&mut self, ring: Ring) -> Result<(), NoMemory>
        ensures ok { OnOk result (self.new ≡ self.old ++ ring ∷ []) }
        ensures err { OnErr result (self.new ≡ self.old) }
    {
        if let Held::Own(rings) = &mut self.held {
            return rings.push(ring);
        }
        let mut own = copied(ring.alloc(), self.as_slice(), 1)?;
        own.push(ring)?;
        self.held = Held::Own(own);
        Ok(())
    }
}
