ghost use Rattle.std.specs.Prelude.{◌≡◌, ◌+◌, None};
ghost use Rattle.edge_arena.specs.Contents.{value_at};
ghost use Rattle.half_edge.specs.Woven.{with_next, with_twin};

use crate::border::{HalfEdge, Owner};
use crate::key::Corner;
use edge_arena::{Arena, Slot, Steps};
use rd_plane::{Edge, Pt};
use std::marker::Model;
use std::sync::ledger::Ledger;

/// A half-edge in fewer bytes, as a slot of the arena has it.
#[derive(Clone, Copy)]
pub(crate) struct Stored {
    a: Corner,
    b: Corner,
    next: Slot,
    twin: Option<Slot>,
    owner: Owner,
}

impl Model for Stored {
    ghost use Rattle.std.specs.Prelude.{◌≢◌};
    ghost use Rattle.rd_plane.specs.Grid.{IsInGrid};
    ghost use Rattle.half_edge.specs.declared.border.HalfEdge.{HalfEdge as TheHalfEdge};

    ghost Value = { TheHalfEdge };

    ghost view = { λ s. record {
      edge = record { a = record { x = s.a.x; y = s.a.y }; b = record { x = s.b.x; y = s.b.y } };
      next = s.next;
      twin = s.twin;
      owner = s.owner;
    } };

    ghost invariant = { λ s.
        IsInGrid (record { x = s.a.x; y = s.a.y })
        × IsInGrid (record { x = s.b.x; y = s.b.y })
        × (s.a ≢ s.b) };

    ghost inverse = { λ h. record {
      a = record { x = h.edge.a.x; y = h.edge.a.y };
      b = record { x = h.edge.b.x; y = h.edge.b.y };
      next = h.next;
      twin = h.twin;
      owner = h.owner;
    } };
}

impl Stored {
    /// The half-edge as it is stored.
    #[inline(always)]
    pub(crate) fn of(half: HalfEdge) -> Stored
        ensures { result ≡ half }
    {
        Stored {
            a: Corner::at(half.edge.a),
            b: Corner::at(half.edge.b),
            next: half.next,
            twin: half.twin,
            owner: half.owner,
        }
    }

    /// The half-edge that is stored.
    #[inline(always)]
    pub(crate) fn half(self) -> HalfEdge
        ensures { result ≡ self }
    {
        HalfEdge {
            edge: Edge {
                a: self.a.point(),
                b: self.b.point(),
            },
            next: self.next,
            twin: self.twin,
            owner: self.owner,
        }
    }

    /// The same with another twin, or none.
    #[inline(always)]
    pub(crate) fn with_twin(self, twin: Option<Slot>) -> Stored
        ensures { result ≡ with_twin self twin }
    {
        Stored { twin, ..self }
    }

    /// The same with another side that comes next.
    pub(crate) fn with_next(self, next: Slot) -> Stored
        ensures { result ≡ with_next self next }
    {
        Stored { next, ..self }
    }
}

/// The half-edge in a slot, or `None` where it is not live.
pub(crate) fn half_at<L: Ledger>(
    arena: &Arena<Stored>,
    slot: Slot,
    steps: &mut Steps<L>,
) -> Option<HalfEdge>
    ensures value { result ≡ value_at arena.now.now slot.0 }
    ensures cost { steps.new ≡ steps.old + 1 }
{
    match arena.get(slot, steps) {
        Some(stored) => Some(stored.half()),
        None => None,
    }
}
