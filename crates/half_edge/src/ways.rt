ghost use Rattle.std.specs.Prelude.{◌≡◌, not, Some, None};
ghost use Rattle.half_edge.specs.KeyMap.{slot_among};

use edge_arena::Slot;

/// The slots of the sides of an edge that stand, of which one runs along its key and one back.
#[derive(Clone, Copy)]
pub(crate) enum Ways {
    /// Only the side along the key stands.
    Forth(Slot),
    /// Only the side against it stands.
    Back(Slot),
    /// Both stand, that along the key first.
    Both(Slot, Slot),
}

impl Ways {
    /// The slot of the one side, together with that of the other, where it stands.
    #[inline(always)]
    pub(crate) fn of(back: bool, slot: Slot, other: Option<Slot>) -> Ways
        ensures here { slot_among (Some result) back ≡ Some slot }
        ensures other { slot_among (Some result) (not back) ≡ other }
    {
        match (back, other) {
            (false, None) => Ways::Forth(slot),
            (true, None) => Ways::Back(slot),
            (false, Some(other)) => Ways::Both(slot, other),
            (true, Some(other)) => Ways::Both(other, slot),
        }
    }

    /// The slot of the side that runs back, or of that along the key.
    #[inline(always)]
    pub(crate) fn slot_among(self, back: bool) -> Option<Slot>
        ensures { result ≡ slot_among (Some self) back }
    {
        match (self, back) {
            (Ways::Forth(slot), false) => Some(slot),
            (Ways::Back(slot), true) => Some(slot),
            (Ways::Both(slot, _), false) => Some(slot),
            (Ways::Both(_, slot), true) => Some(slot),
            _ => None,
        }
    }

    /// What is left without the one side.
    pub(crate) fn without(self, back: bool) -> Option<Ways>
        ensures gone { slot_among result back ≡ None }
        ensures other { slot_among result (not back) ≡ slot_among (Some self) (not back) }
    {
        match (self, back) {
            (Ways::Forth(_), true) => Some(self),
            (Ways::Back(_), false) => Some(self),
            (Ways::Both(forth, _), true) => Some(Ways::Forth(forth)),
            (Ways::Both(_, back), false) => Some(Ways::Back(back)),
            _ => None,
        }
    }
}
