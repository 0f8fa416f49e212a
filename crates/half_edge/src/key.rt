ghost use Rattle.std.specs.Prelude.{◌≡◌};
ghost use Rattle.rd_plane.specs.Grid.{IsInGrid};
ghost use Rattle.half_edge.specs.KeyMap.{key_of, runs_back};

use rd_plane::{Edge, Pt};

/// A corner in as few bits as its coordinates take: those of the grid fit in 32.
#[derive(Clone, Copy, PartialEq, Eq, Hash)]
pub(crate) struct Corner {
    pub x: i32,
    pub y: i32,
}

/// An edge, whichever way it runs, as the key of the slots of its sides: from its lesser corner to the other.
#[derive(Clone, Copy, PartialEq, Eq, Hash)]
pub(crate) struct Key {
    pub a: Corner,
    pub b: Corner,
}

impl Corner {
    /// The corner at the point.
    #[inline(always)]
    pub(crate) fn at(point: Pt) -> Corner
        ensures { result ≡ record { x = point.x; y = point.y } }
    {
        Corner {
            x: point.x as i32,
            y: point.y as i32,
        }
    }

    /// The point of a corner of the grid.
    #[inline(always)]
    pub(crate) fn point(self) -> Pt
        requires { IsInGrid (record { x = self.x; y = self.y }) }
        ensures { result ≡ record { x = self.x; y = self.y } }
    {
        Pt {
            x: self.x as i64,
            y: self.y as i64,
        }
    }
}

/// Whether the edge runs against its key. With no branch: which way an edge runs is as good as chance.
#[inline(always)]
pub(crate) fn is_back(edge: Edge) -> bool
    ensures { result ≡ runs_back edge }
{
    let down = (edge.a.x == edge.b.x) & (edge.b.y < edge.a.y);
    down | (edge.b.x < edge.a.x)
}

impl Key {
    /// The key of the edge, and of its reverse.
    #[inline(always)]
    pub(crate) fn of(edge: Edge) -> Key
        ensures { result ≡ key_of edge }
    {
        let a = Corner::at(edge.a);
        let b = Corner::at(edge.b);
        if is_back(edge) {
            return Key { a: b, b: a };
        }
        Key { a, b }
    }
}
