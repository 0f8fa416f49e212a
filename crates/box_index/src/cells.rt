//! The cells that a box meets.

ghost use Rattle.std.specs.Prelude.{◌≡◌, ◌<◌, ◌^◌};
ghost use Rattle.box_index.specs.Cells.{cell_in, cells_of, far_in};

use rd_plane::Bounds;

// Where the first column and the first row begin, in millimetres below 0: no corner lies before it.
const FIRST: u64 = 100_000_000;

// The side of a cell, in millimetres.
const SIDE: u64 = 65_536;

// A box that meets more cells than these stands beside the grid: it would be filed too often.
const MANY: u64 = 64;

/// The columns from `west` on and before `east`, and the rows from `south` on and before `north`.
#[derive(Clone, Copy, Debug)]
pub(crate) struct Cells {
    pub west: u64,
    pub east: u64,
    pub south: u64,
    pub north: u64,
}

// How far the coordinate is from where the first cell begins, in millimetres.
fn far_of(mm: i64) -> u64
    ensures { result ≡ far_in mm }
{
    if mm < 0 {
        return FIRST.saturating_sub(mm.unsigned_abs());
    }
    FIRST + mm.unsigned_abs()
}

// The column or row of a coordinate in millimetres.
fn cell_of(mm: i64) -> u64
    ensures value { result ≡ cell_in mm }
    ensures small { result < 2 ^ 63 }
{
    far_of(mm) / SIDE
}

impl Cells {
    /// The cells that the box meets.
    pub(crate) fn of(bounds: &Bounds) -> Cells
        ensures { result ≡ cells_of bounds.now }
    {
        Cells {
            west: cell_of(bounds.low.x),
            east: cell_of(bounds.high.x) + 1,
            south: cell_of(bounds.low.y),
            north: cell_of(bounds.high.y) + 1,
        }
    }

    /// Whether there are more of them than a box is filed in.
    pub(crate) fn are_many(&self) -> bool {
        let columns = self.east.saturating_sub(self.west);
        columns.saturating_mul(self.north.saturating_sub(self.south)) > MANY
    }
}
