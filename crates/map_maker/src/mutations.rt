//! What the messages do to the cells.

ghost use Rattle.std.specs.Prelude.{◌≡◌, ◌<◌, ◌≤◌, ◌++◌, map, OnOk, IfOk};
ghost use Rattle.map_maker.specs.Made as made;

use crate::fields::{day, moment};
use crate::items::{cell_item, double_item};
use crate::number::{ident, number_of};
use message_text::{Mutation, Mutations};
use rd_plane::NoMemory;
use std::alloc::Global;

// The mutation by which the cell is a new object.
fn new_cell(alloc: Global, n: u32, j: u32, i: u32) -> Result<Mutation, NoMemory>
    requires { (n ≤ 400) × (i < n) × (j < n) }
    ensures { IfOk result (λ mutation. mutation ≡ made.new_cell n j i) }
{
    let item = cell_item(alloc, i, j)?;
    Ok(Mutation::Add {
        ident: ident(number_of(n, i, j)),
        item,
    })
}

// Adds the cells of a row.
fn push_row(alloc: Global, mutations: &mut Mutations, n: u32, j: u32) -> Result<(), NoMemory>
    requires { (n ≤ 400) × (j < n) }
    ensures { OnOk result (mutations.new ≡ mutations.old ++ map (made.new_cell n j) (made.below n)) }
{
    for i in 0..n {
        let cell = new_cell(alloc, n, j, i)?;
        mutations.push(cell)?;
    }
    Ok(())
}

/// All cells as new objects, row by row.
pub(crate) fn cells(alloc: Global, n: u32) -> Result<Mutations, NoMemory>
    requires { n ≤ 400 }
    ensures { IfOk result (λ mutations. mutations ≡ made.cells n) }
{
    let mut mutations = Mutations::with_capacity(alloc, n as usize * n as usize)?;
    for j in 0..n {
        push_row(alloc, &mut mutations, n, j)?;
    }
    Ok(mutations)
}

/// The first cell of the row, as it was made at first, becomes the first two cells.
pub(crate) fn widened(alloc: Global, n: u32, row: u32) -> Result<Mutation, NoMemory>
    requires { (n ≤ 400) × (row < n) }
    ensures { IfOk result (λ mutation. mutation ≡ made.widened n row) }
{
    let item = double_item(alloc, row)?;
    Ok(Mutation::Change {
        ident: ident(number_of(n, 0, row)),
        was: moment(0),
        item,
    })
}

/// And the cell again, from what it became at that second.
pub(crate) fn narrowed(alloc: Global, n: u32, row: u32, since: u32) -> Result<Mutation, NoMemory>
    requires { (n ≤ 400) × (row < n) × (since < 3600) }
    ensures { IfOk result (λ mutation. mutation ≡ made.narrowed n row since) }
{
    let item = cell_item(alloc, 0, row)?;
    Ok(Mutation::Change {
        ident: ident(number_of(n, 0, row)),
        was: moment(since),
        item,
    })
}

/// A new object with this number has the place of the second cell of the row.
pub(crate) fn neighbour(alloc: Global, number: u32, row: u32) -> Result<Mutation, NoMemory>
    requires { row < 400 }
    ensures { IfOk result (λ mutation. mutation ≡ made.neighbour number row) }
{
    let item = cell_item(alloc, 1, row)?;
    Ok(Mutation::Add {
        ident: ident(number),
        item,
    })
}

/// The object with this number ends, as it was made at first.
pub(crate) fn ended(number: u32) -> Mutation
    ensures { result ≡ made.ended number }
{
    Mutation::End {
        ident: ident(number),
        was: moment(0),
        day: day(),
    }
}
