//! The messages in order.

ghost use Rattle.std.specs.Prelude.{◌≡◌, ◌<◌, ◌≤◌, ◌↔◌, ◌∷◌, [], IfOk, IsErrOf};
ghost use Rattle.map_maker.specs.Made as made;

use crate::border::outline;
use crate::fault::MakeFault;
use crate::fields::{holder, moment};
use crate::mutations::{cells, ended, narrowed, neighbour, widened};
use crate::number::number_of;
use message_text::{Message, Mutation, Mutations};
use rd_plane::{Listed, NoMemory, Ring, Rings, Shapes};
use std::alloc::Global;

/// Messages in order.
pub type Messages = Listed<Message>;

// The message of that second, without an area.
fn message_at(second: u32, mutations: Mutations) -> Message
    requires { second < 3600 }
    ensures { result ≡ made.message second mutations }
{
    Message {
        holder: holder(),
        moment: moment(second),
        area: None,
        mutations,
    }
}

// The area of one shape without holes.
fn area_of(alloc: Global, outer: Ring) -> Result<Shapes, NoMemory>
    ensures { IfOk result (λ shapes. shapes ≡ (outer ∷ []) ∷ []) }
{
    let mut rings = Rings::with_capacity(alloc, 1)?;
    rings.push(outer)?;
    let mut shapes = Shapes::with_capacity(alloc, 1)?;
    shapes.push(rings.shared(alloc)?)?;
    Ok(shapes)
}

// The message that sets the area and makes all cells.
fn first_message(alloc: Global, n: u32) -> Result<Message, NoMemory>
    requires { n ≤ 400 }
    ensures { IfOk result (λ message. message ≡ made.first_message n) }
{
    let area = area_of(alloc, outline(alloc, n)?)?;
    let mutations = cells(alloc, n)?;
    Ok(Message {
        holder: holder(),
        moment: moment(0),
        area: Some(area),
        mutations,
    })
}

// The list of these two.
fn both(alloc: Global, first: Mutation, second: Mutation) -> Result<Mutations, NoMemory>
    ensures { IfOk result (λ mutations. mutations ≡ first ∷ second ∷ []) }
{
    let mut mutations = Mutations::with_capacity(alloc, 2)?;
    mutations.push(first)?;
    mutations.push(second)?;
    Ok(mutations)
}

// The message by which the first cell of a row takes its neighbour in.
fn joined(alloc: Global, n: u32, k: u32) -> Result<Message, NoMemory>
    requires count { made.IsCount n }
    requires within { (1 ≤ k) × (k ≤ n) }
    ensures { IfOk result (λ message. message ≡ made.joined n k) }
{
    let row = k - 1;
    let first = widened(alloc, n, row)?;
    let mutations = both(alloc, first, ended(number_of(n, 1, row)))?;
    Ok(message_at(k, mutations))
}

// The message by which it gives its place to a new cell.
fn parted(alloc: Global, n: u32, k: u32) -> Result<Message, NoMemory>
    requires count { made.IsCount n }
    requires within { (2 ≤ k) × (k ≤ n) }
    ensures { IfOk result (λ message. message ≡ made.parted n k) }
{
    let row = k - 2;
    let first = narrowed(alloc, n, row, k - 1)?;
    let second = neighbour(alloc, n * n + k, row)?;
    let mutations = both(alloc, first, second)?;
    Ok(message_at(k, mutations))
}

// The message of that second, between the first and the last.
fn next_message(alloc: Global, n: u32, k: u32) -> Result<Message, NoMemory>
    requires count { made.IsCount n }
    requires within { (1 ≤ k) × (k ≤ n) }
    ensures { IfOk result (λ message. message ≡ made.next_message n k) }
{
    if k % 2 == 1 {
        return joined(alloc, n, k);
    }
    parted(alloc, n, k)
}

// The message by which the last cell ends, and nothing takes its place.
fn last_message(alloc: Global, n: u32) -> Result<Message, NoMemory>
    requires { n ≤ 400 }
    ensures { IfOk result (λ message. message ≡ made.last_message n) }
{
    let mut mutations = Mutations::with_capacity(alloc, 1)?;
    mutations.push(ended(n * n))?;
    Ok(message_at(n + 1, mutations))
}

// All messages.
fn all_messages(alloc: Global, n: u32) -> Result<Messages, NoMemory>
    requires { made.IsCount n }
    ensures { IfOk result (λ messages. messages ≡ made.made n) }
{
    let mut messages = Messages::with_capacity(alloc, n as usize + 2)?;
    messages.push(first_message(alloc, n)?)?;
    for k in 0..n {
        messages.push(next_message(alloc, n, k + 1)?)?;
    }
    messages.push(last_message(alloc, n)?)?;
    Ok(messages)
}

/// The messages of one holder that build a field of n by n cells, and join and part the first two cells of its rows. The
/// last message would leave the last cell's place empty.
///
/// `Count` exactly where n is not from 2 to 400. Time and memory are linear in the number of cells.
pub fn make(alloc: Global, n: u32) -> Result<Messages, MakeFault>
    ensures made { IfOk result (λ messages. made.IsCount n × (messages ≡ made.made n)) }
    ensures count { IsErrOf result MakeFault.Count ↔ ¬ made.IsCount n }
{
    if n < 2 || 400 < n {
        return Err(MakeFault::Count);
    }
    let messages = all_messages(alloc, n)?;
    Ok(messages)
}
