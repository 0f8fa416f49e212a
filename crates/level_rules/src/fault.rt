ghost use Rattle.std.specs.Prelude.{◌≡◌, ◌≢◌, ◌⊎◌, ◌↔◌, ◌+◌, ◌<◌, ℕ, List, Contains, IfOk, IsTrue, MatchOption, OnOk, length, slice_index_or};
ghost use Rattle.level_rules.specs.declared.item.LevelItem.{LevelItem as Item};
ghost use Rattle.rd_plane.specs.Improving.{Improves};
ghost use Rattle.level_rules.specs.Levels.{BreakLevels, BreaksNew, HasBoxes, IsIndexOf, IsLeastFault, IsLevelled, pair_cmp, pair_of as pair_in};
ghost use Rattle.level_rules.specs.Pairs.{IsPairOf, PairsEarlier, PairsMate};
ghost use Rattle.std.specs.declared.cmp.Ordering.TheVariants.{Less};

use crate::boxes::put_box;
use crate::item::{LevelItem, LevelItems};
use crate::names::{is_named, set_of};
use box_index::BoxIndex;
use imgeo_types::{Ident, Idents};
use rd_plane::NoMemory;
use std::alloc::Global;
use std::cmp::Ordering;
use std::collections::BTreeSet;

// Whether the two objects break the rule.
fn breaks(alloc: Global, x: &LevelItem, y: &LevelItem) -> Result<bool, NoMemory>
    ensures { IfOk result (λ broken. IsTrue broken ↔ BreakLevels x.now y.now) }
{
    if x.level != y.level {
        return Ok(false);
    }
    if !x.is_levelled() {
        return Ok(false);
    }
    if !y.is_levelled() {
        return Ok(false);
    }
    x.shape.shares(alloc, &y.shape)
}

// The pair, the smaller identification first.
fn pair_of(a: Ident, b: Ident) -> (Ident, Ident)
    ensures { result ≡ pair_in a b }
{
    if a.cmp(&b) == Ordering::Less {
        return (a, b);
    }
    (b, a)
}

// The first of two pairs, in order of the first and then of the second identification.
fn lesser(a: Ident, b: Ident, c: Ident, d: Ident) -> (Ident, Ident)
    ensures { ((result ≡ (a, b)) × (pair_cmp (a, b) (c, d) ≡ Less)) ⊎ ((result ≡ (c, d)) × (pair_cmp (a, b) (c, d) ≢ Less)) }
{
    if a.cmp(&c).then(b.cmp(&d)) == Ordering::Less {
        return (a, b);
    }
    (c, d)
}

// The lesser of the pair that was found so far and of these two, where they break the rule.
fn tried(
    alloc: Global,
    least: Option<(Ident, Ident)>,
    x: &LevelItem,
    y: &LevelItem,
) -> Result<Option<(Ident, Ident)>, NoMemory>
    ensures { IfOk result (λ new. Improves pair_cmp (IsPairOf x.now y.now) least new) }
{
    if !breaks(alloc, x, y)? {
        return Ok(least);
    }
    let pair = pair_of(x.ident, y.ident);
    let Some(found) = least else {
        return Ok(Some(pair));
    };
    Ok(Some(lesser(found.0, found.1, pair.0, pair.1)))
}

// The lesser of the pair that was found so far and of the object with the mate, unless it leaves.
fn tried_mate(
    alloc: Global,
    least: Option<(Ident, Ident)>,
    item: &LevelItem,
    mate: &LevelItem,
    leaving: &BTreeSet<Ident>,
) -> Result<Option<(Ident, Ident)>, NoMemory>
    ensures { IfOk result (λ new. Improves pair_cmp (λ pair. (Contains leaving.now.keys mate.now.ident → ⊥) × IsPairOf item.now mate.now pair) least new) }
{
    if is_named(leaving, mate.ident) {
        return Ok(least);
    }
    tried(alloc, least, item, mate)
}

// The mate at this slot.
fn mate_at(mates: &[LevelItem], slot: u64) -> &LevelItem
    requires { slot < length mates.now }
    ensures { (d : Item) → result.now ≡ slice_index_or mates.now slot d }
{
    &mates[slot as usize]
}

// The same of the object with each mate whose box meets its own, and that stays.
fn tried_mates(
    alloc: Global,
    least: Option<(Ident, Ident)>,
    item: &LevelItem,
    mates: &[LevelItem],
    index: &BoxIndex,
    leaving: &BTreeSet<Ident>,
) -> Result<Option<(Ident, Ident)>, NoMemory>
    requires { IsIndexOf mates.now index.now }
    ensures { IfOk result (λ new. Improves pair_cmp (PairsMate item.now mates.now index.now leaving.now.keys) least new) }
{
    let mut found = least;
    let near = index.meeting(alloc, &item.shape.bounds())?;
    for slot in near.as_slice() {
        found = tried_mate(alloc, found, item, mate_at(mates, *slot), leaving)?;
    }
    Ok(found)
}

// The same of the object at i with those before it, of which none leaves. Its own box goes into their index.
fn tried_earlier(
    alloc: Global,
    least: Option<(Ident, Ident)>,
    items: &[LevelItem],
    i: usize,
    own: &mut BoxIndex,
) -> Result<Option<(Ident, Ident)>, NoMemory>
    requires inside { i < length items.now }
    requires levelled { (d : Item) → IsLevelled (slice_index_or items.now i d) }
    requires own { HasBoxes items.now own.old i }
    ensures least { IfOk result (λ new. Improves pair_cmp (PairsEarlier items.now i) least new) }
    ensures own { OnOk result (HasBoxes items.now own.new (i + 1)) }
{
    let none = BTreeSet::new(alloc);
    let found = tried_mates(alloc, least, &items[i], items, own, &none)?;
    put_box(own, items, i)?;
    Ok(found)
}

/// The least pair that breaks the level rule, of a new object with another or with a mate that stays: one whose place is a
/// slot of the index, and whose identification is not one of those that leave. `None` exactly where there is none.
///
/// A new object that the rule does not speak of costs one look. Each other one is compared with the mates and with the new
/// ones before it whose boxes meet its own; what that costs beside, `BoxIndex::meeting` says. Those that leave go into a set
/// first, so that a mate near a new object costs the logarithm of their number.
pub fn level_fault(
    alloc: Global,
    items: &LevelItems,
    mates: &LevelItems,
    index: &BoxIndex,
    leaving: &Idents,
) -> Result<Option<(Ident, Ident)>, NoMemory>
    requires { IsIndexOf mates.now index.now }
    ensures { IfOk result (λ found. MatchOption found ((pair : List ℕ × List ℕ) → BreaksNew items.now mates.now index.now leaving.now pair → ⊥) (IsLeastFault items.now mates.now index.now leaving.now)) }
{
    let gone = set_of(alloc, leaving.as_slice())?;
    let mut own = BoxIndex::new(alloc);
    let mut least = None;
    let all = items.as_slice();
    for i in 0..all.len() {
        if !all[i].is_levelled() {
            continue;
        }
        least = tried_earlier(alloc, least, all, i, &mut own)?;
        least = tried_mates(alloc, least, &all[i], mates.as_slice(), index, &gone)?;
    }
    Ok(least)
}
