//! The current map of each holder, and the change that a message tries of it.

ghost use Rattle.std.specs.Prelude.{◌≡◌, ◌≤◌, ◌+◌, ◌*◌, ℕ, List, IfErr, IfNone, IfOk, IfSome, MatchOption, None, IsSome, length};
ghost use Rattle.std.specs.List.{All};
ghost use Rattle.rd_plane.specs.Covering.{IsSoundArea};
ghost use Rattle.rd_plane.specs.Shapes.{IsSoundShape};
ghost use Rattle.local_check.specs.Borders.{edges_in, edges_out};
ghost use Rattle.local_check.specs.Maps.{IsRightChange, changed, ground_of};
ghost use Rattle.map_rules.specs.Rules.{MapRules, refusal_by};
ghost use Rattle.map_core.specs.Row.{Further};
ghost use Rattle.map_core.specs.Maps.{AreAtRest, IsCommitted, IsGivenUp, IsTriedIn, map_in, now_in, trying};

use edge_arena::Steps;
use imgeo_types::Holder;
use local_check::{Change, MapFault, MapIndex};
use map_rules::Refusal;
use map_rules::laws::checked_is_ruled;
use rd_plane::NoMemory;
use std::alloc::Global;
use std::collections::BTreeMap;
use std::sync::ledger::Ledger;

/// The map of each holder whose message was accepted, or is tried.
pub type HolderMaps = BTreeMap<Holder, MapIndex>;

// The refusal that a fault tells. `None` exactly for lack of memory.
fn told(fault: MapFault) -> Option<Refusal>
    ensures { result ≡ refusal_by fault }
{
    match fault {
        MapFault::LevelOverlap { first, second } => Some(Refusal::Levels { first, second }),
        MapFault::Node { vertex, edge } => Some(Refusal::Node { vertex, edge }),
        MapFault::Tiled { edge } => Some(Refusal::Tiled { edge }),
        MapFault::NoMemory => None,
    }
}

// Tries the change of a map. `None` exactly where the changed map is right; then it is tried.
fn try_change<L: Ledger>(
    alloc: Global,
    map: &mut MapIndex,
    change: &Change,
    steps: &mut Steps<L>,
) -> Result<Option<Refusal>, NoMemory>
    requires rest { map.old.tried ≡ None }
    requires change { IsRightChange map.old.now change.now }
    requires area { IsSoundArea (changed change.now map.old.now).area }
    requires sound { All IsSoundShape (ground_of (changed change.now map.old.now).parts) }
    ensures rule { IfOk result (MapRules (changed change.now map.old.now)) }
    ensures tried { IfOk result (λ found. IfNone found (map.new ≡ trying map.old.now (changed change.now map.old.now))) }
    ensures refused { IfOk result (λ found. IsSome found → map.new ≡ map.old) }
    ensures err { IfErr result (λ e. map.new ≡ map.old) }
    ensures cost { steps.new ≤ steps.old + 12 * (edges_out change.now map.old.now + edges_in change.now) }
{
    checked_is_ruled();
    let Err(fault) = map.try_replace(alloc, change, steps) else {
        return Ok(None);
    };
    match told(fault) {
        Some(refusal) => Ok(Some(refusal)),
        None => Err(NoMemory),
    }
}

// Tries the change in a map that is new: it is the holder's once the change is tried.
fn try_first<L: Ledger>(
    alloc: Global,
    maps: &mut HolderMaps,
    holder: Holder,
    change: &Change,
    steps: &mut Steps<L>,
) -> Result<Option<Refusal>, NoMemory>
    requires absent { map_in maps.old holder ≡ None }
    requires change { IsRightChange (now_in maps.old holder) change.now }
    requires area { IsSoundArea (changed change.now (now_in maps.old holder)).area }
    requires sound { All IsSoundShape (ground_of (changed change.now (now_in maps.old holder)).parts) }
    ensures rule { IfOk result (MapRules (changed change.now (now_in maps.old holder))) }
    ensures tried { IfOk result (λ found. IfNone found (IsTriedIn maps.old maps.new holder (changed change.now (now_in maps.old holder)))) }
    ensures refused { IfOk result (λ found. IsSome found → (h : List ℕ) → map_in maps.new h ≡ map_in maps.old h) }
    ensures err { IfErr result (λ e. (h : List ℕ) → map_in maps.new h ≡ map_in maps.old h) }
    ensures cost { steps.new ≤ steps.old + 12 * (edges_out change.now (now_in maps.old holder) + edges_in change.now) }
{
    let mut map = MapIndex::new(alloc);
    if let Some(refusal) = try_change(alloc, &mut map, change, steps)? {
        return Ok(Some(refusal));
    }
    match maps.insert(holder, map) {
        Ok(_) => Ok(None),
        Err(_) => Err(NoMemory),
    }
}

/// A further rule: the holder's new map breaks the level rule, has a corner inside an edge, or does not tile the area.
/// `None` exactly where nothing was found before and it does none of these; then it is tried. Else the maps are as before.
/// Without anything found before it ticks at most 12 steps for each border edge that goes or comes, and else none.
#[tactic(auto, unfolding(crate::specs::Row::Further))]
pub fn map_refusal<L: Ledger>(
    alloc: Global,
    found: Option<Refusal>,
    maps: &mut HolderMaps,
    holder: Holder,
    change: &Change,
    steps: &mut Steps<L>,
) -> Result<Option<Refusal>, NoMemory>
    requires rest { AreAtRest maps.old }
    requires change { IfNone found (IsRightChange (now_in maps.old holder) change.now) }
    requires area { IfNone found (IsSoundArea (changed change.now (now_in maps.old holder)).area) }
    requires sound { IfNone found (All IsSoundShape (ground_of (changed change.now (now_in maps.old holder)).parts)) }
    ensures rule { IfOk result (Further found (MapRules (changed change.now (now_in maps.old holder)))) }
    ensures tried { IfOk result (λ next. IfNone next (IsTriedIn maps.old maps.new holder (changed change.now (now_in maps.old holder)))) }
    ensures refused { IfOk result (λ next. IsSome next → (h : List ℕ) → map_in maps.new h ≡ map_in maps.old h) }
    ensures err { IfErr result (λ e. (h : List ℕ) → map_in maps.new h ≡ map_in maps.old h) }
    ensures cost { MatchOption found (steps.new ≤ steps.old + 12 * (edges_out change.now (now_in maps.old holder) + edges_in change.now)) (λ r. steps.new ≡ steps.old) }
{
    if let Some(refusal) = found {
        return Ok(Some(refusal));
    }
    let Some(map) = maps.get_mut(&holder) else {
        return try_first(alloc, maps, holder, change, steps);
    };
    try_change(alloc, map, change, steps)
}

/// How many objects the holder's map has. No object is looked at.
pub fn object_count(maps: &HolderMaps, holder: Holder) -> usize
    ensures { result ≡ length (now_in maps.now holder).parts }
{
    match maps.get(&holder) {
        Some(map) => map.count(),
        None => 0,
    }
}

/// The tried map of the holder becomes its map. Takes no memory.
pub fn keep_map(maps: &mut HolderMaps, holder: Holder)
    requires { IfSome (map_in maps.old holder) (λ map. IsSome map.tried) }
    ensures { IsCommitted maps.old maps.new holder }
{
    if let Some(map) = maps.get_mut(&holder) {
        map.commit();
    }
}

/// The tried map of the holder is given up. Takes no memory.
pub fn give_up_map(maps: &mut HolderMaps, holder: Holder)
    requires { IfSome (map_in maps.old holder) (λ map. IsSome map.tried) }
    ensures { IsGivenUp maps.old maps.new holder }
{
    if let Some(map) = maps.get_mut(&holder) {
        map.abandon();
    }
}
