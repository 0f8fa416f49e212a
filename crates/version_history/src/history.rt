ghost use Rattle.std.specs.Prelude.{◌≡◌, ◌≢◌, ◌↔◌, ◌++◌, [], ◌∷◌, ◌<◌, length, ℤ, Option, None, IsNone, IsSome, IfSome, OnOk, OnErr, IsErrOf, IfOk, IfErr, slice_get, option_and_then, take, All, filter};
ghost use Rattle.std.specs.Option.{option_copied};
ghost use Rattle.version_history.specs.Versions.{current_of, last_of, new_version, ended, ended_in, IsUnknown};
ghost use Rattle.version_history.specs.Sound.{IsSoundHistory, OnlyLastCurrent};
ghost use Rattle.version_history.specs.Places.{change_at, end_of, idents, last_place, reopened, reopened_at, IsCurrentPlace};
ghost use Rattle.version_history.specs.Indexed.{IsIndexOf};
ghost use Rattle.version_history.specs.Moments.{contents, holds_at, versions_at, versions_of};

use crate::fault::HistoryFault;
use crate::index::Index;
use crate::version::Version;
use field_text::{Day, Moment};
use imgeo_types::{Holder, Ident, Item};
use rd_plane::NoMemory;
use std::alloc::Global;
use std::marker::Model;

/// All versions in order of making. Contracts see that list, and the list as at the last `keep`.
///
/// To find, begin or end a version takes the logarithm of the number of identifications, and to begin one a copy of the
/// item besides. `roll_back` takes as much for each version that began or ended since the last `keep`.
#[derive(Drop)]
pub struct History {
    versions: Vec<Version>,
    // The index of the versions' identifications.
    index: Index,
    // The places of the versions that ended since the last `keep`, in order of ending.
    ended: Vec<usize>,
    // How many versions there were at the last `keep`.
    kept: usize,
}

impl Model for History {
    ghost use Rattle.version_history.specs.Versions.{HistoryView};
    ghost use Rattle.version_history.specs.Places.{kept_of};
    ghost use Rattle.version_history.specs.Indexed.{Fits};

    ghost Value = { HistoryView };

    ghost view = { λ h. record { versions = h.versions.items; kept = kept_of h.kept h.ended.items h.versions.items } };

    ghost invariant = { λ h. Fits h.versions.items h.index h.ended.items h.kept };
}

// Ends the version at the place.
fn close(versions: &mut [Version], place: usize, until: Moment, end_day: Option<Day>)
    requires { place < length versions.old }
    ensures { versions.new ≡ change_at (ended until end_day) place versions.old }
{
    let version = &mut versions[place];
    version.until = Some(until);
    version.end_day = end_day;
}

// Makes the version at the place current again.
fn reopen(versions: &mut [Version], place: usize)
    requires { place < length versions.old }
    ensures { versions.new ≡ change_at reopened place versions.old }
{
    let version = &mut versions[place];
    version.until = None;
    version.end_day = None;
}

// Makes the versions at the places current again, the last place first. No place is left.
fn reopen_all(versions: &mut [Version], places: &mut Vec<usize>)
    requires { All (λ place. place < length versions.old) places.old.items }
    ensures versions { versions.new ≡ reopened_at places.old.items versions.old }
    ensures none { places.new.items ≡ [] }
{
    while let Some(place) = places.pop() {
        reopen(versions, place);
    }
}

// Takes the versions away that were made after the first `kept` ones, the last one first.
fn take_back(versions: &mut Vec<Version>, index: &mut Index, kept: usize)
    ensures versions { versions.new.items ≡ take kept versions.old.items }
    ensures index { IsIndexOf (idents versions.old.items) index.old → IsIndexOf (idents versions.new.items) index.new }
{
    while versions.len() > kept {
        let Some(version) = versions.pop() else {
            return;
        };
        index.pop(version.ident);
    }
}

// Whether the version holds at the moment.
fn is_held(version: &Version, moment: Moment) -> bool
    ensures { result ≡ holds_at moment version.now }
{
    if moment < version.since {
        return false;
    }
    match version.until {
        Some(until) => moment < until,
        None => true,
    }
}

// The versions that hold at the moment, in their order.
fn held_at(alloc: Global, versions: &[Version], moment: Moment) -> Result<Vec<&Version>, NoMemory>
    ensures { IfOk result (λ found. contents found.items ≡ filter (holds_at moment) versions.now) }
{
    let mut found = Vec::new(alloc);
    for version in versions {
        if is_held(version, moment) {
            found.push(version)?;
        }
    }
    Ok(found)
}

impl History {
    /// No versions. Takes no memory.
    pub fn new(alloc: Global) -> History
        ensures { result ≡ record { versions = []; kept = [] } }
    {
        History {
            versions: Vec::new(alloc),
            index: Index::new(alloc),
            ended: Vec::new(alloc),
            kept: 0,
        }
    }

    // The place of the version of the identification that was made last.
    fn last_place(&self, ident: Ident) -> Option<usize>
        ensures place { result ≡ last_place ident (idents self.now.versions) }
        ensures version { option_and_then (slice_get self.now.versions) result ≡ last_of ident self.now.versions }
        ensures within { IfSome result (λ place. place < length self.now.versions) }
        ensures sound { OnlyLastCurrent self.now.versions }
    {
        self.index.last(ident)
    }

    // The place of the current version of the identification. `Unknown` where it has none.
    fn current_place(&self, ident: Ident) -> Result<usize, HistoryFault>
        ensures ok { IfOk result (IsCurrentPlace ident self.now.versions) }
        ensures unknown { IfErr result (λ fault. (fault ≡ HistoryFault.Unknown (end_of (last_of ident self.now.versions))) × (current_of ident self.now.versions ≡ None)) }
    {
        let Some(place) = self.last_place(ident) else {
            return Err(HistoryFault::Unknown { ended: None });
        };
        let ended = self.versions[place].until;
        if ended.is_some() {
            return Err(HistoryFault::Unknown { ended });
        }
        Ok(place)
    }

    /// Adds a current version of what has none at the end of the list. Looks the identification up once.
    pub fn begin_next(
        &mut self,
        alloc: Global,
        holder: Holder,
        ident: Ident,
        item: &Item,
        since: Moment,
    ) -> Result<(), NoMemory>
        requires { current_of ident self.old.versions ≡ None }
        ensures ok { OnOk result (self.new.versions ≡ self.old.versions ++ new_version holder ident item.now since ∷ []) }
        ensures err { OnErr result (self.new.versions ≡ self.old.versions) }
        ensures kept { self.new.kept ≡ self.old.kept }
    {
        let version = Version {
            holder,
            ident,
            item: item.copy(alloc)?,
            since,
            until: None,
            end_day: None,
        };
        self.index.push(ident)?;
        let Ok(()) = self.versions.push(version) else {
            self.index.pop(ident);
            return Err(NoMemory);
        };
        Ok(())
    }

    /// Adds a current version at the end of the list.
    ///
    /// `Known` exactly where the identification has a current version.
    pub fn begin(
        &mut self,
        alloc: Global,
        holder: Holder,
        ident: Ident,
        item: &Item,
        since: Moment,
    ) -> Result<(), HistoryFault>
        ensures ok { OnOk result ((current_of ident self.old.versions ≡ None) × (self.new.versions ≡ self.old.versions ++ new_version holder ident item.now since ∷ [])) }
        ensures known { IsErrOf result HistoryFault.Known ↔ IsSome (current_of ident self.old.versions) }
        ensures not_unknown { IfErr result (λ fault. ¬ IsUnknown fault) }
        ensures err { OnErr result (self.new.versions ≡ self.old.versions) }
        ensures kept { self.new.kept ≡ self.old.kept }
    {
        if self.current_place(ident).is_ok() {
            return Err(HistoryFault::Known);
        }
        self.begin_next(alloc, holder, ident, item, since)?;
        Ok(())
    }

    /// Ends the current version of the identification, and the object with it where there is a day.
    ///
    /// `Unknown` exactly where the identification has no current version.
    pub fn end(
        &mut self,
        ident: Ident,
        until: Moment,
        end_day: Option<Day>,
    ) -> Result<(), HistoryFault>
        ensures ok { OnOk result (IsSome (current_of ident self.old.versions) × (self.new.versions ≡ ended_in ident until end_day self.old.versions)) }
        ensures unknown { (ended : Option ℤ) → IsErrOf result (HistoryFault.Unknown ended) → (current_of ident self.old.versions ≡ None) × (ended ≡ end_of (last_of ident self.old.versions)) }
        ensures none { current_of ident self.old.versions ≡ None → IsErrOf result (HistoryFault.Unknown (end_of (last_of ident self.old.versions))) }
        ensures not_known { IfErr result (λ fault. fault ≢ HistoryFault.Known) }
        ensures err { OnErr result (self.new.versions ≡ self.old.versions) }
        ensures kept { self.new.kept ≡ self.old.kept }
    {
        let place = self.current_place(ident)?;
        self.ended.push(place)?;
        close(&mut self.versions, place, until, end_day);
        Ok(())
    }

    /// From here on, `roll_back` gives back the list as it is now. Takes no memory.
    pub fn keep(&mut self)
        ensures { self.new ≡ record { versions = self.old.versions; kept = self.old.versions } }
    {
        self.ended.clear();
        self.kept = self.versions.len();
    }

    /// Gives back the list as it was at the last `keep`. Takes no memory.
    pub fn roll_back(&mut self)
        ensures { self.new ≡ record { versions = self.old.kept; kept = self.old.kept } }
    {
        reopen_all(&mut self.versions, &mut self.ended);
        take_back(&mut self.versions, &mut self.index, self.kept);
    }

    /// The current version of the identification.
    pub fn current(&self, ident: Ident) -> Option<&Version>
        ensures value { option_copied result ≡ current_of ident self.now.versions }
        ensures none { IsNone result ↔ (current_of ident self.now.versions ≡ None) }
        ensures newest { IsSome (current_of ident self.now.versions) → current_of ident self.now.versions ≡ last_of ident self.now.versions }
    {
        let Ok(place) = self.current_place(ident) else {
            return None;
        };
        Some(&self.versions[place])
    }

    /// The version of the identification that was made last.
    pub fn last(&self, ident: Ident) -> Option<&Version>
        ensures value { option_copied result ≡ last_of ident self.now.versions }
        ensures none { IsNone result ↔ (last_of ident self.now.versions ≡ None) }
    {
        let place = self.last_place(ident)?;
        Some(&self.versions[place])
    }

    /// The versions of the identification, in order of making. Linear in all versions.
    pub fn versions(&self, alloc: Global, ident: Ident) -> Result<Vec<&Version>, NoMemory>
        ensures { IfOk result (λ found. contents found.items ≡ versions_of ident self.now.versions) }
    {
        let mut found = Vec::new(alloc);
        for version in &self.versions {
            if version.ident == ident {
                found.push(version)?;
            }
        }
        Ok(found)
    }

    /// The versions that hold at the moment, by rising identification, and those of one identification in order of making.
    /// Looks at all versions, and sorts those that hold.
    pub fn at(&self, alloc: Global, moment: Moment) -> Result<Vec<&Version>, NoMemory>
        ensures { IfOk result (λ found. contents found.items ≡ versions_at moment self.now.versions) }
    {
        let mut found = held_at(alloc, &self.versions, moment)?;
        found.sort_by_key(|version| version.ident)?;
        Ok(found)
    }

    /// How many versions there are.
    pub fn count(&self) -> u64
        ensures { result ≡ length self.now.versions }
    {
        self.versions.len() as u64
    }

    /// The slice of all versions, in order of making. A current one was made last of its identification, and has no day
    /// on which its object ended.
    pub fn as_slice(&self) -> &[Version]
        ensures value { result.now ≡ self.now.versions }
        ensures sound { IsSoundHistory self.now.versions }
    {
        self.versions.as_slice()
    }
}
