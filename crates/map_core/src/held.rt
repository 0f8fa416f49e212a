//! What the register has, and how a tried message becomes a part of it or leaves it.

ghost use Rattle.std.specs.Prelude.{◌≡◌, false, ◌+◌, ◌<◌, ◌^◌, ℕ, List, IfNone, IfOk, OnOk};
ghost use Rattle.map_rules.specs.State.{opening};
ghost use Rattle.map_core.specs.Maps.{AreAtRest, AreMapsOf, AreTriedMaps, map_in};
ghost use Rattle.map_core.specs.Tried.{HasRoom, IsAtRest, IsBookReady, IsTriedOf, next_state, state_of};

use crate::last::set_last;
use crate::maps::{HolderMaps, give_up_map, keep_map};
use crate::tried::Tried;
use area_book::AreaBook;
use map_rules::LastMessage;
use message_text::Message;
use rd_plane::NoMemory;
use std::alloc::Global;
use version_history::History;

/// What the register has. `state_of` of it is the state, in which the versions are those of the last `keep`.
#[derive(Drop)]
pub struct Held {
    /// The versions of objects. While a message is tried its mutations are in them.
    pub history: History,
    /// The versions of areas. While a message is tried its area block is in them.
    pub areas: AreaBook,
    /// The current map of each holder. While a message is tried, so is its holder's new map.
    pub maps: HolderMaps,
    /// The moment of each holder's last accepted message.
    pub last: Vec<LastMessage>,
    /// How many messages were accepted.
    pub accepted: u64,
}

// The versions of areas as they are now are kept. Nothing is done where the message had no area block.
fn keep_areas(areas: &mut AreaBook, has_area: bool)
    requires { has_area ≡ false → areas.old.areas ≡ areas.old.kept }
    ensures kept { areas.new.kept ≡ areas.old.areas }
    ensures areas { areas.new.areas ≡ areas.old.areas }
{
    if has_area {
        areas.keep();
    }
}

impl Held {
    /// Nothing. Takes no memory.
    pub fn new(alloc: Global) -> Held
        ensures state { state_of result ≡ opening }
        ensures rest { IsAtRest result }
        ensures maps { AreMapsOf opening result.maps × AreAtRest result.maps }
    {
        Held {
            history: History::new(alloc),
            areas: AreaBook::new(alloc),
            maps: HolderMaps::new(alloc),
            last: Vec::new(alloc),
            accepted: 0,
        }
    }

    /// What `keep` will want of the message, with room for it.
    pub fn prepare(&mut self, message: &Message) -> Result<Tried, NoMemory>
        ensures tried { IfOk result (IsTriedOf message.now) }
        ensures room { OnOk result (HasRoom self.new) }
        ensures history { self.new.history ≡ self.old.history }
        ensures areas { self.new.areas ≡ self.old.areas }
        ensures maps { self.new.maps ≡ self.old.maps }
        ensures state { state_of self.new ≡ state_of self.old }
    {
        self.last.reserve(1)?;
        Ok(Tried {
            header: message.header(),
            has_area: message.area.is_some(),
        })
    }

    /// The versions as they are now, and the rest of the tried message, become the state. Takes no memory. A message
    /// without an area block costs the book of areas nothing.
    pub fn keep(&mut self, tried: Tried)
        requires room { HasRoom self.old }
        requires book { IsBookReady self.old tried }
        requires maps { AreTriedMaps (state_of self.old) (next_state self.old tried) tried.header.holder self.old.maps }
        requires count { self.old.accepted + 1 < 2 ^ 64 }
        ensures state { state_of self.new ≡ next_state self.old tried }
        ensures rest { IsAtRest self.new }
        ensures maps { AreMapsOf (next_state self.old tried) self.new.maps × AreAtRest self.new.maps }
    {
        let Tried { header, has_area } = tried;
        keep_map(&mut self.maps, header.holder);
        self.history.keep();
        set_last(&mut self.last, &header);
        keep_areas(&mut self.areas, has_area);
        self.accepted += 1;
    }

    /// The versions become again what they were at the last `keep`, also where mutations were applied and then one was
    /// refused. Takes no memory. No map may be tried.
    pub fn roll_back(&mut self)
        ensures state { state_of self.new ≡ state_of self.old }
        ensures rest { IsAtRest self.new }
        ensures maps { self.new.maps ≡ self.old.maps }
    {
        self.history.roll_back();
        self.areas.roll_back();
    }

    /// A tried message is given up: the versions, and the map of its holder, are again as they were. Takes no memory.
    pub fn give_up(&mut self, tried: &Tried)
        requires { AreTriedMaps (state_of self.old) (next_state self.old tried.now) tried.now.header.holder self.old.maps }
        ensures state { state_of self.new ≡ state_of self.old }
        ensures rest { IsAtRest self.new }
        ensures maps { AreMapsOf (state_of self.old) self.new.maps × AreAtRest self.new.maps }
    {
        self.roll_back();
        give_up_map(&mut self.maps, tried.header.holder);
    }
}
