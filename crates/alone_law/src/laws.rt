//! What a holder's answers and maps depend on.

ghost use Rattle.std.specs.Prelude.{◌≡◌, ◌≢◌, [], ℕ, List, map, Option, Some, None, Result, Ok, Err};
ghost use Rattle.std.specs.List.{All, flat_map};
ghost use Rattle.message_text.specs.declared.limits.Limits.{Limits};
ghost use Rattle.message_text.specs.declared.message.Message.{Message};
ghost use Rattle.version_history.specs.declared.version.Version.{Version};
ghost use Rattle.map_rules.specs.After.{after, begun};
ghost use Rattle.map_rules.specs.Rules.{MutationsRule};
ghost use Rattle.map_rules.specs.Good.{Good};
ghost use Rattle.map_rules.specs.State.{State, opening};
ghost use Rattle.map_rules.specs.Passing.{Passes};
ghost use Rattle.alone_law.specs.Agreeing.{AgreeOn, AreAtHome, IsLocal};
ghost use Rattle.alone_law.specs.Handing.{Joint, KeepsOff, after_joint, begun_by};
ghost use Rattle.alone_law.specs.Handing.Deed.{alone};
ghost use Rattle.alone_law.specs.Judging.{Cause, Judged, full_holders, full_objects, no_holder_more};
ghost use Rattle.alone_law.specs.Replaying.{IsHolderAlone, IsReplay, LookAlike, Opens, own_messages, replayed};
ghost use Rattle.alone_law.specs.Running.{AreAlike, Event, IsIsolated, RunsTexts, plain_events};

use part_shape::laws::{one_note, sound_shapes_have_no_note};

/// A message that no rule refuses passes, so what holds at every moment still holds after it.
pub fn judged_passes()
    ensures { (limits : Limits) (s : State) (m : Message) → Judged limits s m None → Passes s m }
{}

/// A message that passes is refused by no rule, where there is room.
pub fn passing_is_judged()
    ensures { (limits : Limits) (s : State) (m : Message) → Passes s m → full_holders limits s m ≡ None → full_objects limits s m ≡ None → Judged limits s m None }
{}

/// Of a holder on which two states agree, they show the same: its map at each moment, its versions, its areas.
pub fn agreeing_look_alike()
    ensures { (holder : List ℕ) (s t : State) → AgreeOn holder s t → LookAlike holder s t }
{}

/// The same message, of whatever holder, keeps states that agree on a holder in agreement.
pub fn same_message_keeps_agreement()
    ensures { (holder : List ℕ) (s t : State) (m : Message) → AgreeOn holder s t → AgreeOn holder (after s m) (after t m) }
{}

/// A message of another holder that is taken, and begins no object with the holder's code, leaves what a state has of the holder.
pub fn others_message_leaves_holder()
    ensures { (limits : Limits) (holder : List ℕ) (s : State) (m : Message) → AreAtHome holder s → m.holder ≢ holder → IsLocal holder m → Judged limits s m None → AgreeOn holder s (after s m) }
{}

/// A message of two other holders, which may hand objects over between them, leaves what a state has of the holder.
pub fn joint_message_leaves_third()
    ensures { (holder : List ℕ) (s : State) (j : Joint) → AreAtHome holder s → j.own ≢ holder → j.other ≢ holder → All (KeepsOff holder j.own j.other s.versions) j.deeds → AgreeOn holder s (after_joint s j) × AreAtHome holder (after_joint s j) }
{}

/// Where a change leaves the object with the holder of its kept version, a message of one holder begins what it begins where the change takes
/// the message's holder.
pub fn change_leaves_own_holder()
    ensures { (versions : List Version) (m : Message) → MutationsRule versions m [] m.mutations None → flat_map (begun_by m.holder m.holder m.moment versions) (map alone m.mutations) ≡ flat_map (begun m.holder m.moment) m.mutations }
{}

/// By the rules as they are, without objects that are handed over, each message that is taken is local to each holder.
pub fn taken_messages_are_local()
    ensures { (limits : Limits) (holder : List ℕ) (s : State) (m : Message) → AreAtHome holder s → Judged limits s m None → IsLocal holder m }
{}

/// So are all messages that are taken one after another: nothing is foreign to any holder.
pub fn replays_are_local()
    ensures { (limits : Limits) (holder : List ℕ) (ms : List Message) → IsReplay limits opening ms → All (IsLocal holder) ms }
{}

/// A local message that is taken leaves identifications with their holder.
pub fn local_message_keeps_home()
    ensures { (limits : Limits) (holder : List ℕ) (s : State) (m : Message) → AreAtHome holder s → IsLocal holder m → Judged limits s m None → AreAtHome holder (after s m) }
{}

/// Two states that agree on a holder decide alike on its local messages without area block, room for holders aside.
pub fn agreeing_decide_alike()
    ensures { (limits : Limits) (s t : State) (m : Message) (answer : Option Cause) → AgreeOn m.holder s t → IsLocal m.holder m → m.area ≡ None → answer ≢ Some no_holder_more → (Judged limits t m (Some no_holder_more) → ⊥)
        → Judged limits s m answer → Judged limits t m answer }
{}

/// A message has one decision.
pub fn one_answer()
    ensures { (limits : Limits) (s : State) (m : Message) (a b : Option Cause) → Judged limits s m a → Judged limits s m b → a ≡ b }
{
    one_note();
    sound_shapes_have_no_note();
}

/// A holder's answers, and what is seen of it, depend on its own messages alone, where messages are local to it, of those with an
/// area block the same are taken, and it is never refused because the register has no room for one more holder.
pub fn holders_are_isolated()
    ensures { (limits : Limits) (holder : List ℕ) (texts others : List (List ℕ)) (es fs : List Event) (s t : State) → RunsTexts limits opening texts es s → RunsTexts limits opening others fs t → IsIsolated holder es → IsIsolated holder fs → AreAlike holder es fs
        → (plain_events holder es ≡ plain_events holder fs) × AgreeOn holder s t × LookAlike holder s t }
{
    one_answer();
}

/// Where messages that are all taken are local to a holder, its own alone are taken too, and leave of it what all leave.
pub fn own_messages_are_enough()
    ensures { (limits : Limits) (holder : List ℕ) (ms : List Message) → IsReplay limits opening ms → All (IsLocal holder) ms → IsReplay limits opening (own_messages holder ms) × AgreeOn holder (replayed opening ms) (replayed opening (own_messages holder ms)) }
{}

/// Messages that are all taken leave all right at every moment.
pub fn replayed_is_good()
    ensures { (limits : Limits) (ms : List Message) (s : State) → Good s → IsReplay limits s ms → Good (replayed s ms) }
{}

/// What opening the records for one holder gives is that holder alone.
pub fn opened_is_alone()
    ensures { (limits : Limits) (holder : List ℕ) (ms : List Message) (s : State) → IsReplay limits opening ms → Opens ms holder (Ok s) → IsHolderAlone limits ms holder s }
{}
