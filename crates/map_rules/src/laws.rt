//! What holds at every moment, that a message keeps it, and that a message has one decision.

ghost use Rattle.std.specs.Prelude.{◌≡◌, ◌≢◌, ◌+◌, ◌<◌, ◌^◌, [], ℕ, IfSome, List, Option, None, Some, length};
ghost use Rattle.std.specs.List.{All};
ghost use Rattle.rd_plane.specs.Covering.{IsSoundArea};
ghost use Rattle.rd_plane.specs.Shapes.{IsSoundShape};
ghost use Rattle.local_check.specs.declared.fault.MapFault.{MapFault};
ghost use Rattle.local_check.specs.Maps.{HolderParts, IsRightChange, changed, ground_of};
ghost use Rattle.local_check.specs.MapRules.{IsRightMap, MapRule};
ghost use Rattle.message_text.specs.declared.limits.Limits.{Limits};
ghost use Rattle.message_text.specs.declared.message.Message.{Message};
ghost use Rattle.map_rules.specs.After.{after};
ghost use Rattle.map_rules.specs.Changes.{change_of};
ghost use Rattle.map_rules.specs.declared.refusal.Answer.{Answer};
ghost use Rattle.map_rules.specs.declared.refusal.Refusal.{Refusal};
ghost use Rattle.map_rules.specs.Good.{Good, IsSound};
ghost use Rattle.map_rules.specs.Rules.{AreaRule, MapRules, MutationsRule, refusal_by, stale_area, stale_message};
ghost use Rattle.map_rules.specs.Runs.{Run};
ghost use Rattle.map_rules.specs.State.{State, map_now, opening, parts_now};
ghost use Rattle.map_rules.specs.Steps.{Decision, Step};
ghost use Rattle.map_rules.specs.Tiled.{IsExact, StaysTiled, TiledThroughout};

use chain_cancel::laws::{cancel_implies_tiled, tiled_implies_cancel};
use part_shape::laws::{one_note, sound_shapes_have_no_note};

/// All is right at every moment where nothing was accepted.
pub fn opening_is_good()
    ensures { Good opening }
{}

/// Where all is right at every moment, it is so once a message was taken.
pub fn step_is_good()
    ensures { (limits : Limits) (s : State) (m : Message) → Good s → Decision limits s m None → Good (after s m) }
{}

/// The opening state is sound, and so is the state that a message leaves which is taken: all is right at every moment, items are
/// right by the catalogue, and no holder has more current objects than it may.
pub fn step_is_sound()
    ensures opening { (limits : Limits) → IsSound limits opening }
    ensures step { (limits : Limits) (s : State) (m : Message) → IsSound limits s → Decision limits s m None → IsSound limits (after s m) }
{}

/// All stays right at every moment through each row of texts, whatever their answers.
pub fn run_is_good()
    ensures { (limits : Limits) (s : State) (texts : List (List ℕ)) (answers : List Answer) (t : State) → Good s → Run limits s texts answers t → Good t }
{}

/// Where all is right at every moment, the maps tile their areas at every moment.
pub fn good_is_tiled()
    ensures { (s : State) → Good s → TiledThroughout s }
{}

/// A message that breaks no other rule is accepted exactly where its holder's whole new map is tiled.
pub fn step_is_exact()
    ensures { (limits : Limits) (s : State) (m : Message) (answer : Answer) (t : State) → Step limits s m answer t → IsExact limits s m answer }
{
    one_decision();
}

/// Through each row of texts the maps tile their areas at every moment, and each message is answered exactly.
pub fn run_stays_tiled()
    ensures { (limits : Limits) (s : State) (texts : List (List ℕ)) (answers : List Answer) (t : State) → Good s → Run limits s texts answers t → StaysTiled limits s texts answers }
{
    step_is_exact();
}

/// Where all is right at every moment, the current map of each holder is.
pub fn now_is_right()
    ensures { (s : State) (holder : List ℕ) → Good s → IsRightMap (map_now holder s) }
{}

/// The current map that a message leaves is the one that its change makes of the map before.
pub fn change_makes_after()
    ensures { (s : State) (m : Message) → map_now m.holder (after s m) ≡ changed (change_of m) (map_now m.holder s) }
{}

/// So many objects the holder of a message has once its mutations are applied: those that it had and those that come, less those that leave.
pub fn objects_are_counted()
    ensures { (s : State) (m : Message) → Good s → MutationsRule s.versions m [] m.mutations None
        → length (parts_now m.holder (after s m).versions) + length (change_of m).leaving ≡ length (parts_now m.holder s.versions) + length (change_of m).coming }
{}

/// A message leaves the current map of each other holder.
pub fn others_stay()
    ensures { (limits : Limits) (s : State) (m : Message) (holder : List ℕ) → Good s → Decision limits s m None → holder ≢ m.holder → map_now holder (after s m) ≡ map_now holder s }
{}

/// The change of a message that the rules of moments, mutations and areas let pass is such as its holder's map asks for.
pub fn ruled_change_is_right()
    ensures { (s : State) (m : Message) → Good s → stale_message s.last m ≡ None → stale_area s.areas m ≡ None → MutationsRule s.versions m [] m.mutations None
        → AreaRule s.areas m.holder m.area None → length (parts_now m.holder s.versions) + length (change_of m).coming < 2 ^ 32
        → IsRightChange (map_now m.holder s) (change_of m) }
{}

/// The map that such a message leaves its holder has a sound area and sound parts.
pub fn ruled_map_is_sound()
    ensures { (s : State) (m : Message) → Good s → MutationsRule s.versions m [] m.mutations None → AreaRule s.areas m.holder m.area None
        → IsSoundArea (map_now m.holder (after s m)).area × All IsSoundShape (ground_of (map_now m.holder (after s m)).parts) }
{}

/// What is found of a map by edges that cancel, the register's rules say of it, with points that are covered.
pub fn checked_is_ruled()
    ensures taken { (m : HolderParts) → IsSoundArea m.area → All IsSoundShape (ground_of m.parts) → MapRule m None → MapRules m None }
    ensures refused { (m : HolderParts) (f : MapFault) → IsSoundArea m.area → All IsSoundShape (ground_of m.parts) → MapRule m (Some f) → IfSome (refusal_by f) (λ r. MapRules m (Some r)) }
{
    cancel_implies_tiled();
    tiled_implies_cancel();
}

/// A message is taken, or refused for one reason, and not both.
pub fn one_decision()
    ensures { (limits : Limits) (s : State) (m : Message) (a b : Option Refusal) → Decision limits s m a → Decision limits s m b → a ≡ b }
{
    one_note();
    sound_shapes_have_no_note();
}
