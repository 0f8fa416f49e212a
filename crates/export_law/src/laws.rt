//! What each state has that texts lead to, and that the exported map of such a state loads back.

ghost use Rattle.std.specs.Prelude.{◌≡◌, ℕ, ℤ, [], List, None, length, replicate};
ghost use Rattle.line_feed.specs.Texts.{AreTexts};
ghost use Rattle.message_text.specs.declared.limits.Limits.{Limits};
ghost use Rattle.message_text.specs.declared.message.Message.{Message};
ghost use Rattle.map_rules.specs.declared.refusal.Answer.{Answer};
ghost use Rattle.map_rules.specs.declared.refusal.Answer.TheVariants.{Taken};
ghost use Rattle.map_rules.specs.After.{after};
ghost use Rattle.map_rules.specs.Runs.{Run};
ghost use Rattle.map_rules.specs.State.{State, opening};
ghost use Rattle.map_rules.specs.Steps.{Decision};
ghost use Rattle.moment_query.specs.Exports.{IsExportText};
ghost use Rattle.export_law.specs.Kept.{IsKept};
ghost use Rattle.export_law.specs.Loaded.{AreExported, IsMapThen, LoadsBack};

use map_rules::run_laws::one_run;

/// Where nothing was accepted, and after each message that is taken: all is right at every moment, identifications name their holders,
/// no object began later than the day of its registration, and at no moment there is more than may be.
pub fn step_is_kept()
    ensures opening { (limits : Limits) → IsKept limits opening }
    ensures step { (limits : Limits) (s : State) (m : Message) → IsKept limits s → Decision limits s m None → IsKept limits (after s m) }
{}

/// So it is through each row of texts, whatever their answers.
pub fn run_is_kept()
    ensures { (limits : Limits) (texts : List (List ℕ)) (answers : List Answer) (s : State) → Run limits opening texts answers s → IsKept limits s }
{}

/// The bytes of an export are cut into the texts of its messages, and nothing follows them.
pub fn export_is_cut()
    ensures { (s : State) (moment : ℤ) (bytes : List ℕ) (export : IsExportText s moment bytes) → AreTexts bytes export.texts [] }
{}

/// Of a state of which that holds, the exported messages of a moment are all taken from the beginning, where none passes a limit on
/// texts. The map that they leave is that of the moment, and exported at the moment it is the same messages again.
pub fn kept_loads_back()
    ensures { (limits : Limits) (s : State) → IsKept limits s → (moment : ℤ) (texts : List (List ℕ)) → AreExported limits s moment texts
        → LoadsBack limits s moment texts }
{}

/// So do the exported messages of a state that texts led to.
pub fn export_loads_back()
    ensures { (limits : Limits) (before : List (List ℕ)) (answers : List Answer) (s : State) → Run limits opening before answers s
        → (moment : ℤ) (texts : List (List ℕ)) → AreExported limits s moment texts → LoadsBack limits s moment texts }
{}

/// Whoever runs such texts from the beginning is answered so, and has that map.
pub fn each_load_is_the_map()
    ensures { (limits : Limits) (before : List (List ℕ)) (answers : List Answer) (s : State) → Run limits opening before answers s
        → (moment : ℤ) (texts : List (List ℕ)) → AreExported limits s moment texts → (told : List Answer) (new : State) → Run limits opening texts told new
        → (told ≡ replicate (length texts) Taken) × IsMapThen s moment new }
{
    one_run();
}
