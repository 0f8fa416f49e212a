//! A text has one answer, and a run over texts one outcome.

ghost use Rattle.std.specs.Prelude.{◌≡◌, ℕ, List};
ghost use Rattle.message_text.specs.declared.limits.Limits.{Limits};
ghost use Rattle.map_rules.specs.declared.refusal.Answer.{Answer};
ghost use Rattle.map_rules.specs.Runs.{AnswersText, Run};
ghost use Rattle.map_rules.specs.State.{State};

use crate::laws::one_decision;

/// A text has one answer, and leaves one state.
pub fn one_answer()
    ensures { (limits : Limits) (old : State) (text : List ℕ) (a b : Answer) (x y : State) → AnswersText limits old text a x → AnswersText limits old text b y → (a ≡ b) × (x ≡ y) }
{
    one_decision();
}

/// Texts that are answered one after another have one row of answers, and leave one state.
pub fn one_run()
    ensures { (limits : Limits) (old : State) (texts : List (List ℕ)) (answers others : List Answer) (x y : State) → Run limits old texts answers x → Run limits old texts others y → (answers ≡ others) × (x ≡ y) }
{
    one_decision();
}
