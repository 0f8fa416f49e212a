//! Where the file is never full, where nothing is refused, that a bad file has one line, and that the register stays tiled.

ghost use Rattle.std.specs.Prelude.{◌≡◌, ℕ, List, ◌++◌, ◌≤◌, length, take, Option};
ghost use Rattle.outside.specs.Outside.{Shown};
ghost use Rattle.message_text.specs.declared.limits.Limits.{Limits};
ghost use Rattle.message_text.specs.declared.message.Message.{Message};
ghost use Rattle.map_rules.specs.State.{State, opening};
ghost use Rattle.map_store.specs.Stands.{Stands};
ghost use Rattle.bgt_cli.specs.declared.status.Status.{Status};
ghost use Rattle.bgt_cli.specs.declared.status.Status.TheVariants as status;
ghost use Rattle.bgt_cli.specs.Clause.{EndsCheck};
ghost use Rattle.bgt_cli.specs.Headline.{KeepsTiled};
ghost use Rattle.bgt_cli.specs.Load.{EndsLoad, FileStands, IsBadLine};
ghost use Rattle.bgt_cli.specs.Room.{AllTaken, HasRoom};
ghost use Rattle.bgt_cli.specs.Stream.{Goes, GoesWithDisk};

use map_rules::laws::{opening_is_good, run_stays_tiled, step_is_good};
use map_rules::run_laws::{one_answer, one_run};
use map_store::laws::one_fault;
use message_text::laws::one_canonical_text;

/// Where the records of the file, and of all that is taken of the input, have room, no run of `load` ends for lack of it.
pub fn never_full()
    ensures { (limits : Limits) (state : State) (first kept : List Message) (input told : List ℕ) (n gate : ℕ) (disk : Option (List ℕ)) → EndsLoad limits state input (take n input) told kept gate status.JournalFull → FileStands limits status.JournalFull gate disk (first ++ kept)
        → HasRoom limits state first input → ⊥ }
{
    one_answer();
    one_canonical_text();
}

/// Where each text of the input is taken and no tail is left, no run ends with a refusal.
pub fn no_refusal()
    ensures load { (limits : Limits) (state : State) (kept : List Message) (input told : List ℕ) (n gate : ℕ) → EndsLoad limits state input (take n input) told kept gate status.Refused
        → AllTaken limits state input → ⊥ }
    ensures check { (limits : Limits) (input told : List ℕ) (n : ℕ) → EndsCheck limits input (take n input) told status.Refused → AllTaken limits opening input → ⊥ }
{
    one_run();
}

/// However `check` and `load` end, each text that was answered was answered exactly, and the register stayed tiled.
pub fn stays_tiled()
    ensures check { (limits : Limits) (input told : List ℕ) (n : ℕ) (ends : Status) (old new : Shown) → n ≤ length input → Goes n told old new → EndsCheck limits input (take n input) told ends
        → KeepsTiled limits opening input (λ n told. Goes n told old new) }
    ensures load { (limits : Limits) (file : List ℕ) (first kept : List Message) (state : State) (input told : List ℕ) (n gate : ℕ) (ends : Status) (old new : Shown) → Stands limits file first state
        → n ≤ length input → GoesWithDisk n told old new → EndsLoad limits state input (take n input) told kept gate ends → KeepsTiled limits state input (λ n told. GoesWithDisk n told old new) }
{
    opening_is_good();
    step_is_good();
    run_stays_tiled();
}

/// A file that stands for no list has one line.
pub fn one_bad_line()
    ensures { (limits : Limits) (file line other : List ℕ) → IsBadLine limits file line → IsBadLine limits file other → line ≡ other }
{
    one_fault();
}
