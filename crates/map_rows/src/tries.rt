//! Messages that are tried on one counter.

ghost use Rattle.std.specs.Prelude.{◌≡◌, ◌≤◌, ◌<◌, ◌+◌, ◌-◌, ◌*◌, ◌^◌, None};
ghost use Rattle.map_rules.specs.Costs.{edges_changed};
ghost use Rattle.map_rules.specs.Counted.{IsCounted};

use edge_arena::Steps;
use map_core::Core;
use message_text::Message;
use std::alloc::Global;
use std::sync::ledger::Ledger;

// Whether the message is tried; it is given up again.
fn try_one<L: Ledger>(
    core: &mut Core,
    alloc: Global,
    message: &Message,
    steps: &mut Steps<L>,
) -> bool
    requires untried { core.old.tried ≡ None }
    requires room { core.old.state.accepted < 2 ^ 64 - 1 }
    requires counted { IsCounted message.now }
    ensures as_before { core.new ≡ core.old }
    ensures cost { steps.new ≤ steps.old + 12 * edges_changed core.old.state message.now }
{
    match core.try_message(alloc, message, steps) {
        Ok(()) => {
            core.abandon();
            true
        }
        Err(_) => false,
    }
}

/// Whether each of two messages is tried, on one counter; each is given up again. The steps are at most those of the one and
/// those of the other.
pub fn try_both<L: Ledger>(
    core: &mut Core,
    alloc: Global,
    one: &Message,
    other: &Message,
    steps: &mut Steps<L>,
) -> (bool, bool)
    requires untried { core.old.tried ≡ None }
    requires room { core.old.state.accepted < 2 ^ 64 - 1 }
    requires one { IsCounted one.now }
    requires other { IsCounted other.now }
    ensures as_before { core.new ≡ core.old }
    ensures cost { steps.new ≤ steps.old + 12 * edges_changed core.old.state one.now + 12 * edges_changed core.old.state other.now }
{
    let first = try_one(core, alloc, one, steps);
    let second = try_one(core, alloc, other, steps);
    (first, second)
}
