//! A test map: a register in memory answers the generator's messages, and how that went is told in five lines.
//!
//! It touches neither input nor file. Time and memory are those of the register over these messages.

ghost use Rattle.std.specs.Prelude.{◌≡◌, ◌<◌, ◌^◌, ◌-◌, ℕ, IfOk, MatchOption, OnOk, string_bytes};
ghost use Rattle.std.specs.List.{All};
ghost use Rattle.outside.specs.Outside.{NoneFell, Rose};
ghost use Rattle.message_text.specs.Limits.{IsValid};
ghost use Rattle.map_rules.specs.Counted.{IsCounted};
ghost use Rattle.map_rules.specs.State.{opening};
ghost use Rattle.map_rules.specs.Steps.{Step};
ghost use Rattle.map_core.specs.Tried.{at_rest};
ghost use Rattle.map_maker.specs.Made.{IsCount};
ghost use Rattle.bgt_cli.specs.Query.{LeavesNothingNew};
ghost use Rattle.bgt_cli.specs.Trial.{EndsTrial, IsLeftBy, IsSize, IsTrialText};

use crate::status::Status;
use crate::stream::tell;
use map_core::{Answer, Core, CoreFault};
use map_maker::make;
use message_text::{Limits, Message};
use outside::Outside;
use rd_plane::NoMemory;
use std::alloc::Global;

/// The size that the word asks for. Takes no memory.
pub fn read_size(word: &str) -> Option<u32>
    ensures { MatchOption result ((n : ℕ) → ¬ IsSize word.now n) (IsSize word.now) }
{
    let bytes = word.as_bytes();
    if bytes.is_empty() {
        return None;
    }
    // A sign and a leading zero are no size.
    if bytes[0] <= b'0' {
        return None;
    }
    let Ok(size) = word.parse::<u32>() else {
        return None;
    };
    if size < 2 {
        return None;
    }
    if size > 400 {
        return None;
    }
    Some(size)
}

// Has the register answer one message.
fn answer_message(alloc: Global, core: &mut Core, message: &Message) -> Result<Answer, NoMemory>
    requires rest { core.old ≡ at_rest core.old.limits core.old.state }
    requires room { core.old.state.accepted < 2 ^ 64 - 1 }
    requires counted { IsCounted message.now }
    ensures step { IfOk result (λ answer. Step core.old.limits core.old.state message.now answer core.new.state) }
    ensures rest { OnOk result (core.new ≡ at_rest core.old.limits core.new.state) }
{
    match core.try_uncounted(alloc, message) {
        Ok(()) => {
            core.commit();
            Ok(Answer::Taken)
        }
        Err(CoreFault::Refused(refusal)) => Ok(Answer::Refused(refusal)),
        Err(CoreFault::NoMemory) => Err(NoMemory),
    }
}

// Has the empty register answer the messages.
fn answer_messages(alloc: Global, core: &mut Core, messages: &[Message]) -> Result<(), NoMemory>
    requires empty { core.old ≡ at_rest core.old.limits opening }
    requires counted { All IsCounted messages.now }
    ensures steps { OnOk result (IsLeftBy core.old.limits messages.now core.new.state) }
    ensures rest { OnOk result (core.new ≡ at_rest core.old.limits core.new.state) }
{
    for message in messages {
        let Ok(_) = answer_message(alloc, core, message) else {
            return Err(NoMemory);
        };
    }
    Ok(())
}

// What is told of the test map of this size.
fn trial_text(alloc: Global, limits: &Limits, size: u32) -> Result<String, NoMemory>
    requires valid { IsValid limits.now }
    requires size { IsCount size }
    ensures { IfOk result (λ text. IsTrialText limits.now size (string_bytes text)) }
{
    let Ok(messages) = make(alloc, size) else {
        return Err(NoMemory);
    };
    let mut core = Core::new(alloc, limits);
    let Ok(()) = answer_messages(alloc, &mut core, messages.as_slice()) else {
        return Err(NoMemory);
    };
    let accepted = core.accepted();
    let refused = messages.len() as u64 - accepted;
    let objects = core.objects();
    let versions = core.history().count();
    let Ok(text) = format!(in alloc;
        "TRIAL {size}\nACCEPTED {accepted}\nREFUSED {refused}\nOBJECTS {objects}\nVERSIONS {versions}\n"
    ) else {
        return Err(NoMemory);
    };
    Ok(text)
}

/// Has a register in memory answer the messages of the test map of this size, and tells how that went.
pub fn trial<O: Outside>(alloc: Global, limits: &Limits, size: u32, outside: &mut O) -> Status
    requires valid { IsValid limits.now }
    requires size { IsCount size }
    ensures ends { EndsTrial limits.now size result (O.shown outside.old) (O.shown outside.new) }
    ensures nothing_new { LeavesNothingNew O.leaves O.clock O.left outside.old outside.new }
    ensures write_fault { result ≡ Status.WriteFault → Rose (O.faults outside.old).writes (O.faults outside.new).writes }
    ensures counts { NoneFell (O.faults outside.old) (O.faults outside.new) }
{
    let Ok(text) = trial_text(alloc, limits, size) else {
        return Status::NoMemory;
    };
    match tell(outside, text.as_bytes()) {
        Ok(()) => Status::Good,
        Err(_) => Status::WriteFault,
    }
}
