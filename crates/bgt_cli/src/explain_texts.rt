//! The input of `explain`, piece by piece: each text has its reply as soon as it is whole, told before the next is looked at.

ghost use Rattle.std.specs.Prelude.{◌≡◌, ◌≤◌, ◌<◌, ◌+◌, ℕ, List, IfOk, IfErr, IsErrOf, OnOk, length};
ghost use Rattle.std.specs.Bool.{OnFalse, if◌then◌else◌};
ghost use Rattle.outside.specs.Outside.{NoneFell, Rose, Shown};
ghost use Rattle.line_feed.specs.Texts.{HasNoText};
ghost use Rattle.message_text.specs.Limits.{IsValid};
ghost use Rattle.map_rules.specs.State.{State};
ghost use Rattle.bgt_cli.specs.Query.{LeavesNothingNew};
ghost use Rattle.bgt_cli.specs.Trying.{HasEnded, IsAllRead, IsReady, UnderWay};

use crate::reading::take_piece;
use crate::replies::reply_to;
use crate::session::{Session, are_taken};
use crate::status::Status;
use crate::stream::tell;
use map_core::Core;
use message_text::Limits;
use outside::Outside;
use std::alloc::Global;

// Answers the next text, if one is whole, and tells its reply before anything else is looked at. Answers whether one was.
fn explain_next<O: Outside>(
    alloc: Global,
    limits: &Limits,
    session: &mut Session,
    core: &mut Core,
    outside: &mut O,
) -> Result<bool, Status>
    requires valid { IsValid limits.now }
    requires ready { IsReady limits.now session.old core.old }
    ensures ready { OnOk result (IsReady limits.now session.new core.new) }
    ensures few { OnOk result (session.new.answered + length session.new.feed.left ≤ session.old.answered + length session.old.feed.left) }
    ensures fewer { IfOk result (λ more. length session.new.feed.left + (if more then 1 else 0) ≤ length session.old.feed.left) }
    ensures none { IfOk result (λ more. OnFalse more (HasNoText session.new.feed.left (length session.new.feed.left))) }
    ensures under_way { OnOk result ((start : State) (first : Shown) (may : ℕ) → UnderWay limits.now start first may session.old core.old.state (O.shown outside.old)
        → UnderWay limits.now start first may session.new core.new.state (O.shown outside.new)) }
    ensures ended { IfErr result (λ status. (start : State) (first : Shown) (may : ℕ) → UnderWay limits.now start first may session.old core.old.state (O.shown outside.old)
        → HasEnded limits.now start first (O.shown outside.new) status) }
    ensures nothing_new { LeavesNothingNew O.leaves O.clock O.left outside.old outside.new }
    ensures read_fault { IsErrOf result Status.ReadFault → ⊥ }
    ensures write_fault { IsErrOf result Status.WriteFault → Rose (O.faults outside.old).writes (O.faults outside.new).writes }
    ensures disk_fault { IsErrOf result Status.DiskFault → ⊥ }
    ensures counts { NoneFell (O.faults outside.old) (O.faults outside.new) }
{
    let framed = match session.feed.next_text(alloc) {
        Ok(Some(framed)) => framed,
        Ok(None) => return Ok(false),
        Err(_) => return Err(Status::NoMemory),
    };
    let Ok(reply) = reply_to(alloc, limits, core, session.answered + 1, &framed) else {
        return Err(Status::NoMemory);
    };
    let Ok(()) = tell(outside, reply.told.as_slice()) else {
        return Err(Status::WriteFault);
    };
    session.answered += 1;
    session.all_taken = are_taken(session.all_taken, &reply.answer);
    Ok(true)
}

// Answers all texts that are whole, each by its reply before the next is looked at.
fn explain_texts<O: Outside>(
    alloc: Global,
    limits: &Limits,
    session: &mut Session,
    core: &mut Core,
    outside: &mut O,
) -> Result<(), Status>
    requires valid { IsValid limits.now }
    requires ready { IsReady limits.now session.old core.old }
    ensures ready { OnOk result (IsReady limits.now session.new core.new) }
    ensures few { OnOk result (session.new.answered + length session.new.feed.left ≤ session.old.answered + length session.old.feed.left) }
    ensures none { OnOk result (HasNoText session.new.feed.left (length session.new.feed.left)) }
    ensures under_way { OnOk result ((start : State) (first : Shown) (may : ℕ) → UnderWay limits.now start first may session.old core.old.state (O.shown outside.old)
        → UnderWay limits.now start first may session.new core.new.state (O.shown outside.new)) }
    ensures ended { IfErr result (λ status. (start : State) (first : Shown) (may : ℕ) → UnderWay limits.now start first may session.old core.old.state (O.shown outside.old)
        → HasEnded limits.now start first (O.shown outside.new) status) }
    ensures nothing_new { LeavesNothingNew O.leaves O.clock O.left outside.old outside.new }
    ensures read_fault { IsErrOf result Status.ReadFault → ⊥ }
    ensures write_fault { IsErrOf result Status.WriteFault → Rose (O.faults outside.old).writes (O.faults outside.new).writes }
    ensures disk_fault { IsErrOf result Status.DiskFault → ⊥ }
    ensures counts { NoneFell (O.faults outside.old) (O.faults outside.new) }
{
    let mut more = true;
    while more {
        match explain_next(alloc, limits, session, core, outside) {
            Ok(next) => more = next,
            Err(status) => return Err(status),
        }
    }
    Ok(())
}

/// Takes the input to its end, or as many bytes of it as the limit allows, and answers its texts.
pub fn explain_pieces<O: Outside>(
    alloc: Global,
    limits: &Limits,
    session: &mut Session,
    piece: &mut [u8],
    core: &mut Core,
    outside: &mut O,
) -> Result<(), Status>
    requires valid { IsValid limits.now }
    requires buffer { 0 < length piece.old }
    requires ready { IsReady limits.now session.old core.old }
    requires empty { session.old.answered + length session.old.feed.left ≡ 0 }
    requires none { HasNoText session.old.feed.left (length session.old.feed.left) }
    ensures whole { OnOk result ((start : State) (first : Shown) → UnderWay limits.now start first limits.now.input_bytes session.old core.old.state (O.shown outside.old)
        → IsAllRead limits.now start first session.new core.new.state (O.shown outside.new)) }
    ensures ended { IfErr result (λ status. (start : State) (first : Shown) → UnderWay limits.now start first limits.now.input_bytes session.old core.old.state (O.shown outside.old)
        → HasEnded limits.now start first (O.shown outside.new) status) }
    ensures nothing_new { LeavesNothingNew O.leaves O.clock O.left outside.old outside.new }
    ensures read_fault { IsErrOf result Status.ReadFault → Rose (O.faults outside.old).reads (O.faults outside.new).reads }
    ensures write_fault { IsErrOf result Status.WriteFault → Rose (O.faults outside.old).writes (O.faults outside.new).writes }
    ensures disk_fault { IsErrOf result Status.DiskFault → ⊥ }
    ensures counts { NoneFell (O.faults outside.old) (O.faults outside.new) }
{
    let mut left = limits.input_bytes;
    while left > 0 {
        let most = left.min(piece.len() as u64) as usize;
        let n = match take_piece(outside, &mut piece[..most], session) {
            Ok(n) => n,
            Err(status) => return Err(status),
        };
        if n == 0 {
            return Ok(());
        }
        left -= n as u64;
        if let Err(status) = explain_texts(alloc, limits, session, core, outside) {
            return Err(status);
        }
    }
    Err(Status::InputLong)
}
