//! What `explain` tells of a text: its reply line, and after one that says that a map is not tiled the line that says why. Both are
//! made before the first is told.

ghost use Rattle.std.specs.Prelude.{◌≡◌, ◌≤◌, ◌<◌, ◌+◌, ◌-◌, ◌^◌, ◌++◌, ℕ, List, false, None, Some, IfOk, MatchOption, OnOk, length};
ghost use Rattle.message_text.specs.Limits.{IsValid};
ghost use Rattle.map_rules.specs.Counted.{IsCounted};
ghost use Rattle.map_rules.specs.Steps.{Decision, Step};
ghost use Rattle.map_rules.specs.declared.refusal.Answer.TheVariants as answer_is;
ghost use Rattle.map_rules.specs.declared.refusal.Refusal.TheVariants as refusal_is;
ghost use Rattle.map_core.specs.Replies.{IsReplyLine};
ghost use Rattle.map_core.specs.Untiled.{IsUntiled};
ghost use Rattle.bgt_cli.specs.Explain.{IsExplanation, IsReplyWith, is_untiled};
ghost use Rattle.bgt_cli.specs.Session.{IsAnswerTo, IsFramed, IsWithin};
ghost use Rattle.bgt_cli.specs.Trying.{IsReply};

use crate::fault_line::fault_line;
use crate::session::unread;
use fault_point::explain;
use line_feed::Framed;
use map_core::{Answer, Core, CoreFault, Refusal, reply_line};
use message_text::{Limits, Message, TextFault, read_message};
use rd_plane::{Edge, NoMemory, Text};
use std::alloc::Global;

/// The answer to a text, and all that is told of it.
#[derive(Drop)]
pub struct Reply {
    pub answer: Answer,
    pub told: Text,
}

// The edge that is named where the refusal is that a map is not tiled.
fn untiled_edge(refusal: &Refusal) -> Option<Edge>
    ensures { MatchOption result (is_untiled (answer_is.Refused refusal.now) ≡ false) (λ edge. refusal.now ≡ refusal_is.Tiled edge) }
{
    match refusal {
        Refusal::Tiled { edge } => Some(*edge),
        _ => None,
    }
}

// The line that says why the message's map is not tiled.
fn explanation(alloc: Global, core: &Core, message: &Message) -> Result<Text, NoMemory>
    requires untried { core.now.tried ≡ None }
    requires counted { IsCounted message.now }
    requires untiled { IsUntiled core.now.limits core.now.state message.now }
    ensures { IfOk result (IsExplanation core.now.state message.now) }
{
    let (area, parts) = core.after_map(alloc, message)?;
    let Some(found) = explain(alloc, &area, &parts)? else {
        unreachable!();
    };
    fault_line(alloc, &found)
}

// The reply line of the answer, and these bytes after it.
fn with_line(alloc: Global, number: u64, answer: &Answer, more: &[u8]) -> Result<Text, NoMemory>
    ensures { IfOk result (λ told. (line : List ℕ) × IsReplyLine number answer.now line × (told ≡ line ++ more.now)) }
{
    let line = reply_line(number, answer);
    let mut told = Text::from_slice(alloc, line.bytes())?;
    told.extend_from_slice(more)?;
    Ok(told)
}

// The answer, and its reply line alone.
fn plain_reply(alloc: Global, number: u64, answer: Answer) -> Result<Reply, NoMemory>
    ensures answer { IfOk result (λ reply. reply.answer ≡ answer) }
    ensures told { IfOk result (λ reply. IsReplyLine number answer reply.told) }
{
    let line = reply_line(number, &answer);
    Ok(Reply {
        answer,
        told: Text::from_slice(alloc, line.bytes())?,
    })
}

// The refusal of the message, which left the register as it was, with its explanation where it has one.
fn refused_reply(
    alloc: Global,
    core: &Core,
    number: u64,
    message: &Message,
    refusal: Refusal,
) -> Result<Reply, NoMemory>
    requires untried { core.now.tried ≡ None }
    requires counted { IsCounted message.now }
    requires decision { Decision core.now.limits core.now.state message.now (Some refusal) }
    ensures answer { IfOk result (λ reply. reply.answer ≡ answer_is.Refused refusal) }
    ensures told { IfOk result (λ reply. IsReplyWith (IsExplanation core.now.state message.now) number (answer_is.Refused refusal) reply.told) }
{
    let answer = Answer::Refused(refusal);
    let Some(_) = untiled_edge(&refusal) else {
        return plain_reply(alloc, number, answer);
    };
    let more = explanation(alloc, core, message)?;
    let told = with_line(alloc, number, &answer, more.as_slice())?;
    Ok(Reply { answer, told })
}

// The reply to a message, and the step of the register: one that is taken goes on into the state.
fn message_reply(
    alloc: Global,
    core: &mut Core,
    number: u64,
    message: &Message,
) -> Result<Reply, NoMemory>
    requires untried { core.old.tried ≡ None }
    requires room { core.old.state.accepted < 2 ^ 64 - 1 }
    requires counted { IsCounted message.now }
    ensures step { IfOk result (λ reply. Step core.old.limits core.old.state message.now reply.answer core.new.state) }
    ensures told { IfOk result (λ reply. IsReplyWith (IsExplanation core.old.state message.now) number reply.answer reply.told) }
    ensures untried { OnOk result (core.new.tried ≡ None) }
    ensures limits { OnOk result (core.new.limits ≡ core.old.limits) }
    ensures count { OnOk result (core.new.state.accepted ≤ core.old.state.accepted + 1) }
{
    match core.try_uncounted(alloc, message) {
        Ok(()) => {
            core.commit();
            plain_reply(alloc, number, Answer::Taken)
        }
        Err(CoreFault::Refused(refusal)) => refused_reply(alloc, core, number, message, refusal),
        Err(CoreFault::NoMemory) => Err(NoMemory),
    }
}

// The reply to a text that is not read.
fn unread_reply(alloc: Global, number: u64, fault: TextFault) -> Result<Reply, NoMemory>
    ensures answer { IfOk result (λ reply. IsAnswerTo fault reply.answer) }
    ensures told { IfOk result (λ reply. IsReplyLine number reply.answer reply.told) }
{
    match unread(fault) {
        Ok(answer) => plain_reply(alloc, number, answer),
        Err(_) => Err(NoMemory),
    }
}

// The reply to a text within the limit of bytes, and the step that the register takes.
fn text_reply(
    alloc: Global,
    limits: &Limits,
    core: &mut Core,
    number: u64,
    text: &[u8],
) -> Result<Reply, NoMemory>
    requires valid { IsValid limits.now }
    requires untried { core.old.tried ≡ None }
    requires limits { core.old.limits ≡ limits.now }
    requires within { length text.now ≤ limits.now.message_bytes }
    requires room { core.old.state.accepted < 2 ^ 64 - 1 }
    ensures reply { IfOk result (λ reply. IsReply limits.now core.old.state number text.now reply.answer reply.told core.new.state) }
    ensures untried { OnOk result (core.new.tried ≡ None) }
    ensures limits { OnOk result (core.new.limits ≡ core.old.limits) }
    ensures count { OnOk result (core.new.state.accepted ≤ core.old.state.accepted + 1) }
{
    let message = match read_message(alloc, text, limits) {
        Ok(message) => message,
        Err(fault) => return unread_reply(alloc, number, fault),
    };
    message_reply(alloc, core, number, &message)
}

/// The reply of this number to a text, or to one that has more bytes than it may, and the step that the register takes.
pub fn reply_to(
    alloc: Global,
    limits: &Limits,
    core: &mut Core,
    number: u64,
    framed: &Framed,
) -> Result<Reply, NoMemory>
    requires valid { IsValid limits.now }
    requires untried { core.old.tried ≡ None }
    requires limits { core.old.limits ≡ limits.now }
    requires within { IsWithin limits.now.message_bytes framed.now }
    requires room { core.old.state.accepted < 2 ^ 64 - 1 }
    ensures reply { IfOk result (λ reply. (text : List ℕ) → IsFramed limits.now.message_bytes framed.now text
        → IsReply limits.now core.old.state number text reply.answer reply.told core.new.state) }
    ensures untried { OnOk result (core.new.tried ≡ None) }
    ensures limits { OnOk result (core.new.limits ≡ core.old.limits) }
    ensures count { OnOk result (core.new.state.accepted ≤ core.old.state.accepted + 1) }
{
    match framed {
        Framed::Text(text) => text_reply(alloc, limits, core, number, text.as_slice()),
        Framed::TooLong => plain_reply(alloc, number, Answer::Refused(Refusal::TooLong)),
    }
}
