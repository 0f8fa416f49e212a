//! All lines of an input, judged one after another. Each costs what judging it costs; the replies take memory.

ghost use Rattle.std.specs.Prelude.{◌≡◌, ◌&&◌, IfOk, string_bytes};
ghost use Rattle.message_text.specs.Limits.{IsValid};
ghost use Rattle.ring_judge.specs.Judging.{AreRepliesTo};
ghost use Rattle.ring_judge.specs.Verdicts.{is_fine};

use crate::lines::front_line;
use crate::verdict::{Verdict, judge_line, reply};
use message_text::Limits;
use rd_plane::NoMemory;
use std::alloc::Global;

/// What is told of the lines of an input.
#[derive(Debug, Drop)]
pub struct Judged {
    /// One reply line for each whole line, numbered from 1.
    pub replies: String,
    /// Whether each of them is the line of a ring that is a sound shape by itself.
    pub all_fine: bool,
    /// How many bytes follow the last whole line.
    pub rest: usize,
}

// Whether all rings are fine, this one too.
fn with_verdict(all_fine: bool, verdict: Verdict) -> bool
    ensures { result ≡ all_fine && is_fine verdict }
{
    all_fine && verdict.is_fine()
}

/// What is said of each whole line of the input. An `Err` where memory was refused.
pub fn judge_rings(alloc: Global, limits: &Limits, input: &[u8]) -> Result<Judged, NoMemory>
    requires { IsValid limits.now }
    ensures { IfOk result (λ j. AreRepliesTo limits.now input.now (string_bytes j.replies) j.all_fine j.rest) }
{
    let mut replies = String::new(alloc);
    let mut all_fine = true;
    let mut number = 0;
    let mut rest = input;
    while let Some((line, behind)) = front_line(rest) {
        number += 1;
        let verdict = judge_line(alloc, limits, line)?;
        let told = reply(alloc, number, verdict)?;
        replies.push_str(&told)?;
        all_fine = with_verdict(all_fine, verdict);
        rest = behind;
    }
    Ok(Judged {
        replies,
        all_fine,
        rest: rest.len(),
    })
}
