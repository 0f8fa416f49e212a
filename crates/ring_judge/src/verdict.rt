//! What is said of one line, and the reply line that says it.

ghost use Rattle.std.specs.Prelude.{◌≡◌, ◌<◌, ◌^◌, IfOk, length, string_bytes};
ghost use Rattle.message_text.specs.Limits.{IsValid};
ghost use Rattle.ring_judge.specs.declared.verdict.Verdict.TheVariants as verdict;
ghost use Rattle.ring_judge.specs.Verdicts.{IsRingVerdict, IsVerdict, is_fine, reply_line};

use message_text::{Limits, read_ring};
use part_shape::{Shape, SingleFault};
use rd_plane::{NoMemory, Ring};
use ring_simple::RingFault;
use std::alloc::{AllocError, Global};

/// What is said of a line. Of several the first that applies, in this order.
#[derive(Clone, Copy, Debug, PartialEq, Eq)]
pub enum Verdict {
    /// It is not `RING` and one or more points.
    Syntax,
    /// The ring has more points than a ring of a message may have.
    Limit,
    /// The ring is not simple.
    Faulty { fault: RingFault },
    /// The ring runs clockwise, as a hole does.
    Clockwise,
    /// The ring runs counter-clockwise, and is a sound shape by itself.
    Fine,
}

impl Verdict {
    /// Whether the ring is a sound shape by itself.
    pub fn is_fine(&self) -> bool
        ensures { result ≡ is_fine self.now }
    {
        match self {
            Verdict::Fine => true,
            _ => false,
        }
    }
}

// What is said of a ring that is not too long.
fn verdict_of(alloc: Global, ring: &Ring) -> Result<Verdict, NoMemory>
    requires { length ring.now < 2 ^ 32 }
    ensures { IfOk result (IsRingVerdict ring.now) }
{
    match Shape::single(alloc, ring) {
        Ok(_) => Ok(Verdict::Fine),
        Err(SingleFault::Ring { fault }) => Ok(Verdict::Faulty { fault }),
        Err(SingleFault::Clockwise) => Ok(Verdict::Clockwise),
        Err(SingleFault::NoMemory) => Err(NoMemory),
    }
}

/// What is said of the line, which has its line feed. It costs what reading the line and the search for the ring's fault cost;
/// no sweep is made. An `Err` where memory was refused.
pub fn judge_line(alloc: Global, limits: &Limits, line: &[u8]) -> Result<Verdict, NoMemory>
    requires { IsValid limits.now }
    ensures { IfOk result (IsVerdict limits.now line.now) }
{
    let Some(ring) = read_ring(alloc, line)? else {
        return Ok(Verdict::Syntax);
    };
    if ring.len() as u64 > u64::from(limits.ring_points) {
        return Ok(Verdict::Limit);
    }
    verdict_of(alloc, &ring)
}

// The reply to a ring that is not simple.
fn fault_reply(alloc: Global, number: usize, fault: RingFault) -> Result<String, AllocError>
    ensures { IfOk result (λ s. string_bytes s ≡ reply_line number (verdict.Faulty fault)) }
{
    match fault {
        RingFault::Few => format!(in alloc; "{number} few\n"),
        RingFault::Repeat { at } => format!(in alloc; "{number} repeat {at}\n"),
        RingFault::Meets { first, second } => {
            format!(in alloc; "{number} meets {first} {second}\n")
        }
    }
}

/// The reply line of what is said of the line with this number. An `Err` where memory was refused.
pub fn reply(alloc: Global, number: usize, verdict: Verdict) -> Result<String, AllocError>
    ensures { IfOk result (λ s. string_bytes s ≡ reply_line number verdict) }
{
    match verdict {
        Verdict::Syntax => format!(in alloc; "{number} SYNTAX\n"),
        Verdict::Limit => format!(in alloc; "{number} LIMIT\n"),
        Verdict::Faulty { fault } => fault_reply(alloc, number, fault),
        Verdict::Clockwise => format!(in alloc; "{number} CLOCKWISE\n"),
        Verdict::Fine => format!(in alloc; "{number} OK\n"),
    }
}
