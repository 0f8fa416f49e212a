//! The line of an outer ring, read by itself: whoever draws a ring can have it judged without a message around it.

ghost use Rattle.std.specs.Prelude.{◌≡◌, ◌≢◌, ◌∷◌, ◌++◌, [], ℕ, List, IfOk, MatchOption};
ghost use Rattle.rd_plane.specs.Plane.{Vertex};
ghost use Rattle.message_text.specs.declared.token.Token.TheVariants.{Outer};
ghost use Rattle.message_text.specs.OuterLines.{IsRingLine};

use crate::limited::is_arc;
use crate::line::read_line;
use crate::token::Token;
use rd_plane::{NoMemory, Ring};
use std::alloc::Global;

// What is in front of the line feed. `None` exactly where the line does not end in one.
fn body_of(line: &[u8]) -> Option<&[u8]>
    ensures { MatchOption result ((body : List ℕ) → line.now ≢ body ++ 10 ∷ []) (λ body. line.now ≡ body.now ++ 10 ∷ []) }
{
    line.strip_suffix(b"\n".as_slice())
}

// The ring, where an outer ring is what the line says.
fn ring_of(token: Token) -> Option<Ring>
    ensures { MatchOption result ((ring : List Vertex) → token ≢ Outer ring) (λ ring. token ≡ Outer ring) }
{
    match token {
        Token::Outer { ring } => Some(ring),
        _ => None,
    }
}

/// The ring of this line, which has its line feed. `Ok(None)` exactly where the line is not `RING` and one or more points, as a
/// message has them; an arc is no such line. A last point that repeats the first is dropped. An `Err` where memory was
/// refused. Linear in the line.
pub fn read_ring(alloc: Global, line: &[u8]) -> Result<Option<Ring>, NoMemory>
    ensures { IfOk result (λ found. MatchOption found ((ring : List Vertex) → ¬ IsRingLine line.now ring) (IsRingLine line.now)) }
{
    let Some(body) = body_of(line) else {
        return Ok(None);
    };
    if is_arc(body) {
        return Ok(None);
    }
    let Some(token) = read_line(alloc, body)? else {
        return Ok(None);
    };
    Ok(ring_of(token))
}
