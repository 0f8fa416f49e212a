//! The laws of verdicts: a line has one, and so it has one reply.

ghost use Rattle.std.specs.Prelude.{◌≡◌, ℕ, List};
ghost use Rattle.rd_plane.specs.Plane.{Vertex};
ghost use Rattle.message_text.specs.declared.limits.Limits.{Limits};
ghost use Rattle.ring_judge.specs.declared.verdict.Verdict.{Verdict};
ghost use Rattle.ring_judge.specs.Verdicts.{IsRingVerdict, IsVerdict, reply_line};

/// One thing at most is said of a ring that is not too long.
pub fn one_ring_verdict()
    ensures { (ring : List Vertex) (verdict other : Verdict) → IsRingVerdict ring verdict → IsRingVerdict ring other → verdict ≡ other }
{}

/// One thing at most is said of a line.
pub fn one_verdict()
    ensures { (limits : Limits) (line : List ℕ) (verdict other : Verdict) → IsVerdict limits line verdict → IsVerdict limits line other → verdict ≡ other }
{}

/// The line of this number has one reply line.
pub fn one_reply_line()
    ensures { (limits : Limits) (line : List ℕ) (number : ℕ) (verdict other : Verdict) → IsVerdict limits line verdict → IsVerdict limits line other → reply_line number verdict ≡ reply_line number other }
{}
