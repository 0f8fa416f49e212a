//! The whole input, taken piece by piece before anything is told of it.

ghost use Rattle.std.specs.Prelude.{◌≡◌, ◌≤◌, ◌<◌, [], IfOk, IfErr, IsErrOf, OnOk, length};
ghost use Rattle.std.specs.Option.{ForSome};
ghost use Rattle.outside.specs.Crash.{At, LeavesOnly, NoneNew};
ghost use Rattle.outside.specs.Outside.{NoneFell, Rose};
ghost use Rattle.bgt_cli.specs.Query.{LeavesNothingNew};
ghost use Rattle.bgt_cli.specs.Stops.{FailsToFeed};
ghost use Rattle.bgt_cli.specs.Taking.{StopsTaking, TakesMore, TakesWhole};

use crate::status::Status;
use message_text::Limits;
use outside::Outside;

// Takes once, and keeps what came. Answers how many bytes came; none is the end of the input.
fn take_more<O: Outside>(
    outside: &mut O,
    piece: &mut [u8],
    input: &mut Vec<u8>,
) -> Result<usize, Status>
    requires { 0 < length piece.old }
    ensures taken { IfOk result (TakesMore input.old.items input.new.items (O.shown outside.old) (O.shown outside.new)) }
    ensures bound { IfOk result (λ n. n ≤ length piece.old) }
    ensures at_end { IfOk result (λ n. n ≡ 0 → ForSome (O.shown outside.old).input (λ input. input ≡ [])) }
    ensures failed { IfErr result (FailsToFeed (length piece.old) (O.shown outside.old) (O.shown outside.new)) }
    ensures read_fault { IsErrOf result Status.ReadFault → Rose (O.faults outside.old).reads (O.faults outside.new).reads }
    ensures images { NoneNew (O.leaves outside.old) (O.leaves outside.new) }
    ensures moments { LeavesOnly O.clock O.left outside.old outside.new (At (O.shown outside.old).told (O.leaves outside.old)) }
    ensures counts { NoneFell (O.faults outside.old) (O.faults outside.new) }
{
    let Ok(n) = outside.take(piece) else {
        return Err(Status::ReadFault);
    };
    let (front, _) = piece.split_at(n);
    let Ok(()) = input.extend_from_slice(front) else {
        return Err(Status::NoMemory);
    };
    Ok(n)
}

/// Takes the input to its end, or as many bytes of it as the limit allows, and tells nothing.
pub fn take_all<O: Outside>(
    limits: &Limits,
    piece: &mut [u8],
    input: &mut Vec<u8>,
    outside: &mut O,
) -> Result<(), Status>
    requires buffer { 0 < length piece.old }
    requires empty { input.old.items ≡ [] }
    ensures whole { OnOk result (TakesWhole limits.now input.new.items (O.shown outside.old) (O.shown outside.new)) }
    ensures stopped { IfErr result (StopsTaking limits.now (O.shown outside.old) (O.shown outside.new)) }
    ensures read_fault { IsErrOf result Status.ReadFault → Rose (O.faults outside.old).reads (O.faults outside.new).reads }
    ensures nothing_new { LeavesNothingNew O.leaves O.clock O.left outside.old outside.new }
    ensures counts { NoneFell (O.faults outside.old) (O.faults outside.new) }
{
    let mut left = limits.input_bytes;
    while left > 0 {
        let most = left.min(piece.len() as u64) as usize;
        let n = match take_more(outside, &mut piece[..most], input) {
            Ok(n) => n,
            Err(status) => return Err(status),
        };
        if n == 0 {
            return Ok(());
        }
        left -= n as u64;
    }
    Err(Status::InputLong)
}
