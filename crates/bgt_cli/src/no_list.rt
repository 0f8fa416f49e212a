//! A file that stands for no list of messages: its one line.

ghost use Rattle.std.specs.Prelude.{◌≡◌};
ghost use Rattle.outside.specs.Outside.{NoneFell, Rose};
ghost use Rattle.bgt_cli.specs.Load.{EndsRefused, damaged_line};
ghost use Rattle.bgt_cli.specs.Query.{LeavesNothingNew};

use crate::status::Status;
use crate::stream::tell;
use outside::Outside;
use std::alloc::Global;

/// Writes why the file stands for no list.
pub fn refuse<O: Outside>(outside: &mut O, line: &[u8]) -> Status
    ensures ends { EndsRefused line.now result (O.shown outside.old) (O.shown outside.new) }
    ensures nothing_new { LeavesNothingNew O.leaves O.clock O.left outside.old outside.new }
    ensures write_fault { result ≡ Status.WriteFault → Rose (O.faults outside.old).writes (O.faults outside.new).writes }
    ensures counts { NoneFell (O.faults outside.old) (O.faults outside.new) }
{
    match tell(outside, line) {
        Ok(()) => Status::BadJournal,
        Err(_) => Status::WriteFault,
    }
}

/// Writes that the record at this gate is bad.
pub fn refuse_gate<O: Outside>(alloc: Global, outside: &mut O, at: u64) -> Status
    ensures ends { EndsRefused (damaged_line at) result (O.shown outside.old) (O.shown outside.new) }
    ensures nothing_new { LeavesNothingNew O.leaves O.clock O.left outside.old outside.new }
    ensures write_fault { result ≡ Status.WriteFault → Rose (O.faults outside.old).writes (O.faults outside.new).writes }
    ensures counts { NoneFell (O.faults outside.old) (O.faults outside.new) }
{
    let Ok(line) = format!(in alloc; "DAMAGED {at}\n") else {
        return Status::NoMemory;
    };
    refuse(outside, line.as_bytes())
}
