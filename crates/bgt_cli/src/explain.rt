//! A trial of a stream that keeps nothing: the file is read into a register, and the input answered by it, with a line after each
//! refusal of a map that is not tiled that says why. Nothing is written to the file.

ghost use Rattle.std.specs.Prelude.{◌≡◌, ◌≢◌, ◌<◌, ◌^◌, None};
ghost use Rattle.std.specs.Option.{ForSome};
ghost use Rattle.outside.specs.Outside.{NoneFell, Rose};
ghost use Rattle.message_text.specs.Limits.{IsValid};
ghost use Rattle.bgt_cli.specs.Clause.{TakesAtMost};
ghost use Rattle.bgt_cli.specs.Explain.{IsTried, MeetsExplain};
ghost use Rattle.bgt_cli.specs.Load.{IsRefusedJournal, MeetsNoList};
ghost use Rattle.bgt_cli.specs.Query.{LeavesNothingNew};

use crate::explain_texts::explain_pieces;
use crate::no_list::{refuse, refuse_gate};
use crate::program::{final_status, tail_line};
use crate::session::Session;
use crate::status::Status;
use crate::stream::{PIECE, tell, zeros};
use gate_journal::Mode;
use map_core::Core;
use map_store::laws::{not_both, one_list};
use map_store::{StartFault, Store};
use message_text::Limits;
use outside::Outside;
use std::alloc::Global;

// Answers the input from the state of the register on, and writes how much is left of it.
fn explain_input<O: Outside>(
    alloc: Global,
    limits: &Limits,
    core: &mut Core,
    outside: &mut O,
) -> Status
    requires valid { IsValid limits.now }
    requires untried { core.old.tried ≡ None }
    requires limits { core.old.limits ≡ limits.now }
    requires room { core.old.state.accepted < 2 ^ 62 }
    ensures tried { ForSome (O.shown outside.old).input (λ input. IsTried limits.now core.old.state input result (O.shown outside.old) (O.shown outside.new)) }
    ensures taken { TakesAtMost limits.now.input_bytes (O.shown outside.old) (O.shown outside.new) }
    ensures listed { result ≢ Status.Usage }
    ensures no_bad_journal { result ≢ Status.BadJournal }
    ensures no_full { result ≢ Status.JournalFull }
    ensures nothing_new { LeavesNothingNew O.leaves O.clock O.left outside.old outside.new }
    ensures read_fault { result ≡ Status.ReadFault → Rose (O.faults outside.old).reads (O.faults outside.new).reads }
    ensures write_fault { result ≡ Status.WriteFault → Rose (O.faults outside.old).writes (O.faults outside.new).writes }
    ensures disk_fault { result ≢ Status.DiskFault }
    ensures counts { NoneFell (O.faults outside.old) (O.faults outside.new) }
{
    let mut session = Session::new(alloc, limits);
    let Ok(mut piece) = zeros(alloc, PIECE) else {
        return Status::NoMemory;
    };
    if let Err(status) = explain_pieces(alloc, limits, &mut session, &mut piece, core, outside) {
        return status;
    }
    let rest = session.feed.rest();
    let Ok(line) = tail_line(alloc, rest) else {
        return Status::NoMemory;
    };
    let Ok(()) = tell(outside, line.as_bytes()) else {
        return Status::WriteFault;
    };
    final_status(session.all_taken, rest)
}

/// Answers the input from the messages of the file on, explains each map that is not tiled, and keeps nothing.
pub fn explain<O: Outside>(alloc: Global, limits: &Limits, outside: &mut O) -> Status
    requires { IsValid limits.now }
    ensures tried { MeetsExplain limits.now result (O.shown outside.old) (O.shown outside.new) }
    ensures no_list { MeetsNoList limits.now result (O.shown outside.old) (O.shown outside.new) }
    ensures bad_journal { result ≡ Status.BadJournal → IsRefusedJournal limits.now (O.shown outside.old) (O.shown outside.new) }
    ensures taken { TakesAtMost limits.now.input_bytes (O.shown outside.old) (O.shown outside.new) }
    ensures listed { result ≢ Status.Usage }
    ensures no_full { result ≢ Status.JournalFull }
    ensures nothing_new { LeavesNothingNew O.leaves O.clock O.left outside.old outside.new }
    ensures read_fault { result ≡ Status.ReadFault → Rose (O.faults outside.old).reads (O.faults outside.new).reads }
    ensures write_fault { result ≡ Status.WriteFault → Rose (O.faults outside.old).writes (O.faults outside.new).writes }
    ensures disk_fault { result ≡ Status.DiskFault → Rose (O.faults outside.old).disks (O.faults outside.new).disks }
    ensures counts { NoneFell (O.faults outside.old) (O.faults outside.new) }
{
    not_both();
    one_list();
    let store = match Store::start(alloc, limits, Mode::Reading, outside) {
        Ok(store) => store,
        Err(StartFault::NotJournal) => return refuse(outside, b"NOTJOURNAL\n"),
        Err(StartFault::Damaged { at }) => return refuse_gate(alloc, outside, at),
        Err(StartFault::DiskFault) => return Status::DiskFault,
        Err(StartFault::NoMemory) => return Status::NoMemory,
    };
    let mut core = store.into_core();
    explain_input(alloc, limits, &mut core, outside)
}
