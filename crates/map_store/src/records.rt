//! The messages of a file, read into the register one after another.

ghost use Rattle.std.specs.Prelude.{◌≡◌, ◌≢◌, ◌⊎◌, ◌<◌, ◌≤◌, ◌+◌, ◌-◌, ◌*◌, ◌^◌, [], ℕ, List, Bool, None, Some, IsTrue, ◌↔◌, IfOk, IfErr, OnOk, OnErr, IsErrOf};
ghost use Rattle.std.specs.Bool.{OnFalse, if◌then◌else◌};
ghost use Rattle.std.specs.Option.{ForSome};
ghost use Rattle.message_text.specs.declared.message.Message.{Message};
ghost use Rattle.message_text.specs.Limits.{IsValid};
ghost use Rattle.map_rules.specs.State.{opening};
ghost use Rattle.map_core.specs.Tried.{at_rest};
ghost use Rattle.outside.specs.Crash.{At, LeavesOnly, NoneNew};
ghost use Rattle.outside.specs.Outside.{NoneFell, Rose};
ghost use Rattle.gate_journal.specs.Reading.{IsRead};
ghost use Rattle.map_store.specs.Reading.{EndsWith, IsReadInto, IsUnderWay};
ghost use Rattle.map_store.specs.Stands.{IsBad, IsNextRecord, IsSpoiltAt};

use crate::fault::StartFault;
use gate_journal::{Journal, JournalFault};
use map_core::{Core, CoreFault};
use message_text::laws::one_canonical_text;
use message_text::{Limits, TextFault, print_message, read_message};
use outside::Outside;
use std::alloc::Global;

// Why a record was not taken.
enum RecordFault {
    // It is not the canonical text of a message that the register takes.
    Bad,
    NoMemory,
}

fn is_same(a: &[u8], b: &[u8]) -> bool
    ensures { IsTrue result ↔ (a.now ≡ b.now) }
{
    a == b
}

// Takes the message of a record.
fn take_record(
    alloc: Global,
    limits: &Limits,
    core: &mut Core,
    payload: &[u8],
) -> Result<(), RecordFault>
    requires valid { IsValid limits.now }
    requires rest { core.old ≡ at_rest limits.now core.old.state }
    requires room { core.old.state.accepted < 2 ^ 64 - 1 }
    ensures taken { OnOk result ((m : Message) × IsNextRecord limits.now core.old.state payload.now m core.new.state) }
    ensures rest { OnOk result (core.new ≡ at_rest limits.now core.new.state) }
    ensures count { OnOk result (core.new.state.accepted ≡ core.old.state.accepted + 1) }
    ensures bad { IsErrOf result RecordFault.Bad → IsBad limits.now core.old.state payload.now }
{
    let message = match read_message(alloc, payload, limits) {
        Ok(message) => message,
        Err(TextFault::NoMemory) => return Err(RecordFault::NoMemory),
        Err(_) => return Err(RecordFault::Bad),
    };
    let Ok(text) = print_message(alloc, &message) else {
        return Err(RecordFault::NoMemory);
    };
    one_canonical_text();
    if !is_same(text.as_slice(), payload) {
        return Err(RecordFault::Bad);
    }
    match core.try_uncounted(alloc, &message) {
        Ok(()) => {
            core.commit();
            Ok(())
        }
        Err(CoreFault::Refused(_)) => Err(RecordFault::Bad),
        Err(CoreFault::NoMemory) => Err(RecordFault::NoMemory),
    }
}

pub fn start_fault(fault: JournalFault) -> StartFault
    ensures not_journal { result ≡ StartFault.NotJournal → fault ≡ JournalFault.NotJournal }
    ensures damaged { (at : ℕ) → result ≡ StartFault.Damaged at → fault ≡ JournalFault.Damaged at }
    ensures disk { result ≡ StartFault.DiskFault → fault ≡ JournalFault.DiskFault }
    ensures memory { result ≡ StartFault.NoMemory → fault ≡ JournalFault.NoMemory }
{
    match fault {
        JournalFault::NotJournal => StartFault::NotJournal,
        JournalFault::Damaged { at } => StartFault::Damaged { at },
        JournalFault::DiskFault => StartFault::DiskFault,
        JournalFault::NoMemory => StartFault::NoMemory,
    }
}

// Takes the next record, if the next gate is open. Answers whether it was.
fn take_next<O: Outside>(
    alloc: Global,
    limits: &Limits,
    journal: &mut Journal,
    core: &mut Core,
    outside: &mut O,
) -> Result<bool, StartFault>
    requires valid { IsValid limits.now }
    requires under_way { IsUnderWay limits.now journal.old core.old }
    requires read { ForSome (O.shown outside.old).disk (λ file. IsReadInto limits.now file journal.old core.old.state) }
    ensures under_way { OnOk result (IsUnderWay limits.now journal.new core.new) }
    ensures read { OnOk result (ForSome (O.shown outside.new).disk (λ file. IsReadInto limits.now file journal.new core.new.state)) }
    ensures kept { OnOk result ((journal.new.mode ≡ journal.old.mode) × (journal.new.empty ≡ journal.old.empty)) }
    ensures shorter { IfOk result (λ more. (journal.new.len - journal.new.gate) + (if more then 1 else 0) ≤ journal.old.len - journal.old.gate) }
    ensures at_end { IfOk result (λ more. OnFalse more ((journal.new.at_end ≡ Bool.true) × ForSome (O.shown outside.new).disk (λ file. EndsWith limits.now file journal.new core.new.state))) }
    ensures damaged { (at : ℕ) → IsErrOf result (StartFault.Damaged at) → ForSome (O.shown outside.old).disk (λ file. IsSpoiltAt limits.now file at) }
    ensures disk_fault { IsErrOf result StartFault.DiskFault → Rose (O.faults outside.old).disks (O.faults outside.new).disks }
    ensures not_journal { IfErr result (λ e. e ≢ StartFault.NotJournal) }
    ensures same { O.shown outside.new ≡ O.shown outside.old }
    ensures images { NoneNew (O.leaves outside.old) (O.leaves outside.new) }
    ensures moments { LeavesOnly O.clock O.left outside.old outside.new (At (O.shown outside.old).told (O.leaves outside.old)) }
    ensures counts { NoneFell (O.faults outside.old) (O.faults outside.new) }
{
    let text = match journal.next_payload(alloc, outside) {
        Ok(Some(text)) => text,
        Ok(None) => return Ok(false),
        Err(fault) => return Err(start_fault(fault)),
    };
    match take_record(alloc, limits, core, text.as_slice()) {
        Ok(()) => Ok(true),
        Err(RecordFault::Bad) => Err(StartFault::Damaged {
            at: journal.last_gate(),
        }),
        Err(RecordFault::NoMemory) => Err(StartFault::NoMemory),
    }
}

/// Takes the messages of all records, up to the first closed gate.
pub fn take_records<O: Outside>(
    alloc: Global,
    limits: &Limits,
    journal: &mut Journal,
    core: &mut Core,
    outside: &mut O,
) -> Result<(), StartFault>
    requires valid { IsValid limits.now }
    requires under_way { IsUnderWay limits.now journal.old core.old }
    requires read { ForSome (O.shown outside.old).disk (λ file. IsReadInto limits.now file journal.old core.old.state) }
    ensures under_way { OnOk result (IsUnderWay limits.now journal.new core.new) }
    ensures kept { OnOk result ((journal.new.mode ≡ journal.old.mode) × (journal.new.empty ≡ journal.old.empty)) }
    ensures at_end { OnOk result ((journal.new.at_end ≡ Bool.true) × ForSome (O.shown outside.new).disk (λ file. EndsWith limits.now file journal.new core.new.state)) }
    ensures damaged { (at : ℕ) → IsErrOf result (StartFault.Damaged at) → ForSome (O.shown outside.old).disk (λ file. IsSpoiltAt limits.now file at) }
    ensures disk_fault { IsErrOf result StartFault.DiskFault → Rose (O.faults outside.old).disks (O.faults outside.new).disks }
    ensures not_journal { IfErr result (λ e. e ≢ StartFault.NotJournal) }
    ensures same { O.shown outside.new ≡ O.shown outside.old }
    ensures images { NoneNew (O.leaves outside.old) (O.leaves outside.new) }
    ensures moments { LeavesOnly O.clock O.left outside.old outside.new (At (O.shown outside.old).told (O.leaves outside.old)) }
    ensures counts { NoneFell (O.faults outside.old) (O.faults outside.new) }
{
    let mut more = true;
    while more {
        match take_next(alloc, limits, journal, core, outside) {
            Ok(next) => more = next,
            Err(fault) => return Err(fault),
        }
    }
    Ok(())
}
