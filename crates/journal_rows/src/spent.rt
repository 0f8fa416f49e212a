//! A call of the disk that fails while a store keeps a message.

ghost use Rattle.std.specs.Prelude.{◌≡◌, None, IfOk};
ghost use Rattle.message_text.specs.Printable.{IsPrintable};
ghost use Rattle.message_text.specs.Reading.{passed_limit};
ghost use Rattle.gate_journal.specs.declared.mode.Mode.TheVariants as for_;
ghost use Rattle.map_store.specs.Store.{IsAtWork};

use crate::rows::{ONE, started};
use gate_journal::Mode;
use map_store::{StartFault, Store, SubmitFault};
use message_text::{Limits, Message, read_message};
use outside::{MemOutside, Outside};
use std::alloc::Global;
use std::test::Fail;

const NEXT: &[u8] = b"BERICHT G0001 2024-01-01T00:00:02\nEINDE\n";

fn message_of(alloc: Global, limits: &Limits, text: &[u8]) -> Result<Message, Fail>
    ensures printable { IfOk result IsPrintable }
    ensures limits { IfOk result (λ m. passed_limit limits.now m ≡ None) }
{
    match read_message(alloc, text, limits) {
        Ok(message) => Ok(message),
        Err(fault) => Err(Fail::from(fault)),
    }
}

// Keeps the message, and answers how many there are with it. Whatever the answer, the next message may be tried.
fn keep<O: Outside>(
    alloc: Global,
    store: &mut Store,
    message: &Message,
    outside: &mut O,
) -> Result<u64, SubmitFault>
    requires writing { store.old.journal.mode ≡ for_.Writing }
    requires printable { IsPrintable message.now }
    requires limits { passed_limit store.old.limits message.now ≡ None }
    requires at_work { IsAtWork store.old (O.shown outside.old).disk (O.leaves outside.old) }
    ensures writing { store.new.journal.mode ≡ for_.Writing }
    ensures limits { store.new.limits ≡ store.old.limits }
    ensures at_work { IsAtWork store.new (O.shown outside.new).disk (O.leaves outside.new) }
{
    match store.submit(alloc, message, outside) {
        Ok(accepted) => Ok(accepted.number),
        Err(SubmitFault::Refused(refusal)) => Err(SubmitFault::Refused(refusal)),
        Err(SubmitFault::JournalFull) => Err(SubmitFault::JournalFull),
        Err(SubmitFault::DiskFault) => Err(SubmitFault::DiskFault),
        Err(SubmitFault::Spent) => Err(SubmitFault::Spent),
        Err(SubmitFault::NoMemory) => Err(SubmitFault::NoMemory),
    }
}

// A store over a file with one message is given the next message twice, and one call fails: how many messages the file has with it, or the
// fault, and how many calls were made; then what a store finds in the file as it reads, and as it was synced last.
#[derive(Clone, Copy, Debug, PartialEq, Eq)]
struct Twice {
    first: Result<u64, SubmitFault>,
    second: Result<u64, SubmitFault>,
    calls: u64,
    reads: Result<u64, StartFault>,
    synced: Result<u64, StartFault>,
}

fn tried(alloc: Global, failing: u64) -> Result<Twice, Fail> {
    let limits = Limits::standard();
    let message = message_of(alloc, &limits, NEXT)?;
    let mut outside = MemOutside::new(alloc, b"", ONE, 1, &[failing], None, 1 << 12)?;
    let mut store = match Store::start(alloc, &limits, Mode::Writing, &mut outside) {
        Ok(store) => store,
        Err(fault) => return Err(Fail::from(fault)),
    };
    Ok(Twice {
        first: keep(alloc, &mut store, &message, &mut outside),
        second: keep(alloc, &mut store, &message, &mut outside),
        calls: outside.calls(),
        reads: started(alloc, outside.disk(), Mode::Writing)?,
        synced: started(alloc, outside.synced(), Mode::Writing)?,
    })
}

// Each of the four calls that keep a message fails: the store is spent then, and makes no call any more. One that is started again finds
// the first message alone, or both where the second gate reads as open.
#[test]
fn a_failed_call_spends_the_store(rt: HostRuntime) -> Result<(), Fail> {
    // The file is synced, measured, and read to its first closed gate in six calls.
    for (call, found) in [(7, 1), (8, 1), (9, 1), (10, 2)] {
        let want = Twice {
            first: Err(SubmitFault::DiskFault),
            second: Err(SubmitFault::Spent),
            calls: call,
            reads: Ok(found),
            synced: Ok(1),
        };
        assert_eq!(rt; tried(rt.alloc(), call)?, want);
    }
    Ok(())
}

// Where none fails the message is the second of the file, and is not taken again.
#[test]
fn a_message_is_kept_once(rt: HostRuntime) -> Result<(), Fail> {
    let had = tried(rt.alloc(), 11)?;
    let refused = matches!(had.second, Err(SubmitFault::Refused(_)));
    assert_eq!(rt;
        (had.first, refused, had.calls, had.synced),
        (Ok(2), true, 10, Ok(2))
    );
    Ok(())
}
