use gate_journal::Mode;
use map_store::{StartFault, Store};
use message_text::Limits;
use outside::MemOutside;
use std::alloc::Global;
use std::test::Fail;

// A file with one message.
pub const ONE: &[u8] =
    b"BGTJ0001\x01\0\0\0\0\0\0\0\x28BERICHT G0001 2024-01-01T00:00:01\nEINDE\n\0";

// What starting a store on these bytes gives: the number of messages, or the fault.
pub fn started(alloc: Global, disk: &[u8], mode: Mode) -> Result<Result<u64, StartFault>, Fail> {
    let mut outside = MemOutside::new(alloc, b"", disk, 1, &[], None, 1 << 12)?;
    let limits = Limits::standard();
    Ok(match Store::start(alloc, &limits, mode, &mut outside) {
        Ok(store) => Ok(store.core().accepted()),
        Err(fault) => Err(fault),
    })
}

// Files that stand for a list of messages, and files that do not, for reading and for writing.
#[test]
fn files(rt: HostRuntime) -> Result<(), Fail> {
    let rows: [(&[u8], Result<u64, StartFault>); 8] = [
        (b"", Ok(0)),
        (b"123456789", Ok(0)),
        (b"BGTJ0001\x01", Ok(0)),
        (b"hello, world", Err(StartFault::NotJournal)),
        (b"BGTJ0001\x01\0\0\0\0", Err(StartFault::Damaged { at: 8 })),
        (ONE, Ok(1)),
        (&ONE[..57], Err(StartFault::Damaged { at: 8 })),
        (
            b"BGTJ0001\x01\0\0\0\0\0\0\0\x01x\0",
            Err(StartFault::Damaged { at: 8 }),
        ),
    ];
    for (file, want) in rows {
        assert_eq!(rt; started(rt.alloc(), file, Mode::Reading)?, want);
        assert_eq!(rt; started(rt.alloc(), file, Mode::Writing)?, want);
    }
    Ok(())
}
