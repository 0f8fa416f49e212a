//! The worked rows of the command `load`, and a failing call at each place of one.

use bgt_cli::Status;
use bgt_rows::runs::ran;
use message_text::Limits;
use outside::MemOutside;
use std::alloc::Global;
use std::test::Fail;

/// A new journal.
pub const EMPTY: &[u8] = b"BGTJ0001\0";

/// The smallest message.
pub const ONE: &[u8] = b"BERICHT G0001 2024-01-01T00:00:01\nEINDE\n";

const NEXT: &[u8] = b"BERICHT G0001 2024-01-01T00:00:02\nEINDE\n";

/// A journal with one message.
pub const KEPT: &[u8] =
    b"BGTJ0001\x01\0\0\0\0\0\0\0\x28BERICHT G0001 2024-01-01T00:00:01\nEINDE\n\0";

/// What is told, the file, and how the run ends.
pub fn loaded(
    alloc: Global,
    limits: &Limits,
    input: &[u8],
    disk: &[u8],
    failing: &[u64],
) -> Result<(Vec<u8>, Vec<u8>, Status), Fail> {
    let mut outside = MemOutside::new(alloc, input, disk, 100, failing, None, 1 << 12)?;
    let ends = ran(alloc, &["load", "F"], limits, &mut outside);
    Ok((
        outside.told().to_vec(alloc)?,
        outside.disk().to_vec(alloc)?,
        ends,
    ))
}

#[test]
fn rows(rt: HostRuntime) -> Result<(), Fail> {
    // The input, the file, what is told, the file then, and the status.
    let rows: [(&[u8], &[u8], &[u8], &[u8], Status); 7] = [
        (b"", b"", b"", EMPTY, Status::Good),
        (b"", b"123456789", b"", EMPTY, Status::Good),
        (ONE, b"", b"1 OK\n", KEPT, Status::Good),
        (
            ONE,
            KEPT,
            b"1 E5 STALE 2024-01-01T00:00:01\n",
            KEPT,
            Status::Refused,
        ),
        (b"x", KEPT, b"TAIL 1\n", KEPT, Status::Refused),
        (
            ONE,
            b"hello, world",
            b"NOTJOURNAL\n",
            b"hello, world",
            Status::BadJournal,
        ),
        (
            ONE,
            b"BGTJ0001\x01\0\0\0\0",
            b"DAMAGED 8\n",
            b"BGTJ0001\x01\0\0\0\0",
            Status::BadJournal,
        ),
    ];
    let limits = Limits::standard();
    for (input, disk, told, file, ends) in rows {
        let got = loaded(rt.alloc(), &limits, input, disk, &[])?;
        assert_eq!(rt; got.0.as_slice(), told);
        assert_eq!(rt; got.1.as_slice(), file);
        assert_eq!(rt; got.2, ends);
    }
    Ok(())
}

#[test]
fn room(rt: HostRuntime) -> Result<(), Fail> {
    for (journal_bytes, told, file, ends) in [
        (57, b"".as_slice(), EMPTY, Status::JournalFull),
        (58, b"1 OK\n".as_slice(), KEPT, Status::Good),
    ] {
        let limits = Limits {
            journal_bytes,
            ..Limits::standard()
        };
        let got = loaded(rt.alloc(), &limits, ONE, b"", &[])?;
        assert_eq!(rt; got.0.as_slice(), told, "{journal_bytes} bytes");
        assert_eq!(rt; got.1.as_slice(), file, "{journal_bytes} bytes");
        assert_eq!(rt; got.2, ends, "{journal_bytes} bytes");
    }
    Ok(())
}

// What a `load` of the second message over the file with the first tells, and how it ends, where one call fails. First the file
// is synced, measured, and read to its first closed gate; then the input is taken, the record and its gate are written and
// synced, the line is told, and the end of the input is met.
const CALLS: [(&[u8], Status); 15] = [
    (b"", Status::DiskFault),
    (b"", Status::DiskFault),
    (b"", Status::DiskFault),
    (b"", Status::DiskFault),
    (b"", Status::DiskFault),
    (b"", Status::DiskFault),
    (b"", Status::ReadFault),
    (b"", Status::DiskFault),
    (b"", Status::DiskFault),
    (b"", Status::DiskFault),
    (b"", Status::DiskFault),
    (b"", Status::WriteFault),
    (b"1 OK\n", Status::ReadFault),
    (b"1 OK\n", Status::Good),
    (b"1 OK\n", Status::Good),
];

// Each call fails once, and the run is tried again over what the disk reads then, and over what was synced by then: the message
// is in the file once.
#[test]
fn each_call_fails(rt: HostRuntime) -> Result<(), Fail> {
    let limits = Limits::standard();
    let (_, both, _) = loaded(rt.alloc(), &limits, NEXT, KEPT, &[])?;
    for (place, (told, ends)) in CALLS.iter().enumerate() {
        let call = place as u64 + 1;
        let mut outside = MemOutside::new(rt.alloc(), NEXT, KEPT, 100, &[call], None, 1 << 12)?;
        let status = ran(rt.alloc(), &["load", "F"], &limits, &mut outside);
        assert_eq!(rt; status, *ends, "call {call}");
        assert_eq!(rt; outside.told(), *told, "call {call}");
        for image in [outside.disk(), outside.synced()] {
            let (_, file, _) = loaded(rt.alloc(), &limits, NEXT, image, &[])?;
            assert_eq!(rt; file.as_slice(), both.as_slice(), "call {call}");
        }
    }
    Ok(())
}
