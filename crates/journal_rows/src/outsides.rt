use outside::{Call, ENTRY_BYTES, Failed, FaultFree, MemOutside, Outside, RealOutside};
use rd_plane::NoMemory;
use std::alloc::Global;
use std::os::fd::AsRawFd;
use std::test::Fail;
use std::{fs, io, process};

// A call. A `take` has a buffer of this many bytes, a `give` a piece of them, and a write stands at an offset.
#[derive(Clone, Copy)]
enum Step {
    Take(usize),
    Give(usize),
    Measure,
    Write(u64, &'static [u8]),
    Read(u64),
    Sync,
}

// Nothing is promised of what is made, so that its tests are cheap to prove.
fn made(
    alloc: Global,
    input: &[u8],
    disk: &[u8],
    piece: usize,
    failing: u64,
    stop: Option<u64>,
    room: usize,
) -> Result<MemOutside, NoMemory> {
    MemOutside::new(alloc, input, disk, piece.max(1), &[failing], stop, room)
}

fn take(outside: &mut MemOutside, buf: &mut [u8; 5], size: usize) -> Result<usize, Failed> {
    outside.take(&mut buf[..size.max(1).min(5)])
}

fn give(outside: &mut MemOutside, size: usize) -> Result<usize, Failed> {
    outside.give(&b"xyz.."[..size.min(5)])
}

// How many bytes were written. A table has no write behind the end of the file.
fn write(outside: &mut MemOutside, at: u64, bytes: &[u8]) -> Result<usize, Failed> {
    if at >= 1 << 32 {
        return Err(Failed);
    }
    if bytes.len() >= 1 << 32 {
        return Err(Failed);
    }
    if at > outside.disk().len() as u64 {
        return Err(Failed);
    }
    outside.disk_write(at, bytes)?;
    Ok(bytes.len())
}

// How many bytes the call counts.
fn done(outside: &mut MemOutside, step: Step, buf: &mut [u8; 5]) -> Result<usize, Failed> {
    match step {
        Step::Take(size) => take(outside, buf, size),
        Step::Give(size) => give(outside, size),
        Step::Measure => Ok(outside.disk_len()? as usize),
        Step::Write(at, bytes) => write(outside, at, bytes),
        Step::Read(at) => outside.disk_read(at, buf),
        Step::Sync => {
            outside.disk_sync()?;
            Ok(0)
        }
    }
}

// The call, what it answers, and the told text and the number of calls then. The room is 7 entries and 4 told bytes. Call 3 is to
// fail, 7 is past the room, and 8 and 9 come after the last.
const MOVES: &[(Step, Result<usize, Failed>, &[u8], u64)] = &[
    (Step::Take(5), Ok(2), b"", 1),
    (Step::Give(5), Ok(2), b"xy", 2),
    (Step::Take(5), Err(Failed), b"xy", 3),
    (Step::Take(1), Ok(1), b"xy", 4),
    (Step::Give(1), Ok(1), b"xyx", 5),
    (Step::Give(0), Ok(0), b"xyx", 6),
    (Step::Give(2), Err(Failed), b"xyx", 7),
    (Step::Take(4), Err(Failed), b"xyx", 8),
    (Step::Take(4), Err(Failed), b"xyx", 9),
];

const ROOM: usize = 7 * ENTRY_BYTES + 4;

const ENTRIES: &[Call] = &[
    Call::Took { bytes: 2 },
    Call::Gave { bytes: 2 },
    Call::TakeFailed,
    Call::Took { bytes: 1 },
    Call::Gave { bytes: 1 },
    Call::Gave { bytes: 0 },
    Call::TakeFailed,
];

fn has_told(outside: &MemOutside, told: &[u8], calls: u64) -> bool {
    outside.told() == told && outside.calls() == calls
}

fn has_listed(outside: &MemOutside, calls: &[Call]) -> bool {
    outside.entries() == calls
}

#[test]
fn in_memory(rt: HostRuntime) -> Result<(), Fail> {
    let mut outside = made(rt.alloc(), b"abc", b"", 2, 3, Some(7), ROOM)?;
    let mut buf = [0; 5];
    for (step, want, told, calls) in MOVES {
        assert_eq!(rt; done(&mut outside, *step, &mut buf), *want, "call {calls}");
        assert!(rt; has_told(&outside, told, *calls), "call {calls}");
    }
    assert_eq!(rt; buf, *b"cb\0\0\0");
    assert!(rt; has_listed(&outside, ENTRIES));
    Ok(())
}

#[test]
fn fault_free(rt: HostRuntime) -> Result<(), Fail> {
    let mut outside = FaultFree::new(b"abcde", 3);
    let mut buf = [0; 4];
    assert_eq!(rt; outside.take(&mut buf), Ok(3));
    assert_eq!(rt; outside.give(b"more than a piece"), Ok(17));
    assert_eq!(rt; outside.take(&mut buf), Ok(2));
    assert_eq!(rt; outside.take(&mut buf), Ok(0));
    assert_eq!(rt; buf, *b"dec\0");
    Ok(())
}

// Whether this is the file as it reads and as it was synced last, and these are the writes since.
fn has_file(outside: &MemOutside, disk: &[u8], synced: &[u8], writes: &[(u64, u64)]) -> bool {
    for (place, write) in writes.iter().enumerate() {
        if outside.written(place) != Some(*write) {
            return false;
        }
    }
    if outside.disk() != disk {
        return false;
    }
    outside.synced() == synced && outside.written(writes.len()).is_none()
}

// What is done, what it answers, and then the file as it reads, as it was synced last, and the writes since.
type Row = (
    Step,
    Result<usize, Failed>,
    &'static [u8],
    &'static [u8],
    &'static [(u64, u64)],
);

// A file of four bytes. Call 4, a write, fails; call 6, a sync, does not.
const STEPS: &[Row] = &[
    (Step::Measure, Ok(4), b"abcd", b"abcd", &[]),
    (Step::Write(3, b"xyz"), Ok(3), b"abcxyz", b"abcd", &[(3, 3)]),
    (
        Step::Write(0, b"m"),
        Ok(1),
        b"mbcxyz",
        b"abcd",
        &[(3, 3), (0, 1)],
    ),
    (
        Step::Write(1, b"no"),
        Err(Failed),
        b"mbcxyz",
        b"abcd",
        &[(3, 3), (0, 1), (1, 2)],
    ),
    (
        Step::Read(2),
        Ok(4),
        b"mbcxyz",
        b"abcd",
        &[(3, 3), (0, 1), (1, 2)],
    ),
    (Step::Sync, Ok(0), b"mbcxyz", b"mbcxyz", &[]),
];

#[test]
fn a_file_in_memory(rt: HostRuntime) -> Result<(), Fail> {
    let mut outside = made(rt.alloc(), b"", b"abcd", 1, 4, None, 1 << 10)?;
    let mut buf = [0; 5];
    for (place, (step, want, disk, synced, writes)) in STEPS.iter().enumerate() {
        assert_eq!(rt; done(&mut outside, *step, &mut buf), *want, "step {place}");
        assert!(rt; has_file(&outside, disk, synced, writes), "step {place}");
    }
    assert_eq!(rt; buf, *b"cxyz\0");
    Ok(())
}

// The length of the file, for whoever opens it anew.
fn measured(rt: &HostRuntime, path: &str, may_write: bool) -> Result<u64, Failed> {
    RealOutside::new(rt, Some(path), may_write).disk_len()
}

fn fill(outside: &mut RealOutside<HostRuntime>) -> Result<(), Failed> {
    outside.disk_write(0, b"abcd")?;
    outside.disk_write(1, b"xy")?;
    outside.disk_sync()
}

// What a reader finds from the second byte on, and what a write of its own answers.
fn read_four(rt: &HostRuntime, path: &str) -> (Result<usize, Failed>, [u8; 5], Result<(), Failed>) {
    let mut reader = RealOutside::new(rt, Some(path), false);
    let mut buf = [0; 5];
    let read = reader.disk_read(1, &mut buf);
    (read, buf, reader.disk_write(0, b"no"))
}

// What the disk calls write is what they read, in a new file that this program alone may write.
#[test]
fn a_real_file(rt: HostRuntime) -> Result<(), Fail> {
    let id = process::id(rt.process());
    let path = format!(in rt.alloc(); "/tmp/bgt_outside_{id}")?;
    let mut outside = RealOutside::new(&rt, Some(path.as_str()), true);
    assert_eq!(rt; outside.disk_len(), Ok(0));
    assert_eq!(rt; fill(&mut outside), Ok(()));
    assert_eq!(rt; measured(&rt, &path, true), Err(Failed));
    let found = read_four(&rt, &path);
    assert_eq!(rt; found, (Ok(3), *b"xyd\0\0", Err(Failed)));
    assert_eq!(rt; outside.disk_len(), Ok(4));
    fs::remove_file(&rt, path.as_str())?;
    assert_eq!(rt; measured(&rt, &path, false), Err(Failed));
    Ok(())
}

// What is measured of what is no file, and what telling nothing answers then.
fn refused(
    rt: &HostRuntime,
    path: &str,
    may_write: bool,
) -> (Result<u64, Failed>, Result<usize, Failed>) {
    let mut outside = RealOutside::new(rt, Some(path), may_write);
    (outside.disk_len(), outside.give(b""))
}

// A folder is no file, and neither are a device and a pipe.
#[test]
fn no_files(rt: HostRuntime) -> Result<(), Fail> {
    // Whoever opens this pipe waits, since nobody can write into it.
    let (source, sink) = io::pipe(&rt)?;
    drop(sink);
    let pipe = format!(in rt.alloc(); "/proc/self/fd/{}", source.as_raw_fd())?;
    for path in ["/tmp", "/dev/zero", pipe.as_str()] {
        for may_write in [false, true] {
            assert_eq!(rt;
                refused(&rt, path, may_write),
                (Err(Failed), Ok(0)),
                "{path}"
            );
        }
    }
    Ok(())
}
