//! A file of one message that is cut, or has one byte changed: what `load` tells of it, the file then, and how it ends.

use crate::load::{EMPTY, KEPT, ONE, loaded};
use bgt_cli::Status;
use message_text::Limits;
use std::alloc::Global;
use std::test::Fail;

// What comes of the file that is cut to so many bytes.
fn cut(size: usize) -> (&'static [u8], &'static [u8], Status) {
    if size <= 9 {
        return (b"", EMPTY, Status::Good);
    }
    if size < KEPT.len() {
        return (b"DAMAGED 8\n", &KEPT[..size], Status::BadJournal);
    }
    (b"", KEPT, Status::Good)
}

#[test]
fn at_each_length(rt: HostRuntime) -> Result<(), Fail> {
    for size in 0..KEPT.len() + 1 {
        let (told, file, ends) = cut(size);
        let had = loaded(rt.alloc(), &Limits::standard(), b"", &KEPT[..size], &[])?;
        assert_eq!(rt; had.0.as_slice(), told, "{size} bytes");
        assert_eq!(rt; had.1.as_slice(), file, "{size} bytes");
        assert_eq!(rt; had.2, ends, "{size} bytes");
    }
    Ok(())
}

// The file with another byte at one place.
fn changed(alloc: Global, place: usize, byte: u8) -> Result<Vec<u8>, Fail> {
    let mut file = KEPT.to_vec(alloc)?;
    if let Some(at) = file.get_mut(place) {
        *at = byte;
    }
    Ok(file)
}

// From which place on, before which place, and which byte stands there then; what is told; whether the file becomes what it was.
const CHANGES: [(usize, usize, u8, &[u8], bool, Status); 6] = [
    // the mark
    (0, 8, 255, b"NOTJOURNAL\n", false, Status::BadJournal),
    // the first gate, which is closed by each byte but 1
    (8, 9, 0, b"1 OK\n", true, Status::Good),
    (8, 9, 2, b"1 OK\n", true, Status::Good),
    // the length, and the text
    (9, 17, 255, b"DAMAGED 8\n", false, Status::BadJournal),
    (17, 57, 0, b"DAMAGED 8\n", false, Status::BadJournal),
    // the gate behind it, which opens
    (57, 58, 1, b"DAMAGED 57\n", false, Status::BadJournal),
];

#[test]
fn in_each_byte(rt: HostRuntime) -> Result<(), Fail> {
    for (from, to, byte, told, is_made_whole, ends) in CHANGES {
        for place in from..to {
            let file = changed(rt.alloc(), place, byte)?;
            let had = loaded(rt.alloc(), &Limits::standard(), ONE, &file, &[])?;
            let then = if is_made_whole { KEPT } else { file.as_slice() };
            assert_eq!(rt; had.0.as_slice(), told, "{byte} at {place}");
            assert_eq!(rt; had.1.as_slice(), then, "{byte} at {place}");
            assert_eq!(rt; had.2, ends, "{byte} at {place}");
        }
    }
    Ok(())
}
