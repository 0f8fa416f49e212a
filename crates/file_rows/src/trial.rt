//! The worked rows of `trial`: what it tells, that it touches neither input nor file, and which words ask for no test map.

use bgt_cli::Status;
use bgt_rows::runs::ran;
use message_text::Limits;
use outside::{Call, MemOutside};
use std::alloc::Global;
use std::test::Fail;

// What a run told, how it ended, and whether it did anything but tell, where these calls fail.
fn tried(
    alloc: Global,
    words: &[&str],
    limits: &Limits,
    failing: &[u64],
) -> Result<(Vec<u8>, Status, bool), Fail> {
    let mut outside = MemOutside::new(alloc, b"x", b"hello, world", 30, failing, None, 1 << 12)?;
    let ends = ran(alloc, words, limits, &mut outside);
    let only_told = outside.entries().iter().all(|call| matches!(
        call,
        Call::Gave { .. } | Call::GiveFailed
    ));
    Ok((outside.told().to_vec(alloc)?, ends, only_told))
}

// The size, and the five lines.
const ROWS: [(&str, &[u8]); 4] = [
    (
        "2",
        b"TRIAL 2\nACCEPTED 3\nREFUSED 1\nOBJECTS 4\nVERSIONS 7\n",
    ),
    (
        "3",
        b"TRIAL 3\nACCEPTED 4\nREFUSED 1\nOBJECTS 8\nVERSIONS 13\n",
    ),
    (
        "20",
        b"TRIAL 20\nACCEPTED 21\nREFUSED 1\nOBJECTS 400\nVERSIONS 430\n",
    ),
    (
        "400",
        b"TRIAL 400\nACCEPTED 401\nREFUSED 1\nOBJECTS 160000\nVERSIONS 160600\n",
    ),
];

#[test]
fn rows(rt: HostRuntime) -> Result<(), Fail> {
    for (size, want) in ROWS {
        let (told, ends, only_told) = tried(
            rt.alloc(),
            &["trial", size],
            &Limits::standard(),
            &[],
        )?;
        assert_eq!(rt; told.as_slice(), want, "size {size}");
        assert_eq!(rt; ends, Status::Good, "size {size}");
        assert!(rt; only_told, "size {size}");
    }
    Ok(())
}

// Words that ask for no test map.
const UNLISTED: &[&[&str]] = &[
    &["trial"],
    &["trial", "2", "2"],
    &["trial", ""],
    &["trial", "1"],
    &["trial", "0"],
    &["trial", "401"],
    &["trial", "02"],
    &["trial", "+2"],
    &["trial", "-2"],
    &["trial", "2.0"],
    &["trial", " 2"],
    &["trial", "4294967298"],
    &["Trial", "2"],
];

#[test]
fn other_words(rt: HostRuntime) -> Result<(), Fail> {
    for words in UNLISTED {
        let (told, ends, only_told) = tried(rt.alloc(), words, &Limits::standard(), &[])?;
        assert_eq!(rt; told.as_slice(), b"USAGE\n".as_slice(), "{words:?}");
        assert_eq!(rt; ends, Status::Usage, "{words:?}");
        assert!(rt; only_told, "{words:?}");
    }
    Ok(())
}

// The text is told in two pieces, each of which fails once: how many bytes are told then.
#[test]
fn each_call_fails(rt: HostRuntime) -> Result<(), Fail> {
    let (_, want) = ROWS[0];
    for (call, bytes) in [(1, 0), (2, 30)] {
        let words = ["trial", "2"];
        let (told, ends, only_told) = tried(rt.alloc(), &words, &Limits::standard(), &[call])?;
        assert!(rt; want.starts_with(&told), "call {call}");
        assert_eq!(rt; told.len(), bytes, "call {call}");
        assert_eq!(rt; ends, Status::WriteFault, "call {call}");
        assert!(rt; only_told, "call {call}");
    }
    Ok(())
}

// A register that may have three objects of a holder refuses the map, and so each later message that names a cell.
#[test]
fn a_small_register(rt: HostRuntime) -> Result<(), Fail> {
    let limits = Limits {
        objects: 3,
        ..Limits::standard()
    };
    let (told, ends, _) = tried(rt.alloc(), &["trial", "2"], &limits, &[])?;
    let want = b"TRIAL 2\nACCEPTED 0\nREFUSED 4\nOBJECTS 0\nVERSIONS 0\n";
    assert_eq!(rt; told.as_slice(), want.as_slice());
    assert_eq!(rt; ends, Status::Good);
    Ok(())
}
