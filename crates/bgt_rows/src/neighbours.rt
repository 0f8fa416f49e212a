//! Neighbours: a thousand holders side by side, and objects that change with those beside them in one message.

use crate::runs::{checked, joined};
use bgt_cli::Status;
use std::alloc::{AllocError, Global};
use std::test::Fail;

const HOLDERS: u32 = 1000;

// A square of ten metres, east of the one of the number before.
fn square(alloc: Global, k: u32) -> Result<String, AllocError> {
    let west = k.wrapping_mul(10).wrapping_add(100_000);
    let east = west.wrapping_add(10);
    format!(in alloc; "RING {west} 400000 {east} 400000 {east} 400010 {west} 400010\n")
}

// The message of a holder whose one object is its whole area.
fn message(alloc: Global, holder: &str, ring: &str) -> Result<String, AllocError> {
    joined(
        alloc,
        &[
            "BERICHT G",
            holder,
            " 2024-01-01T00:00:01\nGEBIED\n",
            ring,
            "T G",
            holder,
            ".00000000000000000000000000000001 onbegroeid_terreindeel 0 2024-01-01 fysiekVoorkomen=erf\n",
            ring,
            "EINDE\n",
        ],
    )
}

// Adds the message of the holder at k.
fn push_message(alloc: Global, stream: &mut String, k: u32) -> Result<(), AllocError> {
    let holder = format!(in alloc; "{}", k.wrapping_add(1000))?;
    let ring = square(alloc, k)?;
    stream.push_str(&message(alloc, &holder, &ring)?)
}

// Adds the reply to it.
fn push_reply(alloc: Global, replies: &mut String, k: u32) -> Result<(), AllocError> {
    let line = format!(in alloc; "{} OK\n", k.wrapping_add(1))?;
    replies.push_str(&line)
}

// The messages of all holders, and the reply lines.
fn side_by_side(alloc: Global) -> Result<(String, String), AllocError> {
    let mut stream = String::new(alloc);
    let mut replies = String::new(alloc);
    for k in 0..HOLDERS {
        push_message(alloc, &mut stream, k)?;
        push_reply(alloc, &mut replies, k)?;
    }
    Ok((stream, replies))
}

#[test]
fn a_thousand_holders(rt: HostRuntime) -> Result<(), Fail> {
    let (stream, replies) = side_by_side(rt.alloc())?;
    let (told, ends) = checked(rt.alloc(), stream.as_bytes(), 1 << 16)?;
    assert_eq!(rt; told.as_slice(), replies.as_bytes());
    assert_eq!(rt; ends, Status::Good);
    Ok(())
}

// Three objects in a row. Then the first ends and the second takes its ground, and the third gives half of its own to a new one.
const ROW: &str = "BERICHT G0001 2024-01-01T00:00:01
GEBIED
RING 100000 400000 100010 400000 100020 400000 100025 400000 100030 400000 100030 400010 100025 400010 100020 400010 100010 400010 100000 400010
T G0001.00000000000000000000000000000001 onbegroeid_terreindeel 0 2024-01-01 fysiekVoorkomen=erf
RING 100000 400000 100010 400000 100010 400010 100000 400010
T G0001.00000000000000000000000000000002 onbegroeid_terreindeel 0 2024-01-01 fysiekVoorkomen=erf
RING 100010 400000 100020 400000 100020 400010 100010 400010
T G0001.00000000000000000000000000000003 onbegroeid_terreindeel 0 2024-01-01 fysiekVoorkomen=erf
RING 100020 400000 100025 400000 100030 400000 100030 400010 100025 400010 100020 400010
EINDE
BERICHT G0001 2024-01-01T00:00:02
V G0001.00000000000000000000000000000001 2024-01-01T00:00:01 2024-01-01
W G0001.00000000000000000000000000000002 2024-01-01T00:00:01 onbegroeid_terreindeel 0 2024-01-01 fysiekVoorkomen=erf
RING 100000 400000 100010 400000 100020 400000 100020 400010 100010 400010 100000 400010
W G0001.00000000000000000000000000000003 2024-01-01T00:00:01 onbegroeid_terreindeel 0 2024-01-01 fysiekVoorkomen=erf
RING 100020 400000 100025 400000 100025 400010 100020 400010
T G0001.00000000000000000000000000000004 onbegroeid_terreindeel 0 2024-01-01 fysiekVoorkomen=erf
RING 100025 400000 100030 400000 100030 400010 100025 400010
EINDE
";

#[test]
fn objects_in_a_row(rt: HostRuntime) -> Result<(), Fail> {
    let (told, ends) = checked(rt.alloc(), ROW.as_bytes(), 1 << 16)?;
    assert_eq!(rt; told.as_slice(), b"1 OK\n2 OK\n".as_slice());
    assert_eq!(rt; ends, Status::Good);
    Ok(())
}
