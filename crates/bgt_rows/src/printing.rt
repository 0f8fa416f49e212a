//! Messages, read and printed: what one way of writing makes of the many that are read.

use message_text::{Limits, print_message, read_message};
use std::alloc::Global;
use std::test::Fail;

// A text with each kind of line, in other spellings than the printed ones: closing points, leading zeros, `-0`, fractions.
const WRITTEN: &str = "BERICHT G0001 2024-01-01T00:00:01.50
GEBIED
RING 100000 400000 100010.5 400000 000100010.50 400010 100000 400010 100000 400000
GAT 100002 400002 100002 400003.25 -0 400003
T G0001.00000000000000000000000000000001 onbegroeid_terreindeel -00 2024-01-01 fysiekVoorkomen=erf
RING -5.1 400000 100010 400000 100010 400010.001
W G0001.00000000000000000000000000000002 2023-12-31T23:59:59.000 pand -07 2024-01-01 bagpnd=0363100012345678
RING 1 400000 2 400000 1 400001 1 400000 1 400000
GAT 1 400000
V G0001.00000000000000000000000000000003 2023-12-31T00:00:00.001 2024-02-29
EINDE
";

// The same message as it is printed.
const PRINTED: &str = "BERICHT G0001 2024-01-01T00:00:01.500
GEBIED
RING 100000.000 400000.000 100010.500 400000.000 100010.500 400010.000 100000.000 400010.000
GAT 100002.000 400002.000 100002.000 400003.250 0.000 400003.000
T G0001.00000000000000000000000000000001 onbegroeid_terreindeel 0 2024-01-01 fysiekVoorkomen=erf
RING -5.100 400000.000 100010.000 400000.000 100010.000 400010.001
W G0001.00000000000000000000000000000002 2023-12-31T23:59:59 pand -7 2024-01-01 bagpnd=0363100012345678
RING 1.000 400000.000 2.000 400000.000 1.000 400001.000 1.000 400000.000 1.000 400000.000
GAT 1.000 400000.000
V G0001.00000000000000000000000000000003 2023-12-31T00:00:00.001 2024-02-29
EINDE
";

// The printed text of the message that the text is. No text where it is none or memory is refused.
fn printed(alloc: Global, text: &[u8]) -> Result<Vec<u8>, Fail> {
    let Ok(message) = read_message(alloc, text, &Limits::standard()) else {
        return Ok(Vec::new(alloc));
    };
    let Ok(printed) = print_message(alloc, &message) else {
        return Ok(Vec::new(alloc));
    };
    Ok(printed.as_slice().to_vec(alloc)?)
}

#[test]
fn one_way_of_writing(rt: HostRuntime) -> Result<(), Fail> {
    for text in [WRITTEN, PRINTED] {
        let bytes = printed(rt.alloc(), text.as_bytes())?;
        assert_eq!(rt; bytes.as_slice(), PRINTED.as_bytes());
    }
    Ok(())
}
