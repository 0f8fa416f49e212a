//! A map that is whole and one with a gap, tried on one counter.

ghost use Rattle.std.specs.Prelude.{◌≡◌, ◌<◌, IfOk};
ghost use Rattle.map_rules.specs.Counted.{IsCounted};

use crate::tries::try_both;
use edge_arena::Steps;
use imgeo_types::Holder;
use map_core::Core;
use message_text::{Limits, Message, read_message};
use rd_plane::NoMemory;
use std::alloc::Global;
use std::marker::Brand;
use std::sync::ledger::{Blank, Ledger};

const WHOLE: &[u8] = b"BERICHT G0001 2024-01-01T00:00:01
GEBIED
RING 100000 400000 100010 400000 100010 400010 100000 400010
T G0001.00000000000000000000000000000001 onbegroeid_terreindeel 0 2024-01-01 fysiekVoorkomen=erf
RING 100000 400000 100010 400000 100010 400010 100000 400010
EINDE
";

// The object leaves one millimetre of the area bare.
const GAP: &[u8] = b"BERICHT G0001 2024-01-01T00:00:01
GEBIED
RING 100000 400000 100010 400000 100010 400010 100000 400010
T G0001.00000000000000000000000000000001 onbegroeid_terreindeel 0 2024-01-01 fysiekVoorkomen=erf
RING 100000 400000 100010 400000 100010 400009.999 100000 400010
EINDE
";

/// The message of a text.
pub(crate) fn message_of(alloc: Global, text: &[u8]) -> Result<Message, NoMemory>
    ensures { IfOk result IsCounted }
{
    let limits = Limits::standard();
    match read_message(alloc, text, &limits) {
        Ok(message) => Ok(message),
        Err(_) => Err(NoMemory),
    }
}

fn tried<L: Ledger>(alloc: Global, blank: Blank) -> Result<(bool, bool), NoMemory>
    requires name { blank.name ≡ L.name }
    requires parts { blank.parts ≡ L.parts }
    requires counts { 0 < L.parts }
{
    let whole = message_of(alloc, WHOLE)?;
    let gap = message_of(alloc, GAP)?;
    let mut core = Core::new(alloc, &Limits::standard());
    let mut steps = Steps::<L>::new(blank);
    Ok(try_both(&mut core, alloc, &whole, &gap, &mut steps))
}

#[test]
fn two_tries(rt: HostRuntime) -> Result<(), NoMemory> {
    assert_eq!(rt; tried::<Brand>(rt.alloc(), Blank::new(1))?, (true, false));
    Ok(())
}

// A holder without an accepted message has no half-edges, and one with a message has those of its map.
#[test]
fn grounds(rt: HostRuntime) -> Result<(), NoMemory> {
    let alloc = rt.alloc();
    let Some(holder) = Holder::read(b"G0001") else {
        return Ok(());
    };
    let mut core = Core::new(alloc, &Limits::standard());
    assert!(rt; core.ground(holder).is_none());
    let whole = message_of(alloc, WHOLE)?;
    let Ok(()) = core.try_uncounted(alloc, &whole) else {
        return Err(NoMemory);
    };
    core.commit();
    assert!(rt; core.ground(holder).is_some());
    Ok(())
}
