//! One ring: a shape by itself, or why it is none.

use crate::built::ring;
use part_shape::{Shape, SingleFault};
use rd_plane::{NoMemory, Ring};
use ring_simple::RingFault;
use std::alloc::Global;

// The fault of a ring by itself, none where it is a shape of one ring. Want of memory is an error.
pub fn fault_of(alloc: Global, ring: &Ring) -> Result<Option<SingleFault>, NoMemory> {
    if ring.len() >= 1 << 32 {
        return Err(NoMemory);
    }
    match Shape::single(alloc, ring) {
        Ok(shape) => {
            if shape.rings().len() != 1 {
                return Err(NoMemory);
            }
            Ok(None)
        }
        Err(SingleFault::NoMemory) => Err(NoMemory),
        Err(fault) => Ok(Some(fault)),
    }
}

type Corners = &'static [(i64, i64)];

const SINGLES: &[(Corners, Option<SingleFault>)] = &[
    (&[(0, 0), (10, 0), (10, 10), (0, 10)], None),
    // a corner in the middle of a side
    (&[(0, 0), (5, 0), (10, 0), (10, 10), (0, 10)], None),
    // the least corner is the last, and its neighbours are east of it
    (&[(10, -20), (9, 0), (10, 20), (0, 5)], None),
    // the least corner stands under another at the same x
    (&[(0, 10), (0, 0), (10, 5)], None),
    // no convex ring: left at the least corner, right at others
    (&[(0, 0), (10, 0), (5, 1), (10, 2), (0, 2)], None),
    (
        &[(0, 0), (0, 10), (10, 10), (10, 0)],
        Some(SingleFault::Clockwise),
    ),
    (
        &[(0, 2), (10, 2), (5, 1), (10, 0), (0, 0)],
        Some(SingleFault::Clockwise),
    ),
    (
        &[(0, 0), (10, 10), (10, 0), (0, 10)],
        Some(SingleFault::Ring {
            fault: RingFault::Meets {
                first: 0,
                second: 2,
            },
        }),
    ),
    (
        &[(0, 0), (5, 5), (10, 0), (5, 5), (0, 10)],
        Some(SingleFault::Ring {
            fault: RingFault::Repeat { at: 3 },
        }),
    ),
    (
        &[(0, 0), (10, 0), (0, 0)],
        Some(SingleFault::Ring {
            fault: RingFault::Repeat { at: 2 },
        }),
    ),
    (
        &[(0, 0), (10, 0)],
        Some(SingleFault::Ring {
            fault: RingFault::Few,
        }),
    ),
];

#[test]
fn singles(rt: HostRuntime) -> Result<(), NoMemory> {
    for (i, (corners, want)) in SINGLES.iter().enumerate() {
        let ring = ring(rt.alloc(), corners)?;
        assert!(rt; fault_of(rt.alloc(), &ring)? == *want, "row {i}");
    }
    Ok(())
}
