//! Random changes of a map: the register answers as the plain checks of the whole new map do.
//!
//! The map has three cells of 40 m in each of three rows. Each border between two cells of a row is straight, or has a corner in its
//! middle, which may lie a metre to either side. A change gives both cells of one border a new one, each its own.

use crate::messages::message_of;
use chain_cancel::{unmatched, unnoded};
use map_core::{Core, CoreFault, Refusal};
use message_text::Limits;
use rd_plane::{Edge, Edges, NoMemory, Pt};
use std::alloc::{AllocError, Global};

// A corner, in metres from (100000, 400000).
type Point = (i64, i64);

// How the cells have their borders: two bits for each of six, as the cells before it and those behind it have them.
#[derive(Clone, Copy)]
struct Borders {
    before: u64,
    behind: u64,
}

const HEAD: &str = " onbegroeid_terreindeel 0 2024-01-01 fysiekVoorkomen=erf\n";

const AREA: &[Point] = &[
    (0, 0),
    (40, 0),
    (80, 0),
    (120, 0),
    (120, 40),
    (120, 80),
    (120, 120),
    (80, 120),
    (40, 120),
    (0, 120),
    (0, 80),
    (0, 40),
];

// Two bits of the number, of the border at the left of column i in row j. A border of the map is straight.
fn kink(bits: u64, i: u32, j: u32) -> u64 {
    if i == 0 || i == 3 {
        return 0;
    }
    bits.wrapping_shr(
        j.wrapping_mul(4)
            .wrapping_add(i.wrapping_mul(2))
            .wrapping_sub(2),
    ) & 3
}

// Adds the corner in the middle of that border, where it has one.
fn push_kink(ring: &mut Vec<Point>, kink: u64, west: i64, south: i64) -> Result<(), AllocError> {
    let shift = match kink {
        0 => return Ok(()),
        1 => 0,
        2 => 1,
        _ => -1,
    };
    ring.push((west.wrapping_add(shift), south.wrapping_add(20)))?;
    Ok(())
}

// The ring of the cell in column i and row j.
fn cell(alloc: Global, borders: Borders, i: u32, j: u32) -> Result<Vec<Point>, AllocError> {
    let west = i64::from(i).wrapping_mul(40);
    let south = i64::from(j).wrapping_mul(40);
    let east = west.wrapping_add(40);
    let north = south.wrapping_add(40);
    let mut ring = Vec::new(alloc);
    ring.push((west, south))?;
    ring.push((east, south))?;
    push_kink(
        &mut ring,
        kink(borders.before, i.wrapping_add(1), j),
        east,
        south,
    )?;
    ring.push((east, north))?;
    ring.push((west, north))?;
    push_kink(&mut ring, kink(borders.behind, i, j), west, south)?;
    Ok(ring)
}

fn push_ring(alloc: Global, text: &mut String, ring: &[Point]) -> Result<(), AllocError> {
    text.push_str("RING")?;
    for point in ring {
        let (x, y) = *point;
        let corner = format!(in alloc; " {} {}", x.wrapping_add(100_000), y.wrapping_add(400_000))?;
        text.push_str(&corner)?;
    }
    text.push_str("\n")?;
    Ok(())
}

// Adds the cell as an object: its first word, what stands behind its identification, and its ring.
fn push_cell(
    alloc: Global,
    text: &mut String,
    words: (&str, &str),
    borders: Borders,
    place: (u32, u32),
) -> Result<(), AllocError> {
    let (i, j) = place;
    let number = j.wrapping_mul(3).wrapping_add(i);
    text.push_str(words.0)?;
    text.push_str(" G0001.0000000000000000000000000000000")?;
    text.push_str(&format!(in alloc; "{number}")?)?;
    text.push_str(words.1)?;
    text.push_str(HEAD)?;
    let ring = cell(alloc, borders, i, j)?;
    push_ring(alloc, text, &ring)
}

// The message that brings all cells.
fn first(alloc: Global, borders: Borders) -> Result<String, AllocError> {
    let mut text = String::new(alloc);
    text.push_str("BERICHT G0001 2024-01-01T00:00:01\nGEBIED\n")?;
    push_ring(alloc, &mut text, AREA)?;
    for place in 0..9u32 {
        push_cell(alloc, &mut text, ("T", ""), borders, (place % 3, place / 3))?;
    }
    text.push_str("EINDE\n")?;
    Ok(text)
}

// The message that changes the cells before and behind a border of a row.
fn second(alloc: Global, borders: Borders, i: u32, j: u32) -> Result<String, AllocError> {
    let mut text = String::new(alloc);
    text.push_str("BERICHT G0001 2024-01-01T00:00:02\n")?;
    let words = ("W", " 2024-01-01T00:00:01");
    push_cell(alloc, &mut text, words, borders, (i.wrapping_sub(1), j))?;
    push_cell(alloc, &mut text, words, borders, (i, j))?;
    text.push_str("EINDE\n")?;
    Ok(text)
}

// Adds the edge between two corners.
fn push_edge(edges: &mut Edges, from: Point, to: Point) -> Result<(), NoMemory> {
    let a = Pt::new(
        from.0.wrapping_add(100_000).wrapping_mul(1000),
        from.1.wrapping_add(400_000).wrapping_mul(1000),
    );
    let b = Pt::new(
        to.0.wrapping_add(100_000).wrapping_mul(1000),
        to.1.wrapping_add(400_000).wrapping_mul(1000),
    );
    let (Some(a), Some(b)) = (a, b) else {
        return Err(NoMemory);
    };
    let Some(edge) = Edge::new(a, b) else {
        return Err(NoMemory);
    };
    edges.push(edge)
}

// Adds the edges of the ring.
fn push_edges(edges: &mut Edges, ring: &[Point]) -> Result<(), NoMemory> {
    let Some(last) = ring.last() else {
        return Ok(());
    };
    let mut from = *last;
    for to in ring {
        push_edge(edges, from, *to)?;
        from = *to;
    }
    Ok(())
}

// What the plain checks say of the whole map.
fn plain(alloc: Global, borders: Borders) -> Result<Option<Refusal>, NoMemory> {
    let mut area = Edges::new(alloc);
    push_edges(&mut area, AREA)?;
    let mut parts = Edges::new(alloc);
    for place in 0..9u32 {
        let ring = cell(alloc, borders, place % 3, place / 3)?;
        push_edges(&mut parts, &ring)?;
    }
    if let Some((vertex, edge)) = unnoded(area.as_slice(), parts.as_slice()) {
        return Ok(Some(Refusal::Node { vertex, edge }));
    }
    let Some(edge) = unmatched(alloc, area.as_slice(), parts.as_slice())? else {
        return Ok(None);
    };
    Ok(Some(Refusal::Tiled { edge }))
}

// What the register answers to the second of two messages.
fn answered(alloc: Global, first: &[u8], second: &[u8]) -> Result<Option<Refusal>, NoMemory> {
    let first = message_of(alloc, first)?;
    let second = message_of(alloc, second)?;
    let mut core = Core::new(alloc, &Limits::standard());
    let Ok(()) = core.try_uncounted(alloc, &first) else {
        return Err(NoMemory);
    };
    core.commit();
    match core.try_uncounted(alloc, &second) {
        Ok(()) => Ok(None),
        Err(CoreFault::Refused(refusal)) => Ok(Some(refusal)),
        Err(_) => Err(NoMemory),
    }
}

// The number with two bits of it changed, those of the border at the left of column i in row j.
fn changed(bits: u64, i: u32, j: u32, kink: u64) -> u64 {
    let place = j
        .wrapping_mul(4)
        .wrapping_add(i.wrapping_mul(2))
        .wrapping_sub(2);
    bits & !3u64.wrapping_shl(place) | (kink & 3).wrapping_shl(place)
}

// The answer of the register and that of the plain checks, of the change that a number draws.
fn both(alloc: Global, drawn: u64) -> Result<(Option<Refusal>, Option<Refusal>), NoMemory> {
    let bits = drawn.wrapping_shr(16) & 4095;
    let old = Borders {
        before: bits,
        behind: bits,
    };
    let i = if drawn & 256 == 0 { 1 } else { 2 };
    let j = (drawn.wrapping_shr(32) % 3) as u32;
    let new = Borders {
        before: changed(bits, i, j, drawn.wrapping_shr(40)),
        behind: changed(bits, i, j, drawn.wrapping_shr(48)),
    };
    let first = first(alloc, old)?;
    let second = second(alloc, new, i, j)?;
    Ok((
        answered(alloc, first.as_bytes(), second.as_bytes())?,
        plain(alloc, new)?,
    ))
}

#[test]
fn changes_are_answered_as_by_the_plain_checks(rt: HostRuntime) -> Result<(), NoMemory> {
    let mut drawn = 1u64;
    let mut told = [0u32; 3];
    for _ in 0..400u32 {
        drawn = drawn
            .wrapping_mul(6_364_136_223_846_793_005)
            .wrapping_add(1_442_695_040_888_963_407);
        let (answer, want) = both(rt.alloc(), drawn)?;
        assert_eq!(rt; answer, want, "{drawn}");
        match answer {
            None => told[0] = told[0].wrapping_add(1),
            Some(Refusal::Node { .. }) => told[1] = told[1].wrapping_add(1),
            _ => told[2] = told[2].wrapping_add(1),
        }
    }
    // each answer comes often
    assert!(rt; told[0] > 40 && told[1] > 40 && told[2] > 40, "{told:?}");
    Ok(())
}
