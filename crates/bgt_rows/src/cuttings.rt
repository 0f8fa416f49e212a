//! A square that is cut at random into strips is accepted; with one corner of one strip moved by a millimetre it is refused. The reply
//! is worked out here from the rule, edge by edge.

use crate::runs::checked;
use std::alloc::{AllocError, Global};
use std::test::Fail;

/// Millimetres to the east and to the north of the square's first corner.
type Point = (i64, i64);

type Side = (Point, Point);

const WIDTH: i64 = 10_000;

/// The next number of a row that is the same in each run.
fn next(seed: &mut u64) -> i64 {
    *seed = seed
        .wrapping_mul(6_364_136_223_846_793_005)
        .wrapping_add(1_442_695_040_888_963_407);
    (*seed >> 40) as i64
}

/// Where the strips meet: on the south side, in the middle of their height, and on the north side.
fn borders(alloc: Global, seed: &mut u64) -> Result<Vec<[Point; 3]>, AllocError> {
    let (strips, step): (i64, i64) = match next(seed) % 4 {
        0 => (2, 5_000),
        1 => (3, 3_333),
        2 => (4, 2_500),
        _ => (5, 2_000),
    };
    let mut found = Vec::new(alloc);
    for k in 0..=strips {
        let inner = 0 < k && k < strips;
        let x = step
            .wrapping_mul(k)
            .wrapping_add(if inner { next(seed) % 3 } else { 0 });
        let x = if k == strips { WIDTH } else { x };
        let middle = x.wrapping_add(if inner { next(seed) % 3 - 1 } else { 0 });
        let height = if inner { 4_999 + next(seed) % 3 } else { 5_000 };
        found.push([(x, 0), (middle, height), (x, WIDTH)])?;
    }
    Ok(found)
}

/// The ring of the strip between two borders.
fn strip(alloc: Global, west: &[Point; 3], east: &[Point; 3]) -> Result<Vec<Point>, AllocError> {
    let mut ring = Vec::new(alloc);
    for point in [west[0], east[0], east[1], east[2], west[2], west[1]] {
        ring.push(point)?;
    }
    Ok(ring)
}

/// The ring of the square: the south ends of the borders, and their north ends back.
fn outline(alloc: Global, borders: &[[Point; 3]]) -> Result<Vec<Point>, AllocError> {
    let mut ring = Vec::new(alloc);
    for border in borders {
        ring.push(border[0])?;
    }
    ring.push((WIDTH, 5_000))?;
    for border in borders.iter().rev() {
        ring.push(border[2])?;
    }
    ring.push((0, 5_000))?;
    Ok(ring)
}

/// A coordinate as the program prints it.
fn push_number(alloc: Global, text: &mut String, value: i64) -> Result<(), AllocError> {
    let rest = value % 1_000;
    let number = format!(in alloc;
        " {}.{}{}{}",
        value / 1_000,
        rest / 100,
        rest / 10 % 10,
        rest % 10
    )?;
    text.push_str(&number)?;
    Ok(())
}

fn push_point(alloc: Global, text: &mut String, point: Point) -> Result<(), AllocError> {
    push_number(alloc, text, point.0.wrapping_add(100_000_000))?;
    push_number(alloc, text, point.1.wrapping_add(400_000_000))
}

fn push_ring(alloc: Global, text: &mut String, ring: &[Point]) -> Result<(), AllocError> {
    text.push_str("RING")?;
    for point in ring {
        push_point(alloc, text, *point)?;
    }
    text.push_str("\n")?;
    Ok(())
}

/// The message with this area and these parts.
fn message(alloc: Global, area: &[Point], parts: &[Vec<Point>]) -> Result<String, AllocError> {
    let mut text = String::new(alloc);
    text.push_str("BERICHT G0001 2024-01-01T00:00:01\nGEBIED\n")?;
    push_ring(alloc, &mut text, area)?;
    for (k, part) in parts.iter().enumerate() {
        text.push_str("T G0001.0000000000000000000000000000000")?;
        text.push_str(&format!(in alloc; "{}", k % 10)?)?;
        text.push_str(" onbegroeid_terreindeel 0 2024-01-01 fysiekVoorkomen=erf\n")?;
        push_ring(alloc, &mut text, part)?;
    }
    text.push_str("EINDE\n")?;
    Ok(text)
}

/// Adds the sides of a ring, each run the other way where that is asked.
fn push_sides(sides: &mut Vec<Side>, ring: &[Point], turned: bool) -> Result<(), AllocError> {
    for (k, from) in ring.iter().enumerate() {
        let to = match ring.get(k.wrapping_add(1)) {
            Some(to) => *to,
            None => match ring.first() {
                Some(first) => *first,
                None => *from,
            },
        };
        sides.push(if turned { (to, *from) } else { (*from, to) })?;
    }
    Ok(())
}

fn comes_before(a: Point, b: Point) -> bool {
    if a.0 != b.0 {
        return a.0 < b.0;
    }
    a.1 < b.1
}

fn side_comes_before(a: Side, b: Side) -> bool {
    if a.0 != b.0 {
        return comes_before(a.0, b.0);
    }
    comes_before(a.1, b.1)
}

fn is_between(low: i64, value: i64, high: i64) -> bool {
    (low <= value && value <= high) || (high <= value && value <= low)
}

/// Whether the point lies on the side and is no end of it.
fn is_inside(point: Point, side: Side) -> bool {
    let (a, b) = side;
    if point == a || point == b {
        return false;
    }
    let east = b
        .0
        .wrapping_sub(a.0)
        .wrapping_mul(point.1.wrapping_sub(a.1));
    let north = b
        .1
        .wrapping_sub(a.1)
        .wrapping_mul(point.0.wrapping_sub(a.0));
    east == north && is_between(a.0, point.0, b.0) && is_between(a.1, point.1, b.1)
}

/// The least corner inside a side, and the least such side.
fn node(sides: &[Side]) -> Option<(Point, Side)> {
    let mut least: Option<(Point, Side)> = None;
    for end in sides {
        for side in sides {
            if is_inside(end.0, *side) {
                least = match least {
                    Some((point, known)) => {
                        if comes_before(end.0, point)
                            || (end.0 == point && side_comes_before(*side, known))
                        {
                            Some((end.0, *side))
                        } else {
                            Some((point, known))
                        }
                    }
                    None => Some((end.0, *side)),
                };
            }
        }
    }
    least
}

/// The least side that occurs twice, or whose reverse does not occur.
fn wrong_side(sides: &[Side]) -> Option<Side> {
    let mut least: Option<Side> = None;
    for side in sides {
        let same = sides.iter().filter(|other| **other == *side).count();
        let reverse = sides
            .iter()
            .filter(|other| **other == (side.1, side.0))
            .count();
        if same > 1 || reverse == 0 {
            least = match least {
                Some(known) => Some(if side_comes_before(*side, known) {
                    *side
                } else {
                    known
                }),
                None => Some(*side),
            };
        }
    }
    least
}

/// The reply that the rule gives the map.
fn reply(alloc: Global, area: &[Point], parts: &[Vec<Point>]) -> Result<String, AllocError> {
    let mut sides = Vec::new(alloc);
    push_sides(&mut sides, area, true)?;
    for part in parts {
        push_sides(&mut sides, part, false)?;
    }
    let mut text = String::new(alloc);
    if let Some((point, side)) = node(&sides) {
        text.push_str("1 E19 NODE")?;
        push_point(alloc, &mut text, point)?;
        push_point(alloc, &mut text, side.0)?;
        push_point(alloc, &mut text, side.1)?;
    } else if let Some(side) = wrong_side(&sides) {
        text.push_str("1 E20 TILED")?;
        push_point(alloc, &mut text, side.0)?;
        push_point(alloc, &mut text, side.1)?;
    } else {
        text.push_str("1 OK")?;
    }
    text.push_str("\n")?;
    Ok(text)
}

/// Moves the corner on the east of the first strip, and of that one alone.
fn move_corner(part: &mut [Point], seed: &mut u64) {
    if let Some(corner) = part.get_mut(2) {
        let (east, north) = match next(seed) % 4 {
            0 => (1, 0),
            1 => (-1, 0),
            2 => (0, 1),
            _ => (0, -1),
        };
        *corner = (corner.0.wrapping_add(east), corner.1.wrapping_add(north));
    }
}

#[test]
fn one_hundred_cuttings(rt: HostRuntime) -> Result<(), Fail> {
    let alloc = rt.alloc();
    let mut seed = 1;
    for k in 0..100 {
        let borders = borders(alloc, &mut seed)?;
        let area = outline(alloc, &borders)?;
        let mut parts = Vec::new(alloc);
        for pair in borders.windows(2) {
            parts.push(strip(alloc, &pair[0], &pair[1])?)?;
        }
        let (told, _) = checked(alloc, message(alloc, &area, &parts)?.as_bytes(), 65_536)?;
        assert_eq!(rt; told.as_slice(), b"1 OK\n".as_slice(), "cutting {k}");
        if let Some(first) = parts.first_mut() {
            move_corner(first, &mut seed);
        }
        let want = reply(alloc, &area, &parts)?;
        let (told, _) = checked(alloc, message(alloc, &area, &parts)?.as_bytes(), 65_536)?;
        assert_eq!(rt; told.as_slice(), want.as_bytes(), "cutting {k}, moved");
        assert!(rt;
            want.as_bytes() != b"1 OK\n".as_slice(),
            "cutting {k}, moved"
        );
    }
    Ok(())
}
