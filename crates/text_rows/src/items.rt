use field_text::read_day;
use imgeo_types::*;
use rd_plane::{NoMemory, Pt, Ring, Rings};
use std::alloc::{AllocError, Global};
use std::collections::BTreeMap;

#[test]
fn holders(rt: HostRuntime) {
    let rows = [
        ("G0001", true),
        ("A0000", true),
        ("Z9999", true),
        ("", false),
        ("G001", false),
        ("G00001", false),
        ("g0001", false),
        ("@0001", false),
        ("[0001", false),
        ("00001", false),
        ("G/001", false),
        ("G:001", false),
        ("G000/", false),
        ("G000:", false),
        ("G000A", false),
    ];
    for (field, want) in rows {
        match Holder::read(field.as_bytes()) {
            Some(holder) => {
                assert!(rt; want, "at {field}");
                assert_eq!(rt; holder.bytes(), field.as_bytes(), "at {field}");
            }
            None => assert!(rt; !want, "at {field}"),
        }
    }
}

#[test]
fn idents(rt: HostRuntime) {
    let rows = [
        ("G0001.0123456789abcdefghijklmnopqrstuv", true),
        ("G0001.zZaA9876543210ABCDEFGHIJKLMNOPQR", true),
        ("", false),
        ("G0001.0123456789abcdefghijklmnopqrstu", false),
        ("G0001.0123456789abcdefghijklmnopqrstuvw", false),
        ("g0001.0123456789abcdefghijklmnopqrstuv", false),
        ("G000A.0123456789abcdefghijklmnopqrstuv", false),
        ("G0001-0123456789abcdefghijklmnopqrstuv", false),
        ("G0001._123456789abcdefghijklmnopqrstuv", false),
        ("G0001.0123456789abcdefghijklmnopqrstu_", false),
        ("G0001./123456789abcdefghijklmnopqrstu@", false),
        ("G0001.:123456789abcdefghijklmnopqrstuv", false),
        ("G0001.0123456789abcdefghijklmnopqrstu[", false),
        ("G0001.0123456789abcdefghijklmnopqrstu`", false),
        ("G0001.0123456789abcdefghijklmnopqrstu{", false),
        ("G0001.0123456789abcdefghijklmnopqrst v", false),
    ];
    for (field, want) in rows {
        match Ident::read(field.as_bytes()) {
            Some(ident) => {
                assert!(rt; want, "at {field}");
                assert_eq!(rt; ident.bytes(), field.as_bytes(), "at {field}");
                assert_eq!(rt; ident.holder().bytes(), b"G0001".as_slice(), "at {field}");
            }
            None => assert!(rt; !want, "at {field}"),
        }
    }
}

// Digits stand before capitals, and capitals before small letters.
#[test]
fn idents_in_order(rt: HostRuntime) -> Result<(), AllocError> {
    let fields = [
        "G0001.00000000000000000000000000000001",
        "G0001.A0000000000000000000000000000000",
        "G0001.a0000000000000000000000000000000",
        "G0002.00000000000000000000000000000000",
    ];
    let mut map = BTreeMap::new(rt.alloc());
    for (place, field) in fields.iter().enumerate() {
        let Some(ident) = Ident::read(field.as_bytes()) else {
            assert!(rt; false, "at {field}");
            return Ok(());
        };
        if let Some((last, _)) = map.last_key_value() {
            assert!(rt; *last < ident, "at {field}");
        }
        map.insert(ident, place)?;
        assert_eq!(rt; map.get(&ident), Some(&place), "at {field}");
    }
    assert_eq!(rt; map.len(), 4);
    Ok(())
}

#[test]
fn codes(rt: HostRuntime) {
    let full = "x123456789_123456789-123456789A123456789B123456789C123456789D123";
    let over = "x123456789_123456789-123456789A123456789B123456789C123456789D1234";
    let rows = [
        ("a", true),
        ("_", true),
        ("-", true),
        ("niet-bgt", true),
        ("OV-baan", true),
        ("0599100000012345", true),
        (full, true),
        (over, false),
        ("", false),
        ("a b", false),
        (" a", false),
        ("a\n", false),
        (".a", false),
        ("a/", false),
        ("a:", false),
        ("@", false),
        ("[", false),
        ("^", false),
        ("`", false),
        ("{", false),
        ("\u{e9}", false),
    ];
    for (field, want) in rows {
        match Code::read(field.as_bytes()) {
            Some(code) => {
                assert!(rt; want, "at {field}");
                assert_eq!(rt; code.bytes(), field.as_bytes(), "at {field}");
            }
            None => assert!(rt; !want, "at {field}"),
        }
    }
}

#[test]
fn kinds(rt: HostRuntime) {
    let rows = [
        ("wegdeel", Kind::Wegdeel, true, true),
        (
            "ondersteunend_wegdeel",
            Kind::OndersteunendWegdeel,
            true,
            true,
        ),
        (
            "begroeid_terreindeel",
            Kind::BegroeidTerreindeel,
            true,
            true,
        ),
        (
            "onbegroeid_terreindeel",
            Kind::OnbegroeidTerreindeel,
            true,
            true,
        ),
        ("waterdeel", Kind::Waterdeel, true, true),
        (
            "ondersteunend_waterdeel",
            Kind::OndersteunendWaterdeel,
            true,
            true,
        ),
        ("pand", Kind::Pand, true, false),
        ("overig_bouwwerk", Kind::OverigBouwwerk, true, false),
        ("kunstwerkdeel", Kind::Kunstwerkdeel, true, false),
        ("scheiding", Kind::Scheiding, true, false),
        (
            "ongeclassificeerd_object",
            Kind::OngeclassificeerdObject,
            true,
            false,
        ),
        ("overbruggingsdeel", Kind::Overbruggingsdeel, false, false),
        ("tunneldeel", Kind::Tunneldeel, false, false),
    ];
    for (word, kind, dividing, plane) in rows {
        assert_eq!(rt; Kind::read(word.as_bytes()), Some(kind), "at {word}");
        assert_eq!(rt; kind.word().as_bytes(), word.as_bytes(), "at {word}");
        assert_eq!(rt; kind.dividing(), dividing, "at {word}");
        assert_eq!(rt; kind.plane(), plane, "at {word}");
    }
    for word in [
        "",
        "Pand",
        "PAND",
        "pan",
        "pand ",
        "panden",
        "wegdeel\n",
        "ondersteunend wegdeel",
    ] {
        assert_eq!(rt; Kind::read(word.as_bytes()), None, "at {word}");
    }
}

#[test]
fn attributes(rt: HostRuntime) {
    assert_eq!(rt; Attr::Functie.word(), "functie");
    assert_eq!(rt; Attr::Voorkomen.word(), "fysiekVoorkomen");
    assert_eq!(rt; Attr::Soort.word(), "type");
}

// A square ring from the origin on.
fn ring(alloc: Global, side: i64) -> Result<Ring, NoMemory> {
    let south = 300_000_000;
    let mut ring = Ring::new(alloc);
    for (x, y) in [
        (0, south),
        (side, south),
        (side, south + 1000),
        (0, south + 1000),
    ] {
        if let Some(corner) = Pt::new(x, y) {
            ring.push(corner)?;
        }
    }
    Ok(ring)
}

#[test]
fn items(rt: HostRuntime) -> Result<(), NoMemory> {
    let mut rings = Rings::new(rt.alloc());
    rings.push(ring(rt.alloc(), 1000)?)?;
    rings.push(ring(rt.alloc(), 5000)?)?;
    let Ok(begin) = read_day(b"2024-02-29") else {
        assert!(rt; false, "no day");
        return Ok(());
    };
    let item = Item {
        kind: Kind::Wegdeel,
        level: -1,
        begin,
        functie: Code::read(b"fietspad"),
        voorkomen: Code::read(b"open_verharding"),
        soort: None,
        pand: None,
        rings,
    };
    let copy = item.copy(rt.alloc())?;
    assert_eq!(rt; copy.kind, item.kind);
    assert_eq!(rt; copy.level, item.level);
    assert_eq!(rt; copy.begin, item.begin);
    assert_eq!(rt; copy.functie, Code::read(b"fietspad"));
    assert_eq!(rt; copy.voorkomen, Code::read(b"open_verharding"));
    assert_eq!(rt; copy.soort, None);
    assert_eq!(rt; copy.pand, None);
    assert_eq!(rt; copy.rings.len(), 2);
    for (copied, ring) in copy.rings.as_slice().iter().zip(item.rings.as_slice()) {
        assert_eq!(rt; copied.as_slice(), ring.as_slice());
    }
    Ok(())
}
