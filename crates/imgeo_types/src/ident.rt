ghost use Rattle.std.specs.Prelude.{◌≡◌, ◌↔◌, ◌+◌, ◌≤◌, IsTrue, MatchOption, All, Some, take, drop};
ghost use Rattle.std.specs.Char.{IsAsciiAlphanumeric};
ghost use Rattle.std.specs.Cmp.Lexicographic.{nat_list_cmp_total, slice_cmp, texts_po, texts_ties};
ghost use Rattle.std.specs.Int.{from_be_bytes, w64};
ghost use Rattle.std.specs.Ordering.{is_ne, nat_cmp};
ghost use Rattle.std.proofs.Common.{refl};
ghost use Rattle.imgeo_types.specs.Eights.{eight_cmp};
ghost use Rattle.imgeo_types.specs.Fields.{IsHolder, IsIdent, holder_of};
ghost use Rattle.imgeo_types.specs.Keys.{key_cmp};

use crate::holder::{Holder, is_holder};
use rd_plane::Listed;
use std::cmp::Ordering;
use std::marker::Model;

/// The identification of an object, as IMGeo has it: its holder, a full stop, and 32 letters or digits, compared byte
/// for byte. The namespace `NL.IMGeo` is understood, and not written. Contracts see its 38 bytes, by which
/// identifications are ordered.
#[derive(Clone, Copy, Debug, PartialEq, Eq)]
pub struct Ident {
    bytes: [u8; 38],
}

/// A list of identifications.
pub type Idents = Listed<Ident>;

impl Model for Ident {
    ghost use Rattle.std.specs.Prelude.{List, ℕ};
    ghost use Rattle.imgeo_types.specs.Fields.{IsIdent};

    ghost Value = { List ℕ };

    ghost view = { λ i. i.bytes };

    ghost inverse = { λ bytes. record { bytes = bytes } };

    ghost invariant = { λ i. IsIdent i.bytes };
}

// The eight bytes from `i` on as one number, the first byte the greatest.
fn word_at(bytes: &[u8; 38], i: usize) -> u64
    requires { i + 8 ≤ 38 }
    ensures { result ≡ from_be_bytes w64 (take 8 (drop i bytes.now)) }
{
    u64::from_be_bytes([
        bytes[i],
        bytes[i + 1],
        bytes[i + 2],
        bytes[i + 3],
        bytes[i + 4],
        bytes[i + 5],
        bytes[i + 6],
        bytes[i + 7],
    ])
}

// Whether the eight bytes from `i` on differ.
fn differ_at(a: &[u8; 38], b: &[u8; 38], i: usize) -> bool
    requires { i + 8 ≤ 38 }
    ensures { result ≡ is_ne (eight_cmp i a.now b.now) }
{
    word_at(a, i) != word_at(b, i)
}

// The order of the eight bytes from `i` on.
fn order_at(a: &[u8; 38], b: &[u8; 38], i: usize) -> Ordering
    requires { i + 8 ≤ 38 }
    ensures { result ≡ eight_cmp i a.now b.now }
{
    word_at(a, i).cmp(&word_at(b, i))
}

// Eight bytes at a time, since most identifications are alike almost to their ends, and a map compares many. The last
// eight begin among those before them, which are alike by then.
fn order(a: &[u8; 38], b: &[u8; 38]) -> Ordering
    ensures { result ≡ slice_cmp nat_cmp a.now b.now }
{
    for k in 0..4 {
        let i = 8 * k;
        if differ_at(a, b, i) {
            return order_at(a, b, i);
        }
    }
    order_at(a, b, 30)
}

// The order of keys: the last eight bytes come first.
fn order_from_end(a: &[u8; 38], b: &[u8; 38]) -> Ordering
    ensures { result ≡ key_cmp a.now b.now }
{
    if differ_at(a, b, 30) {
        return order_at(a, b, 30);
    }
    order(a, b)
}

impl PartialOrd for Ident {
    ghost partial_cmp = { λ x y. Some (slice_cmp nat_cmp x y) };

    ghost laws = { texts_po };

    fn partial_cmp(&self, other: &Ident) -> Option<Ordering> {
        Some(self.cmp(other))
    }
}

impl Ord for Ident {
    ghost cmp = { slice_cmp nat_cmp };

    ghost total = { nat_list_cmp_total };

    ghost matches_partial_cmp = { λ x y. refl };

    ghost matches_eq = { texts_ties };

    fn cmp(&self, other: &Ident) -> Ordering {
        order(&self.bytes, &other.bytes)
    }
}

// Whether each of the bytes is a letter or a digit.
fn are_letters_or_digits(bytes: &[u8]) -> bool
    ensures { IsTrue result ↔ All IsAsciiAlphanumeric bytes.now }
{
    bytes.iter().all(|b| b.is_ascii_alphanumeric())
}

// Whether the field is an identification.
fn is_ident(field: &[u8]) -> bool
    ensures { IsTrue result ↔ IsIdent field.now }
{
    if field.len() != 38 {
        return false;
    }
    let (holder, _) = field.split_at(5);
    let (_, behind) = field.split_at(6);
    if !is_holder(holder) {
        return false;
    }
    field[5] == b'.' && are_letters_or_digits(behind)
}

impl Ident {
    /// The identification of a field. `None` exactly where the field is not a holder, a full stop and 32 letters or
    /// digits.
    pub fn read(field: &[u8]) -> Option<Ident>
        ensures { MatchOption result (¬ IsIdent field.now) (λ i. IsIdent field.now × (i ≡ field.now)) }
    {
        if !is_ident(field) {
            return None;
        }
        let mut bytes = [0; 38];
        bytes.copy_from_slice(field);
        Some(Ident { bytes })
    }

    /// The holder that gave the identification: its first five bytes.
    pub fn holder(&self) -> Holder
        ensures value { result ≡ holder_of self.now }
        ensures is { IsHolder result }
    {
        Holder::of(&self.bytes[..5])
    }

    // The order of the two as keys of a map.
    pub(crate) fn key_cmp(&self, other: &Ident) -> Ordering
        ensures { result ≡ key_cmp self.now other.now }
    {
        order_from_end(&self.bytes, &other.bytes)
    }

    /// The 38 bytes.
    pub fn bytes(&self) -> &[u8]
        ensures value { result.now ≡ self.now }
        ensures is { IsIdent self.now }
    {
        &self.bytes
    }
}
