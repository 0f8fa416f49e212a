//! A coordinate at the head of other bytes, read in one pass: the plain forms of it, which most fields have.

ghost use Rattle.std.specs.Prelude.{◌≡◌, ◌≤◌, ◌<◌, ◌^◌, length, take, All, IfSome};
ghost use Rattle.std.specs.Char.{IsAsciiDigit};
ghost use Rattle.field_text.specs.Forms.{number, thousandths, HasFractionForm};
ghost use Rattle.field_text.specs.Coordinates.{BeginsMm};

use crate::coordinate::{Axis, with_sign};
use crate::numbers::fraction;

// The number that the digits in front spell, and how many there are. Nine of them are looked at.
fn leading_number(bytes: &[u8]) -> (u32, usize)
    ensures within { result.1 ≤ length bytes.now }
    ensures most { result.1 ≤ 9 }
    ensures digits { All IsAsciiDigit (take result.1 bytes.now) }
    ensures value { result.0 ≡ number (take result.1 bytes.now) }
    ensures bound { result.0 < 10 ^ result.1 }
{
    let mut value = 0;
    for (i, b) in bytes.iter().enumerate() {
        if i == 9 || !b.is_ascii_digit() {
            return (value, i);
        }
        value = 10 * value + u32::from(*b - b'0');
    }
    (value, bytes.len())
}

// The thousandths of a full stop and three digits in front, and their four bytes, or 0 and no byte.
fn leading_fraction(bytes: &[u8]) -> Option<(u32, usize)>
    ensures within { IfSome result (λ r. r.1 ≤ length bytes.now) }
    ensures form { IfSome result (λ r. HasFractionForm (take r.1 bytes.now)) }
    ensures value { IfSome result (λ r. r.0 ≡ thousandths (take r.1 bytes.now)) }
    ensures bound { IfSome result (λ r. r.0 < 1000) }
{
    if bytes.len() < 4 || bytes[0] != b'.' {
        return Some((0, 0));
    }
    let (front, _) = bytes.split_at(4);
    let Some(thousandths) = fraction(front) else {
        return None;
    };
    Some((thousandths, 4))
}

/// The whole millimetres of a coordinate at the head of the bytes, and what follows it: one to nine digits of metres, and
/// either a full stop and three digits or no fraction, within the bounds of the axis. `None` where nothing stands there that
/// is spelled so, and in some cases more: what follows may go on with the field.
pub fn leading_mm(bytes: &[u8], axis: Axis) -> Option<(i64, &[u8])>
    ensures { IfSome result (λ r. BeginsMm axis bytes.now r.0 r.1.now) }
{
    let (metres, digits) = leading_number(bytes);
    if digits == 0 {
        return None;
    }
    let (_, rest) = bytes.split_at(digits);
    let Some((millimetres, more)) = leading_fraction(rest) else {
        return None;
    };
    let (_, behind) = rest.split_at(more);
    let size = 1000 * u64::from(metres) + u64::from(millimetres);
    let mm = with_sign(false, size);
    if !axis.contains(mm) {
        return None;
    }
    Some((mm, behind))
}
