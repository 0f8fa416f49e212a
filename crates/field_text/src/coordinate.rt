ghost use Rattle.std.specs.Prelude.{◌≡◌, ◌↔◌, ◌≤◌, ◌<◌, ◌*◌, ◌+◌, ◌++◌, ◌^◌, length, take, MatchResult, IsErrOf, MatchOption, IsTrue, All, IfSome, ℤ, slice_index, int_lt, pos};
ghost use Rattle.std.specs.Char.{IsAsciiDigit};
ghost use Rattle.field_text.specs.Forms.{number, thousandths, HasFractionForm};
ghost use Rattle.field_text.specs.Coordinates.{IsMm, IsInAxis, signed, IsCut, HasMagnitude, IsPrintedMm, sign};

use crate::fault::FieldFault;
use crate::numbers::{digits, fraction};
use crate::printed::Field;

/// A direction of the grid EPSG:28992 (Rijksdriehoek), with the bounds of this register.
#[derive(Clone, Copy, Debug, PartialEq, Eq)]
pub enum Axis {
    /// To the east, from -100000.000 m to 400000.000 m.
    X,
    /// To the north, from 200000.000 m to 800000.000 m.
    Y,
}

impl Axis {
    // Whether this many millimetres lie within the bounds.
    pub(crate) fn contains(self, mm: i64) -> bool
        ensures { IsTrue result ↔ IsInAxis self mm }
    {
        match self {
            Axis::X => -100_000_000 <= mm && mm <= 400_000_000,
            Axis::Y => 200_000_000 <= mm && mm <= 800_000_000,
        }
    }
}

// How many digits are in front.
fn leading_digits(field: &[u8]) -> usize
    ensures within { result ≤ length field.now }
    ensures digits { All IsAsciiDigit (take result field.now) }
    ensures stop { result < length field.now → ¬ IsAsciiDigit (slice_index field.now result) }
{
    field
        .iter()
        .position(|b| !b.is_ascii_digit())
        .unwrap_or(field.len())
}

// The sign, the digits after it, and what follows these.
fn cut(field: &[u8]) -> (bool, &[u8], &[u8])
    ensures { IsCut field.now result.0 result.1.now result.2.now }
{
    if field.first() == Some(&b'-') {
        let (_, behind) = field.split_at(1);
        let (whole, rest) = behind.split_at(leading_digits(behind));
        return (true, whole, rest);
    }
    let (whole, rest) = field.split_at(leading_digits(field));
    (false, whole, rest)
}

// The millimetres of metres and a fraction.
fn magnitude(whole: &[u8], rest: &[u8]) -> Option<u64>
    requires { All IsAsciiDigit whole.now }
    ensures value { MatchOption result (¬ HasMagnitude whole.now rest.now) (λ n. HasMagnitude whole.now rest.now × (n ≡ 1000 * number whole.now + thousandths rest.now)) }
    ensures bound { IfSome result (λ n. n < 5_000_000_000_000) }
{
    if whole.is_empty() || whole.len() > 9 {
        return None;
    }
    let Some(metres) = digits(whole) else {
        return None;
    };
    let Some(millimetres) = fraction(rest) else {
        return None;
    };
    Some(1000 * u64::from(metres) + u64::from(millimetres))
}

// The number with this sign and size.
pub(crate) fn with_sign(minus: bool, size: u64) -> i64
    requires { size < 5_000_000_000_000 }
    ensures { result ≡ signed minus size }
{
    if minus {
        return -(size as i64);
    }
    size as i64
}

/// The whole millimetres of a coordinate in metres: an optional `-`, one to nine digits, and optionally `.` and one
/// to three digits. Leading zeros are read, and `-0` is 0.
///
/// `Form` exactly where it is not spelled so, `Range` exactly where it is and lies out of the axis's bounds.
pub fn read_mm(field: &[u8], axis: Axis) -> Result<i64, FieldFault>
    ensures value { MatchResult result (λ mm. IsMm field.now mm × IsInAxis axis mm) (λ _. (mm : ℤ) → IsMm field.now mm → ¬ IsInAxis axis mm) }
    ensures form { IsErrOf result FieldFault.Form ↔ ((mm : ℤ) → ¬ IsMm field.now mm) }
    ensures range { IsErrOf result FieldFault.Range ↔ ((mm : ℤ) × IsMm field.now mm × ¬ IsInAxis axis mm) }
{
    let (minus, whole, rest) = cut(field);
    let Some(size) = magnitude(whole, rest) else {
        return Err(FieldFault::Form);
    };
    let mm = with_sign(minus, size);
    if !axis.contains(mm) {
        return Err(FieldFault::Range);
    }
    Ok(mm)
}

// Adds a minus below 0.
fn push_sign(field: &mut Field, mm: i64)
    requires { length field.old < 32 }
    ensures pushed { field.new ≡ field.old ++ sign (int_lt mm (pos 0)) }
    ensures len { length field.new ≤ length field.old + 1 }
{
    if mm < 0 {
        field.push(b'-');
    }
}

/// The millimetres in metres, as `-0.001`: exactly three decimals, no leading zero before the last digit of the whole
/// metres, and `-` only below 0. Within the bounds of an axis, `read_mm` gives the number back.
pub fn print_mm(mm: i64) -> Field
    ensures { IsPrintedMm result mm }
{
    let size = mm.unsigned_abs();
    let mut field = Field::new();
    push_sign(&mut field, mm);
    field.push_decimal(size / 1000);
    field.push(b'.');
    field.push_three((size % 1000) as u32);
    field
}
