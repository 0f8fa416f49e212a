ghost use Rattle.std.specs.Prelude.{◌≡◌, ◌↔◌, IsTrue, MatchOption, All};
ghost use Rattle.std.specs.Char.{IsAsciiDigit};
ghost use Rattle.imgeo_types.specs.Fields.{IsHolder};

use std::marker::Model;

/// The code of a source holder, as `G0001`: one capital ASCII letter and four digits. Contracts see its five bytes,
/// by which holders are ordered.
///
/// The form is after the source holders' codes of IMGeo; which of them are given out is not asked here.
#[derive(Clone, Copy, Debug, PartialEq, Eq, PartialOrd, Ord)]
pub struct Holder {
    bytes: [u8; 5],
}

impl Model for Holder {
    ghost use Rattle.std.specs.Prelude.{List, ℕ};
    ghost use Rattle.imgeo_types.specs.Fields.{IsHolder};

    ghost Value = { List ℕ };

    ghost view = { λ h. h.bytes };

    ghost inverse = { λ bytes. record { bytes = bytes } };

    ghost invariant = { λ h. IsHolder h.bytes };
}

// Whether each of the bytes is a digit.
fn are_digits(bytes: &[u8]) -> bool
    ensures { IsTrue result ↔ All IsAsciiDigit bytes.now }
{
    bytes.iter().all(|b| b.is_ascii_digit())
}

// Whether the field is a holder.
pub(crate) fn is_holder(field: &[u8]) -> bool
    ensures { IsTrue result ↔ IsHolder field.now }
{
    field.len() == 5 && field[0].is_ascii_uppercase() && are_digits(&field[1..])
}

impl Holder {
    /// The holder of a field. `None` exactly where the field is not one capital letter and four digits.
    pub fn read(field: &[u8]) -> Option<Holder>
        ensures { MatchOption result (¬ IsHolder field.now) (λ h. IsHolder field.now × (h ≡ field.now)) }
    {
        if !is_holder(field) {
            return None;
        }
        Some(Holder::of(field))
    }

    // The holder with these bytes.
    pub(crate) fn of(field: &[u8]) -> Holder
        requires { IsHolder field.now }
        ensures { result ≡ field.now }
    {
        let mut bytes = [0; 5];
        bytes.copy_from_slice(field);
        Holder { bytes }
    }

    /// The five bytes.
    pub fn bytes(&self) -> &[u8]
        ensures value { result.now ≡ self.now }
        ensures is { IsHolder self.now }
    {
        &self.bytes
    }
}
