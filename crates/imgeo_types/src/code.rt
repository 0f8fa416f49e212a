ghost use Rattle.std.specs.Prelude.{◌≡◌, ◌↔◌, ◌≤◌, IsTrue, MatchOption, length};
ghost use Rattle.std.specs.Str.{bytes_eq};
ghost use Rattle.std.specs.Cmp.{partial_equiv_from_equiv};
ghost use Rattle.std.proofs.lemmas.Cmp.{nat_list_eq_equiv};
ghost use Rattle.imgeo_types.specs.Fields.{IsCode, IsCodeByte, zero_filled};

use std::marker::Model;

/// A code, as a value that the object catalogues list or the number of a building: 1 to 64 bytes, each an ASCII
/// letter, a digit, `_` or `-`. Contracts see its bytes.
#[derive(Clone, Copy, Debug)]
pub struct Code {
    // Zeros stand behind the code.
    bytes: [u8; 64],
    // One byte, since every object is held with four of these.
    len: u8,
}

impl Model for Code {
    ghost use Rattle.std.specs.Prelude.{List, ℕ, length, take};
    ghost use Rattle.imgeo_types.specs.Fields.{KeepsCode, zero_filled};

    ghost Value = { List ℕ };

    ghost view = { λ c. take c.len c.bytes };

    ghost inverse = { λ code. record { bytes = zero_filled code; len = length code } };

    ghost invariant = { λ c. KeepsCode c.bytes c.len };
}

// Whether the byte may stand in a code.
fn is_code_byte(byte: u8) -> bool
    ensures { IsTrue result ↔ IsCodeByte byte }
{
    byte.is_ascii_alphanumeric() || byte == b'_' || byte == b'-'
}

// Whether the field is a code.
fn is_code(field: &[u8]) -> bool
    ensures { IsTrue result ↔ IsCode field.now }
{
    1 <= field.len() && field.len() <= 64 && field.iter().all(|b| is_code_byte(*b))
}

// The field in front of zeros.
fn filled_to_64(field: &[u8]) -> [u8; 64]
    requires { length field.now ≤ 64 }
    ensures { result ≡ zero_filled field.now }
{
    let mut bytes = [0; 64];
    bytes[..field.len()].copy_from_slice(field);
    bytes
}

impl Code {
    /// The code of a field. `None` exactly where the field is not 1 to 64 letters, digits, underscores and dashes.
    pub fn read(field: &[u8]) -> Option<Code>
        ensures { MatchOption result (¬ IsCode field.now) (λ c. IsCode field.now × (c ≡ field.now)) }
    {
        if !is_code(field) {
            return None;
        }
        Some(Code {
            bytes: filled_to_64(field),
            len: field.len() as u8,
        })
    }

    /// The bytes of the code.
    pub fn bytes(&self) -> &[u8]
        ensures value { result.now ≡ self.now }
        ensures is { IsCode self.now }
    {
        &self.bytes[..usize::from(self.len)]
    }
}

impl PartialEq for Code {
    ghost eq = { bytes_eq };

    ghost laws = { partial_equiv_from_equiv nat_list_eq_equiv };

    fn eq(&self, other: &Code) -> bool {
        self.bytes() == other.bytes()
    }
}

impl Eq for Code {
    ghost laws = { nat_list_eq_equiv };
}
