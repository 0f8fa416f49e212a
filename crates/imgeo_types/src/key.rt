ghost use Rattle.std.specs.Prelude.{◌≡◌, Some};
ghost use Rattle.std.specs.Cmp.{partial_order_from_agreeing_total};
ghost use Rattle.std.proofs.Common.{refl};
ghost use Rattle.imgeo_types.specs.Keys.{key_cmp, key_cmp_total, key_ties};

use crate::ident::Ident;
use std::cmp::Ordering;
use std::marker::Model;

/// An identification as a key of a map, of which no order is asked: by the last eight bytes, and by all where these are
/// alike. Most identifications differ there, so that a look-up compares one word with most of the keys that it passes.
/// Contracts see the 38 bytes.
#[derive(Clone, Copy, Debug, PartialEq, Eq)]
pub struct IdentKey {
    ident: Ident,
}

impl Model for IdentKey {
    ghost use Rattle.std.specs.Prelude.{List, ℕ};

    ghost Value = { List ℕ };

    ghost view = { λ k. k.ident };

    ghost inverse = { λ bytes. record { ident = bytes } };
}

impl PartialOrd for IdentKey {
    ghost partial_cmp = { λ x y. Some (key_cmp x y) };

    ghost laws = { partial_order_from_agreeing_total key_cmp key_cmp_total (λ x y. refl) key_ties };

    fn partial_cmp(&self, other: &IdentKey) -> Option<Ordering> {
        Some(self.cmp(other))
    }
}

impl Ord for IdentKey {
    ghost cmp = { key_cmp };

    ghost total = { key_cmp_total };

    ghost matches_partial_cmp = { λ x y. refl };

    ghost matches_eq = { key_ties };

    fn cmp(&self, other: &IdentKey) -> Ordering {
        self.ident.key_cmp(&other.ident)
    }
}

impl IdentKey {
    /// The key of the identification.
    pub fn of(ident: Ident) -> IdentKey
        ensures { result ≡ ident }
    {
        IdentKey { ident }
    }
}
