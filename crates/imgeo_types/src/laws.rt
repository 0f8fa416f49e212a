//! The laws of names: their order, one kind for a word, a holder in front of each identification, and no space or end
//! of a line in a name. The law of items: which ones have no fault.

ghost use Rattle.std.specs.Prelude.{◌≡◌, ℕ, List};
ghost use Rattle.std.specs.Ordering.{nat_cmp};
ghost use Rattle.std.specs.Cmp.Lexicographic.{slice_cmp};
ghost use Rattle.std.specs.List.{All};
ghost use Rattle.field_text.specs.Forms.{IsFieldByte};
ghost use Rattle.imgeo_types.specs.declared.kind.Kind.{Kind};
ghost use Rattle.imgeo_types.specs.Fields.{IsHolder, IsIdent, IsCode, holder_of};
ghost use Rattle.imgeo_types.specs.Kinds.{word_of};
ghost use Rattle.imgeo_types.specs.declared.item.Item.{Item};
ghost use Rattle.imgeo_types.specs.ItemRule.{IsRight, item_fault};

use crate::holder::Holder;
use crate::ident::Ident;
use code_tables::laws::name_of_place;

/// A word is of one kind at most.
pub fn one_kind()
    ensures { (a b : Kind) → word_of a ≡ word_of b → a ≡ b }
{}

/// Holders and identifications are ordered by their bytes: the first byte that differs decides.
pub fn ordered_by_bytes()
    ensures holder { (a b : List ℕ) → ⟦<Holder as Ord>⟧.cmp a b ≡ slice_cmp nat_cmp a b }
    ensures ident { (a b : List ℕ) → ⟦<Ident as Ord>⟧.cmp a b ≡ slice_cmp nat_cmp a b }
{}

/// The first five bytes of an identification are a holder.
pub fn idents_have_holders()
    ensures { (field : List ℕ) → IsIdent field → IsHolder (holder_of field) }
{}

/// No holder, identification, code or word of a kind has a space or an end of a line in it.
pub fn names_are_solid()
    ensures holder { (field : List ℕ) → IsHolder field → All IsFieldByte field }
    ensures ident { (field : List ℕ) → IsIdent field → All IsFieldByte field }
    ensures code { (field : List ℕ) → IsCode field → All IsFieldByte field }
    ensures kind { (kind : Kind) → All IsFieldByte (word_of kind) }
{}

/// An item has no fault exactly where it is right by the catalogue.
pub fn right_items_have_no_fault()
    ensures right { (item : Item) → IsRight item → item_fault item ≡ None }
    ensures no_fault { (item : Item) → item_fault item ≡ None → IsRight item }
{
    name_of_place();
}
