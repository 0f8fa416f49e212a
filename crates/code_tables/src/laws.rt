//! The laws of a table: a text has one place, and a place has one text.

ghost use Rattle.std.specs.Prelude.{◌≡◌, ℕ, List, Some, IsTrue, MatchOption, Contains, slice_get};
ghost use Rattle.code_tables.specs.declared.table.Table.{Table};
ghost use Rattle.code_tables.specs.Codes.{rises, place_of};
ghost use Rattle.code_tables.specs.Catalogue.{values_of};

/// A text has a place exactly where it is listed, and stands there.
pub fn name_of_place()
    ensures { (texts : List (List ℕ)) (text : List ℕ) → MatchOption (place_of texts text) (¬ Contains texts text) (λ k. slice_get texts k ≡ Some text) }
{}

/// Where texts rise, the place of the text at a place is that place.
pub fn place_of_name()
    ensures { (texts : List (List ℕ)) (k : ℕ) (text : List ℕ) → IsTrue (rises texts) → slice_get texts k ≡ Some text → place_of texts text ≡ Some k }
{}

/// The texts of each table of the catalogue rise.
pub fn catalogue_rises()
    ensures { (table : Table) → IsTrue (rises (values_of table)) }
{}
