ghost use Rattle.std.specs.Prelude.{◌≡◌};
ghost use Rattle.std.specs.List.{list_all};
ghost use Rattle.std.specs.Char.{is_ascii_digit};
ghost use Rattle.imgeo_types.specs.ItemRule.{Tells, table_of, is_level, is_pand_number, attr_fault, pand_fault, item_fault};

use crate::code::Code;
use crate::fault::ItemFault;
use crate::item::Item;
use crate::kind::{Attr, Kind};
use code_tables::{Table, known};

// The table of the attribute, where the kind has it.
fn table_of(kind: Kind, attr: Attr) -> Option<Table>
    ensures { result ≡ table_of kind attr }
{
    match (kind, attr) {
        (Kind::Wegdeel, Attr::Functie) => Some(Table::WegdeelFunctie),
        (Kind::Wegdeel, Attr::Voorkomen) => Some(Table::WegdeelVoorkomen),
        (Kind::OndersteunendWegdeel, Attr::Functie) => Some(Table::OndersteunendWegdeelFunctie),
        (Kind::OndersteunendWegdeel, Attr::Voorkomen) => Some(Table::OndersteunendWegdeelVoorkomen),
        (Kind::BegroeidTerreindeel, Attr::Voorkomen) => Some(Table::BegroeidVoorkomen),
        (Kind::OnbegroeidTerreindeel, Attr::Voorkomen) => Some(Table::OnbegroeidVoorkomen),
        (Kind::Waterdeel, Attr::Soort) => Some(Table::WaterdeelSoort),
        (Kind::OndersteunendWaterdeel, Attr::Soort) => Some(Table::OndersteunendWaterdeelSoort),
        (Kind::OverigBouwwerk, Attr::Soort) => Some(Table::OverigBouwwerkSoort),
        (Kind::Kunstwerkdeel, Attr::Soort) => Some(Table::KunstwerkdeelSoort),
        (Kind::Scheiding, Attr::Soort) => Some(Table::ScheidingSoort),
        (Kind::Overbruggingsdeel, Attr::Soort) => Some(Table::OverbruggingsdeelSoort),
        _ => None,
    }
}

// Whether the level is from -99 to 99.
fn is_level(level: i32) -> bool
    ensures { result ≡ is_level level }
{
    -99 <= level && level <= 99
}

// Whether each byte is a digit.
fn are_digits(bytes: &[u8]) -> bool
    ensures { result ≡ list_all is_ascii_digit bytes.now }
{
    bytes.iter().all(|b| b.is_ascii_digit())
}

// Whether the number of a building is 16 digits.
fn is_pand_number(number: &[u8]) -> bool
    ensures { result ≡ is_pand_number number.now }
{
    number.len() == 16 && are_digits(number)
}

// A value is wanted where the kind has the attribute, and then one that its table lists.
fn check_attr(kind: Kind, attr: Attr, value: &Option<Code>) -> Result<(), ItemFault>
    ensures { Tells result (attr_fault attr (table_of kind attr) value.now) }
{
    let Some(table) = table_of(kind, attr) else {
        return match value {
            Some(_) => Err(ItemFault::Code { attr }),
            None => Ok(()),
        };
    };
    let Some(code) = value else {
        return Err(ItemFault::Missing { attr });
    };
    if known(table, code.bytes()).is_none() {
        return Err(ItemFault::Code { attr });
    }
    Ok(())
}

// Only a building may have a number, of 16 digits.
fn check_pand(kind: Kind, number: &Option<Code>) -> Result<(), ItemFault>
    ensures { Tells result (pand_fault kind number.now) }
{
    let Some(number) = number else {
        return Ok(());
    };
    let Kind::Pand = kind else {
        return Err(ItemFault::PandNumber);
    };
    if !is_pand_number(number.bytes()) {
        return Err(ItemFault::PandNumber);
    }
    Ok(())
}

/// Whether the item is right: its level is from -99 to 99, it has a listed value for each attribute that its kind has
/// and for no other, and only a building has a number, of 16 digits. `Err` has the first fault.
pub fn check_item(item: &Item) -> Result<(), ItemFault>
    ensures { Tells result (item_fault item.now) }
{
    if !is_level(item.level) {
        return Err(ItemFault::Level);
    }
    check_attr(item.kind, Attr::Functie, &item.functie)?;
    check_attr(item.kind, Attr::Voorkomen, &item.voorkomen)?;
    check_attr(item.kind, Attr::Soort, &item.soort)?;
    check_pand(item.kind, &item.pand)
}
