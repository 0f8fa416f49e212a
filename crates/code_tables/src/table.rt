ghost use Rattle.std.specs.Prelude.{◌≡◌};
ghost use Rattle.code_tables.specs.Codes.{place_of};
ghost use Rattle.code_tables.specs.Catalogue.{values_of};

use crate::codes::Codes;

/// A closed list of codes, after the object catalogues BGT and IMGeo, for one attribute of one kind of object.
#[derive(Clone, Copy, Debug, PartialEq, Eq)]
pub enum Table {
    /// What part of a road is used for.
    WegdeelFunctie,
    /// What part of a road looks like.
    WegdeelVoorkomen,
    /// What part of a verge is used for.
    OndersteunendWegdeelFunctie,
    /// What part of a verge looks like.
    OndersteunendWegdeelVoorkomen,
    /// What grows on ground that is overgrown.
    BegroeidVoorkomen,
    /// What ground that is not overgrown looks like.
    OnbegroeidVoorkomen,
    /// Which type of water it is.
    WaterdeelSoort,
    /// Which type of bank it is.
    OndersteunendWaterdeelSoort,
    /// Which type of other construction it is.
    OverigBouwwerkSoort,
    /// Which type of engineering work it is.
    KunstwerkdeelSoort,
    /// Which type of wall or fence it is.
    ScheidingSoort,
    /// Which part of a bridge it is.
    OverbruggingsdeelSoort,
}

// The match over all tables, each with its texts.
macro_rules! look_up {
    ($table:expr, $text:expr; $($variant:ident: [$($code:literal),* $(,)?];)*) => {
        match $table {
            $(Table::$variant => Codes::new([$($code),*])?.place($text),)*
        }
    };
}

/// The place of the text in the table, from 0, in rising order of bytes. `None` exactly where it is not listed.
pub fn known(table: Table, text: &[u8]) -> Option<usize>
    ensures { result ≡ place_of (values_of table) text.now }
{
    look_up! { table, text;
        WegdeelFunctie: [
            "OV-baan", "baan_voor_vliegverkeer", "fietspad", "inrit", "overweg", "parkeervlak",
            "rijbaan_autosnelweg", "rijbaan_autoweg", "rijbaan_lokale_weg", "rijbaan_regionale_weg",
            "ruiterpad", "spoorbaan", "transitie", "voetgangersgebied", "voetpad",
            "voetpad_op_trap", "woonerf",
        ];
        WegdeelVoorkomen: [
            "gesloten_verharding", "half_verhard", "onverhard", "open_verharding", "transitie",
        ];
        OndersteunendWegdeelFunctie: [
            "berm", "transitie", "verkeerseiland",
        ];
        OndersteunendWegdeelVoorkomen: [
            "gesloten_verharding", "groenvoorziening", "half_verhard", "onverhard",
            "open_verharding", "transitie",
        ];
        BegroeidVoorkomen: [
            "boomteelt", "bouwland", "duin", "fruitteelt", "gemengd_bos", "grasland_agrarisch",
            "grasland_overig", "groenvoorziening", "heide", "houtwal", "kwelder", "loofbos",
            "moeras", "naaldbos", "rietland", "struiken", "transitie",
        ];
        OnbegroeidVoorkomen: [
            "erf", "gesloten_verharding", "half_verhard", "onverhard", "open_verharding",
            "transitie", "zand",
        ];
        WaterdeelSoort: [
            "greppel_droge_sloot", "transitie", "waterloop", "watervlakte", "zee",
        ];
        OndersteunendWaterdeelSoort: [
            "oever_slootkant", "slik", "transitie",
        ];
        OverigBouwwerkSoort: [
            "bassin", "bezinkbak", "lage_trafo", "niet-bgt", "open_loods", "opslagtank",
            "overkapping", "transitie", "windturbine",
        ];
        KunstwerkdeelSoort: [
            "gemaal", "hoogspanningsmast", "niet-bgt", "perron", "sluis", "steiger", "strekdam",
            "stuw", "transitie",
        ];
        ScheidingSoort: [
            "damwand", "geluidsscherm", "hek", "kademuur", "muur", "niet-bgt", "transitie",
            "walbescherming",
        ];
        OverbruggingsdeelSoort: [
            "dek", "landhoofd", "pijler", "pyloon", "sloof", "transitie",
        ];
    }
}
