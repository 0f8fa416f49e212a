use code_tables::{Table, known};

// A table, its values as the catalogue has them in its order, and a value that only another table has.
#[derive(Clone, Copy)]
struct Row {
    table: Table,
    values: &'static [&'static str],
    foreign: &'static str,
}

// The place that the value has where the values stand in rising order: how many stand before it.
fn rank(values: &[&str], value: &str) -> usize {
    values.iter().filter(|other| **other < value).count()
}

#[test]
fn each_table_knows_its_values_alone(rt: HostRuntime) {
    let rows = [
        Row {
            table: Table::WegdeelFunctie,
            values: &[
                "rijbaan_autosnelweg",
                "rijbaan_autoweg",
                "rijbaan_regionale_weg",
                "rijbaan_lokale_weg",
                "fietspad",
                "voetpad",
                "voetpad_op_trap",
                "ruiterpad",
                "parkeervlak",
                "spoorbaan",
                "baan_voor_vliegverkeer",
                "OV-baan",
                "overweg",
                "inrit",
                "woonerf",
                "voetgangersgebied",
                "transitie",
            ],
            foreign: "gesloten_verharding",
        },
        Row {
            table: Table::WegdeelVoorkomen,
            values: &[
                "gesloten_verharding",
                "open_verharding",
                "half_verhard",
                "onverhard",
                "transitie",
            ],
            foreign: "berm",
        },
        Row {
            table: Table::OndersteunendWegdeelFunctie,
            values: &["berm", "verkeerseiland", "transitie"],
            foreign: "gesloten_verharding",
        },
        Row {
            table: Table::OndersteunendWegdeelVoorkomen,
            values: &[
                "gesloten_verharding",
                "open_verharding",
                "half_verhard",
                "onverhard",
                "groenvoorziening",
                "transitie",
            ],
            foreign: "loofbos",
        },
        Row {
            table: Table::BegroeidVoorkomen,
            values: &[
                "loofbos",
                "gemengd_bos",
                "naaldbos",
                "heide",
                "struiken",
                "houtwal",
                "duin",
                "moeras",
                "rietland",
                "kwelder",
                "fruitteelt",
                "boomteelt",
                "bouwland",
                "grasland_agrarisch",
                "grasland_overig",
                "groenvoorziening",
                "transitie",
            ],
            foreign: "erf",
        },
        Row {
            table: Table::OnbegroeidVoorkomen,
            values: &[
                "erf",
                "gesloten_verharding",
                "open_verharding",
                "half_verhard",
                "onverhard",
                "zand",
                "transitie",
            ],
            foreign: "zee",
        },
        Row {
            table: Table::WaterdeelSoort,
            values: &[
                "zee",
                "waterloop",
                "watervlakte",
                "greppel_droge_sloot",
                "transitie",
            ],
            foreign: "oever_slootkant",
        },
        Row {
            table: Table::OndersteunendWaterdeelSoort,
            values: &["oever_slootkant", "slik", "transitie"],
            foreign: "overkapping",
        },
        Row {
            table: Table::OverigBouwwerkSoort,
            values: &[
                "overkapping",
                "open_loods",
                "opslagtank",
                "bezinkbak",
                "windturbine",
                "lage_trafo",
                "bassin",
                "niet-bgt",
                "transitie",
            ],
            foreign: "hoogspanningsmast",
        },
        Row {
            table: Table::KunstwerkdeelSoort,
            values: &[
                "hoogspanningsmast",
                "gemaal",
                "perron",
                "sluis",
                "strekdam",
                "steiger",
                "stuw",
                "niet-bgt",
                "transitie",
            ],
            foreign: "muur",
        },
        Row {
            table: Table::ScheidingSoort,
            values: &[
                "muur",
                "kademuur",
                "damwand",
                "geluidsscherm",
                "walbescherming",
                "hek",
                "niet-bgt",
                "transitie",
            ],
            foreign: "dek",
        },
        Row {
            table: Table::OverbruggingsdeelSoort,
            values: &["dek", "landhoofd", "pijler", "sloof", "pyloon", "transitie"],
            foreign: "rijbaan_autosnelweg",
        },
    ];
    let long = [b'a'; 65];
    for row in rows {
        let Row {
            table,
            values,
            foreign,
        } = row;
        for value in values {
            assert_eq!(rt;
                known(table, value.as_bytes()),
                Some(rank(values, value)),
                "at {value}"
            );
        }
        for text in [foreign, "", "TRANSITIE", "transitie "] {
            assert_eq!(rt; known(table, text.as_bytes()), None, "at {text}");
        }
        assert_eq!(rt; known(table, &long), None);
    }
}
