ghost use Rattle.std.specs.Prelude.{◌≡◌, IfOk};

use crate::code::Code;
use crate::kind::Kind;
use field_text::Day;
use rd_plane::{NoMemory, Rings, copy_rings};
use std::alloc::Global;

/// What a message says of one object, after the object catalogues BGT and IMGeo, its identification apart. Whether the
/// codes suit the kind is not asked here.
#[derive(Debug, Drop)]
pub struct Item {
    /// What the object is.
    pub kind: Kind,
    /// The relative height: 0 is the ground, and above it are positive levels.
    pub level: i32,
    /// The day on which the object came to be.
    pub begin: Day,
    /// What it is used for, as `fietspad`.
    pub functie: Option<Code>,
    /// What it looks like, as `open_verharding`.
    pub voorkomen: Option<Code>,
    /// Which type of its kind it is, as `waterloop`.
    pub soort: Option<Code>,
    /// The number of the building in the register of addresses and buildings (BAG).
    pub pand: Option<Code>,
    /// The outer ring, and the holes behind it.
    pub rings: Rings,
}

impl Item {
    /// An equal item, with the same corners where its rings are shared. `NoMemory` where there is no memory for its rings.
    pub fn copy(&self, alloc: Global) -> Result<Item, NoMemory>
        ensures { IfOk result (λ item. item ≡ self.now) }
    {
        let rings = copy_rings(alloc, &self.rings)?;
        Ok(Item {
            kind: self.kind,
            level: self.level,
            begin: self.begin,
            functie: self.functie,
            voorkomen: self.voorkomen,
            soort: self.soort,
            pand: self.pand,
            rings,
        })
    }
}
