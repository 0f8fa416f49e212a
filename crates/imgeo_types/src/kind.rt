ghost use Rattle.std.specs.Prelude.{◌≡◌, ◌≢◌, MatchOption};
ghost use Rattle.imgeo_types.specs.declared.kind.Kind.{Kind};
ghost use Rattle.imgeo_types.specs.Kinds.{word_of, is_dividing, is_plane, attr_word};

/// What an object is, after the object catalogues BGT and IMGeo. Which kinds there are, and how their words are
/// spelled, is this register's own profile.
#[derive(Clone, Copy, Debug, PartialEq, Eq, PartialOrd, Ord)]
pub enum Kind {
    /// Part of a road.
    Wegdeel,
    /// Part of a verge.
    OndersteunendWegdeel,
    /// Ground that is overgrown.
    BegroeidTerreindeel,
    /// Ground that is not overgrown.
    OnbegroeidTerreindeel,
    /// Part of a water.
    Waterdeel,
    /// Part of a bank.
    OndersteunendWaterdeel,
    /// A building.
    Pand,
    /// Another construction.
    OverigBouwwerk,
    /// Part of an engineering work.
    Kunstwerkdeel,
    /// A wall or a fence.
    Scheiding,
    /// An object that is not yet classified.
    OngeclassificeerdObject,
    /// Part of a bridge.
    Overbruggingsdeel,
    /// Part of a tunnel.
    Tunneldeel,
}

impl Kind {
    const ALL: [Kind; 13] = [
        Kind::Wegdeel,
        Kind::OndersteunendWegdeel,
        Kind::BegroeidTerreindeel,
        Kind::OnbegroeidTerreindeel,
        Kind::Waterdeel,
        Kind::OndersteunendWaterdeel,
        Kind::Pand,
        Kind::OverigBouwwerk,
        Kind::Kunstwerkdeel,
        Kind::Scheiding,
        Kind::OngeclassificeerdObject,
        Kind::Overbruggingsdeel,
        Kind::Tunneldeel,
    ];

    /// The kind with this word. `None` exactly where no kind has it; capitals count.
    pub fn read(word: &[u8]) -> Option<Kind>
        ensures { MatchOption result ((k : Kind) → word_of k ≢ word.now) (λ k. word_of k ≡ word.now) }
    {
        for kind in Kind::ALL {
            if kind.word().as_bytes() == word {
                return Some(kind);
            }
        }
        None
    }

    /// The word of the kind, as messages have it.
    pub fn word(self) -> &'static str
        ensures { result.now ≡ word_of self }
    {
        match self {
            Kind::Wegdeel => "wegdeel",
            Kind::OndersteunendWegdeel => "ondersteunend_wegdeel",
            Kind::BegroeidTerreindeel => "begroeid_terreindeel",
            Kind::OnbegroeidTerreindeel => "onbegroeid_terreindeel",
            Kind::Waterdeel => "waterdeel",
            Kind::OndersteunendWaterdeel => "ondersteunend_waterdeel",
            Kind::Pand => "pand",
            Kind::OverigBouwwerk => "overig_bouwwerk",
            Kind::Kunstwerkdeel => "kunstwerkdeel",
            Kind::Scheiding => "scheiding",
            Kind::OngeclassificeerdObject => "ongeclassificeerd_object",
            Kind::Overbruggingsdeel => "overbruggingsdeel",
            Kind::Tunneldeel => "tunneldeel",
        }
    }

    /// Whether objects of this kind divide the ground among them: all kinds but the last two.
    pub fn dividing(self) -> bool
        ensures { result ≡ is_dividing self }
    {
        match self {
            Kind::Overbruggingsdeel | Kind::Tunneldeel => false,
            _ => true,
        }
    }

    /// Whether the kind is one of the plane, on which the level rule counts: the first six kinds.
    pub fn plane(self) -> bool
        ensures { result ≡ is_plane self }
    {
        match self {
            Kind::Wegdeel
            | Kind::OndersteunendWegdeel
            | Kind::BegroeidTerreindeel
            | Kind::OnbegroeidTerreindeel
            | Kind::Waterdeel
            | Kind::OndersteunendWaterdeel => true,
            _ => false,
        }
    }
}

/// An attribute of an item that takes a code, after IMGeo.
#[derive(Clone, Copy, Debug, PartialEq, Eq)]
pub enum Attr {
    /// What an object is used for.
    Functie,
    /// What it looks like.
    Voorkomen,
    /// Which type of its kind it is.
    Soort,
}

impl Attr {
    /// The word of the attribute, as messages have it.
    pub fn word(self) -> &'static str
        ensures { result.now ≡ attr_word self }
    {
        match self {
            Attr::Functie => "functie",
            Attr::Voorkomen => "fysiekVoorkomen",
            Attr::Soort => "type",
        }
    }
}
