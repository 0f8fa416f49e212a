use field_text::Moment;
use imgeo_types::{Holder, Ident, ItemFault, Kind};
use message_text::LimitName;
use part_shape::ShapeNote;
use rd_plane::{Edge, Pt};
use std::fmt;

/// Which limit of the register is reached.
#[derive(Clone, Copy, Debug, PartialEq, Eq)]
pub enum FullName {
    /// As many holders as may be have an accepted message, and this holder has none.
    Holders,
    /// After the message the holder would have more current objects than it may.
    Objects,
}

/// Why an area block is refused. Places of shapes count from 0.
#[derive(Clone, Copy, Debug, PartialEq, Eq)]
pub enum AreaNote {
    /// A shape of the block is not sound, for the first reason that `note` names, and those before it are. `at` is its place
    /// in the block, counted from 0.
    Shape { at: u32, note: ShapeNote },
    /// All shapes are sound. `first` and `second` are the least pair of them that lie over one another, or meet otherwise
    /// than in ends of edges.
    Own { first: u32, second: u32 },
    /// The shapes are a sound area. `holder` is the least other holder whose current area lies over it.
    Meets { holder: Holder },
}

/// Why a message is refused: the first of these that applies, in this order. `at` is the number of the mutation in the
/// message, counted from 1; places within a note, as those of rings and corners, count from 0.
#[derive(Clone, Copy, Debug, PartialEq, Eq)]
pub enum Refusal {
    /// The text has more bytes than one message may have.
    TooLong,
    /// The text is not a message. `line` is the first line, counted from 1, after which no message could follow.
    Syntax { line: u64 },
    /// The text has an arc. `line` is the first line with one, counted from 1.
    Arc { line: u64 },
    /// The message passes this limit on texts.
    Limit { which: LimitName },
    /// The moment is not later than `kept`, the holder's last; or, with an area block, earlier than `kept`, the last area
    /// block of any holder.
    Stale { kept: Moment },
    /// An earlier mutation has the same identification.
    Twice { at: u32 },
    /// A new object whose identification has the code of another holder.
    Prefix { at: u32 },
    /// A new object whose identification has a version already, current or ended.
    Known { at: u32 },
    /// The object has no current version. `ended` is the end of its last one, `None` where there was never one.
    Unknown { at: u32, ended: Option<Moment> },
    /// The current version is this holder's.
    Owner { at: u32, holder: Holder },
    /// The current version was registered at the moment `kept`, and not at the one that is named.
    Was { at: u32, kept: Moment },
    /// The current version is of this kind.
    Kind { at: u32, kind: Kind },
    /// The item is wrong by the object catalogue: its level, a code, or the number of a building.
    Item { at: u32, fault: ItemFault },
    /// A day is later than the day of the message, or an end day is earlier than the begin day.
    Days { at: u32 },
    /// The shape that the mutation brings is not sound, for the first reason that `note` names.
    Shape { at: u32, note: ShapeNote },
    /// The register is full.
    Full { which: FullName },
    /// The area block is not right, while each mutation is and the register has room.
    Area { note: AreaNote },
    /// After the message two objects of the holder share ground at one level that is not 0: the least pair of identifications,
    /// the smaller first. Ground is shared where a point off both borders lies in both.
    Levels { first: Ident, second: Ident },
    /// A corner of the holder's new border lies strictly inside an edge of it: the least such corner, and the least edge
    /// in which it lies. Neighbours have to share their corners.
    Node { vertex: Pt, edge: Edge },
    /// Some point off the borders of the holder's new map lies inside its area and not in exactly one ground part, or outside it
    /// and in one. The edge is the least border edge that occurs twice or whose reverse does not occur.
    Tiled { edge: Edge },
}

/// The answer to a text.
#[derive(Clone, Copy, Debug, PartialEq, Eq)]
pub enum Answer {
    /// Its message was accepted.
    Taken,
    /// It has no message, or its message was refused, for this reason.
    Refused(Refusal),
}

impl fmt::Display for AreaNote {
    fn fmt<W: fmt::Write>(&self, f: &mut fmt::Formatter<W>) -> fmt::Result {
        match self {
            AreaNote::Shape { at, .. } => write!(f, "shape {at} of the area is not sound"),
            AreaNote::Own { first, second } => write!(
                f,
                "shapes {first} and {second} of the area do not keep apart"
            ),
            AreaNote::Meets { .. } => write!(
                f,
                "the area is not apart from that of another holder"
            ),
        }
    }
}

impl fmt::Display for Refusal {
    fn fmt<W: fmt::Write>(&self, f: &mut fmt::Formatter<W>) -> fmt::Result {
        match self {
            Refusal::TooLong => write!(f, "the text is too long"),
            Refusal::Syntax { line } => write!(f, "line {line}: the text is not a message"),
            Refusal::Arc { line } => write!(f, "line {line}: arcs are not supported"),
            Refusal::Limit { .. } => write!(f, "the message passes a limit"),
            Refusal::Stale { .. } => write!(f, "the moment is too early"),
            Refusal::Twice { at } => write!(
                f,
                "mutation {at}: an earlier one names the same object"
            ),
            Refusal::Prefix { at } => write!(
                f,
                "mutation {at}: the identification is another holder's"
            ),
            Refusal::Known { at } => write!(f, "mutation {at}: the identification was used before"),
            Refusal::Unknown { at, .. } => write!(
                f,
                "mutation {at}: there is no such current object"
            ),
            Refusal::Owner { at, .. } => write!(f, "mutation {at}: the object is another holder's"),
            Refusal::Was { at, .. } => write!(
                f,
                "mutation {at}: the current version has another moment"
            ),
            Refusal::Kind { at, .. } => write!(f, "mutation {at}: the object is of another kind"),
            Refusal::Item { at, .. } => write!(
                f,
                "mutation {at}: the item is wrong by the catalogue"
            ),
            Refusal::Days { at } => write!(f, "mutation {at}: a day is out of order"),
            Refusal::Shape { at, .. } => write!(f, "mutation {at}: the shape is not sound"),
            Refusal::Full { .. } => write!(f, "the register is full"),
            Refusal::Area { note } => write!(f, "{note}"),
            Refusal::Levels { .. } => write!(f, "two objects of one level share ground"),
            Refusal::Node { .. } => write!(f, "a corner lies inside an edge of a neighbour"),
            Refusal::Tiled { .. } => write!(f, "the new map is not tiled"),
        }
    }
}
