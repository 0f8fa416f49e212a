//! Queries of the register that a file keeps: what it has at a moment, the history of an object, what lies at a point, and the
//! map at a moment as messages.
//!
//! Words are a query only where its fields are fields. The file is read into a register, and the text of the answer is
//! told piece by piece. No input is taken, and nothing is written to the file.

ghost use Rattle.std.specs.Prelude.{◌≡◌, ℕ, ℤ, List, IfOk, MatchOption, None};
ghost use Rattle.rd_plane.specs.Plane.{Vertex};
ghost use Rattle.message_text.specs.Limits.{IsValid};
ghost use Rattle.message_text.specs.Spelling.{wide, HasIdent, HasMoment};
ghost use Rattle.outside.specs.Outside.{NoneFell, Rose};
ghost use Rattle.bgt_cli.specs.declared.query.Query.{Query};
ghost use Rattle.bgt_cli.specs.Load.{IsRefusedJournal, MeetsNoList};
ghost use Rattle.bgt_cli.specs.Query.{Asks, EndsQuery, HasPoint, IsAnswer, LeavesNothingNew, MeetsQuery};

use crate::no_list::{refuse, refuse_gate};
use crate::status::Status;
use crate::stream::tell;
use field_text::{Axis, Moment, read_mm, read_moment};
use gate_journal::Mode;
use imgeo_types::Ident;
use map_core::Core;
use map_store::laws::{not_both, one_list};
use map_store::{StartFault, Store};
use message_text::Limits;
use moment_query::{export_text, history_text, point_text, state_text};
use outside::Outside;
use rd_plane::{NoMemory, Pt, Text};
use std::alloc::Global;

/// What the words of a query ask.
#[derive(Clone, Copy, Debug, PartialEq, Eq)]
pub enum Query {
    /// What the register has at the moment.
    StateAt { moment: Moment },
    /// The versions of the identification.
    HistoryOf { ident: Ident },
    /// What lies at the point at the moment.
    PointAt { point: Pt, moment: Moment },
    /// The map at the moment, as messages.
    ExportAt { moment: Moment },
}

fn read_state(at: &str) -> Option<Query>
    ensures { MatchOption result
        ((moment : ℤ) → ¬ HasMoment wide at.now moment)
        (λ query. (moment : ℤ) × HasMoment wide at.now moment × (query ≡ Query.StateAt moment)) }
{
    match read_moment(at.as_bytes()) {
        Ok(moment) => Some(Query::StateAt { moment }),
        Err(_) => None,
    }
}

fn read_history(id: &str) -> Option<Query>
    ensures { MatchOption result
        ((ident : List ℕ) → ¬ HasIdent id.now ident)
        (λ query. (ident : List ℕ) × HasIdent id.now ident × (query ≡ Query.HistoryOf ident)) }
{
    match Ident::read(id.as_bytes()) {
        Some(ident) => Some(Query::HistoryOf { ident }),
        None => None,
    }
}

// The point with these coordinates.
fn point_of(x: &[u8], y: &[u8]) -> Option<Pt>
    ensures { MatchOption result ((p : Vertex) → ¬ HasPoint x.now y.now p) (HasPoint x.now y.now) }
{
    let Ok(x_mm) = read_mm(x, Axis::X) else {
        return None;
    };
    let Ok(y_mm) = read_mm(y, Axis::Y) else {
        return None;
    };
    Pt::new(x_mm, y_mm)
}

fn read_point(x: &str, y: &str, at: &str) -> Option<Query>
    ensures { MatchOption result
        ((p : Vertex) (moment : ℤ) → HasPoint x.now y.now p → ¬ HasMoment wide at.now moment)
        (λ query. (p : Vertex) × (moment : ℤ) × HasPoint x.now y.now p × HasMoment wide at.now moment × (query ≡ Query.PointAt p moment)) }
{
    let Some(point) = point_of(x.as_bytes(), y.as_bytes()) else {
        return None;
    };
    match read_moment(at.as_bytes()) {
        Ok(moment) => Some(Query::PointAt { point, moment }),
        Err(_) => None,
    }
}

fn read_export(at: &str) -> Option<Query>
    ensures { MatchOption result
        ((moment : ℤ) → ¬ HasMoment wide at.now moment)
        (λ query. (moment : ℤ) × HasMoment wide at.now moment × (query ≡ Query.ExportAt moment)) }
{
    match read_moment(at.as_bytes()) {
        Ok(moment) => Some(Query::ExportAt { moment }),
        Err(_) => None,
    }
}

impl Query {
    /// What the words ask. `None` exactly where they ask none.
    pub fn read(words: &[&str]) -> Option<Query>
        ensures { MatchOption result ((query : Query) → ¬ Asks words.now query) (Asks words.now) }
    {
        match words {
            ["state", _, at] => read_state(at),
            ["history", _, id] => read_history(id),
            ["export", _, at] => read_export(at),
            ["point", _, x, y, at] => read_point(x, y, at),
            _ => None,
        }
    }

    // The text of the answer.
    fn text(self, alloc: Global, core: &Core) -> Result<Text, NoMemory>
        requires { core.now.tried ≡ None }
        ensures { IfOk result (IsAnswer self core.now.state) }
    {
        match self {
            Query::StateAt { moment } => state_text(alloc, core, moment),
            Query::HistoryOf { ident } => history_text(alloc, core, ident),
            Query::PointAt { point, moment } => point_text(alloc, core, point, moment),
            Query::ExportAt { moment } => export_text(alloc, core, moment),
        }
    }
}

/// Answers the query from the messages of the file.
pub fn answer_query<O: Outside>(
    alloc: Global,
    limits: &Limits,
    query: Query,
    outside: &mut O,
) -> Status
    requires { IsValid limits.now }
    ensures told { MeetsQuery limits.now query result (O.shown outside.old) (O.shown outside.new) }
    ensures no_list { MeetsNoList limits.now result (O.shown outside.old) (O.shown outside.new) }
    ensures bad_journal { result ≡ Status.BadJournal → IsRefusedJournal limits.now (O.shown outside.old) (O.shown outside.new) }
    ensures ends { EndsQuery result (O.shown outside.old) (O.shown outside.new) }
    ensures nothing_new { LeavesNothingNew O.leaves O.clock O.left outside.old outside.new }
    ensures write_fault { result ≡ Status.WriteFault → Rose (O.faults outside.old).writes (O.faults outside.new).writes }
    ensures disk_fault { result ≡ Status.DiskFault → Rose (O.faults outside.old).disks (O.faults outside.new).disks }
    ensures counts { NoneFell (O.faults outside.old) (O.faults outside.new) }
{
    not_both();
    one_list();
    let store = match Store::start(alloc, limits, Mode::Reading, outside) {
        Ok(store) => store,
        Err(StartFault::NotJournal) => return refuse(outside, b"NOTJOURNAL\n"),
        Err(StartFault::Damaged { at }) => return refuse_gate(alloc, outside, at),
        Err(StartFault::DiskFault) => return Status::DiskFault,
        Err(StartFault::NoMemory) => return Status::NoMemory,
    };
    let Ok(text) = query.text(alloc, store.core()) else {
        return Status::NoMemory;
    };
    let Ok(()) = tell(outside, text.as_slice()) else {
        return Status::WriteFault;
    };
    Status::Good
}
