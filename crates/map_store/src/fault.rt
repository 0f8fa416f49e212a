use map_core::Refusal;
use std::error::Error;
use std::fmt;
use std::fmt::{Display, Formatter};

/// Why a store was not started.
#[derive(Clone, Copy, Debug, PartialEq, Eq)]
pub enum StartFault {
    /// The file has more than nine bytes, and its first eight are not the mark of a journal.
    NotJournal,
    /// The open gate at this offset has no whole record, or one that is not the canonical text of a message that is accepted
    /// after those before it.
    Damaged { at: u64 },
    /// A call of the disk failed.
    DiskFault,
    /// Memory was refused.
    NoMemory,
}

impl Display for StartFault {
    fn fmt<W: fmt::Write>(&self, f: &mut Formatter<W>) -> fmt::Result {
        match self {
            StartFault::NotJournal => f.write_str("the file is no journal"),
            StartFault::Damaged { at } => write!(f, "the record at byte {at} is damaged"),
            StartFault::DiskFault => f.write_str("a call of the disk failed"),
            StartFault::NoMemory => f.write_str("no memory"),
        }
    }
}

impl Error for StartFault {}

/// Why a message was not kept.
#[derive(Clone, Copy, Debug, PartialEq, Eq)]
pub enum SubmitFault {
    /// The register refuses it. All is as before.
    Refused(Refusal),
    /// Its record would end past the limit on the file. All is as before.
    JournalFull,
    /// A call of the disk failed. The message may be in the file; the store is spent.
    DiskFault,
    /// An earlier call of the disk failed while a message was kept. Start the store again.
    Spent,
    /// Memory was refused. All is as before.
    NoMemory,
}

impl Display for SubmitFault {
    fn fmt<W: fmt::Write>(&self, f: &mut Formatter<W>) -> fmt::Result {
        f.write_str(match self {
            SubmitFault::Refused(_) => "the register refuses the message",
            SubmitFault::JournalFull => "the file has no room for the message",
            SubmitFault::DiskFault => "a call of the disk failed",
            SubmitFault::Spent => "an earlier call of the disk failed",
            SubmitFault::NoMemory => "no memory",
        })
    }
}

impl Error for SubmitFault {}
