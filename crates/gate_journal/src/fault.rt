use std::error::Error;
use std::fmt;
use std::fmt::{Display, Formatter};

/// Why a call of a journal failed.
#[derive(Clone, Copy, Debug, PartialEq, Eq)]
pub enum JournalFault {
    /// The file has more than nine bytes, and its first eight are not the mark.
    NotJournal,
    /// The gate at this offset is open, and no whole record with its next gate comes after it.
    Damaged { at: u64 },
    /// A call of the disk failed. A journal that was written to has to be begun again.
    DiskFault,
    /// Memory was refused.
    NoMemory,
}

impl Display for JournalFault {
    fn fmt<W: fmt::Write>(&self, f: &mut Formatter<W>) -> fmt::Result {
        match self {
            JournalFault::NotJournal => f.write_str("the file is no journal"),
            JournalFault::Damaged { at } => write!(f, "the record at byte {at} is damaged"),
            JournalFault::DiskFault => f.write_str("a call of the disk failed"),
            JournalFault::NoMemory => f.write_str("no memory"),
        }
    }
}

impl Error for JournalFault {}
