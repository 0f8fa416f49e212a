ghost use Rattle.std.specs.Prelude.{◌≡◌, ◌≢◌, ◌⊎◌, ◌<◌, ◌≤◌, ◌+◌, ◌-◌, ◌*◌, ◌^◌, ◌↔◌, ◌++◌, [], ◌∷◌, ℕ, List, Bool, false, max, length, vec_len, take, drop, Option, Some, None, IfSome, IfOk, IfErr, OnOk, OnErr, IsErrOf, IsTrue, option_map};
ghost use Rattle.std.specs.Option.{ForSome};
ghost use Rattle.byteorder.specs.Endian.{big_number};
ghost use Rattle.outside.specs.Crash.{At, IsDurable, IsTornFrom, LeavesOnly, NoneNew, TearsMore};
ghost use Rattle.outside.specs.Outside.{NoneFell, Rose, written};
ghost use Rattle.gate_journal.specs.declared.mode.Mode.TheVariants as for_;
ghost use Rattle.gate_journal.specs.Journal.{StandsFor, mark};
ghost use Rattle.gate_journal.specs.Gates.{IsGate};
ghost use Rattle.gate_journal.specs.Reading.{Hands, IsDamagedAt, IsNoJournal, IsRead, Moves, ReadsOn};
ghost use Rattle.gate_journal.specs.Settled.{AllStandFor, IsBeforeOrAfter, IsSettledIfTold, IsSettled, begun_file};

use crate::fault::JournalFault;
use crate::frame::Frame;
use crate::mode::Mode;
use byteorder::{BigEndian, ByteOrder};
use outside::{Failed, Outside};
use rd_plane::Text;
use std::alloc::{AllocError, Global};
use std::marker::Model;

// The first eight bytes of a journal.
const MARK: [u8; 8] = *b"BGTJ0001";

// A new journal: the mark, and the first gate, which is closed.
const NEW: [u8; 9] = *b"BGTJ0001\0";

// The offset of the first gate.
const FIRST_GATE: u64 = 8;

/// A journal that is begun. It keeps places in the file, and none of its bytes.
#[derive(Drop)]
pub struct Journal {
    mode: Mode,
    gate: u64,
    last_gate: u64,
    len: u64,
    empty: bool,
    at_end: bool,
}

impl Model for Journal {
    ghost use Rattle.gate_journal.specs.Reading.{Begun};

    ghost Value = { Begun };

    ghost view = { λ j. record { mode = j.mode; gate = j.gate; last_gate = j.last_gate; len = j.len; empty = j.empty; at_end = j.at_end } };
}

// Writes and syncs: at Ok what was written is on the disk.
fn write_and_sync<O: Outside>(at: u64, bytes: &[u8], outside: &mut O) -> Result<(), Failed>
    requires inside { IfSome (O.shown outside.old).disk (λ file. at ≤ length file) }
    requires low { at + length bytes.now < 2 ^ 62 }
    ensures written { OnOk result (O.shown outside.new ≡ record (O.shown outside.old) { disk = option_map (written at bytes.now) (O.shown outside.old).disk }) }
    ensures durable { OnOk result (IsDurable (O.shown outside.new).disk (O.leaves outside.new)) }
    ensures kept { O.shown outside.new ≡ record (O.shown outside.old) { disk = (O.shown outside.new).disk } }
    ensures images { TearsMore at (length bytes.now) (O.leaves outside.old) (O.leaves outside.new) }
    ensures moments { LeavesOnly O.clock O.left outside.old outside.new (At (O.shown outside.old).told (IsTornFrom at (length bytes.now) (O.leaves outside.old))) }
    ensures cause { OnErr result (Rose (O.faults outside.old).disks (O.faults outside.new).disks) }
    ensures counts { NoneFell (O.faults outside.old) (O.faults outside.new) }
{
    outside.disk_write(at, bytes)?;
    outside.disk_sync()?;
    Ok(())
}

// The file's length, where it may be a journal.
fn inspect<O: Outside>(outside: &mut O) -> Result<u64, JournalFault>
    ensures len { IfOk result (λ n. ForSome (O.shown outside.old).disk (λ file. n ≡ length file)) }
    ensures journal { OnOk result (ForSome (O.shown outside.old).disk (λ file. (length file ≤ 9) ⊎ (take 8 file ≡ mark))) }
    ensures not_journal { IsErrOf result JournalFault.NotJournal → ForSome (O.shown outside.old).disk IsNoJournal }
    ensures disk_fault { IsErrOf result JournalFault.DiskFault → Rose (O.faults outside.old).disks (O.faults outside.new).disks }
    ensures nothing_else { IfErr result (λ e. (e ≡ JournalFault.NotJournal) ⊎ (e ≡ JournalFault.DiskFault)) }
    ensures same { O.shown outside.new ≡ O.shown outside.old }
    ensures images { NoneNew (O.leaves outside.old) (O.leaves outside.new) }
    ensures moments { LeavesOnly O.clock O.left outside.old outside.new (At (O.shown outside.old).told (O.leaves outside.old)) }
    ensures counts { NoneFell (O.faults outside.old) (O.faults outside.new) }
{
    let Ok(len) = outside.disk_len() else {
        return Err(JournalFault::DiskFault);
    };
    if len <= 9 {
        return Ok(len);
    }
    let mut head = [0; 8];
    let Ok(n) = outside.disk_read(0, &mut head) else {
        return Err(JournalFault::DiskFault);
    };
    let (front, _) = head.split_at(n);
    if !is_mark(front) {
        return Err(JournalFault::NotJournal);
    }
    Ok(len)
}

fn is_mark(bytes: &[u8]) -> bool
    ensures { IsTrue result ↔ bytes.now ≡ mark }
{
    bytes == MARK.as_slice()
}

// What stands at a gate.
enum Gate {
    // Not open, or past the end of the file.
    Closed,
    // Open, and fewer than eight bytes come after it.
    Cut,
    // Open, with the payload's length after it.
    Open { size: u64 },
}

// What stands at a gate, of which these are the first nine bytes, or all there are.
fn gate_in(bytes: &[u8]) -> Gate
    requires { length bytes.now ≤ 9 }
    ensures { IsGate bytes.now result }
{
    if bytes.is_empty() {
        return Gate::Closed;
    }
    if bytes[0] != 1 {
        return Gate::Closed;
    }
    let (_, behind) = bytes.split_at(1);
    if behind.len() < 8 {
        return Gate::Cut;
    }
    Gate::Open {
        size: BigEndian::read_u64(behind),
    }
}

impl Journal {
    // A journal at its first gate.
    fn at_first_gate(mode: Mode, len: u64, empty: bool) -> Journal
        ensures { result ≡ record { mode = mode; gate = 8; last_gate = 8; len = len; empty = empty; at_end = false } }
    {
        Journal {
            mode,
            gate: FIRST_GATE,
            last_gate: FIRST_GATE,
            len,
            empty,
            at_end: false,
        }
    }

    fn begin_reading<O: Outside>(outside: &mut O) -> Result<Journal, JournalFault>
        ensures begun { IfOk result (λ j. (j.mode ≡ for_.Reading) × (j.gate ≡ 8) × (j.len < 2 ^ 64)) }
        ensures read { IfOk result (λ j. ForSome (O.shown outside.old).disk (λ file. IsRead j file [])) }
        ensures not_journal { IsErrOf result JournalFault.NotJournal → ForSome (O.shown outside.old).disk IsNoJournal }
        ensures disk_fault { IsErrOf result JournalFault.DiskFault → Rose (O.faults outside.old).disks (O.faults outside.new).disks }
        ensures nothing_else { IfErr result (λ e. (e ≡ JournalFault.NotJournal) ⊎ (e ≡ JournalFault.DiskFault)) }
        ensures same { O.shown outside.new ≡ O.shown outside.old }
        ensures images { NoneNew (O.leaves outside.old) (O.leaves outside.new) }
        ensures moments { LeavesOnly O.clock O.left outside.old outside.new (At (O.shown outside.old).told (O.leaves outside.old)) }
        ensures counts { NoneFell (O.faults outside.old) (O.faults outside.new) }
    {
        match inspect(outside) {
            Ok(len) if len <= 9 => Ok(Journal::at_first_gate(Mode::Reading, len, true)),
            Ok(len) => Ok(Journal::at_first_gate(Mode::Reading, len, false)),
            Err(fault) => Err(fault),
        }
    }

    // The sync comes first: what was pending would outlive the length that is looked at.
    fn begin_writing<O: Outside>(outside: &mut O) -> Result<Journal, JournalFault>
        ensures begun { IfOk result (λ j. (j.mode ≡ for_.Writing) × (j.gate ≡ 8) × (j.len < 2 ^ 64) × (j.empty ≡ Bool.false)) }
        ensures read { IfOk result (λ j. ForSome (O.shown outside.new).disk (λ file. IsRead j file [])) }
        ensures disk { OnOk result ((O.shown outside.new).disk ≡ option_map (begun_file for_.Writing) (O.shown outside.old).disk) }
        ensures durable { OnOk result (IsDurable (O.shown outside.new).disk (O.leaves outside.new)) }
        ensures not_journal { IsErrOf result JournalFault.NotJournal → ForSome (O.shown outside.old).disk IsNoJournal × (O.shown outside.new ≡ O.shown outside.old) }
        ensures long { ForSome (O.shown outside.old).disk (λ file. 9 < length file → O.shown outside.new ≡ O.shown outside.old) }
        ensures disk_fault { IsErrOf result JournalFault.DiskFault → Rose (O.faults outside.old).disks (O.faults outside.new).disks }
        ensures nothing_else { IfErr result (λ e. (e ≡ JournalFault.NotJournal) ⊎ (e ≡ JournalFault.DiskFault)) }
        ensures kept { O.shown outside.new ≡ record (O.shown outside.old) { disk = (O.shown outside.new).disk } }
        ensures images { (payloads : List (List ℕ)) → AllStandFor (O.leaves outside.old) payloads → AllStandFor (O.leaves outside.new) payloads }
        ensures moments { (payloads : List (List ℕ)) → AllStandFor (O.leaves outside.old) payloads
            → LeavesOnly O.clock O.left outside.old outside.new (At (O.shown outside.old).told (λ image. StandsFor image payloads)) }
        ensures counts { NoneFell (O.faults outside.old) (O.faults outside.new) }
    {
        let Ok(()) = outside.disk_sync() else {
            return Err(JournalFault::DiskFault);
        };
        let len = match inspect(outside) {
            Ok(len) => len,
            Err(fault) => return Err(fault),
        };
        if len > 9 {
            return Ok(Journal::at_first_gate(Mode::Writing, len, false));
        }
        let Ok(()) = write_and_sync(0, &NEW, outside) else {
            return Err(JournalFault::DiskFault);
        };
        Ok(Journal::at_first_gate(Mode::Writing, 9, false))
    }

    /// Begins a journal at its first gate. For writing it makes a new one of a file of at most nine bytes.
    ///
    /// NotJournal: the file has more than nine bytes, and its first eight are not the mark.
    /// A file of more than nine bytes is as before, whatever the answer, and so is any file for reading.
    pub fn begin<O: Outside>(mode: Mode, outside: &mut O) -> Result<Journal, JournalFault>
        ensures begun { IfOk result (λ j. (j.mode ≡ mode) × (j.gate ≡ 8) × (j.len < 2 ^ 64) × (mode ≡ for_.Writing → j.empty ≡ Bool.false)) }
        ensures read { IfOk result (λ j. ForSome (O.shown outside.new).disk (λ file. IsRead j file [])) }
        ensures disk { OnOk result ((O.shown outside.new).disk ≡ option_map (begun_file mode) (O.shown outside.old).disk) }
        ensures durable { mode ≡ for_.Writing → OnOk result (IsDurable (O.shown outside.new).disk (O.leaves outside.new)) }

        // A crash at any moment of the call leaves a file that stands for what the files before it stood for.
        ensures images { (payloads : List (List ℕ)) → AllStandFor (O.leaves outside.old) payloads → AllStandFor (O.leaves outside.new) payloads }
        ensures moments { (payloads : List (List ℕ)) → AllStandFor (O.leaves outside.old) payloads
            → LeavesOnly O.clock O.left outside.old outside.new (At (O.shown outside.old).told (λ image. StandsFor image payloads)) }

        // What is as before, whatever the answer.
        ensures long { ForSome (O.shown outside.old).disk (λ file. 9 < length file → O.shown outside.new ≡ O.shown outside.old) }
        ensures reading { mode ≡ for_.Reading → (O.shown outside.new ≡ O.shown outside.old) × NoneNew (O.leaves outside.old) (O.leaves outside.new) }
        ensures reading_moments { mode ≡ for_.Reading → LeavesOnly O.clock O.left outside.old outside.new (At (O.shown outside.old).told (O.leaves outside.old)) }
        ensures kept { O.shown outside.new ≡ record (O.shown outside.old) { disk = (O.shown outside.new).disk } }

        // Whence each fault.
        ensures not_journal { IsErrOf result JournalFault.NotJournal → ForSome (O.shown outside.old).disk IsNoJournal × (O.shown outside.new ≡ O.shown outside.old) }
        ensures disk_fault { IsErrOf result JournalFault.DiskFault → Rose (O.faults outside.old).disks (O.faults outside.new).disks }
        ensures nothing_else { IfErr result (λ e. (e ≡ JournalFault.NotJournal) ⊎ (e ≡ JournalFault.DiskFault)) }
        ensures counts { NoneFell (O.faults outside.old) (O.faults outside.new) }
    {
        match mode {
            Mode::Reading => Journal::begin_reading(outside),
            Mode::Writing => Journal::begin_writing(outside),
        }
    }

    /// The offset of the gate that comes next.
    pub fn gate(&self) -> u64
        ensures { result ≡ self.now.gate }
    {
        self.gate
    }

    /// The offset of the gate of the last payload that was handed out.
    pub fn last_gate(&self) -> u64
        ensures { result ≡ self.now.last_gate }
    {
        self.last_gate
    }

    // What stands at the gate that comes next.
    fn look<O: Outside>(&self, outside: &mut O) -> Result<Gate, Failed>
        ensures gate { IfOk result (λ gate. ForSome (O.shown outside.old).disk (λ file. IsGate (take 9 (drop self.now.gate file)) gate)) }
        ensures cause { OnErr result (Rose (O.faults outside.old).disks (O.faults outside.new).disks) }
        ensures same { O.shown outside.new ≡ O.shown outside.old }
        ensures images { NoneNew (O.leaves outside.old) (O.leaves outside.new) }
        ensures moments { LeavesOnly O.clock O.left outside.old outside.new (At (O.shown outside.old).told (O.leaves outside.old)) }
        ensures counts { NoneFell (O.faults outside.old) (O.faults outside.new) }
    {
        let mut head = [0; 9];
        let n = outside.disk_read(self.gate, &mut head)?;
        let (front, _) = head.split_at(n);
        Ok(gate_in(front))
    }

    // How many bytes the file has after the gate and the payload's length.
    fn left(&self) -> u64
        ensures { result ≡ self.now.len - self.now.gate - 9 }
    {
        self.len.saturating_sub(self.gate).saturating_sub(9)
    }

    // The payload of so many bytes after the gate and the length that come next.
    fn read_payload<O: Outside>(
        &self,
        alloc: Global,
        size: usize,
        outside: &mut O,
    ) -> Result<Text, JournalFault>
        requires { self.now.gate + 9 + size < 2 ^ 64 }
        ensures payload { IfOk result (λ text. (length text ≡ size) × ForSome (O.shown outside.old).disk (λ file. text ≡ take size (drop (self.now.gate + 9) file))) }
        ensures damaged { (at : ℕ) → IsErrOf result (JournalFault.Damaged at) → (at ≡ self.now.gate) × ForSome (O.shown outside.old).disk (λ file. length file < self.now.gate + 9 + size) }
        ensures disk_fault { IsErrOf result JournalFault.DiskFault → Rose (O.faults outside.old).disks (O.faults outside.new).disks }
        ensures nothing_else { IfErr result (λ e. e ≢ JournalFault.NotJournal) }
        ensures same { O.shown outside.new ≡ O.shown outside.old }
        ensures images { NoneNew (O.leaves outside.old) (O.leaves outside.new) }
        ensures moments { LeavesOnly O.clock O.left outside.old outside.new (At (O.shown outside.old).told (O.leaves outside.old)) }
        ensures counts { NoneFell (O.faults outside.old) (O.faults outside.new) }
    {
        let Ok(mut payload) = zeros(alloc, size) else {
            return Err(JournalFault::NoMemory);
        };
        let Ok(n) = outside.disk_read(self.gate + 9, &mut payload) else {
            return Err(JournalFault::DiskFault);
        };
        if n < size {
            return Err(JournalFault::Damaged { at: self.gate });
        }
        Ok(Text::from_vec(payload))
    }

    /// The payload of the next record, or none where the gate that comes next is not open. A file that had at most nine bytes
    /// when it was begun counts as one closed gate.
    ///
    /// Damaged: the gate that comes next is open, and no whole record with its next gate comes after it.
    /// After an error the journal is as before.
    pub fn next_payload<O: Outside>(
        &mut self,
        alloc: Global,
        outside: &mut O,
    ) -> Result<Option<Text>, JournalFault>
        requires { ForSome (O.shown outside.old).disk (λ file. (payloads : List (List ℕ)) × IsRead self.old file payloads) }

        // What is handed out is what stands at the gate.
        ensures hands { IfOk result (λ next. ForSome (O.shown outside.old).disk (λ file. Hands file self.old next)) }
        ensures moves { IfOk result (λ next. Moves self.old self.new next) }
        ensures read { IfOk result (λ next. ForSome (O.shown outside.old).disk (λ file. (payloads : List (List ℕ)) → IsRead self.old file payloads → ReadsOn self.new file payloads next)) }

        // Whence each fault, and what it leaves.
        ensures damaged { (at : ℕ) → IsErrOf result (JournalFault.Damaged at) → (at ≡ self.old.gate) × ForSome (O.shown outside.old).disk (λ file. IsDamagedAt file self.old.gate) }
        ensures stands_for_none { (at : ℕ) → IsErrOf result (JournalFault.Damaged at) → ForSome (O.shown outside.old).disk (λ file. (payloads : List (List ℕ)) → ¬ StandsFor file payloads) }
        ensures disk_fault { IsErrOf result JournalFault.DiskFault → Rose (O.faults outside.old).disks (O.faults outside.new).disks }
        ensures nothing_else { IfErr result (λ e. e ≢ JournalFault.NotJournal) }
        ensures as_before { OnErr result (self.new ≡ self.old) }

        // Nothing else moves.
        ensures same { O.shown outside.new ≡ O.shown outside.old }
        ensures images { NoneNew (O.leaves outside.old) (O.leaves outside.new) }
        ensures moments { LeavesOnly O.clock O.left outside.old outside.new (At (O.shown outside.old).told (O.leaves outside.old)) }
        ensures counts { NoneFell (O.faults outside.old) (O.faults outside.new) }
    {
        if self.empty {
            self.at_end = true;
            return Ok(None);
        }
        let Ok(gate) = self.look(outside) else {
            return Err(JournalFault::DiskFault);
        };
        let size = match gate {
            Gate::Closed => {
                self.at_end = true;
                return Ok(None);
            }
            Gate::Cut => return Err(JournalFault::Damaged { at: self.gate }),
            Gate::Open { size } => size,
        };
        // After the payload comes the next gate.
        if size >= self.left() {
            return Err(JournalFault::Damaged { at: self.gate });
        }
        let text = match self.read_payload(alloc, size as usize, outside) {
            Ok(text) => text,
            Err(fault) => return Err(fault),
        };
        self.last_gate = self.gate;
        self.gate += 9 + size;
        self.at_end = false;
        Ok(Some(text))
    }

    /// Whether the record would end within so many bytes of the file, with its next gate.
    pub fn room(&self, frame: &Frame, journal_bytes: u64) -> bool
        requires { journal_bytes ≤ 2 ^ 40 }
        ensures { IsTrue result ↔ (self.now.gate + 10 + length frame.now ≤ journal_bytes) }
    {
        self.gate
            .saturating_add(frame.len() as u64)
            .saturating_add(1)
            <= journal_bytes
    }

    /// Puts a record after the closed gate, and then opens it. It takes no memory.
    ///
    /// Ok: from now on each crash leaves a file that has the payload.
    /// DiskFault: a crash leaves the payload or not; the journal has to be begun again.
    pub fn append<O: Outside>(&mut self, frame: &Frame, outside: &mut O) -> Result<(), JournalFault>
        requires writing { self.old.mode ≡ for_.Writing }
        requires at_end { self.old.at_end ≡ Bool.true }
        requires room { self.old.gate + 10 + length frame.now ≤ 2 ^ 40 }
        requires settled { IsSettledIfTold (O.shown outside.old).disk (O.leaves outside.old) self.old.gate }

        // What is acknowledged.
        ensures appended { OnOk result ((payloads : List (List ℕ)) → IsSettled (O.shown outside.old).disk (O.leaves outside.old) self.old.gate payloads
            → IsSettled (O.shown outside.new).disk (O.leaves outside.new) self.new.gate (payloads ++ frame.now ∷ [])) }
        ensures ready { OnOk result (IsSettledIfTold (O.shown outside.new).disk (O.leaves outside.new) self.new.gate) }
        ensures untold { OnOk result ((O.shown outside.old).disk ≡ None → (O.shown outside.new).disk ≡ None) }
        ensures place { OnOk result (self.new ≡ record self.old { gate = self.old.gate + 9 + length frame.now; len = max self.old.len (self.old.gate + 10 + length frame.now) }) }

        // A crash at any moment of the call leaves the payloads from before it, with the new one or without.
        ensures moments { (payloads : List (List ℕ)) → IsSettled (O.shown outside.old).disk (O.leaves outside.old) self.old.gate payloads
            → LeavesOnly O.clock O.left outside.old outside.new (At (O.shown outside.old).told (IsBeforeOrAfter payloads frame.now)) }

        // Whence the fault, and what stays.
        ensures fault { IfErr result (λ e. e ≡ JournalFault.DiskFault) }
        ensures disk_fault { OnErr result (Rose (O.faults outside.old).disks (O.faults outside.new).disks) }
        ensures as_before { OnErr result (self.new ≡ self.old) }
        ensures kept { O.shown outside.new ≡ record (O.shown outside.old) { disk = (O.shown outside.new).disk } }
        ensures counts { NoneFell (O.faults outside.old) (O.faults outside.new) }
    {
        // Were the gate opened before the record is on the disk, a crash could keep the gate and lose the record.
        let Ok(()) = write_and_sync(self.gate + 1, frame.bytes(), outside) else {
            return Err(JournalFault::DiskFault);
        };
        let Ok(()) = write_and_sync(self.gate, &[1], outside) else {
            return Err(JournalFault::DiskFault);
        };
        self.gate += frame.len() as u64;
        self.len = self.len.max(self.gate + 1);
        Ok(())
    }
}

// A buffer for a payload.
fn zeros(alloc: Global, len: usize) -> Result<Vec<u8>, AllocError>
    ensures { IfOk result (λ v. vec_len v ≡ len) }
{
    vec![in alloc; 0; len]
}
