ghost use Rattle.std.specs.Prelude.{◌≡◌, ◌≤◌, length, IfOk};
ghost use Rattle.std.specs.Option.{option_copied};
ghost use Rattle.outside.specs.Outside.{NoneFell, Rose};

use crate::fault::Failed;
use crate::traits::Outside;
use std::fs::{File, Files, OpenOptions, metadata};
use std::io;
use std::io::{ErrorKind, Read, Seek, SeekFrom, Write};
use std::marker::Model;
use std::os::fd::AsRawFd;
use std::rt::Runtime;

/// Standard input, standard output and a file: the trusted edge, which tells no content.
///
/// The file is opened at the first call of the disk. A path that names no regular file is a disk fault. One that may be
/// made is also written: it is locked, so that a second program that would write it has a disk fault.
#[derive(Drop)]
pub struct RealOutside<'a, R: Runtime + Files<File = File>> {
    rt: &'a R,
    path: Option<&'a str>,
    create: bool,
    reader: R::Reader,
    file: Option<File>,
    is_folder_synced: bool,
    read_faults: u64,
    write_faults: u64,
    disk_faults: u64,
}

impl<'a, R: Runtime + Files<File = File>> Model for RealOutside<'a, R> {
    ghost use Rattle.std.specs.Option.{option_copied};
    ghost use Rattle.outside.specs.Reach.{Reach};

    ghost Value = { Reach };

    ghost view = { λ o. record {
      path = option_copied o.path;
      create = o.create;
      faults = record { reads = o.read_faults; writes = o.write_faults; disks = o.disk_faults };
    } };
}

// Who opens a pipe waits for its other end, and a device may act on it, so neither is opened. What is missing may be made.
fn refuse_other_than_file<R: Files<File = File>>(rt: &R, path: &str) -> io::Result<()> {
    match metadata(rt, path) {
        Ok(found) if found.is_file() => Ok(()),
        Ok(_) => Err(io::Error::from(ErrorKind::InvalidInput)),
        Err(e) if e.kind() == ErrorKind::NotFound => Ok(()),
        Err(e) => Err(e),
    }
}

// The lock comes before the first byte is read, and goes with the file when the program ends.
fn open<R: Files<File = File>>(rt: &R, path: Option<&str>, create: bool) -> io::Result<File> {
    let Some(path) = path else {
        return Err(io::Error::from(ErrorKind::NotFound));
    };
    refuse_other_than_file(rt, path)?;
    let file = OpenOptions::new()
        .read(true)
        .write(create)
        .create(create)
        .open(rt, path)?;
    // Where standard input or output is closed, the file would stand in its place, and replies would be written over records.
    if file.as_raw_fd() <= 2 || !file.metadata()?.is_file() {
        return Err(io::Error::from(ErrorKind::InvalidInput));
    }
    if create {
        file.try_lock()?;
    }
    Ok(file)
}

fn folder_of(path: &str) -> &str {
    match path.rsplit_once('/') {
        Some(("", _)) => "/",
        Some((folder, _)) => folder,
        None => ".",
    }
}

fn sync_folder<R: Files<File = File>>(rt: &R, path: Option<&str>) -> io::Result<()> {
    match path {
        Some(path) => File::open(rt, folder_of(path))?.sync_all(),
        None => Err(io::Error::from(ErrorKind::NotFound)),
    }
}

// One read. If a signal cuts it off, it is tried again.
fn read_once<F: Read>(source: &mut F, buf: &mut [u8]) -> io::Result<usize>
    ensures { IfOk result (λ n. n ≤ length buf.old) }
{
    for _ in 0..u64::MAX {
        match source.read(buf) {
            Ok(n) => return Ok(n),
            Err(e) if e.kind() == ErrorKind::Interrupted => {}
            Err(e) => return Err(e),
        }
    }
    Err(io::Error::from(ErrorKind::Interrupted))
}

// The same for a write.
fn write_once<R: Runtime>(sink: &R, bytes: &[u8]) -> io::Result<usize>
    ensures { IfOk result (λ n. n ≤ length bytes.now) }
{
    for _ in 0..u64::MAX {
        match sink.write_some(bytes) {
            Ok(n) => return Ok(n),
            Err(e) if e.kind() == ErrorKind::Interrupted => {}
            Err(e) => return Err(e),
        }
    }
    Err(io::Error::from(ErrorKind::Interrupted))
}

// A read of a file may give fewer bytes than there are, so it is asked until the buffer is full or none come.
fn read_at<F: Read + Seek>(file: &mut F, at: u64, buf: &mut [u8]) -> io::Result<usize>
    ensures { IfOk result (λ n. n ≤ length buf.old) }
{
    file.seek(SeekFrom::Start(at))?;
    let mut done = 0;
    while done < buf.len() {
        let n = read_once(file, &mut buf[done..])?;
        if n == 0 {
            return Ok(done);
        }
        done += n;
    }
    Ok(done)
}

fn write_at<F: Write + Seek>(file: &mut F, at: u64, bytes: &[u8]) -> io::Result<()> {
    file.seek(SeekFrom::Start(at))?;
    file.write_all(bytes)
}

impl<'a, R: Runtime + Files<File = File>> RealOutside<'a, R> {
    /// `path` is the file. With `create` it may be written, and is made where it is missing.
    pub fn new(rt: &'a R, path: Option<&'a str>, create: bool) -> RealOutside<'a, R>
        ensures { result ≡ record {
          path = option_copied path.entry;
          create = create;
          faults = record { reads = 0; writes = 0; disks = 0 };
        } }
    {
        RealOutside {
            rt,
            path,
            create,
            reader: rt.reader(),
            file: None,
            is_folder_synced: false,
            read_faults: 0,
            write_faults: 0,
            disk_faults: 0,
        }
    }
}

impl<'a, R: Runtime + Files<File = File>> RealOutside<'a, R> {
    fn make_open(&mut self) -> io::Result<()>
        ensures { self.new ≡ self.old }
    {
        if self.file.is_none() {
            self.file = Some(open(self.rt, self.path, self.create)?);
        }
        Ok(())
    }

    fn measure(&mut self) -> io::Result<u64>
        ensures { self.new ≡ self.old }
    {
        self.make_open()?;
        match &mut self.file {
            Some(file) => file.seek(SeekFrom::End(0)),
            None => Err(io::Error::from(ErrorKind::NotFound)),
        }
    }

    fn read_file(&mut self, at: u64, buf: &mut [u8]) -> io::Result<usize>
        ensures same { self.new ≡ self.old }
        ensures fits { IfOk result (λ n. n ≤ length buf.old) }
    {
        self.make_open()?;
        match &mut self.file {
            Some(file) => read_at(file, at, buf),
            None => Err(io::Error::from(ErrorKind::NotFound)),
        }
    }

    fn write_file(&mut self, at: u64, bytes: &[u8]) -> io::Result<()>
        ensures { self.new ≡ self.old }
    {
        self.make_open()?;
        match &mut self.file {
            Some(file) => write_at(file, at, bytes),
            None => Err(io::Error::from(ErrorKind::NotFound)),
        }
    }

    // The file's name is on the disk only once its folder is: an earlier run may have made the file and been cut off.
    fn sync_file(&mut self) -> io::Result<()>
        ensures { self.new ≡ self.old }
    {
        self.make_open()?;
        match &self.file {
            Some(file) => file.sync_all()?,
            None => return Err(io::Error::from(ErrorKind::NotFound)),
        }
        if !self.is_folder_synced {
            sync_folder(self.rt, self.path)?;
            self.is_folder_synced = true;
        }
        Ok(())
    }

    fn disk_failed(&mut self) -> Failed
        ensures later { NoneFell self.old.faults self.new.faults }
        ensures rose { Rose self.old.faults.disks self.new.faults.disks }
    {
        self.disk_faults = self.disk_faults.saturating_add(1);
        Failed
    }
}

impl<'a, R: Runtime + Files<File = File>> Outside for RealOutside<'a, R> {
    ghost use Rattle.std.specs.Prelude.{None};
    ghost use Rattle.std.proofs.lemmas.Option.{none-some as none_some};

    ghost shown = { λ _. record { input = None; told = None; disk = None } };

    ghost faults = { λ o. o.faults };

    ghost leaves = { λ _ image. ⊥ };

    ghost clock = { λ _. 0 };

    ghost left = { λ _ t told image. ⊥ };

    ghost counts_now = { λ o t told image le is leaves. leaves };

    ghost only_now = { λ o told image left. absurd left };

    ghost reads_as_image = { λ o file is. absurd (none_some file is) };

    fn take(&mut self, buf: &mut [u8]) -> Result<usize, Failed> {
        match read_once(&mut self.reader, buf) {
            Ok(n) => Ok(n),
            Err(_) => {
                self.read_faults = self.read_faults.saturating_add(1);
                Err(Failed)
            }
        }
    }

    // A sink that takes nothing of a piece that is not empty would make its caller give for ever.
    fn give(&mut self, bytes: &[u8]) -> Result<usize, Failed> {
        match write_once(self.rt, bytes) {
            Ok(n) if n > 0 || bytes.is_empty() => Ok(n),
            _ => {
                self.write_faults = self.write_faults.saturating_add(1);
                Err(Failed)
            }
        }
    }

    fn disk_len(&mut self) -> Result<u64, Failed> {
        match self.measure() {
            Ok(n) => Ok(n),
            Err(_) => Err(self.disk_failed()),
        }
    }

    fn disk_read(&mut self, at: u64, buf: &mut [u8]) -> Result<usize, Failed> {
        match self.read_file(at, buf) {
            Ok(n) => Ok(n),
            Err(_) => Err(self.disk_failed()),
        }
    }

    fn disk_write(&mut self, at: u64, bytes: &[u8]) -> Result<(), Failed> {
        match self.write_file(at, bytes) {
            Ok(()) => Ok(()),
            Err(_) => Err(self.disk_failed()),
        }
    }

    fn disk_sync(&mut self) -> Result<(), Failed> {
        match self.sync_file() {
            Ok(()) => Ok(()),
            Err(_) => Err(self.disk_failed()),
        }
    }
}
