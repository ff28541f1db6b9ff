//! The file of a store: read and taken away at the start, written at the end.
//!
//! It is renamed before it is read, and removed before the first request is. So no process reads it a second time:
//! after a crash the store begins empty, and what was invalidated since never comes back.
ghost use Rattle.std.specs.Prelude.{◌≡◌, [], IfOk, OnErr};
ghost use Rattle.proxy_engine.specs.Beginnings.{ResponsesMayBeHeldAtStart};

use crate::command_fault::{CommandFailure, fault_of, system_call_words};
use crate::memory::megabytes;
use hx_allow::Table;
use hx_store::Shelf;
use proxy_kept_store::{a_server_may_begin_empty, read_kept_store};
use proxy_store_file::{EntryPart, StoreReadFault, WriteFault, write_and_empty_store};
use std::alloc::AllocError;
use std::fmt::Formatter;
use std::fs::{OpenFile, OpenOptions};
use std::io::{BufReader, BufWriter, ErrorKind, Write};
use std::os::unix::fs::OpenOptionsExt;
use std::rt::Files;
use std::{fmt, fs, io};

/// So many bytes take a moment to be read or written, and are told of before.
const LARGE: u64 = 268_435_456;

/// Why a file isn't used, in words for the operator.
#[derive(Clone, Copy)]
struct Refusal(StoreReadFault);

fn part_words(part: EntryPart) -> &'static str {
    match part {
        EntryPart::Head => "head",
        EntryPart::Status => "status",
        EntryPart::Times => "times",
        EntryPart::Key => "key",
        EntryPart::Nominated => "nominated values",
        EntryPart::Lines => "field lines",
    }
}

impl fmt::Display for Refusal {
    fn fmt<W: fmt::Write>(&self, f: &mut Formatter<W>) -> fmt::Result {
        match self.0 {
            StoreReadFault::NotAStore => f.write_str("it is no file of a store"),
            StoreReadFault::Version => f.write_str("its format is of another version"),
            StoreReadFault::Entries => f.write_str(
                "it has more responses than the table's capacity",
            ),
            StoreReadFault::Short(n) => write!(f, "it ends early, behind {n} whole responses"),
            StoreReadFault::Entry(n, part) => {
                write!(
                    f,
                    "the {} of response {n} can't be what they were",
                    part_words(part)
                )
            }
            StoreReadFault::Serial(n) => {
                write!(
                    f,
                    "the serial of response {n} stood before, or is no smaller than the next"
                )
            }
            StoreReadFault::Weight(n) => {
                write!(f, "with response {n} it is above the table's max_store")
            }
            StoreReadFault::Digest => f.write_str("its digest isn't that of its bytes"),
            StoreReadFault::Long => f.write_str("bytes follow its end"),
            StoreReadFault::Read => f.write_str("it can't be read on"),
            StoreReadFault::OutOfMemory => f.write_str("memory ran out"),
        }
    }
}

/// Why a store isn't written, in words for the operator.
fn write_fault_words(fault: WriteFault) -> &'static str {
    match fault {
        WriteFault::Entry(_, _) => "a response couldn't be read again",
        WriteFault::Serial(_) => "a serial is no smaller than the next",
        WriteFault::Write => "the writing failed",
        WriteFault::OutOfMemory => "memory ran out",
    }
}

/// The folder of a file.
fn folder_of(path: &str) -> &str {
    match path.rsplit_once('/') {
        Some(("", _)) => "/",
        Some((folder, _)) => folder,
        None => ".",
    }
}

/// Has the names in the folder of a file written to the disk.
fn sync_folder<R: Files>(rt: &R, path: &str) -> io::Result<()> {
    fs::open(rt, folder_of(path))?.sync_all()
}

/// Removes a file, if it is there, and tells where it can't be.
fn remove<R: Files + Eprint>(rt: &R, path: &str) {
    match fs::remove_file(rt, path) {
        Ok(()) => {}
        Err(e) if e.kind() == ErrorKind::NotFound => {}
        Err(e) => {
            let _ = eprintln!(rt; "warning: {path} can't be removed: {e}");
        }
    }
}

/// The file of a store, by the names that it has.
pub struct KeptStore<'a> {
    path: &'a str,
    /// While it is read.
    taken: String,
    /// Where it isn't used.
    refused: String,
    /// Until it is whole.
    part: String,
    /// Beside a record, which begins with what was read.
    recorded: Option<String>,
}

/// One call drops it, wherever that is.
impl Drop for KeptStore<'_> {
    fn drop(self) {
        let KeptStore {
            path: _,
            taken: _,
            refused: _,
            part: _,
            recorded: _,
        } = self;
    }
}

impl<'a> KeptStore<'a> {
    /// The file at a path, for a server that writes a record of this name, if it writes one.
    pub fn new<R: AllocGlobal>(
        rt: &R,
        path: &'a str,
        record: Option<&str>,
    ) -> Result<KeptStore<'a>, AllocError> {
        let recorded = match record {
            Some(name) => Some(format!(in rt.alloc(); "{name}.store")?),
            None => None,
        };
        Ok(KeptStore {
            path,
            taken: format!(in rt.alloc(); "{path}.read")?,
            refused: format!(in rt.alloc(); "{path}.bad")?,
            part: format!(in rt.alloc(); "{path}.new")?,
            recorded,
        })
    }

    /// That something can't be done with the file.
    fn fault<R: AllocGlobal>(&self, rt: &R, behind: &str, error: &io::Error) -> CommandFailure {
        let words = system_call_words(rt.alloc(), "the store ", self.path, behind, error);
        fault_of(error, CommandFailure::Write(words))
    }

    /// Takes the file away, so that no later start reads it, and opens it; nothing where none is there.
    fn take<R: Files + Eprint + AllocGlobal>(
        &self,
        rt: &R,
    ) -> Result<Option<R::File>, CommandFailure> {
        match fs::rename(rt, self.path, self.taken.as_str()) {
            Ok(()) => {}
            Err(e) if e.kind() == ErrorKind::NotFound => return Ok(None),
            Err(e) => {
                return Err(self.fault(rt, " can't be taken away before it is used", &e));
            }
        }
        if let Err(e) = sync_folder(rt, self.path) {
            let _ = eprintln!(rt;
                "warning: the folder of the store {} can't be synced: {e}: after a failure of power the old store may be there again",
                self.path
            );
        }
        match fs::open(rt, self.taken.as_str()) {
            Ok(file) => Ok(Some(file)),
            Err(e) => Err(self.fault(rt, " can't be opened", &e)),
        }
    }

    /// Tells of a large file before it is read.
    fn announce<R: Files + Eprint>(&self, rt: &R) {
        if let Ok(it) = fs::metadata(rt, self.taken.as_str()) {
            if it.len() >= LARGE {
                let size = megabytes(it.len());
                let _ = eprintln!(rt; "the store {} is read: {size} MB", self.path);
            }
        }
    }

    /// Reads what was taken away.
    fn read<R: Files + AllocGlobal, S: Shelf>(
        &self,
        rt: &R,
        config: &Table,
        shelf: &mut S,
        file: R::File,
    ) -> Result<u64, StoreReadFault>
        requires empty { S.entries shelf.old ≡ [] }
        requires capacity { S.limit shelf.old ≡ config.now.capacity }
        ensures may { IfOk result (λ first. ResponsesMayBeHeldAtStart config.now (S.entries shelf.new) first) }
        ensures emptied { OnErr result (S.entries shelf.new ≡ []) }
        ensures limit { S.limit shelf.new ≡ S.limit shelf.old }
    {
        match BufReader::new(rt.alloc(), file) {
            Ok(mut reader) => read_kept_store(rt.alloc(), config, shelf, &mut reader),
            Err(_) => Err(StoreReadFault::OutOfMemory),
        }
    }

    /// Keeps a file that isn't used, and tells why.
    fn refuse<R: Files + Eprint>(&self, rt: &R, fault: StoreReadFault) {
        let why = Refusal(fault);
        match fs::rename(rt, self.taken.as_str(), self.refused.as_str()) {
            Ok(()) => {
                let _ = eprintln!(rt;
                    "warning: the store {} isn't used: {why}; the store begins empty, and {} is kept",
                    self.path,
                    self.refused.as_str()
                );
            }
            Err(e) => {
                let _ = eprintln!(rt;
                    "warning: the store {} isn't used: {why}; the store begins empty, and {} can't be kept: {e}",
                    self.path,
                    self.refused.as_str()
                );
            }
        }
    }

    /// Reads the file into an empty shelf and takes it away; answers the serial that the next stored response gets. A
    /// file that can't be used whole isn't used at all: that is told, and the store begins empty.
    pub fn restore<R: Files + Eprint + AllocGlobal, S: Shelf>(
        &self,
        rt: &R,
        config: &Table,
        shelf: &mut S,
    ) -> Result<u64, CommandFailure>
        requires empty { S.entries shelf.old ≡ [] }
        requires capacity { S.limit shelf.old ≡ config.now.capacity }
        ensures may { IfOk result (λ first. ResponsesMayBeHeldAtStart config.now (S.entries shelf.new) first) }
        ensures limit { S.limit shelf.new ≡ S.limit shelf.old }
    {
        a_server_may_begin_empty();
        let Some(file) = self.take(rt)? else {
            return Ok(1);
        };
        self.announce(rt);
        match self.read(rt, config, shelf, file) {
            Ok(first) => Ok(first),
            Err(fault) => {
                self.refuse(rt, fault);
                Ok(1)
            }
        }
    }

    /// Removes what was read, before the first request is; also what a process has left that was killed meanwhile. For
    /// a record it stays beside that, under its name: a replay begins with it, and no start reads it.
    pub fn forget<R: Files + Eprint>(&self, rt: &R) {
        if let Some(recorded) = &self.recorded {
            self.set_aside(rt, recorded.as_str());
        }
        remove(rt, self.taken.as_str());
        remove(rt, self.part.as_str());
    }

    /// Gives what was read the name that it has beside a record.
    fn set_aside<R: Files + Eprint>(&self, rt: &R, recorded: &str) {
        match fs::rename(rt, self.taken.as_str(), recorded) {
            Ok(()) => {}
            Err(e) if e.kind() == ErrorKind::NotFound => {}
            Err(e) => {
                let _ = eprintln!(rt;
                    "warning: {recorded} can't be kept: {e}: a replay of the record lacks what was stored at first"
                );
            }
        }
    }

    /// Writes a store whole under another name.
    fn write_part<R: Files + AllocGlobal, S: Shelf>(
        &self,
        rt: &R,
        shelf: &mut S,
        next: u64,
    ) -> Result<(), CommandFailure> {
        let mut how = OpenOptions::new();
        // It holds what was sent: nobody else is to read it.
        how.write(true).create_new(true).mode(0o600);
        let file = match how.open(rt, self.part.as_str()) {
            Ok(file) => file,
            Err(e) => return Err(self.fault(rt, " can't be written", &e)),
        };
        let mut writer = match BufWriter::new(rt.alloc(), file) {
            Ok(writer) => writer,
            Err(_) => return Err(CommandFailure::NoMemory),
        };
        match write_and_empty_store(rt.alloc(), next, shelf, &mut writer) {
            Ok(()) => {}
            Err(WriteFault::OutOfMemory) => return Err(CommandFailure::NoMemory),
            Err(fault) => {
                let words = format!(in rt.alloc();
                    "the store {} can't be written: {}",
                    self.path,
                    write_fault_words(fault)
                );
                return Err(CommandFailure::Write(words.ok()));
            }
        }
        if let Err(e) = writer.flush() {
            return Err(self.fault(rt, " can't be written", &e));
        }
        match writer.get_ref().sync_all() {
            Ok(()) => Ok(()),
            Err(e) => Err(self.fault(rt, " can't be synced", &e)),
        }
    }

    /// Writes what was held at the end, with the next serial: whole under another name, and then renamed, so that
    /// nobody reads a part of it. A large one is told of before.
    pub fn write<R: Files + Eprint + AllocGlobal, S: Shelf>(
        &self,
        rt: &R,
        shelf: &mut S,
        next: u64,
    ) -> Result<(), CommandFailure> {
        if shelf.weight() >= LARGE {
            let size = megabytes(shelf.weight());
            let _ = eprintln!(rt; "the store {} is written: {size} MB", self.path);
        }
        let _ = fs::remove_file(rt, self.part.as_str());
        match self.write_part(rt, shelf, next) {
            Ok(()) => {}
            Err(fault) => {
                let _ = fs::remove_file(rt, self.part.as_str());
                return Err(fault);
            }
        }
        match fs::rename(rt, self.part.as_str(), self.path) {
            Ok(()) => {}
            Err(e) => return Err(self.fault(rt, " can't be put in place", &e)),
        }
        match sync_folder(rt, self.path) {
            Ok(()) => Ok(()),
            Err(e) => Err(self.fault(rt, " is written, and its folder can't be synced", &e)),
        }
    }
}
