//! The figures of a server, written once a second.

use crate::command_line::VERSION;
use crate::process::process_figures;
use crate::warnings::RareWarning;
use hx_store::Shelf;
use proxy_files::StatsFile;
use proxy_server::{ProgramFacts, Server, StoreCounts};
use std::io;
use std::io::{ErrorKind, Write};
use std::net::Net;
use std::rt::Files;

/// What a server can't know of itself, and what doesn't change while it runs.
#[derive(Clone, Copy)]
pub(crate) struct FixedFacts {
    /// When it began, in milliseconds since 1970.
    pub(crate) began: u64,
    /// When the process began, and how many descriptors it may have, where the system tells.
    pub(crate) process_began: Option<u64>,
    pub(crate) most_descriptors: Option<u64>,
    /// The most stored responses, and the most bytes of all of them, where the table bounds those.
    pub(crate) capacity: u64,
    pub(crate) capacity_bytes: Option<u64>,
}

/// Where the figures go, and what they say beside what the server tells.
pub(crate) struct Figures<'a> {
    file: StatsFile<'a>,
    facts: FixedFacts,
    commit: String,
    store: &'a StoreCounts,
    /// The second in which they were written last.
    written: Option<u64>,
    warned: RareWarning,
}

/// One call drops it, wherever that is.
impl Drop for Figures<'_> {
    fn drop(self) {
        let Figures {
            file: _,
            facts: _,
            commit: _,
            store: _,
            written: _,
            warned: _,
        } = self;
    }
}

impl<'a> Figures<'a> {
    pub(crate) fn new(
        file: StatsFile<'a>,
        facts: FixedFacts,
        commit: String,
        store: &'a StoreCounts,
    ) -> Figures<'a> {
        Figures {
            file,
            facts,
            commit,
            store,
            written: None,
            warned: RareWarning::new(),
        }
    }

    /// Writes them now.
    pub(crate) fn write<'s, R: Net + Files + AllocGlobal, S: Shelf + Drop, W: Write + Drop>(
        &self,
        rt: &R,
        server: &Server<'s, S, R, W>,
        lost_lines: u64,
    ) -> io::Result<()> {
        let facts = self.facts;
        let about = ProgramFacts {
            version: VERSION,
            commit: self.commit.as_str(),
            began: facts.began,
            capacity: facts.capacity,
            capacity_bytes: facts.capacity_bytes,
            store: self.store,
            lost_lines,
            process: process_figures(rt, facts.process_began, facts.most_descriptors),
        };
        match server.stats(rt.alloc(), &about) {
            Ok(page) => self.file.write(rt, page.as_slice()),
            Err(_) => Err(io::Error::from(ErrorKind::OutOfMemory)),
        }
    }

    /// Writes them, where a second has gone by. That they can't be written is told once a minute.
    pub(crate) fn follow<'s, R, S: Shelf + Drop, W: Write + Drop>(
        &mut self,
        rt: &R,
        server: &Server<'s, S, R, W>,
        lost_lines: u64,
    )
    where
        R: Net + Files + AllocGlobal + Eprint,
    {
        let second = server.second();
        if self.written == Some(second) {
            return;
        }
        self.written = Some(second);
        if let Err(e) = self.write(rt, server, lost_lines) {
            if self.warned.is_due(second) {
                let _ = eprintln!(rt; "warning: the figures can't be written: {e}");
            }
        }
    }
}
