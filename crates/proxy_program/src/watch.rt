//! What a server looks for once a second: the file that has it end, and whether its log was moved.

use hx_store::Shelf;
use proxy_files::Journal;
use proxy_server::Server;
use std::io::Write;
use std::net::Net;
use std::rt::{Clock, Files};
use std::{fs, io};

/// How a server is watched, and since when it is to end.
#[derive(Clone, Copy)]
pub(crate) struct ShutdownWatch<'a> {
    drain: Option<&'a str>,
    drain_timeout: u64,
    log: Option<&'a str>,
    /// The second in which it was last looked.
    looked: Option<u64>,
    /// The second from which on nothing is waited for.
    ends: Option<u64>,
    /// The file that has it end was there from the start.
    is_early: bool,
}

/// Whether a server goes on.
#[derive(Clone, Copy)]
pub(crate) enum ServerRunState {
    On,
    /// It begins to end.
    Draining,
    Over,
}

/// Tells that another program adds lines to the log.
fn tell_of_other_lines<R: Eprint>(rt: &R, path: &str) {
    let _ = eprintln!(rt;
        "warning: another program adds lines to {path}, too: give each a log of its own"
    );
}

impl<'a> ShutdownWatch<'a> {
    pub(crate) fn new(
        drain: Option<&'a str>,
        drain_timeout: u64,
        log: Option<&'a str>,
    ) -> ShutdownWatch<'a> {
        ShutdownWatch {
            drain,
            drain_timeout,
            log,
            looked: None,
            ends: None,
            is_early: false,
        }
    }

    /// Whether the file is there that has the server end.
    fn drain_file_exists<R: Files>(&self, rt: &R) -> bool {
        match self.drain {
            Some(path) => match fs::exists(rt, path) {
                Ok(there) => there,
                Err(_) => false,
            },
            None => false,
        }
    }

    /// The file that has it end, where that was there at the first look: it may be one that an earlier end has left.
    pub(crate) fn left_drain_file(&self) -> Option<&'a str> {
        if self.is_early { self.drain } else { None }
    }

    /// Says on standard output why lines of the log are lost, unless the log itself is there.
    pub(crate) fn explain_lost_log_lines<R: Print, F: Write + Drop, P: Write + Drop>(
        &self,
        rt: &R,
        journal: &Option<Journal<F, P>>,
    ) -> io::Result<()> {
        let (Some(path), Some(journal)) = (self.log, journal) else {
            return Ok(());
        };
        if path == "-" {
            return Ok(());
        }
        match journal.why() {
            Some(e) => println!(rt; "the log {path} can't be written: {e}"),
            None => println!(rt; "no memory is left for lines of the log; give the process more"),
        }
    }

    /// Looks after a turn, once a second, whether the server is to end, and at the file of the log.
    pub(crate) fn look<'s, R: Net + Files + Clock + Eprint, S: Shelf + Drop, P: Write + Drop>(
        &mut self,
        rt: &R,
        server: &mut Server<'s, S, R, R::File>,
        journal: &mut Option<Journal<R::File, P>>,
    ) -> ServerRunState {
        let now = server.second();
        if let Some(ends) = self.ends {
            if now >= ends || server.is_drained() {
                return ServerRunState::Over;
            }
        }
        if self.looked == Some(now) {
            return ServerRunState::On;
        }
        let is_first = self.looked.is_none();
        self.looked = Some(now);
        if let (Some(journal), Some(path)) = (journal, self.log) {
            journal.follow(rt, path);
            if journal.finds_lines_of_another_program() {
                tell_of_other_lines(rt, path);
            }
        }
        if self.ends.is_none() && self.drain_file_exists(rt) {
            self.is_early = is_first;
            self.ends = Some(now.saturating_add(self.drain_timeout));
            server.drain();
            return ServerRunState::Draining;
        }
        ServerRunState::On
    }
}
