//! What an operator is told on standard error while it serves: each warning at most once a minute.

use crate::clock_watch::ClockWatch;
use hx_store::Shelf;
use proxy_server::{ServedTurn, Server, TroubleCounts};
use std::io::Write;
use std::net::Net;

/// Seconds between two warnings of one kind, at the least.
const SECONDS_BETWEEN_WARNINGS: u64 = 60;

/// When a warning was given last, in seconds of the clock that never goes back.
#[derive(Clone, Copy)]
pub(crate) struct RareWarning {
    last: Option<u64>,
}

impl RareWarning {
    pub(crate) fn new() -> RareWarning {
        RareWarning { last: None }
    }

    /// Whether the warning is to be given. It counts as given then.
    pub(crate) fn is_due(&mut self, second: u64) -> bool {
        let is_early = match self.last {
            Some(last) => second.saturating_sub(last) < SECONDS_BETWEEN_WARNINGS,
            None => false,
        };
        if !is_early {
            self.last = Some(second);
        }
        !is_early
    }
}

/// How often the server couldn't do what was asked, as it was told last, and what else is told of its turns.
#[derive(Clone, Copy)]
pub(crate) struct Warnings {
    full: RareWarning,
    refused_beyond_bound: RareWarning,
    silent: RareWarning,
    no_descriptor: RareWarning,
    no_link: RareWarning,
    no_port: RareWarning,
    cut: RareWarning,
    clock: ClockWatch,
    record_reported: bool,
    refused: u64,
    without_descriptor: u64,
    links: u64,
    without_port: u64,
    refused_links: u64,
    silences: u64,
}

impl Warnings {
    pub(crate) fn new() -> Warnings {
        Warnings {
            full: RareWarning::new(),
            refused_beyond_bound: RareWarning::new(),
            silent: RareWarning::new(),
            no_descriptor: RareWarning::new(),
            no_link: RareWarning::new(),
            no_port: RareWarning::new(),
            cut: RareWarning::new(),
            clock: ClockWatch::new(),
            record_reported: false,
            refused: 0,
            without_descriptor: 0,
            links: 0,
            without_port: 0,
            refused_links: 0,
            silences: 0,
        }
    }

    /// Tells what is to be told of a turn: that it ended early, that the clock went back, and once that the record has
    /// ended.
    pub(crate) fn warn_of_turn<'s, R: Net + Eprint, S: Shelf + Drop, W: Write + Drop>(
        &mut self,
        rt: &R,
        server: &Server<'s, S, R, W>,
        turned: &ServedTurn,
    ) {
        let second = server.second();
        if let Err(fault) = &turned.reported {
            if self.cut.is_due(second) {
                let _ = eprintln!(rt; "warning: {fault}");
            }
        }
        if let Some(seconds) = self.clock.look(turned.moment, second) {
            let _ = eprintln!(rt;
                "warning: the clock went back by {seconds} seconds; what was stored before may be sent for so much longer"
            );
        }
        if !self.record_reported && server.record_has_ended() {
            self.record_reported = true;
            let _ = eprintln!(rt; "record ended");
        }
    }

    /// Tells what has come since the last look.
    pub(crate) fn look<'s, R: Net + Eprint, S: Shelf + Drop, W: Write + Drop>(
        &mut self,
        rt: &R,
        server: &Server<'s, S, R, W>,
    ) {
        let second = server.second();
        let troubles = server.troubles();
        if troubles.full > self.refused && self.full.is_due(second) {
            let _ = eprintln!(rt;
                "warning: as many connections of clients are open as may be, and none is idle: new ones wait"
            );
        }
        self.refused = troubles.full;
        if troubles.no_descriptor > self.without_descriptor && self.no_descriptor.is_due(second) {
            let _ = eprintln!(rt;
                "warning: no descriptor is left for a connection of a client: it waits"
            );
        }
        self.without_descriptor = troubles.no_descriptor;
        if troubles.no_link > self.links && self.no_link.is_due(second) {
            let _ = eprintln!(rt;
                "warning: no descriptor is left for a connection to an origin: the request is answered 502"
            );
        }
        self.links = troubles.no_link;
        self.look_at_ports(rt, &troubles, second);
        self.look_at_origins(rt, &troubles, second);
    }

    /// Tells that no local port was left since the last look.
    fn look_at_ports<R: Eprint>(&mut self, rt: &R, troubles: &TroubleCounts, second: u64) {
        if troubles.no_port > self.without_port && self.no_port.is_due(second) {
            let _ = eprintln!(rt;
                "warning: no local port is left for a connection to an origin: the request is answered 502"
            );
        }
        self.without_port = troubles.no_port;
    }

    /// Tells that connects to origins were refused at once since the last look.
    fn look_at_origins<R: Eprint>(&mut self, rt: &R, troubles: &TroubleCounts, second: u64) {
        if troubles.refused_beyond_bound > self.refused_links
            && self.refused_beyond_bound.is_due(second)
        {
            let _ = eprintln!(rt;
                "warning: as many connections to an origin are open as may be: further requests for it are refused"
            );
        }
        self.refused_links = troubles.refused_beyond_bound;
        if troubles.silent > self.silences && self.silent.is_due(second) {
            let _ = eprintln!(rt;
                "warning: an origin doesn't answer: it is asked by one request at a time until it does, others for it are refused"
            );
        }
        self.silences = troubles.silent;
    }
}
