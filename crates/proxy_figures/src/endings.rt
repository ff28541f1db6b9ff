//! Why connections of clients were cut, and how many bytes they received and were sent.
ghost use Rattle.std.specs.Prelude.{◌≡◌};
ghost use Rattle.proxy_figures.specs.EndingCounts.{end_counts_with_cut, end_counts_with_lateness};
ghost use Rattle.proxy_figures.specs.EndingCounts.{end_counts_with_received_bytes, end_counts_with_written_bytes};

use crate::counts::{count_plus, count_plus_one};

/// Why a connection is closed early.
#[derive(Clone, Copy, PartialEq, Eq)]
pub enum CutReason {
    /// It was idle, or its request was incomplete and no byte of it came for a second, and its room is wanted.
    Room,
    /// More is held for requests and answers than may be, and the most for this one.
    Content,
    Memory,
}

/// Which time of a client is over.
#[derive(Clone, Copy, PartialEq, Eq)]
pub enum ExceededClientLimit {
    /// It was silent.
    Client,
    /// Its request isn't whole.
    Request,
    /// It has sent its end.
    Abandon,
}

/// Counts of endings.
#[derive(Clone, Copy)]
pub struct ClientEndCounts {
    pub for_room: u64,
    pub for_content: u64,
    pub for_memory: u64,
    pub client_timeouts: u64,
    pub request_timeouts: u64,
    pub abandon_timeouts: u64,
    /// Bytes that have come from clients, and that the system has taken for them.
    pub received: u64,
    pub written: u64,
}

impl ClientEndCounts {
    pub fn new() -> ClientEndCounts
        ensures { result ≡ record {
          for_room = 0;
          for_content = 0;
          for_memory = 0;
          client_timeouts = 0;
          request_timeouts = 0;
          abandon_timeouts = 0;
          received = 0;
          written = 0;
        } }
    {
        ClientEndCounts {
            for_room: 0,
            for_content: 0,
            for_memory: 0,
            client_timeouts: 0,
            request_timeouts: 0,
            abandon_timeouts: 0,
            received: 0,
            written: 0,
        }
    }

    pub fn count_cut(&mut self, cut: CutReason)
        ensures { self.new ≡ end_counts_with_cut self.old cut }
    {
        match cut {
            CutReason::Room => self.for_room = count_plus_one(self.for_room),
            CutReason::Content => self.for_content = count_plus_one(self.for_content),
            CutReason::Memory => self.for_memory = count_plus_one(self.for_memory),
        }
    }

    pub fn count_lateness(&mut self, lateness: ExceededClientLimit)
        ensures { self.new ≡ end_counts_with_lateness self.old lateness }
    {
        match lateness {
            ExceededClientLimit::Client => self.client_timeouts = count_plus_one(
                self.client_timeouts,
            ),
            ExceededClientLimit::Request => self.request_timeouts = count_plus_one(
                self.request_timeouts,
            ),
            ExceededClientLimit::Abandon => self.abandon_timeouts = count_plus_one(
                self.abandon_timeouts,
            ),
        }
    }

    /// So many bytes came from a client.
    pub fn add_received(&mut self, count: u64)
        ensures { self.new ≡ end_counts_with_received_bytes self.old count }
    {
        self.received = count_plus(self.received, count);
    }

    /// The system has taken so many bytes for a client.
    pub fn add_written(&mut self, count: u64)
        ensures { self.new ≡ end_counts_with_written_bytes self.old count }
    {
        self.written = count_plus(self.written, count);
    }
}
