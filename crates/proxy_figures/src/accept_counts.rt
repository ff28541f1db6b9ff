//! How often connections were taken and begun, or couldn't be.
ghost use Rattle.std.specs.Prelude.{◌≡◌};
ghost use Rattle.std.specs.IoError.{raw_os_error};
ghost use Rattle.proxy_figures.specs.ConnectionAttemptCounts.{is_errno_of_no_descriptor, attempts_with_accept_error};
ghost use Rattle.proxy_figures.specs.ConnectionAttemptCounts.{attempts_with_accepted};
ghost use Rattle.proxy_figures.specs.ConnectionAttemptCounts.{attempts_with_no_connection_room};
ghost use Rattle.proxy_figures.specs.ConnectionAttemptCounts.{attempts_with_link_without_descriptor};
ghost use Rattle.proxy_figures.specs.ConnectionAttemptCounts.{attempts_with_link_without_port};
ghost use Rattle.proxy_figures.specs.ConnectionAttemptCounts.{is_errno_of_no_port};

use crate::counts::count_plus_one;
use std::io;
use std::io::ErrorKind;

/// Whether a call failed since the process, or the system, has no descriptor left (ENFILE and EMFILE).
pub fn is_out_of_descriptors(error: &io::Error) -> bool
    ensures { result ≡ is_errno_of_no_descriptor (raw_os_error error.now) }
{
    matches!(error.raw_os_error(), Some(23 | 24))
}

/// Whether a connection couldn't be begun since no local port is left (EADDRNOTAVAIL).
pub fn is_out_of_ports(error: &io::Error) -> bool
    ensures { result ≡ is_errno_of_no_port (raw_os_error error.now) }
{
    matches!(error.raw_os_error(), Some(99))
}

/// How often connections were taken and begun, or couldn't be.
#[derive(Clone, Copy)]
pub struct ConnectionAttemptCounts {
    pub accepted: u64,
    /// As many as may be are open, and none is idle.
    pub full: u64,
    /// No descriptor was left for a client's connection.
    pub no_descriptor: u64,
    pub no_memory: u64,
    /// Another failure.
    pub failed: u64,
    /// No descriptor was left for a link.
    pub no_link: u64,
    /// No local port was left for a link.
    pub no_port: u64,
}

impl ConnectionAttemptCounts {
    pub fn new() -> ConnectionAttemptCounts
        ensures { result ≡ record {
          accepted = 0;
          full = 0;
          no_descriptor = 0;
          no_memory = 0;
          failed = 0;
          no_link = 0;
          no_port = 0;
        } }
    {
        ConnectionAttemptCounts {
            accepted: 0,
            full: 0,
            no_descriptor: 0,
            no_memory: 0,
            failed: 0,
            no_link: 0,
            no_port: 0,
        }
    }

    /// Counts a connection that couldn't be taken.
    pub fn count_refused_accept(&mut self, error: &io::Error)
        ensures { self.new ≡ attempts_with_accept_error self.old error.now }
    {
        if is_out_of_descriptors(error) {
            self.no_descriptor = count_plus_one(self.no_descriptor);
        } else if error.kind() == ErrorKind::OutOfMemory {
            self.no_memory = count_plus_one(self.no_memory);
        } else if error.kind() != ErrorKind::WouldBlock {
            self.failed = count_plus_one(self.failed);
        }
    }

    /// Counts a connection that was taken.
    pub fn count_accepted(&mut self)
        ensures { self.new ≡ attempts_with_accepted self.old }
    {
        self.accepted = count_plus_one(self.accepted);
    }

    /// Counts that there was no room for one.
    pub fn count_no_room(&mut self)
        ensures { self.new ≡ attempts_with_no_connection_room self.old }
    {
        self.full = count_plus_one(self.full);
    }

    /// Counts a link for which no descriptor was left.
    pub fn count_link_without_descriptor(&mut self)
        ensures { self.new ≡ attempts_with_link_without_descriptor self.old }
    {
        self.no_link = count_plus_one(self.no_link);
    }

    /// Counts a link for which no local port was left.
    pub fn count_link_without_port(&mut self)
        ensures { self.new ≡ attempts_with_link_without_port self.old }
    {
        self.no_port = count_plus_one(self.no_port);
    }
}

/// What an operator is to know at once.
#[derive(Clone, Copy)]
pub struct TroubleCounts {
    /// How often nobody could be taken since as many connections are open as may be, and none is idle.
    pub full: u64,
    /// How often no descriptor was left for a connection of a client, and for one to an origin.
    pub no_descriptor: u64,
    pub no_link: u64,
    /// How often no local port was left for a connection to an origin.
    pub no_port: u64,
    /// How often a connection to an origin was refused at once, since as many were open to it as may be.
    pub refused_beyond_bound: u64,
    /// How often an origin became silent, so that it is asked by one request at a time; 0 where it isn't.
    pub silent: u64,
}
