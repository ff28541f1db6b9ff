//! Counts of the calls of `Sockets`.
ghost use Rattle.std.specs.Prelude.{◌≡◌};
ghost use Rattle.proxy_turn.specs.Counts.{CountRisesBy, failed};

use proxy_turn::SocketCallFailed;

/// How many accepts and reads were asked for, and how many calls failed.
#[derive(Clone, Copy, Debug)]
pub(crate) struct CallCounts {
    pub(crate) accepts: u64,
    pub(crate) reads: u64,
    pub(crate) failures: u64,
}

impl CallCounts {
    pub(crate) fn new() -> CallCounts
        ensures { result ≡ record { accepts = 0; reads = 0; failures = 0 } }
    {
        CallCounts {
            accepts: 0,
            reads: 0,
            failures: 0,
        }
    }

    /// Counts a call that has failed.
    pub(crate) fn count_if_call_failed<T>(&mut self, outcome: &Result<T, SocketCallFailed>)
        ensures failures { CountRisesBy self.old.failures self.new.failures (failed outcome.now) }
        ensures rest { self.new ≡ record self.old { failures = self.new.failures } }
    {
        if outcome.is_err() {
            self.failures = self.failures.saturating_add(1);
        }
    }
}
