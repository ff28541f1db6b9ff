//! Whether the next turn waits, and what clocks tell.
ghost use Rattle.std.specs.Prelude.{◌≡◌};
ghost use Rattle.proxy_server.specs.Paces.{work_left_after_turn, moment_and_milliseconds};
ghost use Rattle.proxy_server.specs.Paces.{milliseconds_of_duration, turn_end_of_report};

use hx_fields::START_OF_YEAR_10000;
use proxy_figures::TurnEnd;
use proxy_turn::{MOST_ACTS_OF_A_TURN, Report, TurnFault};
use std::time::Duration;

/// The last moment.
pub(crate) const LATEST_MOMENT: u64 = START_OF_YEAR_10000 - 1;

/// What a turn leaves to the next.
#[derive(Clone, Copy, PartialEq, Eq)]
pub(crate) struct WorkLeftForNextTurn {
    /// There may be something to do that no event will tell of.
    pub(crate) busy: bool,
    /// Nothing is due from the last turn.
    pub(crate) settled: bool,
    /// Ends whose time may be over are to be looked at.
    pub(crate) sweeping: bool,
    /// Memory was wanting in the last turn.
    pub(crate) starved: bool,
}

impl WorkLeftForNextTurn {
    /// Takes what a turn told. `more` says that there is something to take.
    pub(crate) fn note(&mut self, reported: Result<Report, TurnFault>, more: bool)
        ensures { self.new ≡ work_left_after_turn self.old reported more }
    {
        self.starved = false;
        match reported {
            Ok(report) => {
                self.settled = report.works < MOST_ACTS_OF_A_TURN;
                self.busy = !self.settled || self.sweeping || more;
            }
            // Memory may be there a little later.
            Err(TurnFault::NoMemory) => {
                self.settled = false;
                self.busy = false;
                self.starved = true;
            }
            Err(_) => {
                self.settled = false;
                self.busy = true;
            }
        }
    }
}

/// How a turn counts, by what it told.
pub(crate) fn turn_end_of_report(reported: Result<Report, TurnFault>) -> TurnEnd
    ensures { result ≡ turn_end_of_report reported }
{
    match reported {
        Err(TurnFault::Listener) => TurnEnd::WithoutListener,
        Err(TurnFault::NoMemory) => TurnEnd::WithoutMemory,
        _ => TurnEnd::Served,
    }
}

/// A time since 1970 as a moment, and its milliseconds.
pub(crate) fn moment_and_milliseconds(time: Duration) -> (u64, u64)
    ensures { result ≡ moment_and_milliseconds time }
{
    (
        time.as_secs().min(LATEST_MOMENT),
        u64::from(time.subsec_millis()),
    )
}

/// A time in milliseconds.
pub(crate) fn milliseconds_of_duration(time: Duration) -> u64
    ensures { result ≡ milliseconds_of_duration time }
{
    let whole = time.as_secs().saturating_mul(1000);
    whole.saturating_add(u64::from(time.subsec_millis()))
}
