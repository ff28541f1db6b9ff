//! Whether the system's clock went back.

/// Seconds between two warnings, at the least.
const BETWEEN_WARNINGS: u64 = 60;

/// The clock as the turns saw it.
#[derive(Clone, Copy)]
pub(crate) struct ClockWatch {
    /// The moment of the turn before, in Unix seconds.
    last: u64,
    /// When a warning was given last, in seconds of the clock that never goes back.
    warned: Option<u64>,
}

impl ClockWatch {
    pub(crate) fn new() -> ClockWatch {
        ClockWatch {
            last: 0,
            warned: None,
        }
    }

    /// By how many seconds the clock went back since the turn before, where it is to be told. `second` is one of the
    /// clock that never goes back.
    pub(crate) fn look(&mut self, moment: u64, second: u64) -> Option<u64> {
        let back = self.last.saturating_sub(moment);
        self.last = moment;
        let is_early = match self.warned {
            Some(warned) => second.saturating_sub(warned) < BETWEEN_WARNINGS,
            None => false,
        };
        if back <= 1 || is_early {
            return None;
        }
        self.warned = Some(second);
        Some(back)
    }
}
