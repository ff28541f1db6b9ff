//! How many turns were served, and how many of them ended early.
ghost use Rattle.std.specs.Prelude.{◌≡◌};

use crate::counts::count_plus_one;

/// How a turn ended, as far as that is counted.
#[derive(Clone, Copy, PartialEq, Eq)]
pub enum TurnEnd {
    /// It did what was due, as far as numbers for links reached.
    Served,
    /// It could accept nobody.
    WithoutListener,
    WithoutMemory,
}

/// Counts of turns.
#[derive(Clone, Copy)]
pub struct Turns {
    pub served: u64,
    /// They could accept nobody.
    pub without_listener: u64,
    pub without_memory: u64,
}

impl Turns {
    ghost use Rattle.proxy_figures.specs.TurnCounts.{turns_with_one_more};

    pub fn new() -> Turns
        ensures { result ≡ record { served = 0; without_listener = 0; without_memory = 0 } }
    {
        Turns {
            served: 0,
            without_listener: 0,
            without_memory: 0,
        }
    }

    /// Counts a turn, by its end.
    pub fn count(&mut self, end: TurnEnd)
        ensures { self.new ≡ turns_with_one_more self.old end }
    {
        self.served = count_plus_one(self.served);
        match end {
            TurnEnd::Served => {}
            TurnEnd::WithoutListener => {
                self.without_listener = count_plus_one(self.without_listener);
            }
            TurnEnd::WithoutMemory => {
                self.without_memory = count_plus_one(self.without_memory);
            }
        }
    }
}
