//! How often the time of a link to an origin was over.
ghost use Rattle.std.specs.Prelude.{◌≡◌};
ghost use Rattle.proxy_figures.specs.EndingCounts.{link_timeouts_with_one_more};

use crate::counts::count_plus_one;

/// Which time of a link is over.
#[derive(Clone, Copy, PartialEq, Eq)]
pub enum ExceededLinkLimit {
    Connect,
    Silence,
    Exchange,
}

/// Counts of time-outs.
#[derive(Clone, Copy)]
pub struct LinkTimeouts {
    pub connect: u64,
    pub silence: u64,
    pub exchange: u64,
}

impl LinkTimeouts {
    pub fn new() -> LinkTimeouts
        ensures { result ≡ record { connect = 0; silence = 0; exchange = 0 } }
    {
        LinkTimeouts {
            connect: 0,
            silence: 0,
            exchange: 0,
        }
    }

    pub fn count(&mut self, overtime: ExceededLinkLimit)
        ensures { self.new ≡ link_timeouts_with_one_more self.old overtime }
    {
        match overtime {
            ExceededLinkLimit::Connect => self.connect = count_plus_one(self.connect),
            ExceededLinkLimit::Silence => self.silence = count_plus_one(self.silence),
            ExceededLinkLimit::Exchange => self.exchange = count_plus_one(self.exchange),
        }
    }
}
