//! What is checked of requests that wait, in its own words: what is seen of them is that a request has come whole and
//! gets nothing.
//!
//! - It is a GET over a line with a cache, and beside it another GET for its target is at the origin: one of those that
//!   were there when it came, as long as it waits.
//! - Over a line with `wait = "missing-or-stale"` it has no no-cache that counts there. The other has no no-store, no
//!   condition of its client's own goes with it, it has Authorization exactly where this one has it, and no unsafe
//!   request that went well has taken away what is stored for their target since it went forward.
//! - It gets something when that one has its answer or goes: never before, and then at once, in the order in which
//!   those that waited came, and before another request is served. Or it has waited long enough: then it alone does.
//! - That one went forward since nothing was held for its target; or, over a line with the word, for the answer that is
//!   chosen for this one, had a lifetime, and is over. And it was the first to come of all that did so.
//! - A GET that comes where such a one is open goes forward only where it waited before.
//!
//! Which answer was chosen, and whether an unsafe request went well, isn't always seen: then either is right.

use super::replies::Reason;
use super::requests::Asked;
use super::stored_answers::Chosen;
use std::alloc::{AllocError, Global};

/// When a request came: the happening, and its connection, since those that come in one are served in the order of
/// connections.
#[derive(Clone, Copy, PartialEq, Eq)]
pub struct Arrival {
    pub happening: u64,
    pub connection: u64,
}

impl Arrival {
    pub fn is_before(self, other: Arrival) -> bool {
        self.happening < other.happening
            || (self.happening == other.happening && self.connection < other.connection)
    }
}

/// A request at an origin, or that was there.
#[derive(Clone, Copy)]
pub struct Exchange {
    pub asked: Asked,
    pub arrived: Arrival,
    /// The link that it has.
    pub link: Option<u64>,
    /// Why it went forward, where its answer told it.
    pub reason: Option<Reason>,
    /// The answer for which it went forward, if it did so for one.
    pub chosen: Chosen,
    /// Whether a condition of its client's own is at the origin.
    pub has_own_condition: bool,
    /// Whether what is stored for its target was taken away since it went forward, where that is known.
    pub is_overtaken: Option<bool>,
}

impl Exchange {
    /// Whether its answer may be sent to a request that has come, where that is known.
    fn answer_may_be_shared_with(&self, asked: &Asked) -> Option<bool> {
        let is_for_both = self.asked.has_authorization == asked.has_authorization;
        if self.asked.has_no_store || self.has_own_condition || !is_for_both {
            return Some(false);
        }
        match self.is_overtaken {
            Some(is_overtaken) => Some(!is_overtaken),
            None => None,
        }
    }

    /// Whether a request waits for this one if this went forward for what that could be sent, where its line lets it
    /// wait for what is stale or not.
    fn may_lead(&self, asked: &Asked, lets_wait: bool) -> Option<bool> {
        let is_beside = self.link.is_some()
            && self.asked.method == "GET"
            && self.asked.connection != asked.connection
            && self.asked.has_target_of(asked);
        if is_beside && lets_wait {
            self.answer_may_be_shared_with(asked)
        } else {
            Some(is_beside)
        }
    }
}

/// An exchange for which a request may wait.
#[derive(Clone, Copy)]
pub struct PossibleLeader {
    pub place: usize,
    /// Whether it waits, if that went forward for what it could be sent.
    pub is_sure: bool,
}

/// A request that waits.
pub struct Waiter {
    pub arrived: Arrival,
    /// Whether its line lets it wait for what is stale.
    pub lets_wait: bool,
    /// The answer that was chosen for it when it came, if one was held.
    pub chosen: Chosen,
    /// The exchanges for which it could wait when it came.
    pub beside: Vec<PossibleLeader>,
}

// By hand, so that a scope that ends is one call to the prover and not the drop of each part.
impl Drop for Waiter {
    fn drop(self) {
        let Waiter {
            arrived: _,
            lets_wait: _,
            chosen: _,
            beside: _,
        } = self;
    }
}

/// What is known of the happening whose effects are checked.
#[derive(Clone, Copy, Default)]
pub struct Now {
    /// The connection to which it happened, or to whose link.
    pub about: Option<u64>,
    /// The exchange that it ended.
    pub ended: Option<usize>,
    /// The connection whose request has waited long enough, until something goes to it.
    pub overdue: Option<u64>,
    /// When the latest that was woken came.
    pub last_woken: Option<Arrival>,
    /// Whether a further request was served.
    pub is_serving: bool,
}

impl Now {
    /// Whether it has woken one that came no earlier than this.
    pub fn has_woken_behind(&self, arrived: Arrival) -> bool {
        match self.last_woken {
            Some(last) => !last.is_before(arrived),
            None => false,
        }
    }
}

/// A request that is woken: when it came, and why the one went forward for which it waited, where that was told.
#[derive(Clone, Copy)]
pub struct Woken {
    pub arrived: Arrival,
    pub reason: Option<Reason>,
}

impl Woken {
    /// Whether it may tell this of why it waited: that is what the other went forward for, if that was told.
    pub fn may_tell(self, reason: Option<Reason>, lets_wait: bool) -> bool {
        match (reason, self.reason) {
            (Some(Reason::Missing), None | Some(Reason::Missing)) => true,
            (Some(Reason::Expired), Some(other)) => lets_wait && other.is_of_held(),
            (Some(Reason::Expired), None) => lets_wait,
            _ => false,
        }
    }
}

/// How it is told why a request was kept from what was held when it came.
#[derive(Clone, Copy)]
pub enum Told {
    By(Reason),
    /// By the answer to the exchange at this place, its own.
    ByAnswerTo(usize),
}

/// What doesn't hold where an exchange turns out to have gone forward for what a later request could be sent.
#[derive(Clone, Copy)]
pub struct Suspect {
    pub leader: usize,
    /// Why the later one was kept from what was held.
    pub told: Told,
    /// The answer that was chosen for it.
    pub chosen: Chosen,
    /// Whether what is stale counts, too.
    pub lets_wait: bool,
    pub rule: &'static str,
    pub connection: u64,
}

impl Suspect {
    /// A request has gone forward in an exchange of its own, beside this one.
    pub fn forwarded(
        leader: usize,
        own: usize,
        asked: &Asked,
        chosen: Chosen,
        lets_wait: bool,
    ) -> Self {
        Suspect {
            leader,
            told: Told::ByAnswerTo(own),
            chosen,
            lets_wait,
            rule: "a request goes forward beside one that it could have waited for",
            connection: asked.connection,
        }
    }
}

/// The least connection behind this one to which a happening happened, or which it has woken.
pub fn next_touched(about: Option<u64>, woken: &[u64], last: u64) -> Option<u64> {
    let mut next = match about {
        Some(about) if about > last => about,
        _ => u64::MAX,
    };
    for woken in woken {
        if *woken > last && *woken < next {
            next = *woken;
        }
    }
    if next == u64::MAX { None } else { Some(next) }
}

/// What is stored for the target of this request was taken away while others for it were open, or perhaps was.
pub fn overtake(exchanges: &mut [Exchange], asked: &Asked, is_overtaken: Option<bool>) {
    for i in 0..exchanges.len() {
        if let Some(exchange) = exchanges.get_mut(i) {
            if exchange.asked.has_target_of(asked) && exchange.is_overtaken != Some(true) {
                exchange.is_overtaken = is_overtaken;
            }
        }
    }
}

/// The exchanges for which a request may wait.
pub fn possible_leaders(
    alloc: Global,
    exchanges: &[Exchange],
    asked: &Asked,
    lets_wait: bool,
) -> Result<Vec<PossibleLeader>, AllocError> {
    let mut others = Vec::new(alloc);
    for (place, exchange) in exchanges.iter().enumerate() {
        let may_lead = exchange.may_lead(asked, lets_wait);
        if may_lead != Some(false) {
            let is_sure = may_lead.is_some();
            others.push(PossibleLeader { place, is_sure })?;
        }
    }
    Ok(others)
}

fn is_open(exchanges: &[Exchange], place: usize) -> bool {
    match exchanges.get(place) {
        Some(exchange) => exchange.link.is_some(),
        None => false,
    }
}

/// Why the exchange at a place went forward, where its answer told it.
pub fn reason_of(exchanges: &[Exchange], place: usize) -> Option<Reason> {
    exchanges.get(place)?.reason
}

fn is_before(exchanges: &[Exchange], place: usize, other: usize) -> bool {
    match (exchanges.get(place), exchanges.get(other)) {
        (Some(exchange), Some(other)) => exchange.arrived.is_before(other.arrived),
        _ => false,
    }
}

impl Waiter {
    /// Whether one of those is open still for which it could wait when it came.
    pub fn has_one_to_wait_for(&self, exchanges: &[Exchange]) -> bool {
        self.beside.iter().any(|it| is_open(exchanges, it.place))
    }

    /// The one that has ended, where it is one of these.
    pub fn waited_for(&self, ended: Option<usize>) -> Option<usize> {
        let ended = ended?;
        if self.beside.iter().any(|it| it.place == ended) {
            Some(ended)
        } else {
            None
        }
    }

    /// Whether it may have waited for this one, by what that went forward for, if it was told.
    pub fn may_have_waited_for(&self, exchange: &Exchange) -> bool {
        match exchange.reason {
            Some(Reason::Missing) | None => true,
            Some(Reason::Expired | Reason::Held) => {
                let has_lifetime = self.chosen.has_lifetime != Some(false);
                let is_same = exchange.chosen.is_same(self.chosen) != Some(false);
                self.lets_wait && has_lifetime && is_same
            }
            Some(Reason::Other) => false,
        }
    }

    /// For what it waited, where the reason of the one for which it did so was told. Over a line without the word that
    /// is known.
    fn reason_to_wait(&self, reason: Option<Reason>) -> Option<Reason> {
        if !self.lets_wait {
            return Some(Reason::Missing);
        }
        match reason {
            Some(reason) if reason.is_of_held() => Some(Reason::Expired),
            _ => reason,
        }
    }

    /// Notes those that came before the one for which it waited: none of them went forward for what it could be sent,
    /// or it would have been the first to wait for.
    pub fn push_suspects(
        &self,
        suspects: &mut Vec<Suspect>,
        exchanges: &[Exchange],
        ended: usize,
    ) -> Result<(), AllocError> {
        let Some(reason) = self.reason_to_wait(reason_of(exchanges, ended)) else {
            return Ok(());
        };
        for it in &self.beside {
            if it.is_sure && is_before(exchanges, it.place, ended) {
                suspects.push(Suspect {
                    leader: it.place,
                    told: Told::By(reason),
                    chosen: self.chosen,
                    lets_wait: self.lets_wait,
                    rule: "a request is woken by another than the first that it could wait for",
                    connection: self.arrived.connection,
                })?;
            }
        }
        Ok(())
    }
}

fn is_found(suspect: &Suspect, exchanges: &[Exchange]) -> bool {
    let Some(leader) = exchanges.get(suspect.leader) else {
        return false;
    };
    let reason = match suspect.told {
        Told::By(reason) => Some(reason),
        Told::ByAnswerTo(place) => reason_of(exchanges, place),
    };
    match (leader.reason, reason) {
        (Some(Reason::Missing), Some(Reason::Missing)) => true,
        (Some(Reason::Expired | Reason::Held), Some(Reason::Expired)) => {
            let has_lifetime = suspect.chosen.has_lifetime == Some(true);
            let is_same = leader.chosen.is_same(suspect.chosen) == Some(true);
            suspect.lets_wait && has_lifetime && is_same
        }
        _ => false,
    }
}

/// The first of the suspects whose leader went forward for what the later one could be sent.
pub fn found(suspects: &[Suspect], exchanges: &[Exchange]) -> Option<Suspect> {
    suspects.iter().find(|it| is_found(*it, exchanges)).copied()
}
