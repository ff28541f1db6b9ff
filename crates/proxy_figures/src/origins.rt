//! What was counted of each origin. Those of the operator's table are the only ones.
ghost use Rattle.std.specs.Prelude.{◌≡◌, ◌≢◌, ◌<◌, ◌+◌, true, if◌then◌else◌, [], slice_get, string_bytes, IfOk};
ghost use Rattle.std.specs.Prelude.{OnErr, IfSome, IfNone};
ghost use Rattle.std.specs.Option.{option_and_then};
ghost use Rattle.proxy_figures.specs.Counts.{count_plus_one_if};
ghost use Rattle.proxy_figures.specs.Origins.{is_silent, is_crowded, admission_of_link_to_origin};
ghost use Rattle.proxy_figures.specs.Origins.{origin_with_refusal_if_not_admitted};
ghost use Rattle.proxy_figures.specs.Origins.{origin_with_answer, origin_with_failure};
ghost use Rattle.proxy_figures.specs.Origins.{origin_with_failure_covered_by_store};
ghost use Rattle.proxy_figures.specs.Origins.{origin_with_reply, name_of_origin, admission_of_known_origin};
ghost use Rattle.proxy_figures.specs.Origins.{origin_with_written_bytes, origin_heard_with_received_bytes};
ghost use Rattle.proxy_figures.specs.Origins.{origin_with_link_begun, IsFreshOriginOfAddress};
ghost use Rattle.proxy_figures.specs.Origins.{origin_with_link_ended, origin_with_one_more_silence, origin_changed_at};
ghost use Rattle.proxy_figures.specs.Origins.{falls_silent, origin_if_any_falls_silent};
ghost use Rattle.proxy_figures.specs.OriginsModel.{some_origin_is_crowded, addresses, AddressIsOfNoOrigin};
ghost use Rattle.proxy_figures.specs.OriginsModel.{OriginWithAddressIsFoundOrAdded};
ghost use Rattle.proxy_figures.specs.OriginsModel.{total_connects_refused_beyond_bound};

use crate::counts::{count, count_plus, count_plus_one, count_plus_one_if};
use crate::limits::SILENT_EXCHANGES;
use crate::reply_counts::ReplyTimes;
use crate::sorts::{Cause, ReplySort};
use std::alloc::{AllocError, Global};
use std::marker::Model;
use std::net::SocketAddrV4;

/// An origin, and what was counted of it.
#[derive(Drop)]
pub struct Origin {
    address: SocketAddrV4,
    /// The text of its address.
    name: String,
    /// Links that were begun, and of these the ones that are open.
    pub begun: u64,
    pub open: u64,
    /// How long the links lasted that have ended.
    pub times: ReplyTimes,
    /// Bytes that have come, and that the system has taken.
    pub received: u64,
    pub written: u64,
    /// Answers by the hundreds of their statuses, from 200 on.
    pub answers: [u64; STATUS_CLASS_COUNT],
    /// Failures by their kind, and those for which a stored response was sent.
    pub failures: [u64; FAILURE_KIND_COUNT],
    /// Exchanges in a row that were timed out, or couldn't connect.
    silences: u64,
    /// A link asks whether it answers again.
    is_probed: bool,
    /// Connects that were refused at once: as many links were open as may be, or it is silent.
    pub refused_beyond_bound: u64,
    pub while_silent: u64,
}

/// Whether a link to an origin may be begun.
#[derive(Clone, Copy, PartialEq, Eq)]
pub enum LinkAdmission {
    Yes,
    /// It asks whether a silent origin answers again.
    AsProbe,
    No,
}

/// The hundreds of statuses, and the kinds of failures, in the order of their counts.
pub(crate) const STATUS_CLASS_LABELS: &[&str] = &["2xx", "3xx", "4xx", "5xx"];

pub(crate) const FAILURE_KIND_LABELS: &[&str] = &[
    "refused",
    "timed-out",
    "closed",
    "bad-answer",
    "too-large",
    "covered",
];

/// How many there are of each.
const STATUS_CLASS_COUNT: usize = STATUS_CLASS_LABELS.len();

const FAILURE_KIND_COUNT: usize = FAILURE_KIND_LABELS.len();

/// Where failures are counted for which a stored response was sent.
pub(crate) const COVERED_FAILURES_INDEX: usize = 5;

impl Origin {
    fn new(alloc: Global, address: SocketAddrV4) -> Result<Origin, AllocError>
        ensures { IfOk result (IsFreshOriginOfAddress address) }
    {
        Ok(Origin {
            address,
            name: format!(in alloc; "{address}")?,
            begun: 0,
            open: 0,
            times: ReplyTimes::new(),
            received: 0,
            written: 0,
            answers: [0; STATUS_CLASS_COUNT],
            failures: [0; FAILURE_KIND_COUNT],
            silences: 0,
            is_probed: false,
            refused_beyond_bound: 0,
            while_silent: 0,
        })
    }

    /// Its name in figures and in the log: the text of its address.
    pub fn name(&self) -> &str
        ensures { result.now ≡ string_bytes self.now.name }
    {
        self.name.as_str()
    }

    /// Whether nearly as many links to it are open as may be: seven eighths.
    fn is_crowded(&self, most: u64) -> bool
        ensures { result ≡ is_crowded most self.now }
    {
        self.open >= most.saturating_sub(most / 8)
    }

    /// Whether it counts as silent.
    pub fn is_silent(&self) -> bool
        ensures { result ≡ is_silent self.now }
    {
        self.silences >= SILENT_EXCHANGES
    }

    /// Whether a further link may be begun; where not, that is counted.
    fn admit(&mut self, most: u64, probes: bool) -> LinkAdmission
        ensures admission { result ≡ admission_of_link_to_origin most probes self.old }
        ensures counted { self.new ≡ origin_with_refusal_if_not_admitted
            (admission_of_link_to_origin most probes self.old) most self.old }
    {
        if self.open >= most {
            self.refused_beyond_bound = count_plus_one(self.refused_beyond_bound);
            return LinkAdmission::No;
        }
        if !probes || !self.is_silent() {
            return LinkAdmission::Yes;
        }
        if self.is_probed {
            self.while_silent = count_plus_one(self.while_silent);
            return LinkAdmission::No;
        }
        LinkAdmission::AsProbe
    }

    /// A link to it is begun, as it was admitted.
    fn begin(&mut self, admission: LinkAdmission)
        ensures { self.new ≡ origin_with_link_begun admission self.old }
    {
        match admission {
            LinkAdmission::No => return,
            LinkAdmission::Yes => {}
            LinkAdmission::AsProbe => self.is_probed = true,
        }
        self.begun = count_plus_one(self.begun);
        self.open = count_plus_one(self.open);
    }

    /// A link to it has ended, which had been admitted so, so many milliseconds after it began.
    fn end(&mut self, admission: LinkAdmission, milliseconds: u64)
        ensures { self.new ≡ origin_with_link_ended admission milliseconds self.old }
    {
        match admission {
            LinkAdmission::No => return,
            LinkAdmission::Yes => {}
            LinkAdmission::AsProbe => self.is_probed = false,
        }
        self.open = self.open.saturating_sub(1);
        self.times.add(milliseconds);
    }

    /// So many bytes came from it: it isn't silent.
    fn hear(&mut self, count: usize)
        ensures { self.new ≡ origin_heard_with_received_bytes count self.old }
    {
        self.silences = 0;
        self.received = count_plus(self.received, count as u64);
    }

    /// An exchange with it was timed out, or couldn't connect. Whether it became silent by this.
    fn count_silent_exchange(&mut self) -> bool
        ensures once_more { self.new ≡ origin_with_one_more_silence self.old }
        ensures falls { result ≡ falls_silent self.old }
    {
        let was_silent = self.is_silent();
        self.silences = count_plus_one(self.silences);
        !was_silent && self.is_silent()
    }

    /// The system has taken so many bytes for it.
    fn add_written(&mut self, written: u64)
        ensures { self.new ≡ origin_with_written_bytes written self.old }
    {
        self.written = count_plus(self.written, written);
    }

    fn count_answer(&mut self, status: u16)
        ensures { self.new ≡ origin_with_answer status self.old }
    {
        count(&mut self.answers, (status / 100).saturating_sub(2) as usize);
    }

    fn count_failure(&mut self, cause: Cause)
        ensures { self.new ≡ origin_with_failure cause self.old }
    {
        match cause {
            Cause::OriginRefused => count(&mut self.failures, 0),
            Cause::OriginTimedOut => count(&mut self.failures, 1),
            Cause::OriginClosed => count(&mut self.failures, 2),
            Cause::OriginBadAnswer => count(&mut self.failures, 3),
            Cause::OriginTooLarge => count(&mut self.failures, 4),
            _ => {}
        }
    }

    fn count_covered(&mut self)
        ensures { self.new ≡ origin_with_failure_covered_by_store self.old }
    {
        count(&mut self.failures, COVERED_FAILURES_INDEX);
    }

    /// Counts what the origin said or did, by the reply that was made of it.
    fn answered(&mut self, status: u16, sort: &ReplySort)
        ensures { self.new ≡ origin_with_reply status sort.now self.old }
    {
        if let Some(cause) = sort.cause {
            self.count_failure(cause);
        } else if sort.is_failure_covered_by_store() {
            self.count_covered();
        } else {
            self.count_answer(sort.fwd_status.unwrap_or(status));
        }
    }
}

/// The origins, each with its place.
#[derive(Drop)]
pub struct Origins {
    alloc: Global,
    /// Links that may be open to each.
    most: u64,
    items: Vec<Origin>,
    /// How often an origin became silent.
    times_fallen_silent: u64,
    /// Origins to which nearly as many links are open as may be.
    crowded: usize,
}

impl Model for Origins {
    ghost use Rattle.proxy_figures.specs.OriginsModel.{OriginsModel, CrowdedCountAndAddressesAreValid};

    ghost Value = { OriginsModel };

    ghost view = { λ o. record {
      items = o.items.items;
      most = o.most;
      times_fallen_silent = o.times_fallen_silent;
    } };

    ghost invariant = { λ o. CrowdedCountAndAddressesAreValid o.most o.crowded o.items.items };
}

impl Origins {
    pub fn new(alloc: Global, most: u64) -> Origins
        ensures { result ≡ record { items = []; most = most; times_fallen_silent = 0 } }
    {
        Origins {
            alloc,
            most,
            items: Vec::new(alloc),
            times_fallen_silent: 0,
            crowded: 0,
        }
    }

    /// The place of an address, which is added where it is new.
    pub fn place(&mut self, address: SocketAddrV4) -> Result<usize, AllocError>
        ensures placed { IfOk result (λ place. OriginWithAddressIsFoundOrAdded address self.old place self.new) }
        ensures err { OnErr result (self.new ≡ self.old) }
    {
        if let Some(place) = place_of(self.items.as_slice(), address) {
            return Ok(place);
        }
        let origin = Origin::new(self.alloc, address)?;
        let crowded = crowded_after(self.crowded, false, origin.is_crowded(self.most));
        let place = self.items.len();
        self.items.push(origin)?;
        self.crowded = crowded;
        Ok(place)
    }

    /// How often an origin became silent.
    pub fn times_fallen_silent(&self) -> u64
        ensures { result ≡ self.now.times_fallen_silent }
    {
        self.times_fallen_silent
    }

    pub fn as_slice(&self) -> &[Origin]
        ensures { result.now ≡ self.now.items }
    {
        self.items.as_slice()
    }

    /// The name of the origin at a place; empty where there is none.
    pub fn name(&self, place: Option<usize>) -> &str
        ensures { result.now ≡ name_of_origin (option_and_then (slice_get self.now.items) place) }
    {
        match place {
            Some(place) => match self.items.get(place) {
                Some(origin) => origin.name(),
                None => "",
            },
            None => "",
        }
    }

    /// Whether nearly as many links to some origin are open as may be.
    pub fn some_origin_is_crowded(&self) -> bool
        ensures { result ≡ some_origin_is_crowded self.now }
    {
        self.crowded > 0
    }

    /// Whether a further link to an origin may be begun; where not, that is counted.
    pub fn admit(&mut self, place: usize, probes: bool) -> LinkAdmission
        ensures admission { result ≡ admission_of_known_origin self.old.most probes
            (slice_get self.old.items place) }
        ensures counted { self.new.items ≡ origin_changed_at place
            (λ origin. origin_with_refusal_if_not_admitted
            (admission_of_link_to_origin self.old.most probes origin) self.old.most origin)
            self.old.items }
        ensures rest { self.new ≡ record self.old { items = self.new.items } }
    {
        let most = self.most;
        match self.items.get_mut(place) {
            Some(origin) => origin.admit(most, probes),
            None => LinkAdmission::No,
        }
    }

    /// A link is begun; one that isn't admitted is none.
    pub fn begin(&mut self, place: usize, admission: LinkAdmission)
        ensures at { admission ≢ LinkAdmission.No → self.new.items
            ≡ origin_changed_at place (origin_with_link_begun admission) self.old.items }
        ensures rest { self.new ≡ record self.old { items = self.new.items } }
        ensures refused { admission ≡ LinkAdmission.No → self.new ≡ self.old }
    {
        if admission == LinkAdmission::No {
            return;
        }
        let most = self.most;
        if let Some(origin) = self.items.get_mut(place) {
            let was_crowded = origin.is_crowded(most);
            origin.begin(admission);
            self.crowded = crowded_after(self.crowded, was_crowded, origin.is_crowded(most));
        }
    }

    /// A link has ended, so many milliseconds after it began.
    pub fn end(&mut self, place: usize, admission: LinkAdmission, milliseconds: u64)
        ensures at { admission ≢ LinkAdmission.No → self.new.items
            ≡ origin_changed_at place (origin_with_link_ended admission milliseconds) self.old.items }
        ensures rest { self.new ≡ record self.old { items = self.new.items } }
        ensures refused { admission ≡ LinkAdmission.No → self.new ≡ self.old }
    {
        if admission == LinkAdmission::No {
            return;
        }
        let most = self.most;
        if let Some(origin) = self.items.get_mut(place) {
            let was_crowded = origin.is_crowded(most);
            origin.end(admission, milliseconds);
            self.crowded = crowded_after(self.crowded, was_crowded, origin.is_crowded(most));
        }
    }

    /// So many bytes came from an origin.
    pub fn count_received_bytes(&mut self, place: usize, count: usize)
        ensures at { self.new.items ≡ origin_changed_at place (origin_heard_with_received_bytes count) self.old.items }
        ensures rest { self.new ≡ record self.old { items = self.new.items } }
    {
        if let Some(origin) = self.items.get_mut(place) {
            origin.hear(count);
        }
    }

    /// An exchange with an origin was timed out, or couldn't connect.
    pub fn count_silent_exchange(&mut self, place: usize)
        ensures at { self.new.items ≡ origin_changed_at place origin_with_one_more_silence self.old.items }
        ensures fallen { self.new.times_fallen_silent ≡ count_plus_one_if
            (origin_if_any_falls_silent (slice_get self.old.items place)) self.old.times_fallen_silent }
        ensures most { self.new.most ≡ self.old.most }
    {
        if let Some(origin) = self.items.get_mut(place) {
            let falls_silent = origin.count_silent_exchange();
            self.times_fallen_silent = count_plus_one_if(falls_silent, self.times_fallen_silent);
        }
    }

    /// How often connects were refused at once since as many links were open as may be.
    pub fn refused_beyond_bound(&self) -> u64
        ensures { result ≡ total_connects_refused_beyond_bound self.now.items }
    {
        let mut count = 0u64;
        for origin in &self.items {
            count = count.saturating_add(origin.refused_beyond_bound);
        }
        count
    }

    /// The system has taken so many bytes for an origin.
    pub fn add_written(&mut self, place: usize, written: u64)
        ensures at { self.new.items
            ≡ origin_changed_at place (origin_with_written_bytes written) self.old.items }
        ensures rest { self.new ≡ record self.old { items = self.new.items } }
    {
        if let Some(origin) = self.items.get_mut(place) {
            origin.add_written(written);
        }
    }

    /// Counts what an origin said or did, by the reply that was made of it.
    pub fn answered(&mut self, place: usize, status: u16, sort: &ReplySort)
        ensures at { self.new.items ≡ origin_changed_at place (origin_with_reply status sort.now) self.old.items }
        ensures rest { self.new ≡ record self.old { items = self.new.items } }
    {
        if let Some(origin) = self.items.get_mut(place) {
            origin.answered(status, sort);
        }
    }
}

/// The place of an address, if an origin has it.
fn place_of(origins: &[Origin], address: SocketAddrV4) -> Option<usize>
    ensures known { IfSome result (λ place. slice_get (addresses origins.now) place ≡ Some address) }
    ensures unknown { IfNone result (AddressIsOfNoOrigin address origins.now) }
{
    for (place, origin) in origins.iter().enumerate() {
        if origin.address == address {
            return Some(place);
        }
    }
    None
}

/// How many origins are crowded where one was so or not, and is so now or not.
fn crowded_after(crowded: usize, was: bool, is: bool) -> usize
    requires counted { was ≡ true → 0 < crowded }
    requires room { crowded < usize.MAX }
    ensures { result + (if was then 1 else 0) ≡ crowded + (if is then 1 else 0) }
{
    match (was, is) {
        (false, true) => crowded + 1,
        (true, false) => crowded - 1,
        _ => crowded,
    }
}
