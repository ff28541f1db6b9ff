//! What is checked of a run.
//!
//! Its text is read by the grammar of effects, and those of each happening by themselves.
//! - Links are numbered 1, 2, 3 and so on; each forward is on a new one, to an address of the table, and a link is
//!   dropped once at most.
//! - A connection has one request at an origin at most. It is the first that isn't answered yet, and its link is
//!   dropped before anything goes to the client.
//! - Replies come in the order of a connection's requests: what came of an origin has the fields of that very request,
//!   what came of the store those of an earlier one for its target, whose answer was stored. A reply is a whole
//!   message.
//! - Nothing goes to a connection that isn't accepted, or is closed, or gone; a client that goes leaves no link.
//! - A happening has effects on its own connection, or that of its link, and on those that it wakes, alone. A request
//!   that has come whole gets something at once, or waits; of those that wait `waiting.rt` says more.
//! - A reply that says close is followed by its connection's end; on a connection that is to end, each to a request
//!   that was begun since says so.
//! - Behind an unsafe request that went well nothing is sent of what was stored for its target before.
//! - A request that the table sends past the store goes to the origin of its line, and its answer says so, and is kept
//!   for nobody. No other request goes there, and no other answer says so.
//! - An answer is as the words of its line have it: `words.rt` says how.

use super::clients::{Client, clients_of, index_of_number};
use super::counts::{Counts, count_plus_one};
use super::fields::{id_of, id_of_request, last_value};
use super::log::{Log, Occurred, Step};
use super::past_store::{claims_past_store, shows_past_store};
use super::replies::{
    Reason, Source, has_status_without_error, has_target, is_bad_answer, read_reply, reason_shown,
    seconds_left,
};
use super::requests::{Asked, has_clients_condition};
use super::stored_answers::{Chosen, StoredAnswers};
use super::tables::{
    RandomTable, heeds_no_cache, is_address, is_past_the_store, lets_wait_for_stale,
};
use super::waiting::{
    Arrival, Exchange, Now, Suspect, Waiter, Woken, found, next_touched, overtake, possible_leaders,
};
use super::words::{Said, word_of_answer};
use super::wrong::Wrong;
use crate::text::{Effect, read_effect};
use std::alloc::{AllocError, Global};

struct Check<'a> {
    alloc: Global,
    /// How many things have happened.
    happenings: u64,
    clients: Vec<Client<'a>>,
    /// The requests that went forward, in their order.
    exchanges: Vec<Exchange>,
    /// The exchange of each link.
    links: Vec<usize>,
    /// The requests that wait, in the order in which they began to.
    waiters: Vec<Waiter>,
    suspects: Vec<Suspect>,
    happening: Now,
    /// The connections that were woken by it.
    woken: Vec<u64>,
    /// The requests whose answers may have been kept.
    kept: Vec<Asked>,
    /// The answers that may be held.
    held: StoredAnswers,
    /// Until when the last answer that was stored or sent for a target is fresh, the latest behind the others.
    fresh: Vec<(Asked, u64)>,
    table: RandomTable,
    now: u64,
    /// The connection that is closed next, by what its reply said.
    closing: Option<u64>,
    counts: Counts,
}

impl Drop for Check<'_> {
    fn drop(self) {
        let Check {
            alloc: _,
            happenings: _,
            clients: _,
            exchanges: _,
            links: _,
            waiters: _,
            suspects: _,
            happening: _,
            woken: _,
            kept: _,
            held: _,
            fresh: _,
            table: _,
            now: _,
            closing: _,
            counts: _,
        } = self;
    }
}

const CONTINUE: &[u8] = b"HTTP/1.1 100 Continue\r\n\r\n";

impl<'a> Check<'a> {
    /// Nothing has happened yet; the requests that the clients of a log will send are known.
    fn new(alloc: Global, log: &'a Log) -> Result<Self, Wrong> {
        let mut clients = clients_of(alloc, log)?;
        for asked in &log.asked {
            if let Some(client) = clients.get_mut(index_of_number(asked.connection)) {
                client.asked.push(asked).map_err(AllocError::from)?;
            }
        }
        Ok(Check {
            alloc,
            happenings: 0,
            clients,
            exchanges: Vec::new(alloc),
            links: Vec::new(alloc),
            waiters: Vec::new(alloc),
            suspects: Vec::new(alloc),
            happening: Now::default(),
            woken: Vec::new(alloc),
            kept: Vec::new(alloc),
            held: StoredAnswers::new(alloc),
            fresh: Vec::new(alloc),
            table: log.table,
            now: 0,
            closing: None,
            counts: Counts::default(),
        })
    }

    /// The client of a connection to which something may go.
    fn client(&mut self, number: u64) -> Result<&mut Client<'a>, Wrong> {
        match self.clients.get_mut(index_of_number(number)) {
            Some(client) if client.is_accepted && !client.is_over => Ok(client),
            _ => Err(Wrong::Rule("an effect is on a connection that isn't open", number)),
        }
    }

    /// The exchange of the link of this number.
    fn exchange_on(&self, number: u64) -> usize {
        self.links
            .get(index_of_number(number))
            .copied()
            .unwrap_or(usize::MAX)
    }

    /// What is known of a happening before its effects.
    fn note_event(&mut self, occurred: Occurred) {
        count_plus_one(&mut self.happenings);
        self.woken.clear();
        self.happening = Now::default();
        self.happening.about = match occurred {
            Occurred::Accepted(number) => Some(number),
            Occurred::Client(number, _) => Some(number),
            Occurred::Gone(number) => Some(number),
            Occurred::Overdue(number) => Some(number),
            Occurred::Link(number) => match self.exchanges.get(self.exchange_on(number)) {
                Some(exchange) => Some(exchange.asked.connection),
                None => None,
            },
            Occurred::Retired(_) | Occurred::Late => None,
        };
        if let Occurred::Overdue(number) = occurred {
            self.happening.overdue = Some(number);
        }
        if let Occurred::Retired(number) = occurred {
            if let Some(client) = self.clients.get_mut(index_of_number(number)) {
                client.retire();
            }
        }
        if let Some(number) = self.happening.about {
            self.note_client(number, occurred);
        }
    }

    fn note_client(&mut self, number: u64, occurred: Occurred) {
        if let Some(client) = self.clients.get_mut(index_of_number(number)) {
            match occurred {
                Occurred::Accepted(_) => client.is_accepted = true,
                Occurred::Client(_, whole) => client.whole = whole,
                Occurred::Gone(_) => client.is_over = true,
                Occurred::Overdue(_) => {}
                Occurred::Link(_) | Occurred::Retired(_) | Occurred::Late => {}
            }
        }
        if let Occurred::Gone(_) = occurred {
            self.forget(number);
        }
    }

    /// A client is gone: if its request waited, it waits no longer.
    fn forget(&mut self, number: u64) {
        let before = self.waiters.len();
        self.waiters
            .retain(|waiter| waiter.arrived.connection != number);
        if self.waiters.len() < before {
            count_plus_one(&mut self.counts.waiters_gone);
        }
    }

    /// The request that an effect on a connection wakes there.
    fn wakes(&mut self, number: u64) -> Result<Option<Woken>, Wrong> {
        let Some(waiter) = self
            .waiters
            .iter()
            .find(|it| it.arrived.connection == number)
        else {
            return Ok(None);
        };
        let arrived = waiter.arrived;
        if self.happening.overdue == Some(number) {
            return Ok(Some(self.wakes_overdue(arrived)?));
        }
        let Some(ended) = waiter.waited_for(self.happening.ended) else {
            return Err(Wrong::Rule("a request is woken while what it waits for is open", number));
        };
        if self.happening.is_serving {
            return Err(Wrong::Rule("a request is served before one that is woken", number));
        }
        if self.happening.has_woken_behind(arrived) {
            return Err(Wrong::Rule("requests are woken in another order than they came", number));
        }
        let reason = match self.exchanges.get(ended) {
            Some(exchange) if waiter.may_have_waited_for(exchange) => exchange.reason,
            _ => {
                return Err(Wrong::Rule(
                    "a request waited for one that went forward for something else",
                    number,
                ));
            }
        };
        waiter.push_suspects(&mut self.suspects, self.exchanges.as_slice(), ended)?;
        self.wake(arrived)?;
        Ok(Some(Woken { arrived, reason }))
    }

    /// A request has waited long enough, and gets something. Nothing tells what the one went forward for that it waited
    /// for.
    fn wakes_overdue(&mut self, arrived: Arrival) -> Result<Woken, Wrong> {
        self.happening.overdue = None;
        count_plus_one(&mut self.counts.overdue);
        self.waiters.retain(|waiter| waiter.arrived != arrived);
        self.woken
            .push(arrived.connection)
            .map_err(AllocError::from)?;
        Ok(Woken {
            arrived,
            reason: None,
        })
    }

    /// A request waits no longer.
    fn wake(&mut self, arrived: Arrival) -> Result<(), Wrong> {
        if self.woken.is_empty() {
            count_plus_one(&mut self.counts.wakings);
        }
        self.happening.last_woken = Some(arrived);
        self.waiters.retain(|waiter| waiter.arrived != arrived);
        Ok(
            self.woken
                .push(arrived.connection)
                .map_err(AllocError::from)?,
        )
    }

    /// There may be an effect on a connection to which the happening happened, or which it wakes. Gives what it wakes
    /// now.
    fn note_possible_effect(&mut self, number: u64) -> Result<Option<Woken>, Wrong> {
        if let Some(woken) = self.wakes(number)? {
            return Ok(Some(woken));
        }
        let was_woken = self.woken.contains(&number);
        if was_woken || self.happening.about == Some(number) {
            return Ok(None);
        }
        Err(Wrong::Rule(
            "an effect is on a connection to which nothing happened",
            number,
        ))
    }

    /// The same of what is no answer and no forward, which wakes nobody.
    fn note_effect_without_wake(&mut self, number: u64) -> Result<(), Wrong> {
        if self.note_possible_effect(number)?.is_some() {
            return Err(Wrong::Rule("a request that waits gets something else", number));
        }
        Ok(())
    }

    /// A request has come whole, and got nothing: it waits.
    fn begin_to_wait(&mut self, asked: Asked) -> Result<(), Wrong> {
        let connection = asked.connection;
        let is_past = self.is_past(&asked);
        if asked.is_only_if_cached || is_past || !self.could_wait(&asked) {
            return Err(Wrong::Rule("a request that never waits gets nothing", connection));
        }
        let lets_wait = self.lets_wait(&asked);
        let beside = possible_leaders(self.alloc, self.exchanges.as_slice(), &asked, lets_wait)?;
        if beside.is_empty() {
            return Err(Wrong::Rule("a request waits for none", connection));
        }
        let waiter = Waiter {
            arrived: self.arrival(connection),
            lets_wait,
            chosen: self.held.chosen(&asked),
            beside,
        };
        count_plus_one(&mut self.counts.waited);
        Ok(self.waiters.push(waiter).map_err(AllocError::from)?)
    }

    /// The request of a connection that has come whole, got nothing, and isn't known to wait.
    fn request_without_reply(&self, connection: u64) -> Option<Asked> {
        if self
            .waiters
            .iter()
            .any(|waiter| waiter.arrived.connection == connection)
        {
            return None;
        }
        self.clients
            .get(index_of_number(connection))?
            .request_without_reply()
    }

    /// Who is served is served by now, the least connection first; so what has come whole and got nothing waits.
    fn note_waiting(&mut self) -> Result<(), Wrong> {
        let mut last = 0;
        for _ in 0..self.woken.len().saturating_add(1) {
            let about = self.happening.about;
            let Some(connection) = next_touched(about, self.woken.as_slice(), last) else {
                break;
            };
            last = connection;
            if let Some(asked) = self.request_without_reply(connection) {
                self.begin_to_wait(asked)?;
            }
        }
        for waiter in &self.waiters {
            if !waiter.has_one_to_wait_for(self.exchanges.as_slice()) {
                return Err(Wrong::Rule(
                    "a request waits for what has ended",
                    waiter.arrived.connection,
                ));
            }
        }
        Ok(())
    }

    /// What must hold behind the effects of a happening.
    fn check_after_happening(&self, occurred: Occurred) -> Result<(), Wrong> {
        if let Some(number) = self.happening.overdue {
            return Err(Wrong::Rule("a request gets nothing at the end of its time", number));
        }
        if let Occurred::Gone(number) = occurred {
            if let Some(client) = self.clients.get(index_of_number(number)) {
                if client.link.is_some() {
                    return Err(Wrong::Rule("a client that is gone keeps its link", number));
                }
            }
        }
        Ok(())
    }

    /// Whether the table sends this request past the store.
    fn is_past(&self, asked: &Asked) -> bool {
        self.table == RandomTable::PartlyWithout
            && is_past_the_store(asked.method, asked.host, asked.path)
    }

    /// Whether the line of this request lets it wait for what is stale.
    fn lets_wait(&self, asked: &Asked) -> bool {
        self.table == RandomTable::WithWords && lets_wait_for_stale(asked.host, asked.path)
    }

    /// Whether a request waits where one leads: a GET, over a line with the word without a no-cache that counts.
    fn could_wait(&self, asked: &Asked) -> bool {
        let no_cache_request_is_heeded = asked.has_no_cache && heeds_no_cache(asked.host);
        asked.method == "GET" && !(self.lets_wait(asked) && no_cache_request_is_heeded)
    }

    /// A request of this connection comes now.
    fn arrival(&self, connection: u64) -> Arrival {
        Arrival {
            happening: self.happenings,
            connection,
        }
    }

    /// Whether the last answer that was stored or sent for the target of this request is fresh still.
    fn is_fresh(&self, asked: &Asked) -> bool {
        let mut until = 0;
        for (known, end) in &self.fresh {
            if known.has_target_of(asked) {
                until = *end;
            }
        }
        self.now < until
    }

    /// The request of a connection that has no reply.
    fn unanswered(&self, connection: u64) -> Option<Asked> {
        let client = self.clients.get(index_of_number(connection))?;
        let asked = client.asked.get(client.replies)?;
        Some(**asked)
    }

    /// A request goes forward to an address of the table.
    fn check_forward(&mut self, asked: &Asked, number: u64, address: &[u8]) -> Result<(), Wrong> {
        let is_past = self.is_past(asked);
        if !is_address(address, is_past) {
            return Err(Wrong::Rule(
                "no line of the request has the address of a forward",
                number,
            ));
        }
        count_plus_one(&mut self.counts.forwards);
        if is_past {
            count_plus_one(&mut self.counts.past);
            if !asked.is_unsafe() && self.is_fresh(asked) {
                count_plus_one(&mut self.counts.past_fresh);
            }
        }
        Ok(())
    }

    /// A request of a connection goes forward on a link. Gives its exchange, where it had one before.
    fn begin(
        &mut self,
        connection: u64,
        ordinal: u64,
        number: u64,
    ) -> Result<Option<usize>, Wrong> {
        let client = self.client(connection)?;
        if client.link.is_some() {
            return Err(Wrong::Rule("two requests of a connection are at origins", connection));
        }
        if index_of_number(ordinal) != client.replies {
            return Err(Wrong::Rule(
                "a forward isn't of the first request without reply",
                connection,
            ));
        }
        client.link = Some(number);
        Ok(client.exchange)
    }

    /// A request goes forward that has just come: there was none that it could have waited for.
    fn begin_at_once(&mut self, asked: &Asked) -> Result<(), Wrong> {
        self.happening.is_serving = true;
        if !self.could_wait(asked) {
            return Ok(());
        }
        let (lets_wait, chosen) = (self.lets_wait(asked), self.held.chosen(asked));
        let others = possible_leaders(self.alloc, self.exchanges.as_slice(), asked, lets_wait)?;
        for other in &others {
            if other.is_sure {
                let opened = self.exchanges.len();
                let suspect = Suspect::forwarded(other.place, opened, asked, chosen, lets_wait);
                self.suspects.push(suspect).map_err(AllocError::from)?;
            }
        }
        Ok(())
    }

    /// When a request came that goes forward for the first time.
    fn arrival_of_forwarded(
        &mut self,
        asked: &Asked,
        woken: Option<Woken>,
    ) -> Result<Arrival, Wrong> {
        let Some(woken) = woken else {
            self.begin_at_once(asked)?;
            return Ok(self.arrival(asked.connection));
        };
        count_plus_one(&mut self.counts.woken_forward);
        if matches!(woken.reason, Some(Reason::Expired | Reason::Held)) {
            count_plus_one(&mut self.counts.waited_for_stale);
        }
        Ok(woken.arrived)
    }

    /// A request goes forward for the first time.
    fn open(
        &mut self,
        asked: Asked,
        number: u64,
        woken: Option<Woken>,
        has_own_condition: bool,
    ) -> Result<(), Wrong> {
        let arrived = self.arrival_of_forwarded(&asked, woken)?;
        let exchange = self.exchanges.len();
        if let Some(client) = self.clients.get_mut(index_of_number(asked.connection)) {
            client.exchange = Some(exchange);
        }
        let opened = Exchange {
            asked,
            arrived,
            link: Some(number),
            reason: None,
            chosen: self.held.chosen(&asked),
            has_own_condition,
            is_overtaken: Some(false),
        };
        self.exchanges.push(opened).map_err(AllocError::from)?;
        Ok(self.links.push(exchange).map_err(AllocError::from)?)
    }

    /// A request goes forward once more: its exchange goes on.
    fn go_on(
        &mut self,
        exchange: usize,
        number: u64,
        has_own_condition: bool,
    ) -> Result<(), Wrong> {
        if let Some(exchange) = self.exchanges.get_mut(exchange) {
            exchange.link = Some(number);
            exchange.has_own_condition = has_own_condition;
            exchange.is_overtaken = Some(false);
        }
        self.happening.ended = None;
        Ok(self.links.push(exchange).map_err(AllocError::from)?)
    }

    fn forward(&mut self, number: u64, address: &[u8], request: &[u8]) -> Result<(), Wrong> {
        if index_of_number(number) != self.links.len() {
            return Err(Wrong::Rule("a forward is on a link that isn't the next", number));
        }
        let Some((connection, ordinal)) = id_of_request(request) else {
            return Err(Wrong::Rule("a forward is of no request", number));
        };
        let woken = self.note_possible_effect(connection)?;
        let exchange = self.begin(connection, ordinal, number)?;
        let Some(asked) = self.unanswered(connection) else {
            return Err(Wrong::Rule("a forward is of no request", number));
        };
        self.check_forward(&asked, number, address)?;
        let has_own_condition = has_clients_condition(request);
        match exchange {
            Some(exchange) => self.go_on(exchange, number, has_own_condition),
            None => self.open(asked, number, woken, has_own_condition),
        }
    }

    fn drop_link(&mut self, number: u64) -> Result<(), Wrong> {
        let exchange = self.exchange_on(number);
        let connection = match self.exchanges.get_mut(exchange) {
            Some(exchange) if exchange.link == Some(number) => {
                exchange.link = None;
                exchange.asked.connection
            }
            _ => return Err(Wrong::Rule("a link is dropped that isn't there", number)),
        };
        if self.happening.about != Some(connection) {
            return Err(Wrong::Rule("a link is dropped to which nothing happened", number));
        }
        self.happening.ended = Some(exchange);
        if let Some(client) = self.clients.get_mut(index_of_number(connection)) {
            client.link = None;
        }
        count_plus_one(&mut self.counts.drops);
        Ok(())
    }

    fn close(&mut self, number: u64) -> Result<(), Wrong> {
        self.note_effect_without_wake(number)?;
        let client = self.client(number)?;
        if client.link.is_some() {
            return Err(Wrong::Rule("a close leaves a link", number));
        }
        client.is_over = true;
        Ok(())
    }

    /// Whether a head has the fields of the answer to this request, or, from the store, those of one that was kept for
    /// its target. A 304 to a client has neither.
    fn answers(&self, head: &[u8], source: Source, asked: &Asked) -> Result<bool, AllocError> {
        let id = id_of(head);
        let is_own = id == Some((asked.connection, asked.ordinal));
        match source {
            Source::Own => Ok(true),
            Source::Stored | Source::Origin => Ok(is_own),
            Source::Validated => Ok(is_own && has_target(self.alloc, head, asked)?),
            Source::Hit | Source::Store | Source::Collapsed if head.starts_with(b"HTTP/1.1 304 ") =>
                { Ok(true) }
            Source::Hit | Source::Store | Source::Collapsed => {
                let was_kept = self
                    .kept
                    .iter()
                    .any(|kept| Some((kept.connection, kept.ordinal)) == id);
                Ok(was_kept && has_target(self.alloc, head, asked)?)
            }
        }
    }

    /// The client of a connection to which bytes may go.
    fn receiving_client(&mut self, number: u64) -> Result<&mut Client<'a>, Wrong> {
        let client = self.client(number)?;
        if client.link.is_some() {
            Err(Wrong::Rule("a client gets something while its link is open", number))
        } else {
            Ok(client)
        }
    }

    /// A reply says that it closes its connection where that is to end, and is closed next wherever it says so.
    fn check_closing(&mut self, number: u64, head: &[u8]) -> Result<(), Wrong> {
        let closes = last_value(head, b"Connection") == Some(b"close".as_slice());
        if closes {
            self.closing = Some(number);
        }
        let client = self.client(number)?;
        // (its reply is counted already)
        if client.last.is_some_and(|last| last < client.replies) {
            if !closes {
                return Err(Wrong::Rule(
                    "a reply doesn't close a connection that is to end",
                    number,
                ));
            }
            count_plus_one(&mut self.counts.last_replies);
        }
        Ok(())
    }

    /// Where a reply said that its connection closes, that is the next effect.
    fn check_closed(&mut self, effect: &Effect<'_>) -> Result<(), Wrong> {
        match (self.closing.take(), effect) {
            (None, _) => Ok(()),
            (Some(number), Effect::Close(closed)) if number == *closed => Ok(()),
            (Some(number), _) => Err(Wrong::Rule(
                "a connection isn't closed behind its last reply",
                number,
            )),
        }
    }

    /// The request of a connection that is replied to now.
    fn next_asked(&mut self, number: u64) -> Result<Asked, Wrong> {
        let client = self.receiving_client(number)?;
        match client.asked.get(client.replies) {
            Some(asked) => {
                client.replies = client.replies.saturating_add(1);
                Ok(**asked)
            }
            None => Err(Wrong::Rule("a reply is to no request", number)),
        }
    }

    /// The answer to this request may have been kept, where it comes from there.
    fn keep(&mut self, source: Source, asked: Asked) -> Result<(), Wrong> {
        if matches!(source, Source::Stored | Source::Validated | Source::Store) {
            self.kept.push(asked).map_err(AllocError::from)?;
        }
        Ok(())
    }

    /// An unsafe request went well: what was stored for its target is sent no more.
    fn forget_stored_target(&mut self, asked: &Asked) {
        let before = self.kept.len();
        self.kept.retain(|kept| !kept.has_target_of(asked));
        self.fresh.retain(|(known, _)| !known.has_target_of(asked));
        self.held.forget_target(asked);
        overtake(self.exchanges.as_mut_slice(), asked, Some(true));
        if self.is_past(asked) && self.kept.len() < before {
            count_plus_one(&mut self.counts.past_taking);
        }
    }

    /// What an answer says of its target in the store.
    fn note(&mut self, head: &[u8], source: Source, asked: &Asked) -> Result<(), Wrong> {
        if let Some(seconds) = seconds_left(head) {
            let until = self.now.saturating_add(seconds);
            self.fresh.push((*asked, until)).map_err(AllocError::from)?;
        }
        if matches!(source, Source::Origin) && asked.is_unsafe() && has_status_without_error(head) {
            self.forget_stored_target(asked);
        }
        // A 304 that nobody asked for takes away what is stored, too; an answer that can't be read doesn't.
        if asked.is_unsafe() && is_bad_answer(head) {
            overtake(self.exchanges.as_mut_slice(), asked, None);
        }
        Ok(())
    }

    /// An answer is told to be one past the store where its request went there, and nowhere else.
    fn check_past_store(&self, number: u64, head: &[u8], asked: &Asked) -> Result<(), Wrong> {
        if !self.is_past(asked) {
            if claims_past_store(head) {
                return Err(Wrong::Rule("an answer claims to be past the store", number));
            }
        } else if !shows_past_store(head) {
            return Err(Wrong::Rule("an answer past the store doesn't say so", number));
        }
        Ok(())
    }

    /// An answer is as the words of its line have it.
    fn check_line_words(
        &mut self,
        number: u64,
        head: &[u8],
        source: Source,
        asked: &Asked,
    ) -> Result<(), Wrong> {
        if self.table != RandomTable::WithWords {
            return Ok(());
        }
        match word_of_answer(head, source, asked.host) {
            Said::Nothing => {}
            Said::Given => count_plus_one(&mut self.counts.given),
            Said::Explained => count_plus_one(&mut self.counts.explained),
            Said::Cookie => {
                count_plus_one(&mut self.counts.explained);
                count_plus_one(&mut self.counts.cookies_unstored);
            }
            Said::Wrong(rule) => return Err(Wrong::Rule(rule, number)),
        }
        Ok(())
    }

    /// What an answer says of why its request went forward, if it did. Gives the answer for which it did so, if it was
    /// for one.
    fn note_reason(&mut self, number: u64, head: &[u8]) -> Chosen {
        let Some(client) = self.clients.get_mut(index_of_number(number)) else {
            return Chosen::default();
        };
        let Some(exchange) = client.exchange else {
            self.happening.is_serving = true;
            return Chosen::default();
        };
        client.exchange = None;
        match self.exchanges.get_mut(exchange) {
            Some(exchange) => {
                exchange.reason = reason_shown(head);
                exchange.chosen
            }
            None => Chosen::default(),
        }
    }

    /// A stored response is sent to a request that waited: it tells for what, and that is what the one went forward
    /// for.
    fn check_woken_reply(
        &mut self,
        number: u64,
        head: &[u8],
        asked: &Asked,
        woken: Woken,
    ) -> Result<(), Wrong> {
        let occurred = reason_shown(head);
        if !woken.may_tell(occurred, self.lets_wait(asked)) {
            return Err(Wrong::Rule("a request tells wrongly for what it waited", number));
        }
        if occurred == Some(Reason::Expired) {
            count_plus_one(&mut self.counts.waited_for_stale);
            count_plus_one(&mut self.counts.collapsed_stale);
        }
        Ok(())
    }

    /// A reply to the first request of a client that has none.
    fn reply(&mut self, number: u64, bytes: &[u8]) -> Result<(), Wrong> {
        let woken = self.note_possible_effect(number)?;
        let asked = self.next_asked(number)?;
        let (head, source) = read_reply(number, bytes)?;
        self.check_closing(number, head)?;
        if woken.is_some() != matches!(source, Source::Collapsed) {
            return Err(Wrong::Rule("a reply says wrongly whether its request waited", number));
        }
        let mut about = Chosen::default();
        match woken {
            Some(woken) => self.check_woken_reply(number, head, &asked, woken)?,
            None => about = self.note_reason(number, head),
        }
        if !self.answers(head, source, &asked)? {
            return Err(Wrong::Rule("a reply is to another request", number));
        }
        self.check_past_store(number, head, &asked)?;
        self.check_line_words(number, head, source, &asked)?;
        self.counts.note_reply(source);
        self.note(head, source, &asked)?;
        self.held.note(asked, about, head, source)?;
        self.keep(source, asked)
    }

    /// Bytes to a client: a continue or a reply.
    fn send(&mut self, number: u64, bytes: &[u8]) -> Result<(), Wrong> {
        if bytes == CONTINUE {
            self.note_effect_without_wake(number)?;
            self.receiving_client(number)?;
            return Ok(());
        }
        self.reply(number, bytes)
    }

    fn take(&mut self, effect: Effect<'_>) -> Result<(), Wrong> {
        count_plus_one(&mut self.counts.effects);
        self.check_closed(&effect)?;
        match effect {
            Effect::Client(number, bytes) => self.send(number, bytes),
            Effect::Forward(number, address, request) => self.forward(number, address, request),
            Effect::Close(number) => self.close(number),
            Effect::Drop(number) => self.drop_link(number),
            // The text of a replay that ended well tells of no stop.
            Effect::Stop(_) => Err(Wrong::Rule("a text is no effect", 0)),
        }
    }

    /// The effects of one happening.
    fn see(&mut self, text: &[u8]) -> Result<(), Wrong> {
        let mut rest = text;
        // Each effect has a byte at least.
        for _ in 0..text.len() {
            if rest.is_empty() {
                break;
            }
            let Some((effect, more)) = read_effect(rest) else {
                return Err(Wrong::Rule("a text is no effect", 0));
            };
            self.take(effect)?;
            rest = more;
        }
        if let Some(number) = self.closing {
            return Err(Wrong::Rule("a connection isn't closed behind its last reply", number));
        }
        if rest.is_empty() {
            Ok(())
        } else {
            Err(Wrong::Rule("a text is no effect", 0))
        }
    }

    /// A happening with its effects, which stand at the front of a text. Gives what is behind them.
    fn step<'t>(&mut self, step: Step, text: &'t [u8]) -> Result<&'t [u8], Wrong> {
        let Step {
            occurred,
            now,
            length,
        } = step;
        self.now = now;
        let (Some(own), Some(rest)) = (text.get(..length), text.get(length..)) else {
            return Err(Wrong::Rule("effects are missing", 0));
        };
        self.note_event(occurred);
        self.see(own)?;
        self.check_after_happening(occurred)?;
        self.note_waiting()?;
        Ok(rest)
    }
}

/// Checks the text of a replay, happening by happening.
pub fn check_run(alloc: Global, log: &Log, text: &[u8]) -> Result<Counts, Wrong> {
    if log.effects.as_slice() != text {
        return Err(Wrong::Rule("the replay did something else than the engine", 0));
    }
    let mut check = Check::new(alloc, log)?;
    let mut rest = text;
    for step in &log.steps {
        rest = check.step(*step, rest)?;
    }
    if !rest.is_empty() {
        return Err(Wrong::Rule("there are effects of no happening", 0));
    }
    if let Some(suspect) = found(check.suspects.as_slice(), check.exchanges.as_slice()) {
        return Err(Wrong::Rule(suspect.rule, suspect.connection));
    }
    Ok(check.counts)
}
