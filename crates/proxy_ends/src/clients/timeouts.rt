//! Whose time is over, and when each is looked at next.
ghost use Rattle.std.specs.Prelude.{◌≡◌, ◌<◌, ◌-◌, ◌⊎◌, true, false, [], Some, None, length, IfSome, ℕ};
ghost use Rattle.proxy_ends.specs.Timeouts.{close_timeout_is_over, has_lasted_longer, incomplete_since};
ghost use Rattle.proxy_ends.specs.Timeouts.{client_is_silent, client_is_absent_or_half_closed_too_long};
ghost use Rattle.proxy_ends.specs.Timeouts.{IsIdleClientWithNumber};
ghost use Rattle.proxy_ends.specs.Timeouts.{client_waited_seconds_for_another, end_of_wait_of_client_if_any};
ghost use Rattle.proxy_ends.specs.OtherEntries.{StreamsOfOtherKeysStay, ChangesOnlyAtNumber};
ghost use Rattle.proxy_ends.specs.Streams.{client_at_number, client_at};

use crate::clients::Clients;
use crate::clients::client::{Client, ClientStreamState};
use crate::limits::{
    CLOSE_TIMEOUT_MILLISECONDS, DRAINING_FIRST_REQUEST_MILLISECONDS, LINGER_MILLISECONDS, Limits,
    SECOND,
};
use proxy_figures::{CutReason, ExceededClientLimit, UnansweredCause};
use proxy_pacing::ClosedStreamQueue;

/// Whether a client that was closed has had its time.
fn close_timeout_is_over(
    client: &Client,
    queue: ClosedStreamQueue,
    limits: &Limits,
    now: u64,
) -> bool
    ensures { result ≡ close_timeout_is_over queue limits.now now client.now.peer.heard client.now.closed }
{
    let quiet = now.saturating_sub(client.peer.heard);
    match queue {
        ClosedStreamQueue::Leaving => quiet > limits.client_timeout.min(CLOSE_TIMEOUT_MILLISECONDS),
        ClosedStreamQueue::Lingering => quiet > LINGER_MILLISECONDS
            || now.saturating_sub(client.closed) > CLOSE_TIMEOUT_MILLISECONDS,
    }
}

/// Whether the request of a client, which is incomplete, has taken too long, or the client is silent.
fn is_late_or_silent(client: &mut Client, limits: &Limits, now: u64) -> bool
    ensures asked { client.old.peer.unsent.bytes ≡ [] → client.new.asked ≡ incomplete_since now client.old.asked }
    ensures unread { 0 < length client.old.peer.unsent.bytes → client.new.asked ≡ Some now }
    ensures over { has_lasted_longer now client.new.asked limits.now.request_timeout ≡ true → result ≡ true }
    ensures slow { 0 < length client.old.peer.unsent.bytes → limits.now.client_timeout < now - client.old.peer.heard
        → result ≡ true }
    ensures silent { client.old.peer.readable ≡ false → limits.now.client_timeout < now - client.old.peer.heard
        → result ≡ true }
    ensures only { result ≡ true → (has_lasted_longer now client.new.asked limits.now.request_timeout ≡ true)
        ⊎ (limits.now.client_timeout < now - client.old.peer.heard) }
{
    // One that has something to take isn't read meanwhile.
    if client.peer.has_unsent() || client.asked.is_none() {
        client.asked = Some(now);
    }
    client.is_request_late(now, limits.request_timeout)
        || client.peer.is_silent(now, limits.client_timeout)
}

/// The first moment at which a time of a client may be over.
fn first_overtime_moment(client: &Client, limits: &Limits) -> u64 {
    let heard = client.peer.heard;
    let mut next = match client.place {
        ClientStreamState::In(ClosedStreamQueue::Lingering, _) => heard
            .saturating_add(LINGER_MILLISECONDS)
            .min(client.closed.saturating_add(CLOSE_TIMEOUT_MILLISECONDS)),
        ClientStreamState::In(ClosedStreamQueue::Leaving, _) => heard.saturating_add(
            limits.client_timeout.min(CLOSE_TIMEOUT_MILLISECONDS),
        ),
        ClientStreamState::Open(_) => heard.saturating_add(limits.client_timeout),
    };
    if let Some(asked) = client.asked {
        next = next.min(asked.saturating_add(limits.request_timeout));
    }
    if let Some(left) = client.left {
        next = next.min(left.max(heard).saturating_add(limits.abandon_timeout));
    }
    next.saturating_add(1)
}

impl Clients {
    /// When a client is looked at next: once a time of it may be over, and no later than a time that begins now may be.
    fn next_look(&self, key: usize, now: u64) -> u64 {
        let soon = now.saturating_add(SECOND);
        let latest = now.saturating_add(self.limits.client_check_milliseconds());
        self.stream(key).map_or(
            soon,
            |it| first_overtime_moment(it, &self.limits)
                .max(soon)
                .min(latest),
        )
    }

    /// A client was looked at, and its time isn't over. Without memory for the next look, it is cut off.
    pub fn reschedule_timeout_check(&mut self, key: usize, now: u64)
        ensures { StreamsOfOtherKeysStay key self.old.streams self.new.streams }
    {
        let look = self.next_look(key, now);
        if !self.schedule_check(key, look) {
            self.drop_stream_and_count(key, CutReason::Memory);
        }
    }

    /// Looks at a client that was closed, and drops it where its time is over.
    fn look_at_closed(&mut self, key: usize, queue: ClosedStreamQueue, now: u64) {
        let limits = self.limits;
        let client = self.stream(key);
        if !client.is_some_and(|it| close_timeout_is_over(it, queue, &limits, now)) {
            self.reschedule_timeout_check(key, now);
            return;
        }
        if queue == ClosedStreamQueue::Leaving {
            self.endings.count_lateness(ExceededClientLimit::Client);
        }
        self.drop_stream(key, UnansweredCause::Closed);
    }

    /// The number of a client that is to be looked at now, if the engine knows it. Others are looked at here.
    pub fn next_to_check_timeout(&mut self, now: u64) -> Option<u64> {
        for _ in 0..self.len() {
            let key = self.looks.take_earliest_due(now)? as usize;
            let Some(client) = self.stream(key) else {
                continue;
            };
            match client.place {
                ClientStreamState::Open(n) => return Some(n),
                ClientStreamState::In(queue, _) => self.look_at_closed(key, queue, now),
            }
        }
        None
    }

    /// The number of a client that is let go since no more connections are taken: it is between two requests, and has
    /// been so for the time that a first request has. Who asks again meanwhile is told that the connection closes.
    pub fn next_idle_to_close(&mut self, now: u64) -> Option<u64>
        ensures { IfSome result (λ n. (key : ℕ) × IsIdleClientWithNumber n (client_at self.new.streams key)) }
    {
        let (key, since) = self.longest_idle_client()?;
        let client = self.stream(key)?;
        if now.saturating_sub(since) > DRAINING_FIRST_REQUEST_MILLISECONDS {
            return client.number();
        }
        None
    }

    /// Counts why the engine is told that a client is gone; the cause that its request has, if it isn't answered.
    pub fn count_client_end(&mut self, n: u64, now: u64) -> UnansweredCause
        ensures open { self.new.open ≡ self.old.open }
        ensures streams { self.new.streams ≡ self.old.streams }
    {
        let limits = self.limits;
        let Some(client) = self.get(n) else {
            return UnansweredCause::Closed;
        };
        let lateness = if client.left.is_some() {
            ExceededClientLimit::Abandon
        } else if client.is_request_late(now, limits.request_timeout) {
            ExceededClientLimit::Request
        } else {
            ExceededClientLimit::Client
        };
        self.endings.count_lateness(lateness);
        UnansweredCause::of_late_client(lateness)
    }

    /// Whether a client that is between two requests has been silent for too long, and nothing of it waits to be read.
    /// One that isn't there has.
    pub fn is_silent(&self, n: u64, now: u64) -> bool
        ensures { result ≡ client_is_silent self.now.limits.client_timeout now
            (client_at_number self.now.open self.now.streams n) }
    {
        match self.get(n) {
            Some(client) => {
                let quiet = now.saturating_sub(client.peer.heard);
                !client.may_have_input() && quiet > self.limits.client_timeout
            }
            None => true,
        }
    }

    /// Whether the request of a client, which is incomplete, has taken too long, or the client is silent. One that
    /// isn't there is.
    pub fn is_late_or_silent(&mut self, n: u64, now: u64) -> bool
        ensures gone { client_at_number self.old.open self.old.streams n ≡ None → result ≡ true }
        ensures open { self.new.open ≡ self.old.open }
        ensures others { ChangesOnlyAtNumber self.old.open n self.old.streams self.new.streams }
    {
        let limits = self.limits;
        let Some(key) = self.key_of(n) else {
            return true;
        };
        match self.streams.get_mut(key) {
            Some(client) => is_late_or_silent(&mut **client, &limits, now),
            None => true,
        }
    }

    /// Whether the request of a client, which waits for the answer to another, has done so for so many seconds. It is
    /// looked at once it has. One that isn't there hasn't.
    pub fn has_waited_seconds_for_another(&mut self, n: u64, seconds: u32, now: u64) -> bool
        ensures { result
            ≡ client_waited_seconds_for_another seconds now (client_at_number self.old.open self.old.streams n) }
    {
        let Some(key) = self.key_of(n) else {
            return false;
        };
        let Some(over) = self.end_of_wait_of_client_if_any(key, seconds) else {
            return false;
        };
        self.look_no_later(key, over);
        over <= now
    }

    /// When the request of a client has waited for so many seconds, from its first byte on.
    fn end_of_wait_of_client_if_any(&self, key: usize, seconds: u32) -> Option<u64>
        ensures { result ≡ end_of_wait_of_client_if_any seconds (client_at self.now.streams key) }
    {
        let asked = self.stream(key)?.asked?;
        Some(asked.saturating_add(u64::from(seconds) * SECOND))
    }

    /// A client is looked at next at this moment at the latest. Without memory for that, it is cut off.
    fn look_no_later(&mut self, key: usize, moment: u64) {
        let is_later = self.stream(key).is_some_and(|it| it.look > moment);
        if is_later && !self.schedule_check(key, moment) {
            self.drop_stream_and_count(key, CutReason::Memory);
        }
    }

    /// Whether a client has sent its end, and waits for its answer for too long. One that isn't there has.
    pub fn is_half_closed_too_long(&self, n: u64, now: u64) -> bool
        ensures { result ≡ client_is_absent_or_half_closed_too_long self.now.limits.abandon_timeout now
            (client_at_number self.now.open self.now.streams n) }
    {
        match self.get(n) {
            Some(client) => client.is_half_closed_too_long(now, self.limits.abandon_timeout),
            None => true,
        }
    }
}
