//! Connections of clients that were closed, until they have taken what was sent.
//!
//! A connection that is closed while its client still sends would be reset, and the last answer lost (RFC 9112, section
//! 9.6). So it is closed by half, and what still comes is read and dropped for a while.
ghost use Rattle.std.specs.Prelude.{◌≡◌, ◌<◌, length};
ghost use Rattle.std.specs.Ordering.{nat_cmp};
ghost use Rattle.std.specs.BTreeMap.{get};
ghost use Rattle.proxy_ends.specs.Closing.{ClosedStreamsAreBounded, ClientIsInQueue, AtMostOneOtherStreamIsDropped};
ghost use Rattle.proxy_ends.specs.Closing.{ClosingByNumberDropsAtMostOneOther, InputIsDropped};
ghost use Rattle.proxy_ends.specs.Closing.{IsInLeavingQueueIfUnsent};
ghost use Rattle.proxy_ends.specs.Closing.{HasUnsentBytesOrIsAbsent};
ghost use Rattle.proxy_ends.specs.Streams.{client_at, client_at_number};

use crate::clients::Clients;
use crate::clients::client::Client;
use crate::limits::MOST_LINGERING_CONNECTIONS;
use proxy_figures::UnansweredCause;
use proxy_pacing::ClosedStreamQueue;
use proxy_reads::{PIECE, Received};
use proxy_streams::Stream;

/// How many pieces are read and dropped at a time.
const MOST_PIECES_DROPPED: u8 = 16;

/// Whether there is still something to wait for.
#[derive(Clone, Copy, PartialEq, Eq)]
enum StillToWait {
    Yes,
    No,
}

/// Reads and drops what a client still sends.
fn drop_input<S: Stream + Drop>(client: &mut Client<S>, now: u64) -> StillToWait
    ensures dropped { InputIsDropped S.Passed result client.old.peer client.new.peer }
    ensures peer { client.new ≡ record client.old { peer = client.new.peer } }
    ensures unsent { client.new.peer.unsent ≡ client.old.peer.unsent }
{
    let mut buf = [0u8; PIECE];
    for _piece in 0..MOST_PIECES_DROPPED {
        match client.read_piece_behind_kept_input(&mut buf, now) {
            Ok(Received::Bytes(_)) => {}
            Ok(Received::Nothing) => return StillToWait::Yes,
            Ok(Received::End) => return StillToWait::No,
            Err(_) => return StillToWait::No,
        }
    }
    StillToWait::Yes
}

/// Closes a connection by half, once its client has taken everything, and goes on with dropping what comes.
fn advance<S: Stream + Drop>(client: &mut Client<S>, now: u64) -> StillToWait
    ensures { 0 < length client.old.peer.unsent.bytes → (client.new ≡ client.old) × (result ≡ StillToWait.Yes) }
{
    if client.peer.has_unsent() {
        return StillToWait::Yes;
    }
    if client.peer.ended {
        return StillToWait::No;
    }
    if client.peer.shut_down().is_err() {
        return StillToWait::No;
    }
    drop_input(client, now)
}

impl<S: Stream + Drop> Clients<S> {
    /// Closes the connection of a number: at once where its client has sent its end and taken everything, else when it
    /// has.
    #[tactic(auto, using(crate::proofs::Closings::none_goes, crate::proofs::Closings::closes_at, crate::proofs::Closings::closes_none))]
    pub fn close(&mut self, n: u64, now: u64)
        ensures others { ClosingByNumberDropsAtMostOneOther
            (get nat_cmp self.old.open n) self.old.streams self.new.streams }
        ensures leaves { IsInLeavingQueueIfUnsent (client_at_number self.old.open self.old.streams n)
            (client_at_number self.old.open self.new.streams n) }
    {
        let Some(key) = self.remove_number(n) else {
            return;
        };
        let Some(client) = self.streams.get_mut(key) else {
            return;
        };
        client.peer.heard = now;
        client.closed = now;
        // What came and wasn't handed in is dropped with what still comes.
        client.drop_bytes_not_handed_in();
        let queue = if client.peer.has_unsent() {
            ClosedStreamQueue::Leaving
        } else {
            ClosedStreamQueue::Lingering
        };
        self.join_queue(key, queue);
        self.end(key, now);
    }

    /// Goes on with a connection that was closed, or lets it go.
    #[tactic(auto, using(crate::proofs::Closings::none_goes, crate::proofs::Closings::goes_behind))]
    pub fn end(&mut self, key: usize, now: u64)
        ensures others { AtMostOneOtherStreamIsDropped key self.old.streams self.new.streams }
        ensures takes_first { HasUnsentBytesOrIsAbsent (client_at self.old.streams key)
            → client_at self.new.streams key ≡ client_at self.old.streams key }
    {
        let Some(client) = self.streams.get_mut(key) else {
            return;
        };
        if advance(&mut **client, now) == StillToWait::No {
            self.drop_stream(key, UnansweredCause::Closed);
            return;
        }
        if client.peer.has_unsent() {
            return;
        }
        self.more = self.more || client.peer.readable;
        self.linger_after_close(key);
    }

    /// A closed connection whose client has taken everything. Beyond the most of these the first is closed whole.
    fn linger_after_close(&mut self, key: usize)
        ensures bound { ClientIsInQueue ClosedStreamQueue.Lingering (client_at self.old.streams key)
            → ClosedStreamsAreBounded self.old.queues.lingering self.old.streams self.new.streams }
        ensures others { AtMostOneOtherStreamIsDropped key self.old.streams self.new.streams }
    {
        self.move_to_queue(key, ClosedStreamQueue::Lingering);
        self.drop_first();
    }

    /// Where more were closed than may be, the first of them is closed whole.
    fn drop_first(&mut self)
        ensures { ClosedStreamsAreBounded self.old.queues.lingering self.old.streams self.new.streams }
    {
        if self.queues.len(ClosedStreamQueue::Lingering) > MOST_LINGERING_CONNECTIONS {
            if let Some(first) = self.queues.first(ClosedStreamQueue::Lingering) {
                self.drop_stream(first, UnansweredCause::Closed);
            }
        }
    }

    /// Goes on with what no event will tell of.
    pub fn drop_input_of_lingering(&mut self, now: u64) {
        if !self.more {
            return;
        }
        self.more = false;
        let mut from = 0u64;
        for _ in 0..self.queues.len(ClosedStreamQueue::Lingering) {
            let Some((stamp, key)) = self.queues.next_from(ClosedStreamQueue::Lingering, from)
            else {
                return;
            };
            from = stamp.saturating_add(1);
            if self.stream(key).is_some_and(|it| it.peer.readable) {
                self.end(key, now);
            }
        }
    }
}
