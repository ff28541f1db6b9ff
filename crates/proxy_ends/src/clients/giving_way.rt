//! Who gives way: its place to a client that waits to be taken, or what is held of it where more is held than may be.
//!
//! Of those whose request isn't answered yet the one gives its place of which no byte came or went for the longest.
//! Whose bytes go on coming gives it to nobody.
ghost use Rattle.std.specs.Prelude.{◌≡◌, ℕ, IfSome};
ghost use Rattle.proxy_ends.specs.GivingWay.{ClientMayBeDroppedForRoom};
ghost use Rattle.proxy_ends.specs.OtherEntries.{StreamsOfOtherKeysStay};
ghost use Rattle.proxy_ends.specs.Streams.{client_at};

use crate::clients::Clients;
use crate::limits::SECOND;
use proxy_streams::Stream;

/// The client that is dropped where more is held for requests and answers than may be.
#[derive(Clone, Copy, PartialEq, Eq)]
pub struct LargestHeldClient {
    pub key: usize,
    /// It has taken nothing for a second at least of what it is to take.
    pub takes_nothing: bool,
    /// Bytes that are held of it and for it.
    pub held: usize,
}

impl<S: Stream + Drop> Clients<S> {
    /// A client whose request isn't answered yet stands among those that may give way. Without memory for that it gives
    /// way to nobody.
    pub fn list_as_droppable_for_room(&mut self, key: usize, now: u64)
        ensures open { self.new.open ≡ self.old.open }
        ensures others { StreamsOfOtherKeysStay key self.old.streams self.new.streams }
    {
        let Some(client) = self.streams.get_mut(key) else {
            return;
        };
        if client.asked.is_none() || client.begun_mark.is_some() || client.number().is_none() {
            return;
        }
        // What waits to be read came by now.
        let since = if client.may_have_input() {
            now
        } else {
            client.peer.heard
        };
        if self.begun.add(since, key as u64) {
            client.begun_mark = Some(since);
        }
    }

    /// The number of a client whose mark was just taken out, if it may give way.
    fn number_to_give_way(&mut self, key: usize, now: u64) -> Option<u64>
        ensures may { IfSome result (λ n. ClientMayBeDroppedForRoom n now (client_at self.new.streams key)) }
        ensures others { StreamsOfOtherKeysStay key self.old.streams self.new.streams }
    {
        let client = self.streams.get_mut(key)?;
        client.begun_mark = None;
        if client.asked.is_some() && client.is_quiet(now) && !client.may_have_input() {
            return client.number();
        }
        None
    }

    /// The number of the client that may give way of which no byte came or went for the longest: it stands among these
    /// no more. Marks of those that have gone on are moved or dropped on the way.
    pub fn next_to_drop_for_room(&mut self, now: u64) -> Option<u64>
        ensures { IfSome result (λ n. (key : ℕ) × ClientMayBeDroppedForRoom n now (client_at self.new.streams key)) }
    {
        // Each mark is moved once at most.
        for _ in 0..=self.begun.len() {
            let mark = self.begun.first()?;
            if now.saturating_sub(mark.at) < SECOND {
                return None;
            }
            self.begun.remove(mark.at, mark.id);
            let key = mark.id as usize;
            let number = self.number_to_give_way(key, now);
            if number.is_some() {
                return number;
            }
            self.list_as_droppable_for_room(key, now);
        }
        None
    }

    /// The client for which the most is held; if there are some that have taken nothing for a second, of these.
    pub fn largest(&self, now: u64) -> Option<LargestHeldClient> {
        self.streams
            .iter()
            .map(|(key, client)| LargestHeldClient {
                key,
                takes_nothing: client.takes_nothing(now),
                held: client.peer.unsent().saturating_add(client.handed),
            })
            .max_by_key(|it| (it.takes_nothing, it.held))
    }
}
