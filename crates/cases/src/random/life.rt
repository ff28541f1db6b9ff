//! One process among several that serve one after another: each begins with the store that the one before it has left.

use crate::text::push_item;
use proxy_replay::replay_over_store;
use proxy_script::{Effect, Happening, Item, effects_text};
use std::alloc::{AllocError, Global};

/// What happened to a process, and what it did, by its own numbers of connections and links.
pub struct Life {
    /// How many connections and links there were before.
    connections: u64,
    links: u64,
    /// The file of the store that it began with; the first one began with none.
    store: Option<Vec<u8>>,
    script: Vec<u8>,
    effects: Vec<u8>,
}

// By hand, so that a scope that ends is one call to the prover and not the drop of each part.
impl Drop for Life {
    fn drop(self) {
        let Life {
            connections: _,
            links: _,
            store: _,
            script: _,
            effects: _,
        } = self;
    }
}

/// What happened, by the numbers of a process before which there were so many connections and links; nothing where it
/// happened at an end of another process.
fn own_happening(happening: Happening<'_>, connections: u64, links: u64) -> Option<Happening<'_>> {
    let own = |n: u64, before: u64| n.checked_sub(before).filter(|n| *n > 0);
    match happening {
        Happening::Accept(n) => Some(Happening::Accept(own(n, connections)?)),
        Happening::Client(n, bytes) => Some(Happening::Client(own(n, connections)?, bytes)),
        Happening::End(n) => Some(Happening::End(own(n, connections)?)),
        Happening::Gone(n) => Some(Happening::Gone(own(n, connections)?)),
        Happening::Retire(n) => Some(Happening::Retire(own(n, connections)?)),
        Happening::Overdue(n) => Some(Happening::Overdue(own(n, connections)?)),
        Happening::Link(l, bytes) => Some(Happening::Link(own(l, links)?, bytes)),
        Happening::Shut(l) => Some(Happening::Shut(own(l, links)?)),
        Happening::Fail(l, kind) => Some(Happening::Fail(own(l, links)?, kind)),
    }
}

impl Life {
    /// Of a process that begins at this moment, behind so many connections and links.
    pub fn begin(
        alloc: Global,
        table: &[u8],
        now: u64,
        connections: u64,
        links: u64,
        store: Option<Vec<u8>>,
    ) -> Result<Life, AllocError> {
        let mut script = Vec::new(alloc);
        push_item(&mut script, Item::Config(table))?;
        push_item(&mut script, Item::At(now))?;
        Ok(Life {
            connections,
            links,
            store,
            script,
            effects: Vec::new(alloc),
        })
    }

    /// Notes the moment.
    pub fn note_moment(&mut self, now: u64) -> Result<(), AllocError> {
        push_item(&mut self.script, Item::At(now))
    }

    /// What happened, by the numbers of the process, if it happened to it.
    pub fn own<'a>(&self, happening: Happening<'a>) -> Option<Happening<'a>> {
        own_happening(happening, self.connections, self.links)
    }

    /// Notes what happened. Whether it happened to the process.
    pub fn note(&mut self, happening: Happening<'_>) -> Result<bool, AllocError> {
        let Some(own) = self.own(happening) else {
            return Ok(false);
        };
        push_item(&mut self.script, Item::Happens(own))?;
        Ok(true)
    }

    /// Notes what the process did, and numbers it as if it had been there from the beginning.
    pub fn renumber(&mut self, alloc: Global, effects: &mut [Effect]) -> Result<(), AllocError> {
        let text = effects_text(alloc, effects)?;
        self.effects.extend_from_slice(text.as_slice())?;
        for effect in effects.iter_mut() {
            match effect {
                Effect::Client(n, _, _) | Effect::Close(n) => {
                    *n = n.saturating_add(self.connections);
                }
                Effect::Forward(l, _, _) | Effect::Drop(l) => *l = l.saturating_add(self.links),
            }
        }
        Ok(())
    }

    /// Whether a replay over the store that the process began with does what it did.
    pub fn is_replayed(&self, alloc: Global) -> bool {
        let Some(store) = &self.store else {
            return true;
        };
        let mut script = self.script.as_slice();
        let mut text = Vec::new(alloc);
        match replay_over_store(alloc, store.as_slice(), &mut script, &mut text) {
            Ok(()) => text.as_slice() == self.effects.as_slice(),
            Err(_) => false,
        }
    }
}
