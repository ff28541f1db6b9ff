//! The streams of clients that were closed, in the order in which that came.
ghost use Rattle.std.specs.Prelude.{◌≡◌, ◌+◌, ◌-◌, ◌^◌, min};
ghost use Rattle.std.specs.Bool.{OnTrue, OnFalse};
ghost use Rattle.std.specs.Ordering.{nat_cmp};
ghost use Rattle.std.specs.BTreeMap.{btree_map_len, insert_entry, is_at};
ghost use Rattle.std.specs.Map.{remove_entry};
ghost use Rattle.proxy_pacing.specs.Queues.{entries_of_stream_queue, longest_waiting_in_queue};
ghost use Rattle.proxy_pacing.specs.Queues.{OnlyQueueChangesToEntries};
ghost use Rattle.proxy_pacing.specs.Queues.{first_entry_from};

use std::alloc::Global;
use std::collections::BTreeMap;

/// What a stream that was closed waits for.
#[derive(Clone, Copy, Debug, PartialEq, Eq)]
pub enum ClosedStreamQueue {
    /// Its client, which has something to take before the stream is closed.
    Leaving,
    /// Nothing: it is closed, but for what its client may still send.
    Lingering,
}

/// The streams that were closed, by stamps that rise.
#[derive(Drop)]
pub struct ClosedStreamQueues {
    leaving: BTreeMap<u64, usize>,
    lingering: BTreeMap<u64, usize>,
    /// The stamp of the next that comes.
    next: u64,
}

impl ClosedStreamQueues {
    /// None.
    pub fn new(alloc: Global) -> ClosedStreamQueues
        ensures leaving { btree_map_len result.leaving ≡ 0 }
        ensures lingering { btree_map_len result.lingering ≡ 0 }
        ensures next { result.next ≡ 0 }
    {
        ClosedStreamQueues {
            leaving: BTreeMap::new(alloc),
            lingering: BTreeMap::new(alloc),
            next: 0,
        }
    }

    fn queue(&self, queue: ClosedStreamQueue) -> &BTreeMap<u64, usize>
        ensures { result.now ≡ entries_of_stream_queue queue self.now }
    {
        match queue {
            ClosedStreamQueue::Leaving => &self.leaving,
            ClosedStreamQueue::Lingering => &self.lingering,
        }
    }

    /// How many stand in a queue.
    pub fn len(&self, queue: ClosedStreamQueue) -> usize
        ensures { result ≡ btree_map_len (entries_of_stream_queue queue self.now) }
    {
        self.queue(queue).len()
    }

    /// The stamp of who comes next.
    pub fn next_stamp(&mut self) -> u64
        ensures stamp { result ≡ self.old.next }
        ensures next { self.new ≡ record self.old { next = min (self.old.next + 1) (2 ^ 64 - 1) } }
    {
        let stamp = self.next;
        self.next = self.next.saturating_add(1);
        stamp
    }

    /// Puts a stream into a queue, by its stamp. Whether there was memory for it; if not, nothing changes.
    pub fn put(&mut self, queue: ClosedStreamQueue, stamp: u64, key: usize) -> bool
        ensures put { OnTrue result
            (OnlyQueueChangesToEntries queue
            (insert_entry nat_cmp (entries_of_stream_queue queue self.old).entries stamp key)
            self.old self.new) }
        ensures unchanged { OnFalse result
            (OnlyQueueChangesToEntries queue (entries_of_stream_queue queue self.old).entries self.old self.new) }
    {
        let put = match queue {
            ClosedStreamQueue::Leaving => self.leaving.insert(stamp, key),
            ClosedStreamQueue::Lingering => self.lingering.insert(stamp, key),
        };
        put.is_ok()
    }

    /// Takes the stream of a stamp out of a queue, if it stands there.
    pub fn remove(&mut self, queue: ClosedStreamQueue, stamp: u64)
        ensures { OnlyQueueChangesToEntries queue
            (remove_entry (is_at (nat_cmp stamp)) (entries_of_stream_queue queue self.old).entries)
            self.old self.new }
    {
        let _ = match queue {
            ClosedStreamQueue::Leaving => self.leaving.remove(&stamp),
            ClosedStreamQueue::Lingering => self.lingering.remove(&stamp),
        };
    }

    /// Who has stood longest in a queue.
    pub fn first(&self, queue: ClosedStreamQueue) -> Option<usize>
        ensures { result ≡ longest_waiting_in_queue (entries_of_stream_queue queue self.now) }
    {
        match self.queue(queue).first_key_value() {
            Some((_, key)) => Some(*key),
            None => None,
        }
    }

    /// The first in a queue from a stamp on.
    pub fn next_from(&self, queue: ClosedStreamQueue, from: u64) -> Option<(u64, usize)>
        ensures { result ≡ first_entry_from from (entries_of_stream_queue queue self.now).entries }
    {
        let (stamp, key) = self.queue(queue).range(from..).next()?;
        Some((*stamp, *key))
    }
}
