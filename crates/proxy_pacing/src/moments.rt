//! Who comes next, by moments: one ordered structure, in which nothing is looked for.
ghost use Rattle.std.specs.Prelude.{◌≡◌, [], length, slice_get, option_map};
ghost use Rattle.std.specs.Bool.{OnTrue, OnFalse};
ghost use Rattle.proxy_pacing.specs.MomentOrder.{with_moment, without_moment, earliest_moment_if_due};
ghost use Rattle.proxy_pacing.specs.MomentOrder.{moments_without_earliest_due};

use std::alloc::Global;
use std::collections::BTreeSet;
use std::marker::Model;

/// A moment in milliseconds of the clock that never goes back, and whose it is.
#[derive(Clone, Copy, Debug, PartialEq, Eq, PartialOrd, Ord)]
pub struct Moment {
    pub at: u64,
    pub id: u64,
}

/// Moments with their holders, the earliest first, and those of one moment by their holders. Contracts see their list.
#[derive(Drop)]
pub struct Moments {
    items: BTreeSet<Moment>,
}

impl Model for Moments {
    ghost use Rattle.std.specs.Prelude.{List};
    ghost use Rattle.proxy_pacing.specs.declared.moments.Moment.{Moment};

    ghost Value = { List Moment };

    ghost view = { λ m. m.items.keys };
}

impl Moments {
    /// None.
    pub fn new(alloc: Global) -> Moments
        ensures { result ≡ [] }
    {
        Moments {
            items: BTreeSet::new(alloc),
        }
    }

    /// How many there are.
    pub fn len(&self) -> usize
        ensures { result ≡ length self.now }
    {
        self.items.len()
    }

    /// Adds a moment. Whether there was memory for it; if not, nothing changes.
    pub fn add(&mut self, at: u64, id: u64) -> bool
        ensures added { OnTrue result (self.new ≡ with_moment (record { at = at; id = id }) self.old) }
        ensures unchanged { OnFalse result (self.new ≡ self.old) }
    {
        self.items.insert(Moment { at, id }).is_ok()
    }

    /// Takes a moment out, if it stands here.
    pub fn remove(&mut self, at: u64, id: u64)
        ensures { self.new ≡ without_moment (record { at = at; id = id }) self.old }
    {
        let _ = self.items.remove(&Moment { at, id });
    }

    /// The earliest, and whose it is.
    pub fn first(&self) -> Option<Moment>
        ensures { result ≡ slice_get self.now 0 }
    {
        self.items.first().copied()
    }

    /// Takes out the earliest, where its moment has come. Whose it was.
    pub fn take_earliest_due(&mut self, now: u64) -> Option<u64>
        ensures due { result ≡ option_map (λ m. m.id) (earliest_moment_if_due now self.old) }
        ensures left { self.new ≡ moments_without_earliest_due now self.old }
    {
        let moment = self.items.first().copied()?;
        if moment.at > now {
            return None;
        }
        let _ = self.items.pop_first();
        Some(moment.id)
    }
}
