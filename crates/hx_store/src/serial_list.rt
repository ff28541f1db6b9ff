//! Serials in ascending order.

ghost use Rattle.std.specs.Prelude.{◌≡◌, ◌≤◌, ◌-◌, ◌==◌, ◌++◌, ◌∷◌, [], IfOk, OnOk, OnErr, length, nat_le, slice_get};
ghost use Rattle.std.specs.List.{position_or_len};
ghost use Rattle.hx_store.specs.Serials.{insert_ascending, ascending};

use smallvec::SmallVec;
use std::alloc::{AllocError, Global};
use std::marker::Model;

/// Serials, of which callers see the list. One alone takes no memory: most keys have no more.
#[derive(Debug, Drop)]
pub struct Serials {
    serials: SmallVec<u64, 1>,
}

impl Model for Serials {
    ghost use Rattle.std.specs.Prelude.{List, ℕ};

    ghost Value = { List ℕ };

    ghost view = { λ s. s.serials.items };
}

impl Serials {
    /// None.
    pub fn new(alloc: Global) -> Serials
        ensures { result ≡ [] }
    {
        Serials {
            serials: SmallVec::new(alloc),
        }
    }

    /// None, and room for n. Fails only where memory runs out.
    pub(crate) fn with_capacity(alloc: Global, n: usize) -> Result<Serials, AllocError>
        ensures { IfOk result (λ serials. serials ≡ []) }
    {
        Ok(Serials {
            serials: SmallVec::with_capacity(alloc, n)?,
        })
    }

    /// Puts a serial before the first that isn't below it. Fails only where memory runs out.
    pub fn insert(&mut self, serial: u64) -> Result<(), AllocError>
        ensures ok { OnOk result (self.new ≡ insert_ascending serial self.old) }
        ensures err { OnErr result (self.new ≡ self.old) }
    {
        let place = place_of(self.serials.as_slice(), serial);
        self.serials.insert(place, serial)?;
        Ok(())
    }

    /// Puts a serial behind the others, in whatever order. Fails only where memory runs out.
    pub fn push(&mut self, serial: u64) -> Result<(), AllocError>
        ensures ok { OnOk result (self.new ≡ self.old ++ serial ∷ []) }
        ensures err { OnErr result (self.new ≡ self.old) }
    {
        self.serials.push(serial)?;
        Ok(())
    }

    /// Puts them into ascending order. No memory is taken.
    pub(crate) fn sort(&mut self)
        ensures { self.new ≡ ascending self.old }
    {
        self.serials.as_mut_slice().sort_unstable();
    }

    /// A copy of these serials. Fails only where memory runs out.
    pub fn copy(&self, alloc: Global) -> Result<Serials, AllocError>
        ensures { IfOk result (λ copied. copied ≡ self.now) }
    {
        Ok(Serials {
            serials: SmallVec::from_slice(alloc, self.as_slice())?,
        })
    }

    /// The serials.
    pub fn as_slice(&self) -> &[u64]
        ensures { result.now ≡ self.now }
    {
        self.serials.as_slice()
    }

    /// How many there are.
    pub fn len(&self) -> usize
        ensures { result ≡ length self.now }
    {
        self.serials.len()
    }

    /// Whether there is none.
    pub fn is_empty(&self) -> bool
        ensures { result ≡ (length self.now == 0) }
    {
        self.serials.is_empty()
    }

    /// The last, which is the greatest where they were put in by `insert`.
    pub fn last(&self) -> Option<u64>
        ensures { result ≡ slice_get self.now (length self.now - 1) }
    {
        self.as_slice().last().copied()
    }
}

/// Where the first one stands that is not below `serial`, or else the end.
fn place_of(serials: &[u64], serial: u64) -> usize
    ensures place { result ≡ position_or_len (λ x. nat_le serial x) serials.now }
    ensures within { result ≤ length serials.now }
{
    for (i, x) in serials.iter().enumerate() {
        if serial <= *x {
            return i;
        }
    }
    serials.len()
}
