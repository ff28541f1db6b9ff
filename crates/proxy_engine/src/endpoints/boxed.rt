//! A value in a box of its own: a map of them has a pointer at each place, and room for more places costs little.
ghost use Rattle.std.specs.Prelude.{◌≡◌, IfOk};
ghost use Rattle.std.specs.Borrow.{Lends, sem};

use std::alloc::{AllocError, Global};
use std::marker::Model;

/// A box. Contracts see what it holds.
#[derive(Drop)]
pub(crate) struct Boxed<T> {
    inner: Box<T>,
}

impl<T> Model for Boxed<T> {
    ghost Value = { T };

    ghost view = { λ b. b.inner.value };
}

impl<T> Boxed<T> {
    ghost use Rattle.proxy_engine.specs.contracts.endpoints.boxed.Boxed.{the_row};

    pub(crate) fn new(alloc: Global, value: T) -> Result<Self, AllocError>
    where
        T: Drop,
        ensures { IfOk result (λ b. b ≡ value) }
    {
        Ok(Boxed {
            inner: Box::new(alloc, value)?,
        })
    }

    pub(crate) fn get(&self) -> &T
        ensures { result.now ≡ self.now }
    {
        &self.inner
    }

    pub(crate) fn get_mut(&mut self) -> &mut T
        ensures* writes_back { sem 𝓛 (Lends (the_row T.row) T.row self.entry result (λ w. w)) }
        ensures value { result.now ≡ self.old }
    {
        &mut self.inner
    }

    /// Puts a value in place of the one that is there. No memory is taken.
    pub(crate) fn set(&mut self, value: T)
    where
        T: Drop,
        ensures { self.new ≡ value }
    {
        *self.inner = value;
    }
}
