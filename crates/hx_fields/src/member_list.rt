//! The members of a list, which contracts see as a list of texts.
ghost use Rattle.std.specs.Prelude.{◌≡◌, ◌++◌, ◌∷◌, [], length, OnOk, OnErr};

use crate::byte_string::Bytes;
use std::alloc::{AllocError, Global};
use std::marker::Model;

/// Members in order, each without blanks round it, none empty.
#[derive(Debug, Drop)]
pub struct Members {
    items: Vec<Bytes>,
}

impl Model for Members {
    ghost use Rattle.std.specs.Prelude.{List, ℕ};

    ghost Value = { List (List ℕ) };

    ghost view = { λ m. m.items.items };
}

impl Members {
    /// No members.
    pub(crate) fn new(alloc: Global) -> Members
        ensures { result ≡ [] }
    {
        Members {
            items: Vec::new(alloc),
        }
    }

    /// Puts a copy of a member at the end.
    pub(crate) fn push(&mut self, alloc: Global, member: &[u8]) -> Result<(), AllocError>
        ensures ok { OnOk result (self.new ≡ self.old ++ member.now ∷ []) }
        ensures err { OnErr result (self.new ≡ self.old) }
    {
        let member = Bytes::copy_of(alloc, member)?;
        self.items.push(member)?;
        Ok(())
    }

    /// The members, in order.
    pub fn as_slice(&self) -> &[Bytes]
        ensures { result.now ≡ self.now }
    {
        self.items.as_slice()
    }

    /// How many members there are.
    pub fn len(&self) -> usize
        ensures { result ≡ length self.now }
    {
        self.items.len()
    }
}
