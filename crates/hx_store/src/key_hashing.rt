//! How the keys of a shelf are hashed: by `DefaultHasher`, which is made for keys that strangers
//! choose, behind a seed that each shelf is given.

ghost use Rattle.std.specs.Hash.{u64 as writes_of};
ghost use Rattle.std.specs.Hash.DefaultHasher.{initial, write};
ghost use Rattle.std.specs.List.{fold};
ghost use Rattle.std.specs.Prelude.{◌≡◌};

use std::hash::{BuildHasher, DefaultHasher, Hasher};

/// What makes a hasher for each key.
#[derive(Clone, Copy)]
pub(crate) struct KeyHashing {
    seed: u64,
}

impl KeyHashing {
    pub(crate) fn new(seed: u64) -> KeyHashing
        ensures { result.seed ≡ seed }
    {
        KeyHashing { seed }
    }
}

impl BuildHasher for KeyHashing {
    type Hasher = DefaultHasher;

    ghost build_hasher = { λ h. fold write initial (writes_of h.seed) };

    fn build_hasher(&self) -> DefaultHasher {
        let mut hasher = DefaultHasher::new();
        hasher.write_u64(self.seed);
        hasher
    }
}
