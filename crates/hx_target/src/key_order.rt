//! The order of keys, in which a shelf's index keeps them.
//!
//! It is in `specs/KeyOrder.antt`: keys tie exactly where they are one. What tells most keys apart
//! is looked at first: a length stands in the key itself, and few hosts have many paths.
ghost use Rattle.std.specs.Prelude.{Some, refl};
ghost use Rattle.std.specs.Cmp.{partial_equiv_from_equiv, partial_order_from_agreeing_total};
ghost use Rattle.hx_target.specs.Keys.{same_key};
ghost use Rattle.hx_target.specs.KeyOrder.{key_cmp, key_cmp_total, key_cmp_ties_are_same, same_key_equiv};

use crate::keys::Key;
use std::cmp::Ordering;

impl PartialEq for Key {
    ghost eq = { same_key };

    ghost laws = { partial_equiv_from_equiv same_key_equiv };

    fn eq(&self, other: &Key) -> bool {
        self.is_same(other)
    }
}

impl Eq for Key {
    ghost laws = { same_key_equiv };
}

impl PartialOrd for Key {
    ghost partial_cmp = { λ a b. Some (key_cmp a b) };

    ghost laws = { partial_order_from_agreeing_total key_cmp key_cmp_total (λ _ _. refl) key_cmp_ties_are_same };

    fn partial_cmp(&self, other: &Key) -> Option<Ordering> {
        Some(self.cmp(other))
    }
}

impl Ord for Key {
    ghost cmp = { key_cmp };

    ghost total = { key_cmp_total };

    ghost matches_partial_cmp = { λ _ _. refl };

    ghost matches_eq = { key_cmp_ties_are_same };

    fn cmp(&self, other: &Key) -> Ordering {
        self.path_query
            .len()
            .cmp(&other.path_query.len())
            .then_with(|| self.path_query.as_slice().cmp(other.path_query.as_slice()))
            .then_with(|| self.host.as_slice().cmp(other.host.as_slice()))
            .then(self.port.cmp(&other.port))
    }
}
