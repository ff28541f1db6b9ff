//! What a hash function is fed of a key, by which a shelf finds its entries. Keys that are one feed it the same
//! (`specs/KeyHash.antt`).
ghost use Rattle.hx_target.specs.KeyHash.{writes_of_key_to_hasher, same_keys_hash_alike};

use crate::keys::Key;
use std::hash::{Hash, Hasher};

impl Hash for Key {
    ghost hash_input = { writes_of_key_to_hasher };

    ghost respects_eq = { same_keys_hash_alike };

    // The port stands between path and host, so that no byte of one counts as a byte of the other.
    fn hash<H: Hasher>(&self, state: &mut H) {
        state.write(self.path_query.as_slice());
        state.write_u16(self.port);
        state.write(self.host.as_slice());
    }
}
