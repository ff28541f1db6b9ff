//! A shelf within a bound of bytes.

ghost use Rattle.std.specs.Prelude.{◌≡◌, ◌<◌, ◌≤◌, ◌-◌, ◌^◌};
ghost use Rattle.hx_store.specs.Weights.{prefix_within_weight, weight_of_entry};

use crate::shelves::Shelf;

/// Takes the least recently used entries out until the others weigh no more than `most` bytes together, and lets them
/// go. Nothing is allocated.
pub fn evict_to_weight<S: Shelf>(shelf: &mut S, most: u64)
    requires { most < 2 ^ 64 - 1 }
    ensures entries { S.entries shelf.new ≡ prefix_within_weight weight_of_entry most (S.entries shelf.old) }
    ensures limit { S.limit shelf.new ≡ S.limit shelf.old }
    ensures room { S.room shelf.old ≤ S.room shelf.new }
{
    while let Some(_) = shelf.evict_last_beyond_weight(most) {}
}
