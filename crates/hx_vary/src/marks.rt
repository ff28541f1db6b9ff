//! Marks: numbers that tell most of what a request can't match, with no look at the values that were kept.
//!
//! A number is no proof of a match: whoever finds the tags of a mark among a request's own has to
//! look. The hash has a seed that each store draws for itself, so no peer can choose values of one
//! tag; two of one tag cost a look, and change nothing.

ghost use Rattle.std.specs.Prelude.{◌≡◌};
ghost use Rattle.hx_vary.specs.Marks.{mark_may_match, value_tag_at, value_tag, tags_of_values};

use crate::nominated_values::NominatedValue;
use std::hash::{DefaultHasher, Hasher};

/// The tags of the first four nominated values that are present; 0 where there are fewer.
#[derive(Clone, Copy, Debug, PartialEq, Eq)]
pub struct VariantMark {
    pub(crate) first: u64,
    pub(crate) second: u64,
    pub(crate) third: u64,
    pub(crate) fourth: u64,
}

/// A number of a value, never 0.
#[tactic(auto, unfolding(crate::specs::Marks::value_tag))]
pub(crate) fn value_tag(seed: u64, value: &[u8]) -> u64
    ensures { result ≡ value_tag seed value.now }
{
    let mut hasher = DefaultHasher::new();
    hasher.write_u64(seed);
    hasher.write(value);
    let hash = hasher.finish();
    if hash == 0 { 1 } else { hash }
}

/// The tag at a place, from 0, among those of the values that are present.
pub(crate) fn value_tag_at(values: &[NominatedValue], seed: u64, place: usize) -> u64
    ensures { result ≡ value_tag_at place (tags_of_values seed values.now) }
{
    let mut left = place;
    for kept in values {
        if let Some(value) = &kept.value {
            if left == 0 {
                return value_tag(seed, value.as_slice());
            }
            left -= 1;
        }
    }
    0
}
