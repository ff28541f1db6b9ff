//! Into which buckets names fall.
//!
//! Of thousands of members most fall into none in which one of some names is, so they are none of them.

ghost use Rattle.std.specs.Prelude.{◌≡◌, ◌<◌, false, true, length, replicate, slice_set};
ghost use Rattle.hx_fields.specs.Folded.{folded, number_of};
ghost use Rattle.hx_fields.specs.NameBuckets.{bucket_of_name, falls_in_marked_bucket};

use std::marker::Model;

/// 2^64 divided by the golden ratio: names that are alike fall far from each other.
const SPREAD: u64 = 11_400_714_819_323_198_485;

/// The buckets into which some names fall, without case. Contracts see which of the 4,096 they are.
#[derive(Drop)]
pub struct NameBuckets {
    are: [bool; 4096],
}

impl Model for NameBuckets {
    ghost use Rattle.std.specs.Prelude.{List, Bool};

    ghost Value = { List Bool };

    ghost view = { λ b. b.are };
}

/// The number of a name once it is folded.
#[tactic(auto, unfolding(crate::specs::Folded::number_of))]
fn folded_number(name: &[u8]) -> u64
    ensures { result ≡ number_of (folded name.now) }
{
    name.iter().fold(0u64, |number, byte| {
        number
            .wrapping_mul(257)
            .wrapping_add(u64::from(byte.to_ascii_lowercase()))
    })
}

fn bucket_of_name(name: &[u8]) -> usize
    ensures value { result ≡ bucket_of_name name.now }
    ensures small { result < 4096 }
{
    (folded_number(name).wrapping_mul(SPREAD) >> 52) as usize
}

impl NameBuckets {
    /// Those of no name.
    pub fn none() -> NameBuckets
        ensures { result ≡ replicate 4096 false }
    {
        NameBuckets { are: [false; 4096] }
    }

    /// Adds that of a name. Whether it was there before.
    pub fn add(&mut self, name: &[u8]) -> bool
        ensures before { result ≡ falls_in_marked_bucket self.old name.now }
        ensures added { self.new ≡ slice_set self.old (bucket_of_name name.now) true }
        ensures inside { bucket_of_name name.now < length self.old }
    {
        let bucket = bucket_of_name(name);
        let was_there = self.are[bucket];
        self.are[bucket] = true;
        was_there
    }

    /// Takes out that of a name.
    pub fn remove(&mut self, name: &[u8])
        ensures removed { self.new ≡ slice_set self.old (bucket_of_name name.now) false }
        ensures inside { bucket_of_name name.now < length self.old }
    {
        self.are[bucket_of_name(name)] = false;
    }

    /// Whether a text falls into one of them.
    pub fn has(&self, text: &[u8]) -> bool
        ensures { result ≡ falls_in_marked_bucket self.now text.now }
    {
        self.are[bucket_of_name(text)]
    }
}
