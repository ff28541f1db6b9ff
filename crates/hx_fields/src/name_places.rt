//! Which names a list of lines may have, by a mark for each of 64 places.
//!
//! Of a head most names that are asked for don't stand in it. One step tells that, and no line is looked at.

ghost use Rattle.std.specs.Prelude.{◌≡◌, ◌==◌, ◌<◌, ℕ};
ghost use Rattle.std.specs.Int.{bit_at};
ghost use Rattle.hx_fields.specs.NamePlaces.{bit_place_of_name};

use crate::first_bytes::first_byte;

/// The places of some names. A name that isn't among them may have the place of one that is.
#[derive(Clone, Copy, Debug)]
pub(crate) struct NamePlaces {
    marks: u64,
}

/// The place of a name, without case.
fn bit_place_of_name(name: &[u8]) -> u32
    ensures place { result ≡ bit_place_of_name name.now }
    ensures within { result < 64 }
{
    let turned = 8 * (name.len() % 8) as u32;
    (u32::from(first_byte(name)) + turned) % 64
}

impl NamePlaces {
    /// Those of no name.
    pub(crate) fn none() -> NamePlaces {
        NamePlaces { marks: 0 }
    }

    /// Marks the place of a name.
    pub(crate) fn add(&mut self, name: &[u8])
        ensures added { bit_at self.new.marks (bit_place_of_name name.now) ≡ 1 }
        ensures kept { (i : ℕ) → bit_at self.old.marks i ≡ 1 → bit_at self.new.marks i ≡ 1 }
    {
        self.marks |= 1 << bit_place_of_name(name);
    }

    /// Whether the place of a name is marked.
    pub(crate) fn has(self, name: &[u8]) -> bool
        ensures { result ≡ (bit_at self.marks (bit_place_of_name name.now) == 1) }
    {
        (self.marks >> bit_place_of_name(name)) % 2 == 1
    }
}
