//! What names begin with.
//!
//! Of thousands of members most are told by their first byte to be none of some names.

ghost use Rattle.std.specs.Prelude.{◌≡◌, ◌<◌, false, true, length, replicate, slice_set, slice_index_or};
ghost use Rattle.std.specs.Char.{to_ascii_lowercase};
ghost use Rattle.hx_fields.specs.FirstBytes.{first_byte_is_one_of, first_byte};

use std::marker::Model;

/// The bytes that some names begin with, without case. Contracts see which of the 256 bytes they are.
#[derive(Drop)]
pub struct FirstBytes {
    are: [bool; 256],
}

impl Model for FirstBytes {
    ghost use Rattle.std.specs.Prelude.{List, Bool};

    ghost Value = { List Bool };

    ghost view = { λ f. f.are };
}

/// The first byte in lower case; that of an empty text is 0.
pub(crate) fn first_byte(text: &[u8]) -> u8
    ensures { result ≡ first_byte text.now }
{
    match text {
        [first, ..] => first.to_ascii_lowercase(),
        [] => 0,
    }
}

impl FirstBytes {
    /// Those of no name.
    pub fn none() -> FirstBytes
        ensures { result ≡ replicate 256 false }
    {
        FirstBytes { are: [false; 256] }
    }

    /// Adds that of a name.
    pub fn add(&mut self, name: &[u8])
        ensures added { self.new ≡ slice_set self.old (first_byte name.now) true }
        ensures inside { first_byte name.now < length self.old }
    {
        self.are[usize::from(first_byte(name))] = true;
    }

    /// Takes out that of a name.
    pub fn remove(&mut self, name: &[u8])
        ensures removed { self.new ≡ slice_set self.old (first_byte name.now) false }
        ensures inside { first_byte name.now < length self.old }
    {
        self.are[usize::from(first_byte(name))] = false;
    }

    /// Whether a text begins with one of them.
    pub fn has_first_byte_of(&self, text: &[u8]) -> bool
        ensures { result ≡ first_byte_is_one_of self.now text.now }
    {
        self.are[usize::from(first_byte(text))]
    }

    /// Whether a byte is one of them.
    pub(crate) fn has(&self, byte: u8) -> bool
        ensures { result ≡ slice_index_or self.now (to_ascii_lowercase byte) false }
    {
        self.are[usize::from(byte.to_ascii_lowercase())]
    }
}
