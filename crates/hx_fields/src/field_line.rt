//! One field line (RFC 9110, section 5).
ghost use Rattle.std.specs.Prelude.{◌≡◌, ◌≤◌, IfOk, length, slice_range, take};

use crate::byte_string::Bytes;
use std::alloc::{AllocError, Global};
use std::marker::Model;

/// A name and a value; contracts see both. Readers hand in a token as name, and a value without CR, LF, NUL and
/// surrounding blanks.
///
/// Both stand in one piece of memory: as they came, or the value right after the name.
#[derive(Debug, Drop)]
pub struct Field {
    text: Bytes,
    /// Up to here the text is the name.
    name_end: u32,
    /// From here on it is the value.
    value_start: u32,
}

impl Model for Field {
    ghost use Rattle.std.specs.Prelude.{◌≤◌, take, drop, length};
    ghost use Rattle.hx_fields.specs.Line.{Field as Line};

    ghost Value = { Line };

    ghost view = { λ f. record { name = take f.name_end f.text; value = drop f.value_start f.text } };

    ghost invariant = { λ f. (f.name_end ≤ length f.text) × (f.value_start ≤ length f.text) };
}

/// How far into a line a place is. A line of 4 GiB counts as one for which there is no memory.
fn place_in_line(bytes: usize) -> Result<u32, AllocError>
    ensures { IfOk result (λ place. place ≡ bytes) }
{
    u32::try_from(bytes).map_err(|_| AllocError)
}

impl Field {
    /// A line of these two texts. Fails only where memory runs out.
    pub fn copy_of(alloc: Global, name: &[u8], value: &[u8]) -> Result<Field, AllocError>
        ensures { IfOk result (λ line. line ≡ record { name = name.now; value = value.now }) }
    {
        let name_end = place_in_line(name.len())?;
        Ok(Field {
            text: Bytes::copy_of_two_slices(alloc, name, value)?,
            name_end,
            value_start: name_end,
        })
    }

    /// The line whose name and value are these parts of a head. It shares the head's buffer where the value stands
    /// behind the name. Fails only where memory runs out.
    pub fn part_of(
        alloc: Global,
        head: &Bytes,
        name: (usize, usize),
        value: (usize, usize),
    ) -> Result<Field, AllocError>
        requires name { name.0 ≤ name.1 }
        requires name_within { name.1 ≤ length head.now }
        requires value { value.0 ≤ value.1 }
        requires value_within { value.1 ≤ length head.now }
        ensures { IfOk result (λ line. line ≡ record {
          name = slice_range head.now name.0 name.1;
          value = slice_range head.now value.0 value.1;
        }) }
    {
        let (start, name_end) = name;
        let (value_start, end) = value;
        if value_start < name_end {
            let bytes = head.as_slice();
            return Field::copy_of(alloc, &bytes[start..name_end], &bytes[value_start..end]);
        }
        Ok(Field {
            name_end: place_in_line(name_end - start)?,
            value_start: place_in_line(value_start - start)?,
            text: head.part(alloc, start, end)?,
        })
    }

    /// The name.
    pub fn name(&self) -> &[u8]
        ensures { result.now ≡ self.now.name }
    {
        &self.text.as_slice()[..self.name_end as usize]
    }

    /// The value.
    pub fn value(&self) -> &[u8]
        ensures { result.now ≡ self.now.value }
    {
        &self.text.as_slice()[self.value_start as usize..]
    }

    /// The first n bytes of the value, which share the buffer that the line shares. Fails only where memory runs out.
    pub fn first_bytes_of_value(&self, alloc: Global, n: usize) -> Result<Bytes, AllocError>
        requires { n ≤ length self.now.value }
        ensures { IfOk result (λ part. part ≡ take n self.now.value) }
    {
        let behind = self.value().len() - n;
        self.text
            .part(alloc, self.value_start as usize, self.text.len() - behind)
    }

    /// A copy of this line, which shares the buffer that it shares.
    pub fn copy(&self, alloc: Global) -> Result<Field, AllocError>
        ensures { IfOk result (λ copied. copied ≡ self.now) }
    {
        Ok(Field {
            text: self.text.copy(alloc)?,
            name_end: self.name_end,
            value_start: self.value_start,
        })
    }
}
