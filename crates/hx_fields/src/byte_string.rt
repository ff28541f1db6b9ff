//! Bytes, which contracts see as a list of numbers.
//!
//! Few stand in the value itself. More are a vector of their own, or a part of a buffer that others share: neither
//! few bytes nor a copy of a part takes memory.
ghost use Rattle.std.specs.Prelude.{◌≡◌, ◌≤◌, ◌==◌, ◌++◌, [], length, IfOk, IfSome, OnOk, OnErr, slice_range};
ghost use Rattle.hx_fields.specs.ByteStrings.{bytes_of_storage_form};

use crate::limits::{LEAST_SHARED_BYTES, MOST_SHORT_BYTES};
use arrayvec::ArrayVec;
use std::alloc::{AllocError, Global};
use std::marker::Model;
use std::rc::Rc;

/// A list of bytes.
#[derive(Debug, Drop)]
pub struct Bytes {
    kept: Kept,
}

/// Where the bytes are.
#[derive(Debug)]
enum Kept {
    Short(ArrayVec<u8, MOST_SHORT_BYTES>),
    Whole(Vec<u8>),
    Part(Part),
}

/// One call drops it, wherever that is, so its cases stand in one proof alone.
impl Drop for Kept {
    fn drop(self) {
        match self {
            Kept::Short(_) => {}
            Kept::Whole(_) => {}
            Kept::Part(_) => {}
        }
    }
}

impl Kept {
    /// The vector of these bytes: that which is there, or a copy of the part. Fails only where memory runs out.
    fn into_vec(self, alloc: Global) -> Result<Vec<u8>, AllocError>
        ensures { IfOk result (λ bytes. bytes.items ≡ bytes_of_storage_form self) }
    {
        match self {
            Kept::Short(bytes) => Vec::from_slice(alloc, bytes.as_slice()),
            Kept::Whole(bytes) => Ok(bytes),
            Kept::Part(part) => Vec::from_slice(alloc, part.as_slice()),
        }
    }
}

/// The bytes of a shared buffer from one index up to another.
#[derive(Debug, Drop)]
struct Part {
    buffer: Rc<Vec<u8>, Global>,
    start: usize,
    end: usize,
}

impl Model for Part {
    ghost use Rattle.std.specs.Prelude.{List, ℕ, slice_range, vec_len, ◌≤◌};

    ghost Value = { List ℕ };

    ghost view = { λ p. slice_range p.buffer.value.items p.start p.end };

    ghost invariant = { λ p. (p.start ≤ p.end) × (p.end ≤ vec_len p.buffer.value) };
}

impl Model for Bytes {
    ghost use Rattle.std.specs.Prelude.{List, ℕ};
    ghost use Rattle.hx_fields.specs.ByteStrings.{bytes_of_storage_form};

    ghost Value = { List ℕ };

    ghost view = { λ b. bytes_of_storage_form b.kept };
}

impl Part {
    fn as_slice(&self) -> &[u8]
        ensures { result.now ≡ self.now }
    {
        &self.buffer.as_ref().as_slice()[self.start..self.end]
    }

    /// Another owner of the buffer. Fails only where memory runs out.
    fn copy(&self) -> Result<Part, AllocError>
        ensures { IfOk result (λ part. part ≡ self.now) }
    {
        Ok(Part {
            buffer: self.buffer.clone()?,
            start: self.start,
            end: self.end,
        })
    }

    /// Another owner of the buffer, of these bytes of it. Fails only where memory runs out.
    fn part(&self, start: usize, end: usize) -> Result<Part, AllocError>
        requires order { start ≤ end }
        requires within { end ≤ length self.now }
        ensures { IfOk result (λ part. part ≡ slice_range self.now start end) }
    {
        Ok(Part {
            buffer: self.buffer.clone()?,
            start: self.start + start,
            end: self.start + end,
        })
    }
}

/// Two slices, one behind the other, where they are few bytes.
fn short_of_both(first: &[u8], second: &[u8]) -> Option<ArrayVec<u8, MOST_SHORT_BYTES>>
    ensures { IfSome result (λ bytes. bytes.items ≡ first.now ++ second.now) }
{
    let mut bytes = ArrayVec::new();
    bytes.try_extend_from_slice(first).ok()?;
    bytes.try_extend_from_slice(second).ok()?;
    Some(bytes)
}

impl Bytes {
    /// No bytes.
    pub fn new(alloc: Global) -> Bytes
        ensures { result ≡ [] }
    {
        Bytes::from_vec(Vec::new(alloc))
    }

    /// The bytes of a vector. No memory is taken.
    pub fn from_vec(bytes: Vec<u8>) -> Bytes
        ensures { result ≡ bytes.items }
    {
        Bytes {
            kept: Kept::Whole(bytes),
        }
    }

    /// The bytes of a vector. Where they are many, their copies and parts share them, and no more
    /// memory is kept than they need. Where memory for that runs out, they are copied as few are.
    pub fn shared_from_vec(alloc: Global, bytes: Vec<u8>) -> Bytes
        ensures { result ≡ bytes.items }
    {
        if bytes.len() < LEAST_SHARED_BYTES {
            return Bytes::from_vec(bytes);
        }
        let mut exact = bytes;
        exact.shrink_to_fit();
        let end = exact.len();
        match Rc::new(alloc, exact) {
            Ok(buffer) => Bytes {
                kept: Kept::Part(Part {
                    buffer,
                    start: 0,
                    end,
                }),
            },
            Err(refused) => Bytes::from_vec(refused.value),
        }
    }

    /// A copy of a slice. Few bytes take no memory.
    pub fn copy_of(alloc: Global, bytes: &[u8]) -> Result<Bytes, AllocError>
        ensures { IfOk result (λ copied. copied ≡ bytes.now) }
    {
        match ArrayVec::try_from(bytes) {
            Ok(short) => Ok(Bytes {
                kept: Kept::Short(short),
            }),
            Err(_) => Ok(Bytes::from_vec(Vec::from_slice(alloc, bytes)?)),
        }
    }

    /// A copy of two slices, one behind the other. Few bytes take no memory.
    pub(crate) fn copy_of_two_slices(
        alloc: Global,
        first: &[u8],
        second: &[u8],
    ) -> Result<Bytes, AllocError>
        ensures { IfOk result (λ copied. copied ≡ first.now ++ second.now) }
    {
        if let Some(short) = short_of_both(first, second) {
            return Ok(Bytes {
                kept: Kept::Short(short),
            });
        }
        let mut bytes = Vec::with_capacity(alloc, first.len().saturating_add(second.len()))?;
        bytes.extend_from_slice(first)?;
        bytes.extend_from_slice(second)?;
        Ok(Bytes::from_vec(bytes))
    }

    /// A copy of a slice, whose parts and copies share it.
    pub fn shared_copy_of(alloc: Global, bytes: &[u8]) -> Result<Bytes, AllocError>
        ensures { IfOk result (λ copied. copied ≡ bytes.now) }
    {
        let buffer = Rc::new(alloc, Vec::from_slice(alloc, bytes)?)?;
        Ok(Bytes {
            kept: Kept::Part(Part {
                buffer,
                start: 0,
                end: bytes.len(),
            }),
        })
    }

    /// The bytes from one index up to another. They share the buffer where these do.
    pub fn part(&self, alloc: Global, start: usize, end: usize) -> Result<Bytes, AllocError>
        requires order { start ≤ end }
        requires within { end ≤ length self.now }
        ensures { IfOk result (λ part. part ≡ slice_range self.now start end) }
    {
        match &self.kept {
            Kept::Part(part) => Ok(Bytes {
                kept: Kept::Part(part.part(start, end)?),
            }),
            _ => Bytes::copy_of(alloc, &self.as_slice()[start..end]),
        }
    }

    /// A copy of these bytes, which shares the buffer where these do.
    pub fn copy(&self, alloc: Global) -> Result<Bytes, AllocError>
        ensures { IfOk result (λ copied. copied ≡ self.now) }
    {
        match &self.kept {
            Kept::Part(part) => Ok(Bytes {
                kept: Kept::Part(part.copy()?),
            }),
            _ => Bytes::copy_of(alloc, self.as_slice()),
        }
    }

    /// These bytes with others behind them: in the memory that they have where it is theirs alone
    /// and enough. Fails only where memory runs out.
    pub fn followed_by(self, alloc: Global, more: &[u8]) -> Result<Bytes, AllocError>
        ensures { IfOk result (λ all. all ≡ self ++ more.now) }
    {
        let mut bytes = self.kept.into_vec(alloc)?;
        bytes.extend_from_slice(more)?;
        Ok(Bytes::from_vec(bytes))
    }

    /// The bytes.
    pub fn as_slice(&self) -> &[u8]
        ensures { result.now ≡ self.now }
    {
        match &self.kept {
            Kept::Short(bytes) => bytes.as_slice(),
            Kept::Whole(bytes) => bytes.as_slice(),
            Kept::Part(part) => part.as_slice(),
        }
    }

    /// How many bytes there are.
    pub fn len(&self) -> usize
        ensures { result ≡ length self.now }
    {
        self.as_slice().len()
    }

    /// Whether there is no byte.
    pub fn is_empty(&self) -> bool
        ensures { result ≡ (length self.now == 0) }
    {
        self.as_slice().is_empty()
    }
}
