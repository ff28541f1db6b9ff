//! One nominated field of an earlier request.

ghost use Rattle.std.specs.Prelude.{◌≡◌, IfOk, option_copied};
ghost use Rattle.hx_fields.specs.FieldLines.{combined_of};
ghost use Rattle.hx_vary.specs.Vary.{is_same_value};

use hx_fields::{Bytes, Fields};
use std::alloc::{AllocError, Global};

/// The name of a nominated field, and the combined value that the request had of it, if any.
#[derive(Debug, Drop)]
pub struct NominatedValue {
    pub name: Bytes,
    pub value: Option<Bytes>,
}

impl NominatedValue {
    /// A name, and a copy of the value that a request has of it.
    pub(crate) fn of(
        alloc: Global,
        name: &Bytes,
        value: Option<&[u8]>,
    ) -> Result<NominatedValue, AllocError>
        ensures { IfOk result (λ kept. kept ≡ record { name = name.now; value = option_copied value.entry }) }
    {
        let value = match value {
            Some(value) => Some(Bytes::copy_of(alloc, value)?),
            None => None,
        };
        Ok(NominatedValue {
            name: name.copy(alloc)?,
            value,
        })
    }

    /// Whether a later request has the same value of this name. Memory is taken only where several lines have the name.
    pub(crate) fn is_value_of(&self, alloc: Global, request: &Fields) -> Result<bool, AllocError>
        ensures { IfOk result (λ same. same ≡ is_same_value self.now.value (combined_of request.now self.now.name)) }
    {
        let name = self.name.as_slice();
        if request.count(name) > 1 {
            let value = request.combined(alloc, name)?;
            return Ok(is_same_value(slice_of_value(&self.value), slice_of_value(&value)));
        }
        Ok(is_same_value(slice_of_value(&self.value), request.value(name)))
    }

    /// A copy of this value.
    pub(crate) fn copy(&self, alloc: Global) -> Result<NominatedValue, AllocError>
        ensures { IfOk result (λ copied. copied ≡ self.now) }
    {
        let value = match &self.value {
            Some(value) => Some(value.copy(alloc)?),
            None => None,
        };
        Ok(NominatedValue {
            name: self.name.copy(alloc)?,
            value,
        })
    }
}

pub(crate) fn slice_of_value(value: &Option<Bytes>) -> Option<&[u8]>
    ensures { option_copied result ≡ value.now }
{
    match value {
        Some(value) => Some(value.as_slice()),
        None => None,
    }
}

pub(crate) fn is_same_value(a: Option<&[u8]>, b: Option<&[u8]>) -> bool
    ensures { result ≡ is_same_value (option_copied a.entry) (option_copied b.entry) }
{
    match (a, b) {
        (None, None) => true,
        (Some(a), Some(b)) => a == b,
        _ => false,
    }
}
