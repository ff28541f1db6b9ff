//! Names of fields, as an operator gives them.

ghost use Rattle.std.specs.Prelude.{◌≡◌, [], IfOk};

use hx_fields::Bytes;
use std::alloc::{AllocError, Global};
use std::marker::Model;

/// Names of fields, in order.
#[derive(Debug, Drop)]
pub struct FieldNames {
    names: Vec<Bytes>,
}

impl Model for FieldNames {
    ghost use Rattle.std.specs.Prelude.{ℕ, List};

    ghost Value = { List (List ℕ) };

    ghost view = { λ n. n.names.items };
}

impl FieldNames {
    /// No names. No memory is taken.
    pub fn new(alloc: Global) -> FieldNames
        ensures { result ≡ [] }
    {
        FieldNames {
            names: Vec::new(alloc),
        }
    }

    /// A copy of these names. Fails only where memory runs out.
    pub fn copy_of(alloc: Global, names: &[Bytes]) -> Result<FieldNames, AllocError>
        ensures { IfOk result (λ copied. copied ≡ names.now) }
    {
        let mut copied = Vec::with_capacity(alloc, names.len())?;
        for name in names {
            copied.push(name.copy(alloc)?)?;
        }
        Ok(FieldNames { names: copied })
    }

    /// The names, in order.
    pub fn as_slice(&self) -> &[Bytes]
        ensures { result.now ≡ self.now }
    {
        self.names.as_slice()
    }
}
