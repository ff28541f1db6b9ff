//! What a request carries of a held response (RFC 9111, section 4.3.1).
ghost use Rattle.std.specs.Prelude.{◌≡◌, IfOk};
ghost use Rattle.proxy_core.specs.Validating.{condition_to_revalidate_stored, condition_to_revalidate_serial};

use hx_hop::Conditions;
use hx_store::{Entry, Shelf};
use hx_validate::{conditions, has_validator};
use std::alloc::{AllocError, Global};

/// A held response, and its validators as a request carried them (RFC 9111, section 4.3.1).
pub struct Condition {
    pub serial: u64,
    pub sent: Conditions,
}

/// One call drops it, wherever that is.
impl Drop for Condition {
    fn drop(self) {
        let Condition { serial: _, sent: _ } = self;
    }
}

/// What a request carries of a held response, if it has a validator.
fn condition_to_revalidate_stored(
    alloc: Global,
    entry: &Entry,
) -> Result<Option<Condition>, AllocError>
    ensures { IfOk result (λ condition. condition ≡ condition_to_revalidate_stored entry.now) }
{
    if has_validator(&entry.fields) {
        Ok(Some(Condition {
            serial: entry.serial,
            sent: conditions(alloc, entry)?,
        }))
    } else {
        Ok(None)
    }
}

/// What a request carries of the held response that a rule names.
pub(crate) fn condition_to_revalidate_serial<S: Shelf>(
    alloc: Global,
    shelf: &S,
    named: Option<u64>,
) -> Result<Option<Condition>, AllocError>
    ensures { IfOk result (λ condition. condition ≡ condition_to_revalidate_serial (S.entries shelf.now) named) }
{
    match named {
        Some(serial) => match shelf.peek(serial) {
            Some(entry) => condition_to_revalidate_stored(alloc, entry),
            None => Ok(None),
        },
        None => Ok(None),
    }
}
