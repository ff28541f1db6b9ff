//! A request as every later rule sees it.
ghost use Rattle.std.specs.Prelude.{◌≡◌, IfOk, codes};
ghost use Rattle.std.specs.Option.{option_copied};
ghost use Rattle.hx_hop.specs.Bypass.{request_has_content, asks_for_range, has_precondition_for_origin};

use http::Method;
use hx_fields::{Bytes, Fields};
use hx_target::Target;
use std::alloc::{AllocError, Global};

/// A request as every later rule sees it: its target read, without the fields of its connection and the
/// Host field.
pub struct Asked {
    /// Methods compare with their case (RFC 9110, section 9.1).
    pub method: Method,
    /// 0 or 1, of HTTP/1.0 or HTTP/1.1.
    pub minor: u8,
    /// What is asked for.
    pub target: Target,
    /// The lines that go on, in order.
    pub fields: Fields,
    /// None where the head announced no content.
    pub content: Option<Bytes>,
    /// Whether the client's connection closes after the answer.
    pub close: bool,
}

/// One call drops it, wherever that is, so the cases of its method stand in one proof alone.
impl Drop for Asked {
    fn drop(self) {
        let Asked {
            method: _,
            minor: _,
            target: _,
            fields: _,
            content: _,
            close: _,
        } = self;
    }
}

/// A copy of a content.
pub(crate) fn copy_content(
    alloc: Global,
    content: Option<&Bytes>,
) -> Result<Option<Bytes>, AllocError>
    ensures { IfOk result (λ copied. copied ≡ option_copied content.entry) }
{
    match content {
        Some(content) => Ok(Some(content.copy(alloc)?)),
        None => Ok(None),
    }
}

impl Asked {
    /// A request of the same values. Its only error is out of memory.
    pub fn copy(&self, alloc: Global) -> Result<Asked, AllocError>
        ensures { IfOk result (λ asked. asked ≡ self.now) }
    {
        Ok(Asked {
            method: self.method.clone()?,
            minor: self.minor,
            target: self.target.copy(alloc)?,
            fields: self.fields.copy(alloc)?,
            content: copy_content(alloc, self.content.as_ref())?,
            close: self.close,
        })
    }

    /// Whether the content has a byte at least.
    pub fn has_content(&self) -> bool
        ensures { result ≡ request_has_content self.now }
    {
        match &self.content {
            Some(content) => !content.is_empty(),
            None => false,
        }
    }

    /// Whether a range of the representation is asked for (RFC 9110, sections 13.1.5 and 14.2).
    pub fn asks_for_range(&self) -> bool
        ensures { result ≡ asks_for_range self.now }
    {
        self.fields.has(b"Range") || self.fields.has(b"If-Range")
    }

    /// Whether a precondition stands that only the origin can judge (RFC 9110, sections 13.1.1 and 13.1.4).
    pub fn has_precondition_for_origin(&self) -> bool
        ensures { result ≡ has_precondition_for_origin self.now }
    {
        self.fields.has(b"If-Match") || self.fields.has(b"If-Unmodified-Since")
    }
}
