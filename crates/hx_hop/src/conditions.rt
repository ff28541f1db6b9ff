//! The conditions that the proxy sends.
use hx_fields::Bytes;

/// The validators that the proxy sends as the conditions of a request of its own (RFC 9110, sections 13.1.2
/// and 13.1.3).
pub struct Conditions {
    /// The value of If-None-Match, an entity tag.
    pub etag: Option<Bytes>,
    /// The value of If-Modified-Since, a date.
    pub modified: Option<Bytes>,
}

/// One call drops it, wherever that is.
impl Drop for Conditions {
    fn drop(self) {
        let Conditions {
            etag: _,
            modified: _,
        } = self;
    }
}
