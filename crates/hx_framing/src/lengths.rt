//! How long a content is, by the fields of its head.

pub(crate) mod content_length;
pub(crate) mod framing;
