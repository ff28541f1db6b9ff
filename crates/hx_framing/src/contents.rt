//! Contents of messages, taken as they come: as they are, or in chunks.

pub(crate) mod chunk_tokens;
pub(crate) mod chunks;
pub(crate) mod content;
pub(crate) mod plain;
pub(crate) mod size_line;
