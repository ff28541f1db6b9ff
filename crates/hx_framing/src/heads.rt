//! Heads of messages: where one ends, its parts, and the fault of bytes that are none.

pub(crate) mod head_end;
pub(crate) mod head_fields;
pub(crate) mod judging;
pub(crate) mod quiet_blocks;
pub(crate) mod request_head;
pub(crate) mod status_head;
pub(crate) mod version;
