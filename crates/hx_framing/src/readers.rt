//! Readers of streams of messages, and what they keep.

pub(crate) mod message_head;
pub(crate) mod message_reader;
pub(crate) mod progress;
pub(crate) mod request_reading;
pub(crate) mod response_reading;
pub(crate) mod unread;
