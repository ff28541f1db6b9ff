//! Messages as they are read, and what is due on a stream of them.

use crate::frame_fault::FrameFault;
use http::Method;
use hx_fields::{Bytes, Fields};

/// What is due on a stream of messages.
#[derive(Debug, Drop)]
pub enum Next<M> {
    /// Nothing yet: more bytes or the end have to come.
    More,
    /// The client waits for an interim 100 before it sends the content (RFC 9110, section 10.1.1).
    NeedsContinue,
    Message(M),
    /// The stream is at fault, and stays so.
    Refused(FrameFault),
    /// No further message comes.
    End,
}

/// A request without its length fields.
#[derive(Debug)]
pub struct Request {
    pub method: Method,
    /// The request target as it was sent (RFC 9112, section 3.2).
    pub target: Bytes,
    /// 0 or 1, of HTTP/1.0 or HTTP/1.1.
    pub minor: u8,
    pub fields: Fields,
    /// None where the head announced no content.
    pub content: Option<Bytes>,
}

/// One call drops it, wherever that is, so the cases of its method stand in one proof alone.
impl Drop for Request {
    fn drop(self) {
        let Request {
            method: _,
            target: _,
            minor: _,
            fields: _,
            content: _,
        } = self;
    }
}

/// A response without its length fields.
#[derive(Debug)]
pub struct Response {
    /// From 200 to 599.
    pub status: u16,
    pub fields: Fields,
    pub content: Bytes,
    /// The length that an answer to HEAD announced, in bytes.
    pub announced: Option<u64>,
}

/// One call drops it, wherever that is.
impl Drop for Response {
    fn drop(self) {
        let Response {
            status: _,
            fields: _,
            content: _,
            announced: _,
        } = self;
    }
}
