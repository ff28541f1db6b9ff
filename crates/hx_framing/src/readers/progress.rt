//! What a reader finds in its unread bytes, and where in its stream it is then.

use crate::contents::content::Content;
use crate::frame_fault::FrameFault;

/// The bytes of a stream that no message has taken, and what they are read by.
#[derive(Clone, Copy)]
pub struct UnreadStreamBytes<'a> {
    /// Bytes of content that a message may have.
    pub(crate) max_body: u64,
    /// No more bytes come.
    pub(crate) ended: bool,
    pub(crate) bytes: &'a [u8],
}

/// How far a message has come in unread bytes, from its head on: what is due, and how many of them
/// it takes. H is a head, M a message.
#[derive(Drop)]
pub enum MessageProgress<H, M> {
    /// Nothing yet; so many bytes of interim responses stand in front.
    Incomplete(usize),
    /// A continue is due, before the content.
    NeedsContinue(H, Content, usize),
    /// A head, and a content that goes on.
    InContent(H, Content, usize),
    Message(M, usize),
    Faulty(FrameFault),
    /// The stream has ended before a head.
    Ended,
}

/// Where a reader is in its stream. H is a head.
#[derive(Drop)]
pub enum ReaderPhase<H> {
    /// Before a head, or in it.
    BeforeHead,
    /// Behind a head, in its content. Its continue was given, if it wants one.
    InContent(H, Content),
    /// Behind the only message.
    Given,
    Faulty(FrameFault),
}
