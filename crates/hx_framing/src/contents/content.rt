//! Contents of messages as they come (RFC 9112, section 6). The definitions are in `specs/Contents.antt`.
ghost use Rattle.std.specs.Prelude.{◌≡◌, ◌≤◌, IfOk, OnErr, Bool, true, length, take};
ghost use Rattle.hx_framing.specs.declared.contents.content.Content.TheVariants as content;
ghost use Rattle.hx_framing.specs.ChunkGrammar.{has_no_lf};
ghost use Rattle.hx_framing.specs.Contents.{content_before_first_byte, ContentAdvances};
ghost use Rattle.hx_framing.specs.ContentReading.{ContentIsReadFurther, bytes_behind_content};

use crate::contents::chunk_tokens::ChunkProgress;
use crate::contents::chunks::Chunks;
use crate::contents::plain::UnchunkedContentBuffer;
use crate::frame_fault::FrameFault;
use crate::lengths::framing::Framing;
use hx_fields::Bytes;
use std::alloc::{AllocError, Global};

/// How far a content has come with the bytes that were given.
#[derive(Drop)]
pub(crate) enum ContentProgress {
    /// It goes on behind so many bytes.
    Incomplete(usize),
    Faulty(FrameFault),
    /// It ends behind so many bytes.
    Whole(Option<Bytes>, usize),
}

/// A content that was begun. Its bytes are taken as they come, and each once.
pub enum Content {
    Nothing,
    /// As many bytes as were announced.
    Announced(UnchunkedContentBuffer),
    Chunked(Chunks),
    /// All until the stream's end, within a limit.
    UntilClose(UnchunkedContentBuffer),
}

/// One call drops it, wherever that is, so its cases stand in one proof alone.
impl Drop for Content {
    fn drop(self) {
        match self {
            Content::Nothing => {}
            Content::Announced(_) => {}
            Content::Chunked(_) => {}
            Content::UntilClose(_) => {}
        }
    }
}

impl Content {
    /// A content of which nothing was taken.
    pub(crate) fn begun(alloc: Global, max_body: u64, framing: Framing) -> Content
        ensures { result ≡ content_before_first_byte max_body framing }
    {
        match framing {
            Framing::Nothing => Content::Nothing,
            Framing::Announced(n) => Content::Announced(UnchunkedContentBuffer::start(alloc, n)),
            Framing::Chunked => Content::Chunked(Chunks::start(alloc, max_body)),
            Framing::UntilClose => Content::UntilClose(UnchunkedContentBuffer::start(
                alloc, max_body,
            )),
        }
    }

    /// Goes on with the bytes that are there; `ended` says that no more come. No LF stands in the first `searched` of
    /// them. An `Err` changes nothing.
    fn advance(
        &mut self,
        alloc: Global,
        ended: bool,
        bytes: &[u8],
        searched: usize,
    ) -> Result<ContentProgress, AllocError>
        requires within { searched ≤ length bytes.now }
        requires none { has_no_lf (take searched bytes.now) ≡ true }
        ensures ok { IfOk result (λ progress. ContentAdvances ended bytes.now self.old progress self.new) }
        ensures err { OnErr result (self.new ≡ self.old) }
    {
        match self {
            Content::Nothing => Ok(ContentProgress::Whole(None, 0)),
            Content::Announced(plain) => plain.add_announced_bytes(alloc, bytes),
            Content::Chunked(chunks) => decode_chunks(chunks, alloc, bytes, searched),
            Content::UntilClose(plain) => plain.take_until_close(alloc, ended, bytes),
        }
    }

    /// Goes on with the bytes that are there; `closed` says that they end a content until the
    /// close, `ended` that no more come, so that a content that goes on is cut off. No LF stands in
    /// the first `searched` of them. An `Err` changes nothing.
    pub(crate) fn read(
        &mut self,
        alloc: Global,
        ended: bool,
        closed: bool,
        bytes: &[u8],
        searched: usize,
    ) -> Result<ContentProgress, AllocError>
        requires within { searched ≤ length bytes.now }
        requires none { has_no_lf (take searched bytes.now) ≡ true }
        ensures reads { IfOk result (λ progress.
            ContentIsReadFurther ended closed bytes.now self.old progress self.new
            (bytes_behind_content progress bytes.now)) }
        ensures err { OnErr result (self.new ≡ self.old) }
    {
        match self.advance(alloc, closed, bytes, searched)? {
            ContentProgress::Incomplete(_) if ended => {
                Ok(ContentProgress::Faulty(FrameFault::Truncated))
            }
            progress => Ok(progress),
        }
    }
}

/// A content in chunks. What was decoded is taken.
fn decode_chunks(
    chunks: &mut Chunks,
    alloc: Global,
    bytes: &[u8],
    searched: usize,
) -> Result<ContentProgress, AllocError>
    requires within { searched ≤ length bytes.now }
    requires none { has_no_lf (take searched bytes.now) ≡ true }
    ensures ok { IfOk result (λ progress. (ended : Bool)
        → ContentAdvances ended bytes.now (content.Chunked chunks.old) progress (content.Chunked chunks.new)) }
    ensures err { OnErr result (chunks.new ≡ chunks.old) }
{
    match chunks.decode(bytes, searched)? {
        ChunkProgress::Incomplete(n) => Ok(ContentProgress::Incomplete(n)),
        ChunkProgress::Whole(n) => Ok(ContentProgress::Whole(Some(chunks.take_content(alloc)), n)),
        ChunkProgress::Faulty(fault) => Ok(ContentProgress::Faulty(fault)),
    }
}
