//! A decoder of content in chunks (RFC 9112, section 7.1), which goes on where it stood.
//!
//! What bytes spell is said in `specs/ChunkGrammar.antt`, and where a fault is judged in `specs/Chunks.antt`.
//! Whole tokens are taken: a size line, a run of data, a CRLF, a trailer line. A part of a line or of a CRLF isn't kept
//! here; it stays with the caller.
ghost use Rattle.std.specs.Prelude.{◌≡◌, ◌≤◌, IfOk, OnErr, true, length, take};

use crate::contents::chunk_tokens::{ChunkPhase, ChunkProgress, ChunkState, take_chunk_tokens};
use hx_fields::Bytes;
use std::alloc::{AllocError, Global};
use std::marker::Model;
use std::mem;

/// How far the content has come.
#[derive(Drop)]
pub struct Chunks {
    place: ChunkState,
    content: Vec<u8>,
}

impl Model for Chunks {
    ghost use Rattle.hx_framing.specs.ChunkDecoder.{ChunkDecoder, DataPhaseNeedsBytes, chunk_decoder_with_empty_line};

    ghost Value = { ChunkDecoder };

    ghost view = { λ s. chunk_decoder_with_empty_line s.place s.content.items };

    ghost invariant = { λ s. DataPhaseNeedsBytes s.place.phase s.place.need };
}

impl Chunks {
    ghost use Rattle.hx_framing.specs.Chunks.{decoder_at_start};
    ghost use Rattle.hx_framing.specs.ChunkGrammar.{has_no_lf};
    ghost use Rattle.hx_framing.specs.Decoding.{ChunksAreDecoded};

    /// Before the first chunk of a content of at most `max_body` bytes.
    pub(crate) fn start(alloc: Global, max_body: u64) -> Chunks
        ensures { result ≡ decoder_at_start max_body }
    {
        Chunks {
            place: ChunkState {
                phase: ChunkPhase::Size,
                need: 0,
                left: max_body,
                used: 0,
            },
            content: Vec::new(alloc),
        }
    }

    /// Takes the whole tokens at the front of the bytes. No LF stands in the first `searched` of them. An `Err`
    /// changes nothing.
    pub(crate) fn decode(
        &mut self,
        bytes: &[u8],
        searched: usize,
    ) -> Result<ChunkProgress, AllocError>
        requires within { searched ≤ length bytes.now }
        requires none { has_no_lf (take searched bytes.now) ≡ true }
        ensures decodes { IfOk result (ChunksAreDecoded self.old bytes.now self.new) }
        ensures err { OnErr result (self.new ≡ self.old) }
    {
        self.content.reserve(bytes.len())?;
        Ok(take_chunk_tokens(&mut self.place, &mut self.content, bytes, searched))
    }

    /// The data so far, which its copies share where they are many.
    pub(crate) fn take_content(&mut self, alloc: Global) -> Bytes
        ensures { result ≡ self.old.content }
    {
        Bytes::shared_from_vec(alloc, mem::replace(&mut self.content, Vec::new(alloc)))
    }
}
