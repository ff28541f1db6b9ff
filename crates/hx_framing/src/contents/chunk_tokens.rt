//! The tokens of content in chunks: a size line, a run of data, the CRLF behind data, a trailer line.
//!
//! `specs/ChunkTokens.antt` says what it means to take one. Nothing here takes memory.
ghost use Rattle.std.specs.Prelude.{◌≡◌, ◌≤◌, ◌<◌, ◌+◌, ◌-◌, ℕ, List, true, cond, nat_lt, length, take, vec_len};
ghost use Rattle.std.specs.Prelude.{vec_capacity, IfSome, IfNone};
ghost use Rattle.hx_framing.specs.declared.contents.chunk_tokens.ChunkPhase.TheVariants as phase;
ghost use Rattle.hx_framing.specs.declared.contents.chunk_tokens.ChunkToken.TheVariants as token;
ghost use Rattle.hx_framing.specs.declared.frame_fault.FrameFault.TheVariants as fault;
ghost use Rattle.hx_framing.specs.ChunkGrammar.{has_no_lf};
ghost use Rattle.hx_framing.specs.ChunkDecoder.{DataPhaseNeedsBytes, chunk_decoder_with_empty_line};
ghost use Rattle.hx_framing.specs.Decoding.{ChunksAreDecoded};
ghost use Rattle.hx_framing.specs.ChunkTokens.{ChunkTokenIsTaken, IsIndexOfFirstLineFeed, bytes_taken_by_chunk_token};

use crate::contents::size_line::{chunk_size_of_line, ends_in_cr};
use crate::frame_fault::FrameFault;
use crate::limits::{MOST_CHUNK_SIZE_LINE_BYTES, MOST_TRAILER_BYTES};
use crate::slices::bytes_from_index;

/// What comes next.
#[derive(Clone, Copy)]
pub(crate) enum ChunkPhase {
    /// A size line.
    Size,
    /// Data of a chunk, at least one byte.
    Data,
    /// The CRLF behind the data.
    DataEnd,
    /// A trailer line, or the empty line behind the trailers.
    Trailers,
}

/// What comes next, and what the limits leave.
#[derive(Clone, Copy)]
pub(crate) struct ChunkState {
    pub(crate) phase: ChunkPhase,
    /// Bytes of data that are still to come of this chunk.
    pub(crate) need: u64,
    /// Bytes of content that later chunks may have.
    pub(crate) left: u64,
    /// Bytes of the trailer lines that were taken.
    pub(crate) used: usize,
}

/// What stands at the front of the bytes: a size line, a run of data, the CRLF behind data, or a trailer line.
#[derive(Clone, Copy)]
pub(crate) enum ChunkToken {
    /// Nothing, or a part of a token.
    Incomplete,
    /// A token of so many bytes, and the state behind it.
    Whole(usize, ChunkState),
    /// The last token, of so many bytes.
    Last(usize),
    Faulty(FrameFault),
}

/// How far a content has come with the bytes that were given: how many of them were taken.
#[derive(Clone, Copy)]
pub(crate) enum ChunkProgress {
    /// More are needed. What wasn't taken has to stand at the front of what is given next.
    Incomplete(usize),
    /// They end the content.
    Whole(usize),
    /// They spell no content in chunks, whatever follows.
    Faulty(FrameFault),
}

/// Where the first LF stands, if it is one of so many bytes. None stands in front of `from`.
fn line_feed_within(bytes: &[u8], from: usize, limit: usize) -> Option<usize>
    requires within { from ≤ length bytes.now }
    requires none { has_no_lf (take from bytes.now) ≡ true }
    ensures found { IfSome result (IsIndexOfFirstLineFeed bytes.now limit) }
    ensures none { IfNone result (has_no_lf (take limit bytes.now) ≡ true) }
{
    for at in from..bytes.len() {
        if at >= limit {
            return None;
        }
        if bytes[at] == b'\n' {
            return Some(at);
        }
    }
    None
}

/// A line with no LF within the limit.
fn open_line(bytes: &[u8], limit: usize) -> ChunkToken
    ensures { result ≡ cond (nat_lt limit (length bytes.now)) (token.Faulty fault.Chunk) token.Incomplete }
{
    if limit < bytes.len() {
        ChunkToken::Faulty(FrameFault::Chunk)
    } else {
        ChunkToken::Incomplete
    }
}

fn size_token(place: ChunkState, bytes: &[u8], searched: usize) -> ChunkToken
    requires phase { place.phase ≡ phase.Size }
    requires within { searched ≤ length bytes.now }
    requires none { has_no_lf (take searched bytes.now) ≡ true }
    ensures { (content : List ℕ) → ChunkTokenIsTaken place content bytes.now content result }
{
    let Some(at) = line_feed_within(bytes, searched, MOST_CHUNK_SIZE_LINE_BYTES) else {
        return open_line(bytes, MOST_CHUNK_SIZE_LINE_BYTES);
    };
    let (line, _) = bytes.split_at(at);
    match chunk_size_of_line(line, place.left) {
        Err(fault) => ChunkToken::Faulty(fault),
        Ok(0) => ChunkToken::Whole(
            at + 1,
            ChunkState {
                phase: ChunkPhase::Trailers,
                ..place
            },
        ),
        Ok(size) => ChunkToken::Whole(
            at + 1,
            ChunkState {
                phase: ChunkPhase::Data,
                need: size,
                left: place.left - size,
                ..place
            },
        ),
    }
}

fn data_token(place: ChunkState, content: &mut Vec<u8>, bytes: &[u8]) -> ChunkToken
    requires phase { place.phase ≡ phase.Data }
    requires need { 0 < place.need }
    requires room { vec_len content.now + length bytes.now ≤ vec_capacity content.now }
    ensures takes { ChunkTokenIsTaken place content.old.items bytes.now content.new.items result }
    ensures room { vec_len content.new +
        (length bytes.now - bytes_taken_by_chunk_token result) ≤ vec_capacity content.new }
{
    if bytes.is_empty() {
        return ChunkToken::Incomplete;
    }
    let taken = place.need.min(bytes.len() as u64);
    let (run, _) = bytes.split_at(taken as usize);
    let Ok(()) = content.extend_from_slice(run) else {
        unreachable!()
    };
    let need = place.need - taken;
    let phase = if need > 0 {
        ChunkPhase::Data
    } else {
        ChunkPhase::DataEnd
    };
    ChunkToken::Whole(
        taken as usize,
        ChunkState {
            phase,
            need,
            ..place
        },
    )
}

/// The CRLF behind data.
fn data_end_token(place: ChunkState, bytes: &[u8]) -> ChunkToken
    requires { place.phase ≡ phase.DataEnd }
    ensures { (content : List ℕ) → ChunkTokenIsTaken place content bytes.now content result }
{
    match bytes {
        [] | [b'\r'] => ChunkToken::Incomplete,
        [b'\r', b'\n', ..] => ChunkToken::Whole(
            2,
            ChunkState {
                phase: ChunkPhase::Size,
                ..place
            },
        ),
        _ => ChunkToken::Faulty(FrameFault::Chunk),
    }
}

/// A trailer line, or the empty line behind the trailers.
fn trailer_token(place: ChunkState, bytes: &[u8], searched: usize) -> ChunkToken
    requires phase { place.phase ≡ phase.Trailers }
    requires within { searched ≤ length bytes.now }
    requires none { has_no_lf (take searched bytes.now) ≡ true }
    ensures { (content : List ℕ) → ChunkTokenIsTaken place content bytes.now content result }
{
    let limit = MOST_TRAILER_BYTES.saturating_sub(place.used);
    let Some(at) = line_feed_within(bytes, searched, limit) else {
        return open_line(bytes, limit);
    };
    let (line, _) = bytes.split_at(at);
    if !ends_in_cr(line) {
        ChunkToken::Faulty(FrameFault::Chunk)
    } else if line.len() == 1 {
        ChunkToken::Last(at + 1)
    } else {
        ChunkToken::Whole(
            at + 1,
            ChunkState {
                used: place.used + at + 1,
                ..place
            },
        )
    }
}

/// The token at the front of the bytes, for whose data there is room. No LF stands in the first `searched` of them.
fn next_token(place: ChunkState, content: &mut Vec<u8>, bytes: &[u8], searched: usize) -> ChunkToken
    requires need { DataPhaseNeedsBytes place.phase place.need }
    requires within { searched ≤ length bytes.now }
    requires none { has_no_lf (take searched bytes.now) ≡ true }
    requires room { vec_len content.now + length bytes.now ≤ vec_capacity content.now }
    ensures takes { ChunkTokenIsTaken place content.old.items bytes.now content.new.items result }
    ensures room { vec_len content.new +
        (length bytes.now - bytes_taken_by_chunk_token result) ≤ vec_capacity content.new }
{
    match place.phase {
        ChunkPhase::Size => size_token(place, bytes, searched),
        ChunkPhase::Data => data_token(place, content, bytes),
        ChunkPhase::DataEnd => data_end_token(place, bytes),
        ChunkPhase::Trailers => trailer_token(place, bytes, searched),
    }
}

/// Takes the whole tokens at the front of the bytes, for whose data there is room. No LF stands in the first
/// `searched` of them.
pub(crate) fn take_chunk_tokens(
    place: &mut ChunkState,
    content: &mut Vec<u8>,
    bytes: &[u8],
    searched: usize,
) -> ChunkProgress
    requires need { DataPhaseNeedsBytes place.now.phase place.now.need }
    requires within { searched ≤ length bytes.now }
    requires none { has_no_lf (take searched bytes.now) ≡ true }
    requires room { vec_len content.now + length bytes.now ≤ vec_capacity content.now }
    ensures decodes { ChunksAreDecoded (chunk_decoder_with_empty_line place.old content.old.items) bytes.now
        (chunk_decoder_with_empty_line place.new content.new.items) result }
    ensures need { DataPhaseNeedsBytes place.new.phase place.new.need }
{
    let mut taken = 0;
    let mut searched = searched;
    loop {
        match next_token(*place, content, bytes_from_index(bytes, taken), searched) {
            ChunkToken::Incomplete => return ChunkProgress::Incomplete(taken),
            ChunkToken::Whole(n, next) => {
                taken += n;
                searched = 0;
                *place = next;
            }
            ChunkToken::Last(n) => return ChunkProgress::Whole(taken + n),
            ChunkToken::Faulty(fault) => return ChunkProgress::Faulty(fault),
        }
    }
}
