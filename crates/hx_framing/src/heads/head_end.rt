//! Where the head of a message ends. The definitions are in `specs/HeadEnd.antt` and `specs/Searching.antt`.
ghost use Rattle.std.specs.Prelude.{◌≡◌, ◌≤◌, ◌<◌, ◌+◌, ◌++◌, ℕ, List, length, drop, take, slice_index, IfSome};
ghost use Rattle.hx_framing.specs.HeadEnd.{leading_empty_line_length, empty_lines_end_from, head_end_size_at_front};
ghost use Rattle.hx_framing.specs.HeadEnd.{empty_lines_length};
ghost use Rattle.hx_framing.specs.HeadEnd.{head_end_from, head_length};
ghost use Rattle.hx_framing.specs.Searching.{NoHeadEndsBeforeSearch, IsHeadSearchResult};

use crate::heads::quiet_blocks::end_of_blocks_without_empty_line;
use crate::slices::{bytes_from_index, first_bytes};
use memchr::memchr;

/// A search goes on from here when more bytes come.
#[derive(Clone, Copy)]
pub(crate) struct HeadSearch {
    /// The bytes in front of this index are looked at no more.
    pub(crate) at: usize,
    /// It is behind the empty lines in front of the head.
    pub(crate) is_past_empty_lines: bool,
}

/// What a search finds.
#[derive(Clone, Copy)]
pub(crate) enum HeadSearchResult {
    /// The head takes so many bytes.
    Ended(usize),
    Open(HeadSearch),
}

/// The byte at an index, or 0 past the end.
fn byte_at(bytes: &[u8], i: usize) -> u8
    ensures { result ≡ slice_index bytes.now i }
{
    if i < bytes.len() { bytes[i] } else { 0 }
}

fn leading_empty_line_length(bytes: &[u8]) -> usize
    ensures size { result ≡ leading_empty_line_length bytes.now }
    ensures within { result ≤ length bytes.now }
{
    if byte_at(bytes, 0) == b'\n' {
        1
    } else if byte_at(bytes, 0) == b'\r' && byte_at(bytes, 1) == b'\n' {
        2
    } else {
        0
    }
}

fn head_end_size_at_front(bytes: &[u8]) -> usize
    ensures size { result ≡ head_end_size_at_front bytes.now }
    ensures within { result ≤ length bytes.now }
{
    if byte_at(bytes, 0) != b'\n' {
        0
    } else if byte_at(bytes, 1) == b'\n' {
        2
    } else if byte_at(bytes, 1) == b'\r' && byte_at(bytes, 2) == b'\n' {
        3
    } else {
        0
    }
}

/// Where the empty lines end, from an index on.
fn empty_lines_end_from(bytes: &[u8], from: usize) -> usize
    requires { from ≤ length bytes.now }
    ensures size { result ≡ empty_lines_end_from from (drop from bytes.now) }
    ensures within { result ≤ length bytes.now }
{
    let mut at = from;
    while leading_empty_line_length(bytes_from_index(bytes, at)) > 0 {
        at += leading_empty_line_length(bytes_from_index(bytes, at));
    }
    at
}

/// How many bytes the empty lines in front take.
pub(crate) fn empty_lines_length(bytes: &[u8]) -> usize
    ensures size { result ≡ empty_lines_length bytes.now }
    ensures within { result ≤ length bytes.now }
{
    empty_lines_end_from(bytes, 0)
}

/// Where the first empty line from an index on ends. Behind blocks without one the search goes from LF to LF.
fn head_end_from(bytes: &[u8], from: usize) -> Option<usize>
    requires { from ≤ length bytes.now }
    ensures place { result ≡ head_end_from from (drop from bytes.now) }
    ensures within { IfSome result (λ end. end ≤ length bytes.now) }
    ensures some { IfSome result (λ end. 0 < end) }
{
    let mut at = end_of_blocks_without_empty_line(bytes, from);
    while let Some(skipped) = memchr(b'\n', bytes_from_index(bytes, at)) {
        at += skipped;
        let empty = head_end_size_at_front(bytes_from_index(bytes, at));
        if empty > 0 {
            return Some(at + empty);
        }
        at += 1;
    }
    None
}

/// Searches the lines of a head from an index on, in front of which none is empty.
fn search_lines(bytes: &[u8], from: usize) -> HeadSearchResult
    requires room { from + 2 ≤ length bytes.now }
    requires lines { (more : List ℕ) → head_length (bytes.now ++ more)
        ≡ head_end_from from (drop from (bytes.now ++ more)) }
    ensures { IsHeadSearchResult bytes.now result }
{
    match head_end_from(bytes, from) {
        Some(end) => HeadSearchResult::Ended(end),
        // An empty line takes three bytes at most with the line end in front of it.
        None => HeadSearchResult::Open(HeadSearch {
            at: bytes.len() - 2,
            is_past_empty_lines: true,
        }),
    }
}

/// Goes on with a search for the end of a head.
pub(crate) fn search_head_end(bytes: &[u8], search: HeadSearch) -> HeadSearchResult
    requires { NoHeadEndsBeforeSearch bytes.now search }
    ensures { IsHeadSearchResult bytes.now result }
{
    if search.is_past_empty_lines {
        return search_lines(bytes, search.at);
    }
    let first_line = empty_lines_end_from(bytes, search.at);
    if bytes.len() - first_line < 2 {
        return HeadSearchResult::Open(HeadSearch {
            at: first_line,
            is_past_empty_lines: false,
        });
    }
    search_lines(bytes, first_line)
}

/// How many bytes a head takes.
fn head_length(bytes: &[u8]) -> Option<usize>
    ensures size { result ≡ head_length bytes.now }
    ensures within { IfSome result (λ end. end ≤ length bytes.now) }
    ensures some { IfSome result (λ end. 0 < end) }
{
    head_end_from(bytes, empty_lines_length(bytes))
}

/// How many bytes a head takes, if it ends within the limit.
pub(crate) fn head_length_within(bytes: &[u8], limit: usize) -> Option<usize>
    ensures size { result ≡ head_length (take limit bytes.now) }
    ensures within { IfSome result (λ end. end ≤ length bytes.now) }
    ensures some { IfSome result (λ end. 0 < end) }
{
    head_length(first_bytes(bytes, limit))
}
