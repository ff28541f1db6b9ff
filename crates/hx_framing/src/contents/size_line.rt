//! Size lines of chunks (RFC 9112, section 7.1). The definitions are in `specs/SizeLine.antt`.
ghost use Rattle.std.specs.Prelude.{◌≡◌, ◌≤◌, length};
ghost use Rattle.std.specs.List.{list_all};
ghost use Rattle.std.specs.Str.Parse.{digits_value};
ghost use Rattle.hx_framing.specs.SizeLine.{begins_with_chunk_extension, is_chunk_extension_byte, is_chunk_extension};
ghost use Rattle.hx_framing.specs.SizeLine.{leading_hex_digit_count, is_chunk_size_text};
ghost use Rattle.hx_framing.specs.SizeLine.{ends_in_cr};
ghost use Rattle.hx_framing.specs.SizeLine.{without_last_byte, number_if_at_most, chunk_size_of_line};

use crate::frame_fault::FrameFault;
use crate::limits::{MOST_CHUNK_EXTENSION_BYTES, MOST_CHUNK_SIZE_DIGITS};
use hx_fields::digits_value_if_at_most;

fn is_chunk_extension_byte(b: u8) -> bool
    ensures { result ≡ is_chunk_extension_byte b }
{
    (b == b'\t' || b >= b' ') && b != 127
}

fn are_line_bytes(text: &[u8]) -> bool
    ensures { result ≡ list_all is_chunk_extension_byte text.now }
{
    text.iter().all(|b| is_chunk_extension_byte(*b))
}

fn begins_with_chunk_extension(text: &[u8]) -> bool
    ensures { result ≡ begins_with_chunk_extension text.now }
{
    for b in text {
        if *b != b' ' && *b != b'\t' {
            return *b == b';';
        }
    }
    true
}

fn is_chunk_extension(text: &[u8]) -> bool
    ensures { result ≡ is_chunk_extension text.now }
{
    text.len() <= MOST_CHUNK_EXTENSION_BYTES
        && are_line_bytes(text)
        && begins_with_chunk_extension(text)
}

/// How many hexadecimal digits stand at the front.
fn leading_hex_digit_count(text: &[u8]) -> usize
    ensures value { result ≡ leading_hex_digit_count text.now }
    ensures within { result ≤ length text.now }
{
    for (i, b) in text.iter().enumerate() {
        if !b.is_ascii_hexdigit() {
            return i;
        }
    }
    text.len()
}

fn is_chunk_size_text(text: &[u8]) -> bool
    ensures { result ≡ is_chunk_size_text text.now }
{
    let digits = leading_hex_digit_count(text);
    let (_, extension) = text.split_at(digits);
    digits > 0 && digits <= MOST_CHUNK_SIZE_DIGITS && is_chunk_extension(extension)
}

/// Whether the last byte is CR.
pub(crate) fn ends_in_cr(line: &[u8]) -> bool
    ensures { result ≡ ends_in_cr line.now }
{
    match line {
        [.., last] => *last == b'\r',
        [] => false,
    }
}

fn without_last_byte(line: &[u8]) -> &[u8]
    ensures { result.now ≡ without_last_byte line.now }
{
    match line {
        [front @ .., _] => front,
        [] => line,
    }
}

/// The size that a line without its LF spells, or its fault, where `left` bytes of content may still come.
pub(crate) fn chunk_size_of_line(line: &[u8], left: u64) -> Result<u64, FrameFault>
    ensures { result ≡ chunk_size_of_line line.now left }
{
    let text = without_last_byte(line);
    if !ends_in_cr(line) || !is_chunk_size_text(text) {
        return Err(FrameFault::Chunk);
    }
    let (digits, _) = text.split_at(leading_hex_digit_count(text));
    digits_value_if_at_most(left, 16, digits).ok_or(FrameFault::TooLarge)
}
