//! Parts of byte slices.
ghost use Rattle.std.specs.Prelude.{◌≡◌, ◌==◌, ◌≤◌, length, drop, take};
ghost use Rattle.std.specs.List.{position_or_len, before_first};

use memchr::memchr;

/// The bytes from an index on.
pub(crate) fn bytes_from_index(bytes: &[u8], at: usize) -> &[u8]
    requires { at ≤ length bytes.now }
    ensures { result.now ≡ drop at bytes.now }
{
    &bytes[at..]
}

/// The first bytes, at most so many.
pub(crate) fn first_bytes(bytes: &[u8], limit: usize) -> &[u8]
    ensures value { result.now ≡ take limit bytes.now }
    ensures len { length result.now ≤ length bytes.now }
{
    if limit < bytes.len() {
        &bytes[..limit]
    } else {
        bytes
    }
}

/// Where a byte stands first, or the length.
fn index_of_byte(text: &[u8], byte: u8) -> usize
    ensures place { result ≡ position_or_len (λ b. b == byte) text.now }
    ensures within { result ≤ length text.now }
{
    match memchr(byte, text) {
        Some(at) => at,
        None => text.len(),
    }
}

/// What stands before a byte, or all where it doesn't stand.
pub(crate) fn text_before_byte(text: &[u8], byte: u8) -> &[u8]
    ensures { result.now ≡ before_first (λ b. b == byte) text.now }
{
    first_bytes(text, index_of_byte(text, byte))
}
