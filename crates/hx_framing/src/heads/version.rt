//! Start lines that name another version of HTTP. The definitions are in `specs/Version.antt`.
ghost use Rattle.std.specs.Prelude.{◌≡◌};
ghost use Rattle.hx_framing.specs.Version.{start_line, without_trailing_cr, is_unsupported_version};
ghost use Rattle.hx_framing.specs.Version.{ends_with_unsupported_version};
ghost use Rattle.hx_framing.specs.Version.{begins_with_unsupported_version};

use crate::heads::head_end::empty_lines_length;
use crate::slices::{bytes_from_index, first_bytes, text_before_byte};

/// The start line of a head, without its LF.
fn start_line(bytes: &[u8]) -> &[u8]
    ensures { result.now ≡ start_line bytes.now }
{
    text_before_byte(bytes_from_index(bytes, empty_lines_length(bytes)), b'\n')
}

fn without_trailing_cr(line: &[u8]) -> &[u8]
    ensures { result.now ≡ without_trailing_cr line.now }
{
    match line {
        [front @ .., b'\r'] => front,
        _ => line,
    }
}

fn is_unsupported_version(text: &[u8]) -> bool
    ensures { result ≡ is_unsupported_version text.now }
{
    if text.len() != 8 || !text.starts_with(b"HTTP/") {
        return false;
    }
    let (major, dot, minor) = (text[5], text[6], text[7]);
    major.is_ascii_digit()
        && dot == b'.'
        && minor.is_ascii_digit()
        && !(major == b'1' && minor < b'2')
}

/// Whether a request line, without its line end, ends with another version.
fn ends_with_unsupported_version(line: &[u8]) -> bool
    ensures { result ≡ ends_with_unsupported_version line.now }
{
    is_unsupported_version(bytes_from_index(line, line.len().saturating_sub(8)))
}

/// Whether the request line of a head ends with another version.
pub(crate) fn request_has_unsupported_version(bytes: &[u8]) -> bool
    ensures { result ≡ ends_with_unsupported_version (without_trailing_cr (start_line bytes.now)) }
{
    ends_with_unsupported_version(without_trailing_cr(start_line(bytes)))
}

/// Whether the status line of a head begins with another version.
pub(crate) fn response_has_unsupported_version(bytes: &[u8]) -> bool
    ensures { result ≡ begins_with_unsupported_version (start_line bytes.now) }
{
    is_unsupported_version(first_bytes(start_line(bytes), 8))
}
