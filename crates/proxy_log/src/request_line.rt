//! The request line of a head that was refused, where the line itself has no fault (RFC 9112, section 3).

ghost use Rattle.std.specs.Prelude.{◌≡◌, ◌==◌};
ghost use Rattle.std.specs.Option.{option_map};
ghost use Rattle.proxy_log.specs.Asked.{first_line, is_target, is_version, parsed_request_line};
ghost use Rattle.proxy_log.specs.Asked.{method_and_target_of_head};

use crate::text_lines::{is_empty_line, split_at_first_lf, without_trailing_cr};
use hx_fields::{is_token, split_at_first_byte};

/// The first line that isn't empty (RFC 9112, section 2.2). It has to be whole.
fn first_line(head: &[u8]) -> Option<&[u8]>
    ensures { option_map (λ line. line.now) result ≡ first_line head.now }
{
    let mut left = head;
    while let Some((line, behind)) = split_at_first_lf(left) {
        if is_empty_line(line) {
            left = behind;
        } else {
            return Some(without_trailing_cr(line));
        }
    }
    None
}

/// Whether it is HTTP-version = HTTP-name "/" DIGIT "." DIGIT (RFC 9112, section 2.3).
fn is_version(text: &[u8]) -> bool
    ensures { result ≡ is_version text.now }
{
    if text.len() != 8 || !text.starts_with(b"HTTP/") {
        return false;
    }
    text[5].is_ascii_digit() && text[6] == b'.' && text[7].is_ascii_digit()
}

/// Whether it has a byte, and none that ends a target: no blank and no control.
fn is_target(text: &[u8]) -> bool
    ensures { result ≡ is_target text.now }
{
    for b in text {
        if *b <= b' ' || *b == 0x7F {
            return false;
        }
    }
    !text.is_empty()
}

/// The method and the target of a line, where they are parted by single spaces from each other and from the version.
fn parsed_request_line(line: &[u8]) -> Option<(&[u8], &[u8])>
    ensures { option_map (λ p. (p.0.now, p.1.now)) result ≡ parsed_request_line line.now }
{
    let (method, rest) = split_at_first_byte(b' ', line)?;
    let (target, version) = split_at_first_byte(b' ', rest)?;
    if is_token(method) && is_target(target) && is_version(version) {
        Some((method, target))
    } else {
        None
    }
}

/// The method and the target of the request line with which a head begins, where that line is whole and has no fault.
pub(crate) fn method_and_target_of_head(head: &[u8]) -> Option<(&[u8], &[u8])>
    ensures { option_map (λ p. (p.0.now, p.1.now)) result ≡ method_and_target_of_head head.now }
{
    parsed_request_line(first_line(head)?)
}
