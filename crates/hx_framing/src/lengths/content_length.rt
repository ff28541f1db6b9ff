//! The length that Content-Length lines tell (RFC 9110, section 8.6). The definitions are in
//! `specs/ContentLength.antt`.
//!
//! No function here takes memory, and each passes its bytes once or twice.
ghost use Rattle.std.specs.Prelude.{◌≡◌, ◌<◌, MatchOption, IfSome, Some, None, true, filter};
ghost use Rattle.std.specs.List.{list_all};
ghost use Rattle.std.specs.Char.{is_ascii_digit};
ghost use Rattle.std.specs.Str.Parse.{digits_value};
ghost use Rattle.hx_fields.specs.FieldLines.{is_named};
ghost use Rattle.hx_framing.specs.ContentLength.{texts_between_commas, is_digits, without_leading_zeros};
ghost use Rattle.hx_framing.specs.ContentLength.{is_text_of_same_number};
ghost use Rattle.hx_framing.specs.ContentLength.{announced_length};
ghost use Rattle.hx_framing.specs.ContentLength.{announced_length_up_to_or_fault, content_length_name};

use crate::frame_fault::FrameFault;
use crate::slices::{bytes_from_index, text_before_byte};
use hx_fields::{Field, Fields, digits_value_if_at_most, is_same_name};

fn all_digits(text: &[u8]) -> bool
    ensures { result ≡ list_all is_ascii_digit text.now }
{
    text.iter().all(|b| b.is_ascii_digit())
}

fn is_digits(text: &[u8]) -> bool
    ensures { result ≡ is_digits text.now }
{
    !text.is_empty() && all_digits(text)
}

/// A number without the zeros in front.
fn without_leading_zeros(text: &[u8]) -> &[u8]
    ensures { result.now ≡ without_leading_zeros text.now }
{
    let mut at = 0;
    while at < text.len() && text[at] == b'0' {
        at += 1;
    }
    bytes_from_index(text, at)
}

/// Whether a text is the number of these digits, of which the first isn't 0.
fn is_text_of_same_number(digits: &[u8], text: &[u8]) -> bool
    ensures { result ≡ is_text_of_same_number digits.now text.now }
{
    is_digits(text) && without_leading_zeros(text) == digits
}

/// Whether each part of a value between commas is the number of these digits.
fn are_all_this_number(digits: &[u8], value: &[u8]) -> bool
    ensures { result ≡ list_all (is_text_of_same_number digits.now) (texts_between_commas value.now) }
{
    value
        .split(|b| *b == b',')
        .all(|piece| is_text_of_same_number(digits, piece))
}

/// Whether each part between commas of each Content-Length line is the number of these digits.
fn are_all_lengths_this_number(digits: &[u8], lines: &[Field]) -> bool
    ensures { result
        ≡ list_all (λ (line : Field). list_all (is_text_of_same_number digits.now) (texts_between_commas line.value))
        (filter (is_named content_length_name) lines.now) }
{
    lines
        .iter()
        .filter(|line| is_same_name(line.name(), b"content-length"))
        .all(|line| are_all_this_number(digits, line.value()))
}

/// The digits of the length that the lines tell, without zeros in front.
fn announced_digits(fields: &Fields) -> Option<&[u8]>
    ensures digits { IfSome result (λ digits. list_all is_ascii_digit digits.now ≡ true) }
    ensures shown { MatchOption result (announced_length fields.now ≡ None)
        (λ digits. announced_length fields.now ≡ Some (digits_value 10 digits.now)) }
{
    let text = text_before_byte(fields.value(b"content-length")?, b',');
    if !is_digits(text) {
        return None;
    }
    let digits = without_leading_zeros(text);
    if are_all_lengths_this_number(digits, fields.as_slice()) {
        Some(digits)
    } else {
        None
    }
}

/// The number of these digits, if it is at most so much.
fn value_up_to(most: u64, digits: &[u8]) -> Result<u64, FrameFault>
    requires { list_all is_ascii_digit digits.now ≡ true }
    ensures { result ≡ announced_length_up_to_or_fault most (Some (digits_value 10 digits.now)) }
{
    digits_value_if_at_most(most, 10, digits).ok_or(FrameFault::TooLarge)
}

/// The length that the lines tell, in bytes, if it is at most so much.
pub(crate) fn announced_length_up_to_or_fault(most: u64, fields: &Fields) -> Result<u64, FrameFault>
    ensures { result ≡ announced_length_up_to_or_fault most (announced_length fields.now) }
{
    match announced_digits(fields) {
        Some(digits) => value_up_to(most, digits),
        None => Err(FrameFault::Length),
    }
}
