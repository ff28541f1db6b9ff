//! Hosts and ports, as a Host field spells them (RFC 9110, section 7.2).
//!
//! Which texts are hosts and ports is in `specs/Hosts.antt`.
ghost use Rattle.std.specs.Prelude.{◌≡◌, ◌≤◌, ◌<◌, ◌^◌, ◌+◌, ◌-◌, ◌*◌, length, slice_get, drop, codes, Some};
ghost use Rattle.std.specs.Prelude.{IfOk, take, true};
ghost use Rattle.std.specs.Char.{is_ascii_digit};
ghost use Rattle.std.specs.Option.{option_copied};
ghost use Rattle.std.specs.List.{list_all};
ghost use Rattle.std.specs.Str.Parse.{digits_value};
ghost use Rattle.http_uri.specs.ByteClasses.{index_of, index_after_last};
ghost use Rattle.hx_target.specs.Hosts.{is_name_byte, is_address_byte, is_name, is_bracketed_address, is_host};
ghost use Rattle.hx_target.specs.Hosts.{host_part};
ghost use Rattle.hx_target.specs.Hosts.{host_value_text_behind_host, begins_with_valid_host, number_of_few_digits};
ghost use Rattle.hx_target.specs.Hosts.{port_of_text};
ghost use Rattle.hx_target.specs.Hosts.{port_of_host_value, lowercase};

use hx_fields::{Bytes, digits_value_if_at_most};
use std::alloc::{AllocError, Global};

fn is_name_byte(b: u8) -> bool
    ensures { result ≡ is_name_byte b }
{
    b.is_ascii_alphanumeric() || b == b'-' || b == b'.' || b == b'_'
}

fn is_address_byte(b: u8) -> bool
    ensures { result ≡ is_address_byte b }
{
    b.is_ascii_hexdigit() || b == b':' || b == b'.'
}

fn are_name_bytes(text: &[u8]) -> bool
    ensures { result ≡ list_all is_name_byte text.now }
{
    text.iter().all(|b| is_name_byte(*b))
}

fn are_address_bytes(text: &[u8]) -> bool
    ensures { result ≡ list_all is_address_byte text.now }
{
    text.iter().all(|b| is_address_byte(*b))
}

fn are_digits(text: &[u8]) -> bool
    ensures { result ≡ list_all is_ascii_digit text.now }
{
    text.iter().all(|b| b.is_ascii_digit())
}

fn is_name(text: &[u8]) -> bool
    ensures { result ≡ is_name text.now }
{
    1 <= text.len() && text.len() <= 253 && are_name_bytes(text)
}

fn is_bracketed_address(text: &[u8]) -> bool
    ensures { result ≡ is_bracketed_address text.now }
{
    if text.len() < 4 || text.len() > 47 {
        return false;
    }
    let last = text.len() - 1;
    text[last] == b']' && are_address_bytes(&text[..last][1..])
}

/// Whether a text is a host: 1 to 253 letters, digits, `-`, `.` and `_`, or in brackets 2 to 45
/// hexadecimal digits, `:` and `.`.
#[tactic(auto, unfolding(crate::specs::Hosts::is_host))]
pub fn is_host(text: &[u8]) -> bool
    ensures { result ≡ is_host text.now }
{
    if text.first() == Some(&b'[') {
        is_bracketed_address(text)
    } else {
        is_name(text)
    }
}

/// Where a byte first stands, or the length.
pub(crate) fn index_of(byte: u8, text: &[u8]) -> usize
    ensures place { result ≡ index_of byte text.now }
    ensures bound { result ≤ length text.now }
{
    let mut i = 0;
    while i < text.len() && text[i] != byte {
        i += 1;
    }
    i
}

/// The place after the last such byte, or 0.
pub fn index_after_last(byte: u8, text: &[u8]) -> usize
    ensures place { result ≡ index_after_last byte text.now }
    ensures bound { result ≤ length text.now }
{
    let mut end = text.len();
    while end > 0 && text[end - 1] != byte {
        end -= 1;
    }
    end
}

/// The host of a Host value.
pub fn host_part(value: &[u8]) -> &[u8]
    ensures host { result.now ≡ host_part value.now }
    ensures front { result.now ≡ take (length result.now) value.now }
    ensures within { length result.now ≤ length value.now }
{
    if value.first() == Some(&b'[') {
        let end = index_of(b']', value);
        if end < value.len() {
            &value[..end + 1]
        } else {
            value
        }
    } else {
        &value[..index_of(b':', value)]
    }
}

/// What a Host value has after its host.
fn host_value_text_behind_host(value: &[u8]) -> &[u8]
    ensures { result.now ≡ host_value_text_behind_host value.now }
{
    &value[host_part(value).len()..]
}

/// Whether a Host value has a valid host, then nothing or a `:`.
pub fn begins_with_valid_host(value: &[u8]) -> bool
    ensures { result ≡ begins_with_valid_host value.now }
{
    let host = host_part(value);
    let rest = &value[host.len()..];
    is_host(host) && (rest.is_empty() || rest[0] == b':')
}

/// The number that at most five digits spell.
#[tactic(auto, using(crate::proofs::Digits::few_digits))]
fn value_of(digits: &[u8]) -> u32
    requires few { length digits.now ≤ 5 }
    requires all { list_all is_ascii_digit digits.now ≡ true }
    ensures { result ≡ digits_value 10 digits.now }
{
    digits_value_if_at_most(99_999, 10, digits).unwrap_or(0) as u32
}

/// The number that one to five digits spell.
#[tactic(auto, unfolding(crate::specs::Hosts::number_of_few_digits))]
pub fn number_of_few_digits(text: &[u8]) -> Option<u32>
    ensures { result ≡ number_of_few_digits text.now }
{
    if text.is_empty() || text.len() > 5 || !are_digits(text) {
        return None;
    }
    Some(value_of(text))
}

/// The port that a text spells, 80 where it is empty.
#[tactic(auto, unfolding(crate::specs::Hosts::port_of_text))]
fn port_of_text(text: &[u8]) -> Option<u16>
    ensures { result ≡ port_of_text text.now }
{
    if text.is_empty() {
        return Some(80);
    }
    match number_of_few_digits(text) {
        Some(port) if 1 <= port && port <= 65_535 => Some(port as u16),
        _ => None,
    }
}

/// The port of a Host value with a valid host.
pub fn port_of_host_value(value: &[u8]) -> Option<u16>
    ensures { result ≡ port_of_host_value value.now }
{
    let rest = host_value_text_behind_host(value);
    if rest.is_empty() {
        port_of_text(rest)
    } else {
        port_of_text(&rest[1..])
    }
}

/// A text with its ASCII letters in lower case.
pub fn lowercase(alloc: Global, text: &[u8]) -> Result<Bytes, AllocError>
    ensures { IfOk result (λ lower. lower ≡ lowercase text.now) }
{
    Ok(Bytes::from_vec(text.to_ascii_lowercase(alloc)?))
}
