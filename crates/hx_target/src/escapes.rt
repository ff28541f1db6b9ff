//! Escapes of a path, and the path that the operator's table compares (RFC 3986, sections 2.1 and 6.2.2).
//!
//! The definitions are in `specs/Paths.antt`. A path is read as it came: nothing here decodes it twice.
ghost use Rattle.std.specs.Prelude.{◌≡◌, ◌≤◌, ◌++◌, length, drop, IfOk, OnOk, true};
ghost use Rattle.std.specs.Char.{is_ascii_hexdigit, to_ascii_uppercase};
ghost use Rattle.hx_target.specs.Paths.{is_unreserved, octet_of_hex_digits, begins_escape, begins_bad_escape};
ghost use Rattle.hx_target.specs.Paths.{has_bad_escape};
ghost use Rattle.hx_target.specs.Paths.{normal_form_of_escape, table_path_of};

use hx_fields::{Bytes, digit_value};
use std::alloc::{AllocError, Global};

/// What follows the first bytes of a text.
pub(crate) fn after(text: &[u8], count: usize) -> &[u8]
    requires { count ≤ length text.now }
    ensures { result.now ≡ drop count text.now }
{
    &text[count..]
}

fn is_unreserved(b: u8) -> bool
    ensures { result ≡ is_unreserved b }
{
    b.is_ascii_alphanumeric() || b == b'-' || b == b'.' || b == b'_' || b == b'~'
}

/// Whether a text begins with `%` and two hexadecimal digits.
pub(crate) fn begins_escape(text: &[u8]) -> bool
    ensures { result ≡ begins_escape text.now }
{
    text.len() >= 3 && text[0] == b'%' && text[1].is_ascii_hexdigit() && text[2].is_ascii_hexdigit()
}

fn begins_bad_escape(text: &[u8]) -> bool
    ensures { result ≡ begins_bad_escape text.now }
{
    text.first() == Some(&b'%') && !begins_escape(text)
}

/// Whether a `%` of the path has no two hexadecimal digits behind it.
pub fn has_bad_escape(path: &[u8]) -> bool
    ensures { result ≡ has_bad_escape path.now }
{
    for i in 0..path.len() {
        if begins_bad_escape(after(path, i)) {
            return true;
        }
    }
    false
}

/// The byte that two hexadecimal digits spell.
pub(crate) fn octet_of_hex_digits(high: u8, low: u8) -> u8
    requires high { is_ascii_hexdigit high ≡ true }
    requires low { is_ascii_hexdigit low ≡ true }
    ensures { result ≡ octet_of_hex_digits high low }
{
    16 * digit_value(high) + digit_value(low)
}

/// Adds what the table path has of an escape.
fn push_escape(found: &mut Vec<u8>, high: u8, low: u8) -> Result<(), AllocError>
    requires high { is_ascii_hexdigit high ≡ true }
    requires low { is_ascii_hexdigit low ≡ true }
    ensures { OnOk result (found.new.items ≡ found.old.items ++ normal_form_of_escape high low) }
{
    let octet = octet_of_hex_digits(high, low);
    if is_unreserved(octet) {
        found.push(octet)?;
    } else {
        found.push(b'%')?;
        found.push(high.to_ascii_uppercase())?;
        found.push(low.to_ascii_uppercase())?;
    }
    Ok(())
}

/// The path as the operator's table compares it: escapes of letters, digits, `-`, `.`, `_` and `~` are
/// decoded, the hexadecimal digits of other escapes are in upper case, and a `%` that begins no escape
/// stands as it is. Its only error is out of memory.
pub fn table_path(alloc: Global, path: &[u8]) -> Result<Bytes, AllocError>
    ensures { IfOk result (λ p. p ≡ table_path_of path.now) }
{
    let mut found = Vec::with_capacity(alloc, path.len())?;
    let mut i = 0;
    while i < path.len() {
        if begins_escape(after(path, i)) {
            push_escape(&mut found, path[i + 1], path[i + 2])?;
            i += 3;
        } else {
            found.push(path[i])?;
            i += 1;
        }
    }
    Ok(Bytes::from_vec(found))
}
