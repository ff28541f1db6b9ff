//! Which requests have a cookie with one of some names. No function here takes memory.
ghost use Rattle.std.specs.Prelude.{◌≡◌, ◌==◌, ◌≤◌, length, not};
ghost use Rattle.std.specs.List.{prefix_len};
ghost use Rattle.hx_allow.specs.Cookies.{text_before_equals_sign, cookie_name_of, is_cookie_among};
ghost use Rattle.hx_allow.specs.Cookies.{line_has_cookie_among};
ghost use Rattle.hx_allow.specs.Cookies.{has_cookie_among, equals_sign};

use hx_fields::{Bytes, Field, is_same_name, trim_blanks};

fn length_before_equals_sign(part: &[u8]) -> usize
    ensures count { result ≡ prefix_len (λ b. not (b == equals_sign)) part.now }
    ensures bound { result ≤ length part.now }
{
    let mut n = 0;
    while n < part.len() && part[n] != b'=' {
        n += 1;
    }
    n
}

fn text_before_equals_sign(part: &[u8]) -> &[u8]
    ensures { result.now ≡ text_before_equals_sign part.now }
{
    &part[..length_before_equals_sign(part)]
}

/// The name of a cookie, of what stands between two semicolons of a line.
fn cookie_name_of(part: &[u8]) -> &[u8]
    ensures { result.now ≡ cookie_name_of part.now }
{
    trim_blanks(text_before_equals_sign(part))
}

fn is_cookie_among(names: &[Bytes], part: &[u8]) -> bool
    ensures { result ≡ is_cookie_among names.now part.now }
{
    let own = cookie_name_of(part);
    names.iter().any(|name| name.as_slice() == own)
}

fn line_has_cookie_among(names: &[Bytes], value: &[u8]) -> bool
    ensures { result ≡ line_has_cookie_among names.now value.now }
{
    value
        .split(|b| *b == b';')
        .any(|part| is_cookie_among(names, part))
}

/// Whether a request with these lines has a cookie with one of these names.
pub(crate) fn has_cookie_among(names: &[Bytes], fields: &[Field]) -> bool
    ensures { result ≡ has_cookie_among names.now fields.now }
{
    if names.is_empty() {
        return false;
    }
    for line in fields {
        if is_same_name(line.name(), b"Cookie") && line_has_cookie_among(names, line.value()) {
            return true;
        }
    }
    false
}
