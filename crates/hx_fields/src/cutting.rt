//! Where a list's members stand in the bytes of a value. No function here takes memory.
ghost use Rattle.std.specs.Prelude.{◌≡◌, ◌≤◌, ◌-◌, ◌∷◌, ◌++◌, ◌==◌, ◌||◌, [], length, drop, ◌<◌, ◌+◌, slice_range};
ghost use Rattle.std.specs.Prelude.{ℕ, IfSome, MatchOption};
ghost use Rattle.std.specs.Option.{option_map};
ghost use Rattle.std.specs.List.{prefix_len, suffix_len};
ghost use Rattle.hx_fields.specs.Names.{is_same_name, is_blank, trimmed, members_of_value, member_of_piece};
ghost use Rattle.hx_fields.specs.Names.{ValueRunsUncutTo, Outside, Quoted, split_at_first_byte};
ghost use Rattle.hx_fields.specs.LongMembers.{members_of_at_least_length};
ghost use Rattle.hx_fields.specs.FirstBytes.{members_with_first_byte_in};

use crate::first_bytes::FirstBytes;

/// Whether two field names are one: they compare without ASCII case (RFC 9110, section 5.1).
pub fn is_same_name(a: &[u8], b: &[u8]) -> bool
    ensures { result ≡ is_same_name a.now b.now }
{
    a.eq_ignore_ascii_case(b)
}

fn is_blank(b: u8) -> bool
    ensures { result ≡ is_blank b }
{
    b == b' ' || b == b'\t'
}

fn leading_blanks(text: &[u8]) -> usize
    ensures count { result ≡ prefix_len is_blank text.now }
    ensures bound { result ≤ length text.now }
{
    let mut n = 0;
    while n < text.len() && is_blank(text[n]) {
        n += 1;
    }
    n
}

fn trailing_start(text: &[u8]) -> usize
    ensures start { result ≡ length text.now - suffix_len is_blank text.now }
    ensures bound { result ≤ length text.now }
{
    let mut n = text.len();
    while n > 0 && is_blank(text[n - 1]) {
        n -= 1;
    }
    n
}

/// The text without spaces and tabs round it.
pub fn trim_blanks(text: &[u8]) -> &[u8]
    ensures value { result.now ≡ trimmed text.now }
    ensures bound { length result.now ≤ length text.now }
{
    let rest = &text[leading_blanks(text)..];
    &rest[..trailing_start(rest)]
}

/// Behind the quote that ends the quoted string of this byte, or the end.
fn quoted_end(text: &[u8], from: usize) -> usize
    requires { from ≤ length text.now }
    ensures behind { from ≤ result }
    ensures within { result ≤ length text.now }
    ensures runs { (start : ℕ) → start ≤ from → ValueRunsUncutTo text.now start from Quoted
        → ValueRunsUncutTo text.now start result Outside }
{
    let mut i = from;
    while i < text.len() {
        let b = text[i];
        if b == b'"' {
            return i + 1;
        }
        // A backslash takes the next byte with it.
        let step = if b == b'\\' && i + 1 < text.len() {
            2
        } else {
            1
        };
        i += step;
    }
    i
}

/// Where the piece that begins here ends: at a comma that separates members, or at the end.
fn piece_end(text: &[u8], start: usize) -> usize
    requires { start ≤ length text.now }
    ensures behind { start ≤ result }
    ensures within { result ≤ length text.now }
    ensures members { members_of_value (drop start text.now)
        ≡ member_of_piece (slice_range text.now start result) ++ members_of_value (drop (result + 1) text.now) }
{
    let mut i = start;
    while i < text.len() {
        let b = text[i];
        // Most bytes of members are above the comma.
        if b > b',' {
            i += 1;
        } else if b == b',' {
            return i;
        } else if b == b'"' {
            i = quoted_end(text, i + 1);
        } else {
            i += 1;
        }
    }
    i
}

/// What stands behind a piece that ends here, and behind its comma.
fn behind_piece(value: &[u8], end: usize) -> &[u8]
    requires { end ≤ length value.now }
    ensures { result.now ≡ drop (end + 1) value.now }
{
    if end == value.len() {
        &value[end..]
    } else {
        &value[end + 1..]
    }
}

fn is_separator(b: u8) -> bool
    ensures { result ≡ (is_blank b || b == 44) }
{
    is_blank(b) || b == b','
}

/// The first member of a value, and what stands behind it.
pub fn next_member(value: &[u8]) -> Option<(&[u8], &[u8])>
    ensures members { MatchOption result (members_of_value value.now ≡ [])
        (λ r. members_of_value value.now ≡ r.0.now ∷ members_of_value r.1.now) }
    ensures shorter { IfSome result (λ r. length r.1.now < length value.now) }
{
    let mut start = 0;
    while start < value.len() {
        if is_separator(value[start]) {
            start += 1;
        } else {
            let end = piece_end(value, start);
            let member = trim_blanks(&value[start..end]);
            if !member.is_empty() {
                return Some((member, behind_piece(value, end)));
            }
            start = end + 1;
        }
    }
    None
}

/// The first member of a value that has so many bytes at least, and what stands behind it.
pub fn next_long_member(value: &[u8], least: usize) -> Option<(&[u8], &[u8])>
    ensures members { MatchOption result (members_of_at_least_length least value.now ≡ [])
        (λ r. members_of_at_least_length least value.now ≡ r.0.now ∷ members_of_at_least_length least r.1.now) }
    ensures shorter { IfSome result (λ r. length r.1.now < length value.now) }
{
    let mut start = 0;
    while start < value.len() {
        let end = piece_end(value, start);
        if end - start >= least {
            let member = trim_blanks(&value[start..end]);
            if member.len() >= least && !member.is_empty() {
                return Some((member, behind_piece(value, end)));
            }
        }
        start = end + 1;
    }
    None
}

/// The first member of a value that begins with one of these bytes, and what stands behind it.
pub fn next_member_with_first_byte_in<'a>(
    value: &'a [u8],
    firsts: &FirstBytes,
) -> Option<(&'a [u8], &'a [u8])>
    ensures members { MatchOption result (members_with_first_byte_in firsts.now value.now ≡ [])
        (λ r. members_with_first_byte_in firsts.now value.now
        ≡ r.0.now ∷ members_with_first_byte_in firsts.now r.1.now) }
    ensures shorter { IfSome result (λ r. length r.1.now < length value.now) }
{
    let mut start = 0;
    while start < value.len() {
        let first = value[start];
        if is_separator(first) {
            start += 1;
        } else {
            let end = piece_end(value, start);
            if firsts.has(first) {
                let member = trim_blanks(&value[start..end]);
                if !member.is_empty() {
                    return Some((member, behind_piece(value, end)));
                }
            }
            start = end + 1;
        }
    }
    None
}

/// What stands before the first of these bytes, and what stands behind it.
pub fn split_at_first_byte(separator: u8, text: &[u8]) -> Option<(&[u8], &[u8])>
    ensures { option_map (λ p. (p.0.now, p.1.now)) result ≡ split_at_first_byte separator text.now }
{
    for (i, b) in text.iter().enumerate() {
        if *b == separator {
            return Some((&text[..i], &text[i + 1..]));
        }
    }
    None
}
