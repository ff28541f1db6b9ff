//! Segments of a path, and dot segments among them (RFC 3986, sections 3.3 and 5.2.4).
ghost use Rattle.std.specs.Prelude.{◌≡◌, ◌==◌, ◌&&◌, ◌<◌, ◌∷◌, [], length, slice_index, false, MatchOption, IfSome};
ghost use Rattle.hx_target.specs.Paths.{segments, is_dot_segment, has_dot_segment, begins_escape, octet_of_hex_digits};
ghost use Rattle.hx_target.specs.Paths.{table_path_of};

use crate::escapes::{after, begins_escape, octet_of_hex_digits};

/// Whether a segment is `.` or `..`.
fn is_dot_segment(segment: &[u8]) -> bool
    ensures { result ≡ is_dot_segment segment.now }
{
    segment == b".".as_slice() || segment == b"..".as_slice()
}

/// The first segment, and what follows its slash.
fn cut_segment(path: &[u8]) -> (&[u8], Option<&[u8]>)
    ensures cut { MatchOption result.1 (segments path.now ≡ result.0.now ∷ [])
        (λ rest. segments path.now ≡ result.0.now ∷ segments rest.now) }
    ensures shorter { IfSome result.1 (λ rest. length rest.now < length path.now) }
{
    for (i, b) in path.iter().enumerate() {
        if *b == b'/' {
            return (&path[..i], Some(&path[i + 1..]));
        }
    }
    (path, None)
}

/// Whether a segment of the path is `.` or `..`. Escapes are no dots here.
#[tactic(auto, unfolding(crate::specs::Paths::has_dot_segment))]
pub fn has_dot_segment(path: &[u8]) -> bool
    ensures { result ≡ has_dot_segment path.now }
{
    let mut rest = path;
    'segments: loop {
        let (segment, left) = cut_segment(rest);
        if is_dot_segment(segment) {
            return true;
        }
        match left {
            Some(left) => rest = left,
            None => return false,
        }
    }
}

/// Whether a dot comes first.
fn begins_dot(text: &[u8]) -> bool
    ensures { result ≡ (slice_index text.now 0 == 46) }
{
    text.first() == Some(&b'.')
}

/// Whether an escape of a dot comes first.
fn begins_escaped_dot(text: &[u8]) -> bool
    ensures { result ≡ begins_escape text.now
        && (octet_of_hex_digits (slice_index text.now 1) (slice_index text.now 2) == 46) }
{
    begins_escape(text) && octet_of_hex_digits(text[1], text[2]) == b'.'
}

/// What follows a dot at the beginning, be it escaped or not.
fn after_dot(segment: &[u8]) -> Option<&[u8]>
    ensures { MatchOption result ((slice_index (table_path_of segment.now) 0 == 46) ≡ false)
        (λ rest. table_path_of segment.now ≡ 46 ∷ table_path_of rest.now) }
{
    if begins_dot(segment) {
        return Some(after(segment, 1));
    }
    if begins_escaped_dot(segment) {
        return Some(after(segment, 3));
    }
    None
}

/// Whether a segment is `.` or `..`, its dots escaped or not.
fn is_dot_segment_escaped(segment: &[u8]) -> bool
    ensures { result ≡ is_dot_segment (table_path_of segment.now) }
{
    match after_dot(segment) {
        Some(rest) if rest.is_empty() => true,
        Some(rest) => match after_dot(rest) {
            Some(rest) => rest.is_empty(),
            None => false,
        },
        None => false,
    }
}

/// Whether the path that the operator's table compares has a segment `.` or `..`, which may stand escaped
/// here. It takes no memory.
pub fn table_path_has_dot_segment(path: &[u8]) -> bool
    ensures { result ≡ has_dot_segment (table_path_of path.now) }
{
    let mut rest = path;
    'segments: loop {
        let (segment, left) = cut_segment(rest);
        if is_dot_segment_escaped(segment) {
            return true;
        }
        match left {
            Some(left) => rest = left,
            None => return false,
        }
    }
}
