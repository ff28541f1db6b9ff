//! Lines of a text.
ghost use Rattle.std.specs.Prelude.{◌≡◌, ◌<◌, length, IfSome};
ghost use Rattle.std.specs.Option.{option_map};
ghost use Rattle.hx_fields.specs.Names.{split_at_first_byte};
ghost use Rattle.hx_framing.specs.HeadLines.{is_empty_line};
ghost use Rattle.hx_framing.specs.Version.{without_trailing_cr};

use memchr::memchr;

/// What stands before the first LF, and what stands behind it.
pub(crate) fn split_at_first_lf(text: &[u8]) -> Option<(&[u8], &[u8])>
    ensures cut { option_map (λ p. (p.0.now, p.1.now)) result ≡ split_at_first_byte 10 text.now }
    ensures less { IfSome result (λ p. length p.1.now < length text.now) }
{
    match memchr(b'\n', text) {
        Some(at) => Some((&text[..at], &text[at + 1..])),
        None => None,
    }
}

/// A line without the CR of its end.
pub(crate) fn without_trailing_cr(line: &[u8]) -> &[u8]
    ensures { result.now ≡ without_trailing_cr line.now }
{
    match line {
        [front @ .., b'\r'] => front,
        _ => line,
    }
}

/// Whether nothing stands before the end of a line.
pub(crate) fn is_empty_line(line: &[u8]) -> bool
    ensures { result ≡ is_empty_line line.now }
{
    without_trailing_cr(line).is_empty()
}
