//! Numbers and texts at the front of bytes, and behind others (`specs/Texts.antt`).
ghost use Rattle.std.specs.Prelude.{◌≡◌, ◌<◌, ◌++◌, length, true, IfSome, OnOk, None, Some, MatchOption};
ghost use Rattle.proxy_store_file.specs.Texts.{cut, number_spelling, text_spelling, leading_number, leading_text};
ghost use Rattle.proxy_store_file.specs.Texts.{number_of, is_number};
ghost use Rattle.proxy_store_file.specs.Heads.{leading_number_below};

use std::alloc::AllocError;

/// The number that eight bytes spell.
#[tactic(auto, unfolding(crate::specs::Texts::number_of))]
pub(crate) fn number_of(bytes: &[u8]) -> u64
    requires { length bytes.now ≡ 8 }
    ensures value { result ≡ number_of bytes.now }
    ensures spelled { is_number bytes.now ≡ true }
{
    let mut eight = [0u8; 8];
    eight.copy_from_slice(bytes);
    u64::from_be_bytes(eight)
}

/// The bytes that spell a number.
#[tactic(auto, unfolding(crate::specs::Texts::number_spelling))]
pub(crate) fn number_text(n: u64) -> [u8; 8]
    ensures { result ≡ number_spelling n }
{
    n.to_be_bytes()
}

/// Puts a number behind other bytes. Fails only where memory runs out.
pub(crate) fn push_number(out: &mut Vec<u8>, n: u64) -> Result<(), AllocError>
    ensures { OnOk result (out.new.items ≡ out.old.items ++ number_spelling n) }
{
    out.extend_from_slice(&number_text(n))
}

/// Puts a text behind other bytes. Fails only where memory runs out.
pub(crate) fn push_text(out: &mut Vec<u8>, text: &[u8]) -> Result<(), AllocError>
    ensures { OnOk result (out.new.items ≡ out.old.items ++ text_spelling text.now) }
{
    push_number(out, text.len() as u64)?;
    out.extend_from_slice(text)
}

/// So many bytes, and the rest.
pub(crate) fn cut(n: u64, bytes: &[u8]) -> Option<(&[u8], &[u8])>
    ensures { MatchOption result (cut n bytes.now ≡ None) (λ r. cut n bytes.now ≡ Some (r.0.now, r.1.now)) }
{
    if n <= bytes.len() as u64 {
        Some((&bytes[..n as usize], &bytes[n as usize..]))
    } else {
        None
    }
}

/// The number at the front, and the rest.
pub(crate) fn leading_number(bytes: &[u8]) -> Option<(u64, &[u8])>
    ensures { MatchOption result (leading_number bytes.now ≡ None)
        (λ r. leading_number bytes.now ≡ Some (r.0, r.1.now)) }
{
    if bytes.len() < 8 {
        return None;
    }
    Some((number_of(&bytes[..8]), &bytes[8..]))
}

/// The same, where the number is below a bound.
pub(crate) fn leading_number_below(bound: u64, bytes: &[u8]) -> Option<(u64, &[u8])>
    ensures value { MatchOption result (leading_number_below bound bytes.now ≡ None)
        (λ r. leading_number_below bound bytes.now ≡ Some (r.0, r.1.now)) }
    ensures below { IfSome result (λ r. r.0 < bound) }
{
    match leading_number(bytes) {
        Some((n, rest)) if n < bound => Some((n, rest)),
        _ => None,
    }
}

/// The text at the front, and the rest.
pub(crate) fn leading_text(bytes: &[u8]) -> Option<(&[u8], &[u8])>
    ensures { MatchOption result (leading_text bytes.now ≡ None)
        (λ r. leading_text bytes.now ≡ Some (r.0.now, r.1.now)) }
{
    match leading_number(bytes) {
        Some((n, rest)) => cut(n, rest),
        None => None,
    }
}
