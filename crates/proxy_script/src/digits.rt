//! Decimal numbers.
ghost use Rattle.std.specs.Prelude.{◌≡◌};
ghost use Rattle.std.specs.List.{list_all};
ghost use Rattle.std.specs.Char.{is_ascii_digit};
ghost use Rattle.proxy_script.specs.DecimalNumbers.{value_of_digits, number_of};

use hx_fields::digits_value_if_at_most;

fn are_digits(bytes: &[u8]) -> bool
    ensures { result ≡ list_all is_ascii_digit bytes.now }
{
    bytes.iter().all(|b| b.is_ascii_digit())
}

fn value_of_digits(bytes: &[u8]) -> Option<u64>
    ensures { result ≡ value_of_digits bytes.now }
{
    if are_digits(bytes) {
        digits_value_if_at_most(u64::MAX, 10, bytes)
    } else {
        None
    }
}

/// A decimal number below 2^64 without leading zeros.
#[tactic(auto, unfolding(crate::specs::DecimalNumbers::number_of))]
pub fn number_of(bytes: &[u8]) -> Option<u64>
    ensures { result ≡ number_of bytes.now }
{
    if bytes.is_empty() {
        return None;
    }
    if bytes[0] == b'0' && bytes.len() > 1 {
        return None;
    }
    value_of_digits(bytes)
}
