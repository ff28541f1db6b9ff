//! Digits, and the numbers that they spell.
ghost use Rattle.std.specs.Prelude.{◌≡◌, ◌≤◌};
ghost use Rattle.std.specs.Char.{digit_value};
ghost use Rattle.std.specs.Str.Parse.{digits_value};
ghost use Rattle.hx_fields.specs.SpelledNumbers.{number_if_at_most};

/// The value of a digit or letter, up to 35, or 36 of any other byte.
pub fn digit_value(b: u8) -> u8
    ensures value { result ≡ digit_value b }
    ensures small { result ≤ 36 }
{
    match b {
        b'0'..=b'9' => b - b'0',
        b'A'..=b'Z' => b - b'A' + 10,
        b'a'..=b'z' => b - b'a' + 10,
        _ => 36,
    }
}

/// The number that these digits spell in base `radix`, where it is at most `most`. There may be any
/// number of them, and zeros in front. Which bytes are digits is the caller's to see: each counts
/// as `digit_value` has it.
pub fn digits_value_if_at_most(most: u64, radix: u8, digits: &[u8]) -> Option<u64>
    requires some { 1 ≤ radix }
    requires small { radix ≤ 36 }
    ensures { result ≡ number_if_at_most most (digits_value radix digits.now) }
{
    let limit = most as u128;
    let mut number = 0u128;
    for b in digits {
        // A number that is too large already doesn't grow.
        if number <= limit {
            number = number * radix as u128 + digit_value(*b) as u128;
        }
    }
    if number <= limit {
        Some(number as u64)
    } else {
        None
    }
}
