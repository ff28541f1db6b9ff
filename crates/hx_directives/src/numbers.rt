//! Seconds, read from digits.

ghost use Rattle.std.specs.Prelude.{◌≡◌, ◌≤◌, if◌then◌else◌, None, Some, IfSome, option_map};
ghost use Rattle.std.specs.List.{list_all};
ghost use Rattle.std.specs.Char.{is_ascii_digit};
ghost use Rattle.std.specs.Str.Parse.{digits_value};
ghost use Rattle.hx_directives.specs.Seconds.{capped, seconds_of};
ghost use Rattle.hx_directives.specs.declared.limits.TheConstants.{MOST_SECONDS};

use crate::limits::MOST_SECONDS;
use hx_fields::digit_value;

/// The seconds that digits spell, at most 2147483648. None where a byte is no digit.
fn capped_number(text: &[u8]) -> Option<u64>
    ensures value { result ≡ (if list_all is_ascii_digit text.now
        then Some (capped (digits_value 10 text.now)) else None) }
    ensures small { IfSome result (λ n. n ≤ MOST_SECONDS) }
{
    let mut number = 0u64;
    for b in text {
        if !b.is_ascii_digit() {
            return None;
        }
        // A number that is too large already doesn't grow.
        if number < MOST_SECONDS {
            number = number * 10 + u64::from(digit_value(*b));
        }
    }
    Some(if number < MOST_SECONDS {
        number
    } else {
        MOST_SECONDS
    })
}

/// The seconds that one digit or more spell, at most 2147483648. None of any other text.
pub fn capped_seconds(text: &[u8]) -> Option<u32>
    ensures { result ≡ option_map capped (seconds_of text.now) }
{
    if text.is_empty() {
        return None;
    }
    Some(capped_number(text)? as u32)
}
