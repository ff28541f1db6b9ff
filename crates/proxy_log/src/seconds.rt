//! Seconds with three digits behind the point.
ghost use Rattle.std.specs.Prelude.{◌≡◌, ◌+◌, ◌<◌, ◌≤◌, ◌++◌, length, take, vec_capacity, OnErr, OnOk};
ghost use Rattle.proxy_log.specs.Seconds.{three_digits, seconds_text};

use itoa::Buffer;
use std::alloc::AllocError;

/// Adds milliseconds to a text, as seconds. Its only error is out of memory.
pub fn push_seconds(text: &mut Vec<u8>, milliseconds: u64) -> Result<(), AllocError>
    ensures ok { OnOk result (text.new.items ≡ text.old.items ++ seconds_text milliseconds) }
    ensures full { OnErr result (vec_capacity text.old < length text.old.items + length (seconds_text milliseconds)) }
    ensures capacity { vec_capacity text.old ≤ vec_capacity text.new }
    ensures front { take (length text.old.items) text.new.items ≡ text.old.items }
{
    let mut digits = Buffer::new();
    let rest = (milliseconds % 1000) as u16;
    text.extend_from_slice(digits.format(milliseconds / 1000).as_bytes())?;
    let [a, b, c] = digits_of(rest);
    text.extend_from_slice(&[b'.', a, b, c])
}

/// The three digits of a number below 1,000.
fn digits_of(n: u16) -> [u8; 3]
    requires { n < 1000 }
    ensures { result ≡ three_digits n }
{
    [
        48 + (n / 100) as u8,
        48 + (n / 10 % 10) as u8,
        48 + (n % 10) as u8,
    ]
}
