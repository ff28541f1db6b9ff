//! Addresses of origins: four decimal numbers and a port.
ghost use Rattle.std.specs.Prelude.{◌≡◌, ◌≤◌, IfSome};
ghost use Rattle.std.specs.Option.{option_map};
ghost use Rattle.hx_allow.specs.Addresses.{has_leading_zero, decimal_value_within, octet_before_separator, address_of};

use hx_fields::split_at_first_byte;
use hx_target::number_of_few_digits;
use std::net::{Ipv4Addr, SocketAddrV4};

fn has_leading_zero(text: &[u8]) -> bool
    ensures { result ≡ has_leading_zero text.now }
{
    text.len() > 1 && text[0] == b'0'
}

/// A decimal number within bounds, without leading zeros.
fn decimal_value_within(low: u32, high: u32, text: &[u8]) -> Option<u32>
    ensures number { result ≡ decimal_value_within low high text.now }
    ensures within { IfSome result (λ n. n ≤ high) }
{
    if has_leading_zero(text) {
        return None;
    }
    match number_of_few_digits(text) {
        Some(n) if low <= n && n <= high => Some(n),
        _ => None,
    }
}

/// A number from 0 to 255 in front of a byte, and what follows the byte.
fn octet_before_separator(separator: u8, text: &[u8]) -> Option<(u8, &[u8])>
    ensures { option_map (λ p. (p.0, p.1.now)) result ≡ octet_before_separator separator text.now }
{
    let (digits, rest) = split_at_first_byte(separator, text)?;
    let octet = decimal_value_within(0, 255, digits)?;
    Some((octet as u8, rest))
}

/// The address that a text spells: four numbers from 0 to 255 joined by `.`, then `:` and a port.
#[tactic(auto, unfolding(crate::specs::Addresses::address_of))]
pub fn address_of(text: &[u8]) -> Option<SocketAddrV4>
    ensures { result ≡ address_of text.now }
{
    let (a, rest) = octet_before_separator(b'.', text)?;
    let (b, rest) = octet_before_separator(b'.', rest)?;
    let (c, rest) = octet_before_separator(b'.', rest)?;
    let (d, rest) = octet_before_separator(b':', rest)?;
    let port = decimal_value_within(1, 65_535, rest)?;
    Some(SocketAddrV4::new(Ipv4Addr::new(a, b, c, d), port as u16))
}
