//! The origin of a line.
ghost use Rattle.std.specs.Prelude.{◌≡◌, IfOk, Some};
ghost use Rattle.std.specs.Net.Text.{socket_v4_text};
ghost use Rattle.hx_allow.specs.Addresses.{address_of, text_if_address};

use crate::addresses::address_of;
use std::alloc::{AllocError, Global};
use std::marker::Model;
use std::net::SocketAddrV4;

/// The address of an origin, and the text of the table that spells it.
#[derive(Drop)]
pub struct Origin {
    text: String,
    address: SocketAddrV4,
}

impl Model for Origin {
    ghost use Rattle.std.specs.Prelude.{List, ℕ, Some, string_bytes, ◌≡◌};
    ghost use Rattle.hx_allow.specs.Addresses.{address_of};

    ghost Value = { List ℕ };

    ghost view = { λ o. string_bytes o.text };

    ghost invariant = { λ o. address_of (string_bytes o.text) ≡ Some o.address };
}

impl Origin {
    /// That of a text, where the text spells an address.
    pub fn of(alloc: Global, text: &str) -> Result<Option<Origin>, AllocError>
        ensures { IfOk result (λ origin. origin ≡ text_if_address text.now) }
    {
        match address_of(text.as_bytes()) {
            Some(address) => Ok(Some(Origin {
                text: String::from_str(alloc, text)?,
                address,
            })),
            None => Ok(None),
        }
    }

    /// The text of the address.
    pub fn text(&self) -> &str
        ensures { result.now ≡ self.now }
    {
        self.text.as_str()
    }

    /// The address that the text spells.
    #[tactic(auto, using(crate::proofs::AddressTexts::text_back))]
    pub fn address(&self) -> SocketAddrV4
        ensures read { address_of self.now ≡ Some result }
        ensures text { socket_v4_text result ≡ self.now }
    {
        self.address
    }
}
