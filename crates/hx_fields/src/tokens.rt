//! Tokens, of which names are made (RFC 9110, section 5.6.2).
//!
//! The grammar is in `specs/Tokens.antt`.

ghost use Rattle.std.specs.Prelude.{◌≡◌};
ghost use Rattle.std.specs.List.{list_all};
ghost use Rattle.hx_fields.specs.Tokens.{is_token_byte, is_token};

/// Whether a text is a token, which has one byte at least.
pub fn is_token(text: &[u8]) -> bool
    ensures { result ≡ is_token text.now }
{
    !text.is_empty() && all_token_bytes(text)
}

fn all_token_bytes(text: &[u8]) -> bool
    ensures { result ≡ list_all is_token_byte text.now }
{
    text.iter().all(|b| is_token_byte(*b))
}

fn is_token_byte(b: u8) -> bool
    ensures { result ≡ is_token_byte b }
{
    b.is_ascii_alphanumeric() || b"!#$%&'*+-.^_`|~".contains(&b)
}
