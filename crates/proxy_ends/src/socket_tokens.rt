//! Which socket an event is about, by the token that the system was given for it.
//!
//! A token is a number: that of a client's key or of a link times 4, and which of these it is.
ghost use Rattle.std.specs.Prelude.{◌≡◌, IfOk, IsOk};
ghost use Rattle.proxy_ends.specs.Tokens.{holder_of_token, TokenHolderFitsToken};

use mio::Token;
use std::io;
use std::io::ErrorKind;

/// The first key and number that are too large for a token.
const TOO_LARGE: usize = 1 << 62;

/// Who has a socket.
#[derive(Clone, Copy, Debug, PartialEq, Eq)]
pub enum TokenHolder {
    Listener,
    /// A client, by the key of its stream.
    Client(usize),
    /// A link, by its number.
    Link(u64),
}

impl TokenHolder {
    /// Its token, which no other has. A key or a number that is too large has none.
    pub fn token(self) -> io::Result<Token>
        ensures reported { IfOk result (λ token. holder_of_token token ≡ self) }
        ensures has { TokenHolderFitsToken self → IsOk result }
    {
        match self {
            TokenHolder::Client(key) if key < TOO_LARGE => Ok(Token(key * 4)),
            TokenHolder::Link(number) if number < TOO_LARGE as u64 => Ok(Token(
                number as usize * 4 + 1,
            )),
            TokenHolder::Listener => Ok(Token(2)),
            _ => Err(io::Error::from(ErrorKind::InvalidInput)),
        }
    }

    /// Whose token this is.
    pub fn of(token: Token) -> TokenHolder
        ensures { result ≡ holder_of_token token }
    {
        let key = token.0 / 4;
        match token.0 % 4 {
            0 => TokenHolder::Client(key),
            1 => TokenHolder::Link(key as u64),
            _ => TokenHolder::Listener,
        }
    }
}
