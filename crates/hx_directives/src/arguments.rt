//! The arguments of directives, which are read as seconds alone.
//!
//! Both forms of an argument, token and quoted string, mean the same (RFC 9111, section 5.2).

ghost use Rattle.std.specs.Prelude.{◌≡◌, false, IfOk, option_map, option_copied};
ghost use Rattle.hx_directives.specs.Arguments.{seconds_of_argument, content_to_closing_quote};

use crate::numbers::capped_seconds;
use std::alloc::{AllocError, Global};

/// What an argument says as seconds.
#[derive(Clone, Copy, Debug, Default, PartialEq, Eq)]
pub enum Argument {
    /// There is none.
    #[default]
    Absent,
    /// Seconds, at most 2147483648.
    Delta(u32),
    /// It isn't a number of seconds.
    Other,
}

/// What an argument says.
pub fn seconds_of_argument(alloc: Global, text: Option<&[u8]>) -> Result<Argument, AllocError>
    ensures { IfOk result (λ a. a ≡ seconds_of_argument (option_copied text.entry)) }
{
    let Some(text) = text else {
        return Ok(Argument::Absent);
    };
    let seconds = match text {
        [b'"', rest @ ..] => match content_to_closing_quote(alloc, rest)? {
            Some(content) => capped_seconds(content.as_slice()),
            None => None,
        },
        _ => capped_seconds(text),
    };
    Ok(match seconds {
        Some(n) => Argument::Delta(n),
        None => Argument::Other,
    })
}

/// What stands before the closing quote, if that is the last byte.
fn content_to_closing_quote(alloc: Global, text: &[u8]) -> Result<Option<Vec<u8>>, AllocError>
    ensures { IfOk result (λ r. option_map (λ v. v.items) r ≡ content_to_closing_quote false text.now) }
{
    let mut content = Vec::new(alloc);
    let mut is_taken = false;
    for (i, byte) in text.iter().enumerate() {
        if is_taken {
            content.push(*byte)?;
            is_taken = false;
        } else if *byte == b'"' {
            let is_last = i + 1 == text.len();
            return Ok(if is_last { Some(content) } else { None });
        } else if *byte == b'\\' {
            is_taken = true;
        } else {
            content.push(*byte)?;
        }
    }
    Ok(None)
}
