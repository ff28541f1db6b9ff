//! What the calls on an end come to, as what happened. Nothing of it happens at the listener.

ghost use Rattle.std.specs.Prelude.{◌≡◌, option_map};
ghost use Rattle.proxy_engine.specs.Happenings.{model_of_happening};
ghost use Rattle.proxy_turn.specs.Calls.{read_outcome_of};
ghost use Rattle.proxy_turn.specs.Turn.{happening_of_bytes, happening_of_input_end, happening_of_loss};
ghost use Rattle.proxy_turn.specs.Turn.{happening_of_read};

use crate::sockets::SocketCallFailed;
use hx_status::FailKind;
use proxy_engine::{End, Happening};
use proxy_reads::Received;

/// Bytes came from an end.
pub fn happening_of_bytes_read_from_end(end: End, bytes: &[u8]) -> Option<Happening<'_>>
    ensures { option_map model_of_happening result ≡ happening_of_bytes end bytes.now }
{
    match end {
        End::Listener => None,
        End::Client(n) => Some(Happening::Client(n, bytes)),
        End::Link(l) => Some(Happening::Link(l, bytes)),
    }
}

/// No more comes from an end.
pub fn happening_of_end_of_input(end: End) -> Option<Happening<'static>>
    ensures { option_map model_of_happening result ≡ happening_of_input_end end }
{
    match end {
        End::Listener => None,
        End::Client(n) => Some(Happening::End(n)),
        End::Link(l) => Some(Happening::Shut(l)),
    }
}

/// An end is lost; a link by a failure of this kind.
pub fn happening_of_lost_end(end: End, kind: FailKind) -> Option<Happening<'static>>
    ensures { option_map model_of_happening result ≡ happening_of_loss end kind }
{
    match end {
        End::Listener => None,
        End::Client(n) => Some(Happening::Gone(n)),
        End::Link(l) => Some(Happening::Fail(l, kind)),
    }
}

/// What a read of an end comes to: the bytes are those at the front of the buffer. A failed read loses the end.
pub fn happening_of_read<'a>(
    end: End,
    received: &Result<Received, SocketCallFailed>,
    buf: &'a [u8],
) -> Option<Happening<'a>>
    ensures { option_map model_of_happening result ≡ happening_of_read end (read_outcome_of received.now buf.now) }
{
    match received {
        Ok(Received::Nothing) => None,
        Ok(Received::Bytes(n)) => happening_of_bytes_read_from_end(
            end,
            buf.get(..*n).unwrap_or(buf),
        ),
        Ok(Received::End) => happening_of_end_of_input(end),
        Err(_) => happening_of_lost_end(end, FailKind::Closed),
    }
}
