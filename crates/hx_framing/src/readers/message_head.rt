//! What a reader has to know of its kind of message, told by the head of one.
ghost use Rattle.std.specs.Prelude.{◌≡◌, IfOk, OnErr, take};
ghost use Rattle.hx_framing.specs.HeadEnd.{head_length as head_length_of, most_head_bytes};
ghost use Rattle.hx_framing.specs.ReaderKind.{ReaderKind};

use crate::readers::progress::{MessageProgress, ReaderPhase, UnreadStreamBytes};
use hx_fields::Bytes;
use std::alloc::{AllocError, Global};

/// The head of a message that a reader reads.
pub trait MessageHead: Drop {
    type Message: Drop;

    /// What contracts say of a reader of such messages.
    ghost kind: { ReaderKind Self Self.Message };

    /// What stands at the front of the unread bytes, before a continue was given. A head takes `head_length` of them;
    /// `to_head` says that the message answers a HEAD.
    fn read_next_head(
        alloc: Global,
        rest: &UnreadStreamBytes<'_>,
        to_head: bool,
        head_length: Option<usize>,
    ) -> Result<MessageProgress<Self, Self::Message>, AllocError>
        requires { head_length ≡ head_length_of (take most_head_bytes rest.now.bytes.now) }
        ensures found { IfOk result
            (kind.FrontIsFound rest.now.max_body to_head rest.now.ended rest.now.bytes.now) }
        ensures memory_last { OnErr result (kind.WholeHeadIsThere rest.now.bytes.now) };

    /// Whether a content until the close has ended, where the stream has or hasn't.
    fn is_closed_by(ended: bool) -> bool
        ensures { result ≡ kind.is_closed_by ended };

    /// A head with its content.
    fn into_message(self, alloc: Global, to_head: bool, content: Option<Bytes>) -> Self::Message
        ensures { result ≡ kind.message_of to_head self content };

    /// Where the reader is after a message.
    fn behind_message() -> ReaderPhase<Self>
        ensures { result ≡ kind.behind_message };
}
