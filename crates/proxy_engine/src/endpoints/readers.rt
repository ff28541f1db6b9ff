//! What asking a reader ahead needs of it, whatever its messages are. Each reader of hx_framing keeps to it.
ghost use Rattle.std.specs.Prelude.{◌≡◌, ℕ, ◌+◌, ◌≤◌, true, IfOk, OnErr};
ghost use Rattle.hx_framing.specs.Progress.{Progress, progress_after_answer, weight_used_by_answer};
ghost use Rattle.hx_framing.specs.declared.messages.Next.{Next};
ghost use Rattle.hx_framing.specs.declared.messages.Next.TheVariants as next;

use hx_framing::{MessageHead, MessageReader, Next};
use std::alloc::{AllocError, Global};

/// A reader of a stream of messages.
pub trait Reader: Drop {
    type Message: Drop;

    /// The streams that it stands for.
    ghost ReaderRepresentsStream: { Self → Progress Self.Message → Type 0 };

    /// What is due on a stream.
    ghost Answers: { Progress Self.Message → Next Self.Message → Type 0 };

    /// A bound on what is still to come of what was fed.
    ghost weight: { Self → ℕ };

    /// Whether a look at it tells that nothing is due yet. Where it doesn't, something may be due or not.
    fn is_quiet(&self) -> bool
        ensures { result ≡ true → (p : Progress Self.Message) → ReaderRepresentsStream self.now p
            → Answers p next.More };

    /// What is due behind the messages given. An `Err` changes nothing.
    fn next(&mut self, alloc: Global) -> Result<Next<Self::Message>, AllocError>
        ensures answers { IfOk result (λ answer. (p : Progress Self.Message) → ReaderRepresentsStream self.old p
            → Answers p answer) }
        ensures represents { IfOk result (λ answer. (p : Progress Self.Message) → ReaderRepresentsStream self.old p
            → ReaderRepresentsStream self.new (progress_after_answer p answer)) }
        ensures weight { IfOk result (λ answer. weight self.new + weight_used_by_answer answer ≤ weight self.old) }
        ensures err { OnErr result (self.new ≡ self.old) };
}

impl<H: MessageHead> Reader for MessageReader<H> {
    type Message = H::Message;

    ghost ReaderRepresentsStream = { H.kind.ReaderRepresentsStream };

    ghost Answers = { H.kind.Answers };

    ghost weight = { H.kind.weight };

    fn is_quiet(&self) -> bool {
        self.is_quiet()
    }

    fn next(&mut self, alloc: Global) -> Result<Next<H::Message>, AllocError> {
        self.next(alloc)
    }
}
