//! A reader that is asked ahead: its answer is kept until it is used, so that no act reads bytes twice, and a message
//! that finds no memory on its way isn't lost.
ghost use Rattle.std.specs.Prelude.{◌≡◌, ◌+◌, ◌≤◌, [], true, OnOk, OnErr, IfSome, is_some};
ghost use Rattle.hx_framing.specs.Progress.{Progress, progress_after_answer};
ghost use Rattle.hx_framing.specs.declared.messages.Next.{Next};
ghost use Rattle.hx_framing.specs.declared.messages.Next.TheVariants as next;
ghost use Rattle.proxy_engine.specs.Lookahead.{LookaheadShowsAnswer, lookahead_after_input, lookahead_is_due};
ghost use Rattle.proxy_engine.specs.Lookahead.{one_if_message_or_continue, one_if_maybe_due};
ghost use Rattle.hx_framing.specs.declared.messages.Request.{Request};
ghost use Rattle.hx_framing.specs.RequestStream.{StreamSpells};
ghost use Rattle.proxy_engine.specs.PeekableReader.{PeekedRepresents, RequestRepresents, peeked_work_left};
ghost use Rattle.proxy_engine.specs.Exhausted.{lookahead_is_unknown};

use crate::endpoints::lookahead::Lookahead;
use crate::endpoints::readers::Reader;
use hx_framing::{Next, RequestReader};
use std::alloc::{AllocError, Global};

/// A reader whose next answer is kept until it is used. What comes of its stream goes to `inner`, and then it is asked
/// again.
pub struct PeekableReader<R: Reader> {
    pub(crate) inner: R,
    ahead: Lookahead<R::Message>,
}

/// One call drops it, wherever that is.
impl<R: Reader> Drop for PeekableReader<R> {
    fn drop(self) {
        let PeekableReader { inner: _, ahead: _ } = self;
    }
}

impl<R: Reader> PeekableReader<R> {
    /// Of a reader to which nothing has come, so that nothing is due.
    pub fn new(reader: R) -> Self
        ensures represents { (p : Progress R.Message) → R.ReaderRepresentsStream reader p → R.Answers p next.More
            → PeekedRepresents R.ReaderRepresentsStream R.Answers result p }
        ensures load { peeked_work_left R.weight result ≡ R.weight reader }
        ensures quiet { result.ahead ≡ Lookahead.Quiet }
    {
        PeekableReader {
            inner: reader,
            ahead: Lookahead::Quiet,
        }
    }

    /// More of the stream has come, or its end: where nothing was due yet, something may be now.
    pub(crate) fn forget_quiet_lookahead(&mut self)
        ensures inner { self.new.inner ≡ self.old.inner }
        ensures ahead { self.new.ahead ≡ lookahead_after_input self.old.ahead }
    {
        match self.ahead {
            Lookahead::Unknown => {}
            Lookahead::Quiet => self.ahead = Lookahead::Unknown,
            Lookahead::Due(_) => {}
        }
    }

    /// Sees what is due next, and keeps it. Whatever it answers, it stands for the same streams.
    pub fn look_ahead(&mut self, alloc: Global) -> Result<(), AllocError>
        ensures represents { (p : Progress R.Message) → PeekedRepresents R.ReaderRepresentsStream R.Answers self.old p
            → PeekedRepresents R.ReaderRepresentsStream R.Answers self.new p }
        ensures looked { OnOk result ((a : Next R.Message) × LookaheadShowsAnswer self.new.ahead a) }
        ensures unknown { OnErr result (lookahead_is_unknown self.new.ahead ≡ true) }
        ensures load { peeked_work_left R.weight self.new ≤ peeked_work_left R.weight self.old }
        ensures unsettled { one_if_maybe_due self.new.ahead ≤ one_if_maybe_due self.old.ahead }
    {
        match self.ahead {
            Lookahead::Unknown => {
                if self.inner.is_quiet() {
                    self.ahead = Lookahead::Quiet;
                    Ok(())
                } else {
                    self.read(alloc)
                }
            }
            Lookahead::Quiet => Ok(()),
            Lookahead::Due(_) => Ok(()),
        }
    }

    /// Reads what is due next, of which nothing is known.
    fn read(&mut self, alloc: Global) -> Result<(), AllocError>
        requires { self.old.ahead ≡ Lookahead.Unknown }
        ensures represents { (p : Progress R.Message) → PeekedRepresents R.ReaderRepresentsStream R.Answers self.old p
            → PeekedRepresents R.ReaderRepresentsStream R.Answers self.new p }
        ensures looked { OnOk result ((a : Next R.Message) × LookaheadShowsAnswer self.new.ahead a) }
        ensures unknown { OnErr result (lookahead_is_unknown self.new.ahead ≡ true) }
        ensures load { peeked_work_left R.weight self.new ≤ peeked_work_left R.weight self.old }
        ensures unsettled { one_if_maybe_due self.new.ahead ≤ one_if_maybe_due self.old.ahead }
    {
        match self.inner.next(alloc) {
            Ok(next) => {
                match self.ahead {
                    // Told once more, so that nothing is moved out to be dropped.
                    Lookahead::Unknown => {
                        self.ahead = Lookahead::from_next(next);
                    }
                    Lookahead::Quiet => unreachable!(),
                    Lookahead::Due(_) => unreachable!(),
                }
                Ok(())
            }
            Err(fault) => Err(fault),
        }
    }

    /// What is due next, if `look_ahead` has found something.
    pub fn peek(&self) -> Option<&Next<R::Message>>
        ensures variant { is_some result ≡ lookahead_is_due self.now.ahead }
        ensures value { IfSome result (λ next. self.now.ahead ≡ Lookahead.Due next.now) }
    {
        self.ahead.due()
    }

    /// Goes on after what is due.
    pub fn pass(&mut self)
        ensures represents { (p : Progress R.Message) → (a : Next R.Message) → self.old.ahead ≡ Lookahead.Due a
            → PeekedRepresents R.ReaderRepresentsStream R.Answers self.old p
            → PeekedRepresents R.ReaderRepresentsStream R.Answers self.new (progress_after_answer p a) }
        ensures load { peeked_work_left R.weight self.new + one_if_message_or_continue self.old.ahead
            ≤ peeked_work_left R.weight self.old }
    {
        self.ahead = Lookahead::Unknown;
    }
}

impl PeekableReader<RequestReader> {
    /// Whether each byte of the stream belongs to a request that was used.
    pub(crate) fn is_between_requests(&self) -> bool
        ensures { (p : Progress Request) → RequestRepresents self.now p → result ≡ true
            → StreamSpells p.max_body p.stream p.given [] }
    {
        match self.ahead {
            Lookahead::Unknown => self.inner.is_between_requests(),
            Lookahead::Quiet => self.inner.is_between_requests(),
            Lookahead::Due(_) => false,
        }
    }
}
