//! What is known of the next answer of a reader.
ghost use Rattle.std.specs.Prelude.{◌≡◌, IfSome, is_some};
ghost use Rattle.proxy_engine.specs.Lookahead.{lookahead_of_reader_answer, lookahead_is_due};

use hx_framing::Next;

/// What is known of the next answer: nothing, that nothing is due yet, or what is due.
#[derive(Drop)]
pub enum Lookahead<M> {
    Unknown,
    Quiet,
    Due(Next<M>),
}

impl<M: Drop> Lookahead<M> {
    /// What an answer tells.
    pub(crate) fn from_next(next: Next<M>) -> Lookahead<M>
        ensures { result ≡ lookahead_of_reader_answer next }
    {
        match next {
            Next::More => Lookahead::Quiet,
            Next::NeedsContinue => Lookahead::Due(Next::NeedsContinue),
            Next::Message(message) => Lookahead::Due(Next::Message(message)),
            Next::Refused(fault) => Lookahead::Due(Next::Refused(fault)),
            Next::End => Lookahead::Due(Next::End),
        }
    }

    /// What is due.
    pub(crate) fn due(&self) -> Option<&Next<M>>
        ensures variant { is_some result ≡ lookahead_is_due self.now }
        ensures value { IfSome result (λ next. self.now ≡ Lookahead.Due next.now) }
    {
        match self {
            Lookahead::Unknown => None,
            Lookahead::Quiet => None,
            Lookahead::Due(next) => match next {
                Next::More => None,
                Next::NeedsContinue => Some(next),
                Next::Message(_) => Some(next),
                Next::Refused(_) => Some(next),
                Next::End => Some(next),
            },
        }
    }
}
