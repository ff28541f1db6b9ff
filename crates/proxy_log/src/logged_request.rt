//! What a client asked for, as a line of the log names it.
ghost use Rattle.std.specs.Prelude.{◌≡◌};
ghost use Rattle.proxy_log.specs.Asked.{asked_words, asked_words_of_head, words_of_replied_question};

use crate::request_line::method_and_target_of_head;
use hx_status::{AskedTarget, MethodAndTarget};
use hx_target::Key;

/// The target of a request, as a line names it.
#[derive(Clone, Copy)]
pub enum LoggedTarget<'a> {
    /// A target URI, without its scheme (RFC 9110, section 7.1).
    Uri(&'a Key),
    /// As it came where it is none; empty where none could be read.
    AsItCame(&'a [u8]),
}

/// What a client asked for. It owns none of it: a line is written where it is known.
#[derive(Clone, Copy)]
pub struct LoggedRequest<'a> {
    /// Empty where none could be read.
    pub method: &'a [u8],
    pub target: LoggedTarget<'a>,
}

impl<'a> LoggedRequest<'a> {
    /// What a reply says that it answers.
    pub fn of_replied_question(question: &'a MethodAndTarget) -> LoggedRequest<'a>
        ensures { asked_words result ≡ words_of_replied_question question.now }
    {
        LoggedRequest {
            method: question.method.as_str().as_bytes(),
            target: match &question.target {
                AskedTarget::Uri(key) => LoggedTarget::Uri(key),
                AskedTarget::AsItCame(target) => LoggedTarget::AsItCame(target.as_slice()),
            },
        }
    }

    /// What the request line says with which a head begins, where that line is whole and has no fault; the target is
    /// as it came. Nothing where it isn't.
    pub fn of_head(head: &'a [u8]) -> LoggedRequest<'a>
        ensures { asked_words result ≡ asked_words_of_head head.now }
    {
        let (method, target) = method_and_target_of_head(head).unwrap_or((b"", b""));
        LoggedRequest {
            method,
            target: LoggedTarget::AsItCame(target),
        }
    }
}
