//! The words of an answer: the Cache-Status member (RFC 9211) that says how a request was handled, and
//! the proxy's own refusals.
//!
//! `specs/Member.antt` and `specs/Refusals.antt` say each text to the byte. No other crate makes one.
#![tactic(auto)]

mod about;
mod cache_status;
mod cause;
pub mod laws;
mod own_replies;
mod question;
mod status;
mod worked_cases;

pub use crate::about::{ReplyData, StatusAndReason, Told, push_reply_reason_text};
pub use crate::cache_status::member;
pub use crate::cause::{Cause, FailKind};
pub use crate::own_replies::refusal;
pub use crate::question::{AskedTarget, MethodAndTarget};
pub use crate::status::{Detail, How, Status};
