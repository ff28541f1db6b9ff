//! What is to be done on a connection where something is due.
ghost use Rattle.std.specs.Prelude.{◌≡◌, true, IfOk, Some, is_some};
ghost use Rattle.hx_framing.specs.declared.messages.Request.{Request as Spelled};
ghost use Rattle.hx_framing.specs.declared.messages.Next.{Next as NextRead};
ghost use Rattle.hx_framing.specs.declared.messages.Next.TheVariants as next;
ghost use Rattle.proxy_engine.specs.declared.endpoints.lookahead.Lookahead.TheVariants.{Due};
ghost use Rattle.proxy_engine.specs.State.{due_request_at};
ghost use Rattle.proxy_engine.specs.Actions.{IsActionOfMessage, IsActionForReaderAnswer, action_of_fault};

use crate::endpoints::ends::Connection;
use crate::steps::questions::question_with_raw_target;
use http::Method;
use hx_framing::{FrameFault, Next, Request};
use hx_hop::{Asked, ask};
use hx_status::{Cause, MethodAndTarget};
use hx_target::TargetFault;
use std::alloc::{AllocError, Global};

/// What is to be done on a connection.
#[derive(Drop)]
pub(crate) enum Action {
    /// The client waits for a continue before it sends content (RFC 9110, section 10.1.1).
    Continue,
    /// A request arrives.
    Arrive(Asked),
    /// The proxy answers by itself and closes. The flag says whether a HEAD is answered; the question is none where no
    /// request could be read.
    Refuse(Cause, bool, Option<MethodAndTarget>),
    /// The connection is closed without an answer.
    Close,
}

/// A message arrives as a request, or is refused.
fn message_action(alloc: Global, request: &Request) -> Result<Action, AllocError>
    ensures { IfOk result (λ action. IsActionOfMessage request.now action) }
{
    match ask(alloc, request) {
        Ok(asked) => Ok(Action::Arrive(asked)),
        Err(TargetFault::OutOfMemory) => Err(AllocError),
        Err(fault) => Ok(Action::Refuse(
            Cause::Target(fault),
            request.method == Method::HEAD,
            Some(question_with_raw_target(alloc, request)?),
        )),
    }
}

/// A stream that was cut off gets no answer.
fn fault_action(fault: FrameFault) -> Action
    ensures { result ≡ action_of_fault fault }
{
    match fault {
        FrameFault::Truncated => Action::Close,
        _ => Action::Refuse(Cause::Frame(fault), false, None),
    }
}

/// What is to be done on a connection on which something is due.
pub(crate) fn action_of(connection: &Connection, alloc: Global) -> Result<Action, AllocError>
    requires { is_some (due_request_at (Some connection.now)) ≡ true }
    ensures { IfOk result (λ action. (a : NextRead Spelled) × (due_request_at (Some connection.now) ≡ Some a)
        × (connection.now.reader.ahead ≡ Due a) × IsActionForReaderAnswer a action) }
{
    match connection.reader.peek() {
        Some(next) => match next {
            Next::NeedsContinue => Ok(Action::Continue),
            Next::Message(request) => message_action(alloc, request),
            Next::Refused(fault) => Ok(fault_action(*fault)),
            Next::End => Ok(Action::Close),
            Next::More => unreachable!(),
        },
        None => unreachable!(),
    }
}
