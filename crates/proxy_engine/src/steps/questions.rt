//! What a client asked for, as it is told with its reply.
ghost use Rattle.std.specs.Prelude.{◌≡◌, IfOk};
ghost use Rattle.std.specs.Option.{option_map};
ghost use Rattle.proxy_engine.specs.Questions.{question_of_request, question_with_raw_target};

use http::Method;
use hx_fields::Bytes;
use hx_framing::Request;
use hx_hop::Asked;
use hx_status::{AskedTarget, MethodAndTarget};
use hx_target::Key;
use std::alloc::{AllocError, Global};
use std::mem::replace;

/// A key of no request. It takes no memory.
fn empty_key(alloc: Global) -> Key {
    Key {
        host: Bytes::new(alloc),
        port: 0,
        path_query: Bytes::new(alloc),
    }
}

/// What a request asked for. Its method and its key are taken out of it, so no memory is asked for.
fn question_of_request(alloc: Global, mut asked: Asked) -> MethodAndTarget
    ensures { result ≡ question_of_request asked }
{
    MethodAndTarget {
        method: replace(&mut asked.method, Method::GET),
        target: AskedTarget::Uri(replace(&mut asked.target.key, empty_key(alloc))),
    }
}

/// The same of the request that a step answered, if it did.
pub(crate) fn question_of_asked_if_any(
    alloc: Global,
    asked: Option<Asked>,
) -> Option<MethodAndTarget>
    ensures { result ≡ option_map question_of_request asked }
{
    match asked {
        Some(asked) => Some(question_of_request(alloc, asked)),
        None => None,
    }
}

/// What a request asks for that is refused because its target is none. Its only error is out of memory.
pub(crate) fn question_with_raw_target(
    alloc: Global,
    request: &Request,
) -> Result<MethodAndTarget, AllocError>
    ensures { IfOk result (λ question. question ≡ question_with_raw_target request.now) }
{
    Ok(MethodAndTarget {
        method: request.method.clone()?,
        target: AskedTarget::AsItCame(request.target.copy(alloc)?),
    })
}
