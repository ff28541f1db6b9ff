//! Whether the range of a request stays with the proxy, which asks for the whole, or goes to the origin.
ghost use Rattle.std.specs.Prelude.{◌≡◌, IfOk};
ghost use Rattle.hx_reuse.specs.FilledRanges.{fetches_whole_for_range, forwards_range, request_without_range};

use hx_hop::Asked;
use hx_policy::Policy;
use std::alloc::{AllocError, Global};

/// Whether a request that asks for a range goes to the origin as one for the whole, from which its range is cut: over
/// a line that fills ranges a GET that a stored response could answer (RFC 9110, section 14.2). No memory is taken.
pub fn fetches_whole_for_range(policy: Policy, asked: &Asked) -> bool
    ensures { result ≡ fetches_whole_for_range policy asked.now }
{
    policy.fills_ranges
        && policy.caches
        && asked.method.as_str() == "GET"
        && asked.asks_for_range()
        && !(asked.has_content() || asked.has_precondition_for_origin())
}

/// Whether a request asks for a range that goes to the origin with it. No memory is taken.
pub fn forwards_range(policy: Policy, asked: &Asked) -> bool
    ensures { result ≡ forwards_range policy asked.now }
{
    asked.asks_for_range() && !fetches_whole_for_range(policy, asked)
}

/// The same request without Range and If-Range (RFC 9110, sections 13.1.5 and 14.2). Its only error is out of memory.
pub fn request_without_range(alloc: Global, asked: &Asked) -> Result<Asked, AllocError>
    ensures { IfOk result (λ whole. whole ≡ request_without_range asked.now) }
{
    let mut whole = asked.copy(alloc)?;
    whole.fields.remove_named(b"Range");
    whole.fields.remove_named(b"If-Range");
    Ok(whole)
}
