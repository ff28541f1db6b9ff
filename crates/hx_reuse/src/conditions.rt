//! Whether the conditions of a client stay with the proxy, or go to the origin.
ghost use Rattle.std.specs.Prelude.{◌≡◌};
ghost use Rattle.hx_reuse.specs.Conditions.{withholds_conditions, forwards_client_condition};

use hx_hop::Asked;
use hx_policy::Policy;

/// Whether the proxy keeps a client's If-None-Match and If-Modified-Since, and judges them on what it sends: over such
/// a line those of a GET that a stored response could answer (RFC 9111, section 4.3.2). No memory is taken.
pub fn withholds_conditions(policy: Policy, asked: &Asked) -> bool
    ensures { result ≡ withholds_conditions policy asked.now }
{
    !policy.forwards_conditions
        && policy.caches
        && asked.method.as_str() == "GET"
        && !(asked.has_content()
            || (!policy.fills_ranges && asked.asks_for_range())
            || asked.has_precondition_for_origin())
}

/// Whether a request has a condition of its own that goes to the origin, where the proxy sends none in its place
/// (RFC 9110, sections 13.1.2 and 13.1.3). No memory is taken.
pub fn forwards_client_condition(policy: Policy, asked: &Asked) -> bool
    ensures { result ≡ forwards_client_condition policy asked.now }
{
    !withholds_conditions(policy, asked)
        && (asked.fields.has(b"If-None-Match") || asked.fields.has(b"If-Modified-Since"))
}
