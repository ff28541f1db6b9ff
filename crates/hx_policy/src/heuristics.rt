//! The statuses that are heuristically cacheable, and those that tell an error.
ghost use Rattle.std.specs.Prelude.{◌≡◌};
ghost use Rattle.hx_policy.specs.Policies.{is_error, is_heuristic_status};

/// Whether a status is heuristically cacheable (RFC 9110, section 15.1).
pub fn is_heuristic_status(status: u16) -> bool
    ensures { result ≡ is_heuristic_status status }
{
    matches!(
        status,
        200 | 203 | 204 | 206 | 300 | 301 | 308 | 404 | 405 | 410 | 414 | 501
    )
}

/// Whether a status tells an error, of the client or of the server (RFC 9110, sections 15.5 and 15.6).
pub(crate) fn is_error(status: u16) -> bool
    ensures { result ≡ is_error status }
{
    status >= 400
}
