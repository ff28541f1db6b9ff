//! What is known of an origin's answer.
ghost use Rattle.std.specs.Prelude.{◌≡◌, ◌<◌, IfOk};
ghost use Rattle.hx_hop.specs.Answering.{answered_of};
ghost use Rattle.proxy_core.specs.Storing.{is_304_without_condition, answer_invalidates, key_invalidated};
ghost use Rattle.proxy_core.specs.Storing.{status_invalidates};
ghost use Rattle.proxy_core.specs.Validating.{is_304_to_own_conditions};

use crate::open::exchange::Exchange;
use hx_framing::Response;
use hx_hop::{Answered, Asked, answered};
use hx_policy::Policy;
use hx_reuse::forwards_client_condition;
use hx_target::Key;
use std::alloc::{AllocError, Global};

/// Whether a status that isn't an error came in response to an unsafe request (RFC 9111, section 4.4).
pub(crate) fn status_invalidates(asked: &Asked, status: u16) -> bool
    ensures { result ≡ status_invalidates asked.now status }
{
    !asked.method.is_safe() && (200 <= status && status <= 399)
}

/// An answer of the origin to an open exchange.
#[derive(Clone, Copy)]
pub(crate) struct OriginAnswer<'a> {
    pub(crate) exchange: &'a Exchange,
    pub(crate) response: &'a Response,
    /// When it came, in Unix seconds (RFC 9111, section 4.2.3: response_time).
    pub(crate) response_time: u64,
}

impl OriginAnswer<'_> {
    /// Its head, as rules see it.
    pub(crate) fn head(&self, alloc: Global) -> Result<Answered, AllocError>
        requires { self.now.response_time < 253_402_300_800 }
        ensures { IfOk result (λ head. head ≡ answered_of self.now.response.now self.now.response_time) }
    {
        answered(alloc, self.response, self.response_time)
    }

    /// Whether it is a 304 to the proxy's conditions.
    pub(crate) fn is_304_to_own_conditions(&self) -> bool
        ensures { result ≡ is_304_to_own_conditions self.now.exchange.now self.now.response.now }
    {
        self.response.status == 304 && self.exchange.condition.is_some()
    }

    /// Whether it is a 304 to a request that went without a condition, over a line of this policy.
    pub(crate) fn is_304_without_condition(&self, policy: Policy) -> bool
        ensures { result ≡ is_304_without_condition policy self.now.exchange.now.asked self.now.response.now }
    {
        self.response.status == 304 && !forwards_client_condition(policy, &self.exchange.asked)
    }

    /// Whether it invalidates what is held for the request's key.
    pub(crate) fn invalidates(&self) -> bool
        ensures { result ≡ answer_invalidates self.now.exchange.now self.now.response.now }
    {
        status_invalidates(&self.exchange.asked, self.response.status)
            && !self.is_304_to_own_conditions()
    }

    /// The key that it invalidates.
    pub(crate) fn key_invalidated(&self, alloc: Global) -> Result<Option<Key>, AllocError>
        ensures { IfOk result (λ key. key ≡ key_invalidated self.now.exchange.now self.now.response.now) }
    {
        if self.invalidates() {
            Ok(Some(self.exchange.asked.target.key.copy(alloc)?))
        } else {
            Ok(None)
        }
    }
}
