//! Who leads on where the client of a leader goes away before its answer.
ghost use Rattle.std.specs.Prelude.{◌≡◌, ◌==◌, ◌&&◌, not, Some};
ghost use Rattle.proxy_core.specs.Leading.{waits_for};
ghost use Rattle.proxy_core.specs.LeadingOn.{wait_is_limited, may_lead_next};
ghost use Rattle.proxy_core.specs.LeadingOn.{as_next_leader, follows_next_leader, stage_after_leader};

use crate::open::exchange::Exchange;
use crate::open::leading::{has_authorization, waits_for as stage_waits_for};
use crate::open::stage::Stage;
use hx_allow::Table;
use hx_reuse::{forwards_client_condition, forwards_range};

/// So many are led on at most, since each is looked at.
pub(crate) const MOST_FOLLOWERS_LED_ON: usize = 512;

/// What those that are to wait for the next leader have to know of it.
#[derive(Clone, Copy)]
pub(crate) struct NextLeader {
    pub(crate) id: u64,
    /// Whether its request has Authorization.
    pub(crate) authorized: bool,
}

impl NextLeader {
    /// The exchange as the next leader.
    pub(crate) fn of(exchange: &Exchange) -> Self
        ensures { result ≡ as_next_leader exchange.now }
    {
        NextLeader {
            id: exchange.id,
            authorized: has_authorization(&exchange.asked),
        }
    }
}

/// Whether the request of an exchange waits for a limited time, over its line.
fn wait_is_limited(config: &Table, exchange: &Exchange) -> bool
    ensures { result ≡ wait_is_limited config.now exchange.now }
{
    config.wait_timeout(exchange.line.number).is_some()
}

/// Whether others could be sent the answer to the request of an exchange that waits, should it go forward.
fn may_lead_next(config: &Table, exchange: &Exchange) -> bool
    ensures { result ≡ may_lead_next config.now exchange.now }
{
    let policy = config.policy(exchange.line);
    wait_is_limited(config, exchange)
        && !forwards_range(policy, &exchange.asked)
        && (!policy.waits_for_stale
            || (!exchange.no_store && !forwards_client_condition(policy, &exchange.asked)))
}

/// Whether an exchange is another than the one of this id, waits for it, and may lead on.
pub(crate) fn may_become_next_leader(config: &Table, id: u64, exchange: &Exchange) -> bool
    ensures { result ≡ (not (exchange.now.id == id)
        && (waits_for id exchange.now.stage && may_lead_next config.now exchange.now)) }
{
    exchange.id != id && stage_waits_for(exchange.stage, id) && may_lead_next(config, exchange)
}

/// Whether an exchange that waits could be sent the answer to the next leader.
pub(crate) fn follows_next_leader(config: &Table, next: NextLeader, exchange: &Exchange) -> bool
    ensures { result ≡ follows_next_leader config.now next exchange.now }
{
    let policy = config.policy(exchange.line);
    exchange.id != next.id
        && wait_is_limited(config, exchange)
        && (!policy.waits_for_stale || has_authorization(&exchange.asked) == next.authorized)
}

/// Whether an exchange waits for the next leader from now on, or may be woken.
pub(crate) fn stage_after_leader(config: &Table, next: NextLeader, exchange: &Exchange) -> Stage
    ensures { result ≡ stage_after_leader config.now (Some next) exchange.now }
{
    if follows_next_leader(config, next, exchange) {
        Stage::Waiting(next.id)
    } else {
        Stage::Released
    }
}
