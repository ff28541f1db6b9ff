//! What is sent without an answer to pass on: a stored response, the proxy's own reply, a request.
ghost use Rattle.std.specs.Prelude.{◌≡◌, ◌<◌, [], None, IfOk, option_copied};
ghost use Rattle.hx_status.specs.declared.about.Told.TheVariants.{Purged};
ghost use Rattle.proxy_core.specs.Outcomes.{outcome_of_sending_stored, outcome_of_refusal, forward_text};
ghost use Rattle.hx_framing.specs.Text.{request_text};
ghost use Rattle.hx_hop.specs.Forwarding.{forwarded_of};
ghost use Rattle.proxy_core.specs.Validating.{conditions_to_send};
ghost use Rattle.proxy_core.specs.Pending.{outcome_of_pending_reply};

use crate::core_state::Core;
use crate::replies::pending::{Change, PendingReply};
use crate::replies::reply_text::{is_head, refused};
use crate::replies::stored_reply::{ReplyTextAndAbout, StoredCacheStatusInfo, StoredReply};
use crate::steps::condition::Condition;
use hx_allow::{RouteOverLine, Table};
use hx_fields::Bytes;
use hx_framing::write_request;
use hx_hop::{Asked, Conditions, forward_request};
use hx_reuse::{fetches_whole_for_range, request_without_range, withholds_conditions};
use hx_status::{Cause, StatusAndReason, Told};
use hx_store::{Serials, Shelf};
use std::alloc::{AllocError, Global};

/// What would be sent of a response that isn't held: no decision names one.
fn nothing_to_send(alloc: Global) -> ReplyTextAndAbout
    ensures text { result.bytes ≡ [] }
    ensures about { result.about ≡ record { status = 0; told = Purged 0; content_length = 0; origin_line = None } }
{
    ReplyTextAndAbout {
        bytes: Bytes::new(alloc),
        about: StatusAndReason {
            status: 0,
            told: Told::Purged(0),
            content_length: 0,
            origin_line: None,
        },
    }
}

impl<S: Shelf> Core<S> {
    /// The reply that sends the stored response of a serial.
    pub(crate) fn send(
        &self,
        alloc: Global,
        serial: u64,
        now: u64,
        info: StoredCacheStatusInfo,
        asked: &Asked,
    ) -> Result<PendingReply, AllocError>
        ensures outcome { IfOk result (λ pending. outcome_of_pending_reply pending
            ≡ outcome_of_sending_stored self.now.table self.now.entries serial now info asked.now) }
        ensures change { IfOk result (λ pending. pending.change ≡ Change.Use serial) }
    {
        let sent = match self.shelf.peek(serial) {
            Some(entry) => {
                let reply = StoredReply {
                    name: self.config.name(),
                    entry,
                    asked,
                    info,
                    sent_at: now,
                };
                reply.text(alloc)?
            }
            None => nothing_to_send(alloc),
        };
        Ok(PendingReply {
            bytes: sent.bytes,
            close: asked.close,
            about: sent.about,
            change: Change::Use(serial),
            removed: Serials::new(alloc),
        })
    }
}

/// The proxy's own reply.
pub(crate) fn refuse(
    alloc: Global,
    now: u64,
    cause: Cause,
    asked: &Asked,
) -> Result<PendingReply, AllocError>
    requires { now < 253_402_300_800 }
    ensures outcome { IfOk result (λ pending. outcome_of_pending_reply pending
        ≡ outcome_of_refusal now cause asked.now) }
    ensures change { IfOk result (λ pending. pending.change ≡ Change.Keep) }
{
    let reply = refused(alloc, now, cause, asked.close, is_head(asked))?;
    Ok(PendingReply {
        bytes: reply.bytes,
        close: asked.close,
        about: reply.about,
        change: Change::Keep,
        removed: Serials::new(alloc),
    })
}

fn conditions_to_send(condition: Option<&Condition>) -> Option<&Conditions>
    ensures { option_copied result ≡ conditions_to_send (option_copied condition.entry) }
{
    match condition {
        Some(condition) => Some(&condition.sent),
        None => None,
    }
}

/// The bytes of a request that goes forward over a line, with the proxy's conditions or without. The client's own may
/// stay here, and so may its range.
pub(crate) fn forward_text(
    alloc: Global,
    config: &Table,
    line: RouteOverLine,
    asked: &Asked,
    condition: Option<&Condition>,
) -> Result<Bytes, AllocError>
    ensures { IfOk result (λ text. text ≡ forward_text config.now line asked.now (option_copied condition.entry)) }
{
    let policy = config.policy(line);
    let name = config.name().as_bytes();
    let keeps = withholds_conditions(policy, asked);
    if fetches_whole_for_range(policy, asked) {
        let whole = request_without_range(alloc, asked)?;
        return request_bytes(alloc, &whole, name, condition, keeps);
    }
    request_bytes(alloc, asked, name, condition, keeps)
}

fn request_bytes(
    alloc: Global,
    asked: &Asked,
    name: &[u8],
    condition: Option<&Condition>,
    keeps: bool,
) -> Result<Bytes, AllocError>
    ensures { IfOk result (λ text. text
        ≡ request_text (forwarded_of keeps asked.now name.now (conditions_to_send (option_copied condition.entry)))) }
{
    let request = forward_request(alloc, asked, name, conditions_to_send(condition), keeps)?;
    write_request(alloc, &request)
}
