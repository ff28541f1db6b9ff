//! What goes on of a message: its lines without those of one connection, and what the proxy adds to them.

use crate::case_file::Case;
use crate::field_lines::fields_of;
use crate::lines::{Fault, Line};
use crate::parts::{Part, lines_of, write_fields};
use crate::requests::asked_by;
use crate::reuse::said_in_front;
use crate::text::push_shown;
use crate::validation::conditions_of;
use hx_fields::{Bytes, START_OF_YEAR_10000};
use hx_framing::{Response, write_request};
use hx_hop::{Answered, Asked, Conditions, answered, forward_request, strip};
use hx_policy::Policy;
use hx_reuse::withholds_conditions;
use std::alloc::{AllocError, Global};

/// The lines without those of one connection.
pub fn stripping(text: &mut String, front: &[Line<'_>], case: &Case<'_>) -> Result<(), Fault> {
    let lines = lines_of(*text.allocator(), front, case)?;
    let fields = fields_of(*text.allocator(), lines.as_slice())?;
    let stripped = strip(*text.allocator(), &fields)?;
    Ok(write_fields(text, &stripped)?)
}

fn answered_at(alloc: Global, part: &Part<'_>, now: u64) -> Result<Answered, Fault> {
    if now >= START_OF_YEAR_10000 {
        return Err(part.head.fault("a moment that no date names"));
    }
    let response = Response {
        status: 200,
        fields: part.fields.copy(alloc)?,
        content: Bytes::new(alloc),
        announced: None,
    };
    Ok(answered(alloc, &response, now)?)
}

/// The lines of a response that came `at` a moment, as they are sent and stored.
pub fn responses(text: &mut String, label: Line<'_>, parts: &[Part<'_>]) -> Result<(), Fault> {
    let [response] = parts else {
        return Err(label.fault("not one response"));
    };
    let moment = response.head.text.strip_prefix("at ").unwrap_or("");
    let Ok(now) = moment.parse::<u64>() else {
        return Err(response.head.fault("no `at SECOND`"));
    };
    let answered = answered_at(*text.allocator(), response, now)?;
    Ok(write_fields(text, &answered.fields)?)
}

fn write_sent(
    text: &mut String,
    asked: &Asked,
    conditions: Option<&Conditions>,
    policy: Policy,
) -> Result<(), AllocError> {
    let keeps = withholds_conditions(policy, asked);
    let forwarded = forward_request(*text.allocator(), asked, b"edge", conditions, keeps)?;
    let sent = write_request(*text.allocator(), &forwarded)?;
    push_shown(text, sent.as_slice())
}

/// A request as the proxy `edge` sends it on, with conditions of its own where they stand behind it, over a line with
/// the words that stand in front.
pub fn forwarding(text: &mut String, label: Line<'_>, parts: &[Part<'_>]) -> Result<(), Fault> {
    let (policy, parts) = said_in_front(parts)?;
    match parts {
        [request] => {
            let asked = asked_by(*text.allocator(), request)?;
            Ok(write_sent(text, &asked, None, policy)?)
        }
        [request, conditions] => {
            let asked = asked_by(*text.allocator(), request)?;
            let conditions = conditions_of(*text.allocator(), conditions)?;
            Ok(write_sent(text, &asked, Some(&conditions), policy)?)
        }
        _ => Err(label.fault("no request")),
    }
}
