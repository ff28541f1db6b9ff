//! Answers that may be stored: a request with its lines, an answer's status with its lines, and what else is known.
//!
//! `stored` is answered, or the number and the name of the least rule against it.

use crate::lines::{Fault, Line};
use crate::parts::{Part, write_word_answer};
use crate::policies::policy_of;
use crate::requests::asked_by;
use hx_directives::Directives;
use hx_fields::Fields;
use hx_hop::{Answered, Asked};
use hx_policy::Policy;
use hx_reuse::lifetime_under_policy;
use hx_storable::{StoreRule, StoringFacts, first_rule_against};
use hx_validate::has_validator;
use hx_vary::{Nominated, Nomination};
use std::alloc::{AllocError, Global};

/// An answer of the status that heads it.
pub fn answered_of(alloc: Global, part: &Part<'_>) -> Result<Answered, Fault> {
    let Ok(status) = part.head.text.parse::<u16>() else {
        return Err(part.head.fault("no status"));
    };
    Ok(Answered {
        status,
        fields: part.fields.copy(alloc)?,
    })
}

fn vary_is_star(alloc: Global, asked: &Asked, fields: &Fields) -> Result<bool, AllocError> {
    match Nominated::of(alloc, fields, &asked.fields)? {
        Nomination::Star => Ok(true),
        Nomination::Names(_) => Ok(false),
    }
}

/// What the lines of an answer say, and nothing else. Whether it has a lifetime is found behind the words of its line.
fn facts_of(alloc: Global, asked: &Asked, fields: &Fields) -> Result<StoringFacts, AllocError> {
    Ok(StoringFacts {
        policy: Policy::plain(true),
        vary_star: vary_is_star(alloc, asked, fields)?,
        listed: false,
        explicit: false,
        validator: has_validator(fields),
        too_large: false,
        overtaken: false,
        no_serial: false,
    })
}

/// What is known, with what a line says besides.
fn with_part(mut facts: StoringFacts, part: &Part<'_>) -> Result<StoringFacts, Fault> {
    if part.fields.len() > 0 {
        return Err(part.head.fault("field lines behind what is known besides"));
    }
    match part.head.text {
        "a line without cache" => facts.policy.caches = false,
        "Connection names a cache field" => facts.listed = true,
        "too large" => facts.too_large = true,
        "overtaken" => facts.overtaken = true,
        "no serial left" => facts.no_serial = true,
        text => match policy_of(text) {
            Some(policy) => facts.policy = policy,
            None => return Err(part.head.fault("nothing that is known of an answer")),
        },
    }
    Ok(facts)
}

fn rule_against(
    alloc: Global,
    asked: &Asked,
    answered: &Answered,
    known: &[Part<'_>],
) -> Result<Option<StoreRule>, Fault> {
    let asked_directives = Directives::of(alloc, &asked.fields)?;
    let directives = Directives::of(alloc, &answered.fields)?;
    let mut facts = facts_of(alloc, asked, &answered.fields)?;
    for part in known {
        facts = with_part(facts, part)?;
    }
    let lifetime = lifetime_under_policy(
        facts.policy,
        answered.status,
        &answered.fields,
        &directives,
    );
    facts.explicit = lifetime.explicit;
    Ok(first_rule_against(asked, &asked_directives, answered, &directives, facts))
}

fn rule_of(
    alloc: Global,
    request: &Part<'_>,
    answer: &Part<'_>,
    known: &[Part<'_>],
) -> Result<Option<StoreRule>, Fault> {
    let asked = asked_by(alloc, request)?;
    let answered = answered_of(alloc, answer)?;
    rule_against(alloc, &asked, &answered, known)
}

/// Whether an answer may be stored, or the least rule against it.
pub fn storing(text: &mut String, label: Line<'_>, parts: &[Part<'_>]) -> Result<(), Fault> {
    let [request, answer, known @ ..] = parts else {
        return Err(label.fault("no request with an answer"));
    };
    match rule_of(*text.allocator(), request, answer, known)? {
        None => write_word_answer(text, "stored"),
        Some(rule) => Ok(write!(text, "{} {:?}", rule as u8, rule)?),
    }
}
