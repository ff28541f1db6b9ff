//! What a line says of caching, in a case: `words` and each word as `lifetime=60`, with the values of the operator's
//! table of version 4. A line of version 3 with that lifetime has `error-lifetime=60` too. One of version 4 has
//! `conditions=answered` without that word, `ranges=served` without a word on ranges, and where it gives a lifetime
//! `cookies=private` and, without a word on Set-Cookie, `set-cookie-lifetime=none`; where it has
//! `wait=missing-or-stale` also `while-revalidating=sent`. The last two are no words of a table.

use hx_policy::Policy;
use std::alloc::AllocError;

/// A policy with one word more.
fn with_word(policy: Policy, word: &str) -> Option<Policy> {
    let mut policy = policy;
    match word.split_once('=')? {
        ("lifetime", seconds) => policy.lifetime = Some(seconds.parse::<u32>().ok()?),
        ("error-lifetime", seconds) => policy.error_lifetime = Some(seconds.parse::<u32>().ok()?),
        ("lifetime-most", seconds) => policy.lifetime_most = Some(seconds.parse::<u32>().ok()?),
        ("stale-if-error", seconds) => policy.stale_if_error = Some(seconds.parse::<u32>().ok()?),
        ("stale-while-revalidate", seconds) => {
            policy.stale_while_revalidate = Some(seconds.parse::<u32>().ok()?);
        }
        ("set-cookie", "not-stored") => policy.stores_cookies = false,
        ("set-cookie", "removed") => policy.removes_set_cookie = true,
        ("set-cookie-lifetime", "none") => policy.gives_to_set_cookie = false,
        ("cookies", "private") => policy.gives_to_cookies = false,
        ("errors", "not-stored") => policy.stores_errors = false,
        ("request-directives", "ignored") => policy.heeds_requests = false,
        ("wait", "missing-or-stale") => policy.waits_for_stale = true,
        ("while-revalidating", "sent") => policy.sends_while_revalidating = true,
        ("explain", "storing") => policy.explains_storing = true,
        ("conditions", "answered") => policy.forwards_conditions = false,
        ("tags", "hidden") => policy.hides_tags = true,
        ("ranges", "served") => policy.forwards_ranges = false,
        ("ranges", "filled") => {
            policy.forwards_ranges = false;
            policy.fills_ranges = true;
        }
        _ => return None,
    }
    Some(policy)
}

/// The policy that a text names, or None where it isn't such a text.
pub fn policy_of(text: &str) -> Option<Policy> {
    let mut policy = Policy::plain(true);
    for word in text.strip_prefix("words ")?.split(' ') {
        policy = with_word(policy, word)?;
    }
    Some(policy)
}

/// Writes each word of a policy that isn't as it is without words in versions 1 to 3, behind a space. Whom it gives a
/// lifetime matters where it gives one.
pub fn write_words(text: &mut String, policy: Policy) -> Result<(), AllocError> {
    if !policy.caches {
        text.push_str(" cache=off")?;
    }
    for (key, seconds) in [
        ("lifetime", policy.lifetime),
        ("error-lifetime", policy.error_lifetime),
        ("lifetime-most", policy.lifetime_most),
        ("stale-if-error", policy.stale_if_error),
        ("stale-while-revalidate", policy.stale_while_revalidate),
    ] {
        if let Some(seconds) = seconds {
            write!(text, " {key}={seconds}")?;
        }
    }
    let gives = policy.lifetime.is_some() || policy.error_lifetime.is_some();
    for (is_so, word) in [
        (!policy.stores_cookies, " set-cookie=not-stored"),
        (policy.removes_set_cookie, " set-cookie=removed"),
        (
            gives && !policy.gives_to_set_cookie,
            " set-cookie-lifetime=none",
        ),
        (gives && !policy.gives_to_cookies, " cookies=private"),
        (!policy.stores_errors, " errors=not-stored"),
        (!policy.heeds_requests, " request-directives=ignored"),
        (policy.waits_for_stale, " wait=missing-or-stale"),
        (policy.sends_while_revalidating, " while-revalidating=sent"),
        (policy.explains_storing, " explain=storing"),
        (!policy.forwards_conditions, " conditions=answered"),
        (policy.fills_ranges, " ranges=filled"),
        (
            !policy.forwards_ranges && !policy.fills_ranges,
            " ranges=served",
        ),
    ] {
        if is_so {
            text.push_str(word)?;
        }
    }
    Ok(())
}
