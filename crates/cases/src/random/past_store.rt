//! What is checked of requests that the table sends past the store, in its own words: their answers are those of the
//! origin, told to be the operator's choice, or the proxy's own; no other answer says so.

use super::fields::last_value;
use bstr::ByteSlice;

/// What Cache-Status says of each answer of an origin to such a request.
const CACHE_STATUS_PAST_STORE: &[u8] = b"edge;fwd=bypass;detail=operator";

/// How the proxy's own answers to such a request begin: a fault of the request, or one of the two causes below.
const REQUEST_FAULT_PREFIX: &[u8] = b"refused: ";

const ONLY_IF_CACHED: &[u8] = b"only-if-cached;fwd=bypass;detail=operator";

const FAILURES: [&[u8]; 5] = [
    b"origin refused;fwd=bypass;detail=operator",
    b"origin timed-out;fwd=bypass;detail=operator",
    b"origin closed;fwd=bypass;detail=operator",
    b"origin bad-answer;fwd=bypass;detail=operator",
    b"origin too-large;fwd=bypass;detail=operator",
];

fn is_proxys_own_answer(refusal: &[u8]) -> bool {
    refusal.starts_with(REQUEST_FAULT_PREFIX)
        || refusal == ONLY_IF_CACHED
        || FAILURES.contains(&refusal)
}

/// Whether the head of an answer is that of one past the store.
pub fn shows_past_store(head: &[u8]) -> bool {
    match last_value(head, b"Refusal") {
        Some(refusal) => is_proxys_own_answer(refusal),
        None => last_value(head, b"Cache-Status") == Some(CACHE_STATUS_PAST_STORE),
    }
}

fn names_operator(value: Option<&[u8]>) -> bool {
    match value {
        Some(value) => value.contains_str(b"operator"),
        None => false,
    }
}

/// Whether the head of an answer says that the request went past the store.
pub fn claims_past_store(head: &[u8]) -> bool {
    names_operator(last_value(head, b"Refusal"))
        || names_operator(last_value(head, b"Cache-Status"))
}
