//! What the definitions say of policies and statuses: each function's contract is a law or worked
//! cases, and its body is empty.
ghost use Rattle.std.specs.Prelude.{◌≡◌, ◌≤◌, ◌<◌, ℕ, Bool, Some, None, true, false, if◌then◌else◌};
ghost use Rattle.hx_policy.specs.Policies.{plain, is_heuristic_status, lifetime_given_by_policy};
ghost use Rattle.hx_policy.specs.declared.words.Policy.{Policy as Words};

/// A line that has no word gives no lifetime and no stale-if-error, takes each stated lifetime as it is, stores and
/// heeds what the written rules say, lets nobody wait for what is stale nor be sent it meanwhile, tells no storing
/// rule, leaves the conditions of clients and their ranges to the origin, and lets each tag of an answer be seen.
pub fn plain_policy_changes_no_rule()
    ensures caches { (caches : Bool) → (plain caches).caches ≡ caches }
    ensures lifetime { (caches : Bool) (status : ℕ) → lifetime_given_by_policy (plain caches) status ≡ None }
    ensures most { (caches : Bool) → (plain caches).lifetime_most ≡ None }
    ensures on_error { (caches : Bool) → (plain caches).stale_if_error ≡ None }
    ensures cookies { (caches : Bool) → (plain caches).stores_cookies ≡ true }
    ensures cookies_of_all { (caches : Bool) → (plain caches).removes_set_cookie ≡ false }
    ensures responses_with_cookies { (caches : Bool) → (plain caches).gives_to_set_cookie ≡ true }
    ensures requests_with_cookies { (caches : Bool) → (plain caches).gives_to_cookies ≡ true }
    ensures errors { (caches : Bool) → (plain caches).stores_errors ≡ true }
    ensures requests { (caches : Bool) → (plain caches).heeds_requests ≡ true }
    ensures waiting { (caches : Bool) → (plain caches).waits_for_stale ≡ false }
    ensures revalidating { (caches : Bool) → (plain caches).sends_while_revalidating ≡ false }
    ensures while_revalidating { (caches : Bool) → (plain caches).stale_while_revalidate ≡ None }
    ensures storing { (caches : Bool) → (plain caches).explains_storing ≡ false }
    ensures conditions { (caches : Bool) → (plain caches).forwards_conditions ≡ true }
    ensures ranges { (caches : Bool) → (plain caches).forwards_ranges ≡ true }
    ensures filled_ranges { (caches : Bool) → (plain caches).fills_ranges ≡ false }
    ensures tags { (caches : Bool) → (plain caches).hides_tags ≡ false }
{}

/// A lifetime is given to a status that is heuristically cacheable, and to no other (RFC 9111, section 4.2.2): that of
/// errors to an error, and that of all others to every other.
pub fn a_lifetime_is_given_to_heuristic_statuses_alone()
    ensures given { (words : Words) (status : ℕ) → is_heuristic_status status ≡ true → status < 400
        → lifetime_given_by_policy words status ≡ words.lifetime }
    ensures to_errors { (words : Words) (status : ℕ) → is_heuristic_status status ≡ true → 400 ≤ status
        → lifetime_given_by_policy words status ≡ words.error_lifetime }
    ensures other { (words : Words) (status : ℕ) → is_heuristic_status status ≡ false
        → lifetime_given_by_policy words status ≡ None }
{}

/// Where errors have the lifetime of all others, as in the versions of the table before the fourth, every heuristically
/// cacheable status is given that one.
pub fn equal_lifetimes_reach_all_heuristic_statuses()
    ensures { (words : Words) (status : ℕ) → words.error_lifetime ≡ words.lifetime
        → lifetime_given_by_policy words status ≡ (if is_heuristic_status status then words.lifetime else None) }
{}

/// Who is given which lifetime, status by status.
pub fn worked_lifetimes_of_statuses()
    ensures of_200 { (words : Words) → lifetime_given_by_policy words 200 ≡ words.lifetime }
    ensures of_203 { (words : Words) → lifetime_given_by_policy words 203 ≡ words.lifetime }
    ensures of_204 { (words : Words) → lifetime_given_by_policy words 204 ≡ words.lifetime }
    ensures of_300 { (words : Words) → lifetime_given_by_policy words 300 ≡ words.lifetime }
    ensures of_301 { (words : Words) → lifetime_given_by_policy words 301 ≡ words.lifetime }
    ensures of_302 { (words : Words) → lifetime_given_by_policy words 302 ≡ None }
    ensures of_308 { (words : Words) → lifetime_given_by_policy words 308 ≡ words.lifetime }
    ensures of_400 { (words : Words) → lifetime_given_by_policy words 400 ≡ None }
    ensures of_403 { (words : Words) → lifetime_given_by_policy words 403 ≡ None }
    ensures of_404 { (words : Words) → lifetime_given_by_policy words 404 ≡ words.error_lifetime }
    ensures of_405 { (words : Words) → lifetime_given_by_policy words 405 ≡ words.error_lifetime }
    ensures of_410 { (words : Words) → lifetime_given_by_policy words 410 ≡ words.error_lifetime }
    ensures of_414 { (words : Words) → lifetime_given_by_policy words 414 ≡ words.error_lifetime }
    ensures of_500 { (words : Words) → lifetime_given_by_policy words 500 ≡ None }
    ensures of_501 { (words : Words) → lifetime_given_by_policy words 501 ≡ words.error_lifetime }
    ensures of_503 { (words : Words) → lifetime_given_by_policy words 503 ≡ None }
{}

/// The statuses that RFC 9110, section 15.1 calls heuristically cacheable.
pub fn worked_heuristically_cacheable_statuses()
    ensures status_200 { is_heuristic_status 200 ≡ true }
    ensures status_203 { is_heuristic_status 203 ≡ true }
    ensures status_204 { is_heuristic_status 204 ≡ true }
    ensures status_206 { is_heuristic_status 206 ≡ true }
    ensures status_300 { is_heuristic_status 300 ≡ true }
    ensures status_301 { is_heuristic_status 301 ≡ true }
    ensures status_308 { is_heuristic_status 308 ≡ true }
    ensures status_404 { is_heuristic_status 404 ≡ true }
    ensures status_405 { is_heuristic_status 405 ≡ true }
    ensures status_410 { is_heuristic_status 410 ≡ true }
    ensures status_414 { is_heuristic_status 414 ≡ true }
    ensures status_501 { is_heuristic_status 501 ≡ true }
{}

/// The other statuses of that standard aren't (RFC 9110, sections 15.2 to 15.6).
pub fn worked_other_statuses_are_not_cacheable()
    ensures status_100 { is_heuristic_status 100 ≡ false }
    ensures status_101 { is_heuristic_status 101 ≡ false }
    ensures status_201 { is_heuristic_status 201 ≡ false }
    ensures status_202 { is_heuristic_status 202 ≡ false }
    ensures status_205 { is_heuristic_status 205 ≡ false }
    ensures status_302 { is_heuristic_status 302 ≡ false }
    ensures status_303 { is_heuristic_status 303 ≡ false }
    ensures status_304 { is_heuristic_status 304 ≡ false }
    ensures status_305 { is_heuristic_status 305 ≡ false }
    ensures status_307 { is_heuristic_status 307 ≡ false }
    ensures status_400 { is_heuristic_status 400 ≡ false }
    ensures status_401 { is_heuristic_status 401 ≡ false }
    ensures status_402 { is_heuristic_status 402 ≡ false }
    ensures status_403 { is_heuristic_status 403 ≡ false }
    ensures status_406 { is_heuristic_status 406 ≡ false }
    ensures status_407 { is_heuristic_status 407 ≡ false }
    ensures status_408 { is_heuristic_status 408 ≡ false }
    ensures status_409 { is_heuristic_status 409 ≡ false }
    ensures status_411 { is_heuristic_status 411 ≡ false }
    ensures status_412 { is_heuristic_status 412 ≡ false }
    ensures status_413 { is_heuristic_status 413 ≡ false }
    ensures status_415 { is_heuristic_status 415 ≡ false }
    ensures status_416 { is_heuristic_status 416 ≡ false }
    ensures status_417 { is_heuristic_status 417 ≡ false }
    ensures status_421 { is_heuristic_status 421 ≡ false }
    ensures status_422 { is_heuristic_status 422 ≡ false }
    ensures status_426 { is_heuristic_status 426 ≡ false }
    ensures status_500 { is_heuristic_status 500 ≡ false }
    ensures status_502 { is_heuristic_status 502 ≡ false }
    ensures status_503 { is_heuristic_status 503 ≡ false }
    ensures status_504 { is_heuristic_status 504 ≡ false }
    ensures status_505 { is_heuristic_status 505 ≡ false }
{}
