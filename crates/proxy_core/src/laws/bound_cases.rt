//! What answers weigh, which of them are too large, and what is held within a bound of bytes, worked out by hand: each
//! function's contract is the cases, and its body is empty.

ghost use Rattle.std.specs.Prelude.{◌≡◌, ◌∷◌, [], Some, None, true, false, codes};
ghost use Rattle.hx_fields.specs.Examples.{line};
ghost use Rattle.proxy_core.specs.Bounds.{trace_that_freshens_a, trace_that_sends_stored_a, table_with_store_bound};
ghost use Rattle.proxy_core.specs.Bounds.{store_that_starts_with_two_responses};
ghost use Rattle.proxy_core.specs.Bounds.{trace_that_stores_a_and_b};
ghost use Rattle.proxy_core.specs.Cases.{accept_language_line, cache_control, date_at_101, forwarded_on_miss};
ghost use Rattle.proxy_core.specs.Cases.{get_a_with};
ghost use Rattle.proxy_core.specs.Cases.{get_a_by_scheme, response_with, stored_of_fields, exchange_varying_by_scheme};
ghost use Rattle.proxy_core.specs.Cases.{vary_field};
ghost use Rattle.proxy_core.specs.Histories.{held_entries, held_serials};
ghost use Rattle.proxy_core.specs.Starts.{empty_store};
ghost use Rattle.proxy_core.specs.Storing.{answer_is_too_large_to_store, weight_of_answer};
ghost use Rattle.proxy_core.specs.Validating.{stored_is_too_large};

/// An answer to a GET of `/a` at `h` with two bytes of content, a Date of 37 bytes with its end and a Cache-Control of
/// 27. Vary has 23 more, and what it names of the request 17; Age has 8. What the line names for Vary has a name of 17
/// and a value of 5.
#[tactic(auto, unfolding(httpdate::proofs::OnLiterals::httpdate_on_literals))]
pub fn worked_weights_of_answers()
    ensures plain { weight_of_answer (forwarded_on_miss (get_a_with []))
        (response_with 200 (date_at_101 ∷ cache_control (codes "max-age=60") ∷ [])) 130 ≡ 1272 }
    ensures nominating { weight_of_answer (forwarded_on_miss (get_a_with (accept_language_line (codes "en") ∷ [])))
        (response_with 200 (vary_field (codes "Accept-Language") ∷ date_at_101 ∷ cache_control (codes "max-age=60") ∷ []))
        130 ≡ 1312 }
    ensures varied { weight_of_answer (exchange_varying_by_scheme (forwarded_on_miss (get_a_by_scheme (codes "https"))))
        (response_with 200 (date_at_101 ∷ cache_control (codes "max-age=60") ∷ [])) 130 ≡ 1294 }
    ensures aged { weight_of_answer (forwarded_on_miss (get_a_with []))
        (response_with 200 (line (codes "Age") (codes "5") ∷ date_at_101 ∷ cache_control (codes "max-age=60") ∷ [])) 130
        ≡ 1280 }
{}

/// What weighs as much as the whole store may isn't too large, and a byte more is. What nominates a star isn't asked
/// for its weight, and without a bound nothing is too heavy.
#[tactic(auto, unfolding(httpdate::proofs::OnLiterals::httpdate_on_literals))]
pub fn worked_answers_too_large_for_the_store()
    ensures just { answer_is_too_large_to_store (table_with_store_bound (Some 1272)) (forwarded_on_miss (get_a_with []))
        (response_with 200 (date_at_101 ∷ cache_control (codes "max-age=60") ∷ [])) 130 ≡ false }
    ensures a_byte_less { answer_is_too_large_to_store (table_with_store_bound (Some 1271))
        (forwarded_on_miss (get_a_with []))
        (response_with 200 (date_at_101 ∷ cache_control (codes "max-age=60") ∷ [])) 130 ≡ true }
    ensures unbounded { answer_is_too_large_to_store (table_with_store_bound None) (forwarded_on_miss (get_a_with []))
        (response_with 200 (date_at_101 ∷ cache_control (codes "max-age=60") ∷ [])) 130 ≡ false }
    ensures star { answer_is_too_large_to_store (table_with_store_bound (Some 1)) (forwarded_on_miss (get_a_with []))
        (response_with 200 (vary_field (codes "*") ∷ date_at_101 ∷ [])) 130 ≡ false }
    ensures kept { stored_is_too_large (table_with_store_bound (Some 1235))
        (stored_of_fields 1 (cache_control (codes "max-age=60") ∷ [])) ≡ false }
    ensures not_kept { stored_is_too_large (table_with_store_bound (Some 1234))
        (stored_of_fields 1 (cache_control (codes "max-age=60") ∷ [])) ≡ true }
    ensures kept_unbounded { stored_is_too_large (table_with_store_bound None)
        (stored_of_fields 1 (cache_control (codes "max-age=60") ∷ [])) ≡ false }
{}

/// 1 weighs 1,282 bytes and 2 weighs 1,272. Both are held where there is room for 2,554, and the first goes where there
/// is a byte less, or room for one by number. The 304 makes the first a byte heavier, and it comes first: then the
/// second goes, unless there is room for that byte.
#[tactic(auto, unfolding(hx_validate::specs::Answering::freshened_of, httpdate::proofs::OnLiterals::httpdate_on_literals, hx_allow::specs::Matching::policy_of, hx_reuse::specs::Rules::least_reuse_rule_of, hx_reuse::specs::Rules::decision_of, hx_age::specs::Lifetime::lifetime_of))]
pub fn worked_store_bounded_by_bytes()
    ensures just { held_serials (table_with_store_bound (Some 2554)) (empty_store 5) trace_that_stores_a_and_b ≡ 2 ∷ 1
        ∷ [] }
    ensures a_byte_less { held_serials (table_with_store_bound (Some 2553)) (empty_store 5) trace_that_stores_a_and_b
        ≡ 2
        ∷ [] }
    ensures unbounded { held_serials (table_with_store_bound None) (empty_store 5) trace_that_stores_a_and_b ≡ 2 ∷ 1
        ∷ [] }
    ensures by_number { held_serials (table_with_store_bound (Some 2554)) (empty_store 1) trace_that_stores_a_and_b ≡ 2
        ∷ [] }
    ensures freshened { held_serials (table_with_store_bound (Some 2554)) (empty_store 5) trace_that_freshens_a ≡ 1
        ∷ [] }
    ensures freshened_with_room { held_serials (table_with_store_bound (Some 2555))
        (empty_store 5) trace_that_freshens_a
        ≡ 1 ∷ 2 ∷ [] }
{}

/// What is held at first is held in its order of use, and what is used comes first.
#[tactic(auto, unfolding(hx_validate::specs::Answering::freshened_of, httpdate::proofs::OnLiterals::httpdate_on_literals, hx_allow::specs::Matching::policy_of, hx_reuse::specs::Rules::least_reuse_rule_of, hx_reuse::specs::Rules::decision_of, hx_age::specs::Lifetime::lifetime_of))]
pub fn worked_store_at_the_start()
    ensures at_first { held_serials (table_with_store_bound None) store_that_starts_with_two_responses [] ≡ 2 ∷ 1 ∷ [] }
    ensures entries { held_entries (table_with_store_bound None) store_that_starts_with_two_responses []
        ≡ stored_of_fields 2 []
        ∷ stored_of_fields 1 [] ∷ [] }
    ensures used { held_serials
        (table_with_store_bound None) store_that_starts_with_two_responses trace_that_sends_stored_a
        ≡ 1 ∷ 2 ∷ [] }
    ensures none { held_serials (table_with_store_bound None) (empty_store 2) [] ≡ [] }
{}
