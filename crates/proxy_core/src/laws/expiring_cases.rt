//! What a purge leaves that expires what it takes, and until when: each function's contract is a law or worked cases,
//! and its body is empty.

ghost use Rattle.std.specs.Prelude.{◌≡◌, ◌∷◌, [], Some, None, true, false, codes};
ghost use Rattle.hx_fields.specs.Examples.{line};
ghost use Rattle.hx_allow.specs.declared.verdicts.Verdict.TheVariants as verdict;
ghost use Rattle.hx_policy.specs.Policies.{plain};
ghost use Rattle.hx_reuse.specs.Rules.{decision_of};
ghost use Rattle.hx_reuse.specs.declared.decision.Decision.TheVariants.{Forward, Hit};
ghost use Rattle.hx_reuse.specs.declared.rule.ReuseRule.TheVariants.{NoMaxStale, PastMaxStale};
ghost use Rattle.hx_store.specs.Stored.{Stored};
ghost use Rattle.hx_status.specs.Abouts.{purge_status_and_reason};
ghost use Rattle.proxy_core.specs.Cases.{date_at_101, etag_field, purged_at, stored_from_first_answer};
ghost use Rattle.proxy_core.specs.Cases.{get_a_with_purge_mode_stale, get_a_with};
ghost use Rattle.proxy_core.specs.Cases.{as_overtaken, key_of_path, post_exchange, response_with};
ghost use Rattle.proxy_core.specs.Cases.{exchange_that_revalidates_e};
ghost use Rattle.proxy_core.specs.Cases.{stored_of_fields, table, four_entries_with_and_without_tags};
ghost use Rattle.proxy_core.specs.Expiring.{A304MakesFreshUnlessOvertaken, ExpiredResponseIsStaleUntilMadeFresh};
ghost use Rattle.proxy_core.specs.Expiring.{OnlyUnovertakenRequestMakesFresh, ExpiringPurgeChangesNothingElse};
ghost use Rattle.proxy_core.specs.Expiring.{RemovingPurgeChangesNothingElse, is_freshened_by_answer};
ghost use Rattle.proxy_core.specs.Outcomes.{outcome_of_arrival, outcome_of_purge};
ghost use Rattle.proxy_core.specs.Scopes.{serials_purge_expires, serials_purge_removes};
ghost use Rattle.proxy_core.specs.State.{bounds_of, entries_after_event, open_exchanges_after_event};
ghost use Rattle.proxy_core.specs.Validating.{freshened_by_304};
ghost use Rattle.proxy_core.specs.declared.event.Event.TheVariants.{Answer, Arrive};
ghost use Rattle.proxy_core.specs.declared.outcome.Outcome.TheVariants.{Reply};

/// In a good trace, after a purge that says that what it takes stays, that is held with its lifetime ended at the
/// moment of the purge; after any other purge it is held no more. All else is held as it was.
pub fn a_purge_changes_nothing_outside_its_scope()
    ensures expired { ExpiringPurgeChangesNothingElse }
    ensures removed { RemovingPurgeChangesNothingElse }
{}

/// In a good trace what a purge expired is stale until an answer makes it fresh: a 304 that answers it, to a request
/// that nothing overtook since it went forward. So none does that was asked for before the purge.
pub fn an_expired_response_is_stale_until_made_fresh()
    ensures stays { ExpiredResponseIsStaleUntilMadeFresh }
    ensures by_a_304 { A304MakesFreshUnlessOvertaken }
    ensures asked_behind { OnlyUnovertakenRequestMakesFresh }
{}

/// What a purge of `/a` at 130 does that expires, of what is held for `/a` and for `/b`: what stays, what is told, and
/// whose answers are overtaken.
#[tactic(auto, unfolding(httpdate::proofs::OnLiterals::httpdate_on_literals))]
pub fn worked_purges_that_expire()
    ensures removes_none { serials_purge_removes get_a_with_purge_mode_stale (stored_from_first_answer ∷ []) ≡ [] }
    ensures expires { serials_purge_expires get_a_with_purge_mode_stale (stored_from_first_answer ∷ [])
        ≡ Some (1 ∷ []) }
    ensures none_there { serials_purge_expires get_a_with_purge_mode_stale [] ≡ Some [] }
    ensures without_the_word { serials_purge_expires (get_a_with []) (stored_from_first_answer ∷ []) ≡ None }
    ensures by_its_tag { serials_purge_expires (get_a_with (line (codes "Purge-Mode") (codes "stale")
        ∷ line (codes "Purge-Tag") (codes "news") ∷ [])) four_entries_with_and_without_tags ≡ Some (1 ∷ 4 ∷ []) }
    ensures of_a_host { serials_purge_expires (get_a_with (line (codes "Purge-Scope") (codes "host")
        ∷ line (codes "Purge-Mode") (codes "stale") ∷ line (codes "Purge-Tag") (codes "news") ∷ [])) four_entries_with_and_without_tags
        ≡ Some (1 ∷ []) }
    ensures told { outcome_of_arrival table (stored_from_first_answer
        ∷ []) [] 130 get_a_with_purge_mode_stale (verdict.Purged 3)
        ≡ Reply (record {
          bytes = codes "HTTP/1.1 204 \r\nDate: Thu, 01 Jan 1970 00:02:10 GMT\r\nPurged: 1\r\n\r\n";
          close = false;
          about = purge_status_and_reason 1;
          stored = None;
          used = None;
          removed = [];
          expired = Some (1 ∷ []);
          purged = true;
        }) }
    ensures stays { entries_after_event (bounds_of table 9) (record stored_from_first_answer {
      serial = 2;
      key = key_of_path (codes "/b");
    }
        ∷ stored_from_first_answer ∷ []) None (Arrive 130 3 get_a_with_purge_mode_stale) (outcome_of_purge
        (record stored_from_first_answer { serial = 2; key = key_of_path (codes "/b") } ∷ stored_from_first_answer
        ∷ []) 130 get_a_with_purge_mode_stale)
        ≡ record stored_from_first_answer { serial = 2; key = key_of_path (codes "/b") }
        ∷ purged_at 130 stored_from_first_answer ∷ [] }
    ensures ends_but_once { entries_after_event (bounds_of table 9) (purged_at 130 stored_from_first_answer ∷ []) None
        (Arrive 140 3 get_a_with_purge_mode_stale) (outcome_of_purge (purged_at 130 stored_from_first_answer
        ∷ []) 140 get_a_with_purge_mode_stale)
        ≡ purged_at 130 stored_from_first_answer ∷ [] }
    ensures goes { entries_after_event (bounds_of table 9) (purged_at 130 stored_from_first_answer ∷ []) None
        (Arrive 140 3 (get_a_with [])) (outcome_of_purge (purged_at 130 stored_from_first_answer
        ∷ []) 140 (get_a_with [])) ≡ [] }
    ensures overtakes { open_exchanges_after_event table []
        (post_exchange 1 (codes "/a") ∷ post_exchange 2 (codes "/b") ∷ [])
        (Arrive 130 3 get_a_with_purge_mode_stale) (outcome_of_purge [] 130 get_a_with_purge_mode_stale)
        ≡ as_overtaken (post_exchange 1 (codes "/a")) ∷ post_exchange 2 (codes "/b") ∷ [] }
{}

/// A response that was made at 101, came within a second and is fresh for a minute, is sent before 160. Where a purge
/// at 130 expired it, it is sent before that moment, and then revalidated as a stale one is: its age is 30 then, and so
/// is its lifetime (RFC 9111, sections 4.2 and 4.2.3).
#[tactic(auto, unfolding(hx_reuse::specs::Rules::decision_of, hx_reuse::specs::Rules::least_reuse_rule_of))]
pub fn an_expired_response_is_stale()
    ensures fresh { decision_of (plain true) (stored_from_first_answer ∷ []) (get_a_with []) 159 ≡ Hit 1 }
    ensures over { decision_of (plain true) (stored_from_first_answer ∷ []) (get_a_with []) 160
        ≡ Forward NoMaxStale (Some 1) }
    ensures before { decision_of (plain true) (purged_at 130 stored_from_first_answer ∷ []) (get_a_with []) 129
        ≡ Hit 1 }
    ensures at_that_moment { decision_of (plain true) (purged_at 130 stored_from_first_answer ∷ []) (get_a_with []) 130
        ≡ Forward NoMaxStale (Some 1) }
    ensures later { decision_of (plain true) (purged_at 130 stored_from_first_answer ∷ []) (get_a_with []) 160
        ≡ Forward NoMaxStale (Some 1) }
    ensures to_who_takes_it { decision_of (plain true) (purged_at 130 stored_from_first_answer ∷ [])
        (get_a_with (line (codes "Cache-Control") (codes "max-stale=30") ∷ [])) 160 ≡ Hit 1 }
    ensures to_who_takes_less { decision_of (plain true) (purged_at 130 stored_from_first_answer ∷ [])
        (get_a_with (line (codes "Cache-Control") (codes "max-stale=29") ∷ [])) 160 ≡ Forward PastMaxStale (Some 1) }
{}

/// A 304 makes it fresh, unless its request was overtaken: then the response stays expired as it was, with the other
/// times of the 304.
#[tactic(auto, unfolding(httpdate::proofs::OnLiterals::httpdate_on_literals, hx_validate::specs::Answering::freshened_of))]
pub fn a_304_makes_an_expired_response_fresh()
    ensures fresh { (freshened_by_304 (exchange_that_revalidates_e (get_a_with [])) (response_with 304 (date_at_101
        ∷ [])) 105
        (purged_at 103 (stored_of_fields 1 (etag_field (codes "\"e\"") ∷ [])))).times
        ≡ record { date = 101; age_value = 0; request_time = 100; response_time = 105; expired = None } }
    ensures overtaken { (freshened_by_304 (as_overtaken (exchange_that_revalidates_e (get_a_with [])))
        (response_with 304 (date_at_101 ∷ [])) 105
        (purged_at 103 (stored_of_fields 1 (etag_field (codes "\"e\"") ∷ [])))).times
        ≡ record { date = 101; age_value = 0; request_time = 100; response_time = 105; expired = Some 103 } }
    ensures overtaken_by_another { (freshened_by_304 (as_overtaken (exchange_that_revalidates_e (get_a_with [])))
        (response_with 304 (date_at_101 ∷ [])) 105 (stored_of_fields 1 (etag_field (codes "\"e\"") ∷ []))).times
        ≡ record { date = 101; age_value = 0; request_time = 100; response_time = 105; expired = None } }
    ensures item_makes_response_fresh { is_freshened_by_answer (Some (exchange_that_revalidates_e (get_a_with [])))
        (Answer 105 1 (response_with 304 []))
        (Some (purged_at 103 (stored_of_fields 1 (etag_field (codes "\"e\"") ∷ [])))) ≡ true }
    ensures makes_none_fresh { is_freshened_by_answer
        (Some (as_overtaken (exchange_that_revalidates_e (get_a_with []))))
        (Answer 105 1 (response_with 304 [])) (Some (purged_at 103 (stored_of_fields 1 (etag_field (codes "\"e\"") ∷ []))))
        ≡ false }
    ensures another_status { is_freshened_by_answer (Some (exchange_that_revalidates_e (get_a_with [])))
        (Answer 105 1 (response_with 200 []))
        (Some (purged_at 103 (stored_of_fields 1 (etag_field (codes "\"e\"") ∷ [])))) ≡ false }
{}
