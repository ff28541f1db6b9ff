//! What is told of a response that a purge expired, and who waits for it: the function's contract is the cases, and its
//! body is empty.

ghost use Rattle.std.specs.Prelude.{◌≡◌, ◌∷◌, [], Some, codes, negsuc, pos, true};
ghost use Rattle.hx_policy.specs.Policies.{plain};
ghost use Rattle.hx_reuse.specs.declared.rule.ReuseRule.TheVariants.{MustRevalidate, NoMaxStale};
ghost use Rattle.proxy_core.specs.Cases.{stored_from_first_answer, exchange_forwarded_on_stale, get_a_with, purged_at};
ghost use Rattle.proxy_core.specs.Cases.{stale_stored_with_directives};
ghost use Rattle.proxy_core.specs.Cases.{stored_without_response_delay, wait_for_stale_policy};
ghost use Rattle.proxy_core.specs.Awaiting.{leader_of_request};
ghost use Rattle.proxy_core.specs.Replies.{ttl_of_stored};

/// A response of a minute that was purged 9 seconds after it was received, a second after it was asked for, has no
/// second left then, and is 20 past its lifetime at 130. A request waits for it as for any that is over, also where the
/// purge came at once.
#[tactic(auto, unfolding(hx_age::specs::Lifetime::lifetime_of))]
pub fn worked_ttl_after_a_purge()
    ensures not_purged { ttl_of_stored (plain true) stored_from_first_answer 110 ≡ pos 50 }
    ensures at_the_purge { ttl_of_stored (plain true) (purged_at 110 stored_from_first_answer) 110 ≡ pos 0 }
    ensures later { ttl_of_stored (plain true) (purged_at 110 stored_from_first_answer) 130 ≡ negsuc 19 }
    ensures awaited { leader_of_request wait_for_stale_policy (purged_at 110 stored_from_first_answer ∷ [])
        (exchange_forwarded_on_stale ∷ []) (get_a_with []) NoMaxStale ≡ Some 1 }
    ensures awaited_at_once { leader_of_request wait_for_stale_policy
        (purged_at 101 (stored_without_response_delay stored_from_first_answer) ∷ [])
        (exchange_forwarded_on_stale ∷ []) (get_a_with []) NoMaxStale ≡ Some 1 }
    ensures never_sent_stale { leader_of_request wait_for_stale_policy
        (purged_at 101 (stored_without_response_delay (stale_stored_with_directives (codes "max-age=10, must-revalidate"))) ∷ [])
        (exchange_forwarded_on_stale ∷ []) (get_a_with []) MustRevalidate ≡ Some 1 }
{}
