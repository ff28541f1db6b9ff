//! Who leads on where the client of a leader goes away, computed from the definitions: each function's contract is the
//! cases, and its body is empty.

ghost use Rattle.std.specs.Prelude.{◌≡◌, ◌∷◌, [], None, Some, true, codes};
ghost use Rattle.hx_policy.specs.Policies.{plain};
ghost use Rattle.proxy_core.specs.LeadingOn.{exchanges_after_abandon, as_next_leader, next_leader};
ghost use Rattle.proxy_core.specs.Cases.{exchanges_with_leader_and_waiters, stages_of_exchanges, table_with_policy};
ghost use Rattle.proxy_core.specs.Cases.{table_with_wait_timeout_5};
ghost use Rattle.proxy_core.specs.Cases.{wait_for_stale_policy, fills_ranges_policy, get_a_for_range, get_a_if_changed};
ghost use Rattle.proxy_core.specs.Cases.{get_a_with, get_a_with_authorization};
ghost use Rattle.proxy_core.specs.Cases.{get_a_with_no_store, exchange_waiting_for};
ghost use Rattle.proxy_core.specs.Cases.{exchanges_waiting_for_first};
ghost use Rattle.proxy_core.specs.Cases.{forwarded_on_miss};
ghost use Rattle.proxy_core.specs.declared.open.stage.Stage.TheVariants.{Forwarded, Released, Waiting};

/// The exchange 1 leaves, for which 2, 3 and 5 wait, and 4 waits for 7. The first that waits leads on, and the others
/// wait for it: any request over a line without the word but one whose range goes to the origin, and over one with the
/// word none with no-store, and none whose own condition goes to the origin.
#[tactic(auto, unfolding(hx_allow::specs::Matching::policy_of))]
pub fn worked_next_leaders()
    ensures the_first { stages_of_exchanges (exchanges_after_abandon (table_with_wait_timeout_5 (plain true)) 1
        (exchanges_with_leader_and_waiters (get_a_with []))) ≡ Released ∷ Waiting 2 ∷ Waiting 7 ∷ Waiting 2 ∷ [] }
    ensures no_store { stages_of_exchanges (exchanges_after_abandon (table_with_wait_timeout_5 (plain true)) 1
        (exchanges_with_leader_and_waiters get_a_with_no_store)) ≡ Released ∷ Waiting 2 ∷ Waiting 7 ∷ Waiting 2 ∷ [] }
    ensures no_store_by_the_word { stages_of_exchanges
        (exchanges_after_abandon (table_with_wait_timeout_5 wait_for_stale_policy) 1
        (exchanges_with_leader_and_waiters get_a_with_no_store)) ≡ Waiting 3 ∷ Released ∷ Waiting 7 ∷ Waiting 3 ∷ [] }
    ensures a_condition { stages_of_exchanges (exchanges_after_abandon (table_with_wait_timeout_5 (plain true)) 1
        (exchanges_with_leader_and_waiters get_a_if_changed)) ≡ Released ∷ Waiting 2 ∷ Waiting 7 ∷ Waiting 2 ∷ [] }
    ensures a_condition_by_the_word { stages_of_exchanges
        (exchanges_after_abandon (table_with_wait_timeout_5 wait_for_stale_policy) 1
        (exchanges_with_leader_and_waiters get_a_if_changed)) ≡ Waiting 3 ∷ Released ∷ Waiting 7 ∷ Waiting 3 ∷ [] }
    ensures a_range { stages_of_exchanges (exchanges_after_abandon (table_with_wait_timeout_5 (plain true)) 1
        (exchanges_with_leader_and_waiters (get_a_for_range (codes "bytes=1-1") [])))
        ≡ Waiting 3 ∷ Released ∷ Waiting 7 ∷ Waiting 3 ∷ [] }
    ensures a_filled_range { stages_of_exchanges
        (exchanges_after_abandon (table_with_wait_timeout_5 fills_ranges_policy) 1
        (exchanges_with_leader_and_waiters (get_a_for_range (codes "bytes=1-1") [])))
        ≡ Released ∷ Waiting 2 ∷ Waiting 7 ∷ Waiting 2 ∷ [] }
{}

/// One that couldn't be sent the answer to the next leader goes by itself: over a line with the word the one that alone
/// has Authorization. Where the next leader leaves, too, the one behind it leads on; where nobody may lead on, and over
/// a table whose waits have no end, each goes by itself.
#[tactic(auto, unfolding(hx_allow::specs::Matching::policy_of))]
pub fn worked_followers_of_the_next_leader()
    ensures without_authorization { stages_of_exchanges
        (exchanges_after_abandon (table_with_wait_timeout_5 wait_for_stale_policy) 1
        (exchanges_with_leader_and_waiters get_a_with_authorization)) ≡ Released ∷ Released ∷ Waiting 7 ∷ Released
        ∷ [] }
    ensures over_a_plain_line { stages_of_exchanges (exchanges_after_abandon (table_with_wait_timeout_5 (plain true)) 1
        (exchanges_with_leader_and_waiters get_a_with_authorization)) ≡ Released ∷ Waiting 2 ∷ Waiting 7 ∷ Waiting 2
        ∷ [] }
    ensures one_behind_the_other { stages_of_exchanges
        (exchanges_after_abandon (table_with_wait_timeout_5 (plain true)) 2
        (exchanges_after_abandon (table_with_wait_timeout_5 (plain true)) 1
        (exchanges_with_leader_and_waiters (get_a_with []))))
        ≡ Released ∷ Waiting 7 ∷ Waiting 3 ∷ [] }
    ensures nobody { stages_of_exchanges (exchanges_after_abandon (table_with_wait_timeout_5 wait_for_stale_policy) 1
        (forwarded_on_miss (get_a_with []) ∷ exchange_waiting_for 1 2 get_a_with_no_store
        ∷ exchange_waiting_for 1 3 get_a_with_no_store ∷ [])) ≡ Released ∷ Released ∷ [] }
    ensures without_an_end { stages_of_exchanges (exchanges_after_abandon (table_with_policy wait_for_stale_policy) 1
        (exchanges_with_leader_and_waiters (get_a_with []))) ≡ Released ∷ Released ∷ Waiting 7 ∷ Released ∷ [] }
    ensures who_waits_leaves { stages_of_exchanges (exchanges_after_abandon (table_with_wait_timeout_5 (plain true)) 3
        (exchanges_with_leader_and_waiters (get_a_with []))) ≡ Forwarded ∷ Waiting 1 ∷ Waiting 7 ∷ Waiting 1 ∷ [] }
{}

/// Where 512 wait for the one that leaves, the first of them leads on, however many wait for another; where one more
/// waits, nobody does.
#[tactic(auto, unfolding(hx_allow::specs::Matching::policy_of))]
pub fn at_most_512_follow_the_next_leader()
    ensures most { next_leader (table_with_wait_timeout_5 (plain true)) 1 (exchanges_waiting_for_first 512)
        ≡ Some (as_next_leader (exchange_waiting_for 1 513 (get_a_with []))) }
    ensures one_more { next_leader (table_with_wait_timeout_5 (plain true)) 1 (exchanges_waiting_for_first 513) ≡ None }
    ensures for_another { next_leader (table_with_wait_timeout_5 (plain true)) 1
        (exchange_waiting_for 7 4 (get_a_with []) ∷ exchanges_waiting_for_first 512)
        ≡ Some (as_next_leader (exchange_waiting_for 1 513 (get_a_with []))) }
{}
