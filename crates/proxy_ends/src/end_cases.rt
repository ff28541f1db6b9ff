//! What the definitions of times and of streams give on worked cases, computed from them: each function's contract is
//! the cases, and its body is empty. Times are milliseconds.

ghost use Rattle.std.specs.Prelude.{◌≡◌, ℕ, ◌∷◌, [], Some, None, true, false};
ghost use Rattle.std.specs.declared.alloc.Global.{Global};
ghost use Rattle.proxy_figures.specs.declared.link_timeouts.ExceededLinkLimit.TheVariants.{Connect, Silence, Exchange};
ghost use Rattle.proxy_reads.specs.declared.received.Received.TheVariants as received;
ghost use Rattle.proxy_ends.specs.Cases.{example_client_heard_at_100, limits, example_link_begun_at_90};
ghost use Rattle.proxy_ends.specs.Cases.{link_without_stream};
ghost use Rattle.proxy_ends.specs.Cases.{link_with_origin_timeout_1, limits_with_origin_timeout_60};
ghost use Rattle.proxy_ends.specs.Cases.{example_peer_heard_at_100};
ghost use Rattle.proxy_ends.specs.Closing.{PlaceIsInQueue};
ghost use Rattle.proxy_streams.specs.Peers.{Bytes, Ended};
ghost use Rattle.proxy_ends.specs.Connecting.{link_is_connecting};
ghost use Rattle.proxy_ends.specs.Timeouts.{milliseconds_open_of_link, client_is_half_closed_and_idle_too_long};
ghost use Rattle.proxy_ends.specs.Timeouts.{client_is_absent_or_half_closed_too_long, client_is_silent};
ghost use Rattle.proxy_ends.specs.Timeouts.{client_waited_seconds_for_another, end_of_wait_since, moment_has_come};
ghost use Rattle.proxy_ends.specs.Timeouts.{close_timeout_is_over, has_lasted_longer, incomplete_since};
ghost use Rattle.proxy_ends.specs.Timeouts.{exceeded_limit_of_link, link_time_is_over, first_overtime_moment_of_link};
ghost use Rattle.proxy_ends.specs.Timeouts.{milliseconds_since};
ghost use Rattle.proxy_ends.specs.Streams.{OneReadIsReported, bytes_held_of_peer, bytes_given_by_reads};
ghost use Rattle.proxy_ends.specs.Streams.{client_has_bytes_not_handed_in};
ghost use Rattle.proxy_ends.specs.Streams.{client_is_absent_or_broken, client_is_idle, client_may_have_input};
ghost use Rattle.proxy_ends.specs.Streams.{link_is_to_be_listed_for_read};
ghost use Rattle.proxy_ends.specs.Streams.{number_of_client_to_list, peer_is_broken, peer_failed_to_connect};
ghost use Rattle.proxy_ends.specs.Streams.{received_bytes};
ghost use Rattle.proxy_ends.specs.Streams.{input_bytes_not_handed_in};
ghost use Rattle.proxy_ends.specs.declared.clients.client.ClientStreamState.TheVariants as place;
ghost use Rattle.proxy_pacing.specs.declared.stream_queues.ClosedStreamQueue.TheVariants.{Leaving, Lingering};

/// A time is over where it was passed, and not where it is just reached. Who has sent something isn't silent.
pub fn worked_times_of_clients()
    ensures reached { has_lasted_longer 100 (Some 95) 5 ≡ false }
    ensures passed { has_lasted_longer 100 (Some 94) 5 ≡ true }
    ensures never_began { has_lasted_longer 100 None 5 ≡ false }
    ensures ahead { has_lasted_longer 100 (Some 200) 5 ≡ false }
    ensures stays { client_is_half_closed_and_idle_too_long 100 None 0 5 ≡ false }
    ensures left { client_is_half_closed_and_idle_too_long 100 (Some 90) 90 5 ≡ true }
    ensures takes_still { client_is_half_closed_and_idle_too_long 100 (Some 90) 96 5 ≡ false }
    ensures left_since { client_is_half_closed_and_idle_too_long 100 (Some 95) 90 5 ≡ false }
    ensures takes_nothing { close_timeout_is_over Leaving limits 30101 100 0 ≡ true }
    ensures takes { close_timeout_is_over Leaving limits 30100 100 0 ≡ false }
    ensures quiet { close_timeout_is_over Lingering limits 5101 100 5000 ≡ true }
    ensures not_quiet_yet { close_timeout_is_over Lingering limits 5100 100 5000 ≡ false }
    ensures sends_on { close_timeout_is_over Lingering limits 30101 30000 100 ≡ true }
    ensures sends { close_timeout_is_over Lingering limits 30100 30000 100 ≡ false }
    ensures begins { incomplete_since 7 None ≡ Some 7 }
    ensures goes_on { incomplete_since 9 (Some 7) ≡ Some 7 }
    ensures lasted { milliseconds_since 100 (Some 93) ≡ 7 }
    ensures lasted_not { milliseconds_since 100 None ≡ 0 }
    ensures nobody { client_is_silent {S = ℕ} 5 100 None ≡ true }
    ensures client { (alloc : Global) → client_is_silent 5 106 (Some (example_client_heard_at_100 alloc false [] None))
        ≡ true }
    ensures client_just { (alloc : Global)
        → client_is_silent 5 105 (Some (example_client_heard_at_100 alloc false [] None)) ≡ false }
    ensures has_sent { (alloc : Global)
        → client_is_silent 5 106 (Some (example_client_heard_at_100 alloc false [] (Some (1 ∷ [])))) ≡ false }
    ensures nobody_left { client_is_absent_or_half_closed_too_long {S = ℕ} 5 100 None ≡ true }
    ensures is_there { (alloc : Global)
        → client_is_absent_or_half_closed_too_long 5 900 (Some (example_client_heard_at_100 alloc false [] None))
        ≡ false }
{}

/// Until when a request waits for the answer to another: seconds from its first byte on.
pub fn worked_ends_of_waits()
    ensures end { end_of_wait_since 2 (Some 100) ≡ Some 2100 }
    ensures no_byte { end_of_wait_since 2 None ≡ None }
    ensures no_client { client_waited_seconds_for_another {S = ℕ} 2 9000 None ≡ false }
    ensures over { moment_has_come 2100 (end_of_wait_since 2 (Some 100)) ≡ true }
    ensures not_over { moment_has_come 2099 (end_of_wait_since 2 (Some 100)) ≡ false }
{}

/// Of a link all of its time counts first, then that of its connection, then the origin's silence.
pub fn worked_times_of_links()
    ensures all { exceeded_limit_of_link (example_link_begun_at_90 true) limits 191 ≡ Some Exchange }
    ensures connection { exceeded_limit_of_link (example_link_begun_at_90 true) limits 101 ≡ Some Connect }
    ensures connection_just { exceeded_limit_of_link (example_link_begun_at_90 true) limits 100 ≡ None }
    ensures silence { exceeded_limit_of_link (example_link_begun_at_90 false) limits 121 ≡ Some Silence }
    ensures silence_just { exceeded_limit_of_link (example_link_begun_at_90 false) limits 120 ≡ None }
    ensures over { link_time_is_over (Some (example_link_begun_at_90 false)) limits 121 ≡ true }
    ensures not_over { link_time_is_over (Some (example_link_begun_at_90 false)) limits 120 ≡ false }
    ensures empty_stream_progress { link_time_is_over (Some link_without_stream) limits 90 ≡ true }
    ensures no_link { link_time_is_over {S = ℕ} None limits 90 ≡ true }
    ensures age { milliseconds_open_of_link 100 (Some link_without_stream) ≡ 10 }
    ensures no_age { milliseconds_open_of_link {S = ℕ} 100 None ≡ 0 }
    ensures first { first_overtime_moment_of_link limits (example_link_begun_at_90 true) ≡ 101 }
    ensures first_silence { first_overtime_moment_of_link limits (example_link_begun_at_90 false) ≡ 121 }
    ensures first_of_none { first_overtime_moment_of_link limits link_without_stream ≡ 191 }
    ensures by_its_line { exceeded_limit_of_link (link_with_origin_timeout_1 false) limits_with_origin_timeout_60 1101
        ≡ Some Silence }
    ensures by_its_line_just { exceeded_limit_of_link
        (link_with_origin_timeout_1 false) limits_with_origin_timeout_60 1100
        ≡ None }
    ensures without_a_word { exceeded_limit_of_link (example_link_begun_at_90 false) limits_with_origin_timeout_60 60100
        ≡ None }
    ensures without_a_word_over { exceeded_limit_of_link
        (example_link_begun_at_90 false) limits_with_origin_timeout_60 60101
        ≡ Some Silence }
    ensures longer_than_all { exceeded_limit_of_link (link_with_origin_timeout_1 false) limits 1101 ≡ Some Exchange }
    ensures connects_as_others { exceeded_limit_of_link
        (link_with_origin_timeout_1 true) limits_with_origin_timeout_60 101
        ≡ Some Connect }
    ensures first_by_its_line { first_overtime_moment_of_link limits_with_origin_timeout_60
        (link_with_origin_timeout_1 false) ≡ 1101 }
    ensures first_of_all { first_overtime_moment_of_link limits (link_with_origin_timeout_1 false) ≡ 191 }
    ensures connecting { link_is_connecting (Some (example_link_begun_at_90 true)) ≡ true }
    ensures connected { link_is_connecting (Some (example_link_begun_at_90 false)) ≡ false }
    ensures without_stream { link_is_connecting (Some link_without_stream) ≡ false }
{}

/// Who may give something: who has taken everything, and of whom something is left to be read or to be handed in. What
/// reads told.
pub fn worked_clients_with_input()
    ensures gives { (alloc : Global) → client_may_have_input (example_client_heard_at_100 alloc true [] None) ≡ true }
    ensures gives_rest { (alloc : Global)
        → client_may_have_input (example_client_heard_at_100 alloc false [] (Some (1 ∷ []))) ≡ true }
    ensures gives_nothing { (alloc : Global) → client_may_have_input (example_client_heard_at_100 alloc false [] None)
        ≡ false }
    ensures takes_first { (alloc : Global)
        → client_may_have_input (example_client_heard_at_100 alloc true (1 ∷ []) None) ≡ false }
    ensures empty_rest { client_has_bytes_not_handed_in (Some []) ≡ false }
    ensures rest { client_has_bytes_not_handed_in (Some (1 ∷ [])) ≡ true }
    ensures no_rest { client_has_bytes_not_handed_in None ≡ false }
    ensures its_rest { input_bytes_not_handed_in (Some (1 ∷ [])) ≡ 1 ∷ [] }
    ensures listed { (alloc : Global) → number_of_client_to_list (Some (example_client_heard_at_100 alloc true [] None))
        ≡ Some 7 }
    ensures not_listed { (alloc : Global)
        → number_of_client_to_list (Some (example_client_heard_at_100 alloc false [] None))
        ≡ None }
    ensures idle { (alloc : Global) → client_is_idle (example_client_heard_at_100 alloc true [] None) ≡ true }
    ensures has_more { (alloc : Global) → client_is_idle (example_client_heard_at_100 alloc true [] (Some (1 ∷ [])))
        ≡ false }
    ensures link_listed { link_is_to_be_listed_for_read (Some (example_link_begun_at_90 false)) ≡ false }
    ensures no_link { link_is_to_be_listed_for_read {S = ℕ} None ≡ false }
    ensures nobody_is_cut { client_is_absent_or_broken {S = ℕ} None ≡ true }
    ensures whole { peer_is_broken (Some (example_peer_heard_at_100 true [])) ≡ false }
    ensures not_lost { peer_failed_to_connect (Some (example_peer_heard_at_100 true [])) ≡ false }
    ensures held { bytes_held_of_peer (Some (example_peer_heard_at_100 true (1 ∷ (2 ∷ [])))) ≡ 2 }
    ensures of_reads { bytes_given_by_reads (Bytes (1 ∷ []) ∷ Ended ∷ Bytes (2 ∷ (3 ∷ [])) ∷ []) ≡ 1 ∷ (2 ∷ (3 ∷ [])) }
    ensures handed_in { received_bytes (received.Bytes 2) (1 ∷ (2 ∷ (3 ∷ []))) ≡ 1 ∷ (2 ∷ []) }
    ensures none_handed_in { received_bytes received.End (1 ∷ []) ≡ [] }
    ensures no_read { OneReadIsReported [] received.End [] → ⊥ }
    ensures two_reads { OneReadIsReported (Ended ∷ Ended ∷ []) received.End [] → ⊥ }
    ensures stands { PlaceIsInQueue Leaving (place.In Leaving 3) }
    ensures known { PlaceIsInQueue Leaving (place.Open 3) → ⊥ }
{}
