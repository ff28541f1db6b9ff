//! What the definitions of models, of what is due and of acts give on worked cases, computed from them: each function's
//! contract is the cases, and its body is empty.

ghost use Rattle.std.specs.Prelude.{◌≡◌, ◌∷◌, [], length, map, Some, None, true, false, codes};
ghost use Rattle.hx_framing.specs.declared.messages.Next.TheVariants as next;
ghost use Rattle.hx_framing.specs.declared.frame_fault.FrameFault.TheVariants as frame;
ghost use Rattle.hx_status.specs.Abouts.{purge_status_and_reason};
ghost use Rattle.hx_status.specs.declared.cause.FailKind.TheVariants as kinds;
ghost use Rattle.hx_allow.specs.Addresses.{address_of_numbers};
ghost use Rattle.hx_allow.specs.Matching.{route_over_line};
ghost use Rattle.hx_status.specs.declared.question.AskedTarget.TheVariants.{AsItCame, Uri};
ghost use Rattle.proxy_core.specs.Cases.{get_a_with, head_request_for_a, key_of_path, exchange_waiting_for};
ghost use Rattle.proxy_core.specs.declared.event.Event.TheVariants as events;
ghost use Rattle.proxy_core.specs.declared.outcome.Outcome.TheVariants as outcomes;
ghost use Rattle.proxy_script.specs.declared.effect_list.Effect.TheVariants as effects;
ghost use Rattle.proxy_engine.specs.Happenings.{Accepts, Sends, Hears, Ends, Leaves, Retires, Overdues, Shuts, Fails};
ghost use Rattle.proxy_engine.specs.Questions.{question_of_request, request_of_event};
ghost use Rattle.proxy_engine.specs.EngineModel.{connection_at, happening_fault, model_after_happening};
ghost use Rattle.proxy_engine.specs.EngineModel.{happening_adds_connection_or_bytes, link_at};
ghost use Rattle.proxy_engine.specs.Due.{Breaks, Gives, Abandons, Finishes, Serves, Wakes, link_result_of_next};
ghost use Rattle.proxy_engine.specs.Due.{accepts_no_request, fail_kind_of_fault};
ghost use Rattle.proxy_engine.specs.Due.{due_request_action};
ghost use Rattle.proxy_engine.specs.Acts.{Forwards, Nothing, Queues, Replies, model_after_outcome};
ghost use Rattle.proxy_engine.specs.Acts.{effects_of_link_drop, origin_address_of_line, outcome_with_origin_address};
ghost use Rattle.proxy_engine.specs.Acts.{effects_of_outcome, model_after_link_freed, next_link_number};
ghost use Rattle.proxy_engine.specs.Executions.{Took, Worked, link_drop_effects_of_act, connection_place_of_act};
ghost use Rattle.proxy_engine.specs.Executions.{effects_of_steps, method_and_target_of_refused_act};
ghost use Rattle.proxy_engine.specs.ModelCases.{answer_200, model_with_dropped_link, empty_model};
ghost use Rattle.proxy_engine.specs.ModelCases.{model_with_connection, model_with_link, reply_data_for_a, request_of_a};
ghost use Rattle.proxy_engine.specs.ModelCases.{model_after_two_sends, table_of_two_origins};
ghost use Rattle.proxy_engine.specs.declared.endpoints.activities.Activity.TheVariants.{Forwarded, Free, Waiting};
ghost use Rattle.proxy_engine.specs.declared.work.EngineFault.TheVariants.{NotAccepted, NotWaiting, WrongNumber};

/// Which happenings are taken: a connection of the next number, and what comes of ends that there are.
pub fn worked_faults_of_happenings()
    ensures first { happening_fault empty_model (Accepts 1) ≡ None }
    ensures second { happening_fault empty_model (Accepts 2) ≡ Some WrongNumber }
    ensures again { happening_fault model_with_connection (Accepts 1) ≡ Some WrongNumber }
    ensures sends { happening_fault model_with_connection (Sends 1 []) ≡ None }
    ensures sends_0 { happening_fault model_with_connection (Sends 0 []) ≡ Some NotAccepted }
    ensures sends_2 { happening_fault model_with_connection (Sends 2 []) ≡ Some NotAccepted }
    ensures ends { happening_fault model_with_connection (Ends 2) ≡ Some NotAccepted }
    ensures leaves { happening_fault model_with_connection (Leaves 2) ≡ Some NotAccepted }
    ensures retires { happening_fault model_with_connection (Retires 1) ≡ None }
    ensures retires_2 { happening_fault model_with_connection (Retires 2) ≡ Some NotAccepted }
    ensures waits_not { happening_fault model_with_connection (Overdues 1) ≡ Some NotWaiting }
    ensures hears { happening_fault model_with_link (Hears 5 []) ≡ None }
    ensures hears_4 { happening_fault model_with_link (Hears 4 []) ≡ Some WrongNumber }
    ensures hears_6 { happening_fault model_with_link (Hears 6 []) ≡ Some WrongNumber }
    ensures shuts { happening_fault model_with_link (Shuts 6) ≡ Some WrongNumber }
    ensures fails { happening_fault model_with_link (Fails 6 kinds.Closed) ≡ Some WrongNumber }
{}

/// What happenings add: bytes to the stream of their end, the end of it, and marks that stay. What comes of an end that
/// is over, or after its failure, adds nothing.
pub fn worked_happenings()
    ensures accepted { length model_with_connection.connections ≡ 1 }
    ensures stream { (connection_at model_after_two_sends 0).progress.stream ≡ codes "ab" }
    ensures no_more { (connection_at (model_after_happening (model_after_happening model_after_two_sends (Leaves 1))
        (Sends 1 (codes "c"))) 0).progress.stream
        ≡ codes "ab" }
    ensures ended { (connection_at (model_after_happening model_after_two_sends (Ends 1)) 0).progress.ended ≡ true }
    ensures none_behind_its_end { (connection_at
        (model_after_happening (model_after_happening model_after_two_sends (Ends 1))
        (Sends 1 (codes "c"))) 0).progress.stream ≡ codes "ab" }
    ensures gone { (connection_at (model_after_happening model_after_two_sends (Leaves 1)) 0).gone ≡ true }
    ensures to_end { (connection_at (model_after_happening model_after_two_sends (Retires 1)) 0).retired ≡ true }
    ensures not_to_end { (connection_at model_after_two_sends 0).retired ≡ false }
    ensures is_there { (connection_at (model_after_happening model_after_two_sends (Retires 1)) 0).gone ≡ false }
    ensures not_closed { (connection_at (model_after_happening model_after_two_sends (Leaves 1)) 0).closed ≡ false }
    ensures heard { (link_at (model_after_happening model_with_link (Hears 5 (codes "x"))) 0).progress.stream
        ≡ codes "x" }
    ensures failed { (link_at (model_after_happening model_with_link (Fails 5 kinds.Refused)) 0).failed
        ≡ Some kinds.Refused }
    ensures first_failure { (link_at (model_after_happening (model_after_happening model_with_link
        (Fails 5 kinds.Refused)) (Fails 5 kinds.Closed)) 0).failed
        ≡ Some kinds.Refused }
    ensures none_behind_its_failure { (link_at
        (model_after_happening (model_after_happening model_with_link (Fails 5 kinds.Refused))
        (Hears 5 (codes "x"))) 0).progress.stream ≡ [] }
    ensures shut { (link_at (model_after_happening model_with_link (Shuts 5)) 0).progress.ended ≡ true }
    ensures none_of_a_dropped_link { (link_at (model_after_happening model_with_dropped_link
        (Hears 5 (codes "x"))) 0).progress.stream ≡ [] }
    ensures no_failure_of_a_dropped_link { (link_at (model_after_happening model_with_dropped_link
        (Fails 5 kinds.Refused)) 0).failed ≡ None }
    ensures keeps_a_connection { happening_adds_connection_or_bytes empty_model (Accepts 1) ≡ true }
    ensures connection_accepts_input { happening_adds_connection_or_bytes model_with_connection (Sends 1 []) ≡ true }
    ensures keeps_none_of_who_is_gone { happening_adds_connection_or_bytes
        (model_after_happening model_with_connection (Leaves 1))
        (Sends 1 []) ≡ false }
    ensures keeps_an_answer { happening_adds_connection_or_bytes model_with_link (Hears 5 []) ≡ true }
    ensures keeps_none_of_a_dropped_link { happening_adds_connection_or_bytes model_with_dropped_link (Hears 5 [])
        ≡ false }
    ensures a_mark_takes_none { happening_adds_connection_or_bytes model_with_connection (Leaves 1) ≡ false }
    ensures nor_does_an_end { happening_adds_connection_or_bytes model_with_connection (Retires 1) ≡ false }
    ensures nor_does_a_wait { happening_adds_connection_or_bytes model_with_connection (Overdues 1) ≡ false }
{}

/// What is due: a fault of an answer is its failure, an answer or a fault counts before a failure that came after it,
/// and no request is served where the connection is gone, closed or has an open exchange.
pub fn worked_due_acts()
    ensures cut { fail_kind_of_fault frame.Truncated ≡ kinds.Closed }
    ensures large { fail_kind_of_fault frame.TooLarge ≡ kinds.TooLarge }
    ensures bad { map fail_kind_of_fault (frame.Head ∷ frame.Version ∷ frame.BothLengths ∷ frame.Length ∷ frame.Coding
        ∷ frame.Chunk ∷ frame.Expect ∷ frame.Status ∷ [])
        ≡ map (λ f. kinds.BadAnswer) (frame.Head ∷ frame.Version ∷ frame.BothLengths ∷ frame.Length ∷ frame.Coding
        ∷ frame.Chunk ∷ frame.Expect ∷ frame.Status ∷ []) }
    ensures answer_first { link_result_of_next (next.Message answer_200) (Some kinds.Closed) ≡ Some (Gives answer_200) }
    ensures fault_first { link_result_of_next (next.Refused frame.TooLarge) (Some kinds.Closed) ≡ Some
        (Breaks kinds.TooLarge) }
    ensures failure { link_result_of_next next.More (Some kinds.TimedOut) ≡ Some (Breaks kinds.TimedOut) }
    ensures waits { link_result_of_next next.More None ≡ None }
    ensures no_answer { link_result_of_next next.End None ≡ Some (Breaks kinds.Closed) }
    ensures needs_more_bytes { due_request_action next.More ≡ None }
    ensures asks { due_request_action (next.Message request_of_a) ≡ Some (next.Message request_of_a) }
    ensures ends { due_request_action next.End ≡ Some next.End }
    ensures free { accepts_no_request false false Free ≡ false }
    ensures gone { accepts_no_request true false Free ≡ true }
    ensures closed { accepts_no_request false true Free ≡ true }
    ensures forwarded { accepts_no_request false false (Forwarded 0) ≡ true }
    ensures waiting { accepts_no_request false false Waiting ≡ true }
{}

/// A request goes forward to the origin of the line that its outcome names.
#[tactic(auto, unfolding(hx_allow::specs::Addresses::address_of, hx_target::specs::Hosts::number_of_few_digits))]
pub fn worked_addresses_of_outcomes()
    ensures first { outcome_with_origin_address table_of_two_origins (outcomes.Forward (route_over_line 1) (codes "x"))
        ≡ Forwards (address_of_numbers 127 0 0 1 8081) (codes "x") }
    ensures second { outcome_with_origin_address table_of_two_origins (outcomes.Forward (route_over_line 2) (codes "x"))
        ≡ Forwards (address_of_numbers 10 0 0 2 80) (codes "x") }
    ensures no_line { origin_address_of_line table_of_two_origins (route_over_line 3) ≡ address_of_numbers 0 0 0 0 0 }
{}

/// What acts tell: a reply to its connection, with what it is and what it answers, and a close after it where it says
/// so; a forward on the next link; nothing of one that waits. And what they leave.
pub fn worked_effects_of_acts()
    ensures reply { effects_of_outcome 2 7 reply_data_for_a.question
        (Replies (codes "x") (purge_status_and_reason 4) false)
        ≡ effects.Client 3 (codes "x") (Some reply_data_for_a) ∷ [] }
    ensures last_reply { effects_of_outcome 2 7 reply_data_for_a.question
        (Replies (codes "x") (purge_status_and_reason 4) true)
        ≡ effects.Client 3 (codes "x") (Some reply_data_for_a) ∷ effects.Close 3 ∷ [] }
    ensures forward { effects_of_outcome 2 7 None (Forwards (address_of_numbers 127 0 0 1 80) (codes "x"))
        ≡ effects.Forward 7 (address_of_numbers 127 0 0 1 80) (codes "x") ∷ [] }
    ensures waits { effects_of_outcome 2 7 None Queues ≡ [] }
    ensures nothing { effects_of_outcome 2 7 None Nothing ≡ [] }
    ensures drops { effects_of_link_drop 5 (Some 2) ≡ effects.Drop 7 ∷ [] }
    ensures drops_none { effects_of_link_drop 5 None ≡ [] }
    ensures next { next_link_number model_with_link ≡ 6 }
    ensures opened { length (model_after_outcome 0 false
        (Forwards (address_of_numbers 127 0 0 1 80) []) model_with_connection).links ≡ 1 }
    ensures on_its_link { (connection_at (model_after_outcome 0 false
        (Forwards (address_of_numbers 127 0 0 1 80) []) model_with_connection) 0).activity ≡ Forwarded 0 }
    ensures queued { (connection_at (model_after_outcome 0 false Queues model_with_connection) 0).activity ≡ Waiting }
    ensures closes { (connection_at (model_after_outcome 0 false
        (Replies [] (purge_status_and_reason 4) true) model_with_connection) 0).closed ≡ true }
    ensures stays_open { (connection_at (model_after_outcome 0 false
        (Replies [] (purge_status_and_reason 4) false) model_with_connection) 0).closed ≡ false }
    ensures frees { (connection_at (model_after_link_freed model_with_link 0 0) 0).activity ≡ Free }
    ensures drops_its_link { (link_at (model_after_link_freed model_with_link 0 0) 0).dropped ≡ true }
{}

/// What a client asked for: its method and its target URI, or where it is refused the target as the request line has
/// it.
/// A step answers the request that arrives, or that of the open exchange of its id.
pub fn worked_methods_and_targets()
    ensures uri { question_of_request head_request_for_a
        ≡ record { method = codes "HEAD"; target = Uri (key_of_path (codes "/a")) } }
    ensures refused { method_and_target_of_refused_act (Serves 0 (next.Message request_of_a))
        ≡ Some (record { method = codes "GET"; target = AsItCame (codes "/a") }) }
    ensures unread { method_and_target_of_refused_act (Serves 0 (next.Refused frame.Head)) ≡ None }
    ensures arrival { request_of_event [] (events.Arrive 5 2 head_request_for_a) ≡ Some head_request_for_a }
    ensures answer { request_of_event (exchange_waiting_for 1 3 head_request_for_a
        ∷ exchange_waiting_for 1 2 (get_a_with [])
        ∷ [])
        (events.Answer 5 2 answer_200) ≡ Some (get_a_with []) }
    ensures wake { request_of_event (exchange_waiting_for 1 3 head_request_for_a
        ∷ exchange_waiting_for 1 2 (get_a_with []) ∷ [])
        (events.Wake 5 3) ≡ Some head_request_for_a }
    ensures closed { request_of_event (exchange_waiting_for 1 3 head_request_for_a ∷ []) (events.Fail 5 2 kinds.Closed)
        ≡ None }
    ensures gone { request_of_event (exchange_waiting_for 1 3 head_request_for_a ∷ []) (events.Abandon 3) ≡ None }
{}

/// What steps told, in order; where an act is, and the link that it drops.
pub fn worked_effects_of_steps()
    ensures in_order { effects_of_steps (Worked 2 (Wakes 0) (effects.Close 2 ∷ []) ∷ Took (Accepts 1)
        ∷ Worked 1 (Wakes 0) (effects.Close 1 ∷ []) ∷ []) ≡ effects.Close 1 ∷ effects.Close 2 ∷ [] }
    ensures nothing { effects_of_steps (Took (Accepts 1) ∷ []) ≡ [] }
    ensures place_of_a_link { connection_place_of_act model_with_link (Finishes 0 (Breaks kinds.Closed)) ≡ 0 }
    ensures place_of_a_client { connection_place_of_act model_with_link (Serves 3 next.End) ≡ 3 }
    ensures drops { link_drop_effects_of_act model_with_link (Finishes 0 (Breaks kinds.Closed)) ≡ effects.Drop 5 ∷ [] }
    ensures drops_of_who_left { link_drop_effects_of_act model_with_link (Abandons 0 (Some 0)) ≡ effects.Drop 5 ∷ [] }
    ensures drops_none { link_drop_effects_of_act model_with_link (Abandons 0 None) ≡ [] }
    ensures a_wake_drops_none { link_drop_effects_of_act model_with_link (Wakes 0) ≡ [] }
{}
