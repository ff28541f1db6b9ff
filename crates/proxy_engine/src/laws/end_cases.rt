//! What the definitions of ends, of what is known of them and of what is still to come give on worked cases, computed
//! from them: each function's contract is the cases, and its body is empty.

ghost use Rattle.std.specs.Prelude.{◌≡◌, ℕ, ◌∷◌, [], map, Some, None, true, false, codes};
ghost use Rattle.hx_framing.specs.declared.messages.Next.TheVariants as next;
ghost use Rattle.hx_framing.specs.declared.frame_fault.FrameFault.TheVariants as frame;
ghost use Rattle.hx_framing.specs.declared.messages.Request.{Request};
ghost use Rattle.hx_status.specs.declared.cause.Cause.TheVariants as cause;
ghost use Rattle.hx_status.specs.declared.cause.FailKind.TheVariants as kinds;
ghost use Rattle.hx_allow.specs.Matching.{route_over_line};
ghost use Rattle.proxy_core.specs.declared.outcome.Outcome.TheVariants as outcomes;
ghost use Rattle.proxy_engine.specs.Activities.{is_forwarded_if_exchange, has_exchange, link_place_of_activity};
ghost use Rattle.proxy_engine.specs.Actions.{IsActionForReaderAnswer, IsFaultOfFinishingExchange, action_of_fault};
ghost use Rattle.proxy_engine.specs.Actions.{due_act_count_after_outcome, link_result_is_answer, outcome_needs_link};
ghost use Rattle.proxy_engine.specs.ConnectionNumbers.{connection_number_of_place, place_of_connection_number};
ghost use Rattle.proxy_engine.specs.ConnectionNumbers.{link_number_of_place, link_place};
ghost use Rattle.proxy_engine.specs.Due.{Breaks, Gives};
ghost use Rattle.proxy_engine.specs.EndCases.{example_connection, example_link, model_with_third_client_closed};
ghost use Rattle.proxy_engine.specs.EndCases.{model_with_three_clients, model_with_origin_timeout_7};
ghost use Rattle.proxy_engine.specs.EndCases.{model_with_two_links};
ghost use Rattle.proxy_engine.specs.EndCases.{model_with_wait_timeout_3, model_after_third_client_left};
ghost use Rattle.proxy_engine.specs.Acts.{link_model_dropped};
ghost use Rattle.proxy_engine.specs.EngineModel.{connection_at, link_at, model_after_happening, with_changed_link};
ghost use Rattle.proxy_engine.specs.EngineModel.{happening_fault};
ghost use Rattle.proxy_engine.specs.Exhausted.{IsOpenWithFlag, connection_lookahead_is_unknown};
ghost use Rattle.proxy_engine.specs.Exhausted.{link_lookahead_is_unknown, lookahead_is_unknown};
ghost use Rattle.proxy_engine.specs.Happenings.{Ends, Fails, Shuts, happening_takes_memory, Accepts, Sends, Hears};
ghost use Rattle.proxy_engine.specs.Happenings.{Leaves, Retires, Overdues};
ghost use Rattle.proxy_engine.specs.Held.{connection_is_not_gone, client_of_connection_may_send, flagged_places};
ghost use Rattle.proxy_engine.specs.Held.{open_end_has_flag};
ghost use Rattle.proxy_engine.specs.Held.{is_true_of_every_end, open_link_has_failed, link_may_send};
ghost use Rattle.proxy_engine.specs.Lookahead.{lookahead_after_input, lookahead_is_due, lookahead_may_be_due};
ghost use Rattle.proxy_engine.specs.Lookahead.{lookahead_of_reader_answer, one_if_maybe_due};
ghost use Rattle.proxy_engine.specs.Lookahead.{one_if_message_or_continue};
ghost use Rattle.proxy_engine.specs.Marked.{connection_may_be_due, end_if_open_at, open_end_count, link_may_be_due};
ghost use Rattle.proxy_engine.specs.Marked.{link_of_disconnected_exchange_at, is_gone_with_exchange};
ghost use Rattle.proxy_engine.specs.ModelCases.{answer_200, empty_model, model_with_connection, request_of_a};
ghost use Rattle.proxy_engine.specs.ModelCases.{model_with_dropped_link, model_with_link};
ghost use Rattle.proxy_engine.specs.Pairing.{activities_after_outcome, activity_at, activity_of_connection, owner_at};
ghost use Rattle.proxy_engine.specs.Pairing.{owner_of_open_link};
ghost use Rattle.proxy_engine.specs.Pairing.{owners_after_outcome};
ghost use Rattle.proxy_engine.specs.Reading.{connection_is_open_in_model, connection_may_send_request, end_may_send};
ghost use Rattle.proxy_engine.specs.Reading.{failed_links, line_of_link, open_link_model_has_failed};
ghost use Rattle.proxy_engine.specs.Reading.{next_connection_number};
ghost use Rattle.proxy_engine.specs.Reading.{origin_timeout_of_link, wait_timeout_of_client};
ghost use Rattle.proxy_engine.specs.declared.work.EngineFault.TheVariants.{NotWaiting};
ghost use Rattle.proxy_core.specs.Leading.{wakeable_ids};
ghost use Rattle.proxy_engine.specs.Reading.{open_connection_count, places_with_flag, readable_ends_of};
ghost use Rattle.proxy_engine.specs.Room.{most_bytes_of_read};
ghost use Rattle.proxy_engine.specs.State.{work_left_of_connection, due_request_at};
ghost use Rattle.proxy_engine.specs.State.{engine_work_left, work_left_of_link, link_result_at};
ghost use Rattle.proxy_engine.specs.State.{engine_state_of_parts};
ghost use Rattle.proxy_engine.specs.State.{connection_is_open_and_idle, is_gone_if_connection, is_retired_connection};
ghost use Rattle.proxy_engine.specs.State.{work_left_of_due_request};
ghost use Rattle.proxy_engine.specs.State.{work_left_of_waiting};
ghost use Rattle.proxy_engine.specs.declared.endpoints.activities.Activity.TheVariants.{Forwarded, Free, Waiting};
ghost use Rattle.proxy_engine.specs.declared.endpoints.lookahead.Lookahead.{Lookahead};
ghost use Rattle.proxy_engine.specs.declared.endpoints.lookahead.Lookahead.TheVariants.{Unknown, Quiet, Due};
ghost use Rattle.proxy_engine.specs.declared.steps.actions.Action.{Action};
ghost use Rattle.proxy_engine.specs.declared.steps.actions.Action.TheVariants as action;
ghost use Rattle.proxy_engine.specs.declared.work.End.TheVariants as ends;
ghost use Rattle.proxy_engine.specs.declared.work.EngineFault.TheVariants.{NotAccepted, OutOfMemory, Spent};
ghost use Rattle.proxy_engine.specs.declared.work.EngineFault.TheVariants.{WrongNumber};

/// Connections are numbered from 1, links from the first number on; places begin at 0.
pub fn worked_numbers()
    ensures first_connection { connection_number_of_place 0 ≡ 1 }
    ensures third_connection { connection_number_of_place 2 ≡ 3 }
    ensures place_of_third { place_of_connection_number 3 ≡ 2 }
    ensures first_link { link_number_of_place 5 0 ≡ 5 }
    ensures third_link { link_number_of_place 5 2 ≡ 7 }
    ensures place_of_link { link_place 5 7 ≡ 2 }
    ensures next_of_none { next_connection_number empty_model ≡ Some 1 }
    ensures next_of_three { next_connection_number model_with_three_clients ≡ Some 4 }
    ensures read { most_bytes_of_read ≡ 4096 }
{}

/// Over which line the request of a link went forward, and the seconds that this line gives its origin.
pub fn worked_lines_of_links()
    ensures first { line_of_link model_with_origin_timeout_7 5 ≡ Some 2 }
    ensures second { line_of_link model_with_origin_timeout_7 6 ≡ Some 1 }
    ensures before_the_first { line_of_link model_with_origin_timeout_7 4 ≡ None }
    ensures behind_the_last { line_of_link model_with_origin_timeout_7 7 ≡ None }
    ensures dropped { line_of_link (with_changed_link model_with_origin_timeout_7 0 link_model_dropped) 5 ≡ None }
    ensures of_a_failed_one { line_of_link
        (model_after_happening model_with_origin_timeout_7 (Fails 5 kinds.TimedOut)) 5
        ≡ Some 2 }
    ensures seconds { origin_timeout_of_link model_with_origin_timeout_7 5 ≡ Some 7 }
    ensures no_seconds { origin_timeout_of_link model_with_origin_timeout_7 6 ≡ None }
    ensures of_none { origin_timeout_of_link model_with_origin_timeout_7 4 ≡ None }
    ensures of_a_dropped_one { origin_timeout_of_link
        (with_changed_link model_with_origin_timeout_7 0 link_model_dropped) 5
        ≡ None }
{}

/// Whose request waits for the answer to another, and for how long; once its time is over it may be woken.
pub fn worked_waits_of_clients()
    ensures waits { wait_timeout_of_client model_with_wait_timeout_3 2 ≡ Some 3 }
    ensures at_its_origin { wait_timeout_of_client model_with_wait_timeout_3 1 ≡ None }
    ensures without_a_word { wait_timeout_of_client model_with_wait_timeout_3 3 ≡ None }
    ensures of_none { wait_timeout_of_client model_with_wait_timeout_3 4 ≡ None }
    ensures overdue { happening_fault model_with_wait_timeout_3 (Overdues 2) ≡ None }
    ensures leads { happening_fault model_with_wait_timeout_3 (Overdues 1) ≡ Some NotWaiting }
    ensures nobody { happening_fault model_with_wait_timeout_3 (Overdues 4) ≡ Some NotWaiting }
    ensures ready { wakeable_ids (model_after_happening model_with_wait_timeout_3 (Overdues 2)).core.exchanges ≡ 2
        ∷ [] }
    ensures once { happening_fault (model_after_happening model_with_wait_timeout_3 (Overdues 2)) (Overdues 2)
        ≡ Some NotWaiting }
    ensures waits_no_more { wait_timeout_of_client (model_after_happening model_with_wait_timeout_3 (Overdues 2)) 2
        ≡ None }
{}

/// From whom bytes may come: from links that aren't dropped, failed or shut, and from clients that are open, have no
/// open exchange and whose input hasn't ended.
pub fn worked_readable_ends()
    ensures none { readable_ends_of empty_model ≡ [] }
    ensures client { readable_ends_of model_with_connection ≡ ends.Client 1 ∷ [] }
    ensures link { readable_ends_of model_with_link ≡ ends.Link 5 ∷ [] }
    ensures links_first { readable_ends_of model_with_three_clients ≡ ends.Link 5 ∷ ends.Client 3 ∷ [] }
    ensures two_links { readable_ends_of model_with_two_links ≡ ends.Link 5 ∷ ends.Link 6 ∷ [] }
    ensures dropped { readable_ends_of model_with_dropped_link ≡ [] }
    ensures failed { readable_ends_of (model_after_happening model_with_two_links (Fails 5 kinds.Closed))
        ≡ ends.Link 6 ∷ [] }
    ensures shut { readable_ends_of (model_after_happening model_with_two_links (Shuts 6)) ≡ ends.Link 5 ∷ [] }
    ensures gone { readable_ends_of model_after_third_client_left ≡ ends.Link 5 ∷ [] }
    ensures closed { readable_ends_of model_with_third_client_closed ≡ ends.Link 5 ∷ [] }
    ensures ended { readable_ends_of (model_after_happening model_with_three_clients (Ends 3)) ≡ ends.Link 5 ∷ [] }
    ensures listener { end_may_send model_with_three_clients ends.Listener ≡ false }
    ensures number_0 { end_may_send model_with_connection (ends.Client 0) ≡ false }
    ensures of_client { end_may_send model_with_connection (ends.Client 1) ≡ true }
    ensures of_no_client { end_may_send model_with_connection (ends.Client 2) ≡ false }
    ensures who_has_a_link { end_may_send model_with_three_clients (ends.Client 1) ≡ false }
    ensures who_waits { end_may_send model_with_three_clients (ends.Client 2) ≡ false }
    ensures before_the_first { end_may_send model_with_link (ends.Link 4) ≡ false }
    ensures of_link { end_may_send model_with_link (ends.Link 5) ≡ true }
    ensures behind_the_last { end_may_send model_with_link (ends.Link 6) ≡ false }
    ensures failed_link { failed_links (model_after_happening model_with_two_links (Fails 6 kinds.Closed))
        ≡ ends.Link 6 ∷ [] }
    ensures none_failed { failed_links model_with_two_links ≡ [] }
    ensures dropped_has_not { open_link_model_has_failed (link_at model_with_dropped_link 0) ≡ false }
    ensures places { places_with_flag (λ b. b) 3 (true ∷ false ∷ true ∷ []) ≡ 3 ∷ 5 ∷ [] }
{}

/// Who is open: neither closed nor gone, whatever its request does.
pub fn worked_open_connections()
    ensures none { open_connection_count empty_model ≡ 0 }
    ensures three { open_connection_count model_with_three_clients ≡ 3 }
    ensures without_gone { open_connection_count model_after_third_client_left ≡ 2 }
    ensures without_closed { open_connection_count model_with_third_client_closed ≡ 2 }
    ensures forwarded { connection_is_open_in_model (connection_at model_with_link 0) ≡ true }
    ensures may_not { connection_may_send_request (connection_at model_with_link 0) ≡ false }
    ensures may { connection_may_send_request (connection_at model_with_connection 0) ≡ true }
    ensures is_kept_open { connection_is_not_gone (example_connection [] Quiet false Waiting) ≡ true }
    ensures is_kept_gone { connection_is_not_gone (example_connection [] Quiet true Waiting) ≡ false }
    ensures sends { client_of_connection_may_send (example_connection [] Quiet false Free) ≡ true }
    ensures gone_sends { client_of_connection_may_send (example_connection [] Quiet true Free) ≡ false }
    ensures busy_sends { client_of_connection_may_send (example_connection [] Quiet false (Forwarded 0)) ≡ false }
    ensures link_sends { link_may_send (example_link Quiet None false) ≡ true }
    ensures shut_link_sends { link_may_send (example_link Quiet None true) ≡ false }
    ensures failed_link_sends { link_may_send (example_link Quiet (Some kinds.Closed) false) ≡ false }
    ensures link_fails { open_link_has_failed (example_link Quiet (Some kinds.Closed) false) ≡ true }
    ensures link_stands { open_link_has_failed (example_link Quiet None true) ≡ false }
    ensures flagged { flagged_places (λ b. b) 6 ((1, true) ∷ (4, false) ∷ (5, true) ∷ (6, true) ∷ []) ≡ 1 ∷ 5 ∷ [] }
    ensures flag { open_end_has_flag (λ b. b) (Some true) ≡ true }
    ensures no_flag { open_end_has_flag (λ b. b) (Some false) ≡ false }
    ensures nothing_has_it { open_end_has_flag (λ b. b) None ≡ false }
    ensures without_room { (engine_state_of_parts [] [] empty_model.core 5).room ≡ false }
    ensures all { flagged_places is_true_of_every_end 6 ((1, true) ∷ (4, false) ∷ []) ≡ 1 ∷ 4 ∷ [] }
{}

/// What is known of the next answer of a reader: nothing, that nothing is due, or what is due. Input makes unknown that
/// nothing is due, and leaves what is due.
pub fn worked_lookaheads()
    ensures quiet { lookahead_of_reader_answer {M = Request} next.More ≡ Quiet }
    ensures due { lookahead_of_reader_answer {M = Request} next.End ≡ Due next.End }
    ensures continues { lookahead_of_reader_answer {M = Request} next.NeedsContinue ≡ Due next.NeedsContinue }
    ensures message { lookahead_of_reader_answer (next.Message request_of_a) ≡ Due (next.Message request_of_a) }
    ensures refused { lookahead_of_reader_answer {M = Request} (next.Refused frame.Head)
        ≡ Due (next.Refused frame.Head) }
    ensures unknown_stays { lookahead_after_input {M = Request} Unknown ≡ Unknown }
    ensures quiet_is_asked { lookahead_after_input {M = Request} Quiet ≡ Unknown }
    ensures due_stays { lookahead_after_input {M = Request} (Due next.End) ≡ Due next.End }
    ensures is_due { map (lookahead_is_due {M = Request}) (Due next.End ∷ Due next.NeedsContinue
        ∷ Due (next.Refused frame.Head) ∷ Due (next.Message request_of_a) ∷ []) ≡ true ∷ true ∷ true ∷ true ∷ [] }
    ensures is_not_due { map (lookahead_is_due {M = Request}) (Unknown ∷ Quiet ∷ Due next.More ∷ [])
        ≡ false ∷ false ∷ false ∷ [] }
    ensures may_be { map (lookahead_may_be_due {M = Request}) (Unknown ∷ Due next.End ∷ []) ≡ true ∷ true ∷ [] }
    ensures may_not_be { map (lookahead_may_be_due {M = Request}) (Quiet ∷ Due next.More ∷ []) ≡ false ∷ false ∷ [] }
    ensures unknown { map (lookahead_is_unknown {M = Request}) (Unknown ∷ Quiet ∷ Due next.End ∷ [])
        ≡ true ∷ false ∷ false ∷ [] }
    ensures maybe_one { map (one_if_maybe_due {M = Request}) (Unknown ∷ Quiet ∷ Due next.End ∷ [])
        ≡ 1 ∷ 0 ∷ 1 ∷ [] }
    ensures one_each { map one_if_message_or_continue (Due next.NeedsContinue ∷ Due (next.Message request_of_a) ∷ [])
        ≡ 1 ∷ 1 ∷ [] }
    ensures none_each { map (one_if_message_or_continue {M = Request}) (Unknown ∷ Quiet ∷ Due next.More
        ∷ Due (next.Refused frame.Head) ∷ Due next.End ∷ []) ≡ 0 ∷ 0 ∷ 0 ∷ 0 ∷ 0 ∷ [] }
{}

/// Where something may be due: at a client that takes requests, unless a look has found nothing; at a link also where
/// it has failed. And what a look has found.
pub fn worked_marks()
    ensures due { connection_may_be_due (example_connection [] Unknown false Free) ≡ true }
    ensures quiet { connection_may_be_due (example_connection [] Quiet false Free) ≡ false }
    ensures gone { connection_may_be_due (example_connection [] Unknown true Free) ≡ false }
    ensures busy { connection_may_be_due (example_connection [] Unknown false Waiting) ≡ false }
    ensures answers { link_may_be_due (example_link Unknown None false) ≡ true }
    ensures failed { link_may_be_due (example_link Quiet (Some kinds.Closed) false) ≡ true }
    ensures silent { link_may_be_due (example_link Quiet None false) ≡ false }
    ensures lost { is_gone_with_exchange (example_connection [] Quiet true (Forwarded 3)) ≡ true }
    ensures there { is_gone_with_exchange (example_connection [] Quiet false (Forwarded 3)) ≡ false }
    ensures has_none { is_gone_with_exchange (example_connection [] Quiet true Free) ≡ false }
    ensures its_link { link_of_disconnected_exchange_at (Some (example_connection [] Quiet true (Forwarded 3)))
        ≡ Some (Some 3) }
    ensures without_link { link_of_disconnected_exchange_at (Some (example_connection [] Quiet true Waiting))
        ≡ Some None }
    ensures not_lost { link_of_disconnected_exchange_at (Some (example_connection [] Quiet false Waiting)) ≡ None }
    ensures over { link_of_disconnected_exchange_at None ≡ None }
    ensures request { due_request_at (Some (example_connection [] (Due next.End) false Free)) ≡ Some next.End }
    ensures no_request { due_request_at (Some (example_connection [] Quiet false Free)) ≡ None }
    ensures of_busy { due_request_at (Some (example_connection [] (Due next.End) false Waiting)) ≡ None }
    ensures of_gone { due_request_at (Some (example_connection [] (Due next.End) true Free)) ≡ None }
    ensures answer { link_result_at (Some (example_link (Due (next.Message answer_200)) (Some kinds.Closed) false))
        ≡ Some (Gives answer_200) }
    ensures failure { link_result_at (Some (example_link Quiet (Some kinds.Closed) false))
        ≡ Some (Breaks kinds.Closed) }
    ensures unknown_failure { link_result_at (Some (example_link Unknown (Some kinds.Closed) false))
        ≡ Some (Breaks kinds.Closed) }
    ensures no_answer { link_result_at (Some (example_link Unknown None false)) ≡ None }
    ensures kept { open_end_count (Some true ∷ None ∷ Some false ∷ []) ≡ 2 }
    ensures item { end_if_open_at (Some true ∷ None ∷ []) 0 ≡ Some true }
    ensures no_item { end_if_open_at (Some true ∷ None ∷ []) 2 ≡ None }
    ensures free { connection_is_open_and_idle (Some (example_connection [] Quiet false Free)) ≡ true }
    ensures not_free { connection_is_open_and_idle (Some (example_connection [] Quiet false Waiting)) ≡ false }
    ensures gone_is_not_free { connection_is_open_and_idle (Some (example_connection [] Quiet true Free)) ≡ false }
    ensures is_gone { is_gone_if_connection (Some (example_connection [] Quiet true Free)) ≡ Some true }
    ensures is_there { is_gone_if_connection (Some (example_connection [] Quiet false Free)) ≡ Some false }
    ensures is_over { is_gone_if_connection None ≡ None }
    ensures is_to_end { is_retired_connection
        (Some (record (example_connection [] Quiet false Free) { retired = true }))
        ≡ true }
    ensures goes_on { is_retired_connection (Some (example_connection [] Quiet false Free)) ≡ false }
    ensures who_is_over_is_not_to_end { is_retired_connection None ≡ false }
    ensures unknown_client { connection_lookahead_is_unknown (example_connection [] Unknown false Free) ≡ true }
    ensures known_link { link_lookahead_is_unknown (example_link Quiet None false) ≡ false }
{}

/// How much is still to come: of a client 1, 3 for each message or continue that may come of its bytes, of which each
/// counts twice, or that is due, and 2 where it waits; of a link 1, and 1 for its answer or failure.
pub fn worked_work_left()
    ensures idle { work_left_of_connection (Some (example_connection [] Quiet false Free)) ≡ 1 }
    ensures over { work_left_of_connection None ≡ 0 }
    ensures waits { work_left_of_connection (Some (example_connection [] Quiet false Waiting)) ≡ 3 }
    ensures due { work_left_of_connection (Some (example_connection [] (Due (next.Message request_of_a)) false Free))
        ≡ 4 }
    ensures bytes { work_left_of_connection (Some (example_connection (codes "ab") Unknown false Free)) ≡ 13 }
    ensures link { work_left_of_link (Some (example_link Quiet None false)) ≡ 1 }
    ensures unknown_link { work_left_of_link (Some (example_link Unknown None false)) ≡ 2 }
    ensures failed_link { work_left_of_link (Some (example_link Quiet (Some kinds.Closed) false)) ≡ 2 }
    ensures no_link { work_left_of_link None ≡ 0 }
    ensures together { engine_work_left (Some (example_connection [] Quiet false Waiting) ∷ None ∷ [])
        (Some (example_link Unknown None false) ∷ []) ≡ 5 }
    ensures of_requests { map work_left_of_due_request (Some next.NeedsContinue ∷ Some (next.Message request_of_a) ∷ [])
        ≡ 1 ∷ 1 ∷ [] }
    ensures of_none { map work_left_of_due_request (None ∷ Some next.More ∷ Some (next.Refused frame.Head)
        ∷ Some next.End
        ∷ []) ≡ 0 ∷ 0 ∷ 0 ∷ 0 ∷ [] }
    ensures of_waiting { map work_left_of_waiting (Free ∷ Forwarded 2 ∷ Waiting ∷ []) ≡ 0 ∷ 0 ∷ 2 ∷ [] }
    ensures after_outcomes { map due_act_count_after_outcome (outcomes.Forward (route_over_line 1) [] ∷ outcomes.Waits 1
        ∷ outcomes.Ended ∷ []) ≡ 1 ∷ 2 ∷ 0 ∷ [] }
{}

/// What is done where something is due: a cut stream is closed without an answer, any other fault is refused; only what
/// goes forward needs a link, and only a whole answer may go forward once more.
pub fn worked_actions()
    ensures cut { action_of_fault frame.Truncated ≡ action.Close }
    ensures refused { map action_of_fault (frame.Head ∷ frame.Version ∷ frame.BothLengths ∷ frame.Length ∷ frame.Coding
        ∷ frame.Chunk ∷ frame.TooLarge ∷ frame.Expect ∷ frame.Status ∷ [])
        ≡ map (λ f. action.Refuse (cause.Frame f) false None) (frame.Head ∷ frame.Version ∷ frame.BothLengths
        ∷ frame.Length ∷ frame.Coding ∷ frame.Chunk ∷ frame.TooLarge ∷ frame.Expect ∷ frame.Status ∷ []) }
    ensures nothing { (w : Action) → IsActionForReaderAnswer next.More w → ⊥ }
    ensures continues { (w : Action) → IsActionForReaderAnswer next.NeedsContinue w → w ≡ action.Continue }
    ensures ended { (w : Action) → IsActionForReaderAnswer next.End w → w ≡ action.Close }
    ensures asks { IsActionForReaderAnswer (next.Message request_of_a) action.Close → ⊥ }
    ensures needs { map outcome_needs_link
        (outcomes.Forward (route_over_line 1) [] ∷ outcomes.Waits 1 ∷ outcomes.Ended ∷ [])
        ≡ true ∷ false ∷ false ∷ [] }
    ensures whole { link_result_is_answer (Gives answer_200) ≡ true }
    ensures broken { link_result_is_answer (Breaks kinds.Closed) ≡ false }
    ensures no_number { IsFaultOfFinishingExchange true (Gives answer_200) OutOfMemory → ⊥ }
    ensures a_number { IsFaultOfFinishingExchange false (Gives answer_200) Spent → ⊥ }
    ensures breaks { IsFaultOfFinishingExchange true (Breaks kinds.Closed) Spent → ⊥ }
    ensures wrong { IsFaultOfFinishingExchange true (Gives answer_200) WrongNumber → ⊥ }
    ensures not_accepted { IsFaultOfFinishingExchange true (Gives answer_200) NotAccepted → ⊥ }
{}

/// What a connection does with its request, and what an outcome adds to that.
pub fn worked_activities()
    ensures exchange { map has_exchange (Free ∷ Forwarded 2 ∷ Waiting ∷ []) ≡ false ∷ true ∷ true ∷ [] }
    ensures link { map link_place_of_activity (Free ∷ Forwarded 2 ∷ Waiting ∷ []) ≡ None ∷ Some 2 ∷ None ∷ [] }
    ensures at_origin { map is_forwarded_if_exchange (Free ∷ Forwarded 2 ∷ Waiting ∷ [])
        ≡ None ∷ Some true ∷ Some false ∷ [] }
    ensures over { activity_of_connection None ≡ Free }
    ensures kept { activity_of_connection (Some (example_connection [] Quiet false Waiting)) ≡ Waiting }
    ensures at { activity_at (Waiting ∷ []) 0 ≡ Waiting }
    ensures beyond { activity_at (Waiting ∷ []) 1 ≡ Free }
    ensures owner { owner_of_open_link (Some (example_link Quiet None false)) ≡ Some 0 }
    ensures dropped { owner_of_open_link None ≡ None }
    ensures owner_there { owner_at (Some 4 ∷ []) 0 ≡ Some 4 }
    ensures owner_beyond { owner_at (Some 4 ∷ []) 1 ≡ None }
    ensures forward { activities_after_outcome 1 7 (outcomes.Forward (route_over_line 1) []) (Waiting ∷ Free ∷ [])
        ≡ Waiting ∷ Forwarded 7 ∷ [] }
    ensures waits { activities_after_outcome 0 7 (outcomes.Waits 1) (Free ∷ Free ∷ []) ≡ Waiting ∷ Free ∷ [] }
    ensures ended { activities_after_outcome 0 7 outcomes.Ended (Waiting ∷ []) ≡ Waiting ∷ [] }
    ensures no_more { activities_after_outcome 0 7 outcomes.WaitsNoMore (Waiting ∷ []) ≡ Waiting ∷ [] }
    ensures opens { owners_after_outcome 3 (outcomes.Forward (route_over_line 1) []) (Some 1 ∷ []) ≡ Some 1 ∷ Some 3
        ∷ [] }
    ensures opens_none { owners_after_outcome 3 (outcomes.Waits 1) (Some 1 ∷ []) ≡ Some 1 ∷ [] }
    ensures takes_memory { map happening_takes_memory (Accepts 1 ∷ Sends 1 [] ∷ Hears 1 [] ∷ [])
        ≡ true ∷ true ∷ true ∷ [] }
    ensures takes_none { map happening_takes_memory (Ends 1 ∷ Leaves 1 ∷ Retires 1 ∷ Overdues 1 ∷ Shuts 1
        ∷ Fails 1 kinds.Closed ∷ []) ≡ false ∷ false ∷ false ∷ false ∷ false ∷ false ∷ [] }
    ensures none_is_kept { IsOpenWithFlag (λ b. b) None → ⊥ }
    ensures without_flag { IsOpenWithFlag (λ b. b) (Some false) → ⊥ }
{}
