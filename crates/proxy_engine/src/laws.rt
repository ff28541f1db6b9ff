//! Laws on the definitions that the contracts cite.
ghost use Rattle.std.specs.Prelude.{◌≡◌, Option};
ghost use Rattle.proxy_engine.specs.EngineModel.{EngineModel};
ghost use Rattle.proxy_engine.specs.Due.{Act, IsFirstDueAct};
ghost use Rattle.proxy_engine.specs.Drops.{ActHasFewEffects, EachDroppedLinkIsEmitted, HappeningsDropNoLink};
ghost use Rattle.proxy_engine.specs.Executions.{ActIsDoneInOneWay, StepsHaveOneTrace, CoreStepsOfExecutionsAreGoodRuns};
ghost use Rattle.proxy_engine.specs.FinalAnswers.{EachDueActIsSpelledByItsStream, EachAnswerHasFinalStatus};
ghost use Rattle.proxy_engine.specs.FinalAnswers.{EachAnswerWasReadFromAStream};
ghost use Rattle.proxy_engine.specs.Exhausted.{ExhaustedNumbersAreReportedAtAnswer};
ghost use Rattle.proxy_engine.specs.Exhausted.{OutOfMemoryNeverHidesNoLinkNumberForWake};
ghost use Rattle.proxy_engine.specs.Orderly.{NewModelIsConsistent, HappeningKeepsModelConsistent};
ghost use Rattle.proxy_engine.specs.Orderly.{ActKeepsModelConsistent};
ghost use Rattle.proxy_engine.specs.Orderly.{EndedEndsStayEndedAfterHappening, EndedEndsStayEndedAfterAct};
ghost use Rattle.proxy_engine.specs.Retired.{RetirementMarksItsConnection, EachRequestAfterRetirementCloses};
ghost use Rattle.proxy_engine.specs.Retired.{UnretiredRequestsAreHandedOverUnchanged};
ghost use Rattle.proxy_engine.specs.SendingEnds.{EndWhosePeerMaySendHasNumber, ReadableEndsMaySend};
ghost use Rattle.proxy_engine.specs.SendingEnds.{EndWhosePeerMaySendIsReadable};
ghost use Rattle.proxy_engine.specs.SendingEnds.{AcceptAddsReadableEnd, EndsMaySendAsBeforeAccept};

mod end_cases;
mod model_cases;
mod run_laws;

pub use end_cases::{
    worked_actions, worked_activities, worked_lines_of_links, worked_lookaheads, worked_marks,
    worked_numbers, worked_open_connections, worked_readable_ends, worked_waits_of_clients,
    worked_work_left,
};
use hx_framing::laws::response_laws::responses_read_are_final;
use hx_hop::laws::request_is_asked_in_one_way;
pub use model_cases::{
    worked_addresses_of_outcomes, worked_due_acts, worked_effects_of_acts, worked_effects_of_steps,
    worked_faults_of_happenings, worked_happenings,
};
pub use run_laws::{a_run_refuses_what_was_not_done, effects_report_replies_truthfully};

/// One act is due first, or none is: so `work` has no choice.
pub fn one_act_is_due_first()
    ensures { (s : EngineModel) → (a b : Option Act) → IsFirstDueAct s a → IsFirstDueAct s b → a ≡ b }
{}

/// No effect names a connection after its close, or one that is gone; a link that ends is dropped once. It holds of
/// each model that an engine lives through, from one whose core has no open exchange on.
pub fn effects_name_open_ends()
    ensures first { NewModelIsConsistent }
    ensures takes { HappeningKeepsModelConsistent }
    ensures acts { ActKeepsModelConsistent }
{}

/// What is closed, gone, to end or dropped stays so, whatever happens and is done.
pub fn ended_connections_and_links_stay_ended()
    ensures takes { EndedEndsStayEndedAfterHappening }
    ensures acts { EndedEndsStayEndedAfterAct }
{}

/// `retire` marks its connection. From there each request that comes on it is handed to the core as one that closes it,
/// and so its reply says `Connection: close` (RFC 9112, section 9.6): that is the headline's field on closing. On any
/// other connection a request is handed over as it is asked.
pub fn a_retired_connection_closes_at_its_next_request()
    ensures marks { RetirementMarksItsConnection }
    ensures closes { EachRequestAfterRetirementCloses }
    ensures others { UnretiredRequestsAreHandedOverUnchanged }
{}

/// Bytes may come from the readable ends, and from no others; each of them is there. One more connection is one more of
/// them, behind the others, which stay.
pub fn readable_ends_may_send()
    ensures numbered { EndWhosePeerMaySendHasNumber }
    ensures each { ReadableEndsMaySend }
    ensures no_other { EndWhosePeerMaySendIsReadable }
    ensures accept { AcceptAddsReadableEnd }
    ensures kept { EndsMaySendAsBeforeAccept }
{}

/// An act has three effects at most: it drops one link at most, and does so first.
pub fn an_act_has_three_effects_at_most()
    ensures { ActHasFewEffects }
{}

/// A link that is dropped was dropped by an act that told it; what happens drops none.
pub fn each_drop_is_emitted()
    ensures acts { EachDroppedLinkIsEmitted }
    ensures takes { HappeningsDropNoLink }
{}

/// An act that is done has one model after it, and its effects.
pub fn an_act_is_done_in_one_way()
    ensures { ActIsDoneInOneWay }
{
    request_is_asked_in_one_way();
}

/// What an engine lives through has one trace: each act asks the core about one event, or about none.
pub fn an_execution_has_one_trace()
    ensures { StepsHaveOneTrace }
{
    request_is_asked_in_one_way();
}

/// Whatever takes happenings and does what is due, from an engine to which nothing has happened on: the steps of its
/// core are a good run over what is held by the count, with the headline. Its events are the requests that the clients'
/// streams spell, the responses that the origins' streams spell, the failures and the clients that went away, each at
/// its moment, and its effects are the texts of what the steps gave, in order. So whatever drives an engine, a script
/// or sockets, has the promises of `proxy_core::run`.
pub fn core_steps_of_executions_are_good_runs()
    ensures { CoreStepsOfExecutionsAreGoodRuns }
{}

/// The answer that an act hands to the core is the response that the stream of its own link spells, and the request
/// that of its own connection after those that were served. So whatever an engine lives through, each answer in its
/// trace is one that a stream spells as a response, and has a final status, from 200 to 599.
pub fn answers_have_a_final_status()
    ensures spelled { EachDueActIsSpelledByItsStream }
    ensures read { EachAnswerWasReadFromAStream }
    ensures status { EachAnswerHasFinalStatus }
{
    responses_read_are_final();
}

/// Where a waiting request or an answer is the first that is due, the links that come before it are known, and no
/// number is left for one more link, `work` doesn't say that memory ran out: `LinkNumberIsLeftIfActMayForward`, which
/// it
/// ensures then, is false of such a state.
pub fn out_of_memory_never_hides_exhausted_link_numbers()
    ensures wakes { OutOfMemoryNeverHidesNoLinkNumberForWake }
    ensures answers { ExhaustedNumbersAreReportedAtAnswer }
{}
