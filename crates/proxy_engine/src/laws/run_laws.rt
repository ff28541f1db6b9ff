//! Laws on what a run tells, and that it refuses what wasn't done. Each function's contract is a law, and its body is
//! empty.
ghost use Rattle.proxy_engine.specs.OneRun.{RunHasOnlyEffectsOfItsActs, RunDoesOnlyTheFirstDueAct};
ghost use Rattle.proxy_engine.specs.OneRun.{RunStepsCoreAtMomentOfAct};
ghost use Rattle.proxy_engine.specs.OneRun.{RunHasNoUntakenHappening, RunHasNoMoreItemsThanSteps};
ghost use Rattle.proxy_engine.specs.OneRun.{RunHasNoItemWithoutStep};
ghost use Rattle.proxy_engine.specs.ToldReplies.{EachReplyIsReportedTruthfully, EachRunReportsRepliesTruthfully};
ghost use Rattle.proxy_engine.specs.ToldReplies.{NoReplyReportsAnotherRequest, EachReplyReportsARequest};

use hx_hop::laws::request_is_asked_in_one_way;

/// No run has effects that its step didn't tell, one more, one less or other bytes, nor an act that wasn't the first
/// due, nor a step of the core at another moment than its act's, nor a happening that the engine doesn't take, nor more
/// items than acts and ends of waits.
pub fn a_run_refuses_what_was_not_done()
    ensures effects { RunHasOnlyEffectsOfItsActs }
    ensures act { RunDoesOnlyTheFirstDueAct }
    ensures moment { RunStepsCoreAtMomentOfAct }
    ensures taken { RunHasNoUntakenHappening }
    ensures items { RunHasNoMoreItemsThanSteps }
    ensures nothing { RunHasNoItemWithoutStep }
{
    request_is_asked_in_one_way();
}

/// What an effect tells of a reply is what that reply is. Its bytes, and what they are said to be, are those of its own
/// step's outcome of the core, with the same serial, rule and cause; or it is the proxy's own answer to what is no
/// request, and has the cause that stands in it. What it tells as the question is what the request asked for that this
/// step answered: the one that arrived, or that of the exchange which was open; of a request that the proxy refuses it
/// tells what could be read. Of an interim response nothing is told, and of nothing else. So no figure and no line of a
/// log is one of another reply, or of another request.
pub fn effects_report_replies_truthfully()
    ensures step { EachReplyIsReportedTruthfully }
    ensures run { EachRunReportsRepliesTruthfully }
    ensures another { NoReplyReportsAnotherRequest }
    ensures none { EachReplyReportsARequest }
{}
