//! What a turn over ends that are handed in calls and takes, and what it refuses: each function's contract is the
//! cases, and its body is empty.

ghost use Rattle.std.specs.Prelude.{◌≡◌, ◌∷◌, []};
ghost use Rattle.proxy_engine.specs.Happenings.{Accepts};
ghost use Rattle.proxy_engine.specs.Executions.{Took};
ghost use Rattle.proxy_engine.specs.declared.work.End.TheVariants as ends;
ghost use Rattle.proxy_turn.specs.Calls as call;
ghost use Rattle.proxy_turn.specs.Calls.{Came, NoneCame, Failed};
ghost use Rattle.proxy_turn.specs.Over.{accepted_ends, calls_of_accepts, count_of_accepted_connections};
ghost use Rattle.proxy_turn.specs.Over.{count_of_failed_accept_outcomes};
ghost use Rattle.proxy_turn.specs.OverSteps.{steps_of_accepts};
ghost use Rattle.proxy_turn.specs.OverCases.{NoMoreAcceptsThanTheBound, NoAcceptAtTheConnectionBound};
ghost use Rattle.proxy_turn.specs.OverCases.{NoAcceptAfterNoConnectionCame};
ghost use Rattle.proxy_turn.specs.OverCases.{NoUnreadableEndIsRead, NoEndIsReadTwice, NoHandedInEndIsSkipped};
ghost use Rattle.proxy_turn.specs.OverCases.{NoAcceptedEndIsSkipped, NoReadBeforeTheAccepts, NoActBeforeAllEndsAreRead};
ghost use Rattle.proxy_turn.specs.OverCases.{NoMoreActsThanAThousand, NoReportOmitsAnUnreadEnd};
ghost use Rattle.proxy_turn.specs.OverCases.{NoReportedTurnStopsAcceptingEarly, NoReportCountsWhatWasNotDone};
ghost use Rattle.proxy_turn.specs.OverCases.{ListenerFaultOnlyAfterFailedAccept, NoUnreadableEndIsListed};
ghost use Rattle.proxy_turn.specs.OverCases.{CallsOfATurnOverGivenEndsStandInOrder};

/// Each call of accept is for the next number; what came is an end of that number, and a step.
pub fn worked_accepts()
    ensures none { calls_of_accepts 5 [] ≡ [] }
    ensures calls { calls_of_accepts 5 (Came ∷ Came ∷ NoneCame ∷ [])
        ≡ call.Accept 5 Came ∷ call.Accept 6 Came ∷ call.Accept 7 NoneCame ∷ [] }
    ensures failed_call { calls_of_accepts 5 (Came ∷ Failed ∷ []) ≡ call.Accept 5 Came ∷ call.Accept 6 Failed ∷ [] }
    ensures ends { accepted_ends 5 (Came ∷ Came ∷ NoneCame ∷ []) ≡ ends.Client 5 ∷ ends.Client 6 ∷ [] }
    ensures no_end { accepted_ends 5 (Failed ∷ []) ≡ [] }
    ensures steps { steps_of_accepts 5 (Came ∷ Came ∷ NoneCame ∷ []) [] ≡ Took (Accepts 6) ∷ Took (Accepts 5) ∷ [] }
    ensures count { count_of_accepted_connections (Came ∷ Came ∷ NoneCame ∷ []) ≡ 2 }
    ensures failures { count_of_failed_accept_outcomes (Came ∷ Failed ∷ []) ≡ 1 }
    ensures no_failure { count_of_failed_accept_outcomes (Came ∷ NoneCame ∷ []) ≡ 0 }
{}

/// No turn asks the listener more often than it may, where all are open that may be, or behind a call that gave none.
/// It reads no end from which no bytes may come, none twice, and passes over none of the others, also none that it
/// accepted. It reads nothing before it has accepted, and acts on nothing before it has read. Its report leaves nothing
/// out, and counts what was done.
pub fn no_turn_over_given_ends_breaks_its_order()
    ensures calls { NoMoreAcceptsThanTheBound }
    ensures full { NoAcceptAtTheConnectionBound }
    ensures behind { NoAcceptAfterNoConnectionCame }
    ensures silent { NoUnreadableEndIsRead }
    ensures twice { NoEndIsReadTwice }
    ensures given { NoHandedInEndIsSkipped }
    ensures accepted { NoAcceptedEndIsSkipped }
    ensures reads { NoReadBeforeTheAccepts }
    ensures acts { NoActBeforeAllEndsAreRead }
    ensures many { NoMoreActsThanAThousand }
    ensures whole { NoReportOmitsAnUnreadEnd }
    ensures connections { NoReportedTurnStopsAcceptingEarly }
    ensures counts { NoReportCountsWhatWasNotDone }
    ensures failure { ListenerFaultOnlyAfterFailedAccept }
    ensures listed { NoUnreadableEndIsListed }
    ensures order { CallsOfATurnOverGivenEndsStandInOrder }
{}
