//! What is called for effects, what reads and failed calls are taken as, in which order steps stand, and what a turn
//! refuses: each function's contract is the cases, and its body is empty.

ghost use Rattle.std.specs.Prelude.{◌≡◌, ◌∷◌, [], Some, None, true, false, codes};
ghost use Rattle.hx_allow.specs.Addresses.{address_of_numbers};
ghost use Rattle.hx_status.specs.declared.cause.FailKind.TheVariants as kinds;
ghost use Rattle.proxy_script.specs.declared.effect_list.Effect.TheVariants as effects;
ghost use Rattle.proxy_engine.specs.Happenings.{Accepts, Sends, Hears, Ends, Leaves, Retires, Overdues, Shuts, Fails};
ghost use Rattle.proxy_engine.specs.Due.{Wakes};
ghost use Rattle.proxy_engine.specs.Executions.{Took, Worked};
ghost use Rattle.proxy_engine.specs.ModelCases.{reply_data_for_a};
ghost use Rattle.proxy_engine.specs.declared.work.End.TheVariants as ends;
ghost use Rattle.proxy_turn.specs.Calls as call;
ghost use Rattle.proxy_turn.specs.Calls.{Nothing, Ended, Broken, Bytes};
ghost use Rattle.proxy_turn.specs.Turn.{Carried, Passed, Lost, calls_of_effect, calls_of_effects, end_has_failed};
ghost use Rattle.proxy_turn.specs.Turn.{happening_of_loss, happening_of_read};
ghost use Rattle.proxy_turn.specs.TurnSteps.{steps_of_lost_ends, steps_of_reads, steps_of_rounds};
ghost use Rattle.proxy_turn.specs.Served.{IsLossTimeoutOrRetirement, steps_taking_happenings};
ghost use Rattle.proxy_turn.specs.TurnCases.{TurnHasAtMostAThousandActs, NoAcceptWhereNoneMayBeAccepted};
ghost use Rattle.proxy_turn.specs.TurnCases.{NoUnreadableEndIsReadInATurn};
ghost use Rattle.proxy_turn.specs.TurnCases.{NoActBeforeAllReads, NoReadGivesMoreThanAPiece};
ghost use Rattle.proxy_turn.specs.TurnCases.{ReportedTurnOmitsNoEnd, ReportedTurnCountsWhatWasDone};
ghost use Rattle.proxy_turn.specs.TurnCases.{ListenerFaultNeedsAFailedAccept, NoCallOnAFailedEnd};
ghost use Rattle.proxy_turn.specs.TurnCases.{NoEffectIsSkippedWithoutFailure, NoClientWriteCountsAsRefused};

/// The calls of an effect: its bytes go to its end, whole and once, with what reply they are and what it answers, and
/// behind a failed call none is made. Of a forward that failed as refused the connect failed, of any other the write.
pub fn worked_calls_of_effects()
    ensures reply { calls_of_effect (effects.Client 1 (codes "x") (Some reply_data_for_a)) Carried
        ≡ call.Write (ends.Client 1) (codes "x") (Some reply_data_for_a) true ∷ [] }
    ensures failed_reply { calls_of_effect (effects.Client 1 (codes "x") (Some reply_data_for_a)) (Lost kinds.Closed)
        ≡ call.Write (ends.Client 1) (codes "x") (Some reply_data_for_a) false ∷ [] }
    ensures interim { calls_of_effect (effects.Client 1 (codes "x") None) Carried
        ≡ call.Write (ends.Client 1) (codes "x") None true ∷ [] }
    ensures close { calls_of_effect (effects.Close 1) Carried ≡ call.Shut (ends.Client 1) true ∷ [] }
    ensures forward { calls_of_effect (effects.Forward 5 (address_of_numbers 127 0 0 1 80) (codes "x")) Carried
        ≡ call.Connect 5 (address_of_numbers 127 0 0 1 80) true ∷ call.Write (ends.Link 5) (codes "x") None true ∷ [] }
    ensures refused { calls_of_effect (effects.Forward 5 (address_of_numbers 127 0 0 1 80) (codes "x"))
        (Lost kinds.Refused)
        ≡ call.Connect 5 (address_of_numbers 127 0 0 1 80) false ∷ [] }
    ensures cut { calls_of_effect (effects.Forward 5 (address_of_numbers 127 0 0 1 80) (codes "x")) (Lost kinds.Closed)
        ≡ call.Connect 5 (address_of_numbers 127 0 0 1 80) true ∷ call.Write (ends.Link 5) (codes "x") None false
        ∷ [] }
    ensures drop { calls_of_effect (effects.Drop 5) Carried ≡ call.Shut (ends.Link 5) true ∷ [] }
    ensures passed { calls_of_effect (effects.Client 1 (codes "x") None) Passed ≡ [] }
    ensures in_order { calls_of_effects (effects.Client 1 (codes "x") None ∷ effects.Close 1 ∷ [])
        (Carried ∷ Carried ∷ [])
        ≡ call.Write (ends.Client 1) (codes "x") None true ∷ call.Shut (ends.Client 1) true ∷ [] }
    ensures none_behind { calls_of_effects (effects.Client 1 (codes "x") None ∷ effects.Close 1 ∷ [])
        (Lost kinds.Closed ∷ Passed ∷ []) ≡ call.Write (ends.Client 1) (codes "x") None false ∷ [] }
    ensures one_is_lost { end_has_failed (ends.Client 1 ∷ []) (ends.Client 1) ≡ true }
    ensures another_is_not { end_has_failed (ends.Client 1 ∷ []) (ends.Client 2) ≡ false }
    ensures a_link_is_no_client { end_has_failed (ends.Client 1 ∷ []) (ends.Link 1) ≡ false }
{}

/// What a read gave, and a failed call, as happenings.
pub fn worked_happenings_of_reads()
    ensures bytes { happening_of_read (ends.Client 1) (Bytes (codes "x")) ≡ Some (Sends 1 (codes "x")) }
    ensures answer { happening_of_read (ends.Link 5) (Bytes (codes "x")) ≡ Some (Hears 5 (codes "x")) }
    ensures end { happening_of_read (ends.Client 1) Ended ≡ Some (Ends 1) }
    ensures end_of_a_link { happening_of_read (ends.Link 5) Ended ≡ Some (Shuts 5) }
    ensures broken { happening_of_read (ends.Client 1) Broken ≡ Some (Leaves 1) }
    ensures broken_link { happening_of_read (ends.Link 5) Broken ≡ Some (Fails 5 kinds.Closed) }
    ensures nothing { happening_of_read (ends.Client 1) Nothing ≡ None }
    ensures refused { happening_of_loss (ends.Link 5) kinds.Refused ≡ Some (Fails 5 kinds.Refused) }
    ensures left { happening_of_loss (ends.Client 1) kinds.Closed ≡ Some (Leaves 1) }
{}

/// The steps of a turn, the latest first: each read's happening, each act at the moment of the turn, and behind it what
/// its failed calls lost.
pub fn worked_order_of_steps()
    ensures reads { steps_of_reads (record { end = ends.Client 1; given = Bytes (codes "x") }
        ∷ record { end = ends.Client 2; given = Ended } ∷ []) [] ≡ Took (Ends 2) ∷ Took (Sends 1 (codes "x")) ∷ [] }
    ensures nothing_read { steps_of_reads (record { end = ends.Client 1; given = Nothing } ∷ []) [] ≡ [] }
    ensures acts { steps_of_rounds 9 (record { act = Wakes 0; emitted = effects.Close 1 ∷ []; fates = Carried ∷ [] }
        ∷ record { act = Wakes 1; emitted = []; fates = [] } ∷ []) [] ≡ Worked 9 (Wakes 1) []
        ∷ Worked 9 (Wakes 0) (effects.Close 1 ∷ []) ∷ [] }
    ensures losses { steps_of_rounds 9
        (record { act = Wakes 0; emitted = effects.Close 1 ∷ []; fates = Lost kinds.Closed ∷ [] } ∷ []) []
        ≡ Took (Leaves 1) ∷ Worked 9 (Wakes 0) (effects.Close 1 ∷ []) ∷ [] }
    ensures passed { steps_of_lost_ends (effects.Close 1 ∷ []) (Passed ∷ []) [] ≡ [] }
    ensures taken { steps_taking_happenings (Leaves 1 ∷ Leaves 2 ∷ []) [] ≡ Took (Leaves 2) ∷ Took (Leaves 1) ∷ [] }
{}

/// No turn does more than a thousand acts, asks the listener in vain, reads another end, takes a piece that is too
/// large, acts before it has read, leaves out an end and says nothing of it, or counts what wasn't done. No call is
/// made on an end that is lost, no effect is passed over to one that isn't, and between turns nothing is taken but
/// losses.
pub fn no_turn_breaks_its_order_or_bounds()
    ensures acts { TurnHasAtMostAThousandActs }
    ensures listener { NoAcceptWhereNoneMayBeAccepted }
    ensures ends { NoUnreadableEndIsReadInATurn }
    ensures order { NoActBeforeAllReads }
    ensures pieces { NoReadGivesMoreThanAPiece }
    ensures whole { ReportedTurnOmitsNoEnd }
    ensures counts { ReportedTurnCountsWhatWasDone }
    ensures failure { ListenerFaultNeedsAFailedAccept }
    ensures lost { NoCallOnAFailedEnd }
    ensures passed { NoEffectIsSkippedWithoutFailure }
    ensures refused { NoClientWriteCountsAsRefused }
    ensures bytes_are_no_loss { IsLossTimeoutOrRetirement (Sends 1 (codes "x")) → ⊥ }
    ensures answers_are_no_loss { IsLossTimeoutOrRetirement (Hears 5 (codes "x")) → ⊥ }
    ensures a_connection_is_no_loss { IsLossTimeoutOrRetirement (Accepts 1) → ⊥ }
    ensures who_is_to_end_is_one { IsLossTimeoutOrRetirement (Retires 1) }
    ensures who_is_overdue_is_one { IsLossTimeoutOrRetirement (Overdues 1) }
    ensures an_end_is_no_loss { IsLossTimeoutOrRetirement (Ends 1) → ⊥ }
    ensures a_shut_link_is_no_loss { IsLossTimeoutOrRetirement (Shuts 5) → ⊥ }
{}
