//! What the definitions of a server's turns give on worked cases, computed from them: each function's contract is the
//! cases, and its body is empty. Times are milliseconds.

ghost use Rattle.std.specs.Prelude.{◌≡◌, ◌∷◌, [], true, false, Ok, Err};
ghost use Rattle.hx_status.specs.declared.cause.FailKind.TheVariants as kinds;
ghost use Rattle.proxy_engine.specs.Happenings.{Leaves, Fails};
ghost use Rattle.proxy_figures.specs.declared.turn_counts.TurnEnd.TheVariants as ends;
ghost use Rattle.proxy_turn.specs.declared.report.TurnFault.TheVariants as faults;
ghost use Rattle.proxy_server.specs.Losses.{AtMostOneEndLossIsTaken};
ghost use Rattle.proxy_server.specs.Paces.{milliseconds_of_moment, work_left_after_turn, turn_end_of_report};
ghost use Rattle.proxy_server.specs.Serving.{TurnHadLinkNumbersLeft, turn_left_no_act_due};
ghost use Rattle.proxy_server.specs.declared.pace.WorkLeftForNextTurn.{WorkLeftForNextTurn};

/// A turn that did less than it may leaves nothing, so that the next one waits for something to happen; one that found
/// no memory waits too. What a server's turn may lose while it is recorded.
pub fn worked_turns()
    ensures settles { turn_left_no_act_due (Ok (record { accepted = 0; reads = 0; works = 999; faults = 0 })) ≡ true }
    ensures leaves { turn_left_no_act_due (Ok (record { accepted = 0; reads = 0; works = 1000; faults = 0 })) ≡ false }
    ensures failed { turn_left_no_act_due (Err faults.NoMemory) ≡ false }
    ensures numbers { TurnHadLinkNumbersLeft (Err faults.Spent) → ⊥ }
    ensures waits { (p : WorkLeftForNextTurn) → (work_left_after_turn (record p { sweeping = false })
        (Ok (record { accepted = 0; reads = 0; works = 999; faults = 0 })) false).busy ≡ false }
    ensures more { (p : WorkLeftForNextTurn) → (work_left_after_turn (record p { sweeping = false })
        (Ok (record { accepted = 0; reads = 0; works = 0; faults = 0 })) true).busy ≡ true }
    ensures due { (p : WorkLeftForNextTurn) → (work_left_after_turn p
        (Ok (record { accepted = 0; reads = 0; works = 1000; faults = 0 })) false).busy ≡ true }
    ensures without_memory { (p : WorkLeftForNextTurn)
        → (work_left_after_turn p (Err faults.NoMemory) true).busy ≡ false }
    ensures without_listener { (p : WorkLeftForNextTurn)
        → (work_left_after_turn p (Err faults.Listener) false).busy ≡ true }
    ensures counts { turn_end_of_report (Ok (record { accepted = 0; reads = 0; works = 1000; faults = 9 }))
        ≡ ends.Served }
    ensures nobody { turn_end_of_report (Err faults.Listener) ≡ ends.WithoutListener }
    ensures wanting { turn_end_of_report (Err faults.NoMemory) ≡ ends.WithoutMemory }
    ensures spent { turn_end_of_report (Err faults.Spent) ≡ ends.Served }
    ensures moment { milliseconds_of_moment 3 5 ≡ 3005 }
    ensures one { AtMostOneEndLossIsTaken false (Leaves 1 ∷ []) true }
    ensures none_behind { AtMostOneEndLossIsTaken true (Leaves 1 ∷ []) true → ⊥ }
    ensures no_second { AtMostOneEndLossIsTaken false (Leaves 1 ∷ Fails 1 kinds.Closed ∷ []) true → ⊥ }
    ensures is_noted { AtMostOneEndLossIsTaken false (Leaves 1 ∷ []) false → ⊥ }
{}
