//! Laws on the definitions that the contracts cite.
ghost use Rattle.proxy_turn.specs.TurnSteps.{TurnStepsAreExecuted, TurnStepsEmitTheirEffects};
ghost use Rattle.proxy_turn.specs.OverSteps.{TurnOverGivenEndsStepsAreExecuted, TurnOverGivenEndsStepsEmitTheirEffects};
ghost use Rattle.proxy_turn.specs.Served.{EndLossesMayBeNone, OneEndLossIsTaken, EndLossesAreTakenTransitively};
ghost use Rattle.proxy_turn.specs.Served.{EndLossesAreTakenInOrder, EndLossesKeepModelConsistent};
ghost use Rattle.proxy_turn.specs.Served.{EngineContinuesByEndLosses, TurnIsServedByEndLossesAndTurn};
ghost use Rattle.proxy_turn.specs.Served.{NewEngineIsReachable, EngineContinuesByNothing, EngineContinuesTransitively};
ghost use Rattle.proxy_turn.specs.Served.{EngineContinuesByHappening, EngineContinuesByTurn};
ghost use Rattle.proxy_turn.specs.Served.{ReachableEngineStaysReachable};
ghost use Rattle.proxy_turn.specs.Served.{ReachableEngineHasServedAGoodRun, TurnExecutesItsSteps};
ghost use Rattle.proxy_turn.specs.Served.{ExecutedEngineHasServedAGoodRun};
ghost use Rattle.proxy_turn.specs.Served.{EngineKeepsItsTable};

pub use crate::over_cases::{no_turn_over_given_ends_breaks_its_order, worked_accepts};
pub use crate::turn_cases::{
    no_turn_breaks_its_order_or_bounds, worked_calls_of_effects, worked_happenings_of_reads,
    worked_order_of_steps,
};
use proxy_engine::laws::{core_steps_of_executions_are_good_runs, effects_name_open_ends};

/// A turn is lived by its own steps, after whatever was lived before it: it takes the connections that came and what
/// its reads gave, does its acts at its moment, and takes the ends on which a call failed. The effects of these steps
/// are those that it carried out. So what `proxy_engine::core_steps_of_executions_are_good_runs` says of whatever an
/// engine lives through,
/// it says of turns over sockets.
pub fn turns_execute_their_steps()
    ensures executed { TurnStepsAreExecuted }
    ensures reports { TurnStepsEmitTheirEffects }
    ensures over { TurnOverGivenEndsStepsAreExecuted }
    ensures over_reports { TurnOverGivenEndsStepsEmitTheirEffects }
{}

/// Ends that are lost between two turns are taken, one after another; after them a turn is served.
pub fn a_turn_is_served_after_end_losses()
    ensures none { EndLossesMayBeNone }
    ensures one { OneEndLossIsTaken }
    ensures more { EndLossesAreTakenTransitively }
    ensures joined { EndLossesAreTakenInOrder }
    ensures order { EndLossesKeepModelConsistent }
    ensures on { EngineContinuesByEndLosses }
    ensures served { TurnIsServedByEndLossesAndTurn }
{
    effects_name_open_ends();
}

/// Whatever happens to an engine, and whatever its sockets do in its turns: what it has lived through goes on, and the
/// steps of its core are a good run, by its table and with the headline, of the requests that its clients' bytes spell.
///
/// Its steps after a turn of a server are those of the turn, after those before it. Its table and the room of its
/// store stay.
pub fn a_reachable_engine_stays_reachable()
    ensures begins { NewEngineIsReachable }
    ensures stays { EngineContinuesByNothing }
    ensures on { EngineContinuesTransitively }
    ensures takes { EngineContinuesByHappening }
    ensures turns { EngineContinuesByTurn }
    ensures executed { ReachableEngineStaysReachable }
    ensures serves { ReachableEngineHasServedAGoodRun }
    ensures by_steps { TurnExecutesItsSteps }
    ensures runs { ExecutedEngineHasServedAGoodRun }
    ensures table { EngineKeepsItsTable }
{
    turns_execute_their_steps();
    effects_name_open_ends();
    core_steps_of_executions_are_good_runs();
}
