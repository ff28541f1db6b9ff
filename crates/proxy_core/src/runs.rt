//! Whole runs: events in order, up to the first fault.
ghost use Rattle.std.specs.Prelude.{◌≡◌, ◌≤◌, [], length, MatchOption, slice_get, IfOk, IfErr, OnErr};
ghost use Rattle.proxy_core.specs.State.{StepIsAccepted, StepIsRefusedWith};
ghost use Rattle.proxy_core.specs.Starts.{empty_store};
ghost use Rattle.proxy_core.specs.Traces.{trace_of_events};
ghost use Rattle.proxy_core.specs.Histories.{IsGoodHistory, HistoryStopsWithFault, open_exchanges};
ghost use Rattle.proxy_core.specs.Headline.{Headline};

use crate::core_fault::CoreFault;
use crate::core_state::Core;
use crate::event::Event;
use crate::outcome::{Outcome, Run};
use hx_allow::Table;
use hx_store::Shelf;
use std::alloc::Global;

impl<S: Shelf> Core<S> {
    /// One event.
    fn step(&mut self, alloc: Global, event: &Event) -> Result<Outcome, CoreFault>
        ensures ok { IfOk result (λ outcome. StepIsAccepted self.old event.now outcome self.new) }
        ensures err { IfErr result (λ fault. StepIsRefusedWith self.old event.now fault) }
        ensures unchanged { OnErr result (self.new ≡ self.old) }
    {
        match event {
            Event::Arrive(now, id, asked) => self.arrive(alloc, *now, *id, asked),
            Event::Answer(now, id, response) => {
                Ok(self.answer(alloc, *now, *id, response)?.outcome)
            }
            Event::Fail(now, id, kind) => Ok(self.fail(alloc, *now, *id, *kind)?.outcome),
            Event::Wake(now, id) => Ok(self.wake(alloc, *now, *id)?.outcome),
            Event::Abandon(id) => self.abandon(*id),
            Event::Overdue(id) => self.end_wait_on_timeout(*id),
        }
    }
}

/// The steps of the events in order, up to the first fault. The shelf is empty and has the configured capacity;
/// serials begin at `first_serial`, 1 or more. Out of memory is one of the faults; the outcomes so far stand.
pub fn run<S: Shelf + Drop>(
    alloc: Global,
    config: Table,
    shelf: S,
    first_serial: u64,
    events: &[Event],
) -> Run
    requires { S.entries shelf ≡ [] }
    ensures within { length result.outcomes.items ≤ length events.now }
    ensures good { IsGoodHistory config (empty_store (S.limit shelf)) first_serial
        (trace_of_events events.now result.outcomes.items) }
    ensures stopped { MatchOption result.stopped (length result.outcomes.items ≡ length events.now)
        (λ fault. HistoryStopsWithFault
        (open_exchanges config (empty_store (S.limit shelf)) (trace_of_events events.now result.outcomes.items))
        (slice_get events.now (length result.outcomes.items)) fault) }
    ensures headline { Headline config (empty_store (S.limit shelf)) first_serial
        (trace_of_events events.now result.outcomes.items) }
{
    let mut core = Core::new(alloc, config, shelf, first_serial);
    let mut outcomes = Vec::new(alloc);
    for event in events {
        if outcomes.reserve(1).is_err() {
            let fault = core.fault(event).unwrap_or(CoreFault::OutOfMemory);
            return Run {
                outcomes,
                stopped: Some(fault),
            };
        }
        match core.step(alloc, event) {
            Ok(outcome) => {
                let _ = outcomes.push(outcome);
            }
            Err(fault) => {
                return Run {
                    outcomes,
                    stopped: Some(fault),
                };
            }
        }
    }
    Run {
        outcomes,
        stopped: None,
    }
}
