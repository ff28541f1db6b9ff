//! The origin of an exchange failed.
ghost use Rattle.std.specs.Prelude.{◌≡◌, ◌<◌, IfOk, IfErr, OnErr};
ghost use Rattle.proxy_core.specs.AnsweredRequests.{request_answered};
ghost use Rattle.proxy_core.specs.Outcomes.{find_exchange};
ghost use Rattle.proxy_core.specs.declared.event.Event.TheVariants.{Fail};
ghost use Rattle.proxy_core.specs.State.{StepIsAccepted, StepIsRefusedWith};

use crate::core_fault::CoreFault;
use crate::core_state::Core;
use crate::outcome::Step;
use hx_status::FailKind;
use hx_store::Shelf;
use std::alloc::Global;

impl<S: Shelf> Core<S> {
    /// The origin failed: a held response is sent where no reuse rule stands now, or where one on
    /// that response does and no error rule, else 502 or 504. `now` is in Unix seconds.
    pub fn fail(
        &mut self,
        alloc: Global,
        now: u64,
        id: u64,
        kind: FailKind,
    ) -> Result<Step, CoreFault>
        ensures ok { IfOk result (λ step. StepIsAccepted self.old (Fail now id kind) step.outcome self.new) }
        ensures asked { IfOk result (λ step. step.asked
            ≡ request_answered (find_exchange id self.old.exchanges) step.outcome) }
        ensures err { IfErr result (λ fault. StepIsRefusedWith self.old (Fail now id kind) fault) }
        ensures unchanged { OnErr result (self.new ≡ self.old) }
    {
        let x = self.exchange_at_origin(now, id)?;
        let pending = self.reply_to_failure(alloc, x, kind, None, now)?;
        Ok(self.finish(id, pending, None)?)
    }
}
