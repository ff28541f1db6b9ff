//! Why a step is not done.

use std::alloc::AllocError;

/// The least fault that stands. Each leaves the core as it was.
#[derive(Clone, Copy, Debug, PartialEq, Eq)]
pub enum CoreFault {
    /// An exchange of that id is open.
    IdTaken = 1,
    /// No exchange of that id is open.
    UnknownId,
    /// The moment lies past the year 9999.
    MomentTooLate,
    /// Memory ran out.
    OutOfMemory,
    /// An answer or a failure, and no origin was asked: the request waits.
    NotForwarded,
    /// A wake, and the request doesn't wait, or the one that it waits for is open.
    NotReady,
    /// The time of a wait is over, and the request doesn't wait for another's answer, or no longer.
    NotWaiting,
}

impl From<AllocError> for CoreFault {
    ghost use Rattle.std.specs.Prelude.{◌≡◌};
    ghost use Rattle.proxy_core.specs.declared.core_fault.CoreFault.TheVariants.{OutOfMemory};

    ghost from_gives = { λ _ e. e ≡ OutOfMemory };

    fn from(_: AllocError) -> CoreFault {
        CoreFault::OutOfMemory
    }
}
