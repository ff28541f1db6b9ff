//! Moments.
ghost use Rattle.std.specs.Prelude.{◌≡◌};
ghost use Rattle.proxy_core.specs.Moments.{moment_too_late_fault};

use crate::core_fault::CoreFault;

/// The fault of a moment in Unix seconds, if it is one: the year 10000 and later have no date.
pub(crate) fn fault_if_moment_too_late(now: u64) -> Option<CoreFault>
    ensures { result ≡ moment_too_late_fault now }
{
    if now < 253_402_300_800 {
        None
    } else {
        Some(CoreFault::MomentTooLate)
    }
}
