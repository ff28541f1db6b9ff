//! What a turn tells of itself.
ghost use Rattle.std.specs.Prelude.{◌≡◌};
ghost use Rattle.proxy_turn.specs.Parts.{turn_fault_of_engine_fault};
ghost use Rattle.proxy_turn.specs.declared.report.TurnFault.TheVariants.{NoMemory};

use proxy_engine::EngineFault;
use std::alloc::AllocError;
use std::fmt;
use std::fmt::Formatter;

/// What a turn did.
#[derive(Clone, Copy, PartialEq, Eq)]
pub struct Report {
    /// Connections accepted.
    pub accepted: u64,
    /// Calls of `read`.
    pub reads: u64,
    /// Acts done, at most 1,000. Where there are fewer, nothing more is due.
    pub works: u64,
    /// Calls that failed.
    pub faults: u64,
}

/// Why a turn ended early. What it had taken and done until then stands.
#[derive(Clone, Copy, Debug, PartialEq, Eq)]
pub enum TurnFault {
    /// No connection can be accepted.
    Listener = 1,
    /// Memory ran out. Nothing that was read is lost.
    NoMemory,
    /// The act that is due may need a link, and the last number is used.
    Spent,
}

/// A turn names connections and links that are there, so what the engine refuses it for is memory or a spent number.
impl From<EngineFault> for TurnFault {
    ghost from_gives = { λ given fault. fault ≡ turn_fault_of_engine_fault given };

    fn from(fault: EngineFault) -> TurnFault {
        match fault {
            EngineFault::Spent => TurnFault::Spent,
            _ => TurnFault::NoMemory,
        }
    }
}

impl From<AllocError> for TurnFault {
    ghost from_gives = { λ _ fault. fault ≡ NoMemory };

    fn from(_error: AllocError) -> TurnFault {
        TurnFault::NoMemory
    }
}

impl fmt::Display for TurnFault {
    ghost use Rattle.std.specs.Prelude.{Some};
    ghost use Rattle.proxy_turn.specs.FaultTexts.{fault_text};

    ghost output = { λ fault. Some (fault_text fault) };

    fn fmt<W: fmt::Write>(&self, f: &mut Formatter<W>) -> fmt::Result {
        f.write_str(match self {
            TurnFault::Listener =>
                "no connection can be accepted; look at the limit of open files of the process and of the system",
            TurnFault::NoMemory =>
                "no memory is left for the turn; nothing that was read is lost, and what is left undone is done in a later turn",
            TurnFault::Spent => "no number of a link is left; start the proxy anew",
        })
    }
}
