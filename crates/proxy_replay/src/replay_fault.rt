//! Why a replay ended early.
ghost use Rattle.std.specs.Prelude.{◌≡◌};
ghost use Rattle.proxy_replay.specs.Steps.{replay_fault_of_table_fault, replay_fault_of_engine_fault};
ghost use Rattle.proxy_replay.specs.Steps.{replay_fault_of_store_fault};

use hx_allow::TableFault;
use proxy_engine::EngineFault;
use proxy_store_file::StoreReadFault;

/// Why a replay ended early. The fault at the earliest place of the script is answered.
#[derive(Drop)]
pub enum ReplayFault {
    /// The operator's table is at fault. Nothing was written.
    Config(TableFault),
    /// The file of the store that it is to begin over is at fault. Nothing was written. It never names out of memory.
    Store(StoreReadFault),
    /// The line of this number, counted from 1, is none of a script or doesn't stand where it may, or its block
    /// is missing or short. Blocks aren't counted as lines.
    Line(u64),
    /// The engine refuses a happening, or no number of a link is left. It never names out of memory.
    Engine(EngineFault),
    /// The reader failed, or the script is longer than the limit.
    Read,
    /// The writer failed, or took no bytes.
    Write,
    /// Memory ran out.
    OutOfMemory,
}

impl ReplayFault {
    /// What a fault of the table is to a replay.
    pub(crate) fn replay_fault_of_table_fault(fault: TableFault) -> ReplayFault
        ensures { result ≡ replay_fault_of_table_fault fault }
    {
        match fault {
            TableFault::OutOfMemory => ReplayFault::OutOfMemory,
            fault => ReplayFault::Config(fault),
        }
    }

    /// What a fault of the store's file is to a replay.
    pub(crate) fn replay_fault_of_store_fault(fault: StoreReadFault) -> ReplayFault
        ensures { result ≡ replay_fault_of_store_fault fault }
    {
        match fault {
            StoreReadFault::OutOfMemory => ReplayFault::OutOfMemory,
            fault => ReplayFault::Store(fault),
        }
    }

    /// What a fault of the engine is to a replay.
    pub(crate) fn replay_fault_of_engine_fault(fault: EngineFault) -> ReplayFault
        ensures { result ≡ replay_fault_of_engine_fault fault }
    {
        match fault {
            EngineFault::WrongNumber => ReplayFault::Engine(EngineFault::WrongNumber),
            EngineFault::NotAccepted => ReplayFault::Engine(EngineFault::NotAccepted),
            EngineFault::NotWaiting => ReplayFault::Engine(EngineFault::NotWaiting),
            EngineFault::OutOfMemory => ReplayFault::OutOfMemory,
            EngineFault::Spent => ReplayFault::Engine(EngineFault::Spent),
        }
    }
}
