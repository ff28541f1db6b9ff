//! A script over memory. Which line names a fault, and with which exit status, is a contract.

use proxy_replay::{ReplayFault, replayed};

/// A script in memory can't fail to be read, so its fault is its own.
#[test]
fn a_fault_over_memory_is_no_fault_of_reading(rt: HostRuntime) {
    let ended = replayed(rt.alloc(), b"nonsense\n");
    assert!(rt; matches!(&ended, Err(ReplayFault::Line(1))));
}
