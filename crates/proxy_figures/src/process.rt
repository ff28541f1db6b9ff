//! What the system tells of the process itself, under the names that Prometheus' own clients have for it.

use crate::page::{Kind, Page};
use std::alloc::AllocError;

/// What the system tells of the process; what it doesn't tell is left out of a page.
#[derive(Clone, Copy)]
pub struct ProcessFigures {
    /// Milliseconds of processor time that it took, for itself and in the system.
    pub processor_milliseconds: Option<u64>,
    /// When it began, in milliseconds since 1970.
    pub began: Option<u64>,
    /// Bytes of its memory, and of those the ones that stand in the machine's.
    pub virtual_bytes: Option<u64>,
    pub resident_bytes: Option<u64>,
    /// Descriptors that are open, and that may be.
    pub open_descriptors: Option<u64>,
    pub most_descriptors: Option<u64>,
}

fn push_number(
    page: &mut Page<'_>,
    name: &str,
    help: &str,
    number: Option<u64>,
) -> Result<(), AllocError> {
    match number {
        Some(n) => page.single_sample_family(name, Kind::Gauge, help, n),
        None => Ok(()),
    }
}

fn push_time(
    page: &mut Page<'_>,
    name: &str,
    kind: Kind,
    help: &str,
    milliseconds: Option<u64>,
) -> Result<(), AllocError> {
    match milliseconds {
        Some(milliseconds) => page.single_time_family(name, kind, help, milliseconds),
        None => Ok(()),
    }
}

/// The figures of the process. The texts of help are those of Prometheus' client in Go: node_exporter has the same
/// families of its own, and refuses a second text for one.
pub(crate) fn push_process(
    page: &mut Page<'_>,
    process: &ProcessFigures,
) -> Result<(), AllocError> {
    let name = "process_cpu_seconds_total";
    let help = "Total user and system CPU time spent in seconds.";
    push_time(
        page,
        name,
        Kind::Counter,
        help,
        process.processor_milliseconds,
    )?;
    let name = "process_start_time_seconds";
    let help = "Start time of the process since unix epoch in seconds.";
    push_time(page, name, Kind::Gauge, help, process.began)?;
    let help = "Virtual memory size in bytes.";
    push_number(
        page,
        "process_virtual_memory_bytes",
        help,
        process.virtual_bytes,
    )?;
    let help = "Resident memory size in bytes.";
    push_number(
        page,
        "process_resident_memory_bytes",
        help,
        process.resident_bytes,
    )?;
    let help = "Number of open file descriptors.";
    push_number(page, "process_open_fds", help, process.open_descriptors)?;
    let help = "Maximum number of open file descriptors.";
    push_number(page, "process_max_fds", help, process.most_descriptors)
}
