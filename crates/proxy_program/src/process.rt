//! What the system tells of the process itself (proc(5)): its memory, its time on the processor, its descriptors.
ghost use Rattle.std.specs.Prelude.{◌≡◌, ◌*◌, ◌^◌, ◌-◌, min};

use proxy_files::{descriptors_open, read_start};
use proxy_server::ProcessFigures;
use std::rt::Files;
use std::str;

/// Milliseconds of a tick: the system tells times in hundredths of a second, whatever its own clock has.
const TICK_MILLISECONDS: u64 = 10;

/// The words of `/proc/self/stat` behind the program's name, which stands in parentheses and may have blanks.
const USER_TIME: usize = 11;

const SYSTEM_TIME: usize = 12;

const START_TIME: usize = 19;

fn milliseconds_of_ticks(ticks: u64) -> u64
    ensures { result ≡ min (ticks * 10) (2 ^ 64 - 1) }
{
    ticks.saturating_mul(TICK_MILLISECONDS)
}

/// The number at a place of the words behind the program's name.
fn stat_number(stat: &str, place: usize) -> Option<u64> {
    let (_, words) = stat.rsplit_once(')')?;
    words.split_whitespace().nth(place)?.parse::<u64>().ok()
}

/// The number behind a name at the front of a line.
fn number_after(text: &str, name: &str) -> Option<u64> {
    for line in text.lines() {
        if let Some(rest) = line.strip_prefix(name) {
            return rest.split_whitespace().next()?.parse::<u64>().ok();
        }
    }
    None
}

/// Bytes of a line that has so many kilobytes.
fn kilobytes_after(text: &str, name: &str) -> Option<u64> {
    Some(number_after(text, name)?.saturating_mul(1024))
}

/// Milliseconds on the processor.
fn processor_milliseconds(stat: &str) -> Option<u64> {
    let user = stat_number(stat, USER_TIME)?;
    let system = stat_number(stat, SYSTEM_TIME)?;
    Some(milliseconds_of_ticks(user.saturating_add(system)))
}

/// What the texts of the system come to.
fn figures_of(stat: &str, status: &str) -> ProcessFigures {
    ProcessFigures {
        processor_milliseconds: processor_milliseconds(stat),
        began: None,
        virtual_bytes: kilobytes_after(status, "VmSize:"),
        resident_bytes: kilobytes_after(status, "VmRSS:"),
        open_descriptors: None,
        most_descriptors: None,
    }
}

/// Milliseconds of a time in seconds, with hundredths behind the point.
fn milliseconds_of_hundredths(text: &str) -> Option<u64> {
    let (seconds, hundredths) = text.split_once('.')?;
    let seconds = seconds.parse::<u64>().ok()?;
    let hundredths = hundredths.parse::<u64>().ok()?;
    Some(
        seconds
            .saturating_mul(1000)
            .saturating_add(milliseconds_of_ticks(hundredths)),
    )
}

/// When the process began, in milliseconds since 1970, as now is this moment: the system tells for how long it runs
/// itself, and how long it had run when the process began.
fn start_of(stat: &str, uptime: &str, now: u64) -> Option<u64> {
    let began = milliseconds_of_ticks(stat_number(stat, START_TIME)?);
    let runs = milliseconds_of_hundredths(uptime.split_whitespace().next()?)?;
    Some(now.saturating_sub(runs.saturating_sub(began)))
}

/// When the process began, where the system tells, as now is this moment; both in milliseconds since 1970.
pub(crate) fn process_start<R: Files + AllocGlobal>(rt: &R, now: u64) -> Option<u64> {
    let stat = read_start(rt, "/proc/self/stat")?;
    let uptime = read_start(rt, "/proc/uptime")?;
    let stat = str::from_utf8(stat.as_slice()).ok()?;
    start_of(stat, str::from_utf8(uptime.as_slice()).ok()?, now)
}

/// The text of a file of the system, empty where it can't be read.
fn text_of(bytes: &Option<Vec<u8>>) -> &str {
    match bytes {
        Some(bytes) => str::from_utf8(bytes.as_slice()).unwrap_or(""),
        None => "",
    }
}

/// What the system tells of the process now; when it began, and how many descriptors it may have, doesn't change.
pub(crate) fn process_figures<R: Files + AllocGlobal>(
    rt: &R,
    began: Option<u64>,
    most_descriptors: Option<u64>,
) -> ProcessFigures {
    let stat = read_start(rt, "/proc/self/stat");
    let status = read_start(rt, "/proc/self/status");
    let mut figures = figures_of(text_of(&stat), text_of(&status));
    figures.began = began;
    figures.open_descriptors = descriptors_open(rt);
    figures.most_descriptors = most_descriptors;
    figures
}
