//! The first line of the table that matches.
ghost use Rattle.std.specs.Prelude.{◌≡◌};
ghost use Rattle.std.specs.Option.{option_copied};
ghost use Rattle.hx_allow.specs.Matching.{line_of_number, line_refuses_loops, verdict_of_line};
ghost use Rattle.hx_allow.specs.Index.{verdict_by_line_numbers, verdict_of_parent_domains, verdict_of_lines_that_pass};
ghost use Rattle.hx_allow.specs.Index.{line_can_match_host, parent_domains_of};
ghost use Rattle.hx_allow.specs.Index.{IsHostIndexOfLines, NoIndexedHostIsLonger};

use crate::host_index::HostIndex;
use crate::lines::Line;
use crate::{RouteOverLine, Verdict};

/// The line of a number, counted from 1.
pub(crate) fn line_at(lines: &[Line], number: u16) -> Option<&Line>
    ensures { option_copied result ≡ line_of_number lines.now number }
{
    if number == 0 {
        return None;
    }
    lines.get(usize::from(number) - 1)
}

/// Whether the line of a number, counted from 1, refuses requests that loop.
pub(crate) fn line_refuses_loops(lines: &[Line], number: u16) -> bool
    ensures { result ≡ line_refuses_loops lines.now number }
{
    match line_at(lines, number) {
        Some(line) => line.refuses_loops,
        None => false,
    }
}

/// What a line of this number says where it decides.
fn verdict_of_line(number: u16, line: &Line) -> Verdict
    ensures { result ≡ verdict_of_line number line.now }
{
    if line.origin.is_some() {
        Verdict::Allowed(RouteOverLine::over(number))
    } else {
        Verdict::DeniedBy(number)
    }
}

/// What the first of the lines of these ascending numbers says that a method and a path match, or what was found, where
/// none in front of that line does. The method is one that a line may allow.
fn verdict_by_line_numbers(
    lines: &[Line],
    numbers: &[u16],
    method: &[u8],
    path: &[u8],
    found: Verdict,
) -> Verdict
    ensures { result ≡ verdict_by_line_numbers lines.now numbers.now method.now path.now found }
{
    for number in numbers {
        if found.verdict_is_at_or_before_line(*number) {
            return found;
        }
        if let Some(line) = line_at(lines, *number) {
            if line.matches(method, path) {
                return verdict_of_line(*number, line);
            }
        }
    }
    found
}

/// The same of the lines for the hosts below one, of each that this host is below.
fn verdict_of_parent_domains(
    lines: &[Line],
    index: &HostIndex,
    host: &[u8],
    method: &[u8],
    path: &[u8],
    mut found: Verdict,
) -> Verdict
    requires { NoIndexedHostIsLonger index.now.longest index.now.below }
    ensures { result
        ≡ verdict_of_parent_domains lines.now index.now.below (parent_domains_of host.now) method.now path.now found }
{
    let skipped = host.len().saturating_sub(index.longest()).saturating_sub(1);
    for place in skipped..host.len() {
        if host[place] == b'.' {
            let numbers = index.lines_for_hosts_below(&host[place + 1..]);
            found = verdict_by_line_numbers(lines, numbers, method, path, found);
        }
    }
    found
}

/// What the first line says that a host, a method and a path match. The method is one that a line may allow.
pub(crate) fn verdict_by_host_index(
    lines: &[Line],
    index: &HostIndex,
    host: &[u8],
    method: &[u8],
    path: &[u8],
) -> Verdict
    requires { IsHostIndexOfLines lines.now index.now }
    ensures { result ≡ verdict_of_lines_that_pass 1 (line_can_match_host host.now) lines.now method.now path.now }
{
    let named = verdict_by_line_numbers(lines, index.naming(host), method, path, Verdict::NoLine);
    let below = verdict_of_parent_domains(lines, index, host, method, path, named);
    verdict_by_line_numbers(lines, index.for_every_host(), method, path, below)
}
