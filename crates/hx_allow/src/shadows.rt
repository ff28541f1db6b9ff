//! Lines that are never reached.
ghost use Rattle.std.specs.Prelude.{◌≡◌, ◌<◌, length};
ghost use Rattle.std.specs.List.{list_any, position_from};
ghost use Rattle.hx_allow.specs.NeverReached.{line_host_covers_line_host, hosts_cover_hosts, methods_cover_methods};
ghost use Rattle.hx_allow.specs.NeverReached.{path_covers_path, paths_cover_paths, line_covers_line};

use crate::line_hosts::{LineHost, is_below_host};
use crate::line_paths::{LinePath, is_below_path};
use crate::lines::{Line, has_star_or_method};
use hx_fields::Bytes;

fn line_host_covers_line_host(first: &LineHost, later: &LineHost) -> bool
    ensures { result ≡ line_host_covers_line_host first.now later.now }
{
    match (first, later) {
        (LineHost::Every, _) => true,
        (LineHost::One(host), LineHost::One(later)) => host.as_slice() == later.as_slice(),
        (LineHost::Below(host), LineHost::One(later)) => {
            is_below_host(host.as_slice(), later.as_slice())
        }
        (LineHost::Below(host), LineHost::Below(later)) => {
            host.as_slice() == later.as_slice() || is_below_host(host.as_slice(), later.as_slice())
        }
        _ => false,
    }
}

fn any_takes_host(hosts: &[LineHost], later: &LineHost) -> bool
    ensures { result ≡ list_any (λ first. line_host_covers_line_host first later.now) hosts.now }
{
    hosts
        .iter()
        .any(|first| line_host_covers_line_host(first, later))
}

fn hosts_cover_hosts(hosts: &[LineHost], later: &[LineHost]) -> bool
    ensures { result ≡ hosts_cover_hosts hosts.now later.now }
{
    later.iter().all(|host| any_takes_host(hosts, host))
}

fn methods_cover_methods(methods: &[Bytes], later: &[Bytes]) -> bool
    ensures { result ≡ methods_cover_methods methods.now later.now }
{
    later
        .iter()
        .all(|text| has_star_or_method(methods, text.as_slice()))
}

fn path_covers_path(path: &[u8], later: &[u8]) -> bool
    ensures { result ≡ path_covers_path path.now later.now }
{
    if path == b"/".as_slice() || path == later {
        return true;
    }
    later != b"/".as_slice() && is_below_path(path, later)
}

fn any_takes_path(paths: &[LinePath], later: &[u8]) -> bool
    ensures { result ≡ list_any (λ first. path_covers_path first later.now) paths.now }
{
    paths
        .iter()
        .any(|first| path_covers_path(first.as_slice(), later))
}

fn paths_cover_paths(paths: &[LinePath], later: &[LinePath]) -> bool
    ensures { result ≡ paths_cover_paths paths.now later.now }
{
    later
        .iter()
        .all(|path| any_takes_path(paths, path.as_slice()))
}

/// Whether the first line takes each request that the later one would.
#[tactic(auto, unfolding(crate::specs::NeverReached::line_covers_line))]
fn line_covers_line(first: &Line, later: &Line) -> bool
    ensures { result ≡ line_covers_line first.now later.now }
{
    hosts_cover_hosts(&first.hosts, &later.hosts)
        && methods_cover_methods(first.methods.as_slice(), later.methods.as_slice())
        && paths_cover_paths(&first.paths, &later.paths)
}

/// The number of the first of at most 4,096 lines that takes all of a later one; they are counted from 1.
pub(crate) fn first_line_covering_later_line(front: &[Line], later: &Line) -> Option<u16>
    requires { length front.now < 4097 }
    ensures { result ≡ position_from (λ first. line_covers_line first later.now) 1 front.now }
{
    let mut number = 1u16;
    for first in front {
        if line_covers_line(first, later) {
            return Some(number);
        }
        number += 1;
    }
    None
}
