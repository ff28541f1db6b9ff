//! Which lines of the table a host can match.
//!
//! A look-up costs the logarithm of the hosts that lines name, and takes no memory. The index has a
//! number for each host of each line. A request's host is looked up itself, and what stands behind each
//! of its dots where that is no longer than the longest host below which a line names hosts, so a host
//! of many labels costs no more than that length.
ghost use Rattle.std.specs.Prelude.{◌≡◌, ◌≤◌, ◌∷◌, [], length, IfOk, OnOk};
ghost use Rattle.hx_allow.specs.Index.{line_numbers_for_host, IsHostIndexOfLines, LineHostsAreIndexed};
ghost use Rattle.hx_allow.specs.Index.{LineNumberIsIndexedForHost};

use crate::line_hosts::LineHost;
use crate::lines::Line;
use std::alloc::{AllocError, Global};
use std::collections::BTreeMap;

/// The numbers of the lines that a host can match, ascending.
pub(crate) struct HostIndex {
    /// Those of the lines that name a host, of each such host.
    named: BTreeMap<Vec<u8>, Vec<u16>>,
    /// Those of the lines for the hosts below one, of each such one.
    below: BTreeMap<Vec<u8>, Vec<u16>>,
    /// The length of the longest of these.
    longest: usize,
    /// Those of the lines for every host.
    every: Vec<u16>,
}

/// One call drops it, wherever that is.
impl Drop for HostIndex {
    fn drop(self) {
        let HostIndex {
            named: _,
            below: _,
            longest: _,
            every: _,
        } = self;
    }
}

impl HostIndex {
    /// The index of at most 4,096 lines. Fails only where memory runs out.
    pub(crate) fn of(alloc: Global, lines: &[Line]) -> Result<HostIndex, AllocError>
        requires { length lines.now ≤ 4096 }
        ensures { IfOk result (IsHostIndexOfLines lines.now) }
    {
        let mut index = HostIndex {
            named: BTreeMap::new(alloc),
            below: BTreeMap::new(alloc),
            longest: 0,
            every: Vec::new(alloc),
        };
        let mut number = 1u16;
        for line in lines {
            note_hosts(alloc, &mut index, &line.hosts, number)?;
            number += 1;
        }
        Ok(index)
    }

    /// Puts the number of a line behind those of one of its hosts.
    fn note(&mut self, alloc: Global, host: &LineHost, number: u16) -> Result<(), AllocError>
        ensures { OnOk result (LineHostsAreIndexed (host.now ∷ []) number self.old self.new) }
    {
        match host {
            LineHost::One(host) => enter(alloc, &mut self.named, host.as_slice(), number)?,
            LineHost::Below(host) => {
                enter(alloc, &mut self.below, host.as_slice(), number)?;
                self.longest = self.longest.max(host.len());
            }
            LineHost::Every => self.every.push(number)?,
        }
        Ok(())
    }

    /// The numbers of the lines that name a host, ascending.
    pub(crate) fn naming(&self, host: &[u8]) -> &[u16]
        ensures { result.now ≡ line_numbers_for_host self.now.named host.now }
    {
        match self.named.get(host) {
            Some(numbers) => numbers.as_slice(),
            None => &[],
        }
    }

    /// The numbers of the lines for the hosts below one, ascending.
    pub(crate) fn lines_for_hosts_below(&self, host: &[u8]) -> &[u16]
        ensures { result.now ≡ line_numbers_for_host self.now.below host.now }
    {
        match self.below.get(host) {
            Some(numbers) => numbers.as_slice(),
            None => &[],
        }
    }

    /// The length of the longest host below which a line names hosts.
    pub(crate) fn longest(&self) -> usize
        ensures { result ≡ self.now.longest }
    {
        self.longest
    }

    /// The numbers of the lines for every host, ascending.
    pub(crate) fn for_every_host(&self) -> &[u16]
        ensures { result.now ≡ self.now.every.items }
    {
        self.every.as_slice()
    }
}

/// Puts the number of a line behind those of each of its hosts.
fn note_hosts(
    alloc: Global,
    index: &mut HostIndex,
    hosts: &[LineHost],
    number: u16,
) -> Result<(), AllocError>
    ensures { OnOk result (LineHostsAreIndexed hosts.now number index.old index.new) }
{
    for host in hosts {
        index.note(alloc, host, number)?;
    }
    Ok(())
}

/// Puts the number of a line behind those of a host.
fn enter(
    alloc: Global,
    kept: &mut BTreeMap<Vec<u8>, Vec<u16>>,
    host: &[u8],
    number: u16,
) -> Result<(), AllocError>
    ensures { OnOk result (LineNumberIsIndexedForHost host.now number kept.old kept.new) }
{
    let mut numbers = match kept.remove(host) {
        Some(numbers) => numbers,
        None => Vec::new(alloc),
    };
    numbers.push(number)?;
    kept.insert(Vec::from_slice(alloc, host)?, numbers)?;
    Ok(())
}
