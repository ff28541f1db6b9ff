//! The operator's table, read.
ghost use Rattle.std.specs.Prelude.{◌≡◌, ◌≤◌, [], length, Err, IfSome, unwrap_or, is_some};
ghost use Rattle.std.specs.Option.{option_copied, option_map};
ghost use Rattle.std.specs.Net.Text.{socket_v4_text};
ghost use Rattle.hx_allow.specs.Matching.{verdict_of, verdict_of_request, origin_of, origin_address_of, line_policy};
ghost use Rattle.hx_allow.specs.Matching.{line_refuses_loops, request_is_refused_as_loop, VerdictNamesAnOrigin};
ghost use Rattle.hx_allow.specs.Matching.{policy_of, session_cookies_of, request_has_session_cookie_of_line};
ghost use Rattle.hx_allow.specs.Matching.{vary_names_of_line};
ghost use Rattle.hx_allow.specs.Matching.{origin_timeout_of, purge_key_of, line_purges_for_request};
ghost use Rattle.hx_allow.specs.Matching.{wait_timeout_of};
ghost use Rattle.hx_allow.specs.NeverReached.{first_line_covering_line};
ghost use Rattle.hx_allow.specs.Tables.{BytesReadAsTable, TableWasRead};

use crate::cookies::has_cookie_among;
use crate::host_index::HostIndex;
use crate::lines::{Line, method_is_never_allowed};
use crate::matching::{line_at, line_refuses_loops, verdict_by_host_index};
use crate::origins::Origin;
use crate::purges::asks_to_purge_with_key;
use crate::shadows::first_line_covering_later_line;
use crate::via::{via_names_proxy, via_names_proxy_twice};
use crate::{RouteOverLine, TableFault, Verdict, config_reading};
use http::Method;
use hx_fields::{Bytes, Fields};
use hx_policy::Policy;
use hx_target::Target;
use std::alloc::Global;
use std::marker::Model;
use std::net::SocketAddrV4;

/// The operator's table: the proxy's name, its limits, which requests go to which origin, and which of them may be
/// answered from the store.
pub struct Table {
    pub(crate) name: String,
    pub(crate) capacity: usize,
    pub(crate) max_body: u64,
    pub(crate) max_stored: u64,
    pub(crate) max_store: Option<u64>,
    pub(crate) lines: Vec<Line>,
    /// Which of the lines a host can match.
    pub(crate) by_host: HostIndex,
}

/// One call drops it, wherever that is.
impl Drop for Table {
    fn drop(self) {
        let Table {
            name: _,
            capacity: _,
            max_body: _,
            max_stored: _,
            max_store: _,
            lines: _,
            by_host: _,
        } = self;
    }
}

impl Model for Table {
    ghost use Rattle.std.specs.Prelude.{string_bytes, length, ◌≤◌, ◌≡◌, IfSome};
    ghost use Rattle.hx_allow.specs.TableLines.{Table};
    ghost use Rattle.hx_allow.specs.Index.{IsHostIndexOfLines};
    ghost use Rattle.hx_allow.specs.Tables.{TableWasRead};

    ghost Value = { Table };

    ghost view = { λ c. record {
      name = string_bytes c.name;
      capacity = c.capacity;
      max_body = c.max_body;
      max_stored = c.max_stored;
      max_store = c.max_store;
      lines = c.lines.items;
    } };

    ghost invariant = { λ c. (length c.lines.items ≤ 4096) × IsHostIndexOfLines c.lines.items c.by_host
        × TableWasRead (record {
          name = string_bytes c.name;
          capacity = c.capacity;
          max_body = c.max_body;
          max_stored = c.max_stored;
          max_store = c.max_store;
          lines = c.lines.items;
        })
        × IfSome c.max_store (λ most. most ≤ 1099511627776) };
}

impl Table {
    /// Reads a table of version 1, 2, 3 or 4. The first fault in the order of looking is answered;
    /// out of memory is told in its place where the text or a key couldn't be copied.
    pub fn read(alloc: Global, bytes: &[u8]) -> Result<Table, TableFault>
        ensures table { ¬ (result ≡ Err TableFault.OutOfMemory) → BytesReadAsTable bytes.now result }
        // That a text is too long is told without memory. Any other fault may be hidden: the text
        // is read as TOML, which takes memory, before the first of them is looked for. In a table
        // that was read, out of memory hides only a key that isn't known, whose bytes are copied.
        ensures memory_last { result ≡ Err TableFault.OutOfMemory → length bytes.now ≤ 1048576 }
    {
        config_reading::read(alloc, bytes)
    }

    /// Says of each table that some text reads as it.
    pub fn was_read(&self)
        ensures { TableWasRead self.now }
    {
        // What holds of each table is known where one of its parts is looked at.
        let _lines = &self.lines;
    }

    /// What the table says of a request: the first line decides whose host, a method and path match. Over a line that
    /// refuses loops a request isn't allowed whose Via names this proxy twice (RFC 9110, section 7.6.3); where it is
    /// allowed it goes past the store if it has one of the cookies that the line names (RFC 6265, section 4.2.1). A
    /// line that purges denies a request unless that shows its key, in a time that doesn't tell where it differs, and
    /// asks for nothing but to purge its target.
    #[tactic(auto, unfolding(crate::specs::Matching::verdict_of_request))]
    pub fn judge(&self, method: &Method, target: &Target, fields: &Fields) -> Verdict
        ensures verdict { result ≡ verdict_of_request self.now method.now target.now fields.now }
        ensures allowing { VerdictNamesAnOrigin self.now.lines result }
    {
        let verdict = self.judge_target(method, target);
        match verdict {
            Verdict::Allowed(route) => {
                let line = route.number;
                let name = self.name.as_bytes();
                if self.refuses_loops(line) && via_names_proxy_twice(name, fields.as_slice()) {
                    return Verdict::Looped(line);
                }
                Verdict::Allowed(RouteOverLine {
                    number: line,
                    past_store: self.request_has_session_cookie_of_line(line, fields),
                })
            }
            Verdict::DeniedBy(line) if self.purges_for(line, fields) => Verdict::Purged(line),
            _ => verdict,
        }
    }

    /// What the first line says whose host, a method and path match: what the table says of a request that was never
    /// here before and shows no key.
    pub fn judge_target(&self, method: &Method, target: &Target) -> Verdict
        ensures verdict { result ≡ verdict_of self.now.lines method.now target.now }
        ensures allowing { VerdictNamesAnOrigin self.now.lines result }
    {
        let method = method.as_str().as_bytes();
        if method_is_never_allowed(method) {
            return Verdict::NoLine;
        }
        let (host, path) = (target.key.host.as_slice(), target.table_path.as_slice());
        verdict_by_host_index(&self.lines, &self.by_host, host, method, path)
    }

    fn origin_at(&self, line: u16) -> Option<&Origin>
        ensures { option_copied result ≡ origin_of self.now.lines line }
    {
        line_at(&self.lines, line)?.origin.as_ref()
    }

    /// The address of the origin of a line, counted from 1: four numbers and a port. It is empty where the table has no
    /// such line, or the line denies.
    pub fn origin(&self, line: u16) -> &str
        ensures { result.now ≡ unwrap_or (origin_of self.now.lines line) [] }
    {
        match self.origin_at(line) {
            Some(origin) => origin.text(),
            None => "",
        }
    }

    /// The address of the origin of a line, counted from 1. There is none where the table has no such line, or the line
    /// denies.
    pub fn origin_address(&self, line: u16) -> Option<SocketAddrV4>
        ensures address { result ≡ origin_address_of self.now.lines line }
        ensures text { option_map socket_v4_text result ≡ origin_of self.now.lines line }
    {
        Some(self.origin_at(line)?.address())
    }

    /// What a line, counted from 1, says of caching. A line that the table doesn't have caches
    /// nothing; one that denies has the policy of a line without words, though its requests reach
    /// no store.
    pub fn line_policy(&self, line: u16) -> Policy
        ensures { result ≡ line_policy self.now.lines line }
    {
        match line_at(&self.lines, line) {
            Some(line) => line.policy,
            None => Policy::plain(false),
        }
    }

    /// What counts for a request that goes this way: past the store it is what a line without cache says, but that tags
    /// are hidden as over the line.
    #[tactic(auto, unfolding(crate::specs::Matching::policy_of))]
    pub fn policy(&self, route: RouteOverLine) -> Policy
        ensures { result ≡ policy_of self.now.lines route }
    {
        let policy = self.line_policy(route.number);
        if route.past_store {
            Policy {
                hides_tags: policy.hides_tags,
                ..Policy::plain(false)
            }
        } else {
            policy
        }
    }

    /// The names of the cookies whose requests go past the store over a line, counted from 1. There are none where the
    /// line doesn't say so.
    pub fn session_cookies(&self, line: u16) -> &[Bytes]
        ensures { result.now ≡ session_cookies_of self.now.lines line }
    {
        match line_at(&self.lines, line) {
            Some(line) => line.session_cookies.as_slice(),
            None => &[],
        }
    }

    /// The fields that count as if the Vary of each answer over a line, counted from 1, named them (RFC 9111, section
    /// 4.1). There are none where the line doesn't say so.
    pub fn vary(&self, line: u16) -> &[Bytes]
        ensures { result.now ≡ vary_names_of_line self.now.lines line }
    {
        match line_at(&self.lines, line) {
            Some(line) => line.vary.as_slice(),
            None => &[],
        }
    }

    /// Whether a line, counted from 1, purges.
    pub fn purges(&self, line: u16) -> bool
        ensures { result ≡ is_some (purge_key_of self.now.lines line) }
    {
        match line_at(&self.lines, line) {
            Some(line) => line.purge_key.is_some(),
            None => false,
        }
    }

    fn purge_key_at(&self, line: u16) -> Option<&Bytes>
        ensures { option_copied result ≡ purge_key_of self.now.lines line }
    {
        line_at(&self.lines, line)?.purge_key.as_ref()
    }

    fn purges_for(&self, line: u16, fields: &Fields) -> bool
        ensures { result ≡ line_purges_for_request self.now.lines line fields.now }
    {
        match self.purge_key_at(line) {
            Some(key) => asks_to_purge_with_key(key.as_slice(), fields),
            None => false,
        }
    }

    fn request_has_session_cookie_of_line(&self, line: u16, fields: &Fields) -> bool
        ensures { result ≡ request_has_session_cookie_of_line self.now.lines line fields.now }
    {
        has_cookie_among(self.session_cookies(line), fields.as_slice())
    }

    /// The seconds for which the origin of a line, counted from 1, may send no byte, 1 to 86,400, where the line says
    /// so.
    pub fn origin_timeout(&self, line: u16) -> Option<u32>
        ensures { result ≡ origin_timeout_of self.now.lines line }
    {
        line_at(&self.lines, line)?.origin_timeout
    }

    /// The seconds after which a request waits no longer for the answer to another, 1 to 86,400, over a line counted
    /// from 1, where there is such a time.
    pub fn wait_timeout(&self, line: u16) -> Option<u32>
        ensures { result ≡ wait_timeout_of self.now.lines line }
    {
        line_at(&self.lines, line)?.wait_timeout
    }

    /// Whether a line, counted from 1, refuses requests that loop.
    pub fn refuses_loops(&self, line: u16) -> bool
        ensures { result ≡ line_refuses_loops self.now.lines line }
    {
        line_refuses_loops(&self.lines, line)
    }

    /// Whether the Via of a request names this proxy, over a line that refuses loops.
    pub fn is_refused_as_loop(&self, route: RouteOverLine, fields: &Fields) -> bool
        ensures { result ≡ request_is_refused_as_loop self.now route fields.now }
    {
        self.refuses_loops(route.number) && via_names_proxy(self.name.as_bytes(), fields.as_slice())
    }

    /// The first line in front of one, both counted from 1, that takes all that this could match,
    /// so that it never decides on a request.
    pub fn first_line_that_covers_line(&self, line: u16) -> Option<u16>
        ensures { result ≡ first_line_covering_line self.now.lines line }
    {
        let later = line_at(&self.lines, line)?;
        first_line_covering_later_line(&self.lines[..usize::from(line) - 1], later)
    }

    /// The proxy's name, as it stands in Via and Cache-Status.
    pub fn name(&self) -> &str
        ensures { result.now ≡ self.now.name }
    {
        self.name.as_str()
    }

    /// The most entries of the store.
    pub fn capacity(&self) -> usize
        ensures { result ≡ self.now.capacity }
    {
        self.capacity
    }

    /// The most bytes of a message's content.
    pub fn max_body(&self) -> u64
        ensures { result ≡ self.now.max_body }
    {
        self.max_body
    }

    /// The most bytes of a stored content.
    pub fn max_stored(&self) -> u64
        ensures { result ≡ self.now.max_stored }
    {
        self.max_stored
    }

    /// The most bytes that all stored responses weigh together. Where there is none the capacity alone bounds them.
    pub fn max_store(&self) -> Option<u64>
        ensures bytes { result ≡ self.now.max_store }
        ensures bounded { IfSome result (λ most. most ≤ 1099511627776) }
    {
        self.max_store
    }

    /// How many lines the table has.
    pub fn lines(&self) -> usize
        ensures { result ≡ length self.now.lines }
    {
        self.lines.len()
    }
}
