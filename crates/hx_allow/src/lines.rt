//! A line of the table, and which requests it matches.
ghost use Rattle.std.specs.Prelude.{◌≡◌};
ghost use Rattle.std.specs.List.{list_any};
ghost use Rattle.hx_allow.specs.Matching.{method_is_never_allowed, is_star_or_same, any_path_matches};
ghost use Rattle.hx_allow.specs.Index.{line_matches_method_and_path};

use crate::line_hosts::LineHost;
use crate::line_paths::LinePath;
use crate::origins::Origin;
use hx_fields::Bytes;
use hx_policy::Policy;
use std::marker::Model;

/// A line of the table.
#[derive(Drop)]
pub struct Line {
    /// The hosts that it matches.
    pub hosts: Vec<LineHost>,
    /// The methods that it matches, `*` among them where it matches nearly all.
    pub methods: Vec<Bytes>,
    /// The paths that it matches, each with all that is below it.
    pub paths: Vec<LinePath>,
    /// Where the line's requests go, or none where the line denies or purges.
    pub origin: Option<Origin>,
    /// What it says of caching.
    pub policy: Policy,
    /// Whether it refuses requests that loop.
    pub refuses_loops: bool,
    /// The names of the cookies whose requests go past the store.
    pub session_cookies: Vec<Bytes>,
    /// The fields that count as if the Vary of each answer named them.
    pub vary: Vec<Bytes>,
    /// The seconds for which its origin may send no byte, where it says so.
    pub origin_timeout: Option<u32>,
    /// What a request has to show, where the line purges.
    pub purge_key: Option<Bytes>,
    /// The seconds after which a request waits no longer for the answer to another, where there is such a time.
    pub wait_timeout: Option<u32>,
}

impl Model for Line {
    ghost use Rattle.hx_allow.specs.TableLines.{Line as PlainLine};

    ghost Value = { PlainLine };

    ghost view = { λ l. record {
      hosts = l.hosts.items;
      methods = l.methods.items;
      paths = l.paths.items;
      origin = l.origin;
      policy = l.policy;
      refuses_loops = l.refuses_loops;
      session_cookies = l.session_cookies.items;
      vary = l.vary.items;
      origin_timeout = l.origin_timeout;
      purge_key = l.purge_key;
      wait_timeout = l.wait_timeout;
    } };
}

/// Whether no line matches the method, `*` included.
pub fn method_is_never_allowed(method: &[u8]) -> bool
    ensures { result ≡ method_is_never_allowed method.now }
{
    method == b"CONNECT".as_slice()
        || method == b"TRACE".as_slice()
        || method == b"OPTIONS".as_slice()
}

fn is_star_or_same(text: &[u8], method: &[u8]) -> bool
    ensures { result ≡ is_star_or_same method.now text.now }
{
    text == b"*".as_slice() || text == method
}

pub(crate) fn has_star_or_method(methods: &[Bytes], method: &[u8]) -> bool
    ensures { result ≡ list_any (is_star_or_same method.now) methods.now }
{
    methods
        .iter()
        .any(|text| is_star_or_same(text.as_slice(), method))
}

fn any_path_matches(paths: &[LinePath], asked: &[u8]) -> bool
    ensures { result ≡ any_path_matches paths.now asked.now }
{
    paths.iter().any(|path| path.matches(asked))
}

impl Line {
    /// Whether one of the line's paths and a method match, of a method that a line may allow.
    pub fn matches(&self, method: &[u8], path: &[u8]) -> bool
        ensures { result ≡ line_matches_method_and_path self.now method.now path.now }
    {
        any_path_matches(&self.paths, path) && has_star_or_method(self.methods.as_slice(), method)
    }
}
