//! The operator's tables of the trials, which requests the second sends past the store, and which lines of the third
//! have which words.

use crate::text::table_text;
use std::alloc::{AllocError, Global};

/// The table of a trial.
#[derive(Clone, Copy, PartialEq, Eq)]
pub enum RandomTable {
    /// Each line has a cache.
    WithCache,
    /// Some have none.
    PartlyWithout,
    /// Some have words on caching.
    WithWords,
}

impl RandomTable {
    /// Its text. Few entries, so that some are evicted, and contents of 1,000 bytes at most.
    pub fn text(self, alloc: Global) -> Result<String, AllocError> {
        match self {
            RandomTable::WithCache => table_text(alloc, 1, 4, 500, &WITH_CACHE),
            RandomTable::PartlyWithout => table_text(alloc, 2, 4, 500, &PARTLY_WITHOUT),
            RandomTable::WithWords => table_text(alloc, 3, 4, 500, &WITH_WORDS),
        }
    }
}

/// The lines of the first trial.
static WITH_CACHE: [[&str; 5]; 3] = [
    ["*", "*", "/denied", "deny", ""],
    ["i", "*", "/", "127.0.0.1:8082", ""],
    ["*", "*", "/", "127.0.0.1:8081", ""],
];

/// The lines of the second trial: the same with lines without cache, which have an origin of their own. One stands
/// beside a line for GET, so that requests over it ask for what is stored; another has all requests for its path.
static PARTLY_WITHOUT: [[&str; 5]; 5] = [
    ["*", "*", "/denied", "deny", ""],
    [
        "*",
        "HEAD, POST",
        "/a",
        "127.0.0.1:8083",
        "cache = \"off\"\n",
    ],
    ["i", "*", "/b", "127.0.0.1:8083", "cache = \"off\"\n"],
    ["i", "*", "/", "127.0.0.1:8082", "cache = \"on\"\n"],
    ["*", "*", "/", "127.0.0.1:8081", ""],
];

/// The lines of the third trial: that of one host gives a lifetime and a staleness and ignores what requests want,
/// those of the others store no cookies and no errors and tell why an answer isn't stored. That host's line and the one
/// of /a let requests wait for what is stale.
static WITH_WORDS: [[&str; 5]; 4] = [
    ["*", "*", "/denied", "deny", ""],
    ["i", "*", "/", "127.0.0.1:8082", WORDS_OF_I],
    ["*", "*", "/a", "127.0.0.1:8081", WORDS_OF_A],
    ["*", "*", "/", "127.0.0.1:8081", WORDS_OF_OTHERS],
];

const WORDS_OF_I: &str = "lifetime = 30
stale-if-error = 100
request-directives = \"ignored\"
wait = \"missing-or-stale\"
";

const WORDS_OF_A: &str = "set-cookie = \"not-stored\"
errors = \"not-stored\"
wait = \"missing-or-stale\"
explain = \"storing\"
";

const WORDS_OF_OTHERS: &str = "set-cookie = \"not-stored\"
errors = \"not-stored\"
explain = \"storing\"
";

/// Whether the second table sends a request past the store: a HEAD or POST for /a, and what `*` allows for /b of the
/// host i.
pub fn is_past_the_store(method: &str, host: &str, path: &str) -> bool {
    match path {
        "/a" => method == "HEAD" || method == "POST",
        "/b" => host == "i" && method != "TRACE",
        _ => false,
    }
}

/// Whether the third table lets a GET wait for what is stale: one for the host i, or for /a.
pub fn lets_wait_for_stale(host: &str, path: &str) -> bool {
    host == "i" || path == "/a"
}

/// Whether the third table lets the no-cache of a request for this host count.
pub fn heeds_no_cache(host: &str) -> bool {
    host != "i"
}

/// Whether a line has this address, one of those without cache or one of the others.
pub fn is_address(address: &[u8], is_past: bool) -> bool {
    if is_past {
        return address == b"127.0.0.1:8083".as_slice();
    }
    address == b"127.0.0.1:8081".as_slice() || address == b"127.0.0.1:8082".as_slice()
}
