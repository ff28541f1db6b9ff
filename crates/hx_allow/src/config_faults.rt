//! Why an operator's table is refused.
ghost use Rattle.std.specs.Prelude.{◌≡◌};
ghost use Rattle.hx_allow.specs.declared.config_faults.TableFault.TheVariants.{OutOfMemory};
ghost use Rattle.hx_allow.specs.Keys.{table_fault_number, key_text, key_of_line_option};

use hx_fields::Bytes;
use std::alloc::AllocError;

/// A key of the table that has a number.
#[derive(Clone, Copy, Debug, PartialEq, Eq, Hash)]
pub enum NumberKey {
    /// The version of the table's format, 1, 2, 3 or 4.
    Version,
    /// The most entries of the store, 1 to 65,536.
    Capacity,
    /// The most bytes of a message's content, at most 16,777,216.
    MaxBody,
    /// The most bytes of a stored content, at most 16,777,216.
    MaxStored,
    /// The most bytes that all stored responses weigh together, 65,536 to 1,099,511,627,776 and no less than
    /// `max_stored`. It may be missing.
    MaxStore,
}

impl NumberKey {
    /// The key as it stands in the table.
    pub fn as_str(self) -> &'static str
        ensures { result.now ≡ key_text self }
    {
        self.row().key
    }
}

/// A key of a line of version 3 or 4 that says more of caching, of loops, of time-outs, or of purges, in the table's
/// order.
#[derive(Clone, Copy, Debug, PartialEq, Eq, Hash)]
pub enum LineOption {
    /// The lifetime of what states none, 1 to 2,147,483,648 seconds (RFC 9111, section 4.2.2). In
    /// version 4 an error has none by it.
    Lifetime,
    /// The lifetime of an error that states none, 1 to 2,147,483,648 seconds. It needs version 4.
    ErrorLifetime,
    /// The most seconds that a stated lifetime counts for, 1 to 2,147,483,648. It needs version 4.
    LifetimeMost,
    /// The staleness in which a stored response is sent in place of an error, 0 to 2,147,483,648
    /// seconds (RFC 5861, section 4).
    StaleIfError,
    /// Whether a response with Set-Cookie is stored (RFC 9111, section 7.3).
    SetCookie,
    /// Whether the line gives its lifetimes to the response to a request with Cookie or Authorization, too. It needs
    /// version 4.
    Cookies,
    /// The cookies whose requests go past the store, 1 to 16 names (RFC 6265, section 4.2.1). It needs version 4.
    SessionCookies,
    /// Whether a response with a status of an error is stored.
    Errors,
    /// Whether a request's no-cache, max-age and min-fresh count (RFC 9111, section 5.2.1).
    RequestDirectives,
    /// Whether GETs for an expired response wait for the answer to the first of them (RFC 9111, section 4).
    Wait,
    /// Whether an answer that isn't stored tells why (RFC 9211, section 2.8).
    Explain,
    /// Whether the proxy judges the If-None-Match and If-Modified-Since of a GET, or the origin (RFC 9111, section
    /// 4.3.2). It needs version 4.
    Conditions,
    /// Whether a request whose Via names this proxy twice is refused (RFC 9110, section 7.6.3). It needs version 4.
    Loops,
    /// The staleness in which a stored response is sent while a GET is at the origin for it, 0 to 2,147,483,648 seconds
    /// (RFC 5861, section 3), where `wait` is `"missing-or-stale"`. It needs version 4.
    StaleWhileRevalidate,
    /// The fields that count as if the Vary of each answer named them, 1 to 8 names (RFC 9111, section 4.1). It needs
    /// version 4.
    Vary,
    /// For how long the origin may send no byte, 1 to 86,400 seconds. It needs version 4.
    OriginTimeout,
    /// What a request has to show over a line that purges, 16 to 64 letters and digits. It needs version 4.
    PurgeKey,
    /// Whether a range is cut from a stored response, goes to the origin, or is also cut from a response that is asked
    /// for whole (RFC 9110, section 14.2). It needs version 4.
    Ranges,
    /// For how long a request waits for the answer to another, 1 to 86,400 seconds. It needs version 4.
    WaitTimeout,
}

impl LineOption {
    /// The key as it stands in the table.
    pub fn as_str(self) -> &'static str
        ensures { result.now ≡ key_of_line_option self }
    {
        self.row().key
    }
}

/// Why a table is refused, in the order of the faults' numbers. A key that is missing or has a value of
/// another type has the fault of that key.
#[derive(Drop)]
pub enum TableFault {
    /// The text isn't TOML, or has more than 1,048,576 bytes.
    NotToml,
    /// A key that isn't known, at the top or in a line: of several the least by its bytes.
    UnknownKey(Bytes),
    /// `name` is no lower-case letter followed by at most 31 lower-case letters, digits and `-`.
    BadName,
    /// The number of this key isn't in its range; of `max_store`, or is less than `max_stored`.
    BadNumber(NumberKey),
    /// `host` of this line, counted from 1, is neither `"*"` nor a host in lower case, nor in version 4 `"*."` and a
    /// name or a list of 1 to 32 of these.
    BadHost(u16),
    /// `methods` of this line isn't an array of 1 to 32 texts that are `"*"` or a token of at most 15
    /// bytes other than CONNECT, TRACE and OPTIONS.
    BadMethod(u16),
    /// `path` of this line is no path, nor in version 4 a list of 1 to 32 of them.
    BadPath(u16),
    /// `origin` of this line is neither `"deny"` nor four numbers and a port, nor in version 4 `"purge"`.
    BadOrigin(u16),
    /// `line` is no array of 1 to 256 tables, or in version 4 of 1 to 4,096.
    NoLines,
    /// Memory ran out.
    OutOfMemory,
    /// `cache` of this line is neither `"on"` nor `"off"`, or stands in a line that denies or purges.
    BadCache(u16),
    /// This key of this line has a value that it can't have, or stands in a line that doesn't take it; or a line that
    /// purges has no key.
    BadWord(u16, LineOption),
    /// A method of this line of a table of version 4 has a letter in lower case.
    MethodInLowerCase(u16),
    /// A path of this line of a table of version 4 has a `*`.
    StarInPath(u16),
}

impl TableFault {
    /// The fault's number, 1 to 14.
    pub fn number(&self) -> u8
        ensures { result ≡ table_fault_number self.now }
    {
        match self {
            TableFault::NotToml => 1,
            TableFault::UnknownKey(_) => 2,
            TableFault::BadName => 3,
            TableFault::BadNumber(_) => 4,
            TableFault::BadHost(_) => 5,
            TableFault::BadMethod(_) => 6,
            TableFault::BadPath(_) => 7,
            TableFault::BadOrigin(_) => 8,
            TableFault::NoLines => 9,
            TableFault::OutOfMemory => 10,
            TableFault::BadCache(_) => 11,
            TableFault::BadWord(_, _) => 12,
            TableFault::MethodInLowerCase(_) => 13,
            TableFault::StarInPath(_) => 14,
        }
    }
}

impl From<AllocError> for TableFault {
    ghost from_gives = { λ _ e. e ≡ OutOfMemory };

    fn from(_e: AllocError) -> TableFault {
        TableFault::OutOfMemory
    }
}

/// A fault of a table as it is found, before anything is copied.
pub(crate) enum BorrowedTableFault<'a> {
    /// This key isn't known.
    UnknownKey(&'a str),
    /// A fault that takes no memory to tell.
    Other(TableFault),
}
