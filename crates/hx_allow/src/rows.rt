//! The keys of the operator's table: a row for each, and the order in which their faults are looked
//! for. `specs/Rows.antt` has the same rows.
ghost use Rattle.std.specs.Prelude.{◌≡◌};
ghost use Rattle.hx_allow.specs.Rows.{number_key_row, word_row, row_of_line_key, fault_of_line_key, has_keys_of};
ghost use Rattle.hx_allow.specs.Rows.{version_number};
ghost use Rattle.hx_allow.specs.Rows.{row_of_required_key};
ghost use Rattle.hx_allow.specs.Rows.{row_for_caching_lines, least_number, greatest_number, definition_of_source_row};
ghost use Rattle.hx_allow.specs.Rows.{value_kind_of_source_kind};
ghost use Rattle.hx_allow.specs.Rows.{row_of_top_key, fault_of_top_key};

use crate::config_faults::{LineOption, NumberKey, TableFault};
use crate::limits::MOST_STORE_BYTES;
use crate::values::TableVersion;
use crate::values::TableVersion::{Four, One, Three, Two};
use ValueKind::{Names, Number, OneOf, OneOfInFour, OneOfThree, Seconds, StoreBound};

/// The most seconds that a lifetime has (RFC 9111, section 1.2.2).
const MOST_SECONDS: u32 = 2_147_483_648;

/// The most seconds that an origin may be given to send a byte, and that a request waits for the answer to another.
const MOST_TIMEOUT_SECONDS: u32 = 86_400;

/// What the value of a key has to be.
#[derive(Clone, Copy)]
pub(crate) enum ValueKind {
    /// A whole number from the first to the second.
    Number(u32, u32),
    /// The same, of seconds.
    Seconds(u32, u32),
    /// A whole number from the first to the second, and no less than `max_stored`.
    StoreBound(u64, u64),
    /// The number of a version.
    Version,
    /// One of two texts. Where the key doesn't stand it is as with the first.
    OneOf(&'static str, &'static str),
    /// The same, or from the fourth version on the third text.
    OneOfInFour(&'static str, &'static str, &'static str),
    /// One of three texts. Where the key doesn't stand it is as with the first.
    OneOfThree(&'static str, &'static str, &'static str),
    /// A list of 1 to so many tokens, of which none is `*`.
    Names(u8),
    Name,
    Lines,
    Host,
    Methods,
    Path,
    Origin,
    /// 16 to 64 letters and digits.
    PurgeKey,
}

/// Where a key may stand.
#[derive(Clone, Copy)]
pub(crate) enum KeyPlace {
    /// It has to stand in each table, or in each line.
    Needed,
    /// Where it stands it counts, and it needn't.
    Optional,
    /// In a line that has an origin.
    AllowingLine,
    /// In a line that has an origin and its cache on.
    CachingLine,
    /// In each line that purges, where it has to stand, and in no other.
    PurgingLine,
}

/// A key, the version since which it is known, what its value has to be, and where it may stand.
#[derive(Clone, Copy)]
pub(crate) struct KeyDefinition {
    pub key: &'static str,
    pub since: TableVersion,
    pub kind: ValueKind,
    pub place: KeyPlace,
}

/// A key at the top.
#[derive(Clone, Copy)]
pub(crate) enum TopKey {
    Name,
    Number(NumberKey),
    Lines,
}

/// A key of a line.
#[derive(Clone, Copy)]
pub(crate) enum LineKey {
    Host,
    Methods,
    Path,
    Origin,
    Cache,
    Word(LineOption),
}

/// The keys at the top, in the order in which they are looked at.
pub(crate) const TOP_KEYS: [TopKey; 7] = [
    TopKey::Name,
    TopKey::Number(NumberKey::Version),
    TopKey::Number(NumberKey::Capacity),
    TopKey::Number(NumberKey::MaxBody),
    TopKey::Number(NumberKey::MaxStored),
    TopKey::Number(NumberKey::MaxStore),
    TopKey::Lines,
];

/// The keys of a line, in the order in which they are looked at.
pub(crate) const LINE_KEYS: [LineKey; 24] = [
    LineKey::Host,
    LineKey::Methods,
    LineKey::Path,
    LineKey::Origin,
    LineKey::Cache,
    LineKey::Word(LineOption::Lifetime),
    LineKey::Word(LineOption::ErrorLifetime),
    LineKey::Word(LineOption::LifetimeMost),
    LineKey::Word(LineOption::StaleIfError),
    LineKey::Word(LineOption::SetCookie),
    LineKey::Word(LineOption::Cookies),
    LineKey::Word(LineOption::SessionCookies),
    LineKey::Word(LineOption::Errors),
    LineKey::Word(LineOption::RequestDirectives),
    LineKey::Word(LineOption::Wait),
    LineKey::Word(LineOption::Explain),
    LineKey::Word(LineOption::Conditions),
    LineKey::Word(LineOption::Loops),
    LineKey::Word(LineOption::StaleWhileRevalidate),
    LineKey::Word(LineOption::Vary),
    LineKey::Word(LineOption::OriginTimeout),
    LineKey::Word(LineOption::PurgeKey),
    LineKey::Word(LineOption::Ranges),
    LineKey::Word(LineOption::WaitTimeout),
];

/// What is told of a key that isn't known, with the keys that a version adds.
pub(crate) const UNKNOWN_KEY_REQUIREMENT_TEXT: &str =
    "a key isn't known where it stands; correct its spelling or delete it: behind [[line]] keys belong to that line; cache needs version = 2, 3 or 4, lifetime, stale-if-error, set-cookie, errors, request-directives, wait and explain need version = 3 or 4, and max_store, error-lifetime, lifetime-most, cookies, session-cookies, conditions, loops, stale-while-revalidate, vary, origin-timeout, key, ranges and wait-timeout need version = 4";

impl NumberKey {
    pub(crate) fn row(self) -> KeyDefinition
        ensures { definition_of_source_row result ≡ number_key_row self }
    {
        match self {
            NumberKey::Version => KeyDefinition::needed("version", ValueKind::Version),
            NumberKey::Capacity => KeyDefinition::needed("capacity", Number(1, 65_536)),
            NumberKey::MaxBody => KeyDefinition::needed("max_body", Number(0, 16_777_216)),
            NumberKey::MaxStored => KeyDefinition::needed("max_stored", Number(0, 16_777_216)),
            NumberKey::MaxStore => KeyDefinition {
                key: "max_store",
                since: Four,
                kind: StoreBound(65_536, MOST_STORE_BYTES),
                place: KeyPlace::Optional,
            },
        }
    }
}

impl TopKey {
    pub(crate) fn row(self) -> KeyDefinition
        ensures { definition_of_source_row result ≡ row_of_top_key self }
    {
        match self {
            TopKey::Name => KeyDefinition::needed("name", ValueKind::Name),
            TopKey::Number(key) => key.row(),
            TopKey::Lines => KeyDefinition::needed("line", ValueKind::Lines),
        }
    }

    /// The fault of the key.
    pub(crate) fn fault(self) -> TableFault
        ensures fault { result ≡ fault_of_top_key self }
        ensures found_fault { ¬ (result ≡ TableFault.OutOfMemory) }
    {
        match self {
            TopKey::Name => TableFault::BadName,
            TopKey::Number(key) => TableFault::BadNumber(key),
            TopKey::Lines => TableFault::NoLines,
        }
    }
}

impl LineOption {
    pub(crate) fn row(self) -> KeyDefinition
        ensures { definition_of_source_row result ≡ word_row self }
    {
        match self {
            LineOption::Lifetime => KeyDefinition::of_caching(
                "lifetime",
                Three,
                Seconds(1, MOST_SECONDS),
            ),
            LineOption::ErrorLifetime => KeyDefinition::of_caching(
                "error-lifetime",
                Four,
                Seconds(1, MOST_SECONDS),
            ),
            LineOption::LifetimeMost => KeyDefinition::of_caching(
                "lifetime-most",
                Four,
                Seconds(1, MOST_SECONDS),
            ),
            LineOption::StaleIfError => KeyDefinition::of_caching(
                "stale-if-error",
                Three,
                Seconds(0, MOST_SECONDS),
            ),
            LineOption::SetCookie => KeyDefinition::of_caching(
                "set-cookie",
                Three,
                OneOfInFour("stored", "not-stored", "removed"),
            ),
            LineOption::Cookies => KeyDefinition::of_caching(
                "cookies",
                Four,
                OneOf("private", "shared"),
            ),
            LineOption::SessionCookies => KeyDefinition::of_caching(
                "session-cookies",
                Four,
                Names(16),
            ),
            LineOption::Errors => KeyDefinition::of_caching(
                "errors",
                Three,
                OneOf("stored", "not-stored"),
            ),
            LineOption::RequestDirectives => KeyDefinition::of_caching(
                "request-directives",
                Three,
                OneOf("heeded", "ignored"),
            ),
            LineOption::Wait => KeyDefinition::of_caching(
                "wait",
                Three,
                OneOf("missing", "missing-or-stale"),
            ),
            LineOption::Explain => KeyDefinition::of_caching(
                "explain",
                Three,
                OneOf("reuse", "storing"),
            ),
            LineOption::Conditions => KeyDefinition::of_caching(
                "conditions",
                Four,
                OneOf("answered", "forwarded"),
            ),
            LineOption::Loops => KeyDefinition {
                key: "loops",
                since: Four,
                kind: OneOf("refused", "forwarded"),
                place: KeyPlace::AllowingLine,
            },
            LineOption::StaleWhileRevalidate => KeyDefinition::of_caching(
                "stale-while-revalidate",
                Four,
                Seconds(0, MOST_SECONDS),
            ),
            LineOption::Vary => KeyDefinition::of_caching("vary", Four, Names(8)),
            LineOption::OriginTimeout => KeyDefinition {
                key: "origin-timeout",
                since: Four,
                kind: Seconds(1, MOST_TIMEOUT_SECONDS),
                place: KeyPlace::AllowingLine,
            },
            LineOption::PurgeKey => KeyDefinition {
                key: "key",
                since: Four,
                kind: ValueKind::PurgeKey,
                place: KeyPlace::PurgingLine,
            },
            LineOption::Ranges => KeyDefinition::of_caching(
                "ranges",
                Four,
                OneOfThree("served", "forwarded", "filled"),
            ),
            LineOption::WaitTimeout => KeyDefinition::of_caching(
                "wait-timeout",
                Four,
                Seconds(1, MOST_TIMEOUT_SECONDS),
            ),
        }
    }
}

impl LineKey {
    pub(crate) fn row(self) -> KeyDefinition
        ensures { definition_of_source_row result ≡ row_of_line_key self }
    {
        match self {
            LineKey::Host => KeyDefinition::needed("host", ValueKind::Host),
            LineKey::Methods => KeyDefinition::needed("methods", ValueKind::Methods),
            LineKey::Path => KeyDefinition::needed("path", ValueKind::Path),
            LineKey::Origin => KeyDefinition::needed("origin", ValueKind::Origin),
            LineKey::Cache => KeyDefinition {
                key: "cache",
                since: Two,
                kind: OneOf("on", "off"),
                place: KeyPlace::AllowingLine,
            },
            LineKey::Word(word) => word.row(),
        }
    }

    /// The fault of the key in the line with this number.
    pub(crate) fn fault(self, number: u16) -> TableFault
        ensures fault { result ≡ fault_of_line_key number self }
        ensures found_fault { ¬ (result ≡ TableFault.OutOfMemory) }
    {
        match self {
            LineKey::Host => TableFault::BadHost(number),
            LineKey::Methods => TableFault::BadMethod(number),
            LineKey::Path => TableFault::BadPath(number),
            LineKey::Origin => TableFault::BadOrigin(number),
            LineKey::Cache => TableFault::BadCache(number),
            LineKey::Word(word) => TableFault::BadWord(number, word),
        }
    }
}

impl KeyDefinition {
    /// A key that each version has, and that has to stand.
    fn needed(key: &'static str, kind: ValueKind) -> KeyDefinition
        ensures { definition_of_source_row result ≡ row_of_required_key key.now (value_kind_of_source_kind kind) }
    {
        KeyDefinition {
            key,
            since: One,
            kind,
            place: KeyPlace::Needed,
        }
    }

    /// A key of a line that has an origin and its cache on.
    fn of_caching(key: &'static str, since: TableVersion, kind: ValueKind) -> KeyDefinition
        ensures { definition_of_source_row result
            ≡ row_for_caching_lines key.now since (value_kind_of_source_kind kind) }
    {
        KeyDefinition {
            key,
            since,
            kind,
            place: KeyPlace::CachingLine,
        }
    }

    /// Whether tables of a version have the key.
    pub(crate) fn is_known_in(&self, version: TableVersion) -> bool
        ensures { result ≡ has_keys_of version self.now.since }
    {
        version.has_keys_of(self.since)
    }
}

impl TableVersion {
    /// Whether it has what came with another one.
    pub(crate) fn has_keys_of(self, since: TableVersion) -> bool
        ensures { result ≡ has_keys_of self since }
    {
        since.number() <= self.number()
    }

    fn number(self) -> u8
        ensures { result ≡ version_number self }
    {
        match self {
            TableVersion::One => 1,
            TableVersion::Two => 2,
            TableVersion::Three => 3,
            TableVersion::Four => 4,
        }
    }
}

impl ValueKind {
    /// The least and the greatest number of a kind.
    pub(crate) fn bounds(self) -> (u64, u64)
        ensures least { result.0 ≡ least_number (value_kind_of_source_kind self) }
        ensures greatest { result.1 ≡ greatest_number (value_kind_of_source_kind self) }
    {
        match self {
            ValueKind::Number(low, high) => (u64::from(low), u64::from(high)),
            ValueKind::Seconds(low, high) => (u64::from(low), u64::from(high)),
            ValueKind::StoreBound(low, high) => (low, high),
            ValueKind::Version => (1, 4),
            _ => (0, 0),
        }
    }
}
