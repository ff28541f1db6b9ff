//! Which requests purge, and which targets. No function here takes memory.
ghost use Rattle.std.specs.Prelude.{◌≡◌, ◌==◌, ◌≤◌, bytes_eq, length, take};
ghost use Rattle.std.specs.List.{list_any, list_all};
ghost use Rattle.hx_allow.specs.Purges.{is_letter_or_digit, is_purge_key, request_shows_purge_key};
ghost use Rattle.hx_allow.specs.Purges.{begins_with_purge_dash};
ghost use Rattle.hx_allow.specs.Purges.{is_unknown_purge_header_field, has_invalid_purge_field, asks_to_purge_with_key};
ghost use Rattle.hx_allow.specs.Purges.{purge_scope_of_field_value, default_purge_scope, purge_scope_of_fields};
ghost use Rattle.hx_allow.specs.Purges.{purge_scope_of_request};
ghost use Rattle.hx_allow.specs.Purges.{path_before_query, ends_with_slash, text_begins_with, has_slash_behind_path};
ghost use Rattle.hx_allow.specs.Purges.{is_at_or_below, is_in_purge_scope};

use crate::purge_modes::purge_mode_of_request;
use crate::tags::asks_for_one_purge_tag_or_none;
use hx_fields::{Field, Fields, is_same_name, split_at_first_byte};
use hx_target::Key;

/// Which targets a request purges.
#[derive(Clone, Copy, Debug, PartialEq, Eq, Hash)]
pub enum PurgeScope {
    /// Its own.
    Target,
    /// Those of its host and port at and below its path.
    Prefix,
    /// Those of its host, on each port.
    Host,
    /// All that the store holds.
    All,
}

fn is_letter_or_digit(b: u8) -> bool
    ensures { result ≡ is_letter_or_digit b }
{
    b.is_ascii_lowercase() || b.is_ascii_uppercase() || b.is_ascii_digit()
}

fn are_letters_and_digits(text: &[u8]) -> bool
    ensures { result ≡ list_all is_letter_or_digit text.now }
{
    text.iter().all(|b| is_letter_or_digit(*b))
}

/// Whether a text may be the key of a line that purges.
pub(crate) fn is_purge_key(text: &[u8]) -> bool
    ensures { result ≡ is_purge_key text.now }
{
    16 <= text.len() && text.len() <= 64 && are_letters_and_digits(text)
}

/// Whether a request gives the key. Each byte of the one is compared with that of the other, also behind one that
/// differs: the time tells the length of the key and nothing of its letters.
fn is_same_secret(key: &[u8], given: &[u8]) -> bool
    ensures { result ≡ bytes_eq key.now given.now }
{
    if key.len() != given.len() {
        return false;
    }
    let mut differing = 0;
    for i in 0..key.len() {
        differing |= key[i] ^ given[i];
    }
    differing == 0
}

/// Whether one of the lines shows the key.
fn request_shows_purge_key(key: &[u8], fields: &[Field]) -> bool
    ensures { result ≡ request_shows_purge_key key.now fields.now }
{
    for line in fields {
        if is_same_name(line.name(), b"Purge-Key") && is_same_secret(key, line.value()) {
            return true;
        }
    }
    false
}

fn purge_scope_of_field_value(word: &[u8]) -> Option<PurgeScope>
    ensures { result ≡ purge_scope_of_field_value word.now }
{
    if word == b"prefix".as_slice() {
        Some(PurgeScope::Prefix)
    } else if word == b"host".as_slice() {
        Some(PurgeScope::Host)
    } else if word == b"all".as_slice() {
        Some(PurgeScope::All)
    } else {
        None
    }
}

/// Those that it purges without a word.
fn default_purge_scope(fields: &Fields) -> PurgeScope
    ensures { result ≡ default_purge_scope fields.now }
{
    if fields.has(b"Purge-Tag") {
        PurgeScope::All
    } else {
        PurgeScope::Target
    }
}

/// The targets that a request purges, unless two lines name them or another word.
fn purge_scope_of_fields(fields: &Fields) -> Option<PurgeScope>
    ensures { result ≡ purge_scope_of_fields fields.now }
{
    match fields.value(b"Purge-Scope") {
        None => Some(default_purge_scope(fields)),
        Some(_) => match fields.only_value(b"Purge-Scope") {
            None => None,
            Some(word) => purge_scope_of_field_value(word),
        },
    }
}

/// The targets that a request purges; its own, where none are named, or all where it asks for a tag.
pub fn purge_scope_of_request(fields: &Fields) -> PurgeScope
    ensures { result ≡ purge_scope_of_request fields.now }
{
    match purge_scope_of_fields(fields) {
        None => PurgeScope::Target,
        Some(scope) => scope,
    }
}

fn begins_with_purge_dash(name: &[u8]) -> bool
    ensures { result ≡ begins_with_purge_dash name.now }
{
    6 <= name.len() && is_same_name(&name[..6], b"Purge-")
}

fn is_unknown_purge_header_field(field: &Field) -> bool
    ensures { result ≡ is_unknown_purge_header_field field.now }
{
    let name = field.name();
    begins_with_purge_dash(name)
        && !(is_same_name(name, b"Purge-Key")
            || is_same_name(name, b"Purge-Scope")
            || is_same_name(name, b"Purge-Tag")
            || is_same_name(name, b"Purge-Mode"))
}

fn has_unknown_purge_field(fields: &[Field]) -> bool
    ensures { result ≡ list_any is_unknown_purge_header_field fields.now }
{
    fields
        .iter()
        .any(|field| is_unknown_purge_header_field(field))
}

/// Whether a request asks for what isn't known here.
fn has_invalid_purge_field(fields: &Fields) -> bool
    ensures { result ≡ has_invalid_purge_field fields.now }
{
    has_unknown_purge_field(fields.as_slice())
        || purge_scope_of_fields(fields).is_none()
        || !asks_for_one_purge_tag_or_none(fields)
        || purge_mode_of_request(fields).is_none()
}

/// Whether a request with these lines purges over a line with this key.
pub(crate) fn asks_to_purge_with_key(key: &[u8], fields: &Fields) -> bool
    ensures { result ≡ asks_to_purge_with_key key.now fields.now }
{
    request_shows_purge_key(key, fields.as_slice()) && !has_invalid_purge_field(fields)
}

/// The path before the query.
fn path_before_query(path_query: &[u8]) -> &[u8]
    ensures { result.now ≡ path_before_query path_query.now }
{
    match split_at_first_byte(b'?', path_query) {
        None => path_query,
        Some((path, _)) => path,
    }
}

fn ends_with_slash(path: &[u8]) -> bool
    ensures { result ≡ ends_with_slash path.now }
{
    0 < path.len() && path[path.len() - 1] == b'/'
}

fn text_begins_with(beginning: &[u8], text: &[u8]) -> bool
    ensures { result ≡ text_begins_with beginning.now text.now }
{
    beginning.len() <= text.len() && &text[..beginning.len()] == beginning
}

/// Whether a path continues another with a slash. It is longer.
fn has_slash_behind_path(path: &[u8], other: &[u8]) -> bool
    ensures { result ≡ has_slash_behind_path path.now other.now }
{
    path.len() < other.len() && other[path.len()] == b'/'
}

/// Whether a path is another one, or below it.
fn is_at_or_below(path: &[u8], other: &[u8]) -> bool
    ensures { result ≡ is_at_or_below path.now other.now }
{
    path == other
        || text_begins_with(path, other)
            && (ends_with_slash(path) || has_slash_behind_path(path, other))
}

impl PurgeScope {
    /// Whether what is held for a key is within this scope of a purge that is asked for `asked`.
    pub fn has(self, asked: &Key, key: &Key) -> bool
        ensures { result ≡ is_in_purge_scope self asked.now key.now }
    {
        match self {
            PurgeScope::Target => key.is_same(asked),
            PurgeScope::Prefix => is_within_prefix(asked, key),
            PurgeScope::Host => key.host.as_slice() == asked.host.as_slice(),
            PurgeScope::All => true,
        }
    }
}

fn is_within_prefix(asked: &Key, key: &Key) -> bool
    ensures { result ≡ is_in_purge_scope PurgeScope.Prefix asked.now key.now }
{
    key.host.as_slice() == asked.host.as_slice()
        && key.port == asked.port
        && is_at_or_below(
            path_before_query(asked.path_query.as_slice()),
            path_before_query(key.path_query.as_slice()),
        )
}
