//! What a line says of caching, and which lines may say it.
ghost use Rattle.std.specs.Prelude.{◌≡◌};
ghost use Rattle.toml.specs.View.{table_view};
ghost use Rattle.hx_allow.specs.LineWords.{key_has_one_of_two_texts, text_of_key_equals, line_has_no_origin};
ghost use Rattle.hx_allow.specs.LineWords.{line_caches};
ghost use Rattle.hx_allow.specs.LineWords.{row_key_has_second_text, row_key_has_third_text_in_four};
ghost use Rattle.hx_allow.specs.LineWords.{option_that_gives_error_lifetime};
ghost use Rattle.hx_allow.specs.LineWords.{removes_set_cookie, gives_lifetimes_to_set_cookie};
ghost use Rattle.hx_allow.specs.LineWords.{gives_lifetimes_to_cookie_requests, forwards_conditions_of_line};
ghost use Rattle.hx_allow.specs.LineWords.{forwards_ranges_of_line, fills_ranges, row_key_has_last_text};
ghost use Rattle.hx_allow.specs.LineWords.{refuses_loops, sends_while_revalidating, policy_of_line_table};
ghost use Rattle.hx_allow.specs.LineWords.{origin_timeout_seconds, collapsed_wait_timeout_seconds, line_purges};
ghost use Rattle.hx_allow.specs.Rows.{definition_of_source_row, word_row};
ghost use Rattle.hx_allow.specs.Values.{number_in};
ghost use Rattle.hx_allow.specs.declared.config_faults.LineOption.TheVariants.{Lifetime, LifetimeMost, StaleIfError};
ghost use Rattle.hx_allow.specs.declared.config_faults.LineOption.TheVariants.{StaleWhileRevalidate};

use crate::config_faults::LineOption;
use crate::rows::{KeyDefinition, LineKey, ValueKind};
use crate::values::TableVersion::Four;
use crate::values::{TableVersion, seconds_of_row, text_of_key, value_of_key};
use hx_policy::Policy;
use toml::Table as TomlTable;

/// Whether the text of a key is one of two.
pub fn key_has_one_of_two_texts(table: &TomlTable, key: &str, first: &str, second: &str) -> bool
    ensures { result ≡ key_has_one_of_two_texts key.now first.now second.now (table_view table.now) }
{
    match text_of_key(table, key) {
        Some(text) => text == first || text == second,
        None => false,
    }
}

/// Whether a key has this text.
pub fn text_of_key_equals(table: &TomlTable, key: &str, word: &str) -> bool
    ensures { result ≡ text_of_key_equals key.now word.now (table_view table.now) }
{
    match text_of_key(table, key) {
        Some(text) => text == word,
        None => false,
    }
}

/// Whether a line purges.
pub fn line_purges(version: TableVersion, table: &TomlTable) -> bool
    ensures { result ≡ line_purges version (table_view table.now) }
{
    version.has_keys_of(TableVersion::Four) && text_of_key_equals(table, "origin", "purge")
}

/// Whether a line denies or purges.
pub fn line_has_no_origin(table: &TomlTable) -> bool
    ensures { result ≡ line_has_no_origin (table_view table.now) }
{
    key_has_one_of_two_texts(table, "origin", "deny", "purge")
}

/// Whether a line has an origin and its cache on.
pub fn line_caches(table: &TomlTable) -> bool
    ensures { result ≡ line_caches (table_view table.now) }
{
    !line_has_no_origin(table) && !text_of_key_equals(table, "cache", "off")
}

/// Whether a key says the second of its texts.
fn row_key_has_second_text(row: KeyDefinition, table: &TomlTable) -> bool
    ensures { result ≡ row_key_has_second_text (definition_of_source_row row) (table_view table.now) }
{
    match row.kind {
        ValueKind::OneOf(_, second) => text_of_key_equals(table, row.key, second),
        ValueKind::OneOfInFour(_, second, _) => text_of_key_equals(table, row.key, second),
        ValueKind::OneOfThree(_, second, _) => text_of_key_equals(table, row.key, second),
        _ => false,
    }
}

/// Whether a key says the third of its texts, in a table of a version that has it.
fn row_key_has_third_text_in_four(
    version: TableVersion,
    row: KeyDefinition,
    table: &TomlTable,
) -> bool
    ensures { result ≡ row_key_has_third_text_in_four version (definition_of_source_row row) (table_view table.now) }
{
    match row.kind {
        ValueKind::OneOfInFour(_, _, third) => {
            version.has_keys_of(Four) && text_of_key_equals(table, row.key, third)
        }
        _ => false,
    }
}

/// Whether a key says the last of three texts.
fn row_key_has_last_text(row: KeyDefinition, table: &TomlTable) -> bool
    ensures { result ≡ row_key_has_last_text (definition_of_source_row row) (table_view table.now) }
{
    match row.kind {
        ValueKind::OneOfThree(_, _, third) => text_of_key_equals(table, row.key, third),
        _ => false,
    }
}

/// The word that gives errors their lifetime, which is that of all others in a version without a word of its own.
fn option_that_gives_error_lifetime(version: TableVersion) -> LineOption
    ensures { result ≡ option_that_gives_error_lifetime version }
{
    if LineOption::ErrorLifetime.row().is_known_in(version) {
        LineOption::ErrorLifetime
    } else {
        LineOption::Lifetime
    }
}

/// Whether what is stored and sent to others has no Set-Cookie.
fn removes_set_cookie(version: TableVersion, table: &TomlTable) -> bool
    ensures { result ≡ removes_set_cookie version (table_view table.now) }
{
    row_key_has_third_text_in_four(version, LineOption::SetCookie.row(), table)
}

/// Whether a line gives its lifetimes to a response with Set-Cookie, too.
fn gives_lifetimes_to_set_cookie(version: TableVersion, table: &TomlTable) -> bool
    ensures { result ≡ gives_lifetimes_to_set_cookie version (table_view table.now) }
{
    let row = LineOption::SetCookie.row();
    !(version.has_keys_of(Four) && line_caches(table)) || value_of_key(table, row.key).is_some()
}

/// Whether a line gives its lifetimes to the response to a request with a cookie, too.
fn gives_lifetimes_to_cookie_requests(version: TableVersion, table: &TomlTable) -> bool
    ensures { result ≡ gives_lifetimes_to_cookie_requests version (table_view table.now) }
{
    let row = LineOption::Cookies.row();
    !(row.is_known_in(version) && line_caches(table)) || row_key_has_second_text(row, table)
}

/// Whether the conditions of clients are the origin's to judge.
fn forwards_conditions_of_line(version: TableVersion, table: &TomlTable) -> bool
    ensures { result ≡ forwards_conditions_of_line version (table_view table.now) }
{
    let row = LineOption::Conditions.row();
    !(row.is_known_in(version) && line_caches(table)) || row_key_has_second_text(row, table)
}

/// Whether requests for a range are the origin's to answer.
fn forwards_ranges_of_line(version: TableVersion, table: &TomlTable) -> bool
    ensures { result ≡ forwards_ranges_of_line version (table_view table.now) }
{
    let row = LineOption::Ranges.row();
    !(row.is_known_in(version) && line_caches(table)) || row_key_has_second_text(row, table)
}

/// Whether the whole is asked for where a range can't be cut from what is stored.
fn fills_ranges(version: TableVersion, table: &TomlTable) -> bool
    ensures { result ≡ fills_ranges version (table_view table.now) }
{
    let row = LineOption::Ranges.row();
    row.is_known_in(version) && row_key_has_last_text(row, table)
}

/// Whether requests that loop are refused.
pub fn refuses_loops(version: TableVersion, table: &TomlTable) -> bool
    ensures { result ≡ refuses_loops version (table_view table.now) }
{
    let row = LineOption::Loops.row();
    row.is_known_in(version) && !row_key_has_second_text(row, table)
}

/// For how many seconds the origin may send no byte, where a line without fault says so.
pub fn origin_timeout_seconds(table: &TomlTable) -> Option<u32>
    ensures { result ≡ origin_timeout_seconds (table_view table.now) }
{
    seconds_of_row(LineOption::OriginTimeout.row(), table)
}

/// After how many seconds a request waits no longer for the answer to another, over a line without fault.
pub fn collapsed_wait_timeout_seconds(version: TableVersion, table: &TomlTable) -> Option<u32>
    ensures { result ≡ collapsed_wait_timeout_seconds version (table_view table.now) }
{
    let row = LineOption::WaitTimeout.row();
    if row.is_known_in(version) && line_caches(table) {
        Some(seconds_of_row(row, table).unwrap_or(5))
    } else {
        None
    }
}

/// Whether what is stale is sent while it is validated.
fn sends_while_revalidating(version: TableVersion, table: &TomlTable) -> bool
    ensures { result ≡ sends_while_revalidating version (table_view table.now) }
{
    row_key_has_second_text(LineOption::Wait.row(), table)
        && LineOption::StaleWhileRevalidate.row().is_known_in(version)
}

/// The same policy with the seconds that a line has.
fn with_seconds_of_line(policy: Policy, version: TableVersion, table: &TomlTable) -> Policy
    ensures { result ≡ record policy {
      lifetime = number_in (word_row Lifetime) (table_view table.now);
      error_lifetime = number_in (word_row (option_that_gives_error_lifetime version)) (table_view table.now);
      lifetime_most = number_in (word_row LifetimeMost) (table_view table.now);
      stale_if_error = number_in (word_row StaleIfError) (table_view table.now);
      stale_while_revalidate = number_in (word_row StaleWhileRevalidate) (table_view table.now);
    } }
{
    Policy {
        lifetime: seconds_of_row(LineOption::Lifetime.row(), table),
        error_lifetime: seconds_of_row(option_that_gives_error_lifetime(version).row(), table),
        lifetime_most: seconds_of_row(LineOption::LifetimeMost.row(), table),
        stale_if_error: seconds_of_row(LineOption::StaleIfError.row(), table),
        stale_while_revalidate: seconds_of_row(LineOption::StaleWhileRevalidate.row(), table),
        ..policy
    }
}

/// What a line without fault says of caching, in a table of a version.
pub fn policy_of_line_table(version: TableVersion, table: &TomlTable) -> Policy
    ensures { result ≡ policy_of_line_table version (table_view table.now) }
{
    let words = Policy {
        caches: !row_key_has_second_text(LineKey::Cache.row(), table),
        lifetime: None,
        error_lifetime: None,
        lifetime_most: None,
        stale_if_error: None,
        stale_while_revalidate: None,
        stores_cookies: !row_key_has_second_text(LineOption::SetCookie.row(), table),
        removes_set_cookie: removes_set_cookie(version, table),
        gives_to_set_cookie: gives_lifetimes_to_set_cookie(version, table),
        gives_to_cookies: gives_lifetimes_to_cookie_requests(version, table),
        stores_errors: !row_key_has_second_text(LineOption::Errors.row(), table),
        heeds_requests: !row_key_has_second_text(LineOption::RequestDirectives.row(), table),
        waits_for_stale: row_key_has_second_text(LineOption::Wait.row(), table),
        sends_while_revalidating: sends_while_revalidating(version, table),
        explains_storing: row_key_has_second_text(LineOption::Explain.row(), table),
        forwards_conditions: forwards_conditions_of_line(version, table),
        forwards_ranges: forwards_ranges_of_line(version, table),
        fills_ranges: fills_ranges(version, table),
        hides_tags: version.has_keys_of(Four),
    };
    with_seconds_of_line(words, version, table)
}
