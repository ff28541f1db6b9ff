//! The lines of a TOML table: the first fault among them, and what they say.
ghost use Rattle.std.specs.Prelude.{◌≡◌, ◌≤◌, ◌+◌, length, IfOk, Some, true, codes, unwrap_or, is_some, not, map};
ghost use Rattle.std.specs.Option.{option_and_then, option_copied, option_map};
ghost use Rattle.toml.specs.Data.{as_str, as_table, no_items, get_member};
ghost use Rattle.hx_target.specs.Paths.{table_path_of};
ghost use Rattle.std.specs.List.{list_any, list_all};
ghost use Rattle.std.specs.Char.{is_ascii_uppercase, is_ascii_lowercase};
ghost use Rattle.toml.specs.View.{table_view, array_view, items_view, view};
ghost use Rattle.hx_allow.specs.Addresses.{text_if_address};
ghost use Rattle.hx_allow.specs.LineHosts.{line_host_of};
ghost use Rattle.hx_allow.specs.Values.{is_some_and, items_of_key, texts_of_key, texts_of_items, number_between};
ghost use Rattle.hx_allow.specs.Values.{all_items_pass};
ghost use Rattle.hx_allow.specs.LineTables.{is_host_in_lower_case, is_subdomain_wildcard_text, is_line_host};
ghost use Rattle.hx_allow.specs.LineTables.{is_line_method};
ghost use Rattle.hx_allow.specs.LineTables.{is_token_but_not_star};
ghost use Rattle.hx_allow.specs.LineTables.{is_text_of_value_kind, most_list_texts, are_texts_of_kind};
ghost use Rattle.hx_allow.specs.LineTables.{is_text_or_list_of_kind};
ghost use Rattle.hx_allow.specs.LineTables.{is_path_byte};
ghost use Rattle.hx_allow.specs.LineTables.{is_root_or_ends_without_slash};
ghost use Rattle.hx_allow.specs.LineTables.{is_line_path, is_line_origin, value_is_of_kind, value_is_good_for_key_row};
ghost use Rattle.hx_allow.specs.LineTables.{first_bad_key};
ghost use Rattle.hx_allow.specs.Rows.{value_kind_of_source_kind, definition_of_source_row};
ghost use Rattle.hx_allow.specs.LineTables.{line_fault, line_of_members, first_fault_of_lines, lines_of_tables};
ghost use Rattle.hx_allow.specs.LineTables.{fault_of_line_if_table};
ghost use Rattle.hx_allow.specs.LineTables.{has_lowercase_letter, line_has_lowercase_method, text_has_star};
ghost use Rattle.hx_allow.specs.LineTables.{is_text_with_star};
ghost use Rattle.hx_allow.specs.LineTables.{line_has_path_with_star};
ghost use Rattle.hx_allow.specs.LineTables.{lowercase_or_star_fault};
ghost use Rattle.hx_allow.specs.LineTables.{table_fault_of_borrowed};

use crate::TableFault;
use crate::addresses::address_of;
use crate::config_faults::{BorrowedTableFault, LineOption};
use crate::line_hosts::LineHost;
use crate::line_paths::LinePath;
use crate::line_words::{
    collapsed_wait_timeout_seconds, key_has_one_of_two_texts, line_caches, line_has_no_origin,
    line_purges, origin_timeout_seconds, policy_of_line_table, refuses_loops, text_of_key_equals,
};
use crate::lines::{Line, method_is_never_allowed};
use crate::origins::Origin;
use crate::purges::is_purge_key;
use crate::rows::{KeyDefinition, KeyPlace, LINE_KEYS, LineKey, ValueKind};
use crate::values::TableVersion::Four;
use crate::values::{
    Scope, TableVersion, array_of_key, count_is_from_1_to, first_unknown, number_between,
    text_of_key, value_of_key,
};
use hx_fields::{Bytes, is_token};
use hx_target::{has_bad_escape, is_host, table_path_has_dot_segment};
use std::alloc::{AllocError, Global};
use toml::value::Array;
use toml::{Table as TomlTable, Value};

fn has_uppercase(text: &[u8]) -> bool
    ensures { result ≡ list_any is_ascii_uppercase text.now }
{
    text.iter().any(|b| b.is_ascii_uppercase())
}

fn is_host_in_lower_case(text: &[u8]) -> bool
    ensures { result ≡ is_host_in_lower_case text.now }
{
    is_host(text) && !has_uppercase(text)
}

/// Whether a text is `*.` and a name in lower case that has a letter.
fn is_subdomain_wildcard_text(text: &[u8]) -> bool
    ensures { result ≡ is_subdomain_wildcard_text text.now }
{
    match text.strip_prefix(b"*.".as_slice()) {
        Some(host) => {
            is_host_in_lower_case(host) && host.first() != Some(&b'[') && has_lowercase(host)
        }
        None => false,
    }
}

/// Whether a text is a host of a line in a table of a version.
#[tactic(auto, unfolding(crate::specs::LineTables::is_line_host))]
fn is_line_host(version: TableVersion, text: &[u8]) -> bool
    ensures { result ≡ is_line_host version text.now }
{
    text == b"*".as_slice()
        || is_host_in_lower_case(text)
        || (version.has_keys_of(Four) && is_subdomain_wildcard_text(text))
}

#[tactic(auto, unfolding(crate::specs::LineTables::is_line_method))]
fn is_line_method(text: &[u8]) -> bool
    ensures { result ≡ is_line_method text.now }
{
    text == b"*".as_slice()
        || (is_token(text) && text.len() <= 15 && !method_is_never_allowed(text))
}

fn is_path_byte(b: u8) -> bool
    ensures { result ≡ is_path_byte b }
{
    0x21 <= b && b <= 0x7e && b != b'?' && b != b'#'
}

fn are_path_bytes(text: &[u8]) -> bool
    ensures { result ≡ list_all is_path_byte text.now }
{
    text.iter().all(|b| is_path_byte(*b))
}

fn is_root_or_ends_without_slash(text: &[u8]) -> bool
    ensures { result ≡ is_root_or_ends_without_slash text.now }
{
    text.len() == 1 || text.last() != Some(&b'/')
}

/// Whether a text is a path of a line.
#[tactic(auto, unfolding(crate::specs::LineTables::is_line_path))]
fn is_line_path(text: &[u8]) -> bool
    ensures { result ≡ is_line_path text.now }
{
    if text.first() != Some(&b'/') || !is_root_or_ends_without_slash(text) {
        return false;
    }
    are_path_bytes(text) && !has_bad_escape(text) && !table_path_has_dot_segment(text)
}

fn is_line_origin(version: TableVersion, text: &[u8]) -> bool
    ensures { result ≡ is_line_origin version text.now }
{
    text == b"deny".as_slice()
        || address_of(text).is_some()
        || (version.has_keys_of(Four) && text == b"purge".as_slice())
}

/// Whether a text may stand in a list of names.
fn is_token_but_not_star(text: &[u8]) -> bool
    ensures { result ≡ is_token_but_not_star text.now }
{
    is_token(text) && text != b"*".as_slice()
}

/// Whether a text is one of a kind, in a table of a version.
fn is_text_of_value_kind(version: TableVersion, kind: ValueKind, text: &[u8]) -> bool
    ensures { result ≡ is_text_of_value_kind version (value_kind_of_source_kind kind) text.now }
{
    match kind {
        ValueKind::Host => is_line_host(version, text),
        ValueKind::Methods => is_line_method(text),
        ValueKind::Path => is_line_path(text),
        ValueKind::Origin => is_line_origin(version, text),
        ValueKind::PurgeKey => is_purge_key(text),
        ValueKind::Names(_) => is_token_but_not_star(text),
        _ => false,
    }
}

fn is_good_text(version: TableVersion, kind: ValueKind, text: Option<&str>) -> bool
    ensures { result
        ≡ is_some_and (is_text_of_value_kind version (value_kind_of_source_kind kind)) (option_copied text.entry) }
{
    match text {
        Some(text) => is_text_of_value_kind(version, kind, text.as_bytes()),
        None => false,
    }
}

/// The most texts of a list.
fn most_list_texts(kind: ValueKind) -> usize
    ensures { result ≡ most_list_texts (value_kind_of_source_kind kind) }
{
    match kind {
        ValueKind::Names(most) => usize::from(most),
        _ => 32,
    }
}

/// Whether there are 1 to as many texts of a kind as a list has, and nothing else.
fn are_texts_of_kind(version: TableVersion, kind: ValueKind, values: &[Value]) -> bool
    ensures { result ≡ are_texts_of_kind version (value_kind_of_source_kind kind) (items_view values.now) }
{
    if !count_is_from_1_to(most_list_texts(kind), values) {
        return false;
    }
    for value in values {
        if !is_good_text(version, kind, value.as_str()) {
            return false;
        }
    }
    true
}

fn is_good_list(version: TableVersion, kind: ValueKind, values: Option<&Array>) -> bool
    ensures { result ≡ is_some_and (are_texts_of_kind version (value_kind_of_source_kind kind))
        (option_map (λ a. array_view a.now) values.entry) }
{
    match values {
        Some(values) => are_texts_of_kind(version, kind, values),
        None => false,
    }
}

/// Whether a key has a text of a kind, or in the fourth version a list of them.
fn is_text_or_list_of_kind(
    version: TableVersion,
    kind: ValueKind,
    key: &str,
    table: &TomlTable,
) -> bool
    ensures { result ≡ is_text_or_list_of_kind version (value_kind_of_source_kind kind) key.now (table_view table.now) }
{
    is_good_text(version, kind, text_of_key(table, key))
        || (version.has_keys_of(Four) && is_good_list(version, kind, array_of_key(table, key)))
}

fn is_number_between(table: &TomlTable, key: &str, low: u32, high: u32) -> bool
    ensures { result ≡ is_some (number_between low high (get_member key.now (table_view table.now))) }
{
    number_between(table, key, u64::from(low), u64::from(high)).is_some()
}

/// Whether the value of a key is of a kind, of those that stand in a line of a table of a version.
fn value_is_of_kind(version: TableVersion, kind: ValueKind, key: &str, table: &TomlTable) -> bool
    ensures { result ≡ value_is_of_kind version (value_kind_of_source_kind kind) key.now (table_view table.now) }
{
    match kind {
        ValueKind::Number(low, high) => is_number_between(table, key, low, high),
        ValueKind::Seconds(low, high) => is_number_between(table, key, low, high),
        ValueKind::OneOf(first, second) => key_has_one_of_two_texts(table, key, first, second),
        ValueKind::OneOfInFour(first, second, third) => {
            key_has_one_of_two_texts(table, key, first, second)
                || (version.has_keys_of(Four) && text_of_key_equals(table, key, third))
        }
        ValueKind::OneOfThree(first, second, third) => {
            key_has_one_of_two_texts(table, key, first, second)
                || text_of_key_equals(table, key, third)
        }
        ValueKind::Host => is_text_or_list_of_kind(version, kind, key, table),
        ValueKind::Methods => is_good_list(version, kind, array_of_key(table, key)),
        ValueKind::Path => is_text_or_list_of_kind(version, kind, key, table),
        ValueKind::Origin => is_good_text(version, kind, text_of_key(table, key)),
        ValueKind::PurgeKey => is_good_text(version, kind, text_of_key(table, key)),
        ValueKind::Names(_) => is_good_list(version, kind, array_of_key(table, key)),
        _ => false,
    }
}

/// Whether a row's key has a good value in a line that takes it, or needn't stand and doesn't.
fn line_key_has_good_value(version: TableVersion, row: KeyDefinition, table: &TomlTable) -> bool
    ensures { result
        ≡ value_is_good_for_key_row version row.place (definition_of_source_row row) (table_view table.now) }
{
    match row.place {
        KeyPlace::Needed => value_is_of_kind(version, row.kind, row.key, table),
        KeyPlace::Optional => {
            value_of_key(table, row.key).is_none()
                || value_is_of_kind(version, row.kind, row.key, table)
        }
        KeyPlace::AllowingLine => value_of_key(table, row.key).is_none()
            || (value_is_of_kind(version, row.kind, row.key, table) && !line_has_no_origin(table)),
        KeyPlace::CachingLine => value_of_key(table, row.key).is_none()
            || (value_is_of_kind(version, row.kind, row.key, table) && line_caches(table)),
        KeyPlace::PurgingLine => {
            if line_purges(version, table) {
                value_is_of_kind(version, row.kind, row.key, table)
            } else {
                value_of_key(table, row.key).is_none()
            }
        }
    }
}

/// The first key that isn't good, in the order in which they are looked at.
fn first_bad_key(version: TableVersion, table: &TomlTable) -> Option<LineKey>
    ensures { result ≡ first_bad_key version (table_view table.now) }
{
    LINE_KEYS
        .iter()
        .copied()
        .find(|key| !line_key_has_good_value(version, key.row(), table))
}

fn has_lowercase(text: &[u8]) -> bool
    ensures { result ≡ list_any is_ascii_lowercase text.now }
{
    text.iter().any(|b| b.is_ascii_lowercase())
}

fn text_has_star(text: &[u8]) -> bool
    ensures { result ≡ text_has_star text.now }
{
    text.iter().any(|b| *b == b'*')
}

fn has_lowercase_letter(value: &Value) -> bool
    ensures { result ≡ has_lowercase_letter (view value.now) }
{
    match value.as_str() {
        Some(text) => has_lowercase(text.as_bytes()),
        None => false,
    }
}

fn have_no_small_letter(values: &[Value]) -> bool
    ensures { result ≡ all_items_pass (λ d. not (has_lowercase_letter d)) (items_view values.now) }
{
    for value in values {
        if has_lowercase_letter(value) {
            return false;
        }
    }
    true
}

/// Whether a method has a letter in lower case.
fn line_has_lowercase_method(table: &TomlTable) -> bool
    ensures { result ≡ line_has_lowercase_method (table_view table.now) }
{
    match array_of_key(table, "methods") {
        Some(values) => !have_no_small_letter(values),
        None => false,
    }
}

fn is_text_with_star(value: &Value) -> bool
    ensures { result ≡ is_text_with_star (view value.now) }
{
    match value.as_str() {
        Some(text) => text_has_star(text.as_bytes()),
        None => false,
    }
}

fn have_no_star(values: &[Value]) -> bool
    ensures { result ≡ all_items_pass (λ d. not (is_text_with_star d)) (items_view values.now) }
{
    for value in values {
        if is_text_with_star(value) {
            return false;
        }
    }
    true
}

/// Whether a path has a `*`.
fn line_has_path_with_star(table: &TomlTable) -> bool
    ensures { result ≡ line_has_path_with_star (table_view table.now) }
{
    if let Some(text) = text_of_key(table, "path") {
        if text_has_star(text.as_bytes()) {
            return true;
        }
    }
    match array_of_key(table, "path") {
        Some(values) => !have_no_star(values),
        None => false,
    }
}

/// What version 4 refuses of a line whose keys are good.
fn lowercase_or_star_fault(
    version: TableVersion,
    number: u16,
    table: &TomlTable,
) -> Option<TableFault>
    ensures fault { result ≡ lowercase_or_star_fault version number (table_view table.now) }
    ensures found_fault { ¬ (result ≡ Some TableFault.OutOfMemory) }
{
    if version != TableVersion::Four {
        return None;
    }
    if line_has_lowercase_method(table) {
        return Some(TableFault::MethodInLowerCase(number));
    }
    if line_has_path_with_star(table) {
        return Some(TableFault::StarInPath(number));
    }
    None
}

/// The first fault of a line.
#[tactic(auto, unfolding(crate::specs::LineTables::line_fault))]
fn line_fault(
    version: TableVersion,
    number: u16,
    table: &TomlTable,
) -> Option<BorrowedTableFault<'_>>
    ensures first { option_map table_fault_of_borrowed result ≡ line_fault version number (table_view table.now) }
    ensures found_fault { ¬ (result ≡ Some (BorrowedTableFault.Other TableFault.OutOfMemory)) }
{
    if let Some(key) = first_unknown(Scope::Line(version), table) {
        return Some(BorrowedTableFault::UnknownKey(key));
    }
    if let Some(key) = first_bad_key(version, table) {
        return Some(BorrowedTableFault::Other(key.fault(number)));
    }
    let fault = lowercase_or_star_fault(version, number, table)?;
    Some(BorrowedTableFault::Other(fault))
}

/// The address of an origin, which the word that denies is none of.
fn origin_rule(alloc: Global, text: Option<&str>) -> Result<Option<Origin>, AllocError>
    ensures { IfOk result (λ origin. origin ≡ option_and_then text_if_address (option_copied text.entry)) }
{
    match text {
        Some(text) => Origin::of(alloc, text),
        None => Ok(None),
    }
}

fn copy_of_text(alloc: Global, text: Option<&str>) -> Result<Option<Bytes>, AllocError>
    ensures { IfOk result (λ copied. copied ≡ option_copied text.entry) }
{
    match text {
        Some(text) => Ok(Some(Bytes::copy_of(alloc, text.as_bytes())?)),
        None => Ok(None),
    }
}

fn copy_texts(alloc: Global, values: &[Value]) -> Result<Vec<Bytes>, AllocError>
    ensures { IfOk result (λ texts. texts.items ≡ texts_of_items (items_view values.now)) }
{
    let mut texts = Vec::new(alloc);
    for value in values {
        if let Some(text) = value.as_str() {
            texts.push(Bytes::copy_of(alloc, text.as_bytes())?)?;
        }
    }
    Ok(texts)
}

/// The texts of a list, where the key has one.
fn texts_in_list(alloc: Global, table: &TomlTable, key: &str) -> Result<Vec<Bytes>, AllocError>
    ensures { IfOk result (λ texts. texts.items
        ≡ texts_of_items (unwrap_or (items_of_key key.now (table_view table.now)) no_items)) }
{
    match array_of_key(table, key) {
        Some(values) => copy_texts(alloc, values),
        None => Ok(Vec::new(alloc)),
    }
}

/// The text of a key, or those of its list.
fn texts_of_key(alloc: Global, table: &TomlTable, key: &str) -> Result<Vec<Bytes>, AllocError>
    ensures { IfOk result (λ texts. texts.items ≡ texts_of_key key.now (table_view table.now)) }
{
    if let Some(text) = text_of_key(table, key) {
        let mut texts = Vec::new(alloc);
        texts.push(Bytes::copy_of(alloc, text.as_bytes())?)?;
        return Ok(texts);
    }
    match array_of_key(table, key) {
        Some(values) => copy_texts(alloc, values),
        None => Ok(Vec::new(alloc)),
    }
}

fn hosts_of(alloc: Global, texts: &[Bytes]) -> Result<Vec<LineHost>, AllocError>
    ensures { IfOk result (λ hosts. hosts.items ≡ map line_host_of texts.now) }
{
    let mut hosts = Vec::new(alloc);
    for text in texts {
        hosts.push(LineHost::of(alloc, text.as_slice())?)?;
    }
    Ok(hosts)
}

fn paths_of(alloc: Global, texts: &[Bytes]) -> Result<Vec<LinePath>, AllocError>
    ensures { IfOk result (λ paths. paths.items ≡ map table_path_of texts.now) }
{
    let mut paths = Vec::new(alloc);
    for text in texts {
        paths.push(LinePath::of(alloc, text.as_slice())?)?;
    }
    Ok(paths)
}

/// What a line without fault says, in a table of a version.
#[tactic(auto, unfolding(crate::specs::LineTables::line_of_members))]
fn line_of_members(
    alloc: Global,
    version: TableVersion,
    table: &TomlTable,
) -> Result<Line, AllocError>
    ensures { IfOk result (λ line. line ≡ line_of_members version (table_view table.now)) }
{
    let hosts = texts_of_key(alloc, table, "host")?;
    let paths = texts_of_key(alloc, table, "path")?;
    Ok(Line {
        hosts: hosts_of(alloc, &hosts)?,
        methods: texts_in_list(alloc, table, "methods")?,
        paths: paths_of(alloc, &paths)?,
        origin: origin_rule(alloc, text_of_key(table, "origin"))?,
        policy: policy_of_line_table(version, table),
        refuses_loops: refuses_loops(version, table),
        session_cookies: texts_in_list(alloc, table, "session-cookies")?,
        vary: texts_in_list(alloc, table, "vary")?,
        origin_timeout: origin_timeout_seconds(table),
        purge_key: copy_of_text(alloc, text_of_key(table, LineOption::PurgeKey.row().key))?,
        wait_timeout: collapsed_wait_timeout_seconds(version, table),
    })
}

fn fault_of_line_if_table(
    version: TableVersion,
    number: u16,
    value: &Value,
) -> Option<BorrowedTableFault<'_>>
    ensures first { option_map table_fault_of_borrowed result ≡ fault_of_line_if_table version number
        (as_table (view value.now)) }
    ensures found_fault { ¬ (result ≡ Some (BorrowedTableFault.Other TableFault.OutOfMemory)) }
{
    match value.as_table() {
        Some(table) => line_fault(version, number, table),
        None => None,
    }
}

/// The first fault among at most 4,096 lines, which are counted from 1.
pub fn first_fault_of_lines(
    version: TableVersion,
    values: &[Value],
) -> Option<BorrowedTableFault<'_>>
    requires { length values.now ≤ 4096 }
    ensures first { option_map table_fault_of_borrowed result ≡ first_fault_of_lines version 1 (items_view values.now) }
    ensures found_fault { ¬ (result ≡ Some (BorrowedTableFault.Other TableFault.OutOfMemory)) }
{
    let mut number = 1u16;
    for value in values {
        if let Some(fault) = fault_of_line_if_table(version, number, value) {
            return Some(fault);
        }
        number += 1;
    }
    None
}

/// What lines without fault say, in a table of a version.
pub fn lines_of_tables(
    alloc: Global,
    version: TableVersion,
    values: &[Value],
) -> Result<Vec<Line>, AllocError>
    ensures said { IfOk result (λ lines. lines.items ≡ lines_of_tables version (items_view values.now)) }
    ensures few { IfOk result (λ lines. length lines.items ≤ length values.now) }
{
    let mut lines = Vec::new(alloc);
    for value in values {
        if let Some(table) = value.as_table() {
            lines.push(line_of_members(alloc, version, table)?)?;
        }
    }
    Ok(lines)
}
