//! Reading a target. The law is `TargetIsJudged` in `specs/Judgement.antt`.
//!
//! A target in origin form mostly stands as it is judged (`origin_form`). Any other is cut by `http_uri`; what is read
//! here are the parts that it gives.
ghost use Rattle.std.specs.Prelude.{◌≡◌, ◌==◌, ◌||◌, ◌&&◌, not, codes, Err, Ok, None, false, slice_index, is_some};
ghost use Rattle.std.specs.Prelude.{true, IfErr, IfOk, IfSome, MatchResult};
ghost use Rattle.std.specs.List.{list_any};
ghost use Rattle.std.specs.Option.{option_copied, option_map};
ghost use Rattle.http_uri.specs.ByteClasses.{slash, at_sign, rsplit_once_back};
ghost use Rattle.http_uri.specs.Error.{IsOutOfMemory, UnlessOutOfMemory};
ghost use Rattle.http_uri.specs.Uri.{Spells, SpellsNone, uri_scheme, uri_authority};
ghost use Rattle.hx_fields.specs.FieldLines.{values_of};
ghost use Rattle.hx_target.specs.Hosts.{begins_with_valid_host};
ghost use Rattle.hx_target.specs.Judgement.{is_forbidden_target_byte, is_malformed, is_http_scheme};
ghost use Rattle.hx_target.specs.Judgement.{has_scheme_other_than_http};
ghost use Rattle.hx_target.specs.Judgement.{valid_host_value};
ghost use Rattle.hx_target.specs.Judgement.{authority_or_host};
ghost use Rattle.hx_target.specs.Judgement.{has_userinfo, path_query_of, target_parts_of, first_target_fault};
ghost use Rattle.hx_target.specs.Judgement.{judged_of};
ghost use Rattle.hx_target.specs.Judgement.{TargetIsJudged};

use crate::hosts::{begins_with_valid_host, host_part, index_after_last, port_of_host_value};
use crate::limits::MOST_TARGET_BYTES;
use crate::origin_form::{is_origin_form_within_limit, judge_origin_form};
use crate::sharing::{copy_of, first_host_line, lowercase_host, path_as_table_compares};
use crate::{Key, Target, TargetFault, has_bad_escape, table_path_has_dot_segment};
use http_uri::{PathAndQuery, Uri, UriError};
use hx_fields::{Bytes, Field, Fields};
use std::alloc::{AllocError, Global};

fn has_bad_byte(target: &[u8]) -> bool
    ensures { result ≡ list_any is_forbidden_target_byte target.now }
{
    target.iter().any(|b| *b < 0x21 || *b > 0x7e || *b == b'#')
}

/// Whether the bytes alone tell that a text is no target.
#[tactic(auto, unfolding(crate::specs::Judgement::is_malformed))]
fn is_malformed(target: &[u8]) -> bool
    ensures { result ≡ is_malformed target.now }
{
    has_bad_byte(target)
}

/// Whether a target is in origin form or in absolute form.
fn has_origin_or_absolute_form(target: &[u8], uri: &Uri) -> bool
    ensures { result
        ≡ ((slice_index target.now 0 == slash) || (is_some (uri_scheme uri.now) && is_some (uri_authority uri.now))) }
{
    target.first() == Some(&b'/') || (uri.scheme().is_some() && uri.authority().is_some())
}

fn is_http_scheme(scheme: &[u8]) -> bool
    ensures { result ≡ is_http_scheme scheme.now }
{
    scheme.eq_ignore_ascii_case(b"http")
}

fn has_scheme_other_than_http(uri: &Uri) -> bool
    ensures { result ≡ has_scheme_other_than_http (uri_scheme uri.now) }
{
    match uri.scheme_str() {
        Some(scheme) => !is_http_scheme(scheme.as_bytes()),
        None => false,
    }
}

/// The only Host line, where the host in its value is valid.
pub(crate) fn valid_host_line(fields: &Fields) -> Option<&Field>
    ensures value { option_map (λ line. line.value) (option_copied result)
        ≡ valid_host_value (values_of fields.now (codes "Host")) }
    ensures valid { IfSome result (λ line. begins_with_valid_host line.now.value ≡ true) }
{
    if fields.count(b"Host") != 1 {
        return None;
    }
    match first_host_line(fields) {
        Some(line) if begins_with_valid_host(line.value()) => Some(line),
        _ => None,
    }
}

/// What follows the last `@` of an authority, where userinfo ends.
fn after_userinfo(authority: &[u8]) -> &[u8]
    ensures { result.now ≡ rsplit_once_back at_sign authority.now }
{
    &authority[index_after_last(b'@', authority)..]
}

/// What names host and port: the authority, or else the value of the Host line.
fn authority_or_host<'a>(uri: &'a Uri, value: &'a [u8]) -> &'a [u8]
    ensures { result.now ≡ authority_or_host (uri_authority uri.now) value.now }
{
    match uri.authority() {
        Some(authority) => after_userinfo(authority.as_str().as_bytes()),
        None => value,
    }
}

/// Whether what names host and port has a valid host. The value of a Host line was found to have one.
fn names_valid_host(uri: &Uri, value: &[u8]) -> bool
    requires { begins_with_valid_host value.now ≡ true }
    ensures { result ≡ begins_with_valid_host (authority_or_host (uri_authority uri.now) value.now) }
{
    match uri.authority() {
        Some(authority) => begins_with_valid_host(after_userinfo(authority.as_str().as_bytes())),
        None => true,
    }
}

fn has_at_sign(text: &[u8]) -> bool
    ensures { result ≡ list_any (λ b. b == 64) text.now }
{
    text.contains(&b'@')
}

fn has_userinfo(uri: &Uri) -> bool
    ensures { result ≡ has_userinfo (uri_authority uri.now) }
{
    match uri.authority() {
        Some(authority) => has_at_sign(authority.as_str().as_bytes()),
        None => false,
    }
}

/// Path and query as they came, an empty path as `/`.
fn path_query(alloc: Global, kept: &PathAndQuery, target: &Bytes) -> Result<Bytes, AllocError>
    ensures { IfOk result (λ text. text ≡ path_query_of kept.now) }
{
    let text = kept.as_str().as_bytes();
    if text.first() == Some(&b'/') {
        return copy_of(alloc, text, target);
    }
    let mut found = Vec::new(alloc);
    found.push(b'/')?;
    found.extend_from_slice(text)?;
    Ok(Bytes::from_vec(found))
}

/// What the parts of a target ask for, or their least fault.
#[tactic(auto, unfolding(crate::specs::Judgement::judged_of))]
fn judge_parts(
    alloc: Global,
    target: &Bytes,
    uri: &Uri,
    kept: &PathAndQuery,
    fields: &Fields,
) -> Result<Target, TargetFault>
    ensures judged { ¬ (result ≡ Err TargetFault.OutOfMemory) → result ≡ judged_of (record {
      target = target.now;
      scheme = uri_scheme uri.now;
      authority = uri_authority uri.now;
      kept = kept.now;
      hosts = values_of fields.now (codes "Host");
    }) }
    ensures memory_last { result ≡ Err TargetFault.OutOfMemory → first_target_fault (record {
      target = target.now;
      scheme = uri_scheme uri.now;
      authority = uri_authority uri.now;
      kept = kept.now;
      hosts = values_of fields.now (codes "Host");
    }) ≡ None }
{
    if !has_origin_or_absolute_form(target.as_slice(), uri) {
        return Err(TargetFault::Form);
    }
    if has_scheme_other_than_http(uri) {
        return Err(TargetFault::Scheme);
    }
    let Some(line) = valid_host_line(fields) else {
        return Err(TargetFault::Host);
    };
    let named = authority_or_host(uri, line.value());
    if !names_valid_host(uri, line.value()) {
        return Err(TargetFault::Host);
    }
    let (Some(_), Some(port)) = (port_of_host_value(line.value()), port_of_host_value(named)) else {
        return Err(TargetFault::Port);
    };
    if has_userinfo(uri) {
        return Err(TargetFault::Userinfo);
    }
    let path = kept.path().as_bytes();
    if has_bad_escape(path) {
        return Err(TargetFault::Escape);
    }
    if table_path_has_dot_segment(path) {
        return Err(TargetFault::DotSegment);
    }
    if target.len() > MOST_TARGET_BYTES {
        return Err(TargetFault::TooLong);
    }
    Ok(Target {
        key: Key {
            host: lowercase_host(alloc, host_part(named), line)?,
            port,
            path_query: path_query(alloc, kept, target)?,
        },
        table_path: path_as_table_compares(alloc, path, target)?,
    })
}

/// What a target that is cut asks for, or its least fault.
fn judge_target(
    alloc: Global,
    target: &Bytes,
    uri: &Uri,
    fields: &Fields,
) -> Result<Target, TargetFault>
    requires cut { Spells target.now uri.now }
    ensures judged { ¬ (result ≡ Err TargetFault.OutOfMemory)
        → result ≡ judged_of (target_parts_of target.now uri.now (values_of fields.now (codes "Host"))) }
    ensures memory_last { result ≡ Err TargetFault.OutOfMemory
        → first_target_fault (target_parts_of target.now uri.now (values_of fields.now (codes "Host"))) ≡ None }
{
    match uri.path_and_query() {
        Some(kept) => judge_parts(alloc, target, uri, kept, fields),
        // An authority alone.
        None => Err(TargetFault::Form),
    }
}

/// What a target asks for that `http_uri` cut or refused, or its least fault. Out of memory is
/// told where `http_uri` found none, or where no fault stands.
fn judge_cut_target(
    alloc: Global,
    target: &Bytes,
    cut: Result<Uri, UriError>,
    fields: &Fields,
) -> Result<Target, TargetFault>
    requires good { is_malformed target.now ≡ false }
    requires spelled { IfOk cut (Spells target.now) }
    requires not_spelled { IfErr cut (λ error. UnlessOutOfMemory error (SpellsNone target.now)) }
    ensures judged { ¬ (result ≡ Err TargetFault.OutOfMemory)
        → TargetIsJudged target.now (values_of fields.now (codes "Host")) result }
    ensures memory_last { result ≡ Err TargetFault.OutOfMemory → MatchResult cut
        (λ uri. first_target_fault (target_parts_of target.now uri (values_of fields.now (codes "Host")))
        ≡ None) IsOutOfMemory }
{
    match cut {
        Ok(uri) => judge_target(alloc, target, &uri, fields),
        Err(UriError::Invalid(_)) => Err(TargetFault::Form),
        Err(UriError::OutOfMemory) => Err(TargetFault::OutOfMemory),
    }
}

/// Reads a request's target and its Host lines (RFC 9112, section 3.2): what it asks for, or the least of
/// the faults that stand. Parts that are kept as they came share the buffers that the target and the Host line share.
pub fn read_target(alloc: Global, target: &Bytes, fields: &Fields) -> Result<Target, TargetFault>
    ensures judged { ¬ (result ≡ Err TargetFault.OutOfMemory)
        → TargetIsJudged target.now (values_of fields.now (codes "Host")) result }
    // A target that is malformed is told so without memory.
    ensures memory_last { result ≡ Err TargetFault.OutOfMemory → is_malformed target.now ≡ false }
{
    let text = target.as_slice();
    if is_origin_form_within_limit(text) {
        return judge_origin_form(alloc, target, fields);
    }
    if is_malformed(text) {
        return Err(TargetFault::Form);
    }
    judge_cut_target(alloc, target, Uri::from_bytes(alloc, text), fields)
}
