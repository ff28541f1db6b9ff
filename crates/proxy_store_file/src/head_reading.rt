//! The head of an entry, read from its bytes (`specs/Heads.antt`).
ghost use Rattle.std.specs.Prelude.{◌≡◌, ◌∷◌, [], IfOk, IfErr, MatchOption, None, Some};
ghost use Rattle.proxy_store_file.specs.Heads.{leading_times, leading_key, leading_value, leading_nominated_value};
ghost use Rattle.proxy_store_file.specs.Heads.{leading_list_of_nominated_values, leading_field_line};
ghost use Rattle.proxy_store_file.specs.Heads.{leading_field_lines, head_spelled_in};
ghost use Rattle.proxy_store_file.specs.Heads.{leading_nominated_values_after};
ghost use Rattle.proxy_store_file.specs.Heads.{leading_field_lines_after, stored_times_with_purge_if_any};
ghost use Rattle.proxy_store_file.specs.HeadStops.{HeadReadFailureMatchesReading, model_of_leading_value};

use crate::heads::Head;
use crate::texts::{cut, leading_number, leading_number_below, leading_text};
use hx_age::Times;
use hx_fields::{Bytes, Field, Fields};
use hx_target::Key;
use hx_vary::{Nominated, NominatedValue};
use std::alloc::{AllocError, Global};

/// Why a head isn't read.
#[derive(Clone, Copy, PartialEq, Eq)]
pub(crate) enum HeadStop {
    /// The bytes spell none.
    Shapeless,
    /// Memory ran out.
    OutOfMemory,
}

impl From<AllocError> for HeadStop {
    ghost use Rattle.std.specs.Prelude.{◌≡◌};
    ghost use Rattle.proxy_store_file.specs.declared.head_reading.HeadStop.TheVariants.{OutOfMemory};

    ghost from_gives = { λ _ stop. stop ≡ OutOfMemory };

    fn from(_: AllocError) -> HeadStop {
        HeadStop::OutOfMemory
    }
}

fn leading_times(bytes: &[u8]) -> Option<(Times, &[u8])>
    ensures { MatchOption result (leading_times bytes.now ≡ None)
        (λ r. leading_times bytes.now ≡ Some (r.0, r.1.now)) }
{
    let Some((date, rest)) = leading_number(bytes) else {
        return None;
    };
    let Some((age_value, rest)) = leading_number_below(4_294_967_296, rest) else {
        return None;
    };
    let Some((request_time, rest)) = leading_number(rest) else {
        return None;
    };
    let Some((response_time, rest)) = leading_number(rest) else {
        return None;
    };
    let times = Times {
        date,
        age_value: age_value as u32,
        request_time,
        response_time,
        expired: None,
    };
    Some((times, rest))
}

fn leading_key(alloc: Global, bytes: &[u8]) -> Result<(Key, &[u8]), HeadStop>
    ensures ok { IfOk result (λ r. leading_key bytes.now ≡ Some (r.0, r.1.now)) }
    ensures stop { IfErr result (λ stop. HeadReadFailureMatchesReading stop (leading_key bytes.now)) }
{
    let Some((port, rest)) = leading_number_below(65_536, bytes) else {
        return Err(HeadStop::Shapeless);
    };
    let Some((host, rest)) = leading_text(rest) else {
        return Err(HeadStop::Shapeless);
    };
    let Some((path_query, rest)) = leading_text(rest) else {
        return Err(HeadStop::Shapeless);
    };
    let key = Key {
        host: Bytes::copy_of(alloc, host)?,
        port: port as u16,
        path_query: Bytes::copy_of(alloc, path_query)?,
    };
    Ok((key, rest))
}

/// What a nominated name has at the front.
enum LeadingValue<'a> {
    /// Less than a value.
    Cut,
    /// It had none.
    Absent(&'a [u8]),
    /// A value, and the rest.
    Value(&'a [u8], &'a [u8]),
}

fn leading_value(bytes: &[u8]) -> LeadingValue<'_>
    ensures { model_of_leading_value result ≡ leading_value bytes.now }
{
    match leading_number(bytes) {
        None => LeadingValue::Cut,
        Some((0, rest)) => LeadingValue::Absent(rest),
        Some((n, rest)) => match cut(n - 1, rest) {
            None => LeadingValue::Cut,
            Some((value, rest)) => LeadingValue::Value(value, rest),
        },
    }
}

fn leading_nominated_value(alloc: Global, bytes: &[u8]) -> Result<(NominatedValue, &[u8]), HeadStop>
    ensures ok { IfOk result (λ r. leading_nominated_value bytes.now ≡ Some (r.0, r.1.now)) }
    ensures stop { IfErr result (λ stop. HeadReadFailureMatchesReading stop (leading_nominated_value bytes.now)) }
{
    let Some((name, rest)) = leading_text(bytes) else {
        return Err(HeadStop::Shapeless);
    };
    match leading_value(rest) {
        LeadingValue::Cut => Err(HeadStop::Shapeless),
        LeadingValue::Absent(rest) => {
            let name = Bytes::copy_of(alloc, name)?;
            Ok((NominatedValue { name, value: None }, rest))
        }
        LeadingValue::Value(value, rest) => {
            let name = Bytes::copy_of(alloc, name)?;
            let value = Some(Bytes::copy_of(alloc, value)?);
            Ok((NominatedValue { name, value }, rest))
        }
    }
}

fn leading_list_of_nominated_values(
    alloc: Global,
    bytes: &[u8],
) -> Result<(Nominated, &[u8]), HeadStop>
    ensures ok { IfOk result (λ r. leading_list_of_nominated_values bytes.now ≡ Some (r.0, r.1.now)) }
    ensures stop { IfErr result (λ stop. HeadReadFailureMatchesReading stop
        (leading_list_of_nominated_values bytes.now)) }
{
    let Some((n, front)) = leading_number(bytes) else {
        return Err(HeadStop::Shapeless);
    };
    let mut values = Vec::new(alloc);
    let mut rest = front;
    for _i in 0..n {
        match leading_nominated_value(alloc, rest) {
            Ok((kept, more)) => {
                match values.push(kept) {
                    Ok(()) => rest = more,
                    Err(_) => return Err(HeadStop::OutOfMemory),
                }
            }
            Err(stop) => return Err(stop),
        }
    }
    Ok((Nominated::from_vec(values), rest))
}

fn leading_field_line(alloc: Global, bytes: &[u8]) -> Result<(Field, &[u8]), HeadStop>
    ensures ok { IfOk result (λ r. leading_field_line bytes.now ≡ Some (r.0, r.1.now)) }
    ensures stop { IfErr result (λ stop. HeadReadFailureMatchesReading stop (leading_field_line bytes.now)) }
{
    let Some((name, rest)) = leading_text(bytes) else {
        return Err(HeadStop::Shapeless);
    };
    let Some((value, rest)) = leading_text(rest) else {
        return Err(HeadStop::Shapeless);
    };
    Ok((Field::copy_of(alloc, name, value)?, rest))
}

fn leading_field_lines(alloc: Global, bytes: &[u8]) -> Result<(Fields, &[u8]), HeadStop>
    ensures ok { IfOk result (λ r. leading_field_lines bytes.now ≡ Some (r.0, r.1.now)) }
    ensures stop { IfErr result (λ stop. HeadReadFailureMatchesReading stop (leading_field_lines bytes.now)) }
{
    let Some((n, front)) = leading_number(bytes) else {
        return Err(HeadStop::Shapeless);
    };
    let mut lines = Fields::new(alloc);
    let mut rest = front;
    for _i in 0..n {
        match leading_field_line(alloc, rest) {
            Ok((line, more)) => {
                lines.push_line(line)?;
                rest = more;
            }
            Err(stop) => return Err(stop),
        }
    }
    Ok((lines, rest))
}

/// The times of a head behind whose lines nothing stands, or the moment of a purge.
fn stored_times_with_purge_if_any(times: Times, rest: &[u8]) -> Option<Times>
    ensures { result ≡ stored_times_with_purge_if_any times rest.now }
{
    if rest.is_empty() {
        return Some(times);
    }
    match leading_number(rest) {
        Some((moment, behind)) if behind.is_empty() => Some(Times {
            expired: Some(moment),
            ..times
        }),
        _ => None,
    }
}

/// The head that bytes spell.
#[tactic(auto, unfolding(crate::specs::Heads::head_spelled_in))]
pub(crate) fn head_spelled_in(alloc: Global, bytes: &[u8]) -> Result<Head, HeadStop>
    ensures ok { IfOk result (λ head. head_spelled_in bytes.now ≡ Some head) }
    ensures stop { IfErr result (λ stop. HeadReadFailureMatchesReading stop (head_spelled_in bytes.now)) }
{
    let Some((serial, rest)) = leading_number(bytes) else {
        return Err(HeadStop::Shapeless);
    };
    let Some((status, rest)) = leading_number_below(65_536, rest) else {
        return Err(HeadStop::Shapeless);
    };
    let Some((content_length, rest)) = leading_number(rest) else {
        return Err(HeadStop::Shapeless);
    };
    let Some((times, rest)) = leading_times(rest) else {
        return Err(HeadStop::Shapeless);
    };
    let (key, rest) = match leading_key(alloc, rest) {
        Ok(found) => found,
        Err(stop) => return Err(stop),
    };
    let (nominated, rest) = match leading_list_of_nominated_values(alloc, rest) {
        Ok(found) => found,
        Err(stop) => return Err(stop),
    };
    let (fields, rest) = match leading_field_lines(alloc, rest) {
        Ok(found) => found,
        Err(stop) => return Err(stop),
    };
    let Some(times) = stored_times_with_purge_if_any(times, rest) else {
        return Err(HeadStop::Shapeless);
    };
    Ok(Head {
        serial,
        status: status as u16,
        content_length,
        times,
        key,
        nominated,
        fields,
    })
}
