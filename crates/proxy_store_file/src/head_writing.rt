//! The head of an entry, spelled (`specs/Heads.antt`).
ghost use Rattle.std.specs.Prelude.{◌≡◌, ◌++◌, OnOk, IfOk};
ghost use Rattle.std.specs.List.{flat_map};
ghost use Rattle.proxy_store_file.specs.Heads.{times_spelling, key_spelling, nominated_text_spelling};
ghost use Rattle.proxy_store_file.specs.Heads.{nominated_value_spelling};
ghost use Rattle.proxy_store_file.specs.Heads.{line_spelling};
ghost use Rattle.proxy_store_file.specs.Heads.{nominated_spelling, lines_spelling, head_spelling, head_of_entry};
ghost use Rattle.proxy_store_file.specs.Heads.{head_numbers_spelling, purge_spelling};

use crate::texts::{push_number, push_text};
use hx_age::Times;
use hx_fields::{Bytes, Field};
use hx_store::Entry;
use hx_target::Key;
use hx_vary::NominatedValue;
use std::alloc::{AllocError, Global};

fn push_times(out: &mut Vec<u8>, times: Times) -> Result<(), AllocError>
    ensures { OnOk result (out.new.items ≡ out.old.items ++ times_spelling times) }
{
    push_number(out, times.date)?;
    push_number(out, times.age_value as u64)?;
    push_number(out, times.request_time)?;
    push_number(out, times.response_time)
}

fn push_key(out: &mut Vec<u8>, key: &Key) -> Result<(), AllocError>
    ensures { OnOk result (out.new.items ≡ out.old.items ++ key_spelling key.now) }
{
    push_number(out, key.port as u64)?;
    push_text(out, key.host.as_slice())?;
    push_text(out, key.path_query.as_slice())
}

fn push_value(out: &mut Vec<u8>, value: &Option<Bytes>) -> Result<(), AllocError>
    ensures { OnOk result (out.new.items ≡ out.old.items ++ nominated_text_spelling value.now) }
{
    match value {
        None => push_number(out, 0),
        Some(value) => {
            let bytes = value.as_slice();
            push_number(out, bytes.len() as u64 + 1)?;
            out.extend_from_slice(bytes)
        }
    }
}

fn push_nominated_value(out: &mut Vec<u8>, kept: &NominatedValue) -> Result<(), AllocError>
    ensures { OnOk result (out.new.items ≡ out.old.items ++ nominated_value_spelling kept.now) }
{
    push_text(out, kept.name.as_slice())?;
    push_value(out, &kept.value)
}

fn push_nominated_values(out: &mut Vec<u8>, values: &[NominatedValue]) -> Result<(), AllocError>
    ensures { OnOk result (out.new.items ≡ out.old.items ++ flat_map nominated_value_spelling values.now) }
{
    for kept in values {
        push_nominated_value(out, kept)?;
    }
    Ok(())
}

fn push_nominated(out: &mut Vec<u8>, values: &[NominatedValue]) -> Result<(), AllocError>
    ensures { OnOk result (out.new.items ≡ out.old.items ++ nominated_spelling values.now) }
{
    push_number(out, values.len() as u64)?;
    push_nominated_values(out, values)
}

fn push_line(out: &mut Vec<u8>, line: &Field) -> Result<(), AllocError>
    ensures { OnOk result (out.new.items ≡ out.old.items ++ line_spelling line.now) }
{
    push_text(out, line.name())?;
    push_text(out, line.value())
}

fn push_all_lines(out: &mut Vec<u8>, lines: &[Field]) -> Result<(), AllocError>
    ensures { OnOk result (out.new.items ≡ out.old.items ++ flat_map line_spelling lines.now) }
{
    for line in lines {
        push_line(out, line)?;
    }
    Ok(())
}

fn push_lines(out: &mut Vec<u8>, lines: &[Field]) -> Result<(), AllocError>
    ensures { OnOk result (out.new.items ≡ out.old.items ++ lines_spelling lines.now) }
{
    push_number(out, lines.len() as u64)?;
    push_all_lines(out, lines)
}

fn push_purge(out: &mut Vec<u8>, expired: Option<u64>) -> Result<(), AllocError>
    ensures { OnOk result (out.new.items ≡ out.old.items ++ purge_spelling expired) }
{
    match expired {
        Some(moment) => push_number(out, moment),
        None => Ok(()),
    }
}

/// The numbers of an entry that have a place of their own.
fn push_numbers(out: &mut Vec<u8>, entry: &Entry) -> Result<(), AllocError>
    ensures { OnOk result (out.new.items ≡ out.old.items ++ head_numbers_spelling (head_of_entry entry.now)) }
{
    push_number(out, entry.serial)?;
    push_number(out, entry.status as u64)?;
    push_number(out, entry.content.len() as u64)?;
    push_times(out, entry.times)
}

/// The head of an entry, as it is spelled. Fails only where memory runs out.
pub(crate) fn head_text(alloc: Global, entry: &Entry) -> Result<Vec<u8>, AllocError>
    ensures { IfOk result (λ text. text.items ≡ head_spelling (head_of_entry entry.now)) }
{
    let mut out = Vec::new(alloc);
    push_numbers(&mut out, entry)?;
    push_key(&mut out, &entry.key)?;
    push_nominated(&mut out, entry.nominated.as_slice())?;
    push_lines(&mut out, entry.fields.as_slice())?;
    push_purge(&mut out, entry.times.expired)?;
    Ok(out)
}
