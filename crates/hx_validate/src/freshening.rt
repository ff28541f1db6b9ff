//! What a 304 makes of the stored response that it answers (RFC 9111, section 4.3.4).
//!
//! The definition is in `specs/Answering.antt`.
ghost use Rattle.std.specs.Prelude.{◌≡◌, ◌++◌, [], filter, not, IfOk, OnOk};
ghost use Rattle.hx_vary.specs.Vary.{nomination_with_further_names};
ghost use Rattle.hx_validate.specs.LineNames.{SetHasExactlyTheNamesOfFields};
ghost use Rattle.hx_validate.specs.Answering.{freshened_fields, freshened_of, is_field_taken_from_304};
ghost use Rattle.hx_validate.specs.Answering.{is_stored_field_replaced_by_304};
ghost use Rattle.hx_validate.specs.Answering.{nominated_values_unless_star};

use hx_age::Times;
use hx_directives::Directives;
use hx_fields::{Field, Fields, FoldedName, is_same_name};
use hx_hop::{Answered, Asked};
use hx_store::Entry;
use hx_vary::{FieldNames, Nominated, Nomination};
use std::alloc::{AllocError, Global};
use std::collections::BTreeSet;

/// A 304 of more lines has its names looked up, so that the cost grows with the lines and not with their square.
const FEW_LINES: usize = 16;

/// Whether a 304 can bring this line.
fn is_field_taken_from_304(line: &Field) -> bool
    ensures { result ≡ is_field_taken_from_304 line.now }
{
    !is_same_name(line.name(), b"Content-Length") && !is_same_name(line.name(), b"Age")
}

fn is_stored_field_replaced_by_304(fields: &Fields, line: &Field) -> bool
    ensures { result ≡ is_stored_field_replaced_by_304 fields.now line.now }
{
    is_field_taken_from_304(line) && fields.has(line.name())
}

/// Puts the stored lines that stay at the end.
fn push_stored(
    alloc: Global,
    fields: &mut Fields,
    stored: &[Field],
    answered: &Fields,
) -> Result<(), AllocError>
    ensures { OnOk result (fields.new ≡ fields.old ++ filter
        (λ line. not (is_stored_field_replaced_by_304 answered.now line)) stored.now) }
{
    if answered.len() > FEW_LINES {
        return push_unreplaced_by_many_lines(alloc, fields, stored, answered);
    }
    push_unreplaced_by_few_lines(fields, stored, answered)
}

/// The same where a 304 has few lines: each stored one is compared with each of them.
fn push_unreplaced_by_few_lines(
    fields: &mut Fields,
    stored: &[Field],
    answered: &Fields,
) -> Result<(), AllocError>
    ensures { OnOk result (fields.new ≡ fields.old ++ filter
        (λ line. not (is_stored_field_replaced_by_304 answered.now line)) stored.now) }
{
    for line in stored {
        if !is_stored_field_replaced_by_304(answered, line) {
            fields.push(line.name(), line.value())?;
        }
    }
    Ok(())
}

/// The same where it has many: their names are looked up.
fn push_unreplaced_by_many_lines(
    alloc: Global,
    fields: &mut Fields,
    stored: &[Field],
    answered: &Fields,
) -> Result<(), AllocError>
    ensures { OnOk result (fields.new ≡ fields.old ++ filter
        (λ line. not (is_stored_field_replaced_by_304 answered.now line)) stored.now) }
{
    let names = line_names(alloc, answered.as_slice())?;
    let mut name = FoldedName::new(alloc);
    for line in stored {
        name.set(line.name())?;
        if !(is_field_taken_from_304(line) && names.contains(&name)) {
            fields.push(line.name(), line.value())?;
        }
    }
    Ok(())
}

/// The names of these lines.
fn line_names(alloc: Global, lines: &[Field]) -> Result<BTreeSet<FoldedName>, AllocError>
    ensures { IfOk result (λ names. SetHasExactlyTheNamesOfFields lines.now names) }
{
    let mut names = BTreeSet::new(alloc);
    for line in lines {
        names.insert(FoldedName::of(alloc, line.name())?)?;
    }
    Ok(names)
}

/// Puts the lines that a 304 brings at the end.
fn push_brought(fields: &mut Fields, lines: &[Field]) -> Result<(), AllocError>
    ensures { OnOk result (fields.new ≡ fields.old ++ filter is_field_taken_from_304 lines.now) }
{
    for line in lines {
        if is_field_taken_from_304(line) {
            fields.push(line.name(), line.value())?;
        }
    }
    Ok(())
}

fn freshened_fields(alloc: Global, stored: &Fields, answered: &Fields) -> Result<Fields, AllocError>
    ensures { IfOk result (λ fields. fields ≡ freshened_fields stored.now answered.now) }
{
    let mut fields = Fields::new(alloc);
    push_stored(alloc, &mut fields, stored.as_slice(), answered)?;
    push_brought(&mut fields, answered.as_slice())?;
    Ok(fields)
}

/// A nomination of no field.
fn no_names(alloc: Global) -> Result<Nominated, AllocError>
    ensures { IfOk result (λ nominated. nominated ≡ []) }
{
    let nothing = Fields::new(alloc);
    match Nominated::of(alloc, &nothing, &nothing)? {
        Nomination::Names(nominated) => Ok(nominated),
        Nomination::Star => unreachable!(),
    }
}

/// What the new lines and the further names nominate of the request, which is nothing where the lines nominate
/// everything.
fn nominated_values_unless_star(
    alloc: Global,
    further: &FieldNames,
    fields: &Fields,
    request: &Fields,
) -> Result<Nominated, AllocError>
    ensures { IfOk result (λ nominated. nominated
        ≡ nominated_values_unless_star (nomination_with_further_names further.now fields.now request.now)) }
{
    match Nominated::with(alloc, further, fields, request)? {
        Nomination::Names(nominated) => Ok(nominated),
        Nomination::Star => no_names(alloc),
    }
}

/// The stored response as a 304 to this request leaves it: the 304's lines take the place of stored ones of their
/// names, except Content-Length and Age, and the request becomes this one. `times` are those of the 304, and further
/// names count as if its Vary had them. Its only error is out of memory.
#[tactic(auto, unfolding(crate::specs::Answering::freshened_of))]
pub fn freshened(
    alloc: Global,
    further: &FieldNames,
    entry: &Entry,
    answered: &Answered,
    asked: &Asked,
    times: Times,
) -> Result<Entry, AllocError>
    ensures { IfOk result (λ freshened. freshened ≡ freshened_of further.now entry.now answered.now asked.now times) }
{
    let fields = freshened_fields(alloc, &entry.fields, &answered.fields)?;
    Ok(Entry {
        serial: entry.serial,
        key: entry.key.copy(alloc)?,
        nominated: nominated_values_unless_star(alloc, further, &fields, &asked.fields)?,
        status: entry.status,
        directives: Directives::of(alloc, &fields)?,
        fields,
        content: entry.content.copy(alloc)?,
        times,
    })
}
