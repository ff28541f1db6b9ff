//! What a response's Vary nominates.

ghost use Rattle.std.specs.Prelude.{◌≡◌, ◌++◌, map, IfOk};
ghost use Rattle.std.specs.List.{list_any};
ghost use Rattle.hx_vary.specs.Vary.{names_without_repeats, is_star_member, nominated_value, nominates_any_field};
ghost use Rattle.hx_vary.specs.Vary.{vary_matches};
ghost use Rattle.hx_vary.specs.Vary.{compared_vary_names};
ghost use Rattle.hx_vary.specs.Marks.{mark_of_values};

use crate::field_names::FieldNames;
use crate::limits::MOST_VARY_NAMES;
use crate::marks::{VariantMark, value_tag_at};
use crate::nominated_values::NominatedValue;
use crate::request_values::RequestValues;
use hx_fields::{Bytes, Fields, FoldedName, Members, is_token};
use std::alloc::{AllocError, Global};
use std::collections::BTreeSet;
use std::marker::Model;

/// So many nominated values are looked for among the lines one by one; more by their names.
const FEW_VALUES: usize = 4;

/// The nominated fields of the request that a response answered, with their values.
#[derive(Debug, Drop)]
pub struct Nominated {
    values: Vec<NominatedValue>,
}

impl Model for Nominated {
    ghost use Rattle.std.specs.Prelude.{List};
    ghost use Rattle.hx_vary.specs.declared.nominated_values.NominatedValue.{NominatedValue};

    ghost Value = { List NominatedValue };

    ghost view = { λ n. n.values.items };
}

/// What a response nominates.
#[derive(Debug, Drop)]
pub enum Nomination {
    /// More than named fields: the response may answer no other request.
    Star,
    /// These fields; none where it has no Vary.
    Names(Nominated),
}

impl Nominated {
    ghost use Rattle.hx_vary.specs.Vary.{nomination_of, nomination_with_further_names};

    /// What a response nominates of the request that it answers. Fails only where memory runs out.
    pub fn of(alloc: Global, response: &Fields, request: &Fields) -> Result<Nomination, AllocError>
        ensures { IfOk result (λ nomination. nomination ≡ nomination_of response.now request.now) }
    {
        let Some(names) = compared_vary_names(alloc, response)? else {
            return Ok(Nomination::Star);
        };
        Ok(Nomination::Names(Nominated {
            values: nominated_values_of(alloc, names.as_slice(), request)?,
        }))
    }

    /// The same where further names count as if the response's Vary had them. Fails only where memory runs out.
    pub fn with(
        alloc: Global,
        further: &FieldNames,
        response: &Fields,
        request: &Fields,
    ) -> Result<Nomination, AllocError>
        ensures { IfOk result
            (λ nomination. nomination ≡ nomination_with_further_names further.now response.now request.now) }
    {
        let Some(names) = compared_vary_names(alloc, response)? else {
            return Ok(Nomination::Star);
        };
        let names = followed_by(alloc, names.as_slice(), further.as_slice())?;
        Ok(Nomination::Names(Nominated {
            values: nominated_values_of(alloc, names.as_slice(), request)?,
        }))
    }

    /// These values, as they were kept before. No memory is taken.
    pub fn from_vec(values: Vec<NominatedValue>) -> Nominated
        ensures { result ≡ values.items }
    {
        Nominated { values }
    }

    /// A copy of these values. Fails only where memory runs out.
    pub fn copy(&self, alloc: Global) -> Result<Nominated, AllocError>
        ensures { IfOk result (λ copied. copied ≡ self.now) }
    {
        let mut values = Vec::with_capacity(alloc, self.values.len())?;
        for kept in &self.values {
            values.push(kept.copy(alloc)?)?;
        }
        Ok(Nominated { values })
    }

    /// Whether a field is nominated. No memory is taken.
    pub fn nominates_any_field(&self) -> bool
        ensures { result ≡ nominates_any_field self.now }
    {
        !self.values.is_empty()
    }

    /// The mark of these values by a seed, by which a request that can't match is told. No memory is taken.
    pub fn mark(&self, seed: u64) -> VariantMark
        ensures { result ≡ mark_of_values seed self.now }
    {
        let values = self.values.as_slice();
        VariantMark {
            first: value_tag_at(values, seed, 0),
            second: value_tag_at(values, seed, 1),
            third: value_tag_at(values, seed, 2),
            fourth: value_tag_at(values, seed, 3),
        }
    }

    /// The values, in order.
    pub fn as_slice(&self) -> &[NominatedValue]
        ensures { result.now ≡ self.now }
    {
        self.values.as_slice()
    }
}

/// The members of Vary by which requests are compared; none where it counts as a star. What stands behind the first
/// that are too many isn't looked at.
fn compared_vary_names(alloc: Global, response: &Fields) -> Result<Option<Members>, AllocError>
    ensures { IfOk result (λ names. names ≡ compared_vary_names response.now) }
{
    let names = response.members_up_to(alloc, b"Vary", MOST_VARY_NAMES + 1)?;
    if names.len() > MOST_VARY_NAMES || has_star(names.as_slice()) {
        return Ok(None);
    }
    Ok(Some(names))
}

/// These names and then those.
fn followed_by(alloc: Global, names: &[Bytes], further: &[Bytes]) -> Result<Vec<Bytes>, AllocError>
    ensures { IfOk result (λ all. all.items ≡ names.now ++ further.now) }
{
    let mut all = Vec::with_capacity(alloc, names.len())?;
    for name in names {
        all.push(name.copy(alloc)?)?;
    }
    for other in further {
        all.push(other.copy(alloc)?)?;
    }
    Ok(all)
}

/// Each name once, with what a request has of it. Fails only where memory runs out.
fn nominated_values_of(
    alloc: Global,
    names: &[Bytes],
    request: &Fields,
) -> Result<Vec<NominatedValue>, AllocError>
    ensures { IfOk result (λ kept. kept.items ≡ map (nominated_value request.now) (names_without_repeats names.now)) }
{
    let asked = RequestValues::of(alloc, request, 0)?;
    let mut kept = Vec::new(alloc);
    let mut seen = BTreeSet::new(alloc);
    let mut folded = FoldedName::new(alloc);
    for name in names {
        folded.set(name.as_slice())?;
        if !seen.contains(&folded) {
            kept.push(NominatedValue::of(alloc, name, asked.value(&folded))?)?;
            seen.insert(FoldedName::of(alloc, name.as_slice())?)?;
        }
    }
    Ok(kept)
}

/// Whether a request has each value that was kept. Fails only where memory runs out.
pub fn matches(alloc: Global, nominated: &Nominated, request: &Fields) -> Result<bool, AllocError>
    ensures { IfOk result (λ same. same ≡ vary_matches nominated.now request.now) }
{
    if nominated.values.len() > FEW_VALUES {
        return RequestValues::of(alloc, request, 0)?.matches(nominated);
    }
    matches_few(alloc, nominated.as_slice(), request)
}

/// The same of values that are few: each looks at all lines.
fn matches_few(
    alloc: Global,
    nominated: &[NominatedValue],
    request: &Fields,
) -> Result<bool, AllocError>
    ensures { IfOk result (λ same. same ≡ vary_matches nominated.now request.now) }
{
    for kept in nominated {
        if !kept.is_value_of(alloc, request)? {
            return Ok(false);
        }
    }
    Ok(true)
}

fn has_star(names: &[Bytes]) -> bool
    ensures { result ≡ list_any is_star_member names.now }
{
    names.iter().any(|name| is_star_member(name.as_slice()))
}

fn is_star_member(name: &[u8]) -> bool
    ensures { result ≡ is_star_member name.now }
{
    name == b"*".as_slice() || !is_token(name)
}
