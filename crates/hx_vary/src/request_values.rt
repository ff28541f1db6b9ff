//! What a request has of each of its names, made once and compared with what many variants keep.

ghost use Rattle.std.specs.Prelude.{◌≡◌, nat_eq, IfOk, option_copied};
ghost use Rattle.std.specs.BTreeMap.{get};
ghost use Rattle.std.specs.HashSet.{contains};
ghost use Rattle.hx_fields.specs.Folded.{folded, folded_names_cmp};
ghost use Rattle.hx_vary.specs.Combined.{values_match_all_nominated, EachValueHasItsTag, value_of_folded_name};
ghost use Rattle.hx_vary.specs.Combined.{MapHasEachCombinedValue};
ghost use Rattle.hx_vary.specs.Combined.{value_combined_with_line};
ghost use Rattle.hx_vary.specs.Marks.{RequestValuesHaveTags, vary_tag_may_match, mark_may_match};
ghost use Rattle.hx_vary.specs.Vary.{is_same_value};

use crate::marks::{VariantMark, value_tag};
use crate::nominated_values::{NominatedValue, is_same_value, slice_of_value};
use crate::nominations::Nominated;
use hx_fields::{Bytes, Field, Fields, FoldedName};
use std::alloc::{AllocError, Global};
use std::collections::{BTreeMap, HashSet};

/// The combined value of each name, and the tags of these values. It costs as much as the request has bytes.
pub struct RequestValues {
    alloc: Global,
    values: BTreeMap<FoldedName, Bytes>,
    tags: HashSet<u64>,
}

/// One call drops it, wherever that is.
impl Drop for RequestValues {
    fn drop(self) {
        let RequestValues {
            alloc: _,
            values: _,
            tags: _,
        } = self;
    }
}

/// The combined value of each name of these lines.
fn combined_values(
    alloc: Global,
    lines: &[Field],
) -> Result<BTreeMap<FoldedName, Bytes>, AllocError>
    ensures { IfOk result (λ values. MapHasEachCombinedValue lines.now values) }
{
    let mut values = BTreeMap::new(alloc);
    let mut name = FoldedName::new(alloc);
    for line in lines {
        name.set(line.name())?;
        let value = value_combined_with_line(alloc, values.remove(&name), line)?;
        values.insert(FoldedName::of(alloc, line.name())?, value)?;
    }
    Ok(values)
}

/// The combined value of a name, if it had one, with that of a further line (RFC 9110, section 5.3).
fn value_combined_with_line(
    alloc: Global,
    before: Option<Bytes>,
    line: &Field,
) -> Result<Bytes, AllocError>
    ensures { IfOk result (λ all. all ≡ value_combined_with_line before line.now.value) }
{
    match before {
        Some(before) => before
            .followed_by(alloc, b", ")?
            .followed_by(alloc, line.value()),
        None => line.first_bytes_of_value(alloc, line.value().len()),
    }
}

/// The tags of these values.
fn tags_of_values(
    alloc: Global,
    values: &BTreeMap<FoldedName, Bytes>,
    seed: u64,
) -> Result<HashSet<u64>, AllocError>
    ensures { IfOk result (λ tags. EachValueHasItsTag seed values.now (contains nat_eq tags)) }
{
    let mut tags = HashSet::new(alloc);
    for value in values.values() {
        tags.insert(value_tag(seed, value.as_slice()))?;
    }
    Ok(tags)
}

impl RequestValues {
    /// Those of a request, with tags by a seed. Fails only where memory runs out.
    pub fn of(alloc: Global, request: &Fields, seed: u64) -> Result<RequestValues, AllocError>
        ensures values { IfOk result (λ asked. MapHasEachCombinedValue request.now asked.values) }
        ensures tags { IfOk result (λ asked. RequestValuesHaveTags seed request.now (contains nat_eq asked.tags)) }
    {
        let values = combined_values(alloc, request.as_slice())?;
        let tags = tags_of_values(alloc, &values, seed)?;
        Ok(RequestValues {
            alloc,
            values,
            tags,
        })
    }

    /// Whether what was kept with this mark has to be looked at.
    pub fn may_match(&self, mark: &VariantMark) -> bool
        ensures { result ≡ mark_may_match (contains nat_eq self.now.tags) mark.now }
    {
        self.may_be(mark.first)
            && self.may_be(mark.second)
            && self.may_be(mark.third)
            && self.may_be(mark.fourth)
    }

    fn may_be(&self, tag: u64) -> bool
        ensures { result ≡ vary_tag_may_match (contains nat_eq self.now.tags) tag }
    {
        tag == 0 || self.tags.contains(&tag)
    }

    /// Whether the request has each value that was kept. Fails only where memory runs out.
    pub fn matches(&self, nominated: &Nominated) -> Result<bool, AllocError>
        ensures { IfOk result (λ same. same ≡ values_match_all_nominated self.now.values nominated.now) }
    {
        let mut name = FoldedName::new(self.alloc);
        for kept in nominated.as_slice() {
            name.set(kept.name.as_slice())?;
            if !self.has(&name, kept) {
                return Ok(false);
            }
        }
        Ok(true)
    }

    /// Whether the value at a name is the one that was kept.
    fn has(&self, name: &FoldedName, kept: &NominatedValue) -> bool
        ensures { result ≡ is_same_value kept.now.value (get folded_names_cmp self.now.values name.now) }
    {
        is_same_value(slice_of_value(&kept.value), self.value(name))
    }

    /// The value at a name.
    pub(crate) fn value(&self, name: &FoldedName) -> Option<&[u8]>
        ensures { option_copied result ≡ get folded_names_cmp self.now.values name.now }
    {
        match self.values.get(name) {
            Some(value) => Some(value.as_slice()),
            None => None,
        }
    }
}
