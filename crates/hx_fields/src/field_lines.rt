//! A list of field lines, in the order in which they came.
ghost use Rattle.std.specs.Prelude.{◌≡◌, ◌≤◌, ◌++◌, ◌∷◌, [], length, take, IfOk, OnOk, OnErr, slice_get, count_by};
ghost use Rattle.std.specs.Prelude.{option_copied, false};
ghost use Rattle.std.specs.Bool.{OnFalse};
ghost use Rattle.hx_fields.specs.FieldLines.{is_named, has_field, line_count_of_name, values_of, only_value};
ghost use Rattle.hx_fields.specs.FieldLines.{combined_of};
ghost use Rattle.hx_fields.specs.FieldLines.{members_of};
ghost use Rattle.hx_fields.specs.FieldLines.{without_named};
ghost use Rattle.hx_fields.specs.Names.{members_of_value};

use crate::byte_string::Bytes;
use crate::cutting::{is_same_name, next_member};
use crate::field_line::Field;
use crate::member_list::Members;
use crate::name_places::NamePlaces;
use std::alloc::{AllocError, Global};
use std::marker::Model;

/// Field lines. Contracts see the list of them.
#[derive(Debug, Drop)]
pub struct Fields {
    lines: Vec<Field>,
    /// The place of each line's name is marked.
    places: NamePlaces,
}

impl Model for Fields {
    ghost use Rattle.std.specs.Prelude.{List};
    ghost use Rattle.hx_fields.specs.Line.{Field};
    ghost use Rattle.hx_fields.specs.NamePlaces.{PlaceOfEachNameIsMarked};

    ghost Value = { List Field };

    ghost view = { λ f. f.lines.items };

    ghost invariant = { λ f. PlaceOfEachNameIsMarked f.places.marks f.lines.items };
}

impl Fields {
    /// No lines.
    pub fn new(alloc: Global) -> Fields
        ensures { result ≡ [] }
    {
        Fields {
            lines: Vec::new(alloc),
            places: NamePlaces::none(),
        }
    }

    /// No lines, and room for n of them.
    pub fn with_capacity(alloc: Global, n: usize) -> Result<Fields, AllocError>
        ensures { IfOk result (λ fields. fields ≡ []) }
    {
        Ok(Fields {
            lines: Vec::with_capacity(alloc, n)?,
            places: NamePlaces::none(),
        })
    }

    /// Puts a line at the end, as it is.
    pub fn push_line(&mut self, line: Field) -> Result<(), AllocError>
        ensures ok { OnOk result (self.new ≡ self.old ++ line ∷ []) }
        ensures err { OnErr result (self.new ≡ self.old) }
    {
        let mut places = self.places;
        places.add(line.name());
        self.lines.push(line)?;
        self.places = places;
        Ok(())
    }

    /// Puts a line at the end.
    pub fn push(&mut self, name: &[u8], value: &[u8]) -> Result<(), AllocError>
        ensures ok { OnOk result (self.new ≡ self.old ++ record { name = name.now; value = value.now } ∷ []) }
        ensures err { OnErr result (self.new ≡ self.old) }
    {
        let line = Field::copy_of(*self.lines.allocator(), name, value)?;
        self.push_line(line)
    }

    /// How many lines there are.
    pub fn len(&self) -> usize
        ensures { result ≡ length self.now }
    {
        self.lines.len()
    }

    /// The line at this place, from 0.
    pub fn get(&self, i: usize) -> Option<&Field>
        ensures { option_copied result ≡ slice_get self.now i }
    {
        self.lines.get(i)
    }

    /// The lines, in order.
    pub fn as_slice(&self) -> &[Field]
        ensures { result.now ≡ self.now }
    {
        self.lines.as_slice()
    }

    /// A copy of these lines.
    pub fn copy(&self, alloc: Global) -> Result<Fields, AllocError>
        ensures { IfOk result (λ copied. copied ≡ self.now) }
    {
        let mut lines = Vec::with_capacity(alloc, self.lines.len())?;
        for line in &self.lines {
            lines.push(line.copy(alloc)?)?;
        }
        Ok(Fields {
            lines,
            places: self.places,
        })
    }

    /// Whether a line of this name may stand. Where none may the lines aren't looked at.
    fn may_have(&self, name: &[u8]) -> bool
        ensures values { OnFalse result (values_of self.now name.now ≡ []) }
        ensures has { OnFalse result (has_field self.now name.now ≡ false) }
    {
        self.places.has(name)
    }

    /// Whether a line of this name stands.
    pub fn has(&self, name: &[u8]) -> bool
        ensures { result ≡ has_field self.now name.now }
    {
        self.may_have(name) && has_line(self.lines.as_slice(), name)
    }

    /// How many lines of this name stand.
    pub fn count(&self, name: &[u8]) -> usize
        ensures { result ≡ line_count_of_name self.now name.now }
    {
        if self.may_have(name) {
            count_lines(self.lines.as_slice(), name)
        } else {
            0
        }
    }

    /// The value of the first line of this name.
    pub fn value(&self, name: &[u8]) -> Option<&[u8]>
        ensures { option_copied result ≡ slice_get (values_of self.now name.now) 0 }
    {
        if !self.may_have(name) {
            return None;
        }
        for line in &self.lines {
            if is_same_name(line.name(), name) {
                return Some(line.value());
            }
        }
        None
    }

    /// The value of a name that has exactly one line.
    pub fn only_value(&self, name: &[u8]) -> Option<&[u8]>
        ensures { option_copied result ≡ only_value self.now name.now }
    {
        if self.count(name) == 1 {
            self.value(name)
        } else {
            None
        }
    }

    /// Takes out the lines of this name. No memory is taken.
    pub fn remove_named(&mut self, name: &[u8])
        ensures { self.new ≡ without_named self.old name.now }
    {
        // Mostly no line has the name, and to look costs less than to go through lines that may move.
        if self.has(name) {
            retain_others(&mut self.lines, name);
        }
    }

    /// The combined value of this name, if a line has it.
    pub fn combined(&self, alloc: Global, name: &[u8]) -> Result<Option<Bytes>, AllocError>
        ensures { IfOk result (λ value. value ≡ combined_of self.now name.now) }
    {
        if !self.may_have(name) {
            return Ok(None);
        }
        combined_value(alloc, self.lines.as_slice(), name)
    }

    /// The members of this name, over all its lines.
    pub fn members(&self, alloc: Global, name: &[u8]) -> Result<Members, AllocError>
        ensures { IfOk result (λ found. found ≡ members_of self.now name.now) }
    {
        let mut found = Members::new(alloc);
        if !self.may_have(name) {
            return Ok(found);
        }
        for line in &self.lines {
            if is_same_name(line.name(), name) {
                push_members(alloc, &mut found, line.value())?;
            }
        }
        Ok(found)
    }

    /// The first members of this name, at most so many. What stands behind them isn't looked at.
    pub fn members_up_to(
        &self,
        alloc: Global,
        name: &[u8],
        most: usize,
    ) -> Result<Members, AllocError>
        ensures { IfOk result (λ found. found ≡ take most (members_of self.now name.now)) }
    {
        let mut found = Members::new(alloc);
        if !self.may_have(name) {
            return Ok(found);
        }
        for line in &self.lines {
            if is_same_name(line.name(), name) {
                push_members_up_to(alloc, &mut found, line.value(), most)?;
            }
        }
        Ok(found)
    }

    /// The first member of this name. No memory is taken.
    pub fn first_member(&self, name: &[u8]) -> Option<&[u8]>
        ensures { option_copied result ≡ slice_get (members_of self.now name.now) 0 }
    {
        if !self.may_have(name) {
            return None;
        }
        for line in &self.lines {
            if is_same_name(line.name(), name) {
                if let Some((member, _)) = next_member(line.value()) {
                    return Some(member);
                }
            }
        }
        None
    }
}

fn has_line(lines: &[Field], name: &[u8]) -> bool
    ensures { result ≡ has_field lines.now name.now }
{
    lines.iter().any(|line| is_same_name(line.name(), name))
}

fn count_lines(lines: &[Field], name: &[u8]) -> usize
    ensures { result ≡ line_count_of_name lines.now name.now }
{
    let mut n = 0;
    for line in lines {
        if is_same_name(line.name(), name) {
            n += 1;
        }
    }
    n
}

fn retain_others(lines: &mut Vec<Field>, name: &[u8])
    ensures { lines.new.items ≡ without_named lines.old.items name.now }
{
    lines.retain(|line| !is_same_name(line.name(), name));
}

fn combined_value(alloc: Global, lines: &[Field], name: &[u8]) -> Result<Option<Bytes>, AllocError>
    ensures { IfOk result (λ value. value ≡ combined_of lines.now name.now) }
{
    let mut text = Vec::new(alloc);
    let mut any = false;
    for line in lines {
        if is_same_name(line.name(), name) {
            if any {
                text.extend_from_slice(b", ")?;
            }
            text.extend_from_slice(line.value())?;
            any = true;
        }
    }
    Ok(if any {
        Some(Bytes::from_vec(text))
    } else {
        None
    })
}

/// Puts the members of one value at the end.
fn push_members(alloc: Global, found: &mut Members, value: &[u8]) -> Result<(), AllocError>
    ensures { OnOk result (found.new ≡ found.old ++ members_of_value value.now) }
{
    let mut rest = value;
    while let Some((member, behind)) = next_member(rest) {
        found.push(alloc, member)?;
        rest = behind;
    }
    Ok(())
}

/// Puts members of one value at the end, as long as there are fewer than so many.
fn push_members_up_to(
    alloc: Global,
    found: &mut Members,
    value: &[u8],
    most: usize,
) -> Result<(), AllocError>
    requires { length found.old ≤ most }
    ensures { OnOk result (found.new ≡ take most (found.old ++ members_of_value value.now)) }
{
    let mut rest = value;
    while found.len() < most {
        let Some((member, behind)) = next_member(rest) else {
            return Ok(());
        };
        found.push(alloc, member)?;
        rest = behind;
    }
    Ok(())
}
