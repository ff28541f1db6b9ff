//! The serials of one key, ascending, each beside the mark of its entry.
//!
//! Most keys have one serial, which stands in its place: a node of a map, of some 200 bytes, is
//! taken where there are more. A call costs the logarithm of how many there are, but that a list
//! costs what it lists.

ghost use Rattle.std.specs.Prelude.{◌≡◌, ◌∷◌, ◌==◌, nat_eq, nat_lt, [], length, IfOk, OnOk, OnErr, slice_get};
ghost use Rattle.std.specs.Map.{keys_of, remove_entry, set_value};
ghost use Rattle.std.specs.Ordering.{nat_cmp};
ghost use Rattle.std.specs.BTreeMap.{insert_entry, is_at};
ghost use Rattle.std.specs.HashSet.{contains};
ghost use Rattle.hx_store.specs.Index.{serials_that_may_match};

use crate::serial_list::Serials;
use hx_vary::{RequestValues, VariantMark};
use std::alloc::{AllocError, Global};
use std::collections::BTreeMap;
use std::marker::Model;

/// Serials and marks, of which callers see the list of pairs.
pub(crate) struct KeyMarks {
    /// The pair that stands alone.
    only: Option<(u64, VariantMark)>,
    /// The pairs where none stands alone.
    more: BTreeMap<u64, VariantMark>,
}

/// One call drops it, wherever that is.
impl Drop for KeyMarks {
    fn drop(self) {
        let KeyMarks { only: _, more: _ } = self;
    }
}

impl Model for KeyMarks {
    ghost use Rattle.std.specs.Prelude.{List, ℕ};
    ghost use Rattle.hx_store.specs.KeptMarks.{marks_of_one_or_map, MapIsEmptyBesideOneMark};
    ghost use Rattle.hx_vary.specs.declared.marks.VariantMark.{VariantMark};

    ghost Value = { List (ℕ × VariantMark) };

    ghost view = { λ m. marks_of_one_or_map m.only m.more.entries };

    ghost invariant = { λ m. MapIsEmptyBesideOneMark m.only m.more.entries };
}

impl KeyMarks {
    /// The list of one serial with its mark. Nothing is allocated.
    pub(crate) fn with_one_mark(alloc: Global, serial: u64, mark: VariantMark) -> KeyMarks
        ensures { result ≡ (serial, mark) ∷ [] }
    {
        KeyMarks {
            only: Some((serial, mark)),
            more: BTreeMap::new(alloc),
        }
    }

    /// Whether there is none.
    pub(crate) fn is_empty(&self) -> bool
        ensures { result ≡ (length self.now == 0) }
    {
        self.only.is_none() && self.more.is_empty()
    }

    /// The least serial.
    pub(crate) fn first(&self) -> Option<u64>
        ensures { result ≡ slice_get (keys_of self.now) 0 }
    {
        match self.only {
            Some((serial, _)) => Some(serial),
            None => least_serial(&self.more),
        }
    }

    /// The serials. Fails only where memory runs out.
    pub(crate) fn list(&self, alloc: Global) -> Result<Serials, AllocError>
        ensures { IfOk result (λ list. list ≡ keys_of self.now) }
    {
        match self.only {
            Some((serial, _)) => serials_of_one(alloc, serial),
            None => serials_of_map(alloc, &self.more),
        }
    }

    /// Whether there are several.
    pub(crate) fn has_several_serials(&self) -> bool
        ensures { result ≡ nat_lt 1 (length self.now) }
    {
        self.only.is_none() && self.more.len() > 1
    }

    /// The serials whose marks don't keep the request from matching. Fails only where memory runs out.
    pub(crate) fn list_possible_matches(
        &self,
        alloc: Global,
        asked: &RequestValues,
    ) -> Result<Serials, AllocError>
        ensures { IfOk result (λ list. list ≡ serials_that_may_match (contains nat_eq asked.now.tags) self.now) }
    {
        match &self.only {
            Some((serial, mark)) => possible_match_of_one(alloc, *serial, mark, asked),
            None => possible_matches_of(alloc, &self.more, asked),
        }
    }

    /// Puts a serial in with its mark. Where memory runs out nothing has changed.
    pub(crate) fn insert(
        &mut self,
        alloc: Global,
        serial: u64,
        mark: VariantMark,
    ) -> Result<(), AllocError>
        ensures ok { OnOk result (self.new ≡ insert_entry nat_cmp self.old serial mark) }
        ensures err { OnErr result (self.new ≡ self.old) }
    {
        if let Some((first, its)) = self.only {
            self.more = map_of_two(alloc, first, its, serial, mark)?;
            self.only = None;
            return Ok(());
        }
        insert_mark(&mut self.more, serial, mark)
    }

    /// Puts another mark beside a serial, if it stands here. Nothing is allocated.
    pub(crate) fn set_mark(&mut self, serial: u64, mark: VariantMark)
        ensures { self.new ≡ set_value (is_at (nat_cmp serial)) self.old mark }
    {
        match self.only {
            Some((first, its)) => {
                let kept = if first == serial { mark } else { its };
                self.only = Some((first, kept));
            }
            None => set_mark(&mut self.more, serial, mark),
        }
    }

    /// Takes a serial out, if it stands here. Nothing is allocated.
    pub(crate) fn remove(&mut self, serial: u64)
        ensures { self.new ≡ remove_entry (is_at (nat_cmp serial)) self.old }
    {
        match self.only {
            Some((first, _)) => {
                if first == serial {
                    self.only = None;
                }
            }
            None => remove_mark(&mut self.more, serial),
        }
    }
}

/// A map of two serials, or of one where they are the same.
fn map_of_two(
    alloc: Global,
    first: u64,
    its: VariantMark,
    serial: u64,
    mark: VariantMark,
) -> Result<BTreeMap<u64, VariantMark>, AllocError>
    ensures { IfOk result (λ marks. marks.entries ≡ insert_entry nat_cmp ((first, its) ∷ []) serial mark) }
{
    let mut marks = BTreeMap::new(alloc);
    marks.insert(first, its)?;
    marks.insert(serial, mark)?;
    Ok(marks)
}

/// Puts a serial in with its mark. Where memory runs out nothing has changed.
fn insert_mark(
    marks: &mut BTreeMap<u64, VariantMark>,
    serial: u64,
    mark: VariantMark,
) -> Result<(), AllocError>
    ensures ok { OnOk result (marks.new.entries ≡ insert_entry nat_cmp marks.old.entries serial mark) }
    ensures err { OnErr result (marks.new.entries ≡ marks.old.entries) }
{
    marks.insert(serial, mark)?;
    Ok(())
}

/// Puts another mark beside a serial, if it stands here.
fn set_mark(marks: &mut BTreeMap<u64, VariantMark>, serial: u64, mark: VariantMark)
    ensures { marks.new.entries ≡ set_value (is_at (nat_cmp serial)) marks.old.entries mark }
{
    if let Some(old) = marks.get_mut(&serial) {
        *old = mark;
    }
}

/// Takes a serial out, if it stands here.
fn remove_mark(marks: &mut BTreeMap<u64, VariantMark>, serial: u64)
    ensures { marks.new.entries ≡ remove_entry (is_at (nat_cmp serial)) marks.old.entries }
{
    marks.remove(&serial);
}

/// The least serial of a map.
fn least_serial(marks: &BTreeMap<u64, VariantMark>) -> Option<u64>
    ensures { result ≡ slice_get (keys_of marks.now.entries) 0 }
{
    match marks.first_key_value() {
        Some((serial, _)) => Some(*serial),
        None => None,
    }
}

/// One serial.
fn serials_of_one(alloc: Global, serial: u64) -> Result<Serials, AllocError>
    ensures { IfOk result (λ list. list ≡ serial ∷ []) }
{
    let mut list = Serials::with_capacity(alloc, 1)?;
    list.push(serial)?;
    Ok(list)
}

/// The serials of a map, in their order.
fn serials_of_map(alloc: Global, marks: &BTreeMap<u64, VariantMark>) -> Result<Serials, AllocError>
    ensures { IfOk result (λ list. list ≡ keys_of marks.now.entries) }
{
    let mut list = Serials::with_capacity(alloc, marks.len())?;
    for (serial, _) in marks {
        list.push(*serial)?;
    }
    Ok(list)
}

/// One serial, unless its mark keeps the request from matching.
fn possible_match_of_one(
    alloc: Global,
    serial: u64,
    mark: &VariantMark,
    asked: &RequestValues,
) -> Result<Serials, AllocError>
    ensures { IfOk result (λ list. list ≡ serials_that_may_match (contains nat_eq asked.now.tags)
        ((serial, mark.now) ∷ [])) }
{
    if asked.may_match(mark) {
        serials_of_one(alloc, serial)
    } else {
        Ok(Serials::new(alloc))
    }
}

/// The serials of a map whose marks may match these, in their order.
fn possible_matches_of(
    alloc: Global,
    marks: &BTreeMap<u64, VariantMark>,
    asked: &RequestValues,
) -> Result<Serials, AllocError>
    ensures { IfOk result (λ list. list ≡ serials_that_may_match (contains nat_eq asked.now.tags) marks.now.entries) }
{
    let mut list = Serials::new(alloc);
    for (serial, mark) in marks {
        if asked.may_match(mark) {
            list.push(*serial)?;
        }
    }
    Ok(list)
}
