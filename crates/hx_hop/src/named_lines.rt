//! Which lines members of Connection name, where members and lines may be many.
//!
//! Names are looked up, so the cost grows with the bytes and not with members times lines. A member that begins as no
//! line's name does, or falls into none of their buckets, isn't looked up. Nor is mostly one whose name is marked
//! already: with its mark a name loses the signs that it alone shows. `close` is looked for in the same walk.
ghost use Rattle.std.specs.Prelude.{◌≡◌, ◌==◌, ◌||◌, not, ◌&&◌, codes, filter, nat_lt, length, bytes_eq, IfOk, OnOk};
ghost use Rattle.std.specs.Prelude.{◌<◌, ℕ, Bool, true, false, List, if◌then◌else◌, slice_set};
ghost use Rattle.std.specs.List.{list_any};
ghost use Rattle.std.specs.BTreeMap.{get};
ghost use Rattle.hx_fields.specs.FirstBytes.{first_byte_is_one_of, first_byte};
ghost use Rattle.hx_fields.specs.Folded.{folded, folded_names_cmp};
ghost use Rattle.hx_fields.specs.NameBuckets.{bucket_of_name, falls_in_marked_bucket};
ghost use Rattle.hx_fields.specs.FieldLines.{line_count_of_name, is_named};
ghost use Rattle.hx_fields.specs.Names.{members_of_value};
ghost use Rattle.hx_hop.specs.Stripping.{connection_has_option, is_hop_by_hop_name, stripped};
ghost use Rattle.hx_hop.specs.NamedLines.{AllSoughtNamesAreUnmarked, NamesThatPassAreMarked, is_present_and_marked};
ghost use Rattle.hx_hop.specs.NamedLines.{is_line_name_or_close, is_present_and_unmarked};
ghost use Rattle.hx_hop.specs.NamedLines.{connection_has_many_members};
ghost use Rattle.hx_hop.specs.NamedLines.{connection_has_folded_option, value_lists_folded_name};
ghost use Rattle.hx_hop.specs.NamedLines.{IsPrefilterOfNames, PrefilterPassesUnmarkedNames};

use crate::stripping::is_hop_by_hop_name;
use hx_fields::{
    Field, Fields, FirstBytes, FoldedName, NameBuckets, is_same_name,
    next_member_with_first_byte_in,
};
use std::alloc::{AllocError, Global};
use std::collections::BTreeMap;

/// A longer value of Connection, in bytes, has many members.
const MANY_BYTES: usize = 64;

/// Whether Connection may have so many members that they are to be looked up.
pub(crate) fn connection_has_many_members(fields: &Fields) -> bool
    ensures { result ≡ connection_has_many_members fields.now }
{
    match fields.count(b"Connection") {
        0 => false,
        1 => has_long_line(fields.as_slice()),
        _ => true,
    }
}

fn has_long_line(lines: &[Field]) -> bool
    ensures { result ≡ list_any (λ line. nat_lt 64 (length line.value) && is_named (codes "Connection") line) lines.now }
{
    lines.iter().any(|line| line.value().len() > MANY_BYTES
        && is_same_name(line.name(), b"Connection"))
}

/// What names begin with, and with which of these bytes more than one of them does.
#[derive(Drop)]
pub(crate) struct TakenAndSharedFirstBytes {
    taken: FirstBytes,
    shared: FirstBytes,
}

impl TakenAndSharedFirstBytes {
    /// Adds that of a name.
    fn add(&mut self, name: &[u8])
        ensures taken { self.new.taken ≡ slice_set self.old.taken (first_byte name.now) true }
        ensures within { first_byte name.now < length self.old.taken }
        ensures shared { self.new.shared ≡ (if first_byte_is_one_of self.old.taken name.now
            then slice_set self.old.shared (first_byte name.now) true else self.old.shared) }
        ensures inside { first_byte_is_one_of self.old.taken name.now ≡ true
            → first_byte name.now < length self.old.shared }
    {
        if self.taken.has_first_byte_of(name) {
            self.shared.add(name);
        }
        self.taken.add(name);
    }

    /// Takes out that of a name, where it isn't shared.
    fn remove(&mut self, name: &[u8])
        ensures taken { self.new.taken ≡ (if first_byte_is_one_of self.old.shared name.now
            then self.old.taken else slice_set self.old.taken (first_byte name.now) false) }
        ensures shared { self.new.shared ≡ self.old.shared }
    {
        if !self.shared.has_first_byte_of(name) {
            self.taken.remove(name);
        }
    }
}

/// The buckets into which names fall, and into which of them more than one does.
#[derive(Drop)]
pub(crate) struct NameBucketsAndCollisions {
    taken: NameBuckets,
    shared: NameBuckets,
}

impl NameBucketsAndCollisions {
    /// Adds that of a name.
    fn add(&mut self, name: &[u8])
        ensures taken { self.new.taken ≡ slice_set self.old.taken (bucket_of_name name.now) true }
        ensures within { bucket_of_name name.now < length self.old.taken }
        ensures shared { self.new.shared ≡ (if falls_in_marked_bucket self.old.taken name.now
            then slice_set self.old.shared (bucket_of_name name.now) true else self.old.shared) }
        ensures inside { falls_in_marked_bucket self.old.taken name.now ≡ true
            → bucket_of_name name.now < length self.old.shared }
    {
        if self.taken.add(name) {
            self.shared.add(name);
        }
    }

    /// Takes out that of a name, where it isn't shared.
    fn remove(&mut self, name: &[u8])
        ensures taken { self.new.taken ≡ (if falls_in_marked_bucket self.old.shared name.now
            then self.old.taken else slice_set self.old.taken (bucket_of_name name.now) false) }
        ensures shared { self.new.shared ≡ self.old.shared }
    {
        if !self.shared.has(name) {
            self.taken.remove(name);
        }
    }
}

/// What a text has to show to be one of some names.
#[derive(Drop)]
pub(crate) struct NamePrefilter {
    firsts: TakenAndSharedFirstBytes,
    buckets: NameBucketsAndCollisions,
}

impl NamePrefilter {
    /// Those of no name.
    fn none() -> NamePrefilter
        ensures { IsPrefilterOfNames (λ q. false) result }
    {
        NamePrefilter {
            firsts: TakenAndSharedFirstBytes {
                taken: FirstBytes::none(),
                shared: FirstBytes::none(),
            },
            buckets: NameBucketsAndCollisions {
                taken: NameBuckets::none(),
                shared: NameBuckets::none(),
            },
        }
    }

    /// Adds those of a name.
    fn add(&mut self, name: &[u8])
        ensures { (names : List ℕ → Bool) → IsPrefilterOfNames names self.old
            → IsPrefilterOfNames (λ q. names q || bytes_eq (folded name.now) q) self.new }
    {
        self.firsts.add(name);
        self.buckets.add(name);
    }

    /// Takes out those of a name, but for what another name shows as well.
    fn remove(&mut self, name: &[u8])
        ensures { (names : List ℕ → Bool) → names (folded name.now) ≡ true → IsPrefilterOfNames names self.old
            → IsPrefilterOfNames (λ q. names q && not (bytes_eq (folded name.now) q)) self.new }
    {
        self.firsts.remove(name);
        self.buckets.remove(name);
    }
}

/// The lines that go on, and whether a member of Connection is `close`.
#[derive(Drop)]
pub(crate) struct StrippedFields {
    pub(crate) fields: Fields,
    pub(crate) closes: bool,
}

/// What goes on. Its only error is out of memory.
pub(crate) fn strip_with_many_members(
    alloc: Global,
    fields: &Fields,
) -> Result<StrippedFields, AllocError>
    ensures lines { IfOk result (λ kept. kept.fields ≡ stripped fields.now) }
    ensures closes { IfOk result (λ kept. kept.closes ≡ connection_has_option fields.now (codes "close")) }
{
    let mut signs = NamePrefilter::none();
    let mut names = names_looked_for(alloc, &mut signs, fields)?;
    mark_members(alloc, &mut names, &mut signs, fields)?;
    let closes = is_present_and_marked(&names, &FoldedName::of(alloc, b"close")?);
    Ok(StrippedFields {
        fields: keep_unmarked(alloc, &names, fields)?,
        closes,
    })
}

/// The names of the lines and `close`, none of them marked yet, and their signs.
fn names_looked_for(
    alloc: Global,
    signs: &mut NamePrefilter,
    fields: &Fields,
) -> Result<BTreeMap<FoldedName, bool>, AllocError>
    requires { IsPrefilterOfNames (λ q. false) signs.old }
    ensures names { IfOk result (λ names. AllSoughtNamesAreUnmarked fields.now names) }
    ensures signs { OnOk result (IsPrefilterOfNames (is_line_name_or_close fields.now) signs.new) }
{
    let mut names = BTreeMap::new(alloc);
    names.insert(FoldedName::of(alloc, b"close")?, false)?;
    signs.add(b"close");
    for line in fields.as_slice() {
        let name = line.name();
        // A name that stands twice doesn't share its signs.
        if names.insert(FoldedName::of(alloc, name)?, false)?.is_none() {
            signs.add(name);
        }
    }
    Ok(names)
}

/// Marks the names that members of Connection give.
fn mark_members(
    alloc: Global,
    names: &mut BTreeMap<FoldedName, bool>,
    signs: &mut NamePrefilter,
    fields: &Fields,
) -> Result<(), AllocError>
    requires { PrefilterPassesUnmarkedNames signs.old names.old }
    ensures { OnOk result (NamesThatPassAreMarked (connection_has_folded_option fields.now) names.old names.new) }
{
    let mut name = FoldedName::new(alloc);
    for line in fields.as_slice() {
        if is_same_name(line.name(), b"Connection") {
            mark_value(alloc, names, signs, &mut name, line.value())?;
        }
    }
    Ok(())
}

/// Marks the names that members of one value give.
fn mark_value(
    alloc: Global,
    names: &mut BTreeMap<FoldedName, bool>,
    signs: &mut NamePrefilter,
    name: &mut FoldedName,
    value: &[u8],
) -> Result<(), AllocError>
    requires { PrefilterPassesUnmarkedNames signs.old names.old }
    ensures marked { OnOk result (NamesThatPassAreMarked (value_lists_folded_name value.now) names.old names.new) }
    ensures signs { OnOk result (PrefilterPassesUnmarkedNames signs.new names.new) }
{
    let mut rest = value;
    while let Some((member, behind)) = next_member_with_first_byte_in(rest, &signs.firsts.taken) {
        if signs.buckets.taken.has(member) {
            mark_member(alloc, names, signs, name, member)?;
        }
        rest = behind;
    }
    Ok(())
}

/// Marks the name that a member gives. Nothing shows its signs any more but for those of other names.
fn mark_member(
    alloc: Global,
    names: &mut BTreeMap<FoldedName, bool>,
    signs: &mut NamePrefilter,
    name: &mut FoldedName,
    member: &[u8],
) -> Result<(), AllocError>
    requires { PrefilterPassesUnmarkedNames signs.old names.old }
    ensures marked { OnOk result (NamesThatPassAreMarked (bytes_eq (folded member.now)) names.old names.new) }
    ensures signs { OnOk result (PrefilterPassesUnmarkedNames signs.new names.new) }
{
    name.set(member)?;
    if is_present_and_unmarked(names, name) {
        names.insert(FoldedName::of(alloc, member)?, true)?;
        signs.remove(member);
    }
    Ok(())
}

/// Whether a name is here and not marked.
fn is_present_and_unmarked(names: &BTreeMap<FoldedName, bool>, name: &FoldedName) -> bool
    ensures { result ≡ is_present_and_unmarked (get folded_names_cmp names.now name.now) }
{
    match names.get(name) {
        Some(is_marked) => !*is_marked,
        None => false,
    }
}

/// Whether a name is here and marked.
fn is_present_and_marked(names: &BTreeMap<FoldedName, bool>, name: &FoldedName) -> bool
    ensures { result ≡ is_present_and_marked (get folded_names_cmp names.now name.now) }
{
    match names.get(name) {
        Some(is_marked) => *is_marked,
        None => false,
    }
}

/// The lines whose names aren't marked, without those of the connection alone.
fn keep_unmarked(
    alloc: Global,
    names: &BTreeMap<FoldedName, bool>,
    fields: &Fields,
) -> Result<Fields, AllocError>
    ensures { IfOk result (λ kept. kept
        ≡ filter (λ line. not (is_hop_by_hop_name line.name || is_present_and_marked
        (get folded_names_cmp names.now (folded line.name))))
        fields.now) }
{
    let mut kept = Fields::with_capacity(alloc, fields.len())?;
    let mut name = FoldedName::new(alloc);
    for line in fields.as_slice() {
        name.set(line.name())?;
        if goes_on(names, &name, line) {
            kept.push_line(line.copy(alloc)?)?;
        }
    }
    Ok(kept)
}

/// Whether a line of this folded name goes on.
fn goes_on(names: &BTreeMap<FoldedName, bool>, name: &FoldedName, line: &Field) -> bool
    ensures { result
        ≡ not (is_hop_by_hop_name line.now.name || is_present_and_marked (get folded_names_cmp names.now name.now)) }
{
    !is_hop_by_hop_name(line.name()) && !is_present_and_marked(names, name)
}
