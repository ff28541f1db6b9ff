//! Serials by the keys of their entries, ascending at each key, each beside the mark of its entry.
//!
//! A key is found by its hash, whatever is held, and a serial among those of its key by the
//! logarithm of how many they are.

ghost use Rattle.std.specs.Prelude.{◌≡◌, ◌==◌, [], not, length, option_copied, IfOk, OnOk, OnErr, slice_get};
ghost use Rattle.std.specs.Bool.{OnFalse, OnTrue};
ghost use Rattle.hx_target.specs.declared.keys.Key.{Key as StoreKey};
ghost use Rattle.std.specs.HashMap.{get, hasher_of};
ghost use Rattle.hx_target.specs.Keys.{same_key};
ghost use Rattle.std.specs.Ordering.{nat_cmp};
ghost use Rattle.hx_store.specs.Index.{serials_at_key_in_index, serials_and_marks_at, SerialMarkIsReplacedInIndex};
ghost use Rattle.hx_store.specs.Index.{SerialIsInsertedInIndex};
ghost use Rattle.hx_store.specs.Index.{SerialIsInsertedInIndexIf, SerialIsRemovedFromIndex, IsSameKeyIndex};
ghost use Rattle.hx_store.specs.Index.{IndexHasNoEmptyKey, IndexHasNoEmptyKeyExcept};

use crate::key_hashing::KeyHashing;
use crate::key_marks::KeyMarks;
use crate::serial_list::Serials;
use hx_target::Key;
use hx_vary::VariantMark;
use std::alloc::{AllocError, Global};
use std::collections::HashMap;

/// Serials by keys, of which none stands there without a serial.
pub(crate) struct KeyIndex {
    serials: HashMap<Key, KeyMarks, KeyHashing>,
}

/// One call drops it, wherever that is.
impl Drop for KeyIndex {
    fn drop(self) {
        let KeyIndex { serials: _ } = self;
    }
}

impl KeyIndex {
    /// No serials. Keys are hashed by the seed, so nobody who doesn't know it can choose keys of one hash.
    pub(crate) fn new(alloc: Global, seed: u64) -> KeyIndex
        ensures empty { (key : StoreKey) → serials_and_marks_at result key ≡ [] }
        ensures trim { IndexHasNoEmptyKey result }
        ensures seeded { (hasher_of result.serials).seed ≡ seed }
    {
        KeyIndex {
            serials: HashMap::with_hasher(alloc, KeyHashing::new(seed)),
        }
    }

    /// What stands at a key.
    pub(crate) fn at(&self, key: &Key) -> Option<&KeyMarks>
        ensures { option_copied result ≡ get same_key self.now.serials key.now }
    {
        self.serials.get(key)
    }

    /// The serials at a key, ascending. Fails only where memory runs out.
    pub(crate) fn find(&self, alloc: Global, key: &Key) -> Result<Serials, AllocError>
        ensures { IfOk result (λ found. found ≡ serials_at_key_in_index self.now key.now) }
    {
        match self.at(key) {
            Some(marks) => marks.list(alloc),
            None => Ok(Serials::new(alloc)),
        }
    }

    /// The first serial at a key.
    pub(crate) fn first(&self, key: &Key) -> Option<u64>
        ensures { result ≡ slice_get (serials_at_key_in_index self.now key.now) 0 }
    {
        match self.at(key) {
            Some(marks) => marks.first(),
            None => None,
        }
    }

    /// Whether a serial stands at a key.
    pub(crate) fn has(&self, key: &Key) -> bool
        ensures { result ≡ not (length (serials_at_key_in_index self.now key.now) == 0) }
    {
        self.first(key).is_some()
    }

    /// Puts a serial in at a key, with its mark. Out of memory changes nothing.
    pub(crate) fn insert(
        &mut self,
        alloc: Global,
        key: &Key,
        serial: u64,
        mark: VariantMark,
    ) -> Result<(), AllocError>
        ensures ok { OnOk result (SerialIsInsertedInIndex self.old key.now serial mark self.new) }
        ensures err { OnErr result (IsSameKeyIndex self.old self.new) }
        ensures trim { IndexHasNoEmptyKey self.old → IndexHasNoEmptyKey self.new }
    {
        if self.insert_beside(alloc, key, serial, mark)? {
            return Ok(());
        }
        let key = key.copy(alloc)?;
        self.serials
            .insert(key, KeyMarks::with_one_mark(alloc, serial, mark))?;
        Ok(())
    }

    /// Puts a serial in where its key has others, and says whether it has.
    fn insert_beside(
        &mut self,
        alloc: Global,
        key: &Key,
        serial: u64,
        mark: VariantMark,
    ) -> Result<bool, AllocError>
        ensures ok { IfOk result (λ has. SerialIsInsertedInIndexIf has self.old key.now serial mark self.new) }
        ensures err { OnErr result (IsSameKeyIndex self.old self.new) }
        ensures trim { IndexHasNoEmptyKey self.old → IndexHasNoEmptyKey self.new }
    {
        match self.serials.get_mut(key) {
            Some(marks) => {
                marks.insert(alloc, serial, mark)?;
                Ok(true)
            }
            None => Ok(false),
        }
    }

    /// Puts another mark beside a serial that stands at a key. Nothing is allocated.
    pub(crate) fn mark(&mut self, key: &Key, serial: u64, mark: VariantMark)
        ensures marked { SerialMarkIsReplacedInIndex self.old key.now serial mark self.new }
        ensures trim { IndexHasNoEmptyKey self.old → IndexHasNoEmptyKey self.new }
    {
        if let Some(marks) = self.serials.get_mut(key) {
            marks.set_mark(serial, mark);
        }
    }

    /// Takes a serial out at a key. Nothing is allocated.
    pub(crate) fn remove(&mut self, key: &Key, serial: u64)
        ensures taken { SerialIsRemovedFromIndex self.old key.now serial self.new }
        ensures trim { IndexHasNoEmptyKey self.old → IndexHasNoEmptyKey self.new }
    {
        if self.take_out(key, serial) {
            self.serials.remove(key);
        }
    }

    /// Takes a serial out at a key, and says whether it was the last there.
    fn take_out(&mut self, key: &Key, serial: u64) -> bool
        ensures taken { SerialIsRemovedFromIndex self.old key.now serial self.new }
        ensures emptied { OnTrue result (serials_and_marks_at self.new key.now ≡ []) }
        ensures trim_beside { IndexHasNoEmptyKey self.old → IndexHasNoEmptyKeyExcept key.now self.new }
        ensures trim { IndexHasNoEmptyKey self.old → OnFalse result (IndexHasNoEmptyKey self.new) }
    {
        match self.serials.get_mut(key) {
            Some(marks) => {
                marks.remove(serial);
                marks.is_empty()
            }
            None => false,
        }
    }
}
