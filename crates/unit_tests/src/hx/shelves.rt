//! A store of few entries, through each call.

use super::entries::{entry, key};
use hx_store::{IndexedShelf, ListShelf, Shelf, evict_to_weight};
use std::alloc::{AllocError, Global};
use std::process::Abort;
use std::test::Fail;

/// Puts an entry of a new serial in place of one of another serial, and gives the serial that is handed back.
fn put(
    alloc: Global,
    shelf: &mut ListShelf,
    (serial, path, replaced): (u64, &str, u64),
) -> Result<Option<u64>, Fail> {
    let entry = entry(alloc, serial, path)?;
    if shelf.contains(entry.serial) {
        return Err("a new serial".into());
    }
    match shelf.put(entry, &[replaced]) {
        Ok(Some(evicted)) => Ok(Some(evicted.serial)),
        Ok(None) => Ok(None),
        Err(_) => Err("room for the entry".into()),
    }
}

/// Putting these entries hands back the last of them that is given.
fn hands_back(
    rt: &impl Abort,
    alloc: Global,
    shelf: &mut ListShelf,
    puts: &[(u64, &str, u64)],
    serial: Option<u64>,
) -> Result<(), Fail> {
    let mut last = None;
    for one in puts {
        last = put(alloc, shelf, *one)?.or(last);
    }
    assert_eq!(rt; last, serial);
    Ok(())
}

#[test]
fn shelf_calls(rt: HostRuntime) -> Result<(), Fail> {
    let alloc = rt.alloc();
    let mut shelf = ListShelf::new(alloc, 2);
    let first = [(1, "/a", 0), (2, "/b", 0), (3, "/c", 2)];
    hands_back(&rt, alloc, &mut shelf, &first, None)?;
    hands_back(&rt, alloc, &mut shelf, &[(4, "/d", 0)], Some(1))?;
    assert!(rt; shelf.promote(3));
    assert!(rt; shelf.remove(9).is_none());
    hands_back(&rt, alloc, &mut shelf, &[(5, "/e", 0)], Some(4))
}

/// Freshens a held entry, and gives the serial of its old form.
fn freshen(alloc: Global, shelf: &mut ListShelf, serial: u64, path: &str) -> Result<u64, Fail> {
    let entry = entry(alloc, serial, path)?;
    if !shelf.contains(entry.serial) {
        return Err("a held serial".into());
    }
    match shelf.peek(entry.serial) {
        Some(held) => {
            if !held.key.is_same(&entry.key) {
                return Err("the key of the held entry".into());
            }
        }
        None => return Err("a held entry".into()),
    }
    Ok(shelf.freshen(entry).serial)
}

/// The serials of a path's entries.
fn are_found(
    rt: &impl Abort,
    alloc: Global,
    shelf: &ListShelf,
    path: &str,
    serials: &[u64],
) -> Result<(), AllocError> {
    let key = key(alloc, path)?;
    let found = shelf.find(alloc, &key)?;
    assert!(rt; found.as_slice() == serials);
    assert_eq!(rt; shelf.has_key(&key), !serials.is_empty());
    Ok(())
}

/// How many entries of a path are removed.
fn removed(alloc: Global, shelf: &mut ListShelf, path: &str) -> Result<usize, AllocError> {
    let key = key(alloc, path)?;
    Ok(shelf.invalidate(&key))
}

#[test]
fn entries_are_found_by_key(rt: HostRuntime) -> Result<(), Fail> {
    let alloc = rt.alloc();
    let mut shelf = ListShelf::new(alloc, 3);
    let puts = [(1, "/a", 0), (2, "/b", 0), (3, "/a", 0)];
    hands_back(&rt, alloc, &mut shelf, &puts, None)?;
    are_found(&rt, alloc, &shelf, "/a", &[1, 3])?;
    assert!(rt; freshen(alloc, &mut shelf, 1, "/a")? == 1);
    assert!(rt; removed(alloc, &mut shelf, "/a")? == 2);
    assert!(rt; shelf.len() == 1 && shelf.capacity() == 3);
    Ok(())
}

/// What an entry of such a path weighs: its content of 2 bytes, its lines of 27 and 23 with 4 more each, the names of
/// 15 and 6 that it nominates, host and path of 3 twice, and 1,200.
const ENTRY_WEIGHS: u64 = 1_287;

/// Sheds an entry where more than so many bytes are held, and gives its serial.
fn evict_last_beyond_weight<S: Shelf>(shelf: &mut S, most: u64) -> Result<Option<u64>, Fail> {
    if most > ENTRY_WEIGHS * 3 {
        return Err("a bound of these entries".into());
    }
    match shelf.evict_last_beyond_weight(most) {
        Some(entry) => Ok(Some(entry.serial)),
        None => Ok(None),
    }
}

/// Three entries are put into an empty store, and go again where they weigh too much, the least recently used first.
fn weighs_and_sheds<S: Shelf>(rt: &impl Abort, alloc: Global, shelf: &mut S) -> Result<(), Fail> {
    for (serial, path) in [(1, "/a"), (2, "/b"), (3, "/c")] {
        let entry = entry(alloc, serial, path)?;
        assert_eq!(rt; entry.weight(), ENTRY_WEIGHS);
        if shelf.contains(entry.serial) || shelf.put(entry, &[]).is_err() {
            return Err("room for a new entry".into());
        }
    }
    assert!(rt; shelf.promote(1));
    assert_eq!(rt; shelf.weight(), 3 * ENTRY_WEIGHS);
    assert_eq!(rt; evict_last_beyond_weight(shelf, 3 * ENTRY_WEIGHS)?, None);
    assert_eq!(rt;
        evict_last_beyond_weight(shelf, 3 * ENTRY_WEIGHS - 1)?,
        Some(2)
    );
    assert_eq!(rt; shelf.weight(), 2 * ENTRY_WEIGHS);
    evict_to_weight(shelf, ENTRY_WEIGHS);
    assert_eq!(rt; shelf.weight(), ENTRY_WEIGHS);
    assert_eq!(rt; evict_last_beyond_weight(shelf, 0)?, Some(1));
    assert_eq!(rt; evict_last_beyond_weight(shelf, 0)?, None);
    assert_eq!(rt; shelf.weight(), 0);
    Ok(())
}

#[test]
fn entries_weigh_and_are_shed(rt: HostRuntime) -> Result<(), Fail> {
    let alloc = rt.alloc();
    weighs_and_sheds(&rt, alloc, &mut ListShelf::new(alloc, 9))?;
    weighs_and_sheds(&rt, alloc, &mut IndexedShelf::new(alloc, 9)?)
}
