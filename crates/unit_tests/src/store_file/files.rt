//! Files that are written and read whole, and a small one byte by byte as it has to stand.

use hx_age::Times;
use hx_directives::Directives;
use hx_fields::{Bytes, Fields};
use hx_store::{Entry, IndexedShelf, ListShelf, Shelf};
use hx_target::Key;
use hx_vary::{Nominated, Nomination};
use proxy_store_file::{StoreReadFault, read_store, write_and_empty_store};
use std::alloc::{AllocError, Global};
use std::process::Abort;
use std::test::Fail;

/// What an entry of these tests is made of.
pub(super) struct Given {
    pub(super) serial: u64,
    pub(super) host: &'static str,
    pub(super) port: u16,
    pub(super) path: &'static str,
    pub(super) status: u16,
    pub(super) language: Option<&'static str>,
    pub(super) content: usize,
    /// When a purge expired it.
    pub(super) purged: Option<u64>,
}

/// Three entries, in the order in which they are stored. A purge expired the second; the third is as long as one that
/// is shared.
pub(super) const GIVEN: [Given; 3] = [
    Given {
        serial: 4,
        host: "h",
        port: 80,
        path: "/a",
        status: 200,
        language: None,
        content: 0,
        purged: None,
    },
    Given {
        serial: 9,
        host: "other.example",
        port: 8080,
        path: "/b?q=1",
        status: 404,
        language: Some(""),
        content: 5,
        purged: Some(1_700_000_030),
    },
    Given {
        serial: 7,
        host: "h",
        port: 80,
        path: "/a",
        status: 203,
        language: Some("en, fr"),
        content: 40_000,
        purged: None,
    },
];

/// The serial behind those of the entries.
pub(super) const NEXT: u64 = 10;

fn request(alloc: Global, language: Option<&str>) -> Result<Fields, AllocError> {
    let mut request = Fields::new(alloc);
    if let Some(language) = language {
        request.push(b"Accept-Language", language.as_bytes())?;
    }
    Ok(request)
}

fn nominated(alloc: Global, fields: &Fields, language: Option<&str>) -> Result<Nominated, Fail> {
    let request = request(alloc, language)?;
    match Nominated::of(alloc, fields, &request)? {
        Nomination::Names(nominated) => Ok(nominated),
        Nomination::Star => Err("names".into()),
    }
}

/// Bytes that a content may have: each value, over and over.
fn content(alloc: Global, length: usize) -> Result<Bytes, AllocError> {
    let mut content = Vec::with_capacity(alloc, length)?;
    for i in 0..length {
        content.push((i % 256) as u8)?;
    }
    Ok(Bytes::shared_from_vec(alloc, content))
}

pub(super) fn entry(alloc: Global, given: &Given) -> Result<Entry, Fail> {
    let mut fields = Fields::new(alloc);
    fields.push(b"Vary", b"Accept-Language")?;
    fields.push(b"Cache-Control", b"max-age=60")?;
    fields.push(b"X-Empty", b"")?;
    Ok(Entry {
        serial: given.serial,
        key: Key {
            host: Bytes::copy_of(alloc, given.host.as_bytes())?,
            port: given.port,
            path_query: Bytes::copy_of(alloc, given.path.as_bytes())?,
        },
        nominated: nominated(alloc, &fields, given.language)?,
        status: given.status,
        directives: Directives::of(alloc, &fields)?,
        fields,
        content: content(alloc, given.content)?,
        times: Times {
            date: 1_700_000_000,
            age_value: 3,
            request_time: 1_700_000_001,
            response_time: 1_700_000_002,
            expired: given.purged,
        },
    })
}

pub(super) fn put<S: Shelf>(shelf: &mut S, entry: Entry) -> Result<(), Fail> {
    if shelf.contains(entry.serial) {
        return Err("a new serial".into());
    }
    match shelf.put(entry, &[]) {
        Ok(_) => Ok(()),
        Err(_) => Err("room for an entry".into()),
    }
}

/// Puts these entries into a shelf, in this order.
pub(super) fn filled<S: Shelf>(alloc: Global, shelf: &mut S, given: &[Given]) -> Result<(), Fail> {
    for one in given {
        put(shelf, entry(alloc, one)?)?;
    }
    Ok(())
}

/// The file of these entries.
pub(super) fn file(alloc: Global, given: &[Given]) -> Result<Vec<u8>, Fail> {
    let mut shelf = ListShelf::new(alloc, 9);
    filled(alloc, &mut shelf, given)?;
    let mut text = Vec::new(alloc);
    match write_and_empty_store(alloc, NEXT, &mut shelf, &mut text) {
        Ok(()) => Ok(text),
        Err(_) => Err("a store that is written".into()),
    }
}

/// Reads a file into a shelf of this capacity and of so many bytes, and says what it answered and how many are held.
pub(super) fn read(
    alloc: Global,
    text: &[u8],
    capacity: usize,
    most: Option<u64>,
) -> Result<(Result<u64, StoreReadFault>, usize), Fail> {
    if let Some(most) = most {
        if most == u64::MAX {
            return Err("a bound of these stores".into());
        }
    }
    let mut shelf = IndexedShelf::new(alloc, capacity)?;
    let mut rest = text;
    let result = read_store(alloc, most, &mut shelf, &mut rest);
    Ok((result, shelf.len()))
}

/// Lists of lines have the same lines.
fn have_same_lines(one: &Fields, other: &Fields) -> bool {
    let (one, other) = (one.as_slice(), other.as_slice());
    one.len() == other.len()
        && one.iter().zip(other).all(|(a, b)| { a.name() == b.name() && a.value() == b.value() })
}

/// An entry nominates the language that was given.
fn nominates(entry: &Entry, language: Option<&str>) -> bool {
    match entry.nominated.as_slice() {
        [kept] => match (&kept.value, language) {
            (Some(value), Some(language)) => value.as_slice() == language.as_bytes(),
            (None, None) => true,
            _ => false,
        },
        _ => false,
    }
}

/// An entry of the shelf is what was given.
fn holds<S: Shelf>(rt: &impl Abort, alloc: Global, shelf: &S, given: &Given) -> Result<(), Fail> {
    let wanted = entry(alloc, given)?;
    let Some(found) = shelf.peek(given.serial) else {
        return Err("an entry that was written".into());
    };
    assert!(rt; found.key.is_same(&wanted.key));
    assert_eq!(rt; found.status, wanted.status);
    assert!(rt; have_same_lines(&found.fields, &wanted.fields));
    assert!(rt; nominates(found, given.language));
    assert!(rt; found.content.as_slice() == wanted.content.as_slice());
    assert!(rt; found.times == wanted.times);
    Ok(())
}

/// Takes the entries out, the least recently used first, and compares their serials.
fn goes_in_order<S: Shelf>(rt: &impl Abort, shelf: &mut S, serials: &[u64]) {
    for serial in serials {
        assert!(rt;
            shelf
                .evict_last_beyond_weight(0)
                .is_some_and(|entry| entry.serial == *serial)
        );
    }
    assert_eq!(rt; shelf.len(), 0);
}

/// Writes three entries of which the first was used last, reads them, and compares what is held and its order.
fn comes_back<S: Shelf>(
    rt: &impl Abort,
    alloc: Global,
    old: &mut S,
    new: &mut S,
) -> Result<(), Fail> {
    filled(alloc, old, &GIVEN)?;
    assert!(rt; old.promote(4));
    let mut text = Vec::new(alloc);
    assert_eq!(rt; write_and_empty_store(alloc, NEXT, old, &mut text), Ok(()));
    assert_eq!(rt; old.len(), 0);
    if new.len() > 0 {
        return Err("an empty shelf".into());
    }
    let mut rest = text.as_slice();
    assert_eq!(rt; read_store(alloc, None, new, &mut rest), Ok(NEXT));
    assert_eq!(rt; rest.len(), 0);
    for given in &GIVEN {
        holds(rt, alloc, new, given)?;
    }
    goes_in_order(rt, new, &[9, 7, 4]);
    Ok(())
}

#[test]
fn a_store_is_read_as_it_was_written(rt: HostRuntime) -> Result<(), Fail> {
    let alloc = rt.alloc();
    let (mut old, mut new) = (ListShelf::new(alloc, 9), ListShelf::new(alloc, 3));
    comes_back(&rt, alloc, &mut old, &mut new)?;
    let (mut old, mut new) = (IndexedShelf::new(alloc, 9)?, IndexedShelf::new(alloc, 3)?);
    comes_back(&rt, alloc, &mut old, &mut new)
}
