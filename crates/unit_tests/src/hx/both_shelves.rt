//! The shelf with an index beside the shelf that is a list, through the same 5,000 calls: each gives the same of both,
//! and both weigh the same.

use super::entries::{entry_for, key};
use hx_fields::Fields;
use hx_store::{IndexedShelf, ListShelf, Serials, Shelf};
use std::alloc::{AllocError, Global};
use std::process::Abort;
use std::test::Fail;

const CALLS: u64 = 5_000;

const CAPACITY: u64 = 12;

/// More bytes than entries weigh of which there is room for.
const BYTES: u64 = 16_000;

/// One call.
#[derive(Clone, Copy)]
enum Call {
    Put(u64, u64),
    Freshen(u64),
    Promote(u64),
    Expire(u64),
    Remove(u64),
    Invalidate(u64),
    Find(u64),
    Shed(u64),
}

/// The path of an entry, by its serial.
fn path_of(serial: u64) -> &'static str {
    match serial % 7 {
        0 | 1 | 2 => "/a",
        3 | 4 => "/b",
        5 => "/c",
        _ => "/d",
    }
}

/// How many requests differ in what `entry_for` has its entries nominate.
const REQUESTS: u64 = 12;

/// One of several requests: a field absent, once, on two lines, or with their value on one; the other absent, present
/// or empty.
fn request(alloc: Global, n: u64) -> Result<Fields, AllocError> {
    let mut fields = Fields::new(alloc);
    fields.push(b"Host", b"h")?;
    match n % 4 {
        0 => {}
        1 => fields.push(b"Accept-Language", b"de")?,
        2 => {
            fields.push(b"accept-language", b"de")?;
            fields.push(b"Accept-Language", b"en")?;
        }
        _ => fields.push(b"Accept-Language", b"de, en")?,
    }
    match n / 4 % 3 {
        0 => {}
        1 => fields.push(b"Accept", b"text/html")?,
        _ => fields.push(b"Accept", b"")?,
    }
    Ok(fields)
}

/// The nth call, which is mostly about a serial of late.
fn nth_call(n: u64, dice: u64) -> Call {
    let serial = n.saturating_sub(dice / 16 % 24);
    match dice % 16 {
        0..=6 => Call::Put(n, serial),
        7 | 8 => Call::Freshen(serial),
        9 | 10 => Call::Promote(serial),
        11 => Call::Expire(serial),
        12 => Call::Remove(serial),
        13 => Call::Invalidate(serial),
        14 => Call::Shed(dice / 16 % BYTES),
        _ => Call::Find(serial),
    }
}

/// Puts an entry in place of two others, and gives the serial that is handed back.
fn put<S: Shelf>(alloc: Global, shelf: &mut S, serial: u64, replaced: u64) -> Result<u64, Fail> {
    let entry = entry_for(alloc, serial, path_of(serial), &request(alloc, serial)?)?;
    if shelf.contains(entry.serial) {
        return Err("a new serial".into());
    }
    match shelf.put(entry, &[replaced, serial]) {
        Ok(Some(evicted)) => Ok(evicted.serial),
        Ok(None) => Ok(0),
        Err(_) => Err("room for the entry".into()),
    }
}

/// Freshens the entry of a serial, where it is held, with other values of the request, and gives its serial.
fn freshen<S: Shelf>(alloc: Global, shelf: &mut S, serial: u64) -> Result<u64, Fail> {
    let entry = entry_for(alloc, serial, path_of(serial), &request(alloc, serial / 2)?)?;
    match shelf.peek(entry.serial) {
        Some(held) if held.key.is_same(&entry.key) => {}
        _ => return Ok(0),
    }
    if !shelf.contains(entry.serial) {
        return Err("a held serial".into());
    }
    Ok(shelf.freshen(entry).serial)
}

/// Serials, one behind the other in one number, behind what that is so far.
fn joined(sum: u64, serials: &Serials) -> u64 {
    let mut sum = sum;
    for serial in serials.as_slice() {
        sum = sum.wrapping_mul(6_007).wrapping_add(*serial);
    }
    sum.wrapping_mul(6_007)
}

/// What is found of a path, and of each request, in one number.
fn found<S: Shelf>(alloc: Global, shelf: &S, path: &str) -> Result<u64, AllocError> {
    let key = key(alloc, path)?;
    let mut sum = joined(u64::from(shelf.has_key(&key)), &shelf.find(alloc, &key)?);
    for n in 0..REQUESTS {
        let matching = shelf.find_matching_serials(alloc, &key, &request(alloc, n)?)?;
        sum = joined(sum, &matching);
    }
    Ok(sum)
}

/// Expires three entries, where they are held, and gives when those of late were expired, in one number.
fn expire<S: Shelf>(shelf: &mut S, serial: u64) -> u64 {
    shelf.expire(
        &[serial, serial.saturating_sub(3), serial.saturating_sub(1)],
        serial,
    );
    let mut sum = 0u64;
    for earlier in 0..12u64 {
        let expired = match shelf.peek(serial.saturating_sub(earlier)) {
            Some(entry) => entry.times.expired.unwrap_or(1),
            None => 2,
        };
        sum = sum.wrapping_mul(6_007).wrapping_add(expired);
    }
    sum
}

/// What a call answers, as a number.
fn answer<S: Shelf>(alloc: Global, shelf: &mut S, call: Call) -> Result<u64, Fail> {
    match call {
        Call::Put(serial, replaced) => put(alloc, shelf, serial, replaced),
        Call::Freshen(serial) => freshen(alloc, shelf, serial),
        Call::Promote(serial) => Ok(u64::from(shelf.promote(serial))),
        Call::Expire(serial) => Ok(expire(shelf, serial)),
        Call::Remove(serial) => match shelf.remove(serial) {
            Some(entry) => Ok(entry.serial),
            None => Ok(0),
        },
        Call::Invalidate(serial) => {
            let key = key(alloc, path_of(serial))?;
            Ok(shelf.invalidate(&key) as u64)
        }
        Call::Find(serial) => Ok(found(alloc, shelf, path_of(serial))?),
        Call::Shed(most) if most < BYTES => match shelf.evict_last_beyond_weight(most) {
            Some(entry) => Ok(entry.serial),
            None => Ok(0),
        },
        Call::Shed(_) => Err("a bound that is looked for".into()),
    }
}

/// Both answer the same, hold as many, and weigh as much.
fn agree(
    rt: &impl Abort,
    alloc: Global,
    (list, indexed): (&mut ListShelf, &mut IndexedShelf),
    call: Call,
) -> Result<(), Fail> {
    let of_list = answer(alloc, list, call)?;
    let of_indexed = answer(alloc, indexed, call)?;
    assert_eq!(rt; of_list, of_indexed);
    assert_eq!(rt; list.len(), indexed.len());
    assert_eq!(rt; list.weight(), indexed.weight());
    Ok(())
}

/// At the end as many are put as there is room for, so that the order of all that were held is seen.
#[test]
fn both_shelves_answer_alike(rt: HostRuntime) -> Result<(), Fail> {
    let alloc = rt.alloc();
    let mut list = ListShelf::new(alloc, CAPACITY as usize);
    let mut dice = 20_261_124u64;
    let mut indexed = IndexedShelf::seeded(alloc, CAPACITY as usize, dice)?;
    for n in 1..=CALLS {
        dice = dice
            .wrapping_mul(6_364_136_223_846_793_005)
            .wrapping_add(1_442_695_040_888_963_407);
        agree(
            &rt,
            alloc,
            (&mut list, &mut indexed),
            nth_call(n, dice >> 33),
        )?;
    }
    for n in CALLS + 1..=CALLS + CAPACITY {
        agree(&rt, alloc, (&mut list, &mut indexed), Call::Put(n, 0))?;
    }
    assert_eq!(rt; indexed.len(), indexed.capacity());
    Ok(())
}
