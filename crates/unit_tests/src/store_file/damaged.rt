//! Files that were cut, changed or made longer, of another version, or above a bound. None of them is read, and nothing
//! of one stays in the shelf.

use super::files::{GIVEN, NEXT, entry, file, filled, put, read};
use hx_store::ListShelf;
use proxy_store_file::{EntryPart, StoreReadFault, WriteFault, write_and_empty_store};
use std::alloc::Global;
use std::process::Abort;
use std::test::Fail;

/// The file is refused so, and the shelf is empty.
fn is_refused(
    rt: &impl Abort,
    alloc: Global,
    text: &[u8],
    fault: StoreReadFault,
) -> Result<(), Fail> {
    let (result, held) = read(alloc, text, 9, None)?;
    assert_eq!(rt; result, Err(fault));
    assert_eq!(rt; held, 0);
    Ok(())
}

/// Where the whole entries of the first file end, whose last is that of the second.
fn whole_entries(at: usize, first: usize, second: usize) -> u64 {
    if at >= second {
        2
    } else if at >= first {
        1
    } else {
        0
    }
}

#[test]
fn a_file_that_was_cut_is_short(rt: HostRuntime) -> Result<(), Fail> {
    let alloc = rt.alloc();
    let first = file(alloc, &GIVEN[..1])?.len().saturating_sub(8);
    let text = file(alloc, &GIVEN[..2])?;
    let second = text.len().saturating_sub(8);
    for at in 0..text.len() {
        let entries = whole_entries(at, first, second);
        is_refused(&rt, alloc, &text[..at], StoreReadFault::Short(entries))?;
    }
    assert_eq!(rt; read(alloc, text.as_slice(), 9, None)?, (Ok(NEXT), 2));
    Ok(())
}

fn turn_bit(text: &mut [u8], at: usize, bit: u8) {
    if let Some(byte) = text.get_mut(at) {
        *byte ^= bit;
    }
}

#[test]
fn a_file_of_which_a_bit_was_changed_is_refused(rt: HostRuntime) -> Result<(), Fail> {
    let alloc = rt.alloc();
    let mut text = file(alloc, &GIVEN[..2])?;
    for at in 0..text.len() {
        for bit in [1u8, 2, 4, 8, 16, 32, 64, 128] {
            turn_bit(text.as_mut_slice(), at, bit);
            let (result, held) = read(alloc, text.as_slice(), 9, None)?;
            assert!(rt; result.is_err() && held == 0, "bit {bit} of byte {at}");
            turn_bit(text.as_mut_slice(), at, bit);
        }
    }
    Ok(())
}

/// The file of two entries, in which bytes from a place on are these.
fn changed(alloc: Global, at: usize, bytes: &[u8]) -> Result<Vec<u8>, Fail> {
    let mut text = file(alloc, &GIVEN[..2])?;
    for (i, b) in bytes.iter().enumerate() {
        let place = at.saturating_add(i);
        if place < text.len() {
            text[place] = *b;
        }
    }
    Ok(text)
}

#[test]
fn the_earliest_fault_is_named(rt: HostRuntime) -> Result<(), Fail> {
    let alloc = rt.alloc();
    let refused = [
        (0, &b"R"[..], StoreReadFault::NotAStore),
        (15, b"2", StoreReadFault::Version),
        // The next serial is 9, which is that of the second entry.
        (17, &[0, 0, 0, 0, 0, 0, 0, 9], StoreReadFault::Serial(2)),
        // Ten entries follow.
        (25, &[0, 0, 0, 0, 0, 0, 0, 10], StoreReadFault::Entries),
        // The first head is longer than may be, or than the file.
        (
            33,
            &[0, 0, 0, 0, 0, 8, 0, 1],
            StoreReadFault::Entry(1, EntryPart::Head),
        ),
        (33, &[0, 0, 0, 0, 0, 8, 0, 0], StoreReadFault::Short(0)),
        // Its serial is 10, its status 1000.
        (41, &[0, 0, 0, 0, 0, 0, 0, 10], StoreReadFault::Serial(1)),
        (
            49,
            &[0, 0, 0, 0, 0, 0, 3, 232],
            StoreReadFault::Entry(1, EntryPart::Status),
        ),
        (
            49,
            &[0, 0, 0, 0, 0, 1, 0, 200],
            StoreReadFault::Entry(1, EntryPart::Head),
        ),
        // Its date has five digits of a year, its port is 0.
        (
            65,
            &[0, 0, 0, 59, 0, 0, 0, 0],
            StoreReadFault::Entry(1, EntryPart::Times),
        ),
        (
            97,
            &[0, 0, 0, 0, 0, 0, 0, 0],
            StoreReadFault::Entry(1, EntryPart::Key),
        ),
    ];
    for (at, bytes, fault) in refused {
        is_refused(&rt, alloc, changed(alloc, at, bytes)?.as_slice(), fault)?;
    }
    let mut longer = file(alloc, &GIVEN)?;
    longer.push(0)?;
    is_refused(&rt, alloc, longer.as_slice(), StoreReadFault::Long)
}

/// The file of two entries, of which the second was purged, and where the moment of that stands in it: in front of a
/// content of five bytes and of the digest.
fn with_purge(alloc: Global) -> Result<(Vec<u8>, usize), Fail> {
    let text = file(alloc, &GIVEN[..2])?;
    let at = text.len().saturating_sub(21);
    Ok((text, at))
}

#[test]
fn a_purge_that_cant_have_been_is_refused(rt: HostRuntime) -> Result<(), Fail> {
    let alloc = rt.alloc();
    let (mut text, at) = with_purge(alloc)?;
    assert!(rt; at <= text.len());
    assert!(rt; text[at..].starts_with(&[0, 0, 0, 0, 101, 83, 241, 30]));
    // Its year has five digits.
    text[at.saturating_add(3)] = 59;
    is_refused(
        &rt,
        alloc,
        text.as_slice(),
        StoreReadFault::Entry(2, EntryPart::Times),
    )?;
    // Behind the lines of the first stands one byte.
    let mut longer = file(alloc, &GIVEN[..2])?;
    assert!(rt; 40 < longer.len());
    longer[40] = longer[40].wrapping_add(1);
    is_refused(
        &rt,
        alloc,
        longer.as_slice(),
        StoreReadFault::Entry(1, EntryPart::Head),
    )
}

#[test]
fn a_store_above_a_bound_is_refused(rt: HostRuntime) -> Result<(), Fail> {
    let alloc = rt.alloc();
    let text = file(alloc, &GIVEN)?;
    let weights = (
        entry(alloc, &GIVEN[0])?.weight(),
        entry(alloc, &GIVEN[1])?.weight(),
    );
    let two = weights.0.saturating_add(weights.1);
    let all = two.saturating_add(entry(alloc, &GIVEN[2])?.weight());
    let bounds = [
        (3, Some(all), (Ok(NEXT), 3)),
        (
            3,
            Some(all.saturating_sub(1)),
            (Err(StoreReadFault::Weight(3)), 0),
        ),
        (
            3,
            Some(two.saturating_sub(1)),
            (Err(StoreReadFault::Weight(2)), 0),
        ),
        (3, Some(0), (Err(StoreReadFault::Weight(1)), 0)),
        (2, Some(all), (Err(StoreReadFault::Entries), 0)),
        (0, None, (Err(StoreReadFault::Entries), 0)),
    ];
    for (capacity, most, wanted) in bounds {
        assert_eq!(rt; read(alloc, text.as_slice(), capacity, most)?, wanted);
    }
    Ok(())
}

/// What writing answers of a store of two entries, of which the second has another status, and how many bytes went out.
fn written(alloc: Global, status: u16, next: u64) -> Result<(Result<(), WriteFault>, usize), Fail> {
    let mut shelf = ListShelf::new(alloc, 9);
    filled(alloc, &mut shelf, &GIVEN[..1])?;
    let mut second = entry(alloc, &GIVEN[1])?;
    second.status = status;
    put(&mut shelf, second)?;
    let mut text = Vec::new(alloc);
    let result = write_and_empty_store(alloc, next, &mut shelf, &mut text);
    Ok((result, text.len()))
}

#[test]
fn what_could_not_be_read_is_not_written(rt: HostRuntime) -> Result<(), Fail> {
    let alloc = rt.alloc();
    let first = file(alloc, &GIVEN[..1])?.len().saturating_sub(8);
    let faults = [
        (
            99,
            NEXT,
            Err(WriteFault::Entry(2, EntryPart::Status)),
            first,
        ),
        (200, 9, Err(WriteFault::Serial(2)), first),
        (200, 4, Err(WriteFault::Serial(1)), 33),
    ];
    for (status, next, result, length) in faults {
        assert_eq!(rt; written(alloc, status, next)?, (result, length));
    }
    Ok(())
}
