//! Readers and writers that give and take few bytes at a time, are interrupted or fail.

use super::files::{GIVEN, NEXT, file, filled};
use crate::failing_streams::{Sink, Source};
use hx_store::{IndexedShelf, Shelf};
use proxy_store_file::{StoreReadFault, WriteFault, read_store, write_and_empty_store};
use std::alloc::Global;
use std::io::ErrorKind;
use std::test::Fail;

/// How a file is read that fails at a call, how many entries are held then, and how many calls are left.
fn read_from(
    alloc: Global,
    text: &[u8],
    (most, calls, kind): (usize, u64, ErrorKind),
) -> Result<(Result<u64, StoreReadFault>, usize, u64), Fail> {
    let mut source = Source {
        bytes: text,
        most,
        calls,
        kind,
    };
    let mut shelf = IndexedShelf::new(alloc, 9)?;
    let result = read_store(alloc, None, &mut shelf, &mut source);
    Ok((result, shelf.len(), source.calls))
}

#[test]
fn a_reader_fails_at_each_of_its_calls(rt: HostRuntime) -> Result<(), Fail> {
    let alloc = rt.alloc();
    let text = file(alloc, &GIVEN[..2])?;
    for most in [1, 7, 100_000] {
        // So many calls are made where none fails.
        let (result, held, left) = read_from(
            alloc,
            text.as_slice(),
            (most, 9_999, ErrorKind::Other),
        )?;
        assert_eq!(rt; (result, held), (Ok(NEXT), 2));
        let made = 9_999u64.saturating_sub(left);
        assert!(rt; made >= 9);
        for calls in 0..made {
            let (result, held, _) = read_from(
                alloc,
                text.as_slice(),
                (most, calls, ErrorKind::Other),
            )?;
            assert_eq!(rt; (result, held), (Err(StoreReadFault::Read), 0));
            let (result, held, _) = read_from(
                alloc,
                text.as_slice(),
                (most, calls, ErrorKind::Interrupted),
            )?;
            assert_eq!(rt; (result, held), (Ok(NEXT), 2));
        }
    }
    Ok(())
}

/// How a store is written to a sink that fails at a call, what it took, and how many calls are left.
fn written_to(
    alloc: Global,
    (most, calls, kind): (usize, u64, ErrorKind),
) -> Result<(Result<(), WriteFault>, Vec<u8>, u64), Fail> {
    let mut shelf = IndexedShelf::new(alloc, 9)?;
    filled(alloc, &mut shelf, &GIVEN[..2])?;
    let mut sink = Sink {
        text: Vec::new(alloc),
        most,
        calls,
        kind,
    };
    let result = write_and_empty_store(alloc, NEXT, &mut shelf, &mut sink);
    Ok((result, sink.text, sink.calls))
}

#[test]
fn a_writer_fails_at_each_of_its_calls(rt: HostRuntime) -> Result<(), Fail> {
    let alloc = rt.alloc();
    let whole = file(alloc, &GIVEN[..2])?;
    for most in [1, 7, 100_000] {
        let (result, text, left) = written_to(alloc, (most, 9_999, ErrorKind::Other))?;
        assert_eq!(rt; result, Ok(()));
        assert!(rt; text.as_slice() == whole.as_slice());
        for calls in 0..9_999u64.saturating_sub(left) {
            let (result, text, _) = written_to(alloc, (most, calls, ErrorKind::Other))?;
            assert_eq!(rt; result, Err(WriteFault::Write));
            assert!(rt; text.len() < whole.len() && whole.starts_with(text.as_slice()));
            let (result, text, _) = written_to(alloc, (most, calls, ErrorKind::Interrupted))?;
            assert_eq!(rt; result, Ok(()));
            assert!(rt; text.as_slice() == whole.as_slice());
        }
    }
    let (result, text, _) = written_to(alloc, (0, 9, ErrorKind::Other))?;
    assert_eq!(rt; (result, text.len()), (Err(WriteFault::Write), 0));
    Ok(())
}
