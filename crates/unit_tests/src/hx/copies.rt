//! Copies that the proxy itself doesn't make, so that no script shows that their memory is found.

use super::entries::entry;
use hx_store::{Entry, Serials};
use std::alloc::Global;
use std::test::Fail;

fn copied(alloc: Global) -> Result<Entry, Fail> {
    Ok(entry(alloc, 3, "/c")?.copy(alloc)?)
}

#[test]
fn entries_are_copied(rt: HostRuntime) -> Result<(), Fail> {
    let entry = copied(rt.alloc())?;
    assert_eq!(rt; entry.serial, 3);
    assert!(rt; entry.content.as_slice() == b"/c".as_slice());
    Ok(())
}

#[test]
fn serials_are_copied(rt: HostRuntime) -> Result<(), Fail> {
    let mut serials = Serials::new(rt.alloc());
    serials.push(4)?;
    assert_eq!(rt; serials.copy(rt.alloc())?.last(), Some(4));
    Ok(())
}
