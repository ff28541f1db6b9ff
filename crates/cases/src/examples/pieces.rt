//! A script in which everything comes one byte at a time.

use proxy_script::{Happening, Item, LeadingItemReading, read_item};
use std::alloc::{AllocError, Global};

fn push_bytes(
    script: &mut Vec<u8>,
    word: &str,
    number: u64,
    bytes: &[u8],
) -> Result<(), AllocError> {
    let alloc = *script.allocator();
    let line = format!(in alloc; "{word} {number} 1\n")?;
    for byte in bytes {
        script.extend_from_slice(line.as_bytes())?;
        script.push(*byte)?;
        script.push(b'\n')?;
    }
    Ok(())
}

/// The script with the bytes of each client and link in blocks of one byte. An empty block stays, and from the first
/// item that can't be read on all is as it was.
pub fn byte_by_byte(alloc: Global, script: &[u8]) -> Result<Vec<u8>, AllocError> {
    let mut pieces = Vec::new(alloc);
    let mut rest = script;
    let mut first = true;
    // Each item has a byte at least.
    for _ in 0..script.len() {
        let LeadingItemReading::Found(item, more) = read_item(first, rest) else {
            break;
        };
        match item {
            Item::Happens(Happening::Client(n, bytes)) if !bytes.is_empty() => {
                push_bytes(&mut pieces, "client", n, bytes)?;
            }
            Item::Happens(Happening::Link(l, bytes)) if !bytes.is_empty() => {
                push_bytes(&mut pieces, "link", l, bytes)?;
            }
            _ => pieces.extend_from_slice(&rest[..rest.len().saturating_sub(more.len())])?,
        }
        rest = more;
        first = false;
    }
    pieces.extend_from_slice(rest)?;
    Ok(pieces)
}
