//! The text of a script's items.

use hx_status::FailKind;
use proxy_script::{Happening, Item};
use std::alloc::AllocError;

/// The word of a link's failure in a script.
fn failure_word(kind: FailKind) -> &'static str {
    match kind {
        FailKind::Refused => "refused",
        FailKind::TimedOut => "timed-out",
        _ => "closed",
    }
}

/// Appends the words of an item, without its block and the length of that.
pub fn push_words(text: &mut String, item: Item<'_>) -> Result<(), AllocError> {
    match item {
        Item::Config(_) => text.push_str("config"),
        Item::At(moment) => write!(text, "at {moment}"),
        Item::Happens(Happening::Accept(n)) => write!(text, "accept {n}"),
        Item::Happens(Happening::Client(n, _)) => write!(text, "client {n}"),
        Item::Happens(Happening::Link(l, _)) => write!(text, "link {l}"),
        Item::Happens(Happening::End(n)) => write!(text, "end {n}"),
        Item::Happens(Happening::Gone(n)) => write!(text, "gone {n}"),
        Item::Happens(Happening::Retire(n)) => write!(text, "retire {n}"),
        Item::Happens(Happening::Overdue(n)) => write!(text, "overdue {n}"),
        Item::Happens(Happening::Shut(l)) => write!(text, "shut {l}"),
        Item::Happens(Happening::Fail(l, kind)) => write!(text, "fail {l} {}", failure_word(kind)),
    }
}

/// The block behind the line of an item, where one follows.
pub fn block_of(item: Item<'_>) -> Option<&[u8]> {
    match item {
        Item::Config(table) => Some(table),
        Item::Happens(Happening::Client(_, bytes)) => Some(bytes),
        Item::Happens(Happening::Link(_, bytes)) => Some(bytes),
        _ => None,
    }
}

/// Writes an item behind a script.
pub fn push_item(script: &mut Vec<u8>, item: Item<'_>) -> Result<(), AllocError> {
    let mut line = String::new(*script.allocator());
    push_words(&mut line, item)?;
    let block = block_of(item);
    if let Some(block) = block {
        write!(line, " {}\n", block.len())?;
    }
    script.extend_from_slice(line.as_bytes())?;
    script.extend_from_slice(block.unwrap_or(&[]))?;
    Ok(script.push(b'\n')?)
}
