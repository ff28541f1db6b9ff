//! The item at the front of a script.
ghost use Rattle.std.specs.Prelude.{◌≡◌};
ghost use Rattle.std.specs.Option.{option_map};
ghost use Rattle.proxy_script.specs.ScriptLines.{line_of_text_if_allowed};
ghost use Rattle.proxy_script.specs.Happenings.{model_of_happening};
ghost use Rattle.proxy_script.specs.Script.{Found, Happens, leading_block, item_of_line, leading_item};
ghost use Rattle.proxy_script.specs.Script.{model_of_leading_item};
ghost use Rattle.proxy_script.specs.Script.{model_of_leading_block};

use crate::line_parser::{ItemLine, is_config, line_of_text};
use crate::{Happening, Item};
use hx_fields::split_at_first_byte;

/// What stands at the front of bytes.
#[derive(Clone, Copy)]
pub enum LeadingItemReading<'a> {
    /// An item, and what follows it.
    Found(Item<'a>, &'a [u8]),
    /// The bytes end inside a line or a block. At the end of a script that is a wrong line.
    Cut,
    /// A line that isn't of the grammar or doesn't stand here, or a block without its LF.
    Wrong,
}

/// What a block of this length is, where its LF follows it.
enum Block<'a> {
    Whole(&'a [u8], &'a [u8]),
    Cut,
    Wrong,
}

fn leading_block(len: u64, rest: &[u8]) -> Block<'_>
    ensures { model_of_leading_block result ≡ leading_block len rest.now }
{
    if rest.len() as u64 <= len {
        return Block::Cut;
    }
    let end = len as usize;
    if rest[end] != b'\n' {
        return Block::Wrong;
    }
    Block::Whole(&rest[..end], &rest[end + 1..])
}

fn front_with_happening<'a>(happening: Happening<'a>, rest: &'a [u8]) -> LeadingItemReading<'a>
    ensures { model_of_leading_item result ≡ Found (Happens (model_of_happening happening.entry)) rest.now }
{
    LeadingItemReading::Found(Item::Happens(happening), rest)
}

fn item_of_line(header: ItemLine, rest: &[u8]) -> LeadingItemReading<'_>
    ensures { model_of_leading_item result ≡ item_of_line header rest.now }
{
    match header {
        ItemLine::Config(len) => match leading_block(len, rest) {
            Block::Whole(table, rest) => LeadingItemReading::Found(Item::Config(table), rest),
            Block::Cut => LeadingItemReading::Cut,
            Block::Wrong => LeadingItemReading::Wrong,
        },
        ItemLine::At(moment) => LeadingItemReading::Found(Item::At(moment), rest),
        ItemLine::Accept(n) => front_with_happening(Happening::Accept(n), rest),
        ItemLine::Client(n, len) => match leading_block(len, rest) {
            Block::Whole(bytes, rest) => front_with_happening(Happening::Client(n, bytes), rest),
            Block::Cut => LeadingItemReading::Cut,
            Block::Wrong => LeadingItemReading::Wrong,
        },
        ItemLine::Link(l, len) => match leading_block(len, rest) {
            Block::Whole(bytes, rest) => front_with_happening(Happening::Link(l, bytes), rest),
            Block::Cut => LeadingItemReading::Cut,
            Block::Wrong => LeadingItemReading::Wrong,
        },
        ItemLine::End(n) => front_with_happening(Happening::End(n), rest),
        ItemLine::Gone(n) => front_with_happening(Happening::Gone(n), rest),
        ItemLine::Retire(n) => front_with_happening(Happening::Retire(n), rest),
        ItemLine::Overdue(n) => front_with_happening(Happening::Overdue(n), rest),
        ItemLine::Shut(l) => front_with_happening(Happening::Shut(l), rest),
        ItemLine::Fail(l, kind) => front_with_happening(Happening::Fail(l, kind), rest),
    }
}

/// What a line says, where an item of its kind stands here: the table first, and first alone.
fn line_of_text_if_allowed(first: bool, line: &[u8]) -> Option<ItemLine>
    ensures { result ≡ line_of_text_if_allowed first line.now }
{
    match line_of_text(line) {
        Some(header) => {
            if is_config(header) == first {
                Some(header)
            } else {
                None
            }
        }
        None => None,
    }
}

/// The item at the front of the bytes of a script; the first one is the operator's table, and no other is.
#[tactic(auto, unfolding(crate::specs::Script::leading_item))]
pub fn read_item(first: bool, bytes: &[u8]) -> LeadingItemReading<'_>
    ensures { model_of_leading_item result ≡ leading_item first bytes.now }
{
    match split_at_first_byte(b'\n', bytes) {
        None => LeadingItemReading::Cut,
        Some((line, rest)) => match line_of_text_if_allowed(first, line) {
            None => LeadingItemReading::Wrong,
            Some(header) => item_of_line(header, rest),
        },
    }
}
