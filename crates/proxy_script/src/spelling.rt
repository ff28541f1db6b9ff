//! The text of an item: what `read_item` reads, written.
ghost use Rattle.std.specs.Prelude.{◌≡◌, ◌++◌, ◌∷◌, [], OnOk, IfOk};
ghost use Rattle.hx_status.specs.Refusals.{fail_kind_word};
ghost use Rattle.proxy_script.specs.ScriptLines.{word_text, word_of_line, text_behind_word, line_text};
ghost use Rattle.proxy_script.specs.Script.{model_of_item, line_of_item, block_of_item, item_spelling};

use crate::effect_list::push_number;
use crate::first_words::Word;
use crate::line_parser::ItemLine;
use crate::{Happening, Item};
use hx_status::FailKind;
use std::alloc::{AllocError, Global};

fn word_text(word: Word) -> &'static [u8]
    ensures { result.now ≡ word_text word }
{
    match word {
        Word::Config => b"config",
        Word::At => b"at",
        Word::Accept => b"accept",
        Word::Client => b"client",
        Word::Link => b"link",
        Word::End => b"end",
        Word::Gone => b"gone",
        Word::Retire => b"retire",
        Word::Overdue => b"overdue",
        Word::Shut => b"shut",
        Word::Fail => b"fail",
    }
}

fn kind_word(kind: FailKind) -> &'static [u8]
    ensures { result.now ≡ fail_kind_word kind }
{
    match kind {
        FailKind::Refused => b"refused",
        FailKind::TimedOut => b"timed-out",
        FailKind::Closed => b"closed",
        FailKind::BadAnswer => b"bad-answer",
        FailKind::TooLarge => b"too-large",
    }
}

fn word_of_line(header: ItemLine) -> Word
    ensures { result ≡ word_of_line header }
{
    match header {
        ItemLine::Config(_) => Word::Config,
        ItemLine::At(_) => Word::At,
        ItemLine::Accept(_) => Word::Accept,
        ItemLine::Client(_, _) => Word::Client,
        ItemLine::Link(_, _) => Word::Link,
        ItemLine::End(_) => Word::End,
        ItemLine::Gone(_) => Word::Gone,
        ItemLine::Retire(_) => Word::Retire,
        ItemLine::Overdue(_) => Word::Overdue,
        ItemLine::Shut(_) => Word::Shut,
        ItemLine::Fail(_, _) => Word::Fail,
    }
}

/// Writes a number, a space and another number.
fn push_two_numbers(text: &mut Vec<u8>, first: u64, second: u64) -> Result<(), AllocError>
    ensures { OnOk result (text.new.items ≡ text.old.items ++ text_behind_word (ItemLine.Client first second)) }
{
    push_number(text, first)?;
    text.push(b' ')?;
    push_number(text, second)
}

/// Writes what stands behind the first word of a line and its space.
fn push_text_behind_word(text: &mut Vec<u8>, header: ItemLine) -> Result<(), AllocError>
    ensures { OnOk result (text.new.items ≡ text.old.items ++ text_behind_word header) }
{
    match header {
        ItemLine::Config(len) => push_number(text, len),
        ItemLine::At(moment) => push_number(text, moment),
        ItemLine::Accept(n) => push_number(text, n),
        ItemLine::Client(n, len) => push_two_numbers(text, n, len),
        ItemLine::Link(l, len) => push_two_numbers(text, l, len),
        ItemLine::End(n) => push_number(text, n),
        ItemLine::Gone(n) => push_number(text, n),
        ItemLine::Retire(n) => push_number(text, n),
        ItemLine::Overdue(n) => push_number(text, n),
        ItemLine::Shut(l) => push_number(text, l),
        ItemLine::Fail(l, kind) => {
            push_number(text, l)?;
            text.push(b' ')?;
            text.extend_from_slice(kind_word(kind))
        }
    }
}

/// Writes a line, without its LF.
fn push_line(text: &mut Vec<u8>, header: ItemLine) -> Result<(), AllocError>
    ensures { OnOk result (text.new.items ≡ text.old.items ++ line_text header) }
{
    text.extend_from_slice(word_text(word_of_line(header)))?;
    text.push(b' ')?;
    push_text_behind_word(text, header)
}

/// The line of an item.
fn line_of_item(item: Item<'_>) -> ItemLine
    ensures { result ≡ line_of_item (model_of_item item.entry) }
{
    match item {
        Item::Config(table) => ItemLine::Config(table.len() as u64),
        Item::At(moment) => ItemLine::At(moment),
        Item::Happens(Happening::Accept(n)) => ItemLine::Accept(n),
        Item::Happens(Happening::Client(n, bytes)) => ItemLine::Client(n, bytes.len() as u64),
        Item::Happens(Happening::Link(l, bytes)) => ItemLine::Link(l, bytes.len() as u64),
        Item::Happens(Happening::End(n)) => ItemLine::End(n),
        Item::Happens(Happening::Gone(n)) => ItemLine::Gone(n),
        Item::Happens(Happening::Retire(n)) => ItemLine::Retire(n),
        Item::Happens(Happening::Overdue(n)) => ItemLine::Overdue(n),
        Item::Happens(Happening::Shut(l)) => ItemLine::Shut(l),
        Item::Happens(Happening::Fail(l, kind)) => ItemLine::Fail(l, kind),
    }
}

/// The bytes of a block, with its LF.
fn push_block(text: &mut Vec<u8>, bytes: &[u8]) -> Result<(), AllocError>
    ensures { OnOk result (text.new.items ≡ text.old.items ++ (bytes.now ++ 10 ∷ [])) }
{
    text.extend_from_slice(bytes)?;
    text.push(b'\n')?;
    Ok(())
}

/// Writes the block behind the line of an item, where one stands.
fn push_block_of(text: &mut Vec<u8>, item: Item<'_>) -> Result<(), AllocError>
    ensures { OnOk result (text.new.items ≡ text.old.items ++ block_of_item (model_of_item item.entry)) }
{
    match item {
        Item::Config(table) => push_block(text, table),
        Item::Happens(Happening::Client(_, bytes)) => push_block(text, bytes),
        Item::Happens(Happening::Link(_, bytes)) => push_block(text, bytes),
        _ => Ok(()),
    }
}

/// The text of an item, which `read_item` reads as that item. A moment is below 253402300800, and the kind of a link's
/// failure is one that can happen by itself. Its only error is out of memory.
pub fn item_text(alloc: Global, item: Item<'_>) -> Result<Vec<u8>, AllocError>
    ensures { IfOk result (λ text. text.items ≡ item_spelling (model_of_item item.entry)) }
{
    let mut text = Vec::new(alloc);
    push_line(&mut text, line_of_item(item))?;
    text.push(b'\n')?;
    push_block_of(&mut text, item)?;
    Ok(text)
}
