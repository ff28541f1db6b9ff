//! The lines of a script.
ghost use Rattle.std.specs.Prelude.{◌≡◌};
ghost use Rattle.proxy_script.specs.ScriptLines.{moment_of_text, two_numbers_of_text, number_and_failure};
ghost use Rattle.proxy_script.specs.ScriptLines.{line_of_word_with_rest};
ghost use Rattle.proxy_script.specs.ScriptLines.{line_of_text};
ghost use Rattle.proxy_script.specs.ScriptLines.{is_config};

use crate::digits::number_of;
use crate::first_words::{Word, failure_of, word_of};
use hx_fields::{START_OF_YEAR_10000, split_at_first_byte};
use hx_status::FailKind;

/// The line of an item, with the length of the block that follows where one does.
#[derive(Clone, Copy)]
pub enum ItemLine {
    Config(u64),
    At(u64),
    Accept(u64),
    Client(u64, u64),
    Link(u64, u64),
    End(u64),
    Gone(u64),
    Retire(u64),
    Overdue(u64),
    Shut(u64),
    Fail(u64, FailKind),
}

fn moment_of_text(text: &[u8]) -> Option<u64>
    ensures { result ≡ moment_of_text text.now }
{
    match number_of(text) {
        Some(moment) if moment < START_OF_YEAR_10000 => Some(moment),
        _ => None,
    }
}

fn two_numbers_of_text(text: &[u8]) -> Option<(u64, u64)>
    ensures { result ≡ two_numbers_of_text text.now }
{
    let (first, second) = split_at_first_byte(b' ', text)?;
    let first = number_of(first)?;
    let second = number_of(second)?;
    Some((first, second))
}

fn number_and_failure(text: &[u8]) -> Option<(u64, FailKind)>
    ensures { result ≡ number_and_failure text.now }
{
    let (number, kind) = split_at_first_byte(b' ', text)?;
    let number = number_of(number)?;
    let kind = failure_of(kind)?;
    Some((number, kind))
}

/// What a line says behind its first word.
fn line_of_word_with_rest(word: Word, rest: &[u8]) -> Option<ItemLine>
    ensures { result ≡ line_of_word_with_rest word rest.now }
{
    Some(match word {
        Word::Config => ItemLine::Config(number_of(rest)?),
        Word::At => ItemLine::At(moment_of_text(rest)?),
        Word::Accept => ItemLine::Accept(number_of(rest)?),
        Word::Client => {
            let (n, len) = two_numbers_of_text(rest)?;
            ItemLine::Client(n, len)
        }
        Word::Link => {
            let (l, len) = two_numbers_of_text(rest)?;
            ItemLine::Link(l, len)
        }
        Word::End => ItemLine::End(number_of(rest)?),
        Word::Gone => ItemLine::Gone(number_of(rest)?),
        Word::Retire => ItemLine::Retire(number_of(rest)?),
        Word::Overdue => ItemLine::Overdue(number_of(rest)?),
        Word::Shut => ItemLine::Shut(number_of(rest)?),
        Word::Fail => {
            let (l, kind) = number_and_failure(rest)?;
            ItemLine::Fail(l, kind)
        }
    })
}

/// What a line says.
#[tactic(auto, unfolding(crate::specs::ScriptLines::line_of_text))]
pub fn line_of_text(line: &[u8]) -> Option<ItemLine>
    ensures { result ≡ line_of_text line.now }
{
    let (word, rest) = split_at_first_byte(b' ', line)?;
    let word = word_of(word)?;
    line_of_word_with_rest(word, rest)
}

/// Whether the line is that of the operator's table.
pub fn is_config(header: ItemLine) -> bool
    ensures { result ≡ is_config header }
{
    match header {
        ItemLine::Config(_) => true,
        _ => false,
    }
}
