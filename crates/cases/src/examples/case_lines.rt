//! The lines of a case, each with the bytes that are indented behind it.

use super::form::{CaseFault, FormFault};
use crate::text::push_bytes;
use httpdate::HttpDate;
use std::alloc::{AllocError, Global};

/// A line of words, and the bytes behind it.
pub struct Entry<'a> {
    pub line: usize,
    pub words: &'a str,
    /// Whether indented lines stand behind it.
    pub has_bytes: bool,
    pub bytes: Vec<u8>,
}

// By hand, so that a scope that ends is one call to the prover and not the drop of each part.
impl Drop for Entry<'_> {
    fn drop(self) {
        let Entry {
            line: _,
            words: _,
            has_bytes: _,
            bytes: _,
        } = self;
    }
}

/// A decimal number without leading zeros.
pub fn number_of(text: &str) -> Result<u64, FormFault> {
    let is_decimal = text.bytes().all(|digit| digit.is_ascii_digit());
    let is_padded = text.len() > 1 && text.starts_with('0');
    match text.parse::<u64>() {
        Ok(number) if is_decimal && !is_padded => Ok(number),
        _ => Err(FormFault::Number),
    }
}

/// The date at the front of a text that stands behind `\{date `, and what follows it.
fn date_in(text: &str) -> Option<(HttpDate, &str)> {
    let (seconds, rest) = text.split_once('}')?;
    let seconds = number_of(seconds).ok()?;
    let date = HttpDate::from_unix_secs(seconds).ok()?;
    Some((date, rest))
}

/// Appends what a text spells in which dates may stand, `\{date SECONDS}`.
fn push_dated(bytes: &mut Vec<u8>, text: &str) -> Result<(), FormFault> {
    let mut rest = text;
    // Each turn takes a date.
    for _ in 0..text.len() {
        let Some((before, behind)) = rest.split_once("\\{date ") else {
            break;
        };
        // Where the backslash belongs to one in front of it, that one stands alone here, and is refused.
        push_bytes(bytes, before)?;
        let (date, behind) = date_in(behind).ok_or(FormFault::Date)?;
        bytes.extend_from_slice(&date.to_bytes())?;
        rest = behind;
    }
    push_bytes(bytes, rest)?;
    Ok(())
}

/// Appends a line of a table as it is, behind so many empty ones.
fn push_table_line(bytes: &mut Vec<u8>, text: &str, gap: usize) -> Result<(), AllocError> {
    for _ in 0..gap {
        bytes.push(b'\n')?;
    }
    bytes.extend_from_slice(text.as_bytes())?;
    bytes.push(b'\n')?;
    Ok(())
}

impl Entry<'_> {
    /// Takes an indented line, behind so many empty ones.
    fn take(&mut self, text: &str, gap: usize) -> Result<(), FormFault> {
        if self.words == "table" {
            let gap = if self.has_bytes { gap } else { 0 };
            push_table_line(&mut self.bytes, text, gap)?;
        } else {
            push_dated(&mut self.bytes, text)?;
        }
        self.has_bytes = true;
        Ok(())
    }
}

fn ends_blank(text: &str) -> bool {
    matches!(text.as_bytes().last(), Some(b' ' | b'\t' | b'\r'))
}

/// Takes a line that is neither empty nor a comment, behind so many empty ones.
fn take_line<'a>(
    entries: &mut Vec<Entry<'a>>,
    line: usize,
    text: &'a str,
    gap: usize,
) -> Result<(), FormFault> {
    if ends_blank(text) {
        return Err(FormFault::Blank);
    }
    if let Some(indented) = text.strip_prefix("    ") {
        return match entries.last_mut() {
            Some(entry) => entry.take(indented, gap),
            None => Err(FormFault::NoPlace),
        };
    }
    if text.starts_with(' ') || text.starts_with('\t') {
        return Err(FormFault::Indentation);
    }
    let entry = Entry {
        line,
        words: text,
        has_bytes: false,
        bytes: Vec::new(*entries.allocator()),
    };
    entries.push(entry).map_err(AllocError::from)?;
    Ok(())
}

/// The lines of words of a file.
pub fn entries(alloc: Global, file: &str) -> Result<Vec<Entry<'_>>, CaseFault> {
    let mut entries = Vec::new(alloc);
    let mut line = 0usize;
    let mut gap = 0usize;
    for text in file.split('\n') {
        line = line.saturating_add(1);
        if text.is_empty() {
            gap = gap.saturating_add(1);
        } else if !text.starts_with('#') {
            if let Err(fault) = take_line(&mut entries, line, text, gap) {
                return Err(CaseFault::Form(line, fault));
            }
            gap = 0;
        }
    }
    Ok(entries)
}
