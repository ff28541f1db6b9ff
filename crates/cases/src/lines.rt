//! A case file as blocks: a head line at the left, and the indented lines below it.

use crate::text::push_bytes;
use std::alloc::{AllocError, Global};

/// How deep the lines below a head stand.
const INDENT: &str = "    ";

/// What is wrong with a case file, and in which line.
#[derive(Clone, Copy)]
pub enum Fault {
    /// The number of a line, from 1 on, and what is wrong with it.
    At(usize, &'static str),
    /// No memory.
    OutOfMemory,
}

impl From<AllocError> for Fault {
    fn from(_: AllocError) -> Fault {
        Fault::OutOfMemory
    }
}

/// A line of a case file: its number, from 1 on, and its text without the indent.
#[derive(Clone, Copy)]
pub struct Line<'a> {
    pub number: usize,
    pub text: &'a str,
}

impl<'a> Line<'a> {
    /// A fault of this line.
    pub fn fault(self, why: &'static str) -> Fault {
        Fault::At(self.number, why)
    }
}

/// A head line and the lines below it.
pub struct Block<'a> {
    pub head: Line<'a>,
    pub body: Vec<Line<'a>>,
}

// By hand, so that a scope that ends is one call to the prover and not the drop of each part.
impl Drop for Block<'_> {
    fn drop(self) {
        let Block { head: _, body: _ } = self;
    }
}

/// What a line of a case file is.
enum Kind<'a> {
    /// An empty line or a comment.
    Passed,
    Head,
    /// A line below a head, without its indent.
    Body(&'a str),
    Faulty(&'static str),
}

fn kind_of(text: &str) -> Kind<'_> {
    if let Some(text) = text.strip_prefix(INDENT) {
        return if text.ends_with(' ') || text.ends_with('\t') {
            Kind::Faulty("a blank at the end of a line, where editors drop it: write \\x20 or \\t")
        } else {
            Kind::Body(text)
        };
    }
    if text.is_empty() || text.starts_with('#') {
        Kind::Passed
    } else if text.starts_with(' ') || text.starts_with('\t') {
        Kind::Faulty("an indent that isn't four spaces")
    } else {
        Kind::Head
    }
}

fn push_body<'a>(blocks: &mut Vec<Block<'a>>, line: Line<'a>) -> Result<(), Fault> {
    match blocks.last_mut() {
        Some(block) => Ok(block.body.push(line).map_err(AllocError::from)?),
        None => Err(line.fault("an indented line with no line above it")),
    }
}

fn push_head<'a>(blocks: &mut Vec<Block<'a>>, head: Line<'a>) -> Result<(), AllocError> {
    let body = Vec::new(*blocks.allocator());
    Ok(blocks.push(Block { head, body })?)
}

fn push_line<'a>(blocks: &mut Vec<Block<'a>>, line: Line<'a>) -> Result<(), Fault> {
    match kind_of(line.text) {
        Kind::Passed => Ok(()),
        Kind::Head => Ok(push_head(blocks, line)?),
        Kind::Body(text) => push_body(
            blocks,
            Line {
                number: line.number,
                text,
            },
        ),
        Kind::Faulty(why) => Err(line.fault(why)),
    }
}

/// The blocks of a text.
pub fn blocks_of(alloc: Global, text: &str) -> Result<Vec<Block<'_>>, Fault> {
    let mut blocks = Vec::new(alloc);
    for (i, text) in text.lines().enumerate() {
        let number = i.saturating_add(1);
        push_line(&mut blocks, Line { number, text })?;
    }
    Ok(blocks)
}

/// Appends the bytes that a text in this line spells.
pub fn push_spelled(bytes: &mut Vec<u8>, line: Line<'_>, text: &str) -> Result<(), Fault> {
    match push_bytes(bytes, text) {
        Ok(()) => Ok(()),
        Err(fault) => Err(line.fault(fault.as_str())),
    }
}

/// The bytes that a text in this line spells.
pub fn bytes_spelled(alloc: Global, line: Line<'_>, text: &str) -> Result<Vec<u8>, Fault> {
    let mut bytes = Vec::new(alloc);
    push_spelled(&mut bytes, line, text)?;
    Ok(bytes)
}
