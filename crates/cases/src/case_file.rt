//! A case file: what it plays, its groups and its cases.

use crate::driver::{Driver, write_answer};
use crate::lines::{Block, Fault, Line, blocks_of, push_spelled};
use std::alloc::Global;

/// A case: its label and its input.
#[derive(Clone, Copy)]
pub struct Case<'a> {
    pub label: Line<'a>,
    /// The indented lines, or where there are none the label.
    pub input: &'a [Line<'a>],
}

/// Appends what the lines spell, with nothing between them.
pub fn push_lines(bytes: &mut Vec<u8>, lines: &[Line<'_>]) -> Result<(), Fault> {
    for line in lines {
        push_spelled(bytes, *line, line.text)?;
    }
    Ok(())
}

/// What a group's front and a case spell: the case stands in place of `…`. Without a front it is the case alone.
pub fn stream_of(alloc: Global, front: &[Line<'_>], case: &Case<'_>) -> Result<Vec<u8>, Fault> {
    let mut bytes = Vec::new(alloc);
    let mut placed = front.is_empty();
    if placed {
        push_lines(&mut bytes, case.input)?;
    }
    for line in front {
        match line.text.split_once('…') {
            Some(_) if placed => return Err(line.fault("a second … in the group's front")),
            Some((before, behind)) => {
                push_spelled(&mut bytes, *line, before)?;
                push_lines(&mut bytes, case.input)?;
                push_spelled(&mut bytes, *line, behind)?;
                placed = true;
            }
            None => push_spelled(&mut bytes, *line, line.text)?,
        }
    }
    if placed {
        Ok(bytes)
    } else {
        Err(case.label.fault("the group's front has no … for its cases"))
    }
}

/// Plays a case behind its group's front, and tells whether its answer is the one that is expected. Another is told in
/// a line of the report.
fn judge(
    report: &mut String,
    name: &str,
    driver: Driver,
    front: &[Line<'_>],
    case: &Case<'_>,
    answer: &str,
) -> Result<bool, Fault> {
    let mut got = String::new(*report.allocator());
    write_answer(&mut got, driver, front, case)?;
    if got.as_str() == answer {
        return Ok(true);
    }
    let (number, label) = (case.label.number, case.label.text);
    write!(
        report,
        "{name}:{number} {label}: expected {answer}, got {got}\n"
    )?;
    Ok(false)
}

/// The same of the case of a block.
fn holds(
    report: &mut String,
    name: &str,
    driver: Driver,
    front: &[Line<'_>],
    block: &Block<'_>,
) -> Result<bool, Fault> {
    let Some((text, answer)) = block.head.text.split_once(" -> ") else {
        return Err(block.head.fault("neither a [group] nor a case with ` -> `"));
    };
    let number = block.head.number;
    let label = Line { number, text };
    let input = block.body.as_slice();
    if input.is_empty() {
        let input = [label];
        let input = input.as_slice();
        return judge(
            report,
            name,
            driver,
            front,
            &Case { label, input },
            answer.trim(),
        );
    }
    judge(
        report,
        name,
        driver,
        front,
        &Case { label, input },
        answer.trim(),
    )
}

/// A group can end, the one that begins with the block at a place: it has to have cases. The first block is none.
fn end_group(blocks: &[Block<'_>], group: usize, has_cases: bool) -> Result<(), Fault> {
    match blocks.get(group) {
        Some(block) if group > 0 && !has_cases => Err(block.head.fault("a group without cases")),
        _ => Ok(()),
    }
}

/// Whether a block begins a group. A case whose label begins with a bracket does neither.
fn begins_group(head: Line<'_>) -> Result<bool, Fault> {
    if !head.text.starts_with('[') {
        return Ok(false);
    }
    if head.text.ends_with(']') && !head.text.contains(" -> ") {
        return Ok(true);
    }
    Err(head.fault("a bracket at the left, and no name of a group: write \\x5b in a label"))
}

/// What the first block says is played.
fn driver_of(block: Option<&Block<'_>>) -> Result<Driver, Fault> {
    let Some(block) = block else {
        return Err(Fault::At(1, "an empty file"));
    };
    match block
        .head
        .text
        .strip_prefix("play ")
        .and_then(Driver::named)
    {
        Some(driver) if block.body.is_empty() => Ok(driver),
        _ => Err(block.head.fault("not `play` with what is played")),
    }
}

/// Plays all cases of a text, the file of this name, and tells how many hold and how many don't.
pub fn play_text(
    alloc: Global,
    name: &str,
    text: &str,
    report: &mut String,
) -> Result<(usize, usize), Fault> {
    let blocks = blocks_of(alloc, text)?;
    let driver = driver_of(blocks.first())?;
    let (mut hold, mut differ) = (0usize, 0usize);
    // The last block that begins a group, and whether a case stands behind it.
    let (mut group, mut has_cases) = (0usize, false);
    let mut place = 0usize;
    for block in blocks.iter().skip(1) {
        place = place.saturating_add(1);
        if begins_group(block.head)? {
            end_group(blocks.as_slice(), group, has_cases)?;
            group = place;
            has_cases = false;
            continue;
        }
        has_cases = true;
        let Some(begun) = blocks.get(group) else {
            break;
        };
        if holds(report, name, driver, begun.body.as_slice(), block)? {
            hold = hold.saturating_add(1);
        } else {
            differ = differ.saturating_add(1);
        }
    }
    end_group(blocks.as_slice(), group, has_cases)?;
    if hold == 0 && differ == 0 {
        return Err(Fault::At(1, "a file without cases"));
    }
    Ok((hold, differ))
}
