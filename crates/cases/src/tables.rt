//! The operator's tables: whether a text is one, with a part changed or as it is, and what it says of requests.

use crate::case_file::Case;
use crate::lines::{Fault, Line, bytes_spelled, push_spelled};
use crate::parts::{lines_of, only_line};
use crate::policies::write_words;
use crate::requests::method_of;
use crate::targets::write_refused;
use crate::text::push_shown;
use http::Method;
use hx_allow::{MOST_LINES, Table, TableFault, Verdict};
use hx_fields::{Bytes, Fields};
use hx_target::{Target, read_target};
use std::alloc::{AllocError, Global};
use std::str;

fn write_fault(text: &mut String, fault: &TableFault) -> Result<(), AllocError> {
    match fault {
        TableFault::NotToml => text.push_str("NotToml"),
        TableFault::UnknownKey(key) => {
            text.push_str("UnknownKey ")?;
            push_shown(text, key.as_slice())
        }
        TableFault::BadName => text.push_str("BadName"),
        TableFault::BadNumber(key) => write!(text, "BadNumber {}", key.as_str()),
        TableFault::BadHost(line) => write!(text, "BadHost line {line}"),
        TableFault::BadMethod(line) => write!(text, "BadMethod line {line}"),
        TableFault::BadPath(line) => write!(text, "BadPath line {line}"),
        TableFault::BadOrigin(line) => write!(text, "BadOrigin line {line}"),
        TableFault::NoLines => text.push_str("NoLines"),
        TableFault::OutOfMemory => text.push_str("OutOfMemory"),
        TableFault::BadCache(line) => write!(text, "BadCache line {line}"),
        TableFault::BadWord(line, word) => write!(text, "BadWord line {line} {}", word.as_str()),
        TableFault::MethodInLowerCase(line) => write!(text, "MethodInLowerCase line {line}"),
        TableFault::StarInPath(line) => write!(text, "StarInPath line {line}"),
    }
}

/// Writes the names of a word that has a list, behind its key, a space in front and with commas.
fn write_names(text: &mut String, key: &str, names: &[Bytes]) -> Result<(), AllocError> {
    let mut front = "=";
    if !names.is_empty() {
        write!(text, " {key}")?;
    }
    for name in names {
        write!(
            text,
            "{front}{}",
            str::from_utf8(name.as_slice()).unwrap_or("-")
        )?;
        front = ",";
    }
    Ok(())
}

/// Writes the words of a line that aren't as without words in versions 1 to 3, each behind a space.
fn write_line_words(text: &mut String, config: &Table, line: u16) -> Result<(), AllocError> {
    write_words(text, config.line_policy(line))?;
    write_names(text, "session-cookies", config.session_cookies(line))?;
    write_names(text, "vary", config.vary(line))?;
    if config.refuses_loops(line) && !config.origin(line).is_empty() {
        text.push_str(" loops=refused")?;
    }
    if config.purges(line) {
        text.push_str(" purges")?;
    }
    if let Some(seconds) = config.origin_timeout(line) {
        write!(text, " origin-timeout={seconds}")?;
    }
    match config.wait_timeout(line) {
        None | Some(5) => Ok(()),
        Some(seconds) => write!(text, " wait-timeout={seconds}"),
    }
}

/// Tells that a table is read, and which of its lines have words or no cache.
fn write_read(text: &mut String, config: &Table) -> Result<(), AllocError> {
    text.push_str("read")?;
    for line in 1..=MOST_LINES {
        let mut words = String::new(*text.allocator());
        if usize::from(line) <= config.lines() {
            write_line_words(&mut words, config, line)?;
        }
        if !words.is_empty() {
            write!(text, ", line {line}{words}")?;
        }
    }
    Ok(())
}

/// Whether bytes are a table.
fn write_whether_table(text: &mut String, table: &[u8]) -> Result<(), AllocError> {
    match Table::read(*text.allocator(), table) {
        Ok(config) => write_read(text, &config),
        Err(fault) => write_fault(text, &fault),
    }
}

/// The text of these lines, each with its end.
pub fn text_of(alloc: Global, lines: &[Line<'_>]) -> Result<Vec<u8>, Fault> {
    let mut text = Vec::new(alloc);
    for line in lines {
        push_spelled(&mut text, *line, line.text)?;
        push_spelled(&mut text, *line, "\\n")?;
    }
    Ok(text)
}

/// Whether the case's lines are a table, in place of `…` in the front.
pub fn tables(text: &mut String, front: &[Line<'_>], case: &Case<'_>) -> Result<(), Fault> {
    let lines = lines_of(*text.allocator(), front, case)?;
    let table = text_of(*text.allocator(), lines.as_slice())?;
    Ok(write_whether_table(text, table.as_slice())?)
}

/// The text of bytes in UTF-8.
fn as_text<'a>(line: Line<'_>, bytes: &'a [u8]) -> Result<&'a str, Fault> {
    match str::from_utf8(bytes) {
        Ok(text) => Ok(text),
        Err(_) => Err(line.fault("no text in UTF-8")),
    }
}

fn table_with_replaced(
    alloc: Global,
    line: Line<'_>,
    table: &str,
    part: &str,
    new: &str,
) -> Result<String, Fault> {
    if table.contains(part) {
        Ok(table.replace(alloc, part, new)?)
    } else {
        Err(line.fault("the front has no such part"))
    }
}

/// Whether a table with a new text in place of a part is one. The parts are those of a line.
fn write_changed(
    text: &mut String,
    line: Line<'_>,
    table: &[u8],
    part: &[u8],
    new: &[u8],
) -> Result<(), Fault> {
    let table = as_text(line, table)?;
    let part = as_text(line, part)?;
    let new = as_text(line, new)?;
    let changed = table_with_replaced(*text.allocator(), line, table, part, new)?;
    Ok(write_whether_table(text, changed.as_bytes())?)
}

/// Whether the front is a table with a new text in place of a part: `PART => NEW`.
pub fn changed_tables(text: &mut String, front: &[Line<'_>], case: &Case<'_>) -> Result<(), Fault> {
    let line = only_line(&[], case)?;
    let Some((part, new)) = line.text.split_once(" => ") else {
        return Err(line.fault("no ` => ` between a part and what takes its place"));
    };
    let part = bytes_spelled(*text.allocator(), line, part)?;
    let new = bytes_spelled(*text.allocator(), line, new)?;
    let table = text_of(*text.allocator(), front)?;
    write_changed(
        text,
        line,
        table.as_slice(),
        part.as_slice(),
        new.as_slice(),
    )
}

/// The line that allows a request, its origin, and its words.
fn write_allowed(text: &mut String, config: &Table, line: u16) -> Result<(), AllocError> {
    write!(text, "allowed by line {line} to {}", config.origin(line))?;
    write_line_words(text, config, line)
}

fn write_verdict(
    text: &mut String,
    config: &Table,
    method: &Method,
    target: &Target,
    fields: &Fields,
) -> Result<(), AllocError> {
    match config.judge(method, target, fields) {
        Verdict::Allowed(route) => {
            write_allowed(text, config, route.number)?;
            if route.past_store {
                text.push_str(", past the store")?;
            }
            Ok(())
        }
        Verdict::DeniedBy(line) => write!(text, "denied by line {line}"),
        Verdict::NoLine => text.push_str("no line"),
        Verdict::Looped(line) => write!(text, "loop refused by line {line}"),
        Verdict::Purged(line) => write!(text, "purged by line {line}"),
    }
}

/// The method, the host and the target of a request.
fn request_in(text: &str) -> Option<(&str, &str, &str)> {
    let (method, rest) = text.split_once(' ')?;
    let (host, target) = rest.split_once(' ')?;
    Some((method, host, target))
}

fn host_line(alloc: Global, host: &str) -> Result<Fields, AllocError> {
    let mut fields = Fields::new(alloc);
    fields.push(b"Host", host.as_bytes())?;
    Ok(fields)
}

/// Appends the field lines that stand behind a request, each behind ` | `.
fn push_field_lines(fields: &mut Fields, text: &str) -> Result<(), AllocError> {
    let mut rest = text;
    for _line in 0..text.len() {
        let (text, behind) = rest.split_once(" | ").unwrap_or((rest, ""));
        let (name, value) = text.split_once(": ").unwrap_or((text, ""));
        fields.push(name.as_bytes(), value.as_bytes())?;
        if behind.is_empty() {
            break;
        }
        rest = behind;
    }
    Ok(())
}

fn write_verdict_in(text: &mut String, config: &Table, line: Line<'_>) -> Result<(), Fault> {
    let alloc = *text.allocator();
    let (request, more) = line.text.split_once(" | ").unwrap_or((line.text, ""));
    let Some((method, host, target)) = request_in(request) else {
        return Err(line.fault("no method, host and target"));
    };
    let method = method_of(alloc, line, method)?;
    let mut fields = host_line(alloc, host)?;
    let target = Bytes::copy_of(alloc, target.as_bytes())?;
    match read_target(alloc, &target, &fields) {
        Ok(target) => {
            push_field_lines(&mut fields, more)?;
            Ok(write_verdict(text, config, &method, &target, &fields)?)
        }
        Err(fault) => Ok(write_refused(text, fault)?),
    }
}

/// What the table of the front says of a request: `GET shop.example /cart`, with its further field lines behind:
/// `GET shop.example /cart | Via: 1.1 edge`.
pub fn verdicts(text: &mut String, front: &[Line<'_>], case: &Case<'_>) -> Result<(), Fault> {
    let line = only_line(&[], case)?;
    let table = text_of(*text.allocator(), front)?;
    match Table::read(*text.allocator(), table.as_slice()) {
        Ok(config) => write_verdict_in(text, &config, line),
        Err(_) => Err(line.fault("the group's front is no table")),
    }
}
