//! A text that spells given bytes.

use std::alloc::AllocError;

/// A run of more equal bytes is shown as a repeat.
const LONG_RUN: usize = 100;

fn push_byte(text: &mut String, byte: u8) -> Result<(), AllocError> {
    match byte {
        b'\\' => text.push_str("\\\\"),
        b'\r' => text.push_str("\\r"),
        b'\n' => text.push_str("\\n"),
        b'\t' => text.push_str("\\t"),
        b' '..=b'~' => text.push(char::from(byte)),
        _ => write!(text, "\\x{byte:02x}"),
    }
}

/// How many bytes at the front are equal.
fn run_of(bytes: &[u8], first: u8) -> usize {
    let mut count = 0usize;
    for byte in bytes {
        if *byte != first {
            break;
        }
        count = count.saturating_add(1);
    }
    count
}

fn behind(bytes: &[u8], count: usize) -> &[u8] {
    bytes.get(count..).unwrap_or(&[])
}

fn push_run(text: &mut String, byte: u8, times: usize) -> Result<(), AllocError> {
    text.push_str("\\{")?;
    match byte {
        b'}' => text.push_str("\\x7d")?,
        _ => push_byte(text, byte)?,
    }
    write!(text, "*{times}")?;
    text.push('}')
}

/// Appends a text that spells the bytes: printable ASCII as it is, `↵` for CR LF, and escapes for all else.
pub fn push_shown(text: &mut String, bytes: &[u8]) -> Result<(), AllocError> {
    let mut rest = bytes;
    // Each turn takes a byte.
    for _ in 0..bytes.len() {
        let Some(first) = rest.first().copied() else {
            break;
        };
        let run = run_of(rest, first);
        if run > LONG_RUN {
            push_run(text, first, run)?;
            rest = behind(rest, run);
        } else if rest.starts_with(b"\r\n") {
            text.push('↵')?;
            rest = behind(rest, 2);
        } else {
            push_byte(text, first)?;
            rest = behind(rest, 1);
        }
    }
    Ok(())
}
