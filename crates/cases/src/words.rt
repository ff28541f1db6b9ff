//! What answers are written with: the names of faults, and bytes as a text.

use crate::text::push_shown;
use hx_framing::FrameFault;
use hx_status::FailKind;
use hx_target::TargetFault;
use std::alloc::AllocError;

/// What stands beside a name in a table.
pub fn named<T: Copy>(table: &[(&str, T)], name: &str) -> Option<T> {
    for (known, value) in table {
        if *known == name {
            return Some(*value);
        }
    }
    None
}

/// The name of a fault of a stream.
pub fn frame_fault_word(fault: FrameFault) -> &'static str {
    match fault {
        FrameFault::Head => "head",
        FrameFault::Version => "version",
        FrameFault::BothLengths => "both-lengths",
        FrameFault::Length => "length",
        FrameFault::Coding => "coding",
        FrameFault::Chunk => "chunk",
        FrameFault::TooLarge => "too-large",
        FrameFault::Expect => "expect",
        FrameFault::Truncated => "truncated",
        FrameFault::Status => "status",
    }
}

/// The name of a fault of a target.
pub fn target_fault_word(fault: TargetFault) -> &'static str {
    match fault {
        TargetFault::Form => "form",
        TargetFault::Scheme => "scheme",
        TargetFault::Host => "host",
        TargetFault::Port => "port",
        TargetFault::Userinfo => "userinfo",
        TargetFault::Escape => "escape",
        TargetFault::DotSegment => "dot-segment",
        TargetFault::TooLong => "too-long",
        TargetFault::OutOfMemory => "out-of-memory",
    }
}

/// Appends bytes as a text in brackets.
pub fn push_shown_in_brackets(text: &mut String, bytes: &[u8]) -> Result<(), AllocError> {
    text.push('[')?;
    push_shown(text, bytes)?;
    text.push(']')
}

/// The way in which an origin fails, of a word.
pub fn fail_kind(word: &str) -> Option<FailKind> {
    match word {
        "refused" => Some(FailKind::Refused),
        "closed" => Some(FailKind::Closed),
        "timed-out" => Some(FailKind::TimedOut),
        "bad-answer" => Some(FailKind::BadAnswer),
        "too-large" => Some(FailKind::TooLarge),
        _ => None,
    }
}
