//! What can be wrong with a case.

use crate::text::TextFault;
use std::alloc::{AllocError, Global};

/// Why a line is none of a case, or doesn't stand where it may.
#[derive(Clone, Copy)]
pub enum FormFault {
    NotUtf8,
    Blank,
    Indentation,
    NoPlace,
    Missing,
    Unknown,
    Number,
    Date,
    Table,
    Late,
    Nothing,
    Unexpecting,
    Text(TextFault),
}

impl From<TextFault> for FormFault {
    fn from(fault: TextFault) -> Self {
        FormFault::Text(fault)
    }
}

impl From<AllocError> for FormFault {
    fn from(_: AllocError) -> Self {
        FormFault::Text(TextFault::OutOfMemory)
    }
}

impl FormFault {
    /// The fault in words.
    pub fn as_str(self) -> &'static str {
        match self {
            FormFault::NotUtf8 => "this is no UTF-8",
            FormFault::Blank => "this line ends in a blank, a tab or a CR: write \\x20, \\t or \\r",
            FormFault::Indentation => "bytes are indented by four spaces",
            FormFault::NoPlace => "bytes stand behind no line that takes some",
            FormFault::Missing => "the bytes of this line are missing: \\. spells none",
            FormFault::Unknown => "this is no line of a case",
            FormFault::Number => "a number is decimal, without leading zeros and not too large",
            FormFault::Date => "a date is \\{date SECONDS}, below the year 10000",
            FormFault::Table => "the table stands first, and once",
            FormFault::Late => "nothing happens behind the line at which the replay stops",
            FormFault::Nothing => "nothing happens in this case",
            FormFault::Unexpecting => "nothing is expected in this case",
            FormFault::Text(fault) => fault.as_str(),
        }
    }
}

/// Why a case doesn't hold, mostly with the line at which it doesn't.
pub enum CaseFault {
    OutOfMemory,
    /// The file is no case.
    Form(usize, FormFault),
    /// What is expected and what came, as a case would say it; one of them may be `nothing`.
    Differs(usize, String, String),
}

// By hand, so that a scope that ends is one call to the prover and not the drop of each part.
impl Drop for CaseFault {
    fn drop(self) {
        match self {
            CaseFault::OutOfMemory => {}
            CaseFault::Form(_, _) => {}
            CaseFault::Differs(_, _, _) => {}
        }
    }
}

impl From<AllocError> for CaseFault {
    fn from(_: AllocError) -> Self {
        CaseFault::OutOfMemory
    }
}

impl CaseFault {
    /// The lines that tell it, without the file's name.
    pub fn told(&self, alloc: Global) -> Result<String, AllocError> {
        match self {
            CaseFault::OutOfMemory => String::from_str(alloc, "1: no memory\n"),
            CaseFault::Form(line, fault) => {
                let fault = fault.as_str();
                format!(in alloc; "{line}: {fault}\n")
            }
            CaseFault::Differs(line, expected, got) => {
                format!(in alloc; "{line}: expected {expected}\n{line}: got      {got}\n")
            }
        }
    }
}
