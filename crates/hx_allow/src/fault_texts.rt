//! What is wrong with a table and what may stand there, in words for the operator. No text takes memory.
ghost use Rattle.std.specs.Prelude.{◌≡◌, None, Some, option_map};
ghost use Rattle.hx_allow.specs.FaultTexts.{line_number_of_fault, key_row_at_fault, requirement_without_row};
ghost use Rattle.hx_allow.specs.Rows.{definition_of_source_row};

use crate::config_faults::TableFault;
use crate::rows::{
    KeyDefinition, KeyPlace, LineKey, TopKey, UNKNOWN_KEY_REQUIREMENT_TEXT, ValueKind,
};
use std::fmt;
use std::fmt::Formatter;

/// The line at fault, counted from 1.
fn line_number_of_fault(fault: &TableFault) -> Option<u16>
    ensures { result ≡ line_number_of_fault fault.now }
{
    match fault {
        TableFault::BadHost(line) => Some(*line),
        TableFault::BadMethod(line) => Some(*line),
        TableFault::BadPath(line) => Some(*line),
        TableFault::BadOrigin(line) => Some(*line),
        TableFault::BadCache(line) => Some(*line),
        TableFault::BadWord(line, _) => Some(*line),
        TableFault::MethodInLowerCase(line) => Some(*line),
        TableFault::StarInPath(line) => Some(*line),
        _ => None,
    }
}

/// The row of the key at fault.
fn key_row_at_fault(fault: &TableFault) -> Option<KeyDefinition>
    ensures { option_map definition_of_source_row result ≡ key_row_at_fault fault.now }
{
    match fault {
        TableFault::BadName => Some(TopKey::Name.row()),
        TableFault::BadNumber(number) => Some(number.row()),
        TableFault::BadHost(_) => Some(LineKey::Host.row()),
        TableFault::BadMethod(_) => Some(LineKey::Methods.row()),
        TableFault::BadPath(_) => Some(LineKey::Path.row()),
        TableFault::BadOrigin(_) => Some(LineKey::Origin.row()),
        TableFault::BadCache(_) => Some(LineKey::Cache.row()),
        TableFault::BadWord(_, word) => Some(word.row()),
        _ => None,
    }
}

/// What has to stand there, of a fault without a row.
fn requirement_without_row(fault: &TableFault) -> &'static str
    ensures { result.now ≡ requirement_without_row fault.now }
{
    match fault {
        TableFault::NotToml =>
            "the table is no TOML, has a key twice, or has more than 1048576 bytes; look for a quote or bracket that is missing",
        TableFault::UnknownKey(_) => UNKNOWN_KEY_REQUIREMENT_TEXT,
        TableFault::NoLines =>
            "a table has 1 to 256 lines, or 1 to 4096 in version 4, each of which begins with [[line]]",
        TableFault::OutOfMemory => "no memory is left for the table",
        TableFault::MethodInLowerCase(_) =>
            "a method has a letter in lower case; methods compare with their case, so write GET and not get",
        TableFault::StarInPath(_) =>
            "path has a *, which is that character and no pattern; leave it out: a path matches itself and all below it",
        _ => "",
    }
}

impl fmt::Display for ValueKind {
    ghost use Rattle.std.specs.Prelude.{Some};
    ghost use Rattle.hx_allow.specs.FaultTexts.{requirement_of_kind};
    ghost use Rattle.hx_allow.specs.Rows.{value_kind_of_source_kind};

    ghost output = { λ kind. Some (requirement_of_kind (value_kind_of_source_kind kind)) };

    fn fmt<W: fmt::Write>(&self, f: &mut Formatter<W>) -> fmt::Result {
        match self {
            ValueKind::Number(low, high) => write!(
                f,
                "be a whole number from {low} to {high}, without quotes"
            ),
            ValueKind::Seconds(low, high) => write!(
                f,
                "be a whole number of seconds from {low} to {high}, without quotes"
            ),
            ValueKind::StoreBound(low, high) => write!(
                f,
                "be a whole number from {low} to {high}, without quotes, and no less than max_stored"
            ),
            ValueKind::Version => f.write_str("be 1, 2, 3 or 4, without quotes"),
            ValueKind::OneOf(first, second) => write!(f, "be \"{first}\" or \"{second}\""),
            ValueKind::OneOfInFour(first, second, third) => write!(
                f,
                "be \"{first}\" or \"{second}\", in version 4 also \"{third}\""
            ),
            ValueKind::OneOfThree(first, second, third) => {
                write!(f, "be \"{first}\", \"{second}\" or \"{third}\"")
            }
            ValueKind::Names(most) => write!(
                f,
                "be a list of 1 to {most} names, each of letters, digits and !#$%&'*+-.^_`|~, but not \"*\""
            ),
            ValueKind::Name => f.write_str(
                "be a lower-case letter and at most 31 of a-z, 0-9 and -, in quotes",
            ),
            ValueKind::Lines => Ok(()),
            ValueKind::Host => f.write_str(
                "be \"*\" or one host in lower case, without a port, an IPv6 address in brackets; in version 4 also \"*.\" and a name for the hosts below it, or a list of 1 to 32 of these",
            ),
            ValueKind::Methods => f.write_str(
                "be a list of 1 to 32, each \"*\" or a method of at most 15 bytes, but not CONNECT, TRACE or OPTIONS",
            ),
            ValueKind::Path => f.write_str(
                "begin with / and not to end with it, but for / itself; no ?, #, blank, byte above 7E, segment . or .., or % without two hexadecimal digits behind it; in version 4 also a list of 1 to 32 of these",
            ),
            ValueKind::Origin => f.write_str(
                "be \"deny\" or an IPv4 address and a port, as in \"127.0.0.1:8081\"; in version 4 also \"purge\"",
            ),
            ValueKind::PurgeKey => f.write_str("be 16 to 64 letters and digits, in quotes"),
        }
    }
}

impl fmt::Display for KeyPlace {
    ghost use Rattle.std.specs.Prelude.{Some};
    ghost use Rattle.hx_allow.specs.FaultTexts.{requirement_of_place};

    ghost output = { λ place. Some (requirement_of_place place) };

    fn fmt<W: fmt::Write>(&self, f: &mut Formatter<W>) -> fmt::Result {
        match self {
            KeyPlace::Needed => Ok(()),
            KeyPlace::Optional => Ok(()),
            KeyPlace::AllowingLine => f.write_str(
                ", and not to stand in a line that denies or purges",
            ),
            KeyPlace::CachingLine => f.write_str(", in a line that has an origin and its cache on"),
            KeyPlace::PurgingLine => {
                f.write_str(", in a line with origin = \"purge\" and in no other")
            }
        }
    }
}

impl fmt::Display for KeyDefinition {
    ghost use Rattle.std.specs.Prelude.{Some};
    ghost use Rattle.hx_allow.specs.FaultTexts.{requirement_of_row};
    ghost use Rattle.hx_allow.specs.Rows.{definition_of_source_row};

    ghost output = { λ row. Some (requirement_of_row (definition_of_source_row row)) };

    fn fmt<W: fmt::Write>(&self, f: &mut Formatter<W>) -> fmt::Result {
        write!(f, "{} has to {}{}", self.key, self.kind, self.place)
    }
}

/// What has to stand there, as text.
#[derive(Drop)]
struct Words<'a>(&'a TableFault);

impl fmt::Display for Words<'_> {
    ghost use Rattle.std.specs.Prelude.{Some};
    ghost use Rattle.hx_allow.specs.FaultTexts.{requirement_of_fault};

    ghost output = { λ words. Some (requirement_of_fault words.0.now) };

    fn fmt<W: fmt::Write>(&self, f: &mut Formatter<W>) -> fmt::Result {
        match key_row_at_fault(self.0) {
            Some(row) => write!(f, "{row}"),
            None => f.write_str(requirement_without_row(self.0)),
        }
    }
}

impl fmt::Display for TableFault {
    ghost use Rattle.std.specs.Prelude.{Some};
    ghost use Rattle.hx_allow.specs.FaultTexts.{fault_text};

    ghost output = { λ fault. Some (fault_text fault) };

    fn fmt<W: fmt::Write>(&self, f: &mut Formatter<W>) -> fmt::Result {
        if let Some(line) = line_number_of_fault(self) {
            write!(f, "in [[line]] number {line} ")?;
        }
        write!(f, "{}", Words(self))
    }
}
