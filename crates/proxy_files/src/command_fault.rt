//! Why a command ends early: the line that names it on standard error, what is said of it besides, and the program's
//! exit status.
ghost use Rattle.std.specs.Prelude.{◌≡◌};
ghost use Rattle.proxy_files.specs.Exits.{exit_status_of_command_fault};

use proxy_replay::ReplayFault;
use std::alloc::{AllocError, Global};
use std::fmt::Formatter;
use std::io::ErrorKind;
use std::{fmt, io};

/// Why a command ends early. Most have words for what it was about; none where there was no memory for them.
#[derive(Drop)]
pub enum CommandFailure {
    /// The command line is none of the program's.
    Usage(Option<String>),
    /// The operator's table is at fault; where, if that can be told.
    Table(ReplayFault, Option<String>),
    /// A file or a clock can't be read.
    Read(Option<String>),
    /// A file or standard output can't be written.
    Write(Option<String>),
    /// A table answers a question otherwise than expected.
    Answers,
    /// Memory ran out.
    NoMemory,
}

/// What a call of the system that failed is about: a thing, its name, and what can't be done with it.
pub fn system_call_words(
    alloc: Global,
    front: &str,
    name: &str,
    behind: &str,
    error: &io::Error,
) -> Option<String> {
    format!(in alloc; "{front}{name}{behind}: {error}").ok()
}

/// What a call of the system that failed is told as: out of memory for what it is, else as this fault.
pub fn fault_of(error: &io::Error, other: CommandFailure) -> CommandFailure {
    if error.kind() == ErrorKind::OutOfMemory {
        CommandFailure::NoMemory
    } else {
        other
    }
}

impl From<AllocError> for CommandFailure {
    fn from(_error: AllocError) -> CommandFailure {
        CommandFailure::NoMemory
    }
}

impl fmt::Display for CommandFailure {
    fn fmt<W: fmt::Write>(&self, f: &mut Formatter<W>) -> fmt::Result {
        match self {
            CommandFailure::Usage(_) => f.write_str("usage fault"),
            CommandFailure::Table(fault, _) => write!(f, "{fault}"),
            CommandFailure::Read(_) => f.write_str("read fault"),
            CommandFailure::Write(_) => f.write_str("write fault"),
            CommandFailure::Answers => f.write_str("answers differ"),
            CommandFailure::NoMemory => f.write_str("no memory"),
        }
    }
}

/// Prints words, where there are some.
pub fn print_words<R: Print>(rt: &R, words: &Option<String>) -> io::Result<()> {
    match words {
        Some(words) => println!(rt; "{}", words.as_str().trim_end()),
        None => Ok(()),
    }
}

impl CommandFailure {
    /// The program's exit status: 64 for the command line, 2 where the table is at fault, 3 where it answers otherwise,
    /// else 1.
    pub fn exit_status(&self) -> u8
        ensures { result ≡ exit_status_of_command_fault self.now }
    {
        match self {
            CommandFailure::Usage(_) => 64,
            CommandFailure::Table(fault, _) => fault.exit_status(),
            CommandFailure::Answers => 3,
            _ => 1,
        }
    }

    /// Says on standard output what it was about, and what to do.
    pub fn explain<R: Print>(&self, rt: &R) -> io::Result<()> {
        match self {
            CommandFailure::Usage(words) => print_words(rt, words),
            CommandFailure::Table(ReplayFault::Config(fault), place) => {
                println!(rt; "{fault}")?;
                print_words(rt, place)
            }
            CommandFailure::Table(_, _) => Ok(()),
            CommandFailure::Read(words) => print_words(rt, words),
            CommandFailure::Write(words) => print_words(rt, words),
            CommandFailure::Answers => Ok(()),
            CommandFailure::NoMemory => {
                println!(rt;
                    "memory was refused; give the process more, or lower capacity, max_body or max_stored"
                )
            }
        }
    }
}
