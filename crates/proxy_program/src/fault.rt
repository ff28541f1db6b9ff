//! The line that names a fault on standard error, what is said of it besides, and the program's exit status.
ghost use Rattle.std.specs.Prelude.{◌≡◌};
ghost use Rattle.proxy_program.specs.Exits.{exit_status_of_fault};

use proxy_files::{CommandFailure, print_words};
use proxy_server::{RecordFault, ServeFault};
use std::alloc::AllocError;
use std::fmt::Formatter;
use std::{fmt, io};

/// Why the program ends early. Its words are those of what it was about; none where there was no memory for them.
#[derive(Drop)]
pub(crate) enum Fault {
    /// Each form of the command line may have it.
    Command(CommandFailure),
    /// The address can't be listened on.
    Socket(Option<String>),
    /// A server can't go on.
    Serving(ServeFault),
}

impl From<CommandFailure> for Fault {
    fn from(fault: CommandFailure) -> Fault {
        Fault::Command(fault)
    }
}

impl From<AllocError> for Fault {
    fn from(_error: AllocError) -> Fault {
        Fault::Command(CommandFailure::NoMemory)
    }
}

impl From<RecordFault> for Fault {
    fn from(fault: RecordFault) -> Fault {
        Fault::Serving(ServeFault::Record(fault))
    }
}

impl From<ServeFault> for Fault {
    fn from(fault: ServeFault) -> Fault {
        Fault::Serving(fault)
    }
}

fn serving_text(fault: ServeFault) -> &'static str {
    match fault {
        ServeFault::Socket => "socket fault",
        ServeFault::Clock => "read fault",
        ServeFault::Record(RecordFault::Write) => "write fault",
        ServeFault::Record(RecordFault::NoMemory) => "no memory",
        ServeFault::Spent => "engine fault 4",
    }
}

impl fmt::Display for Fault {
    fn fmt<W: fmt::Write>(&self, f: &mut Formatter<W>) -> fmt::Result {
        match self {
            Fault::Command(fault) => write!(f, "{fault}"),
            Fault::Socket(_) => f.write_str("socket fault"),
            Fault::Serving(fault) => f.write_str(serving_text(*fault)),
        }
    }
}

impl Fault {
    /// The program's exit status: that of a command's fault, else 1.
    pub(crate) fn exit_status(&self) -> u8
        ensures { result ≡ exit_status_of_fault self.now }
    {
        match self {
            Fault::Command(fault) => fault.exit_status(),
            _ => 1,
        }
    }

    /// Says on standard output what it was about, and what to do.
    pub(crate) fn explain<R: Print>(&self, rt: &R) -> io::Result<()> {
        match self {
            Fault::Command(fault) => fault.explain(rt),
            Fault::Socket(words) => print_words(rt, words),
            Fault::Serving(fault) => println!(rt; "{fault}"),
        }
    }
}
