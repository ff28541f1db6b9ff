//! Why the program ends early.

use std::alloc::AllocError;
use std::fmt;
use std::fmt::Formatter;

#[derive(Clone, Copy)]
pub enum Stop {
    /// A call found no memory, as often as it was made.
    NoMemory,
    /// What is read is no script that plays to its end, or a stream failed.
    Script,
    /// A call that takes no memory said that memory ran out, or gave something else than it has to.
    Wrong,
}

impl From<AllocError> for Stop {
    fn from(_error: AllocError) -> Stop {
        Stop::NoMemory
    }
}

impl fmt::Display for Stop {
    fn fmt<W: fmt::Write>(&self, f: &mut Formatter<W>) -> fmt::Result {
        f.write_str(match self {
            Stop::NoMemory => "no memory",
            Stop::Script => "the script doesn't play",
            Stop::Wrong => "a call that takes no memory gave a wrong answer",
        })
    }
}

impl Stop {
    pub fn exit_status(&self) -> u8 {
        match self {
            Stop::NoMemory => 1,
            Stop::Script => 2,
            Stop::Wrong => 3,
        }
    }
}
