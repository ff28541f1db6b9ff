//! What is wrong with a stream of messages.
ghost use Rattle.std.specs.Prelude.{◌≡◌};
ghost use Rattle.hx_framing.specs.Fault.{frame_fault_number};

/// The faults in the order of their numbers: of several at one place the least is answered.
#[derive(Clone, Copy, Debug, PartialEq, Eq, Hash)]
pub enum FrameFault {
    /// No head stands there, or one past the limits.
    Head,
    /// The start line names a version other than HTTP/1.0 and HTTP/1.1.
    Version,
    /// Transfer-Encoding and Content-Length both stand.
    BothLengths,
    /// The length fields tell no length (RFC 9112, section 6.3).
    Length,
    /// A transfer coding other than `chunked`.
    Coding,
    /// Chunks that don't meet their grammar (RFC 9112, section 7.1).
    Chunk,
    /// More content than may be read.
    TooLarge,
    /// An expectation other than `100-continue`.
    Expect,
    /// The stream ended in the middle of a message.
    Truncated,
    /// A status that no final response has.
    Status,
}

impl FrameFault {
    /// The number of the fault, from 1.
    pub fn number(self) -> u8
        ensures { result ≡ frame_fault_number self }
    {
        match self {
            FrameFault::Head => 1,
            FrameFault::Version => 2,
            FrameFault::BothLengths => 3,
            FrameFault::Length => 4,
            FrameFault::Coding => 5,
            FrameFault::Chunk => 6,
            FrameFault::TooLarge => 7,
            FrameFault::Expect => 8,
            FrameFault::Truncated => 9,
            FrameFault::Status => 10,
        }
    }
}
