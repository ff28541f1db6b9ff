//! What happens to a proxy.

use hx_status::FailKind;

/// What happened at the ends. Connections of clients and links to origins are named by their numbers.
#[derive(Clone, Copy, Debug, PartialEq, Eq)]
pub enum Happening<'a> {
    /// A client connected. Connections are numbered 1, 2, 3 and so on.
    Accept(u64),
    /// A client sent these bytes.
    Client(u64, &'a [u8]),
    /// The origin on this link sent these bytes.
    Link(u64, &'a [u8]),
    /// A client sends no more.
    End(u64),
    /// A client went away.
    Gone(u64),
    /// The proxy wants to end a client's connection: its next request is the last one that is read.
    Retire(u64),
    /// The request of a client has waited for the answer to another as long as it is to wait.
    Overdue(u64),
    /// The origin on this link closed it.
    Shut(u64),
    /// A link failed before its answer was whole: the kind is `Refused`, `TimedOut` or `Closed`.
    Fail(u64, FailKind),
}
