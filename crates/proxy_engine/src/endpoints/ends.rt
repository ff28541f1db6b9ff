//! The proxy's ends: connections of clients, and links to origins. Only those that aren't over are kept.
//!
//! ```text
//! a connection:  accept --> FREE -- a request: a reply at once --> FREE
//!                                -- a request: it goes forward --> FORWARDED(link) -- the link's answer or failure
//!                                                                                     --> a reply, FREE
//!                                -- a request: it waits --------> WAITING -- it is woken --> a reply, FREE
//!                                                                                        --> FORWARDED(link)
//! each of these: Ended      `ended`: it is served to its last whole request, then it is over
//!                Gone       FREE: it is over at once; else `gone`: its exchange is abandoned next, then it is over
//!                Retire     `retired`: the reply to its next request has Connection: close, then it is over
//!                a fault in its bytes, or Connection: close: the last reply, then it is over
//!
//! a link:        a request goes forward --> OPEN -- its answer is whole --------> the reply, then it is dropped
//!                                                -- `ended` before that, a fault
//!                                                   in its bytes, or `failed` --> the exchange fails, dropped
//!                                                -- its client is gone ---------> dropped
//! ```

use crate::endpoints::activities::Activity;
use crate::endpoints::numbers::ConnectionPlace;
use crate::endpoints::peeked::PeekableReader;
use hx_framing::{RequestReader, ResponseReader};
use hx_status::FailKind;

/// A client's connection that isn't closed, and isn't gone without an open exchange.
pub(crate) struct Connection {
    pub(crate) reader: PeekableReader<RequestReader>,
    /// The client sends no more.
    pub(crate) ended: bool,
    /// The client went away.
    pub(crate) gone: bool,
    /// It is to end: the answer to its next request closes it.
    pub(crate) retired: bool,
    /// Whether its exchange is open, and on which link.
    pub(crate) activity: Activity,
}

/// One call drops it, wherever that is.
impl Drop for Connection {
    fn drop(self) {
        let Connection {
            reader: _,
            ended: _,
            gone: _,
            retired: _,
            activity: _,
        } = self;
    }
}

/// A link to an origin that isn't dropped.
pub(crate) struct Link {
    pub(crate) reader: PeekableReader<ResponseReader>,
    /// The origin closed it.
    pub(crate) ended: bool,
    pub(crate) failed: Option<FailKind>,
    /// The place of the connection whose request went forward on it.
    pub(crate) connection: ConnectionPlace,
}

/// One call drops it, wherever that is.
impl Drop for Link {
    fn drop(self) {
        let Link {
            reader: _,
            ended: _,
            failed: _,
            connection: _,
        } = self;
    }
}
