//! How long clients and origins may take, how many connections there are, and what may wait for them.
ghost use Rattle.std.specs.Prelude.{◌≡◌, min, max};

/// The bounds of a server. Times are in milliseconds of a clock that never goes back; each is looked at about once a
/// second.
#[derive(Clone, Copy)]
pub struct Limits {
    /// Connections of clients, those between two requests and those that are being closed among them.
    pub connections: usize,
    /// Links that are open to one origin. A connect beyond them is refused at once.
    pub origin_connections: u64,
    /// Where three exchanges with an origin in a row were timed out or couldn't connect, it is asked by one request at
    /// a time, until it answers.
    pub origin_probe: bool,
    /// A client that waits for no answer may send and take no byte for so long.
    pub client_timeout: u64,
    /// A request has to be whole so long after its first byte.
    pub request_timeout: u64,
    /// A client that has sent its end while it waits for its answer is given so long.
    pub abandon_timeout: u64,
    /// A connection to an origin has to be made within so long.
    pub connect_timeout: u64,
    /// An origin may send no byte for so long, where the line over which its request went forward says nothing of it.
    pub origin_timeout: u64,
    /// A link to an origin is given so long in all.
    pub exchange_timeout: u64,
    /// Bytes of requests and answers in progress, and of those that clients haven't taken yet, of all of them.
    pub content: usize,
}

impl Limits {
    /// A client is looked at no later than so many milliseconds after it was looked at last: none of its times is over
    /// sooner than that.
    pub fn client_check_milliseconds(&self) -> u64
        ensures { result ≡ max
            (min (min (min self.now.client_timeout self.now.request_timeout) self.now.abandon_timeout) 5000) 1000 }
    {
        self.client_timeout
            .min(self.request_timeout)
            .min(self.abandon_timeout)
            .min(LINGER_MILLISECONDS)
            .max(SECOND)
    }

    /// The same of a link whose origin may send no byte for so long.
    pub fn link_check_milliseconds(&self, silence: u64) -> u64
        ensures { result ≡ max (min (min self.now.connect_timeout silence) self.now.exchange_timeout) 1000 }
    {
        self.connect_timeout
            .min(silence)
            .min(self.exchange_timeout)
            .max(SECOND)
    }
}

/// Milliseconds of a second.
pub const SECOND: u64 = 1000;

/// Ends that are read in a turn, at most.
pub const MOST_ENDS_READ_PER_TURN: usize = 256;

/// Connections that come in a turn, at most.
pub const MOST_ACCEPTED_PER_TURN: u64 = 64;

/// Connections that an engine has open, at most: those that can be asked for, and as many as may come in a turn in
/// place of others of which it wasn't told yet that they are gone. The sockets themselves keep to
/// `Limits::connections`.
pub const MOST_OPEN_CONNECTIONS: usize = 1_048_640;

/// While no more connections are taken, one that has asked for nothing is given so many milliseconds.
pub const DRAINING_FIRST_REQUEST_MILLISECONDS: u64 = 1000;

/// Connections that were closed, and whose clients may still send. Beyond it the one that was closed first is closed
/// whole.
pub const MOST_LINGERING_CONNECTIONS: usize = 256;

/// A closed connection whose client has taken everything and sends nothing more is given so many milliseconds.
pub const LINGER_MILLISECONDS: u64 = 5000;

/// One whose client goes on sending is given so many milliseconds in all, and one whose client has something to take so
/// many without a byte taken.
pub const CLOSE_TIMEOUT_MILLISECONDS: u64 = 30_000;

/// The most events of one wait.
pub const MOST_EVENTS_PER_POLL: usize = 1024;

/// The longest wait, in milliseconds: what has had its time is looked for once a second.
pub const LONGEST_WAIT_MILLISECONDS: u64 = SECOND;

/// Bytes that one segment of TCP takes, on any usual path.
pub(crate) const TCP_SEGMENT_BYTES: usize = 1200;
