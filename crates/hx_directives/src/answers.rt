//! What is answered of a directive with seconds.

/// The seconds of a directive that is to occur once.
#[derive(Clone, Copy, Debug, PartialEq, Eq)]
pub enum Seconds {
    /// The directive doesn't occur.
    Absent,
    /// It occurs once, and its argument is no number of seconds.
    Bad,
    /// It occurs twice or more.
    Repeated,
    /// Seconds, at most 2147483648.
    Value(u32),
}

/// How stale a response a request accepts (RFC 9111, section 5.2.1.2).
#[derive(Clone, Copy, Debug, PartialEq, Eq)]
pub enum MaxStale {
    /// No valid `max-stale` occurs: none.
    Absent,
    /// However stale.
    Any,
    /// By at most these seconds, themselves at most 2147483648.
    UpTo(u32),
}
