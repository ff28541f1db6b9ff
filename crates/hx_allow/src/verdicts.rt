//! What the operator's table says of a request.
ghost use Rattle.std.specs.Prelude.{◌≡◌};
ghost use Rattle.hx_allow.specs.Index.{verdict_is_at_or_before_line};
ghost use Rattle.hx_allow.specs.Matching.{route_over_line};

/// Over which line of the table a request goes, and whether past the store.
#[derive(Clone, Copy, Debug, PartialEq, Eq, Hash)]
pub struct RouteOverLine {
    /// The number of the line, counted from 1.
    pub number: u16,
    /// The request has one of the cookies that the line names: nothing stored is sent for it, its answer isn't stored,
    /// and it neither waits for another nor leads one.
    pub past_store: bool,
}

impl RouteOverLine {
    /// The way over a line for a request without such a cookie.
    pub fn over(number: u16) -> RouteOverLine
        ensures { result ≡ route_over_line number }
    {
        RouteOverLine {
            number,
            past_store: false,
        }
    }
}

/// What the operator's table says of a request. Lines are counted from 1.
#[derive(Clone, Copy, Debug, PartialEq, Eq, Hash)]
pub enum Verdict {
    /// The first line that matches has an origin.
    Allowed(RouteOverLine),
    /// The first line that matches denies, or purges and the request shows no key of its.
    DeniedBy(u16),
    /// No line matches, which denies too.
    NoLine,
    /// The first line that matches has an origin, and refuses requests that loop, as this one.
    Looped(u16),
    /// The first line that matches purges, and the request shows its key: what is held for its target goes.
    Purged(u16),
}

impl Verdict {
    /// Whether the line that was found isn't behind the one with this number.
    pub(crate) fn verdict_is_at_or_before_line(self, number: u16) -> bool
        ensures { result ≡ verdict_is_at_or_before_line number self }
    {
        match self {
            Verdict::Allowed(route) => route.number <= number,
            Verdict::DeniedBy(line) | Verdict::Looped(line) | Verdict::Purged(line) => line
                <= number,
            Verdict::NoLine => false,
        }
    }
}
