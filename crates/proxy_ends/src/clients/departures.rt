//! Clients that go with a request that isn't answered, and what is told of them.
ghost use Rattle.std.specs.Prelude.{◌≡◌};
ghost use Rattle.proxy_log.specs.Line.{log_line_text};
ghost use Rattle.proxy_log.specs.PendingLines.{LineIsAddedOrLost};
ghost use Rattle.proxy_log.specs.Replies.{unanswered_words};
ghost use Rattle.proxy_ends.specs.Departures.{UnansweredDepartureIsLogged, words_of_open_or_read_request};
ghost use Rattle.proxy_ends.specs.Timeouts.{milliseconds_since};

use crate::clients::client::LoggedClient;
use proxy_figures::UnansweredCause;
use proxy_log::{Lines, LoggedRequest, ReplyObservation, RequestLine};

/// A client that went with a request that isn't answered.
#[derive(Drop)]
pub struct UnansweredDeparture {
    pub cause: UnansweredCause,
    /// When the first byte of its request came.
    pub asked: Option<u64>,
    /// What a log needs of it, where one is kept.
    pub logged: Option<Box<LoggedClient>>,
}

/// A client whose stream was dropped, and of which the engine isn't told yet.
#[derive(Drop)]
pub struct LostClient {
    pub number: u64,
    pub departure: Option<UnansweredDeparture>,
}

/// Adds the line about a request that has no answer: what it asks for if it is open, else what the request line says.
fn add_unanswered(
    lines: &mut Lines,
    request: &Option<LoggedRequest<'_>>,
    line: &RequestLine,
    cause: &[u8],
    seen: &ReplyObservation<'_>,
)
    ensures { LineIsAddedOrLost
        (log_line_text (unanswered_words (words_of_open_or_read_request request.now line.now) cause.now seen.now))
        lines.old lines.new }
{
    match request {
        Some(request) => lines.add_unanswered(request, cause, seen),
        None => lines.add_unanswered(&line.asked(), cause, seen),
    }
}

impl UnansweredDeparture {
    /// Milliseconds since the first byte of its request came.
    pub fn milliseconds_taken(&self, now: u64) -> u64
        ensures { result ≡ milliseconds_since now self.now.asked }
    {
        match self.asked {
            Some(asked) => now.saturating_sub(asked),
            None => 0,
        }
    }

    /// Adds the line about it, where a log is kept: at this moment in milliseconds since 1970, so many milliseconds
    /// after its request began, where this origin was asked. It names what the request asks for that is open, else what
    /// the request line says. Where there is neither room nor memory for it, it is lost, and counted.
    pub fn log(
        &self,
        request: Option<LoggedRequest<'_>>,
        moment: u64,
        took: u64,
        origin: &[u8],
        lines: &mut Lines,
    )
        ensures { UnansweredDepartureIsLogged self.now request.entry moment took origin.now lines.old lines.new }
    {
        let Some(logged) = &self.logged else {
            return;
        };
        let seen = ReplyObservation {
            moment,
            client: logged.address.as_str().as_bytes(),
            took,
            origin,
        };
        let cause = self.cause.name().as_bytes();
        add_unanswered(lines, &request, &logged.line, cause, &seen);
    }
}
