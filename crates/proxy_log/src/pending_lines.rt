//! Lines that wait to be written.

ghost use Rattle.std.specs.Prelude.{◌≡◌, ◌++◌, [], OnErr, OnOk};
ghost use Rattle.proxy_log.specs.Asked.{asked_words};
ghost use Rattle.proxy_log.specs.Line.{log_line_text, words_of_log_line};
ghost use Rattle.proxy_log.specs.PendingLines.{HasNoRoomForLine, LineIsAddedOrLost, LineIsLost};
ghost use Rattle.proxy_log.specs.Replies.{reply_words, unanswered_words};

use crate::line::{Line, LoggedReason, push_line};
use crate::logged_request::LoggedRequest;
use crate::seen::ReplyObservation;
use hx_status::StatusAndReason;
use std::alloc::{AllocError, Global};

/// Room for so many bytes is kept for the next lines.
const MOST_KEPT: usize = 65_536;

/// Lines that wait to be written, and how many were lost.
#[derive(Drop)]
pub struct Lines {
    alloc: Global,
    text: Vec<u8>,
    added: u64,
    lost: u64,
}

impl Lines {
    pub fn new(alloc: Global) -> Lines
        ensures text { result.text.items ≡ [] }
        ensures added { result.added ≡ 0 }
        ensures lost { result.lost ≡ 0 }
    {
        Lines {
            alloc,
            text: Vec::new(alloc),
            added: 0,
            lost: 0,
        }
    }

    /// Adds a line. Where there is neither room nor memory for it, it is lost, and counted.
    pub fn add(&mut self, line: &Line<'_>)
        ensures { LineIsAddedOrLost (log_line_text (words_of_log_line line.now)) self.old self.new }
    {
        match self.write(line) {
            Ok(()) => self.added = self.added.saturating_add(1),
            Err(AllocError) => self.count_lost_line(),
        }
    }

    /// Adds the line about a reply that answers what was asked. Where there is neither room nor memory for it, it is
    /// lost, and counted.
    pub fn add_reply(
        &mut self,
        asked: &LoggedRequest<'_>,
        about: &StatusAndReason,
        seen: &ReplyObservation<'_>,
    )
        ensures { LineIsAddedOrLost (log_line_text (reply_words (asked_words asked.now) about.now seen.now)) self.old
            self.new }
    {
        self.add(&Line {
            moment: seen.moment,
            client: seen.client,
            asked: *asked,
            status: about.status,
            length: about.content_length,
            reason: LoggedReason::OfReply(&about.told),
            took: seen.took,
            origin: seen.origin,
        });
    }

    /// Adds the line about a request that was never answered, for this cause: it has the status 0, and no byte was
    /// sent. Where there is neither room nor memory for it, it is lost, and counted.
    pub fn add_unanswered(
        &mut self,
        asked: &LoggedRequest<'_>,
        cause: &[u8],
        seen: &ReplyObservation<'_>,
    )
        ensures { LineIsAddedOrLost (log_line_text (unanswered_words (asked_words asked.now) cause.now seen.now))
            self.old self.new }
    {
        self.add(&Line {
            moment: seen.moment,
            client: seen.client,
            asked: *asked,
            status: 0,
            length: 0,
            reason: LoggedReason::OfUnanswered(cause),
            took: seen.took,
            origin: seen.origin,
        });
    }

    /// Writes a line behind the others, or changes nothing.
    fn write(&mut self, line: &Line<'_>) -> Result<(), AllocError>
        ensures ok { OnOk result (self.new.text.items ≡ self.old.text.items
            ++ log_line_text (words_of_log_line line.now)) }
        ensures err { OnErr result (self.new.text.items ≡ self.old.text.items) }
        ensures full { OnErr result (HasNoRoomForLine (log_line_text (words_of_log_line line.now)) self.old) }
        ensures added { self.new.added ≡ self.old.added }
        ensures lost { self.new.lost ≡ self.old.lost }
    {
        let front = self.text.len();
        let written = push_line(&mut self.text, line);
        if written.is_err() {
            self.text.truncate(front);
        }
        written
    }

    /// Counts a line that is lost.
    pub fn count_lost_line(&mut self)
        ensures { LineIsLost self.old self.new }
    {
        self.lost = self.lost.saturating_add(1);
    }

    /// How many lines were added.
    pub fn added(&self) -> u64
        ensures { result ≡ self.now.added }
    {
        self.added
    }

    /// How many lines were lost because memory ran out.
    pub fn lost(&self) -> u64
        ensures { result ≡ self.now.lost }
    {
        self.lost
    }

    /// The lines.
    pub fn as_slice(&self) -> &[u8]
        ensures { result.now ≡ self.now.text.items }
    {
        self.text.as_slice()
    }

    /// Drops the lines, which were written or can't be.
    pub fn clear(&mut self)
        ensures text { self.new.text.items ≡ [] }
        ensures counts { self.new ≡ record self.old { text = self.new.text } }
    {
        if self.text.len() > MOST_KEPT {
            self.text = Vec::new(self.alloc);
        } else {
            self.text.clear();
        }
    }
}
