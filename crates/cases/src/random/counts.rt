//! How much there was of what in a run.

use super::replies::Source;
use std::fmt;

/// How much there was of what.
#[derive(Clone, Copy, Default)]
pub struct Counts {
    pub effects: u64,
    pub forwards: u64,
    pub drops: u64,
    pub replies: u64,
    pub stored: u64,
    pub hits: u64,
    pub validated: u64,
    pub refused: u64,
    /// Replies on connections that were to end.
    pub last_replies: u64,
    /// Requests that went past the store.
    pub past: u64,
    /// Of them those that asked for what was fresh by the last answer for their target that was stored or sent.
    pub past_fresh: u64,
    /// Of them those that took away what was stored.
    pub past_taking: u64,
    /// Answers that were stored though they state no lifetime.
    pub given: u64,
    /// Answers that say why they aren't stored.
    pub explained: u64,
    /// Of them those for a cookie.
    pub cookies_unstored: u64,
    /// Requests that waited for others.
    pub waited: u64,
    /// Ends of others that woke some.
    pub wakings: u64,
    /// Requests that were woken since they had waited long enough.
    pub overdue: u64,
    /// Woken requests that were sent a stored response.
    pub collapsed: u64,
    /// Woken requests that went forward.
    pub woken_forward: u64,
    /// Woken requests that waited for what is stale, as far as an answer told it.
    pub waited_for_stale: u64,
    /// Of them those that were sent a stored response.
    pub collapsed_stale: u64,
    /// Requests whose clients went away while they waited.
    pub waiters_gone: u64,
}

pub fn count_plus_one(count: &mut u64) {
    *count = count.saturating_add(1);
}

impl Counts {
    /// One more reply, which comes from there.
    pub fn note_reply(&mut self, source: Source) {
        count_plus_one(&mut self.replies);
        match source {
            Source::Own => count_plus_one(&mut self.refused),
            Source::Stored => count_plus_one(&mut self.stored),
            Source::Hit => count_plus_one(&mut self.hits),
            Source::Validated => count_plus_one(&mut self.validated),
            Source::Collapsed => count_plus_one(&mut self.collapsed),
            Source::Origin | Source::Store => {}
        }
    }
}

impl fmt::Display for Counts {
    fn fmt<W: fmt::Write>(&self, f: &mut fmt::Formatter<W>) -> fmt::Result {
        let (effects, forwards, drops) = (self.effects, self.forwards, self.drops);
        let (replies, stored, hits) = (self.replies, self.stored, self.hits);
        let (validated, refused, last) = (self.validated, self.refused, self.last_replies);
        write!(
            f,
            "{effects} effects: {forwards} forwards, {drops} drops, {replies} replies, "
        )?;
        write!(
            f,
            "of them {stored} stored, {hits} hits, {validated} validated, {refused} refused, {last} on connections that were to end"
        )
    }
}
