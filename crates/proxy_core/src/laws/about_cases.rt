//! What a reply is, as data, and what its bytes say.
ghost use Rattle.proxy_core.specs.Abouts.{PassedAnswerShowsStatusAndCacheStatus, PurgeReplyShowsStatusAndCount};
ghost use Rattle.proxy_core.specs.Abouts.{RefusalShowsStatusAndCause};
ghost use Rattle.proxy_core.specs.Abouts.{StoredReplyShowsStatusAndCacheStatus};
ghost use Rattle.proxy_core.specs.ToldSteps.{EachReplyShowsItsReportedStatusAndField};

/// What is told of a reply as data stands in its bytes: its status, and what Cache-Status (RFC 9211), Refusal or Purged
/// says.
pub fn a_reply_shows_its_status_and_cache_status()
    ensures stored { StoredReplyShowsStatusAndCacheStatus }
    ensures passed { PassedAnswerShowsStatusAndCacheStatus }
    ensures refusal { RefusalShowsStatusAndCause }
    ensures purge { PurgeReplyShowsStatusAndCount }
    ensures step { EachReplyShowsItsReportedStatusAndField }
{}
