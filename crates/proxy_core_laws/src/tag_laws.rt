//! Laws on tags over a line that hides them: each function's contract is a law, and its body is empty.
ghost use Rattle.proxy_core_laws.specs.HiddenTags.{NoHiddenTagIsPassedOn, NoHiddenTagIsSentOutOfTheStore};

/// Over a line that hides tags, as each of a table of version 4 does, no client is sent a Cache-Tag: neither with what
/// is stored, nor with an answer that is passed on.
pub fn hidden_tags_are_sent_to_no_client()
    ensures sent { NoHiddenTagIsSentOutOfTheStore }
    ensures passed { NoHiddenTagIsPassedOn }
{}
