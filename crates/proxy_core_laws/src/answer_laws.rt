//! Laws on what a client gets. Each function's contract is a law, and its body is empty.
ghost use Rattle.proxy_core_laws.specs.ClientConditions.{OnlyFailedConditionGetsA304, FailedConditionGetsA304};
ghost use Rattle.proxy_core_laws.specs.HeldHeads.{HeadWithRoomSentAs304IsWithinReaderLimits};
ghost use Rattle.proxy_core_laws.specs.HeldHeads.{HeadWithRoomIsWithinReaderLimits};
ghost use Rattle.proxy_core_laws.specs.HeldHeads.{FreshenedHeadLeavesRoom};
ghost use Rattle.proxy_core_laws.specs.HeldHeads.{HeldHeadIsBounded, HeldHeadLeavesRoomOrIsAsStored};
ghost use Rattle.proxy_core_laws.specs.HeldHeads.{FreshenedHeadIsBounded};
ghost use Rattle.proxy_core_laws.specs.HeldHeads.{HeadWithRoomIsSentAsOneResponse};
ghost use Rattle.proxy_core_laws.specs.HeldHeads.{StoredHeadIsBounded, StoredHeadLeavesRoom};
ghost use Rattle.proxy_core_laws.specs.LeftStores.{HeldResponsesAreSoundForARestart};
ghost use Rattle.proxy_core_laws.specs.OneResponse.{PassedAnswerIsOneResponse, ProxysAnswerIsOneResponse};
ghost use Rattle.proxy_core_laws.specs.OneResponse.{PurgeAnswerIsOneResponse};
ghost use Rattle.proxy_core_laws.specs.StoredReplies.{FreshenedResponseIsSendable, HeldResponseIsSendable};
ghost use Rattle.proxy_core_laws.specs.StoredReplies.{Stored304IsSentAsOneResponse};
ghost use Rattle.proxy_core_laws.specs.StoredReplies.{StoredWholeIsSentAsOneResponse};
ghost use Rattle.proxy_core_laws.specs.StoredReplies.{StoredAnswerIsSendable};

/// A client's If-None-Match, or where that is absent its If-Modified-Since, gets a 304 from a stored response exactly
/// where the standard says that the condition fails (RFC 9110, sections 13.1.2, 13.1.3 and 13.2.2).
pub fn a_client_gets_its_304_where_it_may()
    ensures every { FailedConditionGetsA304 }
    ensures only { OnlyFailedConditionGetsA304 }
{}

/// What a client gets for an answer that is passed on, or by the proxy itself, is one response: read by a client that
/// knows what it asked, it ends where the proxy ended it (RFC 9112, sections 6.3 and 11.1).
pub fn a_client_gets_one_response()
    ensures passed { PassedAnswerIsOneResponse }
    ensures own { ProxysAnswerIsOneResponse }
    ensures purge { PurgeAnswerIsOneResponse }
{}

/// So is a stored response, whole and as a 304: what is made of an answer that was read can be sent, and so can what a
/// 304 leaves of it, and whatever is held at any moment of a good history (RFC 9111, sections 3 and 4.3.4).
pub fn a_stored_response_is_sent_as_one()
    ensures stored { StoredAnswerIsSendable }
    ensures freshened { FreshenedResponseIsSendable }
    ensures held { HeldResponseIsSendable }
    ensures whole { StoredWholeIsSentAsOneResponse }
    ensures not_modified { Stored304IsSentAsOneResponse }
{}

/// A head that is held has a bound, however often its origin's 304s name new fields: what is stored has at most a line
/// more than was read, and what is kept behind a 304 leaves room for what the proxy adds (RFC 9111, sections 3 and
/// 4.3.4; the bound is own).
pub fn a_held_head_has_a_bound()
    ensures stored { StoredHeadIsBounded }
    ensures kept { FreshenedHeadIsBounded }
    ensures freshened { FreshenedHeadLeavesRoom }
    ensures room { HeldHeadLeavesRoomOrIsAsStored }
    ensures stored_with_room { StoredHeadLeavesRoom }
    ensures held { HeldHeadIsBounded }
{}

/// So it is sent within the limits of a reader, and read back as one response, with no premise on its head.
pub fn a_head_with_room_is_sent_as_one_response()
    ensures whole { HeadWithRoomIsWithinReaderLimits }
    ensures not_modified { HeadWithRoomSentAs304IsWithinReaderLimits }
    ensures sent { HeadWithRoomIsSentAsOneResponse }
{}

/// What is held behind messages that were read is as each response has to be that is held at first. So what is said
/// here of stored responses holds over any number of restarts.
pub fn held_responses_can_be_sent_after_a_restart()
    ensures { HeldResponsesAreSoundForARestart }
{}
