//! Laws on what a core sends where it was handed what was read: each time one message, or none.
ghost use Rattle.proxy_core_laws.specs.SentMessages.{ConditionsOfHistoryAreFieldValues, HeldContentIsAtMostMaxStored};
ghost use Rattle.proxy_core_laws.specs.SentMessages.{OpenRequestsWereRead, TableNameIsAToken};
ghost use Rattle.proxy_core_laws.specs.SentMessages.{OneRequestIsNeitherTwoNorAPart, OneResponseIsNeitherTwoNorAPart};
ghost use Rattle.proxy_core_laws.specs.SentMessages.{EachStepSendsAtMostOneMessage};
ghost use Rattle.proxy_core_laws.specs.SentMessages.{StoredContentFits64Bits};

/// What the laws on one message take for granted holds of what was read. The name in a table that was read is a token,
/// and no content that it lets be stored is too long to be told. At each moment of a good history whose answers were
/// read, the ETag and the Last-Modified by which an origin is asked are field values, so an origin's bytes end no line
/// of the next request (RFC 9110, section 5.5), and a content is no longer than the table lets it be. The request of
/// each open exchange was read, where each that arrived was.
pub fn what_was_read_can_be_sent()
    ensures name { TableNameIsAToken }
    ensures short { StoredContentFits64Bits }
    ensures conditions { ConditionsOfHistoryAreFieldValues }
    ensures fits { HeldContentIsAtMostMaxStored }
    ensures requests { OpenRequestsWereRead }
{}

/// So in a good history over a table that was read, of requests and answers that were read, each step sends one message
/// or none: what goes forward is one request, what a client gets is one response, and each ends where the proxy ended
/// it (RFC 9112, sections 6.3, 11.1 and 11.2). That an engine hands its core nothing else is a law of
/// `proxy_engine_laws`.
pub fn a_core_sends_at_most_one_message_each_time()
    ensures each { EachStepSendsAtMostOneMessage }
    ensures one_request { OneRequestIsNeitherTwoNorAPart }
    ensures one_response { OneResponseIsNeitherTwoNorAPart }
{}
