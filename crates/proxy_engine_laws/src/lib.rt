//! Laws on what an engine really sends, and on what it hands its core. Each function's contract is a law, and its body
//! is empty. Nothing here runs.
#![tactic(auto)]

ghost use Rattle.proxy_engine_laws.specs.OneMessageEach.{EachReplyIsOneResponse, EachForwardIsOneRequest};
ghost use Rattle.proxy_engine_laws.specs.OneMessageEach.{EachTextToClientIsOneResponse, CoreIsHandedReadMessages};

/// Whatever an engine lives through, each request that its core is handed is one that a client's stream spells, asked
/// for the target that it names, and each answer is one that an origin's stream spells.
pub fn a_core_is_handed_what_was_read()
    ensures { CoreIsHandedReadMessages }
{}

/// Whatever an engine whose table was read lives through, each request that goes forward, at its arrival, when it is
/// woken and a second time, is one request that ends where the proxy ended it: no byte of a client's, nor of an
/// origin's that comes back as a condition, ends a line of it, and a reader with room for it reads what was sent, and
/// leaves what stands behind it (RFC 9112, sections 6.3 and 11.2). This is the law against request smuggling, of what
/// is really sent.
pub fn each_forward_is_one_request()
    ensures { EachForwardIsOneRequest }
{}

/// So is what a client gets: an answer that is passed on, a stored response, and the proxy's own answer is one
/// response, beside the 25 bytes of a continue (RFC 9112, sections 6.3 and 11.1). This is the law against response
/// splitting, of what is really sent.
pub fn each_reply_is_one_response()
    ensures each_act { EachReplyIsOneResponse }
    ensures all { EachTextToClientIsOneResponse }
{}
