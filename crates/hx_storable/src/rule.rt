//! The rules that keep a response from being stored.

/// A rule against storing a response (RFC 9111, sections 3, 3.5 and 5.2), in the order in which they are asked.
#[derive(Clone, Copy, Debug, PartialEq, Eq)]
pub enum StoreRule {
    /// The operator keeps what the request asks for from the store.
    Operator = 0,
    /// The method isn't GET.
    Method,
    /// The request has content, or a precondition that only the origin can judge; or the answer is for its range alone.
    Bypass,
    /// The status is 206 or 304: the response isn't the whole of a representation.
    Status,
    /// The response has must-understand, and its status isn't understood.
    MustUnderstand,
    /// The response has no-store, without must-understand.
    ResponseNoStore,
    /// The request has no-store.
    RequestNoStore,
    /// The response has private.
    Private,
    /// The request has Authorization, and the response neither must-revalidate nor public nor s-maxage.
    Authorization,
    /// The response has neither public, Expires, max-age, s-maxage nor a status that allows it to be stored.
    NothingAllows,
    /// A member of Vary is `*` or no token, so that no later request is answered.
    VaryStar,
    /// Connection names a cache field, such as Cache-Control or Vary.
    ConnectionField,
    /// The response neither states its lifetime nor has a validator.
    NothingToReuse,
    /// The content is longer than the operator lets be stored.
    TooLarge,
    /// The key was invalidated since the request last went forward.
    Overtaken,
    /// No serial is left.
    Serials,
    /// The response has Set-Cookie without public, and the operator stores no cookies.
    SetCookie,
    /// The status is 400 or above and not heuristically cacheable, and the operator stores no errors.
    ErrorStatus,
    /// The request has Cookie or Authorization, and the response neither public nor a lifetime but the one that the
    /// line would give, which doesn't give it to such requests.
    RequestCookie,
}
