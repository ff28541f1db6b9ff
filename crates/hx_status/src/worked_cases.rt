//! The texts of worked cases, computed from the definitions: each function's contract is the cases,
//! and its body is empty.
ghost use Rattle.std.specs.Prelude.{◌≡◌, codes, Some, None, true, false, pos, negsuc};
ghost use Rattle.hx_framing.specs.declared.frame_fault.FrameFault.TheVariants as frame;
ghost use Rattle.hx_target.specs.declared.target_fault.TargetFault.TheVariants as target;
ghost use Rattle.hx_reuse.specs.declared.rule.ReuseRule.TheVariants as rule;
ghost use Rattle.hx_reuse.specs.declared.rule.ErrorRule.TheVariants as on_error;
ghost use Rattle.hx_status.specs.declared.status.How.TheVariants.{Hit, Fwd};
ghost use Rattle.hx_status.specs.declared.status.Detail.TheVariants.{StaleIfError, ReuseAfterError, ReuseAfter304};
ghost use Rattle.hx_status.specs.declared.status.Detail.TheVariants.{SessionCookie, StaleWhileRevalidate};
ghost use Rattle.hx_status.specs.declared.cause.Cause.TheVariants.{Denied, NoLine, Looped, OnlyIfCached, Origin, Frame};
ghost use Rattle.hx_status.specs.declared.cause.Cause.TheVariants.{Target};
ghost use Rattle.hx_status.specs.declared.cause.FailKind.TheVariants.{Refused, TimedOut, Closed, BadAnswer, TooLarge};
ghost use Rattle.hx_status.specs.Member.{member_text};
ghost use Rattle.hx_status.specs.Refusals.{refusal_status, refusal_text};
ghost use Rattle.hx_storable.specs.declared.rule.StoreRule.TheVariants as storing;
ghost use Rattle.hx_status.specs.Cases.{passed_on_and_not_stored, answer_passed_on, answer_passed_on_and_stored};
ghost use Rattle.hx_status.specs.Cases.{stored_sent_after_forward};

/// A hit, a first answer that is stored, one with no lifetime left, and denials by the operator's table.
pub fn worked_texts()
    ensures hit { member_text (codes "edge") (record {
      how = Hit;
      fwd_status = None;
      ttl = Some (pos 30);
      stored = false;
      collapsed = false;
      detail = None;
      not_stored = None;
    }) ≡ codes "edge;hit;ttl=30" }
    ensures stored { member_text (codes "edge") (answer_passed_on_and_stored rule.UriMiss (pos 59)) ≡ codes "edge;fwd=uri-miss;ttl=59;stored" }
    ensures over { member_text (codes "edge") (answer_passed_on_and_stored rule.UriMiss (negsuc 0)) ≡ codes "edge;fwd=uri-miss;ttl=-1;stored" }
    ensures another_variant { member_text (codes "edge") (answer_passed_on rule.VaryMiss) ≡ codes "edge;fwd=vary-miss" }
    ensures another_method { member_text (codes "edge") (answer_passed_on rule.Method) ≡ codes "edge;fwd=method" }
    ensures denied { refusal_text (Denied 1) ≡ codes "denied by line 1" }
    ensures no_line { refusal_text NoLine ≡ codes "no line allows it" }
    ensures forbidden { refusal_status NoLine ≡ 403 }
    ensures looped { refusal_text (Looped 12) ≡ codes "loop refused by line 12" }
    ensures status_of_a_loop { refusal_status (Looped 12) ≡ 508 }
{}

/// Stale by five seconds, while a GET is at the origin for it.
pub fn worked_text_while_revalidating()
    ensures { member_text (codes "edge") (record {
      how = Hit;
      fwd_status = None;
      ttl = Some (negsuc 4);
      stored = false;
      collapsed = false;
      detail = Some StaleWhileRevalidate;
      not_stored = None;
    }) ≡ codes "edge;hit;ttl=-5;detail=stale-while-revalidate" }
{}

/// Content, a range, a precondition.
pub fn worked_texts_of_bypass_rules()
    ensures content { member_text (codes "edge") (answer_passed_on rule.Content) ≡ codes "edge;fwd=bypass;detail=content" }
    ensures range { member_text (codes "edge") (answer_passed_on rule.Range) ≡ codes "edge;fwd=bypass;detail=range" }
    ensures precondition { member_text (codes "edge") (answer_passed_on rule.Precondition) ≡ codes "edge;fwd=bypass;detail=precondition" }
{}

/// On a line without cache: passed on, what only the origin could answer, and a failure.
pub fn line_without_cache()
    ensures passed_on { member_text (codes "edge") (answer_passed_on rule.Operator) ≡ codes "edge;fwd=bypass;detail=operator" }
    ensures for_a_cookie { member_text (codes "edge")
        (record (answer_passed_on rule.Operator) { detail = Some SessionCookie }) ≡ codes "edge;fwd=bypass;detail=cookie" }
    ensures only_if_cached { refusal_text (OnlyIfCached rule.Operator) ≡ codes "only-if-cached;fwd=bypass;detail=operator" }
    ensures refused { refusal_text (Origin Refused rule.Operator None) ≡ codes "origin refused;fwd=bypass;detail=operator" }
{}

/// The least rule where several stand, and what only the origin could answer.
pub fn worked_least_reuse_rules()
    ensures response_no_cache { member_text (codes "edge") (answer_passed_on rule.ResponseNoCache) ≡ codes "edge;fwd=stale;detail=response-no-cache" }
    ensures request_no_cache { member_text (codes "edge") (answer_passed_on rule.RequestNoCache) ≡ codes "edge;fwd=request;detail=no-cache" }
    ensures must_revalidate { member_text (codes "edge") (answer_passed_on rule.MustRevalidate) ≡ codes "edge;fwd=stale;detail=must-revalidate" }
    ensures max_stale { member_text (codes "edge") (answer_passed_on rule.PastMaxStale) ≡ codes "edge;fwd=stale;detail=max-stale" }
    ensures only_if_cached { refusal_text (OnlyIfCached rule.AboveMaxAge) ≡ codes "only-if-cached;fwd=request;detail=max-age" }
    ensures no_answer { refusal_status (OnlyIfCached rule.AboveMaxAge) ≡ 504 }
{}

/// A 304 of the origin freshens what states no lifetime, and one that validates nothing leads to what is held.
pub fn worked_texts_after_validation()
    ensures stored { member_text (codes "edge") (answer_passed_on_and_stored rule.UriMiss (pos 0)) ≡ codes "edge;fwd=uri-miss;ttl=0;stored" }
    ensures freshened { member_text (codes "edge") (stored_sent_after_forward rule.NoLifetime (Some 304)
        (Some (pos 0)) None)
        ≡ codes "edge;fwd=stale;fwd-status=304;ttl=0;detail=no-lifetime" }
    ensures after_304 { member_text (codes "edge") (stored_sent_after_forward rule.NoMaxStale (Some 304) (Some (pos 59))
        (Some ReuseAfter304)) ≡ codes "edge;fwd=stale;fwd-status=304;ttl=59;detail=reuse-after-304" }
    ensures after_error { member_text (codes "edge") (stored_sent_after_forward rule.NoMaxStale None (Some (pos 50))
        (Some ReuseAfterError)) ≡ codes "edge;fwd=stale;ttl=50;detail=reuse-after-error" }
{}

/// By the response's stale-if-error, after a failure and after a 503; and the first rule against it.
pub fn stale_if_error_of_response()
    ensures sent { member_text (codes "edge") (stored_sent_after_forward rule.NoMaxStale None (Some (negsuc 59))
        (Some StaleIfError)) ≡ codes "edge;fwd=stale;ttl=-60;detail=stale-if-error" }
    ensures after_503 { member_text (codes "edge") (stored_sent_after_forward rule.NoMaxStale (Some 503) (Some (negsuc 59))
        (Some StaleIfError)) ≡ codes "edge;fwd=stale;fwd-status=503;ttl=-60;detail=stale-if-error" }
    ensures too_stale { refusal_text (Origin Refused rule.NoMaxStale (Some on_error.TooStale)) ≡ codes "origin refused;fwd=stale;stale-if-error=too-stale" }
    ensures forbidden { refusal_text (Origin Refused rule.MustRevalidate (Some on_error.MustRevalidate)) ≡ codes "origin refused;fwd=stale;detail=must-revalidate;stale-if-error=must-revalidate" }
    ensures bad_gateway { refusal_status (Origin Refused rule.NoMaxStale (Some on_error.TooStale)) ≡ 502 }
{}

/// By the request's; a time-out is told from other failures by its status.
pub fn worked_stale_if_error_of_request()
    ensures sent { member_text (codes "edge") (stored_sent_after_forward rule.NoMaxStale None (Some (negsuc 9))
        (Some StaleIfError)) ≡ codes "edge;fwd=stale;ttl=-10;detail=stale-if-error" }
    ensures no_directive { refusal_text (Origin TimedOut rule.NoMaxStale (Some on_error.NoDirective)) ≡ codes "origin timed-out;fwd=stale;stale-if-error=no-directive" }
    ensures time_out { refusal_status (Origin TimedOut rule.NoMaxStale (Some on_error.NoDirective)) ≡ 504 }
    ensures nothing_held { refusal_text (Origin BadAnswer rule.UriMiss None) ≡ codes "origin bad-answer;fwd=uri-miss" }
    ensures closed { refusal_text (Origin Closed rule.UriMiss None) ≡ codes "origin closed;fwd=uri-miss" }
{}

/// The answer to a request that waited for another's.
pub fn worked_collapsed_answer_text()
    ensures { member_text (codes "edge") (record {
      how = Fwd rule.UriMiss;
      fwd_status = None;
      ttl = Some (pos 59);
      stored = false;
      collapsed = true;
      detail = None;
      not_stored = None;
    }) ≡ codes "edge;fwd=uri-miss;ttl=59;collapsed" }
{}

/// A stored answer of a request that others waited for: stored comes before collapsed.
pub fn worked_stored_is_spelled_before_collapsed()
    ensures { member_text (codes "edge") (record {
      how = Fwd rule.UriMiss;
      fwd_status = None;
      ttl = Some (pos 60);
      stored = true;
      collapsed = true;
      detail = None;
      not_stored = None;
    }) ≡ codes "edge;fwd=uri-miss;ttl=60;stored;collapsed" }
{}

/// What each refused message is told by; one that was cut off gets no answer, and a bad status stands in no request.
pub fn worked_texts_of_frame_faults()
    ensures head { refusal_text (Frame frame.Head) ≡ codes "refused: head" }
    ensures version { refusal_text (Frame frame.Version) ≡ codes "refused: version" }
    ensures both_lengths { refusal_text (Frame frame.BothLengths) ≡ codes "refused: both-lengths" }
    ensures length { refusal_text (Frame frame.Length) ≡ codes "refused: length" }
    ensures coding { refusal_text (Frame frame.Coding) ≡ codes "refused: coding" }
    ensures chunk { refusal_text (Frame frame.Chunk) ≡ codes "refused: chunk" }
    ensures too_large { refusal_text (Frame frame.TooLarge) ≡ codes "refused: too-large" }
    ensures expect { refusal_text (Frame frame.Expect) ≡ codes "refused: expect" }
{}

/// Its status (RFC 9110, sections 15.5.1, 15.5.14, 15.5.18, 15.6.2 and 15.6.6; RFC 9112, section 6.1 for 501).
pub fn worked_statuses_of_frame_faults()
    ensures head { refusal_status (Frame frame.Head) ≡ 400 }
    ensures version { refusal_status (Frame frame.Version) ≡ 505 }
    ensures both_lengths { refusal_status (Frame frame.BothLengths) ≡ 400 }
    ensures length { refusal_status (Frame frame.Length) ≡ 400 }
    ensures coding { refusal_status (Frame frame.Coding) ≡ 501 }
    ensures chunk { refusal_status (Frame frame.Chunk) ≡ 400 }
    ensures too_large { refusal_status (Frame frame.TooLarge) ≡ 413 }
    ensures expect { refusal_status (Frame frame.Expect) ≡ 417 }
{}

/// What each refused target is told by.
pub fn worked_texts_of_target_faults()
    ensures form { refusal_text (Target target.Form) ≡ codes "refused: form" }
    ensures scheme { refusal_text (Target target.Scheme) ≡ codes "refused: scheme" }
    ensures host { refusal_text (Target target.Host) ≡ codes "refused: host" }
    ensures port { refusal_text (Target target.Port) ≡ codes "refused: port" }
    ensures userinfo { refusal_text (Target target.Userinfo) ≡ codes "refused: userinfo" }
    ensures escape { refusal_text (Target target.Escape) ≡ codes "refused: escape" }
    ensures dot_segment { refusal_text (Target target.DotSegment) ≡ codes "refused: dot-segment" }
    ensures too_long { refusal_text (Target target.TooLong) ≡ codes "refused: too-long" }
{}

/// Its status (RFC 9110, sections 15.5.1 and 15.5.15).
pub fn worked_statuses_of_target_faults()
    ensures form { refusal_status (Target target.Form) ≡ 400 }
    ensures scheme { refusal_status (Target target.Scheme) ≡ 400 }
    ensures host { refusal_status (Target target.Host) ≡ 400 }
    ensures port { refusal_status (Target target.Port) ≡ 400 }
    ensures userinfo { refusal_status (Target target.Userinfo) ≡ 400 }
    ensures escape { refusal_status (Target target.Escape) ≡ 400 }
    ensures dot_segment { refusal_status (Target target.DotSegment) ≡ 400 }
    ensures too_long { refusal_status (Target target.TooLong) ≡ 414 }
{}

/// How an origin failed: 504 where no answer came in time, else 502 (RFC 9110, sections 15.6.3 and 15.6.5).
pub fn worked_statuses_of_origin_failures()
    ensures refused { refusal_status (Origin Refused rule.UriMiss None) ≡ 502 }
    ensures timed_out { refusal_status (Origin TimedOut rule.UriMiss None) ≡ 504 }
    ensures closed { refusal_status (Origin Closed rule.UriMiss None) ≡ 502 }
    ensures bad_answer { refusal_status (Origin BadAnswer rule.UriMiss None) ≡ 502 }
    ensures too_large { refusal_status (Origin TooLarge rule.UriMiss None) ≡ 502 }
    ensures too_large_text { refusal_text (Origin TooLarge rule.UriMiss None) ≡ codes "origin too-large;fwd=uri-miss" }
{}

/// Why an answer isn't stored, where no other detail is told.
pub fn worked_not_stored_details()
    ensures no_lifetime { member_text (codes "edge") (passed_on_and_not_stored rule.UriMiss storing.NothingToReuse)
        ≡ codes "edge;fwd=uri-miss;detail=not-stored-no-lifetime" }
    ensures no_store { member_text (codes "edge") (passed_on_and_not_stored rule.UriMiss storing.ResponseNoStore)
        ≡ codes "edge;fwd=uri-miss;detail=not-stored-no-store" }
    ensures private { member_text (codes "edge") (passed_on_and_not_stored rule.NoMaxStale storing.Private) ≡ codes "edge;fwd=stale;detail=not-stored-private" }
    ensures cookie { member_text (codes "edge") (passed_on_and_not_stored rule.UriMiss storing.SetCookie) ≡ codes "edge;fwd=uri-miss;detail=not-stored-set-cookie" }
    ensures method { member_text (codes "edge") (passed_on_and_not_stored rule.Method storing.Method) ≡ codes "edge;fwd=method;detail=not-stored-method" }
    ensures rule_first { member_text (codes "edge") (passed_on_and_not_stored rule.Operator storing.Operator) ≡ codes "edge;fwd=bypass;detail=operator" }
    ensures rule_of_the_request { member_text (codes "edge") (passed_on_and_not_stored rule.RequestNoCache storing.TooLarge)
        ≡ codes "edge;fwd=request;detail=no-cache" }
{}
