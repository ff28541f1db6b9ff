//! The texts of worked lines, computed from the definitions: each function's contract is the cases, and its body is
//! empty.
ghost use Rattle.std.specs.Prelude.{◌≡◌, ◌∷◌, ◌++◌, [], codes, None};
ghost use Rattle.hx_reuse.specs.declared.rule.ReuseRule.TheVariants.{UriMiss};
ghost use Rattle.hx_status.specs.Abouts.{reply_reason_text};
ghost use Rattle.hx_status.specs.declared.about.Told.TheVariants.{Refused, Purged};
ghost use Rattle.hx_status.specs.declared.cause.Cause.TheVariants.{Denied, Origin};
ghost use Rattle.hx_status.specs.declared.cause.FailKind.TheVariants.{TimedOut};
ghost use Rattle.proxy_log.specs.Asked.{uri_text, asked_words_of_head};
ghost use Rattle.proxy_log.specs.Cases.{words_of_method_and_target, key_of};
ghost use Rattle.proxy_log.specs.Cases.{log_words_of_get, refused_post_line, example_line_of_unread_request};
ghost use Rattle.proxy_log.specs.Cases.{example_line_of_unread_target};
ghost use Rattle.proxy_log.specs.Cases.{report_of_hit, report_of_stored_miss};
ghost use Rattle.proxy_log.specs.Line.{log_line_text};

/// A miss, a hit, a denial with its blanks, a content that is refused, and what couldn't be read.
pub fn worked_log_lines()
    ensures miss { log_line_text (log_words_of_get 1764050000123 (codes "fwd=uri-miss;ttl=600;stored") 12 (codes "127.0.0.1:8081"))
        ≡ codes "1764050000.123 127.0.0.1:40001 GET http://h/a 200 5 fwd=uri-miss;ttl=600;stored 0.012 127.0.0.1:8081\n" }
    ensures hit { log_line_text (log_words_of_get 1764050001004 (codes "hit;ttl=599") 0 [])
        ≡ codes "1764050001.004 127.0.0.1:40001 GET http://h/a 200 5 hit;ttl=599 0.000 -\n" }
    ensures denied { log_line_text (log_words_of_get 90 (codes "denied by line 1") 60000 [])
        ≡ codes "0.090 127.0.0.1:40001 GET http://h/a 200 5 denied by line 1 60.000 -\n" }
    ensures refused { log_line_text (refused_post_line (codes "http://h:80/up"))
        ≡ codes "0.000 127.0.0.1:40001 POST http://h:80/up 413 18 refused: too-large 1.000 -\n" }
    ensures unread { log_line_text (example_line_of_unread_request (codes "refused: head"))
        ≡ codes "0.000 127.0.0.1:40001 - - 400 13 refused: head 0.000 -\n" }
{}

/// A space, a line end, a quote's backslash, and bytes above and below what is visible.
pub fn bytes_that_break_a_line_are_escaped()
    ensures blank { log_line_text (example_line_of_unread_target (codes "/a b\n"))
        ≡ codes "0.007 127.0.0.1:40001 GET /a\\x20b\\x0A 400 13 refused: form 0.000 -\n" }
    ensures backslash { log_line_text (example_line_of_unread_target (codes "/a\\x20"))
        ≡ codes "0.007 127.0.0.1:40001 GET /a\\x5Cx20 400 13 refused: form 0.000 -\n" }
    ensures above { log_line_text (example_line_of_unread_target (codes "/" ++ 195 ∷ (169 ∷ (127 ∷ (126 ∷ [])))))
        ≡ codes "0.007 127.0.0.1:40001 GET /\\xC3\\xA9\\x7F~ 400 13 refused: form 0.000 -\n" }
    ensures below { log_line_text (example_line_of_unread_target (0 ∷ (27 ∷ (33 ∷ []))))
        ≡ codes "0.007 127.0.0.1:40001 GET \\x00\\x1B! 400 13 refused: form 0.000 -\n" }
{}

/// A hit, an answer that was stored, a refusal, a failure of an origin, and the answer to a purge, as lines tell them.
pub fn worked_log_lines_of_replies()
    ensures hit { log_line_text (log_words_of_get 7 (reply_reason_text (report_of_hit 599)) 0 [])
        ≡ codes "0.007 127.0.0.1:40001 GET http://h/a 200 5 hit;ttl=599 0.000 -\n" }
    ensures stored { log_line_text (log_words_of_get 7 (reply_reason_text (report_of_stored_miss 600)) 12 (codes "127.0.0.1:8081"))
        ≡ codes "0.007 127.0.0.1:40001 GET http://h/a 200 5 fwd=uri-miss;ttl=600;stored 0.012 127.0.0.1:8081\n" }
    ensures denied { log_line_text (log_words_of_get 7 (reply_reason_text (Refused (Denied 1))) 0 [])
        ≡ codes "0.007 127.0.0.1:40001 GET http://h/a 200 5 denied by line 1 0.000 -\n" }
    ensures failed { log_line_text (log_words_of_get 7 (reply_reason_text (Refused (Origin TimedOut UriMiss None))) 9000
        (codes "127.0.0.1:8081"))
        ≡ codes "0.007 127.0.0.1:40001 GET http://h/a 200 5 origin timed-out;fwd=uri-miss 9.000 127.0.0.1:8081\n" }
    ensures purged { log_line_text (log_words_of_get 7 (reply_reason_text (Purged 2)) 0 [])
        ≡ codes "0.007 127.0.0.1:40001 GET http://h/a 200 5 Purged: 2 0.000 -\n" }
{}

/// The default port is left out of a target URI, and any other isn't.
pub fn worked_target_uris()
    ensures default { uri_text (key_of (codes "h.example") 80 (codes "/a?b=c")) ≡ codes "http://h.example/a?b=c" }
    ensures other { uri_text (key_of (codes "[::1]") 8080 (codes "/")) ≡ codes "http://[::1]:8080/" }
{}

/// A request line names what a head asks for that is refused, as it came: behind empty lines, without a CR, whatever
/// stands behind it, and in no other form.
pub fn worked_request_lines_of_heads()
    ensures plain { asked_words_of_head (codes "GET /a HTTP/1.1\r\nHost : h") ≡ words_of_method_and_target (codes "GET") (codes "/a") }
    ensures behind { asked_words_of_head (codes "\r\n\nPUT http://O:80/u HTTP/2.0\n") ≡ words_of_method_and_target (codes "PUT") (codes "http://O:80/u") }
    ensures begun { asked_words_of_head (codes "GET /a HTTP/1.1") ≡ words_of_method_and_target [] [] }
    ensures spaces { asked_words_of_head (codes "GET  /a HTTP/1.1\r\n") ≡ words_of_method_and_target [] [] }
    ensures name { asked_words_of_head (codes "G(T /a HTTP/1.1\r\n") ≡ words_of_method_and_target [] [] }
    ensures version { asked_words_of_head (codes "GET /a HTTP/11\r\n") ≡ words_of_method_and_target [] [] }
{}
