//! What whole streams read as, on messages of the RFCs and on what those leave open, computed from the definitions.
ghost use Rattle.std.specs.Prelude.{◌≡◌, ◌++◌, ◌∷◌, [], codes, replicate, Some, None, Ok, Err, true, false};
ghost use Rattle.hx_fields.specs.Examples.{line};
ghost use Rattle.hx_framing.specs.declared.frame_fault.FrameFault.TheVariants as fault;
ghost use Rattle.hx_framing.specs.declared.lengths.framing.Framing.TheVariants as framing;
ghost use Rattle.hx_framing.specs.Body.{Bad, Short, Whole};
ghost use Rattle.hx_framing.specs.Contents.{content_by_framing};
ghost use Rattle.hx_framing.specs.LengthExamples.{coding_line, expect_line, length_line, request_head, response_head};
ghost use Rattle.hx_framing.specs.RequestReading as request;
ghost use Rattle.hx_framing.specs.ResponseReading as response;
ghost use Rattle.hx_framing.specs.Reading.{Incomplete, Continue, Over, Spelled, Faulty};
ghost use Rattle.hx_framing.specs.ReadingExamples.{request_stream_reads, ended_request_stream_reads};
ghost use Rattle.hx_framing.specs.ReadingExamples.{request_stream_reads_after_continue, response_stream_reads};
ghost use Rattle.hx_framing.specs.ReadingExamples.{ended_response_stream_reads};
ghost use Rattle.hx_framing.specs.ReadingExamples.{head_response_stream_reads};
ghost use Rattle.hx_framing.specs.ReadingExamples.{hello_request, hello_request_read, hello_response};
ghost use Rattle.hx_framing.specs.ReadingExamples.{hello_response_read};
ghost use Rattle.hx_framing.specs.ReadingExamples.{put_request_with};
ghost use Rattle.hx_framing.specs.ReadingExamples.{put_request_read, ok_response_text_with_lines, response_with};

/// The request of RFC 9110, section 3.9, is read whole, and what follows it is left; without its last byte it waits.
pub fn worked_request_head_is_read()
    ensures whole { request_stream_reads hello_request (Spelled hello_request_read []) }
    ensures behind { request_stream_reads (hello_request ++ codes "GET / HT") (Spelled hello_request_read (codes "GET / HT")) }
    ensures last { ended_request_stream_reads hello_request (Spelled hello_request_read []) }
    ensures open { request_stream_reads (codes "GET /hello.txt HTTP/1.1\r\nHost: www.example.com\r\n\r") Incomplete }
    ensures cut { ended_request_stream_reads (codes "GET /hello.txt HTTP/1.1\r\nHost: www.example.com\r\n\r") (Faulty fault.Truncated) }
{}

/// Empty lines in front are dropped, lines may end by LF alone, and white space round a value is not of it (RFC 9112,
/// sections 2.2 and 5).
pub fn worked_heads_in_other_forms_are_read()
    ensures line_feeds { request_stream_reads (codes "\r\n\nGET / HTTP/1.0\nA:\t b \t\n\nx") (Spelled (record {
      method = codes "GET";
      target = codes "/";
      minor = 0;
      fields = line (codes "A") (codes "b") ∷ [];
      content = None;
    }) (codes "x")) }
    ensures values { request_stream_reads (codes "GET * HTTP/1.1\r\na:b:c\r\nA: b c\r\n\r\n") (Spelled (record {
      method = codes "GET";
      target = codes "*";
      minor = 1;
      fields = line (codes "a") (codes "b:c") ∷ line (codes "A") (codes "b c") ∷ [];
      content = None;
    }) []) }
    ensures no_phrase { response_stream_reads (codes "HTTP/1.0 204\r\n\r\nx") (Spelled (response_with 204 [] [] None) (codes "x")) }
    ensures empty_phrase { response_stream_reads (codes "\nHTTP/1.1 204 \nX:\n\n")
        (Spelled (response_with 204 (line (codes "X") [] ∷ []) [] None) []) }
{}

/// The response of RFC 9110, section 3.9, with its 51 bytes of content; one byte less, and it waits.
pub fn worked_response_is_read()
    ensures whole { response_stream_reads hello_response (Spelled hello_response_read []) }
    ensures behind { response_stream_reads (hello_response ++ codes "x") (Spelled hello_response_read (codes "x")) }
    ensures short { response_stream_reads (ok_response_text_with_lines (codes "Content-Length: 3\r\n") ++ codes "hi") Incomplete }
    ensures cut { ended_response_stream_reads
        (ok_response_text_with_lines (codes "Content-Length: 3\r\n") ++ codes "hi") (Faulty fault.Truncated) }
{}

/// Content-Length tells how many bytes a request has; two lines have to agree, and without one there is no content (RFC
/// 9112, section 6.3).
pub fn content_length_delimits_the_content()
    ensures none { request_stream_reads (put_request_with [] ++ codes "hello") (Spelled (put_request_read [] None)
        (codes "hello")) }
    ensures zero { request_stream_reads (put_request_with (codes "Content-Length: 0\r\n") ++ codes "hello")
        (Spelled (put_request_read [] (Some [])) (codes "hello")) }
    ensures agree { request_stream_reads (put_request_with (codes "Content-Length: 5\r\nContent-Length: 5\r\n")
        ++ codes "hello!") (Spelled (put_request_read [] (Some (codes "hello"))) (codes "!")) }
    ensures listed { request_stream_reads (put_request_with (codes "Content-Length: 5,05\r\n") ++ codes "hello!")
        (Spelled (put_request_read [] (Some (codes "hello"))) (codes "!")) }
    ensures short { request_stream_reads (put_request_with (codes "Content-Length: 5\r\n") ++ codes "hell") Incomplete }
    ensures cut { ended_request_stream_reads (put_request_with (codes "Content-Length: 5\r\n") ++ codes "hell") (Faulty fault.Truncated) }
    ensures differ { request_stream_reads (put_request_with (codes "Content-Length: 5\r\nContent-Length: 6\r\n") ++ codes "hello") (Faulty fault.Length) }
    ensures minus { request_stream_reads (put_request_with (codes "Content-Length: -5\r\n")) (Faulty fault.Length) }
    ensures most { request_stream_reads (put_request_with (codes "Content-Length: 1000\r\n")) Incomplete }
    ensures large { request_stream_reads (put_request_with (codes "Content-Length: 1001\r\n")) (Faulty fault.TooLarge) }
    ensures others_stay { request_stream_reads (put_request_with (codes "A: 1\r\nContent-Length: 2\r\nB: 2\r\n") ++ codes "hi")
        (Spelled (put_request_read (line (codes "A") (codes "1") ∷ line (codes "B") (codes "2") ∷ [])
        (Some (codes "hi"))) []) }
{}

/// Transfer-Encoding and Content-Length in one message are refused, whatever they say (RFC 9112, section 6.3, lets them
/// be).
pub fn worked_both_lengths_are_refused()
    ensures request { request_stream_reads (put_request_with (codes "Transfer-Encoding: chunked\r\nContent-Length: 5\r\n") ++ codes "0\r\n\r\n") (Faulty fault.BothLengths) }
    ensures turned { request_stream_reads (put_request_with (codes "Content-Length: 5\r\nTransfer-Encoding: chunked\r\n") ++ codes "0\r\n\r\n") (Faulty fault.BothLengths) }
    ensures old { request_stream_reads (codes "PUT /a HTTP/1.0\r\nTransfer-Encoding: chunked\r\nContent-Length: x\r\n\r\n") (Faulty fault.BothLengths) }
    ensures response { response_stream_reads
        (ok_response_text_with_lines (codes "Transfer-Encoding: chunked\r\nContent-Length: 5\r\n") ++ codes "0\r\n\r\n") (Faulty fault.BothLengths) }
{}

/// chunked is the one coding that is read; a request whose last coding is another has no end (RFC 9112, section 6.3).
pub fn only_chunked_is_read()
    ensures any_case { request_stream_reads (put_request_with (codes "transfer-encoding: CHUNKED\r\n")
        ++ codes "0\r\n\r\n") (Spelled (put_request_read [] (Some [])) []) }
    ensures two { request_stream_reads (put_request_with (codes "Transfer-Encoding: gzip, chunked\r\n")) (Faulty fault.Coding) }
    ensures endless { request_stream_reads (put_request_with (codes "Transfer-Encoding: gzip\r\n")) (Faulty fault.Length) }
    ensures twice { request_stream_reads (put_request_with (codes "Transfer-Encoding: chunked\r\nTransfer-Encoding: chunked\r\n")) (Faulty fault.Length) }
    ensures old { request_stream_reads (codes "PUT /a HTTP/1.0\r\nTransfer-Encoding: chunked\r\n\r\n") (Faulty fault.Length) }
    ensures response { response_stream_reads (ok_response_text_with_lines (codes "Transfer-Encoding: gzip\r\n")) (Faulty fault.Coding) }
    ensures old_response { response_stream_reads (codes "HTTP/1.0 200 OK\r\nTransfer-Encoding: chunked\r\n\r\n") (Faulty fault.Length) }
{}

/// Chunks with an extension and a trailer give their data, and what follows is left (RFC 9112, section 7.1).
pub fn worked_chunked_contents_are_read()
    ensures request { request_stream_reads (put_request_with (codes "Transfer-Encoding: chunked\r\n")
        ++ codes "4\r\nWiki\r\n5;x=1\r\npedia\r\n0\r\nExpires: 0\r\n\r\nGET") (Spelled (put_request_read [] (Some (codes "Wikipedia"))) (codes "GET")) }
    ensures response { response_stream_reads (ok_response_text_with_lines (codes "Transfer-Encoding: chunked\r\n")
        ++ codes "4\r\nWiki\r\n5;x=1\r\npedia\r\n0\r\nExpires: 0\r\n\r\n") (Spelled (response_with 200 [] (codes "Wikipedia") None) []) }
    ensures open { request_stream_reads (put_request_with (codes "Transfer-Encoding: chunked\r\n") ++ codes "4\r\nWiki\r\n0\r\n\r") Incomplete }
    ensures cut { ended_request_stream_reads (put_request_with (codes "Transfer-Encoding: chunked\r\n") ++ codes "4\r\nWiki\r\n0\r\n\r") (Faulty fault.Truncated) }
    ensures cut_response { ended_response_stream_reads (ok_response_text_with_lines (codes "Transfer-Encoding: chunked\r\n")
        ++ codes "4\r\nWiki\r\n") (Faulty fault.Truncated) }
    ensures bad_end { request_stream_reads (put_request_with (codes "Transfer-Encoding: chunked\r\n") ++ codes "4\r\nWikipedia") (Faulty fault.Chunk) }
    ensures large { request_stream_reads (put_request_with (codes "Transfer-Encoding: chunked\r\n") ++ codes "3e9\r\n") (Faulty fault.TooLarge) }
    ensures most { request_stream_reads (put_request_with (codes "Transfer-Encoding: chunked\r\n") ++ codes "3e8\r\n") Incomplete }
    ensures long_line { request_stream_reads (put_request_with (codes "Transfer-Encoding: chunked\r\n") ++ replicate 274 48) (Faulty fault.Chunk) }
    ensures longest_line { request_stream_reads (put_request_with (codes "Transfer-Encoding: chunked\r\n") ++ replicate 273 48) Incomplete }
{}

/// Interim responses are passed over, as that of RFC 8297, section 2; 101 is refused.
pub fn interim_responses_are_skipped()
    ensures early_hints { response_stream_reads (codes "HTTP/1.1 103 Early Hints\r\nLink: </style.css>; rel=preload; as=style\r\nLink: </script.js>; rel=preload; as=script\r\n\r\n" ++ ok_response_text_with_lines (codes "Content-Length: 2\r\n") ++ codes "hi")
        (Spelled (response_with 200 [] (codes "hi") None) []) }
    ensures two { response_stream_reads (codes "HTTP/1.1 100 Continue\r\n\r\nHTTP/1.1 199 \r\nContent-Length: x\r\n\r\nHTTP/1.1 204 \r\n\r\n") (Spelled (response_with 204 [] [] None) []) }
    ensures alone { response_stream_reads (codes "HTTP/1.1 100 Continue\r\n\r\n") Incomplete }
    ensures alone_at_the_end { ended_response_stream_reads (codes "HTTP/1.1 100 Continue\r\n\r\n") (Faulty fault.Truncated) }
    ensures switch { response_stream_reads (codes "HTTP/1.1 101 Switching Protocols\r\nUpgrade: websocket\r\n\r\n") (Faulty fault.Status) }
{}

/// A response to HEAD and one with 204 or 304 ends with its head, whatever its length fields say (RFC 9112, section
/// 6.3).
pub fn worked_responses_without_content_are_read()
    ensures no_content { response_stream_reads (codes "HTTP/1.1 204 No Content\r\nContent-Length: 5\r\n\r\n"
        ++ codes "hello") (Spelled (response_with 204 [] [] None) (codes "hello")) }
    ensures not_modified { response_stream_reads (codes "HTTP/1.1 304 Not Modified\r\nETag: \"v\"\r\nContent-Length: x\r\n\r\n"
        ++ codes "hello")
        (Spelled (response_with 304 (line (codes "ETag") (codes "\"v\"") ∷ []) [] None) (codes "hello")) }
    ensures to_head { head_response_stream_reads (ok_response_text_with_lines (codes "Content-Length: 5\r\n") ++ codes "hello")
        (Spelled (response_with 200 [] [] (Some 5)) (codes "hello")) }
    ensures to_head_coded { head_response_stream_reads (ok_response_text_with_lines (codes "Transfer-Encoding: chunked\r\n") ++ codes "hello")
        (Spelled (response_with 200 [] [] None) (codes "hello")) }
    ensures reset { response_stream_reads (codes "HTTP/1.1 205 \r\nContent-Length: 2\r\n\r\n" ++ codes "hi!")
        (Spelled (response_with 205 [] (codes "hi") None) (codes "!")) }
    ensures other_interim_neighbour { response_stream_reads (codes "HTTP/1.1 303 \r\nContent-Length: 2\r\n\r\n" ++ codes "hi!")
        (Spelled (response_with 303 [] (codes "hi") None) (codes "!")) }
{}

/// A response without length fields runs until its stream ends (RFC 9112, section 6.3).
pub fn worked_contents_run_until_the_close()
    ensures open { response_stream_reads (ok_response_text_with_lines [] ++ codes "hi") Incomplete }
    ensures closed { ended_response_stream_reads (ok_response_text_with_lines [] ++ codes "hi")
        (Spelled (response_with 200 [] (codes "hi") None) []) }
    ensures empty { ended_response_stream_reads (ok_response_text_with_lines [])
        (Spelled (response_with 200 [] [] None) []) }
    ensures large { response_stream_reads (ok_response_text_with_lines [] ++ replicate 1001 120)
        (Faulty fault.TooLarge) }
    ensures most { response_stream_reads (ok_response_text_with_lines [] ++ replicate 1000 120) Incomplete }
{}

/// A final status is from 200 to 599; its fault is told last.
pub fn worked_final_statuses()
    ensures high { response_stream_reads (codes "HTTP/1.1 600 \r\nContent-Length: 0\r\n\r\n") (Faulty fault.Status) }
    ensures low { response_stream_reads (codes "HTTP/1.1 099 \r\nContent-Length: 0\r\n\r\n") (Faulty fault.Status) }
    ensures last { response_stream_reads (codes "HTTP/1.1 599 \r\nContent-Length: 0\r\n\r\n") (Spelled (response_with 599 [] [] None) []) }
    ensures first { response_stream_reads (codes "HTTP/1.1 200 \r\nContent-Length: 0\r\n\r\n") (Spelled (response_with 200 [] [] None) []) }
    ensures large_first { response_stream_reads (codes "HTTP/1.1 600 \r\nContent-Length: 1001\r\n\r\n") (Faulty fault.TooLarge) }
{}

/// A client that expects a continue gets it before its content (RFC 9110, section 10.1.1); no other expectation is met.
pub fn worked_only_100_continue_is_met()
    ensures waits { request_stream_reads (put_request_with (codes "Expect: 100-continue\r\nContent-Length: 2\r\n")) Continue }
    ensures one_byte { request_stream_reads (put_request_with (codes "Expect: 100-continue\r\nContent-Length: 1\r\n")) Continue }
    ensures content_there { request_stream_reads (put_request_with (codes "Expect: 100-Continue\r\nContent-Length: 2\r\n") ++ codes "hi") Continue }
    ensures given { request_stream_reads_after_continue (put_request_with (codes "Expect: 100-continue\r\nContent-Length: 2\r\n") ++ codes "hi!")
        (Spelled (put_request_read (line (codes "Expect") (codes "100-continue") ∷ []) (Some (codes "hi"))) (codes "!")) }
    ensures given_open { request_stream_reads_after_continue (put_request_with (codes "Expect: 100-continue\r\nContent-Length: 2\r\n") ++ codes "h") Incomplete }
    ensures no_content { request_stream_reads (put_request_with (codes "Expect: 100-continue\r\n"))
        (Spelled (put_request_read (line (codes "Expect") (codes "100-continue") ∷ []) None) []) }
    ensures other { request_stream_reads (put_request_with (codes "Expect: x\r\nContent-Length: 2\r\n")) (Faulty fault.Expect) }
    ensures old { request_stream_reads (codes "PUT /a HTTP/1.0\r\nExpect: x\r\nContent-Length: 2\r\n\r\n" ++ codes "hi") (Spelled (record {
      method = codes "PUT";
      target = codes "/a";
      minor = 0;
      fields = line (codes "Expect") (codes "x") ∷ [];
      content = Some (codes "hi");
    }) []) }
{}

/// A request stream may end before a message, behind empty lines alone too; a response stream may not.
pub fn worked_ends_of_streams_without_message()
    ensures nothing { request_stream_reads [] Incomplete }
    ensures nothing_more { ended_request_stream_reads [] Over }
    ensures empty_lines { ended_request_stream_reads (codes "\r\n\n\r\n") Over }
    ensures line_feed { ended_request_stream_reads (codes "\n") Over }
    ensures lone_return { ended_request_stream_reads (codes "\r\n\r") (Faulty fault.Truncated) }
    ensures lone_returns { ended_request_stream_reads (codes "\r\r") (Faulty fault.Truncated) }
    ensures begun { ended_request_stream_reads (codes "\r\nG") (Faulty fault.Truncated) }
    ensures no_response { ended_response_stream_reads [] (Faulty fault.Truncated) }
    ensures no_response_yet { response_stream_reads (codes "\r\n") Incomplete }
{}

/// The content that bytes spell, by its framing, and what follows it (RFC 9112, section 6.3).
pub fn worked_contents_by_framing()
    ensures none { content_by_framing 9 framing.Nothing false (codes "hi") ≡ Whole None (codes "hi") }
    ensures announced { content_by_framing 9 (framing.Announced 3) false (codes "hi!x")
        ≡ Whole (Some (codes "hi!")) (codes "x") }
    ensures announced_short { content_by_framing 9 (framing.Announced 3) true (codes "hi") ≡ Short }
    ensures chunks { content_by_framing 2 framing.Chunked false (codes "2\r\nhi\r\n0\r\n\r\nx") ≡ Whole (Some (codes "hi")) (codes "x") }
    ensures large_chunk { content_by_framing 1 framing.Chunked false (codes "2\r\n") ≡ Bad fault.TooLarge }
    ensures open { content_by_framing 2 framing.UntilClose false (codes "hi") ≡ Short }
    ensures closed { content_by_framing 2 framing.UntilClose true (codes "hi") ≡ Whole (Some (codes "hi")) [] }
    ensures large { content_by_framing 2 framing.UntilClose true (codes "hi!") ≡ Bad fault.TooLarge }
{}

/// What stands behind a request's head that was judged, and where no head ends.
pub fn worked_readings_behind_request_heads()
    ensures whole { request.reading_behind_request_head 9 false false (codes "hi!")
        (Ok (request_head 1 (length_line (codes "2") ∷ [])))
        ≡ Spelled (put_request_read [] (Some (codes "hi"))) (codes "!") }
    ensures old { request.reading_behind_request_head 9 false false (codes "x") (Ok (request_head 0 []))
        ≡ Spelled (record (put_request_read [] None) { minor = 0 }) (codes "x") }
    ensures chunks { request.reading_behind_request_head 9 false false (codes "2\r\nhi\r\n0\r\n\r\n")
        (Ok (request_head 1 (coding_line (codes "chunked") ∷ [])))
        ≡ Spelled (put_request_read [] (Some (codes "hi"))) [] }
    ensures bad_chunks { request.reading_behind_request_head 9 false false (codes "x\r\n")
        (Ok (request_head 1 (coding_line (codes "chunked") ∷ [])))
        ≡ Faulty fault.Chunk }
    ensures large_chunk { request.reading_behind_request_head 1 false false (codes "2\r\n")
        (Ok (request_head 1 (coding_line (codes "chunked") ∷ [])))
        ≡ Faulty fault.TooLarge }
    ensures open { request.reading_behind_request_head 9 false false (codes "h")
        (Ok (request_head 1 (length_line (codes "2") ∷ [])))
        ≡ Incomplete }
    ensures cut { request.reading_behind_request_head 9 true false (codes "h")
        (Ok (request_head 1 (length_line (codes "2") ∷ [])))
        ≡ Faulty fault.Truncated }
    ensures waits { request.reading_behind_request_head 9 false false (codes "hi")
        (Ok (request_head 1 (expect_line (codes "100-continue") ∷ length_line (codes "2") ∷ [])))
        ≡ Continue }
    ensures continue_sent { request.reading_behind_request_head 9 false true (codes "hi")
        (Ok (request_head 1 (expect_line (codes "100-continue") ∷ length_line (codes "2") ∷ [])))
        ≡ Spelled (put_request_read (expect_line (codes "100-continue") ∷ []) (Some (codes "hi"))) [] }
    ensures bad_length { request.reading_behind_request_head 9 false false []
        (Ok (request_head 1 (length_line (codes "x") ∷ [])))
        ≡ Faulty fault.Length }
    ensures large { request.reading_behind_request_head 9 false false []
        (Ok (request_head 1 (length_line (codes "10") ∷ [])))
        ≡ Faulty fault.TooLarge }
    ensures bad_head { request.reading_behind_request_head 9 false false [] (Err fault.Version) ≡ Faulty fault.Version }
    ensures nothing { request.reading_without_request_head false [] ≡ Incomplete }
    ensures end { request.reading_without_request_head true [] ≡ Over }
    ensures empty_lines { request.reading_without_request_head true (codes "\r\n\n") ≡ Over }
    ensures empty_lines_wait { request.reading_without_request_head false (codes "\r\n\n") ≡ Incomplete }
    ensures begun { request.reading_without_request_head true (codes "\nG") ≡ Faulty fault.Truncated }
{}

/// The same of a response.
pub fn worked_readings_behind_response_heads()
    ensures whole { response.reading_behind_response_head 9 false false (codes "hi!")
        (Ok (response_head 404 1 (length_line (codes "2") ∷ [])))
        ≡ Spelled (response_with 404 [] (codes "hi") None) (codes "!") }
    ensures to_head { response.reading_behind_response_head 9 true false (codes "hi")
        (Ok (response_head 404 1 (length_line (codes "2") ∷ [])))
        ≡ Spelled (response_with 404 [] [] (Some 2)) (codes "hi") }
    ensures open { response.reading_behind_response_head 2 false false (codes "hi") (Ok (response_head 200 1 []))
        ≡ Incomplete }
    ensures closed { response.reading_behind_response_head 2 false true (codes "hi") (Ok (response_head 200 1 []))
        ≡ Spelled (response_with 200 [] (codes "hi") None) [] }
    ensures large { response.reading_behind_response_head 2 false false (codes "hi!") (Ok (response_head 200 1 []))
        ≡ Faulty fault.TooLarge }
    ensures cut { response.reading_behind_response_head 9 false true (codes "h")
        (Ok (response_head 200 1 (length_line (codes "2") ∷ [])))
        ≡ Faulty fault.Truncated }
    ensures bad_status { response.reading_behind_response_head 9 false false []
        (Ok (response_head 600 1 (length_line (codes "0") ∷ [])))
        ≡ Faulty fault.Status }
    ensures bad_head { response.reading_behind_response_head 9 false false [] (Err fault.Version)
        ≡ Faulty fault.Version }
    ensures begun { response.reading_without_response_head false (codes "H") ≡ Incomplete }
    ensures cut_head { response.reading_without_response_head true (codes "H") ≡ Faulty fault.Truncated }
{}
