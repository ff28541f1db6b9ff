//! What the definitions give on values that can be judged by eye.
ghost use Rattle.std.specs.Prelude.{◌≡◌, ◌∷◌, [], codes, length, Some, None, true, false};
ghost use Rattle.hx_fields.specs.Examples.{line};
ghost use Rattle.hx_framing.specs.declared.writing.AddedLine.{AddedLine};
ghost use Rattle.hx_framing.specs.Examples.{get_request, first_forwarded_request, stored_response_fields};
ghost use Rattle.hx_framing.specs.Examples.{hit_response_fields};
ghost use Rattle.hx_framing.specs.HeadEnd.{empty_lines_length, head_length};
ghost use Rattle.hx_framing.specs.Text.{field_of_added_line, request_text, response_text, continue_text};

/// The request that goes to the origin in the first run.
pub fn worked_forwarded_text()
    ensures text { request_text first_forwarded_request
        ≡ codes "GET /a HTTP/1.1\r\nHost: h\r\nVia: 1.1 edge\r\nConnection: close\r\n\r\n" }
    ensures size { length (request_text first_forwarded_request) ≡ 62 }
    ensures content { request_text (record first_forwarded_request { content = Some (codes "hi") })
        ≡ codes "GET /a HTTP/1.1\r\nHost: h\r\nVia: 1.1 edge\r\nContent-Length: 2\r\nConnection: close\r\n\r\nhi" }
{}

/// The two replies of the first run.
pub fn worked_reply_texts()
    ensures stored { response_text 200 stored_response_fields (Some 2) false (codes "hi")
        ≡ codes "HTTP/1.1 200 \r\nDate: Thu, 01 Jan 1970 00:01:41 GMT\r\nCache-Control: max-age=60\r\nETag: \"v1\"\r\nCache-Status: edge;fwd=uri-miss;ttl=59;stored\r\nContent-Length: 2\r\n\r\nhi" }
    ensures stored_size { length (response_text 200 stored_response_fields (Some 2) false (codes "hi"))
        ≡ 161 }
    ensures hit { response_text 200 hit_response_fields (Some 2) false (codes "hi")
        ≡ codes "HTTP/1.1 200 \r\nDate: Thu, 01 Jan 1970 00:01:41 GMT\r\nCache-Control: max-age=60\r\nETag: \"v1\"\r\nAge: 30\r\nCache-Status: edge;hit;ttl=30\r\nContent-Length: 2\r\n\r\nhi" }
    ensures hit_size { length (response_text 200 hit_response_fields (Some 2) false (codes "hi")) ≡ 154 }
    ensures closed { response_text 400 [] (Some 0) true []
        ≡ codes "HTTP/1.1 400 \r\nContent-Length: 0\r\nConnection: close\r\n\r\n" }
    ensures no_length { response_text 304 [] None false [] ≡ codes "HTTP/1.1 304 \r\n\r\n" }
{}

/// What asks a client for its content: 25 bytes.
pub fn worked_continue_text()
    ensures text { continue_text ≡ codes "HTTP/1.1 100 Continue\r\n\r\n" }
    ensures size { length continue_text ≡ 25 }
{}

/// A head ends behind its first empty line; empty lines in front belong to it.
pub fn worked_head_lengths()
    ensures whole { head_length get_request ≡ Some 28 }
    ensures bare { head_length (codes "A\n\nB") ≡ Some 3 }
    ensures mixed { head_length (codes "A\n\r\nB") ≡ Some 4 }
    ensures blank { head_length (codes "\r\n\nA\r\n\r\nB") ≡ Some 8 }
    ensures lone_return { head_length (codes "A\r\n\r\r\n") ≡ None }
    ensures open { head_length (codes "A\r\n\r") ≡ None }
{}

/// Empty lines in front of a head are dropped: each CRLF or LF, and no CR alone.
pub fn empty_lines_before_a_head_are_dropped()
    ensures nothing { empty_lines_length [] ≡ 0 }
    ensures none { empty_lines_length (codes "A\n") ≡ 0 }
    ensures lone_byte { empty_lines_length (codes "A") ≡ 0 }
    ensures line_feed { empty_lines_length (codes "\n") ≡ 1 }
    ensures lone_return { empty_lines_length (codes "\r") ≡ 0 }
    ensures return_in_front { empty_lines_length (codes "\rA") ≡ 0 }
    ensures several { empty_lines_length (codes "\r\n\r\n\n\nA") ≡ 6 }
{}

/// A line that is added has its name and its value.
pub fn worked_added_lines()
    ensures { (added : AddedLine) → field_of_added_line added ≡ line added.name.now added.value.now }
{}
