//! What is true of each head that is taken, and the faults of bytes that are none.
ghost use Rattle.std.specs.Prelude.{◌≡◌, ℕ, ◌+◌, ◌≤◌, ◌∷◌, ◌++◌, [], List, true, false, Ok, codes};
ghost use Rattle.std.specs.List.{list_all};
ghost use Rattle.hx_framing.specs.declared.frame_fault.FrameFault.TheVariants as fault;
ghost use Rattle.hx_framing.specs.declared.heads.request_head.Head.{Head};
ghost use Rattle.hx_framing.specs.declared.heads.status_head.StatusHead.{StatusHead};
ghost use Rattle.hx_framing.specs.Head as requests;
ghost use Rattle.hx_framing.specs.Head.{fault_of_bad_request_head};
ghost use Rattle.hx_framing.specs.StatusHead as responses;
ghost use Rattle.hx_framing.specs.StatusHead.{status_head_fault};
ghost use Rattle.hx_framing.specs.Version.{is_unsupported_version};
ghost use Rattle.hx_framing.specs.HeadLines.{is_field_line, HeadHasFieldLinesOfNames, is_wellformed_field};

/// Version takes the place of Head where the request line ends with another version.
pub fn worked_versions_of_requests()
    ensures letter_in_front { fault_of_bad_request_head (codes "xHTTP/9.9\r\n\r\n") ≡ fault.Version }
    ensures preface { fault_of_bad_request_head (codes "PRI * HTTP/2.0\r\n\r\n") ≡ fault.Version }
    ensures line_feed_alone { fault_of_bad_request_head (codes "PRI * HTTP/2.0\n\n") ≡ fault.Version }
    ensures empty_lines { fault_of_bad_request_head (codes "\r\n\nGET / HTTP/1.2\r\n\r\n") ≡ fault.Version }
    ensures folded { fault_of_bad_request_head (codes "GET / HTTP/0.9\r\na: b\r\n c\r\n\r\n") ≡ fault.Version }
    ensures space_behind { fault_of_bad_request_head (codes "GET / HTTP/2.0 \r\n\r\n") ≡ fault.Head }
    ensures space_behind_alone { fault_of_bad_request_head (codes "GET / HTTP/2.0 \n\n") ≡ fault.Head }
    ensures two_returns { fault_of_bad_request_head (codes "GET / HTTP/2.0\r\r\n\r\n") ≡ fault.Head }
    ensures two_digits { fault_of_bad_request_head (codes "GET / HTTP/1.10\r\n\r\n") ≡ fault.Head }
    ensures two_digits_alone { fault_of_bad_request_head (codes "GET / HTTP/1.10\n\n") ≡ fault.Head }
    ensures two_digits_in_front { fault_of_bad_request_head (codes "GET / HTTP/11.1\r\n\r\n") ≡ fault.Head }
    ensures one_digit { fault_of_bad_request_head (codes "GET / HTTP/2\r\n\r\n") ≡ fault.Head }
    ensures lower_case { fault_of_bad_request_head (codes "GET / http/2.0\r\n\r\n") ≡ fault.Head }
    ensures known { fault_of_bad_request_head (codes "GET  / HTTP/1.1\r\n\r\n") ≡ fault.Head }
    ensures known_old { fault_of_bad_request_head (codes "GET  / HTTP/1.0\n\n") ≡ fault.Head }
    ensures second_line { fault_of_bad_request_head (codes "GET\r\nHTTP/2.0\r\n\r\n") ≡ fault.Head }
    ensures empty { fault_of_bad_request_head (codes "\r\n") ≡ fault.Head }
{}

/// HTTP-version = "HTTP/" DIGIT "." DIGIT (RFC 9112, section 2.3): what is another version than 1.0
/// and 1.1 has this form, and each two digits but theirs are one.
pub fn versions_have_two_digits()
    ensures form { (text : List ℕ) → is_unsupported_version text ≡ true
        → (major : ℕ) × (minor : ℕ) × (major ≤ 9) × (minor ≤ 9)
        × (text ≡ codes "HTTP/" ++ (48 + major) ∷ 46 ∷ (48 + minor) ∷ []) }
    ensures others { (major : ℕ) → (minor : ℕ) → major ≤ 9 → minor ≤ 9 → ¬ ((major ≡ 1) × (minor ≤ 1))
        → is_unsupported_version (codes "HTTP/" ++ (48 + major) ∷ 46 ∷ (48 + minor) ∷ []) ≡ true }
    ensures known { (minor : ℕ) → minor ≤ 1 → is_unsupported_version (codes "HTTP/1." ++ (48 + minor) ∷ []) ≡ false }
{}

/// Version takes the place of Head where the status line begins with another version.
pub fn worked_versions_of_responses()
    ensures other { status_head_fault (codes "HTTP/2.0 200 \r\n\r\n") ≡ fault.Version }
    ensures later { status_head_fault (codes "HTTP/1.2 200 \r\n\r\n") ≡ fault.Version }
    ensures without_space { status_head_fault (codes "HTTP/0.9x\n\n") ≡ fault.Version }
    ensures alone { status_head_fault (codes "HTTP/3.1\n\n") ≡ fault.Version }
    ensures third_digit { status_head_fault (codes "HTTP/1.20 200 \r\n\r\n") ≡ fault.Version }
    ensures empty_lines { status_head_fault (codes "\n\r\nHTTP/2.0 200 \r\n\r\n") ≡ fault.Version }
    ensures two_digits { status_head_fault (codes "HTTP/10.1 200 \r\n\r\n") ≡ fault.Head }
    ensures known_and_digit { status_head_fault (codes "HTTP/1.10 200 \r\n\r\n") ≡ fault.Head }
    ensures one_digit { status_head_fault (codes "HTTP/2 200 \r\n\r\n") ≡ fault.Head }
    ensures letter_in_front { status_head_fault (codes "xHTTP/2.0 200 \r\n\r\n") ≡ fault.Head }
    ensures at_the_end { status_head_fault (codes "200 HTTP/2.0\r\n\r\n") ≡ fault.Head }
    ensures known { status_head_fault (codes "HTTP/1.1 20 \r\n\r\n") ≡ fault.Head }
    ensures known_old { status_head_fault (codes "HTTP/1.0 2000 \r\n\r\n") ≡ fault.Head }
{}

/// Behind the start line of a request that is taken stand its field lines, each with a token before
/// its first colon and no line end inside, and an empty line.
pub fn request_heads_have_wellformed_lines()
    ensures lines { (bytes : List ℕ) → (head : Head) → requests.RequestHeadIsJudged bytes (Ok head)
        → HeadHasFieldLinesOfNames bytes head.fields }
    ensures sound { (bytes : List ℕ) → (head : Head) → requests.RequestHeadIsJudged bytes (Ok head)
        → list_all is_wellformed_field head.fields ≡ true }
{}

/// The same of a response.
pub fn response_heads_have_wellformed_lines()
    ensures lines { (bytes : List ℕ) → (head : StatusHead) → responses.ResponseHeadIsJudged bytes (Ok head)
        → HeadHasFieldLinesOfNames bytes head.fields }
    ensures sound { (bytes : List ℕ) → (head : StatusHead) → responses.ResponseHeadIsJudged bytes (Ok head)
        → list_all is_wellformed_field head.fields ≡ true }
{}

/// A folded line, one with a space before its colon and one without a name are no field lines.
pub fn worked_malformed_field_lines()
    ensures plain { is_field_line (codes "a: b\r") ≡ true }
    ensures line_feed_alone { is_field_line (codes "a:b") ≡ true }
    ensures empty_value { is_field_line (codes "a:\r") ≡ true }
    ensures second_colon { is_field_line (codes "a:b :c\r") ≡ true }
    ensures folded { is_field_line (codes " b: c\r") ≡ false }
    ensures folded_by_tab { is_field_line (codes "\tb: c") ≡ false }
    ensures space_before_colon { is_field_line (codes "a : b\r") ≡ false }
    ensures no_name { is_field_line (codes ": b\r") ≡ false }
    ensures no_colon { is_field_line (codes "ab\r") ≡ false }
    ensures return_inside { is_field_line (codes "a: b\rc\r") ≡ false }
    ensures two_returns { is_field_line (codes "a: b\r\r") ≡ false }
{}
