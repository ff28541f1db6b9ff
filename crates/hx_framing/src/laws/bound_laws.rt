//! Laws on the limits of heads and contents, and on versions. They hold of the definitions, so each body is empty.
ghost use Rattle.std.specs.Prelude.{◌≡◌, ◌<◌, ◌≤◌, ℕ, Bool, List, [], None, Ok, Err, length, take, true, false};
ghost use Rattle.httparse.specs.Grammar.{RequestHead, ResponseHead, ReadsRequest, ReadsResponse};
ghost use Rattle.hx_framing.specs.declared.frame_fault.FrameFault.TheVariants as fault;
ghost use Rattle.hx_framing.specs.Chunks.{most_trailer_bytes};
ghost use Rattle.hx_framing.specs.Head as requests;
ghost use Rattle.hx_framing.specs.Head.{head_of_parsed_request, fault_of_bad_request_head};
ghost use Rattle.hx_framing.specs.HeadEnd.{head_length, most_field_lines, most_head_bytes};
ghost use Rattle.hx_framing.specs.Reading.{Incomplete, Faulty};
ghost use Rattle.hx_framing.specs.RequestReading as request;
ghost use Rattle.hx_framing.specs.ResponseReading as response;
ghost use Rattle.hx_framing.specs.SizeLine.{most_chunk_size_digits, most_chunk_extension_bytes};
ghost use Rattle.hx_framing.specs.SizeLine.{most_chunk_size_line_bytes};
ghost use Rattle.hx_framing.specs.StatusHead as responses;
ghost use Rattle.hx_framing.specs.StatusHead.{status_head_of, status_head_fault};
ghost use Rattle.hx_framing.specs.Version.{start_line, without_trailing_cr, begins_with_unsupported_version};
ghost use Rattle.hx_framing.specs.Version.{ends_with_unsupported_version};

/// The numbers of the limits.
pub fn worked_limits()
    ensures head_bytes { most_head_bytes ≡ 32768 }
    ensures field_lines { most_field_lines ≡ 100 }
    ensures trailer_bytes { most_trailer_bytes ≡ 32768 }
    ensures size_digits { most_chunk_size_digits ≡ 15 }
    ensures extension_bytes { most_chunk_extension_bytes ≡ 256 }
    ensures size_line_bytes { most_chunk_size_line_bytes ≡ 273 }
{}

/// A head of more than 32,768 bytes is refused, the empty lines in front counted; up to there it waits.
pub fn long_heads_are_refused()
    ensures request { (max_body : ℕ) → (ended : Bool) → (continue_sent : Bool) → (bytes : List ℕ)
        → head_length (take 32768 bytes) ≡ None
        → 32768 < length bytes → request.ReadsAs max_body ended continue_sent bytes (Faulty fault.Head) }
    ensures request_waits { (max_body : ℕ) → (continue_sent : Bool) → (bytes : List ℕ)
        → head_length (take 32768 bytes) ≡ None
        → length bytes ≤ 32768 → request.ReadsAs max_body false continue_sent bytes Incomplete }
    ensures response { (max_body : ℕ) → (to_head : Bool) → (ended : Bool) → (bytes : List ℕ)
        → head_length (take 32768 bytes) ≡ None
        → 32768 < length bytes → response.ReadsAs max_body to_head ended bytes (Faulty fault.Head) }
    ensures response_waits { (max_body : ℕ) → (to_head : Bool) → (bytes : List ℕ)
        → head_length (take 32768 bytes) ≡ None
        → length bytes ≤ 32768 → response.ReadsAs max_body to_head false bytes Incomplete }
{}

/// A head of the grammar is taken with up to 100 field lines, and refused with more.
pub fn heads_have_at_most_100_lines()
    ensures request { (bytes : List ℕ) → (head : RequestHead) → ReadsRequest bytes head [] → length head.fields ≤ 100
        → requests.RequestHeadIsJudged bytes (Ok (head_of_parsed_request head)) }
    ensures long_request { (bytes : List ℕ) → (head : RequestHead) → ReadsRequest bytes head []
        → 100 < length head.fields
        → requests.RequestHeadIsJudged bytes (Err (fault_of_bad_request_head bytes)) }
    ensures response { (bytes : List ℕ) → (head : ResponseHead) → ReadsResponse bytes head [] → length head.fields ≤ 100
        → responses.ResponseHeadIsJudged bytes (Ok (status_head_of head)) }
    ensures long_response { (bytes : List ℕ) → (head : ResponseHead) → ReadsResponse bytes head []
        → 100 < length head.fields
        → responses.ResponseHeadIsJudged bytes (Err (status_head_fault bytes)) }
{}

/// A message of another version is refused as that, whatever its lines.
pub fn other_versions_are_refused()
    ensures request { (bytes : List ℕ) → ends_with_unsupported_version (without_trailing_cr (start_line bytes)) ≡ true
        → requests.RequestHeadIsJudged bytes (Err fault.Version) }
    ensures response { (bytes : List ℕ) → begins_with_unsupported_version (start_line bytes) ≡ true
        → responses.ResponseHeadIsJudged bytes (Err fault.Version) }
{}
