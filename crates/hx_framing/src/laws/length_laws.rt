//! How heads with these length fields are judged, on values that can be judged by eye.
ghost use Rattle.std.specs.Prelude.{◌≡◌, ◌∷◌, [], codes, Some, None, Ok, Err, true, false};
ghost use Rattle.hx_fields.specs.Examples.{line};
ghost use Rattle.hx_framing.specs.declared.frame_fault.FrameFault.TheVariants as fault;
ghost use Rattle.hx_framing.specs.declared.lengths.framing.Framing.TheVariants as framing;
ghost use Rattle.hx_framing.specs.Lengths.{announced_length_in_answer_to_head, is_interim, without_length_fields};
ghost use Rattle.hx_framing.specs.LengthExamples.{length_line, coding_line, expect_line, response_head};
ghost use Rattle.hx_framing.specs.LengthExamples.{request_framing_of_put, framing_of_response_with};
ghost use Rattle.hx_framing.specs.LengthExamples.{framing_of_answer_to_head, framing_that_wants_no_continue};
ghost use Rattle.hx_framing.specs.LengthExamples.{framing_of_length};
ghost use Rattle.hx_framing.specs.LengthExamples.{framing_with_continue};

/// A length may be listed more than once, with zeros in front, but with nothing beside the digits.
pub fn worked_listed_lengths()
    ensures listed { request_framing_of_put 1 (length_line (codes "5,5") ∷ []) ≡ framing_of_length 5 }
    ensures zeros { request_framing_of_put 1 (length_line (codes "05,5") ∷ []) ≡ framing_of_length 5 }
    ensures lines { request_framing_of_put 1 (length_line (codes "5") ∷ length_line (codes "5") ∷ [])
        ≡ framing_of_length 5 }
    ensures none { request_framing_of_put 1 (length_line (codes "0") ∷ []) ≡ framing_of_length 0 }
    ensures absent { request_framing_of_put 1 [] ≡ framing_that_wants_no_continue framing.Nothing }
    ensures other { request_framing_of_put 1 (length_line (codes "5,6") ∷ []) ≡ Err fault.Length }
    ensures other_line { request_framing_of_put 1 (length_line (codes "5") ∷ length_line (codes "6") ∷ [])
        ≡ Err fault.Length }
    ensures empty_piece { request_framing_of_put 1 (length_line (codes "5,") ∷ []) ≡ Err fault.Length }
    ensures empty_piece_of_0 { request_framing_of_put 1 (length_line (codes "0,") ∷ []) ≡ Err fault.Length }
    ensures space { request_framing_of_put 1 (length_line (codes "5, 5") ∷ []) ≡ Err fault.Length }
    ensures letter { request_framing_of_put 1 (length_line (codes "a5") ∷ []) ≡ Err fault.Length }
    ensures plus { request_framing_of_put 1 (length_line (codes "+5") ∷ []) ≡ Err fault.Length }
    ensures hex { request_framing_of_put 1 (length_line (codes "0x5") ∷ []) ≡ Err fault.Length }
    ensures empty { request_framing_of_put 1 (length_line [] ∷ []) ≡ Err fault.Length }
    ensures minus { request_framing_of_put 1 (length_line (codes "-0") ∷ []) ≡ Err fault.Length }
{}

/// Lengths compare as numbers of any size, and only then with the most that may be read.
pub fn worked_large_lengths()
    ensures most { request_framing_of_put 1 (length_line (codes "1000") ∷ []) ≡ framing_of_length 1000 }
    ensures above { request_framing_of_put 1 (length_line (codes "1001") ∷ []) ≡ Err fault.TooLarge }
    ensures two { request_framing_of_put 1 (length_line (codes "18446744073709551616,18446744073709551617") ∷ [])
        ≡ Err fault.Length }
    ensures one_twice { request_framing_of_put 1 (length_line (codes "18446744073709551616,18446744073709551616") ∷ [])
        ≡ Err fault.TooLarge }
{}

/// A request's content comes in chunks where chunked is the only coding.
pub fn worked_codings_of_requests()
    ensures chunked { request_framing_of_put 1 (coding_line (codes "chunked") ∷ [])
        ≡ framing_that_wants_no_continue framing.Chunked }
    ensures any_case { request_framing_of_put 1 (coding_line (codes "Chunked") ∷ [])
        ≡ framing_that_wants_no_continue framing.Chunked }
    ensures two_codings { request_framing_of_put 1 (coding_line (codes "gzip, chunked") ∷ []) ≡ Err fault.Coding }
    ensures two_lines { request_framing_of_put 1 (coding_line (codes "gzip") ∷ coding_line (codes "chunked") ∷ [])
        ≡ Err fault.Coding }
    ensures other { request_framing_of_put 1 (coding_line (codes "gzip") ∷ []) ≡ Err fault.Length }
    ensures not_last { request_framing_of_put 1 (coding_line (codes "chunked, gzip") ∷ []) ≡ Err fault.Length }
    ensures twice { request_framing_of_put 1 (coding_line (codes "chunked, chunked") ∷ []) ≡ Err fault.Length }
    ensures parameter { request_framing_of_put 1 (coding_line (codes "chunked;q=1") ∷ []) ≡ Err fault.Length }
    ensures empty { request_framing_of_put 1 (coding_line [] ∷ []) ≡ Err fault.Length }
    ensures old_version { request_framing_of_put 0 (coding_line (codes "chunked") ∷ []) ≡ Err fault.Length }
    ensures both { request_framing_of_put 1 (coding_line (codes "chunked") ∷ length_line (codes "5") ∷ [])
        ≡ Err fault.BothLengths }
    ensures both_in_old_version { request_framing_of_put 0 (length_line (codes "5") ∷ coding_line (codes "chunked") ∷ [])
        ≡ Err fault.BothLengths }
{}

/// A continue is waited for where there is content to send, and no other expectation is met.
pub fn worked_expectations()
    ensures waits { request_framing_of_put 1 (expect_line (codes "100-Continue") ∷ length_line (codes "5") ∷ [])
        ≡ framing_with_continue (framing.Announced 5) }
    ensures chunks { request_framing_of_put 1 (expect_line (codes "100-continue") ∷ coding_line (codes "chunked") ∷ [])
        ≡ framing_with_continue framing.Chunked }
    ensures one_byte { request_framing_of_put 1 (expect_line (codes "100-continue") ∷ length_line (codes "1") ∷ [])
        ≡ framing_with_continue (framing.Announced 1) }
    ensures no_bytes { request_framing_of_put 1 (expect_line (codes "100-continue") ∷ length_line (codes "0") ∷ [])
        ≡ framing_of_length 0 }
    ensures no_content { request_framing_of_put 1 (expect_line (codes "100-continue") ∷ [])
        ≡ framing_that_wants_no_continue framing.Nothing }
    ensures two_lines { request_framing_of_put 1 (expect_line (codes "100-continue") ∷ expect_line (codes "100-continue") ∷ [])
        ≡ Err fault.Expect }
    ensures empty { request_framing_of_put 1 (expect_line [] ∷ []) ≡ Err fault.Expect }
    ensures comma { request_framing_of_put 1 (expect_line (codes "100-continue,") ∷ []) ≡ Err fault.Expect }
    ensures length_first { request_framing_of_put 1 (expect_line (codes "x") ∷ length_line (codes "1001") ∷ [])
        ≡ Err fault.TooLarge }
    ensures old_version { request_framing_of_put 0 (expect_line (codes "100-continue") ∷ length_line (codes "5") ∷ [])
        ≡ framing_of_length 5 }
    ensures other_in_old_version { request_framing_of_put 0 (expect_line (codes "x") ∷ [])
        ≡ framing_that_wants_no_continue framing.Nothing }
{}

/// A response without length fields runs until its connection closes; its only coding is chunked.
pub fn worked_lengths_of_responses()
    ensures length { framing_of_response_with 200 1 (length_line (codes "5,5") ∷ []) ≡ Ok (framing.Announced 5) }
    ensures bad_length { framing_of_response_with 200 1 (length_line (codes "5,6") ∷ []) ≡ Err fault.Length }
    ensures large { framing_of_response_with 200 1 (length_line (codes "1001") ∷ []) ≡ Err fault.TooLarge }
    ensures open { framing_of_response_with 200 1 [] ≡ Ok framing.UntilClose }
    ensures open_in_old_version { framing_of_response_with 200 0 [] ≡ Ok framing.UntilClose }
    ensures chunked { framing_of_response_with 200 1 (coding_line (codes "CHUNKED") ∷ []) ≡ Ok framing.Chunked }
    ensures two_codings { framing_of_response_with 200 1 (coding_line (codes "gzip, chunked") ∷ [])
        ≡ Err fault.Coding }
    ensures other { framing_of_response_with 200 1 (coding_line (codes "gzip") ∷ []) ≡ Err fault.Coding }
    ensures not_last { framing_of_response_with 200 1 (coding_line (codes "chunked, gzip") ∷ []) ≡ Err fault.Coding }
    ensures twice { framing_of_response_with 200 1 (coding_line (codes "chunked, chunked") ∷ []) ≡ Err fault.Coding }
    ensures parameter { framing_of_response_with 200 1 (coding_line (codes "chunked;q=1") ∷ []) ≡ Err fault.Coding }
    ensures empty { framing_of_response_with 200 1 (coding_line [] ∷ []) ≡ Err fault.Coding }
    ensures old_version { framing_of_response_with 200 0 (coding_line (codes "chunked") ∷ []) ≡ Err fault.Length }
    ensures both_in_old_version { framing_of_response_with 200 0 (length_line (codes "5") ∷ coding_line (codes "gzip") ∷ [])
        ≡ Err fault.BothLengths }
{}

/// Without content a response's length fields aren't judged. A refused status is the last fault.
pub fn worked_framing_by_status()
    ensures no_interim { is_interim 99 ≡ false }
    ensures first_interim { is_interim 100 ≡ true }
    ensures switch_is_none { is_interim 101 ≡ false }
    ensures second_interim { is_interim 102 ≡ true }
    ensures last_interim { is_interim 199 ≡ true }
    ensures first_final { is_interim 200 ≡ false }
    ensures continue_is_taken { framing_of_response_with 100 1 (length_line (codes "x") ∷ []) ≡ Ok framing.Nothing }
    ensures reset { framing_of_response_with 205 1 (length_line (codes "5") ∷ []) ≡ Ok (framing.Announced 5) }
    ensures interim { framing_of_response_with 103 1 (length_line (codes "x") ∷ []) ≡ Ok framing.Nothing }
    ensures no_content { framing_of_response_with 204 1 (length_line (codes "5") ∷ coding_line (codes "x") ∷ [])
        ≡ Ok framing.Nothing }
    ensures not_modified { framing_of_response_with 304 1 (length_line (codes "1001") ∷ []) ≡ Ok framing.Nothing }
    ensures to_head { framing_of_answer_to_head 200 (length_line (codes "x") ∷ []) ≡ Ok framing.Nothing }
    ensures switch { framing_of_response_with 101 1 (length_line (codes "x") ∷ []) ≡ Err fault.Status }
    ensures low { framing_of_response_with 99 1 [] ≡ Err fault.Status }
    ensures high { framing_of_response_with 600 1 (length_line (codes "5") ∷ []) ≡ Err fault.Status }
    ensures last { framing_of_response_with 599 1 (length_line (codes "5") ∷ []) ≡ Ok (framing.Announced 5) }
    ensures large_first { framing_of_response_with 600 1 (length_line (codes "1001") ∷ []) ≡ Err fault.TooLarge }
    ensures high_to_head { framing_of_answer_to_head 600 (length_line (codes "1001") ∷ []) ≡ Err fault.Status }
{}

/// The length that an answer to HEAD announces.
pub fn worked_announced_lengths_to_head()
    ensures length { announced_length_in_answer_to_head true (response_head 200 1 (length_line (codes "2,2") ∷ []))
        ≡ Some 2 }
    ensures space { announced_length_in_answer_to_head true (response_head 200 1 (length_line (codes "2, 2") ∷ []))
        ≡ None }
    ensures absent { announced_length_in_answer_to_head true (response_head 200 1 []) ≡ None }
    ensures most { announced_length_in_answer_to_head true (response_head 200 1 (length_line (codes "18446744073709551615") ∷ []))
        ≡ Some 18446744073709551615 }
    ensures above { announced_length_in_answer_to_head true (response_head 200 1 (length_line (codes "18446744073709551616") ∷ []))
        ≡ None }
    ensures coded { announced_length_in_answer_to_head true (response_head 200 1
        (length_line (codes "2") ∷ coding_line (codes "chunked") ∷ []))
        ≡ None }
    ensures to_get { announced_length_in_answer_to_head false (response_head 200 1 (length_line (codes "2") ∷ []))
        ≡ None }
{}

/// The length fields are taken out, and the other lines stay in order.
pub fn worked_length_fields_are_taken_out()
    ensures expectation { without_length_fields (expect_line (codes "x") ∷ []) ≡ expect_line (codes "x") ∷ [] }
    ensures lengths { without_length_fields (line (codes "a") (codes "1") ∷ line (codes "content-length") (codes "2")
        ∷ line (codes "b") (codes "2") ∷ line (codes "TRANSFER-ENCODING") (codes "chunked")
        ∷ length_line (codes "x") ∷ [])
        ≡ line (codes "a") (codes "1") ∷ line (codes "b") (codes "2") ∷ [] }
{}
