//! What the definitions of ranges say, in the standard's words and on its examples: each function's contract is a law,
//! and its body is empty.
ghost use Rattle.std.specs.Prelude.{◌≡◌, [], ◌∷◌, codes, true, false, Some, None};
ghost use Rattle.hx_fields.specs.Examples.{line};
ghost use Rattle.hx_validate.specs.Cases.{asked_get_with, etag_line, last_modified_line, stored_with_fields};
ghost use Rattle.hx_validate.specs.RangeCases.{answer_to_range_text, range_line, if_range_line, answer_with};
ghost use Rattle.hx_validate.specs.RangeCases.{stored_of_ten_bytes};
ghost use Rattle.hx_validate.specs.RangeCases.{stored_part_of_ten_bytes, range_status_for_line_count};
ghost use Rattle.hx_validate.specs.Ranges.{byte_range_of_value, range_asked, range_answer, response_as_range_or_whole};
ghost use Rattle.hx_validate.specs.Ranges.{if_range_holds, fields_of_206, fields_of_416, fields_of_416_to_answer};
ghost use Rattle.hx_validate.specs.RangeWords.{PartIsWithinTheContent, PartHasExactlyTheBytesAskedFor};
ghost use Rattle.hx_validate.specs.RangeWords.{UnsatisfiableRangeAsksForNoByte};
ghost use Rattle.hx_validate.specs.RangeWords.{RangeOfAnotherMethodIsIgnored, OnlyA200HasParts};
ghost use Rattle.hx_validate.specs.RangeWords.{WithoutOneByteRangeTheWholeIsSent, FailedIfRangeSendsTheWhole};
ghost use Rattle.hx_validate.specs.declared.ranges.ByteRange.TheVariants.{FromTo, From, Last};
ghost use Rattle.hx_validate.specs.declared.ranges.RangeAnswer.TheVariants.{Whole, Part, Unsatisfiable};

/// A part is what is there of what is asked for, and nothing else; and what can't be satisfied asks for nothing that is
/// there (RFC 9110, section 14.1.2).
pub fn a_206_part_is_exactly_what_is_asked_for()
    ensures within { PartIsWithinTheContent }
    ensures asked { PartHasExactlyTheBytesAskedFor }
    ensures beyond { UnsatisfiableRangeAsksForNoByte }
{}

/// A range of another method than GET, of what wouldn't be sent as a 200, or whose If-Range is false, is ignored, and
/// whatever asks for no one range of bytes is sent the whole (RFC 9110, sections 13.1.5 and 14.2).
pub fn without_a_valid_range_the_whole_is_sent()
    ensures method { RangeOfAnotherMethodIsIgnored }
    ensures status { OnlyA200HasParts }
    ensures range { WithoutOneByteRangeTheWholeIsSent }
    ensures if_range { FailedIfRangeSendsTheWhole }
{}

/// The examples of RFC 9110, section 14.1.2, of 10,000 bytes, and others round them.
pub fn worked_ranges_of_the_standard()
    ensures first_500 { answer_to_range_text 10000 (codes "bytes=0-499") ≡ Part 0 499 }
    ensures second_500 { answer_to_range_text 10000 (codes "bytes=500-999") ≡ Part 500 999 }
    ensures final_500 { answer_to_range_text 10000 (codes "bytes=-500") ≡ Part 9500 9999 }
    ensures from_9500 { answer_to_range_text 10000 (codes "bytes=9500-") ≡ Part 9500 9999 }
    ensures first_byte { answer_to_range_text 10000 (codes "bytes=0-0") ≡ Part 0 0 }
    ensures last_byte { answer_to_range_text 10000 (codes "bytes=-1") ≡ Part 9999 9999 }
    ensures all { answer_to_range_text 10000 (codes "bytes=0-") ≡ Part 0 9999 }
    ensures beyond_the_end { answer_to_range_text 10000 (codes "bytes=9999-10000") ≡ Part 9999 9999 }
    ensures behind_the_end { answer_to_range_text 10000 (codes "bytes=10000-") ≡ Unsatisfiable }
    ensures from_behind_the_end { answer_to_range_text 10000 (codes "bytes=10000-10001") ≡ Unsatisfiable }
    ensures longer_than_all { answer_to_range_text 10000 (codes "bytes=-10001") ≡ Part 0 9999 }
    ensures no_byte_at_the_end { answer_to_range_text 10000 (codes "bytes=-0") ≡ Unsatisfiable }
    ensures of_nothing { answer_to_range_text 0 (codes "bytes=0-") ≡ Unsatisfiable }
    ensures end_of_nothing { answer_to_range_text 0 (codes "bytes=-5") ≡ Whole }
    ensures of_one { answer_to_range_text 1 (codes "bytes=0-0") ≡ Part 0 0 }
    ensures of_one_beyond { answer_to_range_text 1 (codes "bytes=1-1") ≡ Unsatisfiable }
    ensures large_last { answer_to_range_text 10000 (codes "bytes=1-18446744073709551616") ≡ Part 1 9999 }
    ensures large_first { answer_to_range_text 10000 (codes "bytes=99999999999999999999999-") ≡ Unsatisfiable }
    ensures large_suffix { answer_to_range_text 10000 (codes "bytes=-99999999999999999999999") ≡ Part 0 9999 }
    ensures zeros { answer_to_range_text 10000 (codes "bytes=000000000000000000000001-02") ≡ Part 1 2 }
{}

/// The texts of ranges: one range of bytes, whose unit has no case; any other asks for none (RFC 9110, sections 14.1
/// and 14.2).
pub fn worked_range_texts()
    ensures from_to { byte_range_of_value (codes "bytes=1-2") ≡ Some (FromTo 1 2) }
    ensures from { byte_range_of_value (codes "bytes=7-") ≡ Some (From 7) }
    ensures last { byte_range_of_value (codes "bytes=-3") ≡ Some (Last 3) }
    ensures large { byte_range_of_value (codes "bytes=4294967296-") ≡ Some (From 4294967296) }
    ensures larger { byte_range_of_value (codes "bytes=-18446744073709551616") ≡ Some (Last 18446744073709551615) }
    ensures upper_case { byte_range_of_value (codes "BYTES=0-0") ≡ Some (FromTo 0 0) }
    ensures turned { byte_range_of_value (codes "bytes=2-1") ≡ None }
    ensures two { byte_range_of_value (codes "bytes=0-0,-1") ≡ None }
    ensures two_apart { byte_range_of_value (codes "bytes=500-600,601-999") ≡ None }
    ensures empty_member { byte_range_of_value (codes "bytes=0-1,") ≡ None }
    ensures other_unit { byte_range_of_value (codes "items=0-1") ≡ None }
    ensures longer_unit { byte_range_of_value (codes "bytess=0-1") ≡ None }
    ensures no_unit { byte_range_of_value (codes "0-1") ≡ None }
    ensures no_range { byte_range_of_value (codes "bytes=") ≡ None }
    ensures hyphen_alone { byte_range_of_value (codes "bytes=-") ≡ None }
    ensures no_hyphen { byte_range_of_value (codes "bytes=5") ≡ None }
    ensures blank { byte_range_of_value (codes "bytes= 0-1") ≡ None }
    ensures blank_within { byte_range_of_value (codes "bytes=0 - 1") ≡ None }
    ensures sign { byte_range_of_value (codes "bytes=+1-2") ≡ None }
    ensures letters { byte_range_of_value (codes "bytes=a-b") ≡ None }
    ensures hexadecimal { byte_range_of_value (codes "bytes=0-f") ≡ None }
    ensures two_hyphens { byte_range_of_value (codes "bytes=1--2") ≡ None }
    ensures empty { byte_range_of_value [] ≡ None }
    ensures two_lines { range_asked (range_line (codes "bytes=0-1") ∷ range_line (codes "bytes=0-1") ∷ []) ≡ None }
    ensures no_line { range_asked [] ≡ None }
{}

/// If-Range: an entity tag by strong comparison, and a date that is Last-Modified to the byte and a minute at least
/// before the response was made (RFC 9110, sections 8.8.2.2 and 13.1.5).
#[tactic(auto, unfolding(httpdate::proofs::OnLiterals::httpdate_on_literals))]
pub fn worked_if_range()
    ensures none { answer_with [] (etag_line (codes "\"e\"") ∷ []) ≡ Part 1 1 }
    ensures tag { answer_with (if_range_line (codes "\"e\"") ∷ []) (etag_line (codes "\"e\"") ∷ []) ≡ Part 1 1 }
    ensures other_tag { answer_with (if_range_line (codes "\"f\"") ∷ []) (etag_line (codes "\"e\"") ∷ []) ≡ Whole }
    ensures weak { answer_with (if_range_line (codes "W/\"e\"") ∷ []) (etag_line (codes "W/\"e\"") ∷ []) ≡ Whole }
    ensures weak_of_it { answer_with (if_range_line (codes "W/\"e\"") ∷ []) (etag_line (codes "\"e\"") ∷ []) ≡ Whole }
    ensures weak_stored { answer_with (if_range_line (codes "\"e\"") ∷ []) (etag_line (codes "W/\"e\"") ∷ []) ≡ Whole }
    ensures no_tag { answer_with (if_range_line (codes "\"e\"") ∷ []) [] ≡ Whole }
    ensures star { answer_with (if_range_line (codes "*") ∷ []) (etag_line (codes "\"e\"") ∷ []) ≡ Whole }
    ensures two { answer_with (if_range_line (codes "\"e\"") ∷ if_range_line (codes "\"e\"") ∷ [])
        (etag_line (codes "\"e\"") ∷ []) ≡ Whole }
    ensures date { answer_with (if_range_line (codes "Thu, 01 Jan 1970 00:00:40 GMT") ∷ [])
        (last_modified_line (codes "Thu, 01 Jan 1970 00:00:40 GMT") ∷ []) ≡ Part 1 1 }
    ensures later_date { answer_with (if_range_line (codes "Thu, 01 Jan 1970 00:00:41 GMT") ∷ [])
        (last_modified_line (codes "Thu, 01 Jan 1970 00:00:40 GMT") ∷ []) ≡ Whole }
    ensures earlier_date { answer_with (if_range_line (codes "Thu, 01 Jan 1970 00:00:39 GMT") ∷ [])
        (last_modified_line (codes "Thu, 01 Jan 1970 00:00:40 GMT") ∷ []) ≡ Whole }
    ensures date_of_this_minute { answer_with (if_range_line (codes "Thu, 01 Jan 1970 00:00:41 GMT") ∷ [])
        (last_modified_line (codes "Thu, 01 Jan 1970 00:00:41 GMT") ∷ []) ≡ Whole }
    ensures no_date { answer_with (if_range_line (codes "yesterday") ∷ [])
        (last_modified_line (codes "yesterday") ∷ []) ≡ Whole }
{}

/// What is no 200 to a GET has no parts.
pub fn worked_only_a_200_to_get_has_parts()
    ensures head { range_answer (record (asked_get_with (range_line (codes "bytes=1-") ∷ [])) { method = codes "HEAD" })
        (stored_with_fields []) ≡ Whole }
    ensures other_status { range_answer (asked_get_with (range_line (codes "bytes=1-") ∷ []))
        (record (stored_with_fields []) { status = 404 }) ≡ Whole }
    ensures beyond { range_answer (asked_get_with (range_line (codes "bytes=2-") ∷ [])) (stored_with_fields [])
        ≡ Unsatisfiable }
    ensures whole { range_answer (asked_get_with []) (stored_with_fields []) ≡ Whole }
{}

/// The lines of a part and of a 416 (RFC 9110, sections 14.4, 15.3.7 and 15.5.17).
pub fn worked_lines_of_206_and_416()
    ensures part { fields_of_206 (etag_line (codes "\"e\"") ∷ line (codes "Expires") (codes "0") ∷ []) 42 1233 1234
        ≡ etag_line (codes "\"e\"") ∷ line (codes "Expires") (codes "0")
        ∷ line (codes "Content-Range") (codes "bytes 42-1233/1234") ∷ [] }
    ensures told_before { fields_of_206 (line (codes "content-range") (codes "x") ∷ []) 0 0 1
        ≡ line (codes "Content-Range") (codes "bytes 0-0/1") ∷ [] }
    ensures unsatisfied { fields_of_416 (line (codes "Date") (codes "a") ∷ line (codes "Cache-Control") (codes "b")
        ∷ etag_line (codes "c") ∷ line (codes "Expires") (codes "d") ∷ line (codes "vary") (codes "e")
        ∷ line (codes "Content-Type") (codes "f") ∷ []) 1234
        ≡ line (codes "Date") (codes "a") ∷ etag_line (codes "c") ∷ line (codes "vary") (codes "e")
        ∷ line (codes "Content-Range") (codes "bytes */1234") ∷ [] }
    ensures unsatisfied_to_asker { fields_of_416_to_answer (line (codes "Date") (codes "a")
        ∷ line (codes "Cache-Control") (codes "b") ∷ etag_line (codes "c") ∷ line (codes "set-cookie") (codes "d")
        ∷ line (codes "Age") (codes "5") ∷ line (codes "Content-Type") (codes "f") ∷ []) 1234
        ≡ line (codes "Date") (codes "a") ∷ etag_line (codes "c") ∷ line (codes "set-cookie") (codes "d")
        ∷ line (codes "Age") (codes "5") ∷ line (codes "Content-Range") (codes "bytes */1234") ∷ [] }
{}

/// A response of ten bytes, in the form of its parts.
pub fn worked_parts_of_ten_bytes()
    ensures middle { response_as_range_or_whole (asked_get_with (range_line (codes "bytes=2-4") ∷ [])) stored_of_ten_bytes
        ≡ stored_part_of_ten_bytes (codes "bytes 2-4/10") (codes "234") }
    ensures end { response_as_range_or_whole (asked_get_with (range_line (codes "bytes=-2") ∷ [])) stored_of_ten_bytes
        ≡ stored_part_of_ten_bytes (codes "bytes 8-9/10") (codes "89") }
    ensures all { response_as_range_or_whole (asked_get_with (range_line (codes "bytes=0-") ∷ [])) stored_of_ten_bytes
        ≡ stored_part_of_ten_bytes (codes "bytes 0-9/10") (codes "0123456789") }
    ensures beyond { response_as_range_or_whole (asked_get_with (range_line (codes "bytes=10-") ∷ [])) stored_of_ten_bytes
        ≡ record stored_of_ten_bytes { status = 416; fields = line (codes "Content-Range") (codes "bytes */10") ∷ []; content = [] } }
    ensures several { response_as_range_or_whole (asked_get_with (range_line (codes "bytes=0-1,3-4")
        ∷ [])) stored_of_ten_bytes ≡ stored_of_ten_bytes }
    ensures full_head { range_status_for_line_count 96 ≡ 200 }
    ensures nearly_full_head { range_status_for_line_count 95 ≡ 206 }
{}
