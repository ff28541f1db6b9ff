//! What a reader answers of whole streams, one message after another, computed from the definitions.
ghost use Rattle.std.specs.Prelude.{◌≡◌, ◌∷◌, [], true, false, codes, Some};
ghost use Rattle.hx_framing.specs.declared.messages.Next.TheVariants as next;
ghost use Rattle.hx_framing.specs.declared.frame_fault.FrameFault.TheVariants as fault;
ghost use Rattle.hx_framing.specs.declared.messages.Request.{Request};
ghost use Rattle.hx_framing.specs.declared.messages.Response.{Response};
ghost use Rattle.hx_framing.specs.Progress.{Progress, ReaderAnswerNeedsAction, weight_used_by_answer};
ghost use Rattle.hx_framing.specs.Progress.{progress_after_piece};
ghost use Rattle.hx_framing.specs.Progress.{progress_after_end};
ghost use Rattle.hx_framing.specs.Progress.{progress_after_answer, out_of_memory_may_replace, next_answer_of_reading};
ghost use Rattle.hx_framing.specs.Progress.{empty_stream_progress};
ghost use Rattle.hx_framing.specs.Reading.{Continue, Faulty, Incomplete, ReadingIsSettled, Over, Spelled};
ghost use Rattle.hx_framing.specs.Reading.{reading_with_more_bytes};
ghost use Rattle.hx_framing.specs.ReadingExamples.{progress_after_requests_in_a_row, hello_response_read};
ghost use Rattle.hx_framing.specs.ReadingExamples.{progress_after_hello_response};
ghost use Rattle.hx_framing.specs.ReadingExamples.{put_request_of_hi, two_requests_and_a_beginning, put_request_read};
ghost use Rattle.hx_framing.specs.ReadingExamples.{example_request_progress};
ghost use Rattle.hx_framing.specs.RequestStream as request;
ghost use Rattle.hx_framing.specs.ResponseStream as response;

/// Requests in a row are given one by one, and what follows waits (RFC 9112, section 9.3.2).
pub fn worked_requests_in_a_row_are_given()
    ensures spelled { request.StreamSpells 1000 two_requests_and_a_beginning
        (put_request_read [] (Some (codes "hi")) ∷ put_request_read [] (Some (codes "abc")) ∷ []) (codes "PUT") }
    ensures first { request.Answers (progress_after_requests_in_a_row false [])
        (next.Message (put_request_read [] (Some (codes "hi")))) }
    ensures second { request.Answers (progress_after_requests_in_a_row false (put_request_read [] (Some (codes "hi"))
        ∷ []))
        (next.Message (put_request_read [] (Some (codes "abc")))) }
    ensures third { request.Answers (progress_after_requests_in_a_row false
        (put_request_read [] (Some (codes "hi")) ∷ put_request_read [] (Some (codes "abc")) ∷ [])) next.More }
    ensures cut { request.Answers (progress_after_requests_in_a_row true
        (put_request_read [] (Some (codes "hi")) ∷ put_request_read [] (Some (codes "abc")) ∷ []))
        (next.Refused fault.Truncated) }
{}

/// A response is given, and then the end, whether its stream goes on or not.
pub fn worked_response_is_given_then_the_end()
    ensures first { response.Answers (progress_after_hello_response false []) (next.Message hello_response_read) }
    ensures end { response.Answers (progress_after_hello_response false (hello_response_read ∷ [])) next.End }
    ensures closed { response.Answers (progress_after_hello_response true (hello_response_read ∷ [])) next.End }
{}

/// A stream grows by its pieces, ends once, and remembers what was given of it and whether the next
/// message's continue was.
pub fn worked_stream_progress()
    ensures pieces { progress_after_piece (progress_after_piece (empty_stream_progress 1000 true) (codes "GET")) (codes " /")
        ≡ example_request_progress true (codes "GET /") false [] false }
    ensures end { progress_after_end (example_request_progress false (codes "GET /") false [] false)
        ≡ example_request_progress false (codes "GET /") true [] false }
    ensures continue_sent { progress_after_answer (example_request_progress false [] false [] false) next.NeedsContinue
        ≡ example_request_progress false [] false [] true }
    ensures message { progress_after_answer (example_request_progress false [] false (put_request_of_hi ∷ []) true)
        (next.Message (put_request_read [] (Some [])))
        ≡ example_request_progress false [] false (put_request_of_hi ∷ put_request_read [] (Some []) ∷ []) false }
    ensures nothing { progress_after_answer
        (example_request_progress false [] false (put_request_of_hi ∷ []) true) next.More
        ≡ example_request_progress false [] false (put_request_of_hi ∷ []) true }
    ensures still_nothing { progress_after_answer (example_request_progress false [] false (put_request_of_hi
        ∷ []) false) next.More
        ≡ example_request_progress false [] false (put_request_of_hi ∷ []) false }
    ensures refused { progress_after_answer (example_request_progress false [] false (put_request_of_hi ∷ []) true)
        (next.Refused fault.Chunk)
        ≡ example_request_progress false [] false (put_request_of_hi ∷ []) true }
    ensures over { progress_after_answer (example_request_progress false [] true (put_request_of_hi ∷ []) true) next.End
        ≡ example_request_progress false [] true (put_request_of_hi ∷ []) true }
{}

/// What is answered of what stands at the front of a stream.
pub fn worked_answers_of_readings()
    ensures incomplete { next_answer_of_reading {M = Request} Incomplete ≡ next.More }
    ensures continue_sent { next_answer_of_reading {M = Request} Continue ≡ next.NeedsContinue }
    ensures over { next_answer_of_reading {M = Request} Over ≡ next.End }
    ensures spelled { next_answer_of_reading (Spelled put_request_of_hi (codes "x")) ≡ next.Message put_request_of_hi }
    ensures faulty { next_answer_of_reading {M = Request} (Faulty fault.Length) ≡ next.Refused fault.Length }
{}

/// Something is due but where more has to come. Whatever follows, it stays so, but for the end of
/// requests that may go on.
pub fn worked_due_readings()
    ensures more { ¬ (ReaderAnswerNeedsAction {M = Request} next.More) }
    ensures continue_sent { ReaderAnswerNeedsAction {M = Request} next.NeedsContinue }
    ensures message { ReaderAnswerNeedsAction (next.Message put_request_of_hi) }
    ensures refused { ReaderAnswerNeedsAction {M = Request} (next.Refused fault.Head) }
    ensures over { ReaderAnswerNeedsAction {M = Request} next.End }
    ensures open { ¬ (ReadingIsSettled {M = Request} Incomplete) }
    ensures end_may_pass { ¬ (ReadingIsSettled {M = Request} Over) }
    ensures continue_stays { ReadingIsSettled {M = Request} Continue }
    ensures message_stays { ReadingIsSettled (Spelled put_request_of_hi []) }
    ensures fault_stays { ReadingIsSettled {M = Request} (Faulty fault.Head) }
{}

/// What comes later stands behind what came.
pub fn worked_readings_with_more_bytes()
    ensures incomplete { reading_with_more_bytes {M = Request} Incomplete (codes "b") ≡ Incomplete }
    ensures continue_sent { reading_with_more_bytes {M = Request} Continue (codes "b") ≡ Continue }
    ensures over { reading_with_more_bytes {M = Request} Over (codes "b") ≡ Over }
    ensures spelled { reading_with_more_bytes (Spelled put_request_of_hi (codes "a")) (codes "b")
        ≡ Spelled put_request_of_hi
        (codes "ab") }
    ensures faulty { reading_with_more_bytes {M = Request} (Faulty fault.Chunk) (codes "b") ≡ Faulty fault.Chunk }
{}

/// A continue and a message are of what is still to come; the end and a refusal may be answered again and again.
pub fn worked_weights_used_by_answers()
    ensures more { weight_used_by_answer {M = Request} next.More ≡ 0 }
    ensures continue_sent { weight_used_by_answer {M = Request} next.NeedsContinue ≡ 1 }
    ensures message { weight_used_by_answer (next.Message put_request_of_hi) ≡ 1 }
    ensures refused { weight_used_by_answer {M = Request} (next.Refused fault.Head) ≡ 0 }
    ensures over { weight_used_by_answer {M = Request} next.End ≡ 0 }
{}

/// Out of memory may stand in place of what is behind a head, which is copied; neither of the end
/// nor of the refusal of bytes that are no head.
pub fn worked_out_of_memory_may_replace()
    ensures more { out_of_memory_may_replace {M = Request} next.More ≡ true }
    ensures continue_sent { out_of_memory_may_replace {M = Request} next.NeedsContinue ≡ true }
    ensures message { out_of_memory_may_replace (next.Message put_request_of_hi) ≡ true }
    ensures over { out_of_memory_may_replace {M = Request} next.End ≡ false }
    ensures head { out_of_memory_may_replace {M = Request} (next.Refused fault.Head) ≡ false }
    ensures version { out_of_memory_may_replace {M = Request} (next.Refused fault.Version) ≡ false }
    ensures both_lengths { out_of_memory_may_replace {M = Request} (next.Refused fault.BothLengths) ≡ true }
    ensures length { out_of_memory_may_replace {M = Request} (next.Refused fault.Length) ≡ true }
    ensures coding { out_of_memory_may_replace {M = Request} (next.Refused fault.Coding) ≡ true }
    ensures chunk { out_of_memory_may_replace {M = Request} (next.Refused fault.Chunk) ≡ true }
    ensures too_large { out_of_memory_may_replace {M = Request} (next.Refused fault.TooLarge) ≡ true }
    ensures expect { out_of_memory_may_replace {M = Request} (next.Refused fault.Expect) ≡ true }
    ensures truncated { out_of_memory_may_replace {M = Request} (next.Refused fault.Truncated) ≡ true }
    ensures status { out_of_memory_may_replace {M = Request} (next.Refused fault.Status) ≡ true }
{}

/// So out of memory never hides the end of a stream, nor that what stands there is no head.
pub fn out_of_memory_hides_no_end_of_stream()
    ensures requests { (p : Progress Request) → request.Answers p next.End → ¬ (request.OutOfMemoryIsAllowed p) }
    ensures no_request { (p : Progress Request) → request.Answers p (next.Refused fault.Head)
        → ¬ (request.OutOfMemoryIsAllowed p) }
    ensures other_request { (p : Progress Request) → request.Answers p (next.Refused fault.Version)
        → ¬ (request.OutOfMemoryIsAllowed p) }
    ensures response { (p : Progress Response) → response.Answers p next.End → ¬ (response.OutOfMemoryIsAllowed p) }
    ensures no_response { (p : Progress Response) → response.Answers p (next.Refused fault.Head)
        → ¬ (response.OutOfMemoryIsAllowed p) }
    ensures other_response { (p : Progress Response) → response.Answers p (next.Refused fault.Version)
        → ¬ (response.OutOfMemoryIsAllowed p) }
{}
