//! Laws on what there is: all bytes are judged, and each stream has a reading and an answer, so
//! that no contract holds for want of one. That there is one at most is said by the laws on
//! streams. They hold of the definitions, so each body is empty.
ghost use Rattle.std.specs.Prelude.{ℕ, Bool, List, Result};
ghost use Rattle.hx_framing.specs.declared.heads.request_head.Head.{Head};
ghost use Rattle.hx_framing.specs.declared.heads.status_head.StatusHead.{StatusHead};
ghost use Rattle.hx_framing.specs.declared.messages.Request.{Request};
ghost use Rattle.hx_framing.specs.declared.messages.Response.{Response};
ghost use Rattle.hx_framing.specs.declared.messages.Next.{Next};
ghost use Rattle.hx_framing.specs.declared.frame_fault.FrameFault.{FrameFault};
ghost use Rattle.hx_framing.specs.Head as requests;
ghost use Rattle.hx_framing.specs.StatusHead as responses;
ghost use Rattle.hx_framing.specs.Progress.{Progress};
ghost use Rattle.hx_framing.specs.Reading.{StreamReadResult};
ghost use Rattle.hx_framing.specs.RequestReading as request;
ghost use Rattle.hx_framing.specs.RequestStream as request_stream;
ghost use Rattle.hx_framing.specs.ResponseReading as response;
ghost use Rattle.hx_framing.specs.ResponseStream as response_stream;

/// All bytes are a head of a request or have a fault, and so of a response.
pub fn all_bytes_are_judged()
    ensures requests { (bytes : List ℕ) → (judged : Result Head FrameFault)
        × requests.RequestHeadIsJudged bytes judged }
    ensures responses { (bytes : List ℕ) → (judged : Result StatusHead FrameFault)
        × responses.ResponseHeadIsJudged bytes judged }
{}

/// Each request stream has a reading, and each that spells the requests given an answer.
pub fn each_request_stream_has_a_reading()
    ensures reading { (max_body : ℕ) → (ended : Bool) → (continue_sent : Bool) → (bytes : List ℕ)
        → (reading : StreamReadResult Request) × request.ReadsAs max_body ended continue_sent bytes reading }
    ensures answer { (p : Progress Request) → (rest : List ℕ)
        → request_stream.StreamSpells p.max_body p.stream p.given rest
        → (answer : Next Request) × request_stream.Answers p answer }
{}

/// Each response stream has a reading, and each that spells the response given an answer.
pub fn each_response_stream_is_read()
    ensures reading { (max_body : ℕ) → (to_head : Bool) → (ended : Bool) → (bytes : List ℕ)
        → (reading : StreamReadResult Response) × response.ReadsAs max_body to_head ended bytes reading }
    ensures answer { (p : Progress Response) → response_stream.StreamSpellsGivenResponse p p.given
        → (answer : Next Response) × response_stream.Answers p answer }
{}
