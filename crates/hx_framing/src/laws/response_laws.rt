//! Laws on what a response stream spells. They hold of the definitions, so each body is empty.
ghost use Rattle.std.specs.Prelude.{◌≡◌, ◌≤◌, ◌+◌, ◌*◌, ◌++◌, ◌∷◌, [], ℕ, Bool, List, None, Some, length, true, false};
ghost use Rattle.hx_fields.specs.Line.{Field};
ghost use Rattle.hx_framing.specs.declared.contents.content.Content.{Content};
ghost use Rattle.hx_framing.specs.declared.contents.content.Content.TheVariants as content;
ghost use Rattle.hx_framing.specs.declared.readers.progress.ReaderPhase.TheVariants as phase;
ghost use Rattle.hx_framing.specs.declared.messages.Response.{Response};
ghost use Rattle.hx_framing.specs.declared.heads.status_head.StatusHead.{StatusHead};
ghost use Rattle.hx_framing.specs.declared.messages.Next.{Next};
ghost use Rattle.hx_framing.specs.declared.frame_fault.FrameFault.{FrameFault};
ghost use Rattle.hx_framing.specs.ChunkGrammar.{has_no_lf};
ghost use Rattle.hx_framing.specs.ChunkDecoder.{ChunkDecoder};
ghost use Rattle.hx_framing.specs.Chunks.{decoder_after_bytes};
ghost use Rattle.hx_framing.specs.Lengths.{without_length_fields};
ghost use Rattle.hx_framing.specs.HeadEnd.{head_length};
ghost use Rattle.hx_framing.specs.PlainContent.{PlainContent};
ghost use Rattle.hx_framing.specs.Reading.{StreamReadResult, Faulty, ReadingIsSettled, Spelled};
ghost use Rattle.hx_framing.specs.Reading.{reading_with_more_bytes};
ghost use Rattle.hx_framing.specs.ResponseReading.{ReadsAs};
ghost use Rattle.hx_framing.specs.ResponseStream.{SpellsResponse, StreamSpellsGivenResponse, Answers};
ghost use Rattle.hx_framing.specs.ResponseStream.{OutOfMemoryIsAllowed};
ghost use Rattle.hx_framing.specs.Progress.{Progress, ReaderAnswerNeedsAction, weight_used_by_answer};
ghost use Rattle.hx_framing.specs.Progress.{progress_after_piece};
ghost use Rattle.hx_framing.specs.Progress.{progress_after_end};
ghost use Rattle.hx_framing.specs.ResponseState.{State, ReaderRepresentsStream, weight, response_reader_kind};

/// A stream has one response: behind it nothing is given but the end.
pub fn at_most_one_response_is_given()
    ensures { (p : Progress Response) → (answer : Next Response) → Answers p answer → length p.given ≤ 1 }
{}

/// One thing stands at the front of the stream.
pub fn reading_of_bytes_is_unique()
    ensures { (max_body : ℕ) → (to_head ended : Bool) → (bytes : List ℕ) → (a b : StreamReadResult Response)
        → ReadsAs max_body to_head ended bytes a → ReadsAs max_body to_head ended bytes b → a ≡ b }
{}

/// What is due stays due, whatever comes behind it: so it doesn't matter how the stream is cut.
pub fn more_bytes_change_no_settled_reading()
    ensures { (max_body : ℕ) → (to_head : Bool) → (bytes more : List ℕ)
        → (reading : StreamReadResult Response) → ReadingIsSettled reading
        → ReadsAs max_body to_head false bytes reading
        → ReadsAs max_body to_head false (bytes ++ more) (reading_with_more_bytes reading more) }
{}

/// A stream has one fault at most: where one of its beginnings is at fault, so is every longer one, by the same fault.
pub fn a_stream_has_at_most_one_fault()
    ensures { (max_body : ℕ) → (to_head : Bool) → (bytes more : List ℕ) → (f g : FrameFault)
        → ReadsAs max_body to_head false bytes (Faulty f)
        → ReadsAs max_body to_head false (bytes ++ more) (Faulty g) → f ≡ g }
{}

/// A stream begins with one response.
pub fn messages_spelled_by_a_stream_are_unique()
    ensures { (max_body : ℕ) → (to_head ended : Bool) → (stream : List ℕ) → (m n : Response)
        → (r q : List ℕ) → SpellsResponse max_body to_head ended stream m r
        → SpellsResponse max_body to_head ended stream n q → (m ≡ n) × (r ≡ q) }
{}

/// No response was given, or the one that the stream spells.
pub fn readers_give_only_spelled_messages()
    ensures { (reader : State) → (p : Progress Response) → ReaderRepresentsStream reader p
        → StreamSpellsGivenResponse p p.given }
{}

/// One answer is right.
pub fn answer_of_a_stream_is_unique()
    ensures { (p : Progress Response) → (a b : Next Response) → Answers p a → Answers p b → a ≡ b }
{}

/// An answer that is due stays the right one, whatever comes and where the stream ends.
pub fn more_bytes_change_no_due_answer()
    ensures piece { (p : Progress Response) → (answer : Next Response) → (piece : List ℕ)
        → p.ended ≡ false → ReaderAnswerNeedsAction answer → Answers p answer
        → Answers (progress_after_piece p piece) answer }
    ensures end { (p : Progress Response) → (answer : Next Response) → ReaderAnswerNeedsAction answer
        → Answers p answer → Answers (progress_after_end p) answer }
{}

/// What is read has a final status, from 200 to 599: interim responses are passed over, and others
/// are refused. Its length fields are taken out, and what an answer to HEAD announces is told
/// beside them; another answer announces nothing.
pub fn responses_read_are_final()
    ensures status { (max_body : ℕ) → (to_head : Bool) → (ended : Bool) → (bytes : List ℕ) → (response : Response)
        → (rest : List ℕ)
        → ReadsAs max_body to_head ended bytes (Spelled response rest)
        → (200 ≤ response.status) × (response.status ≤ 599) }
    ensures lengths { (max_body : ℕ) → (to_head : Bool) → (ended : Bool) → (bytes : List ℕ) → (response : Response)
        → (rest : List ℕ)
        → ReadsAs max_body to_head ended bytes (Spelled response rest)
        → (fields : List Field) × (response.fields ≡ without_length_fields fields) }
    ensures announced { (max_body : ℕ) → (ended : Bool) → (bytes : List ℕ) → (response : Response) → (rest : List ℕ)
        → ReadsAs max_body false ended bytes (Spelled response rest) → response.announced ≡ None }
{}

/// A reader weighs two for each byte before or in its response, two more in it, and one where the
/// stream has ended before it was given; behind it or a fault it weighs one.
pub fn readers_weigh_two_for_each_unread_byte()
    ensures before { (s : State) → s.phase ≡ phase.BeforeHead → s.ended ≡ false → weight s ≡ 2 * length s.unread }
    ensures before_the_end { (s : State) → s.phase ≡ phase.BeforeHead → s.ended ≡ true
        → weight s ≡ 2 * length s.unread + 1 }
    ensures begun { (s : State) → (head : StatusHead) → (content : Content) → s.phase ≡ phase.InContent head content
        → s.ended ≡ false → weight s ≡ 2 * length s.unread + 2 }
    ensures begun_at_the_end { (s : State) → (head : StatusHead) → (content : Content)
        → s.phase ≡ phase.InContent head content → s.ended ≡ true → weight s ≡ 2 * length s.unread + 3 }
    ensures given { (s : State) → s.phase ≡ phase.Given → weight s ≡ 1 }
    ensures fault { (s : State) → (f : FrameFault) → s.phase ≡ phase.Faulty f → weight s ≡ 1 }
{}

/// What the contracts of a reader say by its kind, they say of responses.
pub fn generic_reader_contracts_hold_of_responses()
    ensures represents { (s : State) → (p : Progress Response) → response_reader_kind.ReaderRepresentsStream s p
        → ReaderRepresentsStream s p }
    ensures represented { (s : State) → (p : Progress Response) → ReaderRepresentsStream s p
        → response_reader_kind.ReaderRepresentsStream s p }
    ensures answers { (p : Progress Response) → (a : Next Response) → response_reader_kind.Answers p a → Answers p a }
    ensures memory { (p : Progress Response) → response_reader_kind.OutOfMemoryIsAllowed p → OutOfMemoryIsAllowed p }
    ensures weight { (s : State) → response_reader_kind.weight s ≡ weight s }
    ensures due { (left : ℕ) → (a : Next Response) → response_reader_kind.DueIsWeighed left a
        → ReaderAnswerNeedsAction a
        → 1 ≤ left + weight_used_by_answer a }
{}
