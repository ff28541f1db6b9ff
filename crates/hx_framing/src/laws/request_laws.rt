//! Laws on what a request stream spells. They hold of the definitions, so each body is empty.
ghost use Rattle.std.specs.Prelude.{◌≡◌, ◌≤◌, ◌+◌, ◌*◌, ◌++◌, [], ℕ, Bool, List, None, Some, length, true, false};
ghost use Rattle.hx_framing.specs.declared.contents.content.Content.{Content};
ghost use Rattle.hx_framing.specs.declared.contents.content.Content.TheVariants as content;
ghost use Rattle.hx_framing.specs.declared.heads.request_head.Head.{Head};
ghost use Rattle.hx_framing.specs.declared.readers.progress.ReaderPhase.TheVariants as phase;
ghost use Rattle.hx_framing.specs.declared.messages.Request.{Request};
ghost use Rattle.hx_framing.specs.declared.messages.Next.{Next};
ghost use Rattle.hx_framing.specs.declared.frame_fault.FrameFault.{FrameFault};
ghost use Rattle.hx_framing.specs.ChunkGrammar.{has_no_lf};
ghost use Rattle.hx_framing.specs.ChunkDecoder.{ChunkDecoder};
ghost use Rattle.hx_framing.specs.Chunks.{decoder_after_bytes};
ghost use Rattle.hx_framing.specs.HeadEnd.{head_length};
ghost use Rattle.hx_framing.specs.PlainContent.{PlainContent};
ghost use Rattle.hx_framing.specs.Reading.{StreamReadResult, Faulty, ReadingIsSettled, reading_with_more_bytes};
ghost use Rattle.hx_framing.specs.RequestReading.{ReadsAs};
ghost use Rattle.hx_framing.specs.RequestStream.{StreamSpells, Answers, OutOfMemoryIsAllowed};
ghost use Rattle.hx_framing.specs.Progress.{Progress, ReaderAnswerNeedsAction, progress_after_piece};
ghost use Rattle.hx_framing.specs.Progress.{progress_after_end};
ghost use Rattle.hx_framing.specs.RequestState.{State, ReaderRepresentsStream, weight, request_kind};

/// One thing stands at the front of the unread bytes.
pub fn reading_of_bytes_is_unique()
    ensures { (max_body : ℕ) → (ended continue_sent : Bool) → (bytes : List ℕ) → (a b : StreamReadResult Request)
        → ReadsAs max_body ended continue_sent bytes a → ReadsAs max_body ended continue_sent bytes b → a ≡ b }
{}

/// What is due stays due, whatever comes behind it: so it doesn't matter how the stream is cut.
pub fn more_bytes_change_no_settled_reading()
    ensures { (max_body : ℕ) → (continue_sent : Bool) → (bytes more : List ℕ) → (reading : StreamReadResult Request)
        → ReadingIsSettled reading → ReadsAs max_body false continue_sent bytes reading
        → ReadsAs max_body false continue_sent (bytes ++ more) (reading_with_more_bytes reading more) }
{}

/// A stream has one fault at most behind the same requests: where one of its beginnings is at fault, so is every
/// longer one, by the same fault. So the fault of a stream is the one at its earliest place.
pub fn a_stream_has_at_most_one_fault()
    ensures { (max_body : ℕ) → (continue_sent : Bool) → (bytes more : List ℕ) → (f g : FrameFault)
        → ReadsAs max_body false continue_sent bytes (Faulty f)
        → ReadsAs max_body false continue_sent (bytes ++ more) (Faulty g) → f ≡ g }
{}

/// What a stream spells it spells however it goes on: the requests given never change.
pub fn more_bytes_change_no_spelled_request()
    ensures { (max_body : ℕ) → (stream more : List ℕ) → (ms : List Request) → (rest : List ℕ)
        → StreamSpells max_body stream ms rest
        → StreamSpells max_body (stream ++ more) ms (rest ++ more) }
{}

/// A stream begins with one list of so many requests.
pub fn messages_spelled_by_a_stream_are_unique()
    ensures { (max_body : ℕ) → (stream : List ℕ) → (ms ns : List Request) → (r q : List ℕ)
        → length ms ≡ length ns → StreamSpells max_body stream ms r
        → StreamSpells max_body stream ns q → (ms ≡ ns) × (r ≡ q) }
{}

/// The requests given are those that the stream spells.
pub fn readers_give_only_spelled_messages()
    ensures { (reader : State) → (p : Progress Request) → ReaderRepresentsStream reader p → (rest : List ℕ)
        × StreamSpells p.max_body p.stream p.given rest }
{}

/// One answer is right.
pub fn answer_of_a_stream_is_unique()
    ensures { (p : Progress Request) → (a b : Next Request) → Answers p a → Answers p b → a ≡ b }
{}

/// An answer that is due stays the right one, whatever comes and where the stream ends.
pub fn more_bytes_change_no_due_answer()
    ensures piece { (p : Progress Request) → (answer : Next Request) → (piece : List ℕ)
        → p.ended ≡ false → ReaderAnswerNeedsAction answer → Answers p answer
        → Answers (progress_after_piece p piece) answer }
    ensures end { (p : Progress Request) → (answer : Next Request) → ReaderAnswerNeedsAction answer → Answers p answer
        → Answers (progress_after_end p) answer }
{}

/// A reader weighs two for each byte that it keeps, for a message and its continue have one at
/// least, and one for a message that was begun.
pub fn readers_weigh_two_for_each_unread_byte()
    ensures before { (s : State) → s.phase ≡ phase.BeforeHead → weight s ≡ 2 * length s.unread }
    ensures begun { (s : State) → (head : Head) → (content : Content) → s.phase ≡ phase.InContent head content
        → weight s ≡ 2 * length s.unread + 1 }
    ensures fault { (s : State) → (f : FrameFault) → s.phase ≡ phase.Faulty f → weight s ≡ 2 * length s.unread }
{}

/// What the contracts of a reader say by its kind, they say of requests.
pub fn generic_reader_contracts_hold_of_requests()
    ensures represents { (s : State) → (p : Progress Request) → request_kind.ReaderRepresentsStream s p
        → ReaderRepresentsStream s p }
    ensures represented { (s : State) → (p : Progress Request) → ReaderRepresentsStream s p
        → request_kind.ReaderRepresentsStream s p }
    ensures answers { (p : Progress Request) → (a : Next Request) → request_kind.Answers p a → Answers p a }
    ensures memory { (p : Progress Request) → request_kind.OutOfMemoryIsAllowed p → OutOfMemoryIsAllowed p }
    ensures weight { (s : State) → request_kind.weight s ≡ weight s }
{}
