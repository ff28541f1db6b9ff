//! Laws of content in chunks: the definition by bytes and the grammar say the same.
ghost use Rattle.std.specs.Prelude.{◌≡◌, ◌≤◌, ◌++◌, ◌∷◌, [], ℕ, List, None, Some, codes, length, replicate};
ghost use Rattle.hx_framing.specs.declared.contents.chunk_tokens.ChunkPhase.TheVariants as phase;
ghost use Rattle.hx_framing.specs.declared.frame_fault.FrameFault.TheVariants as fault;
ghost use Rattle.hx_framing.specs.Body.{Short, Bad, Whole, ContentIsWholeOrFaulty, content_result_with_more_bytes};
ghost use Rattle.hx_framing.specs.ChunkGrammar.{ChunkedBody, IsChunkedBody, chunked_body_text_with_rest};
ghost use Rattle.hx_framing.specs.ChunkGrammar.{data_of_chunks};
ghost use Rattle.hx_framing.specs.ChunkDecoder.{ChunkDecoder};
ghost use Rattle.hx_framing.specs.Chunks.{Fail, Go, decoded_chunked_content, chunks_decoded_from_state};
ghost use Rattle.hx_framing.specs.Chunks.{decoder_at_start};
ghost use Rattle.hx_framing.specs.Chunks.{decoder_after_bytes, step_in_trailers};
ghost use Rattle.hx_framing.specs.Chunks.{most_trailer_bytes};

/// What spells content in chunks is read, whatever follows it.
pub fn every_chunked_body_is_decoded()
    ensures { (max_body : ℕ) (body : ChunkedBody) (rest : List ℕ) → IsChunkedBody max_body body
        → decoded_chunked_content max_body (chunked_body_text_with_rest body rest)
        ≡ Whole (Some (data_of_chunks body.chunks)) rest }
{}

/// What is read as content in chunks is spelled so.
pub fn decoded_content_is_of_a_chunked_body()
    ensures { (max_body : ℕ) (bytes data_of rest : List ℕ)
        → decoded_chunked_content max_body bytes ≡ Whole (Some data_of) rest
        → (body : ChunkedBody) × IsChunkedBody max_body body × (bytes ≡ chunked_body_text_with_rest body rest) ×
        (data_of ≡ data_of_chunks body.chunks) }
{}

/// What is decided stays decided, whatever comes behind it: so it doesn't matter how the stream is cut.
pub fn more_bytes_change_no_decided_content()
    ensures { (bytes more : List ℕ) (state : ChunkDecoder)
        → ContentIsWholeOrFaulty (chunks_decoded_from_state bytes state)
        → chunks_decoded_from_state (bytes ++ more) state ≡ content_result_with_more_bytes
        (chunks_decoded_from_state bytes state) more }
{}

/// The line that isn't whole yet is never longer than trailers may be.
pub fn unfinished_chunk_lines_are_bounded()
    ensures { (max_body : ℕ) (bytes : List ℕ) (state : ChunkDecoder)
        → decoder_after_bytes bytes (decoder_at_start max_body) ≡ Some state → length state.line ≤ most_trailer_bytes }
{}

/// Chunks, extensions and trailers give their data and what follows.
pub fn worked_chunks_are_read()
    ensures whole { decoded_chunked_content 1000 (codes "5;x=1\r\nhello\r\n0\r\nT: 1\r\n\r\nREST") ≡ Whole (Some (codes "hello")) (codes "REST") }
    ensures several { decoded_chunked_content 1000 (codes "4\r\nWiki\r\n5\r\npedia\r\nE\r\n in\r\n\r\nchunks.\r\n0\r\n\r\n") ≡ Whole (Some (codes "Wikipedia in\r\n\r\nchunks.")) [] }
    ensures none { decoded_chunked_content 0 (codes "0\r\n\r\n") ≡ Whole (Some []) [] }
    ensures zeros { decoded_chunked_content 5 (codes "000000000000005\r\nhello\r\n00\r\n\r\n") ≡ Whole (Some (codes "hello")) [] }
    ensures letters { decoded_chunked_content 20 (codes "a\r\n0123456789\r\nA\r\n0123456789\r\n0\r\n\r\n") ≡ Whole (Some (codes "01234567890123456789")) [] }
    ensures blanks { decoded_chunked_content 3 (codes "3 \t\r\nabc\r\n0 \r\n\r\n") ≡ Whole (Some (codes "abc")) [] }
    ensures extension { decoded_chunked_content 3 (codes "3 ; a = \"b;c\"\t\r\nabc\r\n0;\r\n\r\n") ≡ Whole (Some (codes "abc")) [] }
    ensures trailers { decoded_chunked_content 0 (codes "0\r\nA: 1\r\nno field\r\n b\r\n\r\n") ≡ Whole (Some []) [] }
    ensures trailer_of_return { decoded_chunked_content 0 (codes "0\r\n\r\r\n\r\n") ≡ Whole (Some []) [] }
    ensures high_bytes { decoded_chunked_content 1 (codes "1;" ++ 128 ∷ 255 ∷ codes "\r\nz\r\n0\r\n\r\n") ≡ Whole (Some (codes "z")) [] }
    ensures longest_extension { decoded_chunked_content 1 (codes "1;" ++ replicate 255 120 ++ codes "\r\nz\r\n0\r\n\r\n")
        ≡ Whole (Some (codes "z")) [] }
{}

/// What is neither whole nor at fault yet.
pub fn worked_chunks_wait()
    ensures nothing { decoded_chunked_content 1000 [] ≡ Short }
    ensures size { decoded_chunked_content 1000 (codes "5;x\r") ≡ Short }
    ensures bad_size { decoded_chunked_content 1000 (codes "x") ≡ Short }
    ensures long_size { decoded_chunked_content 1000 (replicate 273 48) ≡ Short }
    ensures part { decoded_chunked_content 1000 (codes "5\r\nhell") ≡ Short }
    ensures end { decoded_chunked_content 1000 (codes "5\r\nhello\r") ≡ Short }
    ensures last { decoded_chunked_content 1000 (codes "0\r\n\r") ≡ Short }
    ensures trailer { decoded_chunked_content 1000 (codes "0\r\nT: 1\r\n") ≡ Short }
    ensures trailer_of_return { decoded_chunked_content 1000 (codes "0\r\n\r\r\n") ≡ Short }
{}

/// What deviates from the grammar.
pub fn worked_chunks_are_refused()
    ensures after_data { decoded_chunked_content 1000 (codes "2\r\nhi!") ≡ Bad fault.Chunk }
    ensures return_after_data { decoded_chunked_content 1000 (codes "2\r\nhi\r!") ≡ Bad fault.Chunk }
    ensures feed_after_data { decoded_chunked_content 1000 (codes "2\r\nhi\n") ≡ Bad fault.Chunk }
    ensures short_data { decoded_chunked_content 1000 (codes "3\r\nhi\r\n0\r\n") ≡ Bad fault.Chunk }
    ensures no_size { decoded_chunked_content 1000 (codes "\r\n") ≡ Bad fault.Chunk }
    ensures no_digit { decoded_chunked_content 1000 (codes ";x=1\r\n") ≡ Bad fault.Chunk }
    ensures plus { decoded_chunked_content 1000 (codes "+5\r\n") ≡ Bad fault.Chunk }
    ensures minus { decoded_chunked_content 1000 (codes "-1\r\n") ≡ Bad fault.Chunk }
    ensures prefix { decoded_chunked_content 1000 (codes "0x5\r\n") ≡ Bad fault.Chunk }
    ensures space_before { decoded_chunked_content 1000 (codes " 5\r\n") ≡ Bad fault.Chunk }
    ensures letter { decoded_chunked_content 1000 (codes "3x\r\n") ≡ Bad fault.Chunk }
    ensures comma { decoded_chunked_content 1000 (codes "3,x\r\n") ≡ Bad fault.Chunk }
    ensures after_blank { decoded_chunked_content 1000 (codes "3 3\r\n") ≡ Bad fault.Chunk }
    ensures lone_feed { decoded_chunked_content 1000 (codes "5\nhello") ≡ Bad fault.Chunk }
    ensures lone_feed_behind_a_byte { decoded_chunked_content 1000 (codes "5;\nhello") ≡ Bad fault.Chunk }
    ensures lone_return { decoded_chunked_content 1000 (codes "3;a\rb\r\n") ≡ Bad fault.Chunk }
    ensures control { decoded_chunked_content 1000 (codes "3;" ++ 0 ∷ codes "\r\n") ≡ Bad fault.Chunk }
    ensures last_control { decoded_chunked_content 1000 (codes "3;" ++ 31 ∷ codes "\r\n") ≡ Bad fault.Chunk }
    ensures delete { decoded_chunked_content 1000 (codes "3;" ++ 127 ∷ codes "\r\n") ≡ Bad fault.Chunk }
    ensures sixteen_digits { decoded_chunked_content 1000 (codes "0000000000000001\r\n") ≡ Bad fault.Chunk }
    ensures long_extension { decoded_chunked_content 1000 (codes "1;" ++ replicate 256 120 ++ codes "\r\n")
        ≡ Bad fault.Chunk }
    ensures long_size { decoded_chunked_content 1000 (replicate 274 48) ≡ Bad fault.Chunk }
    ensures trailer_feed { decoded_chunked_content 1000 (codes "0\r\nT: 1\n") ≡ Bad fault.Chunk }
    ensures empty_feed { decoded_chunked_content 1000 (codes "0\r\n\n") ≡ Bad fault.Chunk }
{}

/// A size line that brings the sum above the limit is refused there.
pub fn worked_chunks_are_limited()
    ensures size { decoded_chunked_content 4 (codes "5\r\n") ≡ Bad fault.TooLarge }
    ensures sum { decoded_chunked_content 9 (codes "5\r\nhello\r\n5\r\n") ≡ Bad fault.TooLarge }
    ensures just { decoded_chunked_content 10 (codes "5\r\nhello\r\n5\r\nworld\r\n0\r\n\r\n") ≡ Whole (Some (codes "helloworld")) [] }
    ensures fifteen_digits { decoded_chunked_content 1000 (codes "FFFFFFFFFFFFFFF\r\n") ≡ Bad fault.TooLarge }
{}

/// The state behind bytes that neither end the content nor are at fault: what comes next, and what the limits leave.
pub fn worked_decoder_states_behind_bytes()
    ensures nothing { decoder_after_bytes [] (decoder_at_start 9) ≡ Some (decoder_at_start 9) }
    ensures size { decoder_after_bytes (codes "5\r") (decoder_at_start 9)
        ≡ Some (record { phase = phase.Size; need = 0; left = 9; used = 0; content = []; line = codes "5\r" }) }
    ensures data { decoder_after_bytes (codes "5\r\nhell") (decoder_at_start 9)
        ≡ Some (record { phase = phase.Data; need = 1; left = 4; used = 0; content = codes "hell"; line = [] }) }
    ensures end { decoder_after_bytes (codes "5\r\nhello\r") (decoder_at_start 9)
        ≡ Some (record { phase = phase.DataEnd; need = 0; left = 4; used = 0; content = codes "hello"; line = codes "\r" }) }
    ensures second { decoder_after_bytes (codes "5\r\nhello\r\n4") (decoder_at_start 9)
        ≡ Some (record { phase = phase.Size; need = 0; left = 4; used = 0; content = codes "hello"; line = codes "4" }) }
    ensures trailers { decoder_after_bytes (codes "0\r\nA: 1\r\nB") (decoder_at_start 9)
        ≡ Some (record { phase = phase.Trailers; need = 0; left = 9; used = 6; content = []; line = codes "B" }) }
    ensures last_trailer_byte { step_in_trailers
        (record (decoder_at_start 9) { phase = phase.Trailers; used = 32766; line = codes "a" }) 98
        ≡ Go (record (decoder_at_start 9) { phase = phase.Trailers; used = 32766; line = codes "ab" }) }
    ensures trailer_past_the_limit { step_in_trailers
        (record (decoder_at_start 9) { phase = phase.Trailers; used = 32766; line = codes "ab" }) 99
        ≡ Fail fault.Chunk }
    ensures whole { decoder_after_bytes (codes "0\r\n\r\n") (decoder_at_start 9) ≡ None }
    ensures fault { decoder_after_bytes (codes "x\r\n") (decoder_at_start 9) ≡ None }
{}
