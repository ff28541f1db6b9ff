//! Laws of chunks that are refused or wait: where, by the grammar alone. They hold of the
//! definitions, so each body is empty.
ghost use Rattle.std.specs.Prelude.{◌≡◌, ◌++◌, ◌∷◌, [], ℕ, List};
ghost use Rattle.hx_framing.specs.declared.frame_fault.FrameFault.{FrameFault};
ghost use Rattle.hx_framing.specs.Body.{Short, Bad};
ghost use Rattle.hx_framing.specs.ChunkGrammar.{ChunkedBody, IsChunkedBody, chunked_body_text_with_rest};
ghost use Rattle.hx_framing.specs.ChunkFaults.{DeviatesFromChunks};
ghost use Rattle.hx_framing.specs.Chunks.{decoded_chunked_content};

/// What is refused deviates from the grammar: behind whole chunks stands what can't go on as chunks do.
pub fn refused_chunks_deviate()
    ensures { (max_body : ℕ) → (bytes : List ℕ) → (fault : FrameFault)
        → decoded_chunked_content max_body bytes ≡ Bad fault → DeviatesFromChunks max_body bytes fault }
{}

/// What deviates is refused, by that fault; so it has one at most.
pub fn deviating_chunks_are_refused()
    ensures refused { (max_body : ℕ) → (bytes : List ℕ) → (fault : FrameFault)
        → DeviatesFromChunks max_body bytes fault → decoded_chunked_content max_body bytes ≡ Bad fault }
    ensures one_fault { (max_body : ℕ) → (bytes : List ℕ) → (f : FrameFault) → (g : FrameFault)
        → DeviatesFromChunks max_body bytes f → DeviatesFromChunks max_body bytes g → f ≡ g }
{}

/// Whatever comes behind it, what deviates never spells content in chunks.
pub fn deviating_chunks_spell_nothing()
    ensures { (max_body : ℕ) → (bytes : List ℕ) → (fault : FrameFault) → DeviatesFromChunks max_body bytes fault
        → (more : List ℕ) → (body : ChunkedBody) → (rest : List ℕ) → IsChunkedBody max_body body
        → ¬ (bytes ++ more ≡ chunked_body_text_with_rest body rest) }
{}

/// What waits for more neither deviates nor spells a content.
pub fn incomplete_chunks_neither_deviate_nor_end()
    ensures deviates { (max_body : ℕ) → (bytes : List ℕ) → decoded_chunked_content max_body bytes ≡ Short
        → (fault : FrameFault) → ¬ (DeviatesFromChunks max_body bytes fault) }
    ensures spells { (max_body : ℕ) → (bytes : List ℕ) → decoded_chunked_content max_body bytes ≡ Short
        → (body : ChunkedBody) → (rest : List ℕ) → IsChunkedBody max_body body → ¬
        (bytes ≡ chunked_body_text_with_rest body rest) }
{}

/// What neither deviates nor spells a content waits for more.
pub fn chunks_neither_deviating_nor_whole_wait()
    ensures { (max_body : ℕ) → (bytes : List ℕ) → ((fault : FrameFault) → ¬ (DeviatesFromChunks max_body bytes fault))
        → ((body : ChunkedBody) → (rest : List ℕ) → IsChunkedBody max_body body → ¬
        (bytes ≡ chunked_body_text_with_rest body rest))
        → decoded_chunked_content max_body bytes ≡ Short }
{}

/// The beginning of a content in chunks waits for its rest.
pub fn beginning_of_chunked_body_is_incomplete()
    ensures { (max_body : ℕ) → (bytes : List ℕ) → (next : ℕ) → (more : List ℕ) → (body : ChunkedBody)
        → IsChunkedBody max_body body
        → bytes ++ next ∷ more ≡ chunked_body_text_with_rest body [] → decoded_chunked_content max_body bytes ≡ Short }
{}
