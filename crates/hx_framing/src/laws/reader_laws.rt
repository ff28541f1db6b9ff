//! Laws on what a reader keeps, whatever its messages are. They hold of the definitions, so each body is empty.
ghost use Rattle.std.specs.Prelude.{◌≡◌, ◌≤◌, [], None, Some, length, true};
ghost use Rattle.hx_framing.specs.declared.contents.content.Content.TheVariants as content;
ghost use Rattle.hx_framing.specs.declared.frame_fault.FrameFault.{FrameFault};
ghost use Rattle.hx_framing.specs.declared.readers.progress.ReaderPhase.TheVariants as phase;
ghost use Rattle.hx_framing.specs.ChunkGrammar.{has_no_lf};
ghost use Rattle.hx_framing.specs.ChunkDecoder.{ChunkDecoder};
ghost use Rattle.hx_framing.specs.Chunks.{decoder_after_bytes};
ghost use Rattle.hx_framing.specs.HeadEnd.{head_length};
ghost use Rattle.hx_framing.specs.PlainContent.{PlainContent};
ghost use Rattle.hx_framing.specs.ReaderState.{ReaderState, KeepsOnlyUnfinished};

/// What a reader of messages with heads H keeps where nothing is due is begun and not whole: at most 32,768 bytes, in
/// which no head ends, interim or not; of a content in chunks the begun line, and nothing of another content.
pub fn readers_keep_only_unfinished_parts<H>()
    ensures bounded { (s : ReaderState H) → KeepsOnlyUnfinished s → length s.unread ≤ 32768 }
    ensures head { (s : ReaderState H) → s.phase ≡ phase.BeforeHead → KeepsOnlyUnfinished s → head_length s.unread
        ≡ None }
    ensures announced { (s : ReaderState H) → (head : H) → (c : PlainContent)
        → s.phase ≡ phase.InContent head (content.Announced c) → KeepsOnlyUnfinished s → s.unread ≡ [] }
    ensures closed { (s : ReaderState H) → (head : H) → (c : PlainContent)
        → s.phase ≡ phase.InContent head (content.UntilClose c) → KeepsOnlyUnfinished s → s.unread ≡ [] }
    ensures nothing { (s : ReaderState H) → (head : H)
        → s.phase ≡ phase.InContent head content.Nothing → KeepsOnlyUnfinished s → s.unread ≡ [] }
    ensures line { (s : ReaderState H) → (head : H) → (c : ChunkDecoder)
        → s.phase ≡ phase.InContent head (content.Chunked c) → KeepsOnlyUnfinished s → has_no_lf s.unread ≡ true }
    ensures begun { (s : ReaderState H) → (head : H) → (c : ChunkDecoder)
        → s.phase ≡ phase.InContent head (content.Chunked c)
        → KeepsOnlyUnfinished s → decoder_after_bytes s.unread c ≡ Some (record c { line = s.unread }) }
    ensures given { (s : ReaderState H) → s.phase ≡ phase.Given → ¬ (KeepsOnlyUnfinished s) }
    ensures fault { (s : ReaderState H) → (f : FrameFault) → s.phase ≡ phase.Faulty f → ¬ (KeepsOnlyUnfinished s) }
{}
