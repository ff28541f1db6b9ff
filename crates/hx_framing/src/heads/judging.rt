//! How the bytes of a whole head are judged, of whichever kind it is.
ghost use Rattle.std.specs.Prelude.{ℕ, List, ◌≤◌, length, IfOk, IfSome, IfNone, OnErr};
ghost use Rattle.httparse.specs.declared.spans.HeaderSpan.{HeaderSpan};
ghost use Rattle.hx_framing.specs.HeadEnd.{most_field_lines};

use crate::limits::{INITIAL_FIELD_LINES, MOST_FIELD_LINES, SHORT_HEAD_BYTES};
use httparse::spans::{EMPTY_HEADER_SPAN, HeaderSpan};
use std::alloc::{AllocError, Global};

/// Where the parts of a kind of head are, but for its field lines.
pub(crate) trait HeadSpans: Copy {
    type Judged: Drop;

    /// Just these bytes are a head, and its parts are there.
    ghost Covers: { Self → List ℕ → List HeaderSpan → Type 0 };

    /// If these bytes are a head, it has more than so many lines.
    ghost Exceeds: { List ℕ → ℕ → Type 0 };

    /// How the bytes of a whole head are judged.
    ghost Judges: { List ℕ → Self.Judged → Type 0 };

    /// They are a head that is copied.
    ghost HasHead: { List ℕ → Type 0 };

    /// Where the parts are, if just these bytes are a head that has no more lines than there is room for.
    fn find(bytes: &[u8], spans: &mut [HeaderSpan]) -> Option<Self>
        requires { length spans.old ≤ most_field_lines }
        ensures found { IfSome result (λ found. Covers found bytes.now spans.new) }
        ensures none { IfNone result (Exceeds bytes.now (length spans.old)) };

    /// How a head is judged whose parts are there.
    fn judge(
        self,
        alloc: Global,
        bytes: &[u8],
        spans: &[HeaderSpan],
    ) -> Result<Self::Judged, AllocError>
        requires { Covers self bytes.now spans.now }
        ensures judged { IfOk result (Judges bytes.now) }
        ensures memory_last { OnErr result (HasHead bytes.now) };

    /// How bytes are judged that are no head.
    fn refuse(bytes: &[u8]) -> Self::Judged
        requires { Exceeds bytes.now most_field_lines }
        ensures { Judges bytes.now result };
}

/// Judges the bytes of a whole head. Out of memory hides no fault of bytes that are no head.
pub(crate) fn judge_head<S: HeadSpans>(alloc: Global, bytes: &[u8]) -> Result<S::Judged, AllocError>
    ensures judged { IfOk result (S.Judges bytes.now) }
    ensures memory_last { OnErr result (S.HasHead bytes.now) }
{
    if bytes.len() > SHORT_HEAD_BYTES {
        return judge_long_head::<S>(alloc, bytes);
    }
    let mut spans = [EMPTY_HEADER_SPAN; INITIAL_FIELD_LINES];
    match S::find(bytes, &mut spans) {
        Some(found) => found.judge(alloc, bytes, &spans),
        None => judge_long_head::<S>(alloc, bytes),
    }
}

/// The same with room for all the lines that a head may have. It stands apart, since its room is cleared at each call.
fn judge_long_head<S: HeadSpans>(alloc: Global, bytes: &[u8]) -> Result<S::Judged, AllocError>
    ensures judged { IfOk result (S.Judges bytes.now) }
    ensures memory_last { OnErr result (S.HasHead bytes.now) }
{
    let mut spans = [EMPTY_HEADER_SPAN; MOST_FIELD_LINES];
    match S::find(bytes, &mut spans) {
        Some(found) => found.judge(alloc, bytes, &spans),
        None => Ok(S::refuse(bytes)),
    }
}
