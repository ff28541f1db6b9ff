//! The parts of a head, from where they stand. They share one copy of it.
ghost use Rattle.std.specs.Prelude.{◌≡◌, ◌≤◌, length, map, All, IfOk};
ghost use Rattle.httparse.specs.Spans.{IsHeaderWithin, span_bytes};
ghost use Rattle.hx_framing.specs.Head.{field_at_span};

use httparse::spans::{HeaderSpan, Span};
use hx_fields::{Bytes, Field, Fields};
use std::alloc::{AllocError, Global};

/// The bytes of a head that a span covers.
pub(crate) fn head_bytes_at_span(
    alloc: Global,
    head: &Bytes,
    span: Span,
) -> Result<Bytes, AllocError>
    requires ordered { span.start ≤ span.end }
    requires within { span.end ≤ length head.now }
    ensures { IfOk result (λ part. part ≡ span_bytes head.now span) }
{
    head.part(alloc, span.start, span.end)
}

fn field_at_span(alloc: Global, head: &Bytes, span: HeaderSpan) -> Result<Field, AllocError>
    requires { IsHeaderWithin (length head.now) span }
    ensures { IfOk result (λ field. field ≡ field_at_span head.now span) }
{
    let (name, value) = (span.name, span.value);
    Field::part_of(
        alloc,
        head,
        (name.start, name.end),
        (value.start, value.end),
    )
}

/// The field lines of a head that the spans cover.
pub(crate) fn fields_at_spans(
    alloc: Global,
    head: &Bytes,
    spans: &[HeaderSpan],
) -> Result<Fields, AllocError>
    requires { All (IsHeaderWithin (length head.now)) spans.now }
    ensures { IfOk result (λ fields. fields ≡ map (field_at_span head.now) spans.now) }
{
    let mut fields = Fields::with_capacity(alloc, spans.len())?;
    for span in spans {
        fields.push_line(field_at_span(alloc, head, *span)?)?;
    }
    Ok(fields)
}
