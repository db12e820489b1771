//! Where the parts of an id are in its text.

ghost use Rattle.std.specs.Prelude.{◌≡◌};
ghost use Rattle.krates_ids.specs.Spans as spans;

/// Where a piece is in a text: from the byte `start` up to the byte `end`.
#[derive(Clone, Copy, Debug)]
pub(crate) struct Span {
    pub start: usize,
    pub end: usize,
}

/// Where the three parts of an id are.
#[derive(Clone, Copy, Debug)]
pub(crate) struct Parts {
    pub name: Span,
    pub version: Span,
    pub source: Span,
}

/// The span of a piece that is in the text from `start` on.
pub(crate) fn span_of(text: &str, piece: &str, start: usize) -> Span
    requires { spans.StandsAt text.now piece.now start }
    ensures { spans.Marks text.now result piece.now }
{
    Span {
        start,
        end: start + piece.len(),
    }
}

/// The piece that a span marks.
pub(crate) fn part(text: &str, span: Span) -> &str
    requires { spans.IsSpan text.now span }
    ensures { result.now ≡ spans.part text.now span }
{
    &text[span.start..span.end]
}
