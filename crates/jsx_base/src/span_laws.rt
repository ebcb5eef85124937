//! What the definitions of spans mean.

ghost use Rattle.jsx_base.specs.SpanPlaces.{LinesHoldText, MergedHoldBoth};

/// The lines of a span, with LF between them, hold its text.
pub fn lines_hold_text()
    ensures { LinesHoldText }
{}

/// Two spans as one hold the first one's text, what stands behind it on its line, and the second one's text.
pub fn merged_hold_both()
    ensures { MergedHoldBoth }
{}
