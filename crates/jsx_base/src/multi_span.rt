//! Spans with labels, to which a report points.

ghost use Rattle.std.specs.Prelude.{◌≡◌, ◌+◌, [], ◌∷◌, ◌++◌, Bool, false, ◌||◌, slice_get, string_bytes, length, map, filter, not, IfOk, IfErr, OnOk, OnErr};
ghost use Rattle.std.specs.Option.{option_map};
ghost use Rattle.std.specs.List.{list_any};
ghost use Rattle.jsx_base.specs.MultiSpan.{spans_of, label_of, label_data, labelled, unlabelled, shown_labels, is_span, relabelled, replaced, replaced_label};

use crate::Span;
use std::alloc::{AllocError, Global};

/// Primary spans, at most one of which a caller gives, and spans with a label.
#[derive(Debug, PartialEq, Eq, Hash, Drop)]
pub struct MultiSpan {
    primary_spans: Vec<Span>,
    span_labels: Vec<(Span, String)>,
}

/// A span to point at, and what to write beside it.
#[derive(Debug, PartialEq, Eq, Drop)]
pub struct SpanLabel {
    pub span: Span,
    /// Whether it is a primary span.
    pub is_primary: bool,
    pub label: Option<String>,
}

impl MultiSpan {
    /// No span at all. It takes no memory.
    pub fn new(alloc: Global) -> MultiSpan
        ensures primary { (spans_of result).primary ≡ [] }
        ensures labels { (spans_of result).labels ≡ [] }
    {
        MultiSpan {
            primary_spans: Vec::new(alloc),
            span_labels: Vec::new(alloc),
        }
    }

    /// One primary span, without a label.
    ///
    /// # Errors
    ///
    /// `AllocError` for want of memory.
    pub fn from_span(alloc: Global, sp: Span) -> Result<MultiSpan, AllocError>
        ensures primary { IfOk result (λ it. (spans_of it).primary ≡ sp ∷ []) }
        ensures labels { IfOk result (λ it. (spans_of it).labels ≡ []) }
    {
        Ok(MultiSpan {
            primary_spans: vec![in alloc; sp]?,
            span_labels: Vec::new(alloc),
        })
    }

    /// Adds a label, after those that are there.
    ///
    /// # Errors
    ///
    /// `AllocError` for want of memory. Then nothing has changed.
    pub fn push_span_label(&mut self, span: Span, label: String) -> Result<(), AllocError>
        ensures added { OnOk result ((spans_of self.new).labels ≡ (spans_of self.old).labels ++ (span, string_bytes label) ∷ []) }
        ensures primary { (spans_of self.new).primary ≡ (spans_of self.old).primary }
        ensures kept { OnErr result (spans_of self.new ≡ spans_of self.old) }
    {
        self.span_labels.push((span, label))?;
        Ok(())
    }

    /// The first primary span.
    pub fn primary_span(&self) -> Option<Span>
        ensures { result ≡ slice_get (spans_of self.now).primary 0 }
    {
        self.primary_spans.first().copied()
    }

    /// The primary spans.
    pub fn primary_spans(&self) -> &[Span]
        ensures { result.now ≡ (spans_of self.now).primary }
    {
        &self.primary_spans
    }

    /// The labels in the order in which they were added, and then the primary spans without one.
    ///
    /// # Errors
    ///
    /// `AllocError` for want of memory.
    pub fn span_labels(&self, alloc: Global) -> Result<Vec<SpanLabel>, AllocError>
        ensures { IfOk result (λ shown. map label_data shown.items ≡ shown_labels (spans_of self.now)) }
    {
        let mut shown = with_labels(alloc, &self.primary_spans, &self.span_labels)?;
        push_bare(&mut shown, &self.primary_spans, &self.span_labels)?;
        Ok(shown)
    }

    /// Puts `after` in place of `before` among the primary spans and those with a label, and
    /// answers whether `before` was there.
    pub fn replace(&mut self, before: Span, after: Span) -> bool
        ensures found { result ≡ (list_any (is_span before) (spans_of self.old).primary
            || list_any (λ label. is_span before label.0) (spans_of self.old).labels) }
        ensures primary { (spans_of self.new).primary ≡ map (replaced before after) (spans_of self.old).primary }
        ensures labels { (spans_of self.new).labels ≡ map (replaced_label before after) (spans_of self.old).labels }
    {
        let in_primary = replace_spans(&mut self.primary_spans, before, after);
        let in_labels = replace_labels(&mut self.span_labels, before, after);
        in_primary || in_labels
    }

    /// One primary span, at which the text of each label stands.
    ///
    /// # Errors
    ///
    /// `AllocError` for want of memory.
    pub fn moved_to(&self, alloc: Global, after: Span) -> Result<MultiSpan, AllocError>
        ensures { IfOk result (λ moved. spans_of moved ≡ relabelled (spans_of self.now) after) }
    {
        let mut labels = copy_labels(alloc, &self.span_labels)?;
        put_at(&mut labels, after);
        Ok(MultiSpan {
            primary_spans: vec![in alloc; after]?,
            span_labels: labels,
        })
    }

    /// An equal one.
    ///
    /// # Errors
    ///
    /// `AllocError` for want of memory.
    pub fn try_clone(&self, alloc: Global) -> Result<MultiSpan, AllocError>
        ensures { IfOk result (λ copy. spans_of copy ≡ spans_of self.now) }
    {
        Ok(MultiSpan {
            span_labels: copy_labels(alloc, &self.span_labels)?,
            primary_spans: Vec::from_slice(alloc, &self.primary_spans)?,
        })
    }
}

// Equal labels.
fn copy_labels(alloc: Global, labels: &[(Span, String)]) -> Result<Vec<(Span, String)>, AllocError>
    ensures { IfOk result (λ copies. map label_of copies.items ≡ map label_of labels.now) }
{
    let copies = Vec::from_clones(alloc, labels)?;
    Ok(copies)
}

// Puts each label at this span.
fn put_at(labels: &mut [(Span, String)], span: Span)
    ensures { map label_of labels.new ≡ map (λ label. (span, label.1)) (map label_of labels.old) }
{
    for label in labels.iter_mut() {
        label.0 = span;
    }
}

// What the labels show.
fn with_labels(
    alloc: Global,
    primary: &[Span],
    labels: &[(Span, String)],
) -> Result<Vec<SpanLabel>, AllocError>
    ensures { IfOk result (λ shown. map label_data shown.items ≡ map (labelled primary.now) (map label_of labels.now)) }
{
    let mut shown = Vec::with_capacity(alloc, labels.len())?;
    for label in labels {
        shown.push(with_label(alloc, primary, label)?)?;
    }
    Ok(shown)
}

// Adds what the primary spans show at which no label stands.
fn push_bare(
    shown: &mut Vec<SpanLabel>,
    primary: &[Span],
    labels: &[(Span, String)],
) -> Result<(), AllocError>
    ensures { OnOk result (map label_data shown.new.items ≡ map label_data shown.old.items
        ++ map unlabelled (filter (λ span. not (list_any (λ label. is_span span label.0) (map label_of labels.now))) primary.now)) }
{
    for span in primary {
        if !has_label(labels, *span) {
            shown.push(SpanLabel {
                span: *span,
                is_primary: true,
                label: None,
            })?;
        }
    }
    Ok(())
}

// What a label shows.
fn with_label(
    alloc: Global,
    primary: &[Span],
    label: &(Span, String),
) -> Result<SpanLabel, AllocError>
    ensures { IfOk result (λ it. label_data it ≡ labelled primary.now (label_of label.now)) }
{
    Ok(SpanLabel {
        span: label.0,
        is_primary: primary.contains(&label.0),
        label: Some(String::from_str(alloc, label.1.as_str())?),
    })
}

// Whether one of the labels stands at this span.
fn has_label(labels: &[(Span, String)], span: Span) -> bool
    ensures { result ≡ list_any (λ label. is_span span label.0) (map label_of labels.now) }
{
    for (labelled, _) in labels {
        if *labelled == span {
            return true;
        }
    }
    false
}

// Puts `after` in place of each span that equals `before`, and answers whether there was one.
fn replace_spans(spans: &mut [Span], before: Span, after: Span) -> bool
    ensures found { result ≡ list_any (is_span before) spans.old }
    ensures spans { spans.new ≡ map (replaced before after) spans.old }
{
    let mut found = false;
    for span in spans.iter_mut() {
        found |= replace_one(span, before, after);
    }
    found
}

// The same for the spans of labels.
fn replace_labels(labels: &mut [(Span, String)], before: Span, after: Span) -> bool
    ensures found { result ≡ list_any (λ label. is_span before label.0) (map label_of labels.old) }
    ensures labels { map label_of labels.new ≡ map (replaced_label before after) (map label_of labels.old) }
{
    let mut found = false;
    for label in labels.iter_mut() {
        found |= replace_one(&mut label.0, before, after);
    }
    found
}

// The same for one span.
fn replace_one(span: &mut Span, before: Span, after: Span) -> bool
    ensures found { result ≡ is_span before span.old }
    ensures span { span.new ≡ replaced before after span.old }
{
    let found = *span == before;
    if found {
        *span = after;
    }
    found
}

#[cfg(test)]
mod tests {
    use super::*;
    use crate::BytePos;

    fn span(lo: u32, hi: u32) -> Span {
        Span::new(BytePos(lo), BytePos(hi))
    }

    fn primary_span_is_given(alloc: Global) -> Result<bool, AllocError> {
        let spans = MultiSpan::from_span(alloc, span(1, 4))?;
        Ok(spans.primary_span() == Some(span(1, 4)))
    }

    fn primary_and_label(alloc: Global) -> Result<MultiSpan, AllocError> {
        let mut spans = MultiSpan::from_span(alloc, span(1, 4))?;
        spans.push_span_label(span(5, 6), String::from_str(alloc, "here")?)?;
        Ok(spans)
    }

    fn is_label_alone(shown: &SpanLabel, span: Span) -> bool {
        shown.span == span && !shown.is_primary && shown.label.is_some()
    }

    fn is_primary_alone(shown: &SpanLabel, span: Span) -> bool {
        shown.span == span && shown.is_primary && shown.label.is_none()
    }

    fn label_comes_first(alloc: Global) -> Result<bool, AllocError> {
        let spans = primary_and_label(alloc)?;
        let shown = spans.span_labels(alloc)?;
        Ok(match shown.as_slice() {
            [first, second] => {
                is_label_alone(first, span(5, 6)) && is_primary_alone(second, span(1, 4))
            }
            _ => false,
        })
    }

    fn is_replaced_once(spans: &mut MultiSpan) -> bool {
        spans.replace(span(5, 6), span(7, 8)) && !spans.replace(span(5, 6), span(7, 8))
    }

    fn copy_is_apart(alloc: Global) -> Result<bool, AllocError> {
        let spans = primary_and_label(alloc)?;
        let mut copy = spans.try_clone(alloc)?;
        Ok(copy == spans && is_replaced_once(&mut copy) && copy != spans)
    }

    #[test]
    fn labels_come_first_and_then_bare_primary_spans(rt: HostRuntime) {
        assert!(rt; primary_span_is_given(rt.alloc()) == Ok(true));
        assert!(rt; label_comes_first(rt.alloc()) == Ok(true));
        assert!(rt; copy_is_apart(rt.alloc()) == Ok(true));
    }
}
