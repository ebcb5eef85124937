//! How many cells the numbers of lines take.

ghost use Rattle.std.specs.Prelude.{◌≡◌, map, IfOk};
ghost use Rattle.jsx_base.specs.MultiSpan.{spans_of};
ghost use Rattle.jsx_diag.specs.Data.{child_of};
ghost use Rattle.jsx_emit.specs.Layout.{end_line, last_line_of};
ghost use Rattle.jsx_draw.specs.Spots.{greatest, held_in};
ghost use Rattle.jsx_emit.specs.Texts.{end_in};

use jsx_base::{MultiSpan, SourceMapper, Span};
use jsx_draw::ends_of;
use jsx_report::SubDiagnostic;
use std::alloc::{AllocError, Global};

/// The greatest line in which a span of a report or its notes ends, or 0.
pub(super) fn report_line<M: SourceMapper>(
    alloc: Global,
    cm: &M,
    spans: &MultiSpan,
    notes: &[SubDiagnostic],
) -> Result<usize, AllocError>
    ensures { IfOk result (λ line. line ≡ last_line_of (M.files cm.now) (spans_of spans.now) (map child_of notes.now)) }
{
    let own = greatest_line(alloc, cm, spans)?;
    let behind = notes_line(alloc, cm, notes)?;
    Ok(own.max(behind))
}

// The same for notes alone.
fn notes_line<M: SourceMapper>(
    alloc: Global,
    cm: &M,
    notes: &[SubDiagnostic],
) -> Result<usize, AllocError>
    ensures { IfOk result (λ line. line ≡ greatest (map (λ child. end_line (M.files cm.now) child.span) (map child_of notes.now))) }
{
    let mut line = 0_usize;
    for note in notes {
        line = line.max(greatest_line(alloc, cm, &note.span)?);
    }
    Ok(line)
}

// The greatest line in which one of the spans ends, or 0.
fn greatest_line<M: SourceMapper>(
    alloc: Global,
    cm: &M,
    spans: &MultiSpan,
) -> Result<usize, AllocError>
    ensures { IfOk result (λ line. line ≡ end_line (M.files cm.now) (spans_of spans.now)) }
{
    let labels = spans.span_labels(alloc)?;
    let mut line = 0_usize;
    for label in &labels {
        line = line.max(last_line(cm, label.span));
    }
    Ok(line)
}

// The line in which a span ends, or 0 outside all files.
fn last_line<M: SourceMapper>(cm: &M, span: Span) -> usize
    ensures { result ≡ end_in span (held_in (M.files cm.now) span) }
{
    match ends_of(cm, span) {
        Some((_, last)) => last.line,
        None => 0,
    }
}
