//! A report as it is shown: a suggestion that becomes a label, and spans that stand for those of macros.

ghost use Rattle.std.specs.Prelude.{◌≡◌, IfOk, OnOk, map, string_bytes};
ghost use Rattle.std.specs.Option.{option_map};
ghost use Rattle.jsx_base.specs.MultiSpan.{spans_of};
ghost use Rattle.jsx_diag.specs.Data.{child_of, report_of};
ghost use Rattle.jsx_emit.specs.Texts.{called, called_note, called_over, called_spans, macro_note, macro_text, moves, note_moves, put_call, report_moves, shown_report, some_move};
ghost use Rattle.std.specs.List.{list_any};

use crate::page::labels::label_in;
use jsx_base::{MultiSpan, SourceMapper, Span};
use jsx_report::{Diagnostic, HandlerFlags, Level, Message, Style, SubDiagnostic};
use std::alloc::{AllocError, Global};

const MACRO: &str =
    "this error originates in a macro outside of the current crate (in Nightly builds, run with -Z external-macro-backtrace for more info)";

/// A copy of the report as it is shown.
pub(super) fn prepared<M: SourceMapper>(
    alloc: Global,
    map: Option<&M>,
    db: &Diagnostic,
    flags: &HandlerFlags,
) -> Result<Diagnostic, AllocError>
    ensures { IfOk result (λ it. report_of it ≡ called_over (option_map (λ map. M.call_span map.now) map.entry) flags.now.external_macro_backtrace (shown_report (report_of db.now))) }
{
    let mut report = labelled(alloc, db)?;
    show_calls(alloc, map, &mut report, flags)?;
    Ok(report)
}

// A copy of the report, where a suggestion may have become a label.
fn labelled(alloc: Global, db: &Diagnostic) -> Result<Diagnostic, AllocError>
    ensures { IfOk result (λ it. report_of it ≡ shown_report (report_of db.now)) }
{
    let mut report = db.try_clone(alloc)?;
    put_label(alloc, &mut report)?;
    Ok(report)
}

// Puts the label that a suggestion becomes in place of the suggestion.
fn put_label(alloc: Global, report: &mut Diagnostic) -> Result<(), AllocError>
    ensures { OnOk result (report_of report.new ≡ shown_report (report_of report.old)) }
{
    if let Some((span, label)) = label_in(alloc, &report.suggestions)? {
        report.span.push_span_label(span, label)?;
        report.suggestions.clear();
    }
    Ok(())
}

// Puts the spans that are shown in place of those that macros made, with a note if there are some.
fn show_calls<M: SourceMapper>(
    alloc: Global,
    map: Option<&M>,
    report: &mut Diagnostic,
    flags: &HandlerFlags,
) -> Result<(), AllocError>
    ensures { OnOk result (report_of report.new ≡ called_over (option_map (λ map. M.call_span map.now) map.entry) flags.now.external_macro_backtrace (report_of report.old)) }
{
    let Some(map) = map else {
        return Ok(());
    };
    if flags.external_macro_backtrace {
        return Ok(());
    }
    if move_report(alloc, map, report)? {
        report.children.push(macro_note(alloc)?)?;
    }
    Ok(())
}

// Moves the spans of a report and its notes, and answers whether one moved.
fn move_report<M: SourceMapper>(
    alloc: Global,
    map: &M,
    report: &mut Diagnostic,
) -> Result<bool, AllocError>
    ensures moved { IfOk result (λ moved. moved ≡ report_moves (M.call_span map.now) (report_of report.old)) }
    ensures report { OnOk result (report_of report.new ≡ called (M.call_span map.now) (report_of report.old)) }
{
    let own = move_spans(alloc, map, &mut report.span)?;
    let notes = move_notes(alloc, map, &mut report.children)?;
    Ok(own || notes)
}

// Moves the spans of notes, and answers whether one moved.
fn move_notes<M: SourceMapper>(
    alloc: Global,
    cm: &M,
    notes: &mut [SubDiagnostic],
) -> Result<bool, AllocError>
    ensures moved { IfOk result (λ moved. moved ≡ list_any (note_moves (M.call_span cm.now)) (map child_of notes.old)) }
    ensures notes { OnOk result (map child_of notes.new ≡ map (called_note (M.call_span cm.now)) (map child_of notes.old)) }
{
    let mut moved = false;
    for note in notes.iter_mut() {
        moved |= move_spans(alloc, cm, &mut note.span)?;
    }
    Ok(moved)
}

// Puts the span that is shown in place of each primary one, and answers whether one changed.
fn move_spans<M: SourceMapper>(
    alloc: Global,
    map: &M,
    spans: &mut MultiSpan,
) -> Result<bool, AllocError>
    ensures moved { IfOk result (λ moved. moved ≡ some_move (M.call_span map.now) (spans_of spans.old)) }
    ensures spans { OnOk result (spans_of spans.new ≡ called_spans (M.call_span map.now) (spans_of spans.old)) }
{
    let primary = Vec::from_slice(alloc, spans.primary_spans())?;
    let mut moved = false;
    for span in &primary {
        moved |= move_span(map, spans, *span);
    }
    Ok(moved)
}

// Puts the span that is shown in place of this one, and answers whether it is another.
fn move_span<M: SourceMapper>(map: &M, spans: &mut MultiSpan, span: Span) -> bool
    ensures moved { result ≡ moves (M.call_span map.now) span }
    ensures spans { spans_of spans.new ≡ put_call (M.call_span map.now) span (spans_of spans.old) }
{
    let after = map.call_span_if_macro(span);
    if after == span {
        return false;
    }
    spans.replace(span, after);
    true
}

// The note that says that spans stand for those of a macro.
fn macro_note(alloc: Global) -> Result<SubDiagnostic, AllocError>
    ensures { IfOk result (λ note. child_of note ≡ macro_note) }
{
    let message = Message(macro_text(alloc)?, Style::NoStyle);
    Ok(SubDiagnostic {
        level: Level::Note,
        message: vec![in alloc; message]?,
        span: MultiSpan::new(alloc),
        render_span: None,
    })
}

#[tactic(auto, unfolding(crate::specs::Texts::macro_text))]
fn macro_text(alloc: Global) -> Result<String, AllocError>
    ensures { IfOk result (λ text. string_bytes text ≡ macro_text) }
{
    String::from_str(alloc, MACRO)
}
