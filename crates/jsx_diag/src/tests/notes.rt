//! The calls that add a label or a note.

use crate::tests::{HERE, THERE, holds, is, report, text};
use crate::{Diagnostic, DiagnosticStyledString, Level, Message, Style, SubDiagnostic};
use jsx_base::{BytePos, MultiSpan, Span};
use std::alloc::{AllocError, Global};

fn push_note(alloc: Global, shown: &mut String, note: &SubDiagnostic) -> Result<(), AllocError> {
    let message = note.message(alloc)?;
    let line = format!(in alloc; "{}: {message}\n", note.level)?;
    shown.push_str(line.as_str())
}

// Its notes on a line each, behind the word of their level.
fn notes(alloc: Global, report: &Diagnostic) -> Result<String, AllocError> {
    let mut shown = String::new(alloc);
    for note in &report.children {
        push_note(alloc, &mut shown, note)?;
    }
    Ok(shown)
}

// Whether a report has these notes when it was told this.
fn gives<F: FnOnce(Global, &mut Diagnostic) -> Result<(), AllocError>>(
    alloc: Global,
    tell: F,
    want: &str,
) -> bool
    requires { F.IsAlwaysCallable tell }
{
    match report(alloc) {
        Ok(mut report) => tell(alloc, &mut report).is_ok() && is(notes(alloc, &report), want),
        Err(_) => false,
    }
}

fn plain_notes(_alloc: Global, report: &mut Diagnostic) -> Result<(), AllocError> {
    report.note("n")?.warn("w")?.help("h")?;
    Ok(())
}

fn placed_notes(alloc: Global, report: &mut Diagnostic) -> Result<(), AllocError> {
    report.span_note(MultiSpan::new(alloc), "sn")?;
    report.span_warn(MultiSpan::new(alloc), "sw")?;
    report.span_help(MultiSpan::new(alloc), "sh")?;
    Ok(())
}

// One piece that stands out.
fn pieces(alloc: Global) -> Result<Vec<Message>, AllocError> {
    Ok(vec![in alloc; Message(text(alloc, "hi")?, Style::Highlight)]?)
}

fn other_notes(alloc: Global, report: &mut Diagnostic) -> Result<(), AllocError> {
    report.highlighted_note(pieces(alloc)?)?;
    report.sub(Level::Help, "sub", MultiSpan::new(alloc), None)?;
    Ok(())
}

#[test]
fn notes_follow_one_another(rt: HostRuntime) {
    assert!(rt; gives(rt.alloc(), plain_notes, "note: n\nwarning: w\nhelp: h\n"));
    assert!(rt;
        gives(
            rt.alloc(),
            placed_notes,
            "note: sn\nwarning: sw\nhelp: sh\n"
        )
    );
    assert!(rt; gives(rt.alloc(), other_notes, "note: hi\nhelp: sub\n"));
}

// "a " and then "b", which stands out.
fn two_parts(alloc: Global) -> Result<DiagnosticStyledString, AllocError> {
    let mut styled = DiagnosticStyledString::normal(alloc, text(alloc, "a ")?)?;
    styled.push_highlighted(text(alloc, "b")?)?;
    Ok(styled)
}

// "c", which stands out, and then " d".
fn other_two_parts(alloc: Global) -> Result<DiagnosticStyledString, AllocError> {
    let mut styled = DiagnosticStyledString::highlighted(alloc, text(alloc, "c")?)?;
    styled.push_normal(text(alloc, " d")?)?;
    Ok(styled)
}

fn joined_parts(alloc: Global) -> Result<String, AllocError> {
    two_parts(alloc)?.content(alloc)
}

fn parts_are_compared(alloc: Global) -> Result<bool, AllocError> {
    let styled = two_parts(alloc)?;
    Ok(styled.is_same(&two_parts(alloc)?) && !styled.is_same(&other_two_parts(alloc)?))
}

fn expected_and_found(alloc: Global, report: &mut Diagnostic) -> Result<(), AllocError> {
    let expected = two_parts(alloc)?;
    let found = other_two_parts(alloc)?;
    report.note_expected_found_extra("type", expected, found, " (1)", " (2)")?;
    Ok(())
}

fn nothing_expected_and_found(alloc: Global, report: &mut Diagnostic) -> Result<(), AllocError> {
    let expected = DiagnosticStyledString::new(alloc);
    report.note_expected_found("x", expected, DiagnosticStyledString::new(alloc))?;
    Ok(())
}

fn signature_of_a_trait(alloc: Global, report: &mut Diagnostic) -> Result<(), AllocError> {
    report.note_trait_signature(text(alloc, "f")?, text(alloc, "fn f()")?)?;
    Ok(())
}

#[test]
fn styled_texts_are_shown(rt: HostRuntime) {
    assert!(rt; is(joined_parts(rt.alloc()), "a b"));
    assert!(rt; parts_are_compared(rt.alloc()).unwrap_or(false));
    let both = "note: expected type `a b` (1)\n   found type `c d` (2)\n";
    assert!(rt; gives(rt.alloc(), expected_and_found, both));
    let neither = "note: expected x ``\n   found x ``\n";
    assert!(rt; gives(rt.alloc(), nothing_expected_and_found, neither));
    let signature = "note: `f` from trait: `fn f()`\n";
    assert!(rt; gives(rt.alloc(), signature_of_a_trait, signature));
}

const ELSEWHERE: Span = Span {
    lo: BytePos(5),
    hi: BytePos(6),
};

// Whether this is the primary span, and one label stands there.
fn has_one_label(alloc: Global, spans: &MultiSpan, primary: Span) -> Result<bool, AllocError> {
    Ok(spans.primary_span() == Some(primary) && spans.span_labels(alloc)?.len() == 1)
}

fn move_label(alloc: Global, report: &mut Diagnostic) -> Result<(), AllocError> {
    report.set_span(MultiSpan::from_span(alloc, HERE)?);
    report.span_label(THERE, text(alloc, "here")?)?;
    report.replace_span_with(ELSEWHERE)?;
    Ok(())
}

fn label_is_moved(alloc: Global, report: &mut Diagnostic) -> Result<bool, AllocError> {
    move_label(alloc, report)?;
    has_one_label(alloc, &report.span, ELSEWHERE)
}

fn has_equal_copy(alloc: Global, note: &SubDiagnostic) -> Result<bool, AllocError> {
    Ok(note.try_clone(alloc)?.is_same(note))
}

fn note_is_copied(alloc: Global, report: &mut Diagnostic) -> Result<bool, AllocError> {
    if report.note("n").is_err() {
        return Ok(false);
    }
    match report.children.as_slice() {
        [note] => has_equal_copy(alloc, note),
        _ => Ok(false),
    }
}

#[test]
fn labels_are_moved_and_notes_copied(rt: HostRuntime) {
    assert!(rt; holds(rt.alloc(), label_is_moved));
    assert!(rt; holds(rt.alloc(), note_is_copied));
}
