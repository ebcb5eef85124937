//! Levels, flags, codes, and what a report takes over.

use crate::tests::{HERE, holds, is, text};
use crate::{Diagnostic, DiagnosticId, ExplicitBug, FatalError, HandlerFlags, Level};
use jsx_base::MultiSpan;
use std::alloc::{AllocError, Global};

const LEVELS: [Level; 9] = [
    Level::Bug,
    Level::Fatal,
    Level::PhaseFatal,
    Level::Error,
    Level::Warning,
    Level::Note,
    Level::Help,
    Level::Cancelled,
    Level::FailureNote,
];

// The text that each is shown as, whether it is without a word, and whether it is a failure note.
const LEVELS_TOLD: &str = "\
Bug: `error: internal compiler error`
Fatal: `error`
PhaseFatal: `error`
Error: `error`
Warning: `warning`
Note: `note`
Help: `help`
Cancelled: ``, without a word
FailureNote: ``, a failure note
";

fn push_level(alloc: Global, told: &mut String, level: Level) -> Result<(), AllocError> {
    let word = if level.to_str().is_none() {
        ", without a word"
    } else {
        ""
    };
    let note = if level.is_failure_note() {
        ", a failure note"
    } else {
        ""
    };
    let line = format!(in alloc; "{level:?}: `{level}`{word}{note}\n")?;
    told.push_str(line.as_str())
}

fn levels_told(alloc: Global) -> Result<String, AllocError> {
    let mut told = String::new(alloc);
    for level in LEVELS {
        push_level(alloc, &mut told, level)?;
    }
    Ok(told)
}

#[test]
fn levels_and_ends_have_words(rt: HostRuntime) {
    assert!(rt; is(levels_told(rt.alloc()), LEVELS_TOLD));
    assert!(rt;
        is(
            FatalError.raise().to_string(rt.alloc()),
            "parser fatal error"
        )
    );
    assert!(rt; is(ExplicitBug.to_string(rt.alloc()), "parser internal bug"));
}

fn with_code(alloc: Global) -> Result<Diagnostic, AllocError> {
    let code = DiagnosticId::Error(text(alloc, "E1")?);
    Diagnostic::new_with_code(alloc, Level::Error, Some(code), "other")
}

fn add_span_and_note(alloc: Global, report: &mut Diagnostic) -> Result<(), AllocError> {
    report.set_span(MultiSpan::from_span(alloc, HERE)?);
    report.note("n")?;
    Ok(())
}

// Whether `to` has the details of `from`, and its own message.
fn has_details(alloc: Global, to: &Diagnostic, from: &Diagnostic) -> bool {
    to.span == from.span
        && to.code == from.code
        && to.children == from.children
        && is(to.message(alloc), "bad")
}

// Whether `to` takes these over.
fn takes_details(alloc: Global, to: &mut Diagnostic, from: &Diagnostic) -> bool {
    to.copy_details_not_message(from).is_ok() && has_details(alloc, to, from)
}

fn details_are_taken_over(alloc: Global, to: &mut Diagnostic) -> Result<bool, AllocError> {
    let mut from = with_code(alloc)?;
    add_span_and_note(alloc, &mut from)?;
    Ok(*to != from && takes_details(alloc, to, &from))
}

fn code_is_given(alloc: Global, report: &mut Diagnostic) -> Result<bool, AllocError> {
    report.code(DiagnosticId::Lint(text(alloc, "L")?));
    Ok(report.get_code(alloc)? == report.code)
}

fn error_is_cancelled(_alloc: Global, report: &mut Diagnostic) -> Result<bool, AllocError> {
    let before = report.is_error() && !report.cancelled();
    report.cancel();
    Ok(before && report.cancelled() && !report.is_error())
}

#[test]
fn reports_change_as_they_are_told(rt: HostRuntime) {
    assert!(rt; !HandlerFlags::default().can_emit_warnings);
    assert!(rt; holds(rt.alloc(), details_are_taken_over));
    assert!(rt; holds(rt.alloc(), code_is_given));
    assert!(rt; holds(rt.alloc(), error_is_cancelled));
}
