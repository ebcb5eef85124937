//! The calls that add a suggestion.

use crate::tests::{HERE, THERE, holds, report, text};
use crate::{Applicability, CodeSuggestion, Diagnostic};
use jsx_base::Span;
use std::alloc::{AllocError, Global};

const SURE: Applicability = Applicability::MachineApplicable;

const OPEN: Applicability = Applicability::Unspecified;

// Whether it has so many ways, is shown like this and is so sure.
fn is_like(it: &CodeSuggestion, ways: usize, shown: bool, sure: Applicability) -> bool {
    it.substitutions.len() == ways && it.show_code_when_inline == shown && it.applicability == sure
}

// Whether its suggestions are two, both so sure, with so many ways and shown like this.
fn has_two(
    report: &Diagnostic,
    sure: Applicability,
    first: (usize, bool),
    second: (usize, bool),
) -> bool {
    match report.suggestions.as_slice() {
        [one, two] => is_like(one, first.0, first.1, sure)
            && is_like(two, second.0, second.1, sure),
        _ => false,
    }
}

// Whether a report has these when it was told this.
fn gives_two<F: FnOnce(Global, &mut Diagnostic) -> Result<(), AllocError>>(
    alloc: Global,
    tell: F,
    sure: Applicability,
    first: (usize, bool),
    second: (usize, bool),
) -> bool
    requires { F.IsAlwaysCallable tell }
{
    match report(alloc) {
        Ok(mut report) => tell(alloc, &mut report).is_ok() && has_two(&report, sure, first, second),
        Err(_) => false,
    }
}

fn two_texts(alloc: Global) -> Result<Vec<String>, AllocError> {
    Ok(vec![in alloc; text(alloc, "a")?, text(alloc, "b")?]?)
}

fn two_edits(alloc: Global) -> Result<Vec<(Span, String)>, AllocError> {
    Ok(vec![in alloc; (HERE, text(alloc, "a")?), (THERE, text(alloc, "b")?)]?)
}

fn one_text(alloc: Global, report: &mut Diagnostic) -> Result<(), AllocError> {
    report.span_suggestion(HERE, "m", text(alloc, "a")?)?;
    report.span_suggestion_short(HERE, "m", text(alloc, "a")?)?;
    Ok(())
}

fn several_texts(alloc: Global, report: &mut Diagnostic) -> Result<(), AllocError> {
    report.span_suggestions(HERE, "m", two_texts(alloc)?)?;
    report.multipart_suggestion("m", two_edits(alloc)?)?;
    Ok(())
}

fn one_sure_text(alloc: Global, report: &mut Diagnostic) -> Result<(), AllocError> {
    report.span_suggestion_with_applicability(HERE, "m", text(alloc, "a")?, SURE)?;
    report.span_suggestion_short_with_applicability(HERE, "m", text(alloc, "a")?, SURE)?;
    Ok(())
}

fn no_text(alloc: Global, report: &mut Diagnostic) -> Result<(), AllocError> {
    report.span_suggestions_with_applicability(HERE, "m", Vec::new(alloc), SURE)?;
    report.multipart_suggestion_with_applicability("m", Vec::new(alloc), SURE)?;
    Ok(())
}

fn add_one_text(alloc: Global, report: &mut Diagnostic) -> Result<(), AllocError> {
    report.span_suggestion(HERE, "m", text(alloc, "a")?)?;
    Ok(())
}

fn suggestion_is_copied(alloc: Global, report: &mut Diagnostic) -> Result<bool, AllocError> {
    add_one_text(alloc, report)?;
    let copy = report.try_clone(alloc)?;
    Ok(copy == *report && copy.is_same(report))
}

#[test]
fn suggestions_follow_one_another(rt: HostRuntime) {
    assert!(rt; gives_two(rt.alloc(), one_text, OPEN, (1, true), (1, false)));
    assert!(rt; gives_two(rt.alloc(), several_texts, OPEN, (2, true), (1, true)));
    assert!(rt; gives_two(rt.alloc(), one_sure_text, SURE, (1, true), (1, false)));
    assert!(rt; gives_two(rt.alloc(), no_text, SURE, (0, true), (1, true)));
    assert!(rt; holds(rt.alloc(), suggestion_is_copied));
}
