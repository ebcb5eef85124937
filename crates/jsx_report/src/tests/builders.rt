use super::{Lines, code, holds, loud, span, spans, strict, text};
use crate::{
    Applicability, Diagnostic, DiagnosticBuilder, DiagnosticStyledString, Emitter, Handler,
    HandlerError, Level,
};
use std::alloc::Global;

/// Whether a report went well.
fn went<E: Emitter>(report: DiagnosticBuilder<'_, E>) -> bool {
    report.emit().is_ok()
}

fn dummy_and_warning<E: Emitter>(handler: &mut Handler<E>) -> bool {
    handler.struct_dummy().is_ok_and(went) && handler.struct_warn("a").is_ok_and(went)
}

fn errors_and_note<E: Emitter>(handler: &mut Handler<E>) -> bool {
    let errors = handler.struct_err("b").is_ok_and(went)
        && handler.struct_fatal("c").is_ok_and(went);
    errors && handler.span_note_diag(span(), "d").is_ok_and(went)
}

#[test]
fn reports_have_the_level_of_the_call(rt: HostRuntime) {
    let mut handler = loud(rt.alloc());
    assert!(rt; dummy_and_warning(&mut handler));
    assert!(rt; errors_and_note(&mut handler));
    assert!(rt; handler.err_count() == 2);
    assert!(rt; holds(handler, "a\nb\nc\nd\n"));
}

fn warning_and_error_at_spans<E: Emitter>(alloc: Global, handler: &mut Handler<E>) -> bool {
    let warning = handler.struct_span_warn(spans(alloc), "a").is_ok_and(went);
    warning && handler.struct_span_err(spans(alloc), "b").is_ok_and(went)
}

fn fatal_and_equal_error_at_spans<E: Emitter>(alloc: Global, handler: &mut Handler<E>) -> bool {
    let fatal = handler.struct_span_fatal(spans(alloc), "c").is_ok_and(went);
    fatal && handler.mut_span_err(spans(alloc), "b").is_ok_and(went)
}

#[test]
fn reports_point_at_spans(rt: HostRuntime) {
    let mut handler = loud(rt.alloc());
    assert!(rt; warning_and_error_at_spans(rt.alloc(), &mut handler));
    assert!(rt; fatal_and_equal_error_at_spans(rt.alloc(), &mut handler));
    assert!(rt; holds(handler, "a\nb\nc\n"));
}

fn errors_with_codes<E: Emitter>(alloc: Global, handler: &mut Handler<E>) -> bool {
    let plain = handler.struct_err_with_code("a", code(alloc));
    plain.is_ok_and(went)
        && handler
            .struct_span_err_with_code(spans(alloc), "b", code(alloc))
            .is_ok_and(went)
}

fn warning_and_fatal_with_codes<E: Emitter>(alloc: Global, handler: &mut Handler<E>) -> bool {
    let warning = handler.struct_span_warn_with_code(spans(alloc), "a", code(alloc));
    warning.is_ok_and(went)
        && handler
            .struct_span_fatal_with_code(spans(alloc), "b", code(alloc))
            .is_ok_and(went)
}

#[test]
fn reports_have_codes(rt: HostRuntime) {
    let mut handler = loud(rt.alloc());
    assert!(rt; errors_with_codes(rt.alloc(), &mut handler));
    assert!(rt; holds(handler, "a\nb\n"));
    let mut handler = loud(rt.alloc());
    assert!(rt; warning_and_fatal_with_codes(rt.alloc(), &mut handler));
    assert!(rt; holds(handler, "a\nb\n"));
}

#[test]
fn warnings_are_cancelled_where_they_are_off(rt: HostRuntime) {
    let mut handler = loud(rt.alloc());
    handler.flags.can_emit_warnings = false;
    assert!(rt; dummy_and_warning(&mut handler));
    assert!(rt; holds(handler, ""));
}

fn add_notes<E: Emitter>(report: &mut DiagnosticBuilder<'_, E>) -> bool {
    report.note("a").is_ok() && report.warn("c").is_ok() && report.help("e").is_ok()
}

fn add_notes_at_spans<E: Emitter>(alloc: Global, report: &mut DiagnosticBuilder<'_, E>) -> bool {
    let note = report.span_note(spans(alloc), "b").is_ok();
    let warning = report.span_warn(spans(alloc), "d").is_ok();
    note && warning && report.span_help(spans(alloc), "f").is_ok()
}

fn add_label_and_note<E: Emitter>(alloc: Global, report: &mut DiagnosticBuilder<'_, E>) -> bool {
    let label = report.span_label(span(), text(alloc, "l")).is_ok();
    label && report.sub(Level::Note, "g", None).is_ok()
}

fn notes_and_labels<E: Emitter>(alloc: Global, handler: &mut Handler<E>) -> bool {
    let Ok(mut report) = handler.struct_err("m") else {
        return false;
    };
    let plain = add_notes(&mut report) && add_label_and_note(alloc, &mut report);
    let pointing = add_notes_at_spans(alloc, &mut report);
    let notes = report.children.len();
    report.cancel();
    plain && pointing && notes == 7
}

#[test]
fn notes_and_labels_are_added(rt: HostRuntime) {
    let mut handler = loud(rt.alloc());
    assert!(rt; notes_and_labels(rt.alloc(), &mut handler));
    assert!(rt; holds(handler, ""));
}

fn add_expected_and_found<E: Emitter>(
    alloc: Global,
    report: &mut DiagnosticBuilder<'_, E>,
) -> bool {
    let (expected, found) = (
        DiagnosticStyledString::new(alloc),
        DiagnosticStyledString::new(alloc),
    );
    let plain = report.note_expected_found("x", expected, found).is_ok();
    let (expected, found) = (
        DiagnosticStyledString::new(alloc),
        DiagnosticStyledString::new(alloc),
    );
    let extra = report.note_expected_found_extra("x", expected, found, "1", "2");
    plain && extra.is_ok()
}

fn expected_and_found<E: Emitter>(alloc: Global, handler: &mut Handler<E>) -> bool {
    let Ok(mut report) = handler.struct_err("m") else {
        return false;
    };
    let added = add_expected_and_found(alloc, &mut report);
    let notes = report.children.len();
    report.cancel();
    added && notes == 2
}

#[test]
fn expected_and_found_are_added(rt: HostRuntime) {
    let mut handler = loud(rt.alloc());
    assert!(rt; expected_and_found(rt.alloc(), &mut handler));
    assert!(rt; holds(handler, ""));
}

fn suggest_one<E: Emitter>(alloc: Global, report: &mut DiagnosticBuilder<'_, E>) -> bool {
    let plain = report
        .span_suggestion(span(), "x", text(alloc, "a"))
        .is_ok();
    let short = report.span_suggestion_short(span(), "x", text(alloc, "b"));
    plain && short.is_ok()
}

fn suggest_several<E: Emitter>(alloc: Global, report: &mut DiagnosticBuilder<'_, E>) -> bool {
    let several = report
        .span_suggestions(span(), "x", Vec::new(alloc))
        .is_ok();
    several && report.multipart_suggestion("x", Vec::new(alloc)).is_ok()
}

fn suggestions<E: Emitter>(alloc: Global, handler: &mut Handler<E>) -> bool {
    let Ok(mut report) = handler.struct_err("m") else {
        return false;
    };
    let added = suggest_one(alloc, &mut report) && suggest_several(alloc, &mut report);
    let count = report.suggestions.len();
    report.cancel();
    added && count == 4
}

fn suggest_one_surely<E: Emitter>(alloc: Global, report: &mut DiagnosticBuilder<'_, E>) -> bool {
    let sure = Applicability::MachineApplicable;
    let (a, b) = (text(alloc, "a"), text(alloc, "b"));
    let plain = report
        .span_suggestion_with_applicability(span(), "x", a, sure)
        .is_ok();
    let short = report.span_suggestion_short_with_applicability(span(), "x", b, sure);
    plain && short.is_ok()
}

fn suggest_several_surely<E: Emitter>(
    alloc: Global,
    report: &mut DiagnosticBuilder<'_, E>,
) -> bool {
    let sure = Applicability::MachineApplicable;
    let several = report
        .span_suggestions_with_applicability(span(), "x", Vec::new(alloc), sure)
        .is_ok();
    let parts = report.multipart_suggestion_with_applicability("x", Vec::new(alloc), sure);
    several && parts.is_ok()
}

/// Whether there are so many suggestions after four sure ones.
fn sure_suggestions<E: Emitter>(
    alloc: Global,
    handler: &mut Handler<E>,
    allowed: bool,
    want: usize,
) -> bool {
    let Ok(mut report) = handler.struct_err("m") else {
        return false;
    };
    report.allow_suggestions(allowed);
    let one = suggest_one_surely(alloc, &mut report);
    let several = suggest_several_surely(alloc, &mut report);
    let count = report.suggestions.len();
    report.cancel();
    one && several && count == want
}

#[test]
fn suggestions_are_added_where_they_are_allowed(rt: HostRuntime) {
    let mut handler = loud(rt.alloc());
    assert!(rt; suggestions(rt.alloc(), &mut handler));
    assert!(rt; sure_suggestions(rt.alloc(), &mut handler, true, 4));
    assert!(rt; sure_suggestions(rt.alloc(), &mut handler, false, 0));
    assert!(rt; holds(handler, ""));
}

fn has_span_and_code<E: Emitter>(report: &DiagnosticBuilder<'_, E>) -> bool {
    report.span.primary_span().is_some() && report.code.is_some()
}

fn span_and_code<E: Emitter>(alloc: Global, handler: &mut Handler<E>) -> bool {
    let Ok(mut report) = DiagnosticBuilder::new(handler, Level::Error, "m") else {
        return false;
    };
    report.set_span(spans(alloc)).code(code(alloc));
    let set = has_span_and_code(&report);
    Handler::cancel(report);
    set
}

#[test]
fn spans_and_codes_are_set(rt: HostRuntime) {
    let mut handler = loud(rt.alloc());
    assert!(rt; span_and_code(rt.alloc(), &mut handler));
    assert!(rt; holds(handler, ""));
}

/// The answer of `buffer` to an error.
fn buffered<E: Emitter>(
    handler: &mut Handler<E>,
    message: &str,
    list: &mut Vec<Diagnostic>,
) -> Result<(), HandlerError> {
    handler.struct_err(message)?.buffer(list)
}

fn waits_in_a_list(alloc: Global, handler: &mut Handler<Lines>) -> bool {
    let mut list = Vec::new(alloc);
    let waits = buffered(handler, "a", &mut list).is_ok();
    handler.flags.dont_buffer_diagnostics = true;
    let goes = buffered(handler, "b", &mut list).is_ok();
    waits && goes && list.len() == 1
}

fn bug_does_not_wait(alloc: Global, handler: &mut Handler<Lines>) -> bool {
    let mut list = Vec::new(alloc);
    buffered(handler, "c", &mut list) == Err(HandlerError::ExplicitBug)
}

#[test]
fn reports_wait_in_a_list(rt: HostRuntime) {
    let mut handler = loud(rt.alloc());
    assert!(rt; waits_in_a_list(rt.alloc(), &mut handler));
    assert!(rt; holds(handler, "b\n"));
    let mut handler = strict(rt.alloc());
    assert!(rt; bug_does_not_wait(rt.alloc(), &mut handler));
    assert!(rt; holds(handler, "c\n"));
}

fn error_waits_as_a_bug<E: Emitter>(handler: &mut Handler<E>) -> Result<(), HandlerError> {
    handler.struct_err("a")?.delay_as_bug()
}

#[test]
fn reports_wait_as_bugs(rt: HostRuntime) {
    let mut handler = loud(rt.alloc());
    assert!(rt; error_waits_as_a_bug(&mut handler).is_ok());
    assert!(rt; handler.finish() == Ok(true));
    assert!(rt; holds(handler, "a\n"));
}

fn bug_with_no_code<E: Emitter>(handler: &mut Handler<E>) -> bool {
    DiagnosticBuilder::new_with_code(handler, Level::Bug, None, "a").is_ok_and(went)
}

fn bug_is_forced<E: Emitter>(alloc: Global, handler: &mut Handler<E>) -> Result<(), HandlerError> {
    let diagnostic = Diagnostic::new(alloc, Level::Bug, "a")?;
    Handler::force_print_db(DiagnosticBuilder::new_diagnostic(handler, diagnostic)?)
}

#[test]
fn reports_are_forced(rt: HostRuntime) {
    let mut handler = loud(rt.alloc());
    assert!(rt; bug_with_no_code(&mut handler));
    assert!(rt; bug_is_forced(rt.alloc(), &mut handler).is_ok());
    assert!(rt; handler.err_count() == 1);
    assert!(rt; holds(handler, "a\na\n"));
}
