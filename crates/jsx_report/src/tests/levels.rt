use super::{Lines, code, delay_bug, holds, loud, span_err, spans, strict, text};
use crate::{DiagnosticId, Handler, HandlerError, Level};
use std::alloc::{AllocError, Global};

#[test]
fn an_equal_error_is_printed_once(rt: HostRuntime) {
    let mut handler = loud(rt.alloc());
    assert!(rt; span_err(rt.alloc(), &mut handler, "m").is_ok());
    assert!(rt; span_err(rt.alloc(), &mut handler, "m").is_ok());
    assert!(rt; handler.err_count() == 1);
    assert!(rt; holds(handler, "m\n"));
}

fn two_with_a_reset(handler: &mut Handler<Lines>) -> bool {
    let one = handler.err("m").is_ok();
    handler.reset_err_count();
    let forgotten = handler.err_count() == 0;
    one && forgotten && handler.err("m").is_ok()
}

#[test]
fn after_a_reset_it_is_printed_again(rt: HostRuntime) {
    let mut handler = loud(rt.alloc());
    assert!(rt; two_with_a_reset(&mut handler));
    assert!(rt; holds(handler, "m\nm\n"));
}

/// A message at a span.
fn emit(
    alloc: Global,
    handler: &mut Handler<Lines>,
    message: &str,
    level: Level,
) -> Result<(), HandlerError> {
    let at = spans(alloc);
    handler.emit(&at, message, level)
}

fn warnings_while_off(alloc: Global, handler: &mut Handler<Lines>) -> Result<(), HandlerError> {
    handler.flags.can_emit_warnings = false;
    handler.span_warn(spans(alloc), "m")?;
    emit(alloc, handler, "m", Level::Warning)?;
    handler.warn("w")
}

#[test]
fn a_warning_is_nothing_where_warnings_are_off(rt: HostRuntime) {
    let mut handler = loud(rt.alloc());
    assert!(rt; warnings_while_off(rt.alloc(), &mut handler).is_ok());
    assert!(rt; holds(handler, "w\n"));
}

fn aborts_after_an_error(handler: &mut Handler<Lines>) -> bool {
    let before = handler.abort_if_errors().is_ok() && !handler.has_errors();
    let error = handler.err("m") == Ok(());
    before && error && handler.abort_if_errors().is_err() && handler.has_errors()
}

fn bugs_are_explicit(handler: &mut Handler<Lines>) -> bool {
    let bug = HandlerError::ExplicitBug;
    handler.bug("b") == bug && handler.unimpl("u") == bug
}

#[test]
fn an_error_aborts_and_a_bug_is_explicit(rt: HostRuntime) {
    let mut handler = loud(rt.alloc());
    assert!(rt; aborts_after_an_error(&mut handler));
    assert!(rt; holds(handler, "m\n"));
    let mut handler = loud(rt.alloc());
    assert!(rt; bugs_are_explicit(&mut handler));
    assert!(rt; holds(handler, "b\nunimplemented u\n"));
}

fn bugs_at_spans(alloc: Global, handler: &mut Handler<Lines>) -> bool {
    let bug = HandlerError::ExplicitBug;
    let one = handler.span_bug(spans(alloc), "a") == bug;
    let two = handler.span_unimpl(spans(alloc), "b") == bug;
    one && two && handler.span_bug_no_panic(spans(alloc), "c").is_ok()
}

#[test]
fn bugs_point_at_spans(rt: HostRuntime) {
    let mut handler = loud(rt.alloc());
    assert!(rt; bugs_at_spans(rt.alloc(), &mut handler));
    assert!(rt; holds(handler, "a\nunimplemented b\nc\n"));
}

fn errors_are_bugs(alloc: Global, handler: &mut Handler<Lines>) -> bool {
    let bug = Err(HandlerError::ExplicitBug);
    let first = span_err(alloc, handler, "a") == bug && span_err(alloc, handler, "a").is_ok();
    let second = handler.err("b") == bug && handler.fatal("c").is_err();
    first && second && delay_bug(alloc, handler, "d") == bug
}

#[test]
fn errors_are_bugs_where_the_flags_say_so(rt: HostRuntime) {
    let mut handler = strict(rt.alloc());
    assert!(rt; errors_are_bugs(rt.alloc(), &mut handler));
    assert!(rt; handler.err_count() == 0);
    assert!(rt; holds(handler, "a\nb\nc\nd\n"));
}

fn errors_stop(alloc: Global, handler: &mut Handler<Lines>) -> bool {
    let stop = Err(HandlerError::FatalError);
    let note = handler.span_note_without_error(spans(alloc), "n").is_ok();
    let error = span_err(alloc, handler, "m") == stop;
    note && error && emit(alloc, handler, "o", Level::Note) == stop
}

fn fatal_errors_stop_at_spans(alloc: Global, handler: &mut Handler<Lines>) -> bool {
    handler.span_fatal(spans(alloc), "f").is_err() && handler.fatal("g").is_ok()
}

#[test]
fn errors_stop_where_they_are_told_to(rt: HostRuntime) {
    let mut handler = loud(rt.alloc());
    handler.set_continue_after_error(false);
    assert!(rt; errors_stop(rt.alloc(), &mut handler));
    assert!(rt; fatal_errors_stop_at_spans(rt.alloc(), &mut handler));
    assert!(rt; holds(handler, "n\nm\no\nf\ng\n"));
}

fn is_taught_once(handler: &mut Handler<Lines>, code: &DiagnosticId) -> Result<bool, AllocError> {
    Ok(handler.must_teach(code)? && !handler.must_teach(code)?)
}

fn lint(alloc: Global) -> DiagnosticId {
    DiagnosticId::Lint(text(alloc, "l"))
}

fn code_is_taught_once(alloc: Global, handler: &mut Handler<Lines>) -> bool {
    let code = lint(alloc);
    is_taught_once(handler, &code) == Ok(true)
}

#[test]
fn a_code_is_taught_once(rt: HostRuntime) {
    let mut handler = loud(rt.alloc());
    assert!(rt; code_is_taught_once(rt.alloc(), &mut handler));
    assert!(rt; holds(handler, ""));
}

fn note_with_code(alloc: Global, handler: &mut Handler<Lines>) -> bool {
    let at = spans(alloc);
    handler
        .emit_with_code(&at, "n", code(alloc), Level::Note)
        .is_ok()
}

fn reports_with_codes(alloc: Global, handler: &mut Handler<Lines>) -> bool {
    let warning = handler
        .span_warn_with_code(spans(alloc), "w", lint(alloc))
        .is_ok();
    let note = note_with_code(alloc, handler);
    warning
        && note
        && handler
            .span_fatal_with_code(spans(alloc), "f", code(alloc))
            .is_ok()
}

#[test]
fn codes_go_with_reports(rt: HostRuntime) {
    let mut handler = loud(rt.alloc());
    assert!(rt; reports_with_codes(rt.alloc(), &mut handler));
    assert!(rt; holds(handler, "w\nn\nf\n"));
}

fn plain_reports(handler: &mut Handler<Lines>) -> bool {
    let first = handler.failure("a").is_ok() && handler.note_without_error("b").is_ok();
    first && handler.fatal("d").is_ok()
}

#[test]
fn plain_reports_are_printed(rt: HostRuntime) {
    let mut handler = loud(rt.alloc());
    assert!(rt; plain_reports(&mut handler));
    assert!(rt; handler.err_count() == 2);
    assert!(rt; holds(handler, "a\nb\nd\n"));
}
