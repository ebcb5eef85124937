use super::{Lines, delay_bug, holds, loud, spans};
use crate::{DiagnosticId, Handler, HandlerError};
use std::alloc::Global;

fn two_errors(handler: &mut Handler<Lines>) -> Result<(), HandlerError> {
    handler.print_error_count()?;
    handler.err("a")?;
    handler.err("b")?;
    handler.print_error_count()
}

#[test]
fn two_errors_are_counted_at_the_end(rt: HostRuntime) {
    let mut handler = loud(rt.alloc());
    assert!(rt; two_errors(&mut handler).is_ok());
    assert!(rt; holds(handler, "a\nb\naborting due to 2 previous errors\n"));
}

fn report_code(
    alloc: Global,
    handler: &mut Handler<Lines>,
    digit: char,
) -> Result<(), HandlerError> {
    let code = DiagnosticId::Error(format!(in alloc; "E{digit}")?);
    handler.span_err_with_code(spans(alloc), "m", code)
}

/// Reports errors with codes of these digits.
fn report_codes(
    alloc: Global,
    handler: &mut Handler<Lines>,
    digits: &str,
) -> Result<(), HandlerError> {
    for digit in digits.chars() {
        report_code(alloc, handler, digit)?;
    }
    Ok(())
}

fn ending_with_codes(
    alloc: Global,
    handler: &mut Handler<Lines>,
    digits: &str,
) -> Result<(), HandlerError> {
    report_codes(alloc, handler, digits)?;
    handler.print_error_count()
}

/// Whether a run with errors of these digits ends so.
fn ends_with(alloc: Global, explains: bool, digits: &str, want: &str) -> bool {
    let mut lines = Lines::new(alloc);
    lines.explains = explains;
    let mut handler = Handler::with_emitter(alloc, true, false, lines);
    let went = ending_with_codes(alloc, &mut handler, digits).is_ok();
    let lines = handler.into_emitter();
    went & lines.text.as_str().ends_with(want)
}

#[test]
fn errors_with_codes_are_explained(rt: HostRuntime) {
    let table = [
        (
            "1",
            "aborting due to previous error\n\
            For more information about this error, try `rustc --explain E1`.\n",
        ),
        (
            "21",
            "aborting due to 2 previous errors\nSome errors occurred: E1, E2.\n\
            For more information about an error, try `rustc --explain E1`.\n",
        ),
        (
            "9876543210",
            "aborting due to 10 previous errors\n\
            Some errors occurred: E0, E1, E2, E3, E4, E5, E6, E7, E8...\n\
            For more information about an error, try `rustc --explain E0`.\n",
        ),
    ];
    for (digits, want) in table {
        assert!(rt; ends_with(rt.alloc(), true, digits, want));
    }
    assert!(rt;
        ends_with(
            rt.alloc(),
            false,
            "12",
            "aborting due to 2 previous errors\n"
        )
    );
}

#[test]
fn bugs_that_waited_are_printed_at_the_end(rt: HostRuntime) {
    let mut handler = loud(rt.alloc());
    assert!(rt; delay_bug(rt.alloc(), &mut handler, "a").is_ok());
    assert!(rt; delay_bug(rt.alloc(), &mut handler, "b").is_ok());
    assert!(rt; handler.finish() == Ok(true));
    assert!(rt; handler.finish() == Ok(false));
    assert!(rt; holds(handler, "a\nb\n"));
}

/// Whether `finish` ends at the second of two bugs that waited, where errors are bugs and the first is known.
fn ends_at_the_second(alloc: Global, handler: &mut Handler<Lines>) -> bool {
    let waiting = delay_bug(alloc, handler, "a").is_ok() && delay_bug(alloc, handler, "b").is_ok();
    handler.flags.treat_err_as_bug = true;
    let known = handler.span_bug(spans(alloc), "a") == HandlerError::ExplicitBug;
    waiting && known && handler.finish() == Err(HandlerError::ExplicitBug)
}

#[test]
fn finish_ends_at_the_first_bug_that_is_news(rt: HostRuntime) {
    let mut handler = loud(rt.alloc());
    assert!(rt; ends_at_the_second(rt.alloc(), &mut handler));
    assert!(rt; handler.finish() == Ok(true));
    assert!(rt; handler.finish() == Ok(false));
    assert!(rt; holds(handler, "a\nb\n"));
}

#[test]
fn a_bug_is_printed_at_once_where_the_flags_say_so(rt: HostRuntime) {
    let mut handler = loud(rt.alloc());
    handler.flags.report_delayed_bugs = true;
    assert!(rt; delay_bug(rt.alloc(), &mut handler, "a").is_ok());
    assert!(rt; handler.err_count() == 1);
    assert!(rt; handler.finish() == Ok(true));
    assert!(rt; holds(handler, "a\n"));
}

fn count_is_a_bug(handler: &mut Handler<Lines>) -> bool {
    let error = handler.err("a").is_ok();
    handler.flags.treat_err_as_bug = true;
    error && handler.print_error_count() == Err(HandlerError::ExplicitBug)
}

#[test]
fn the_count_is_a_bug_where_errors_are(rt: HostRuntime) {
    let mut handler = loud(rt.alloc());
    assert!(rt; count_is_a_bug(&mut handler));
    assert!(rt; holds(handler, "a\naborting due to previous error\n"));
}
