//! What a sink gets.

use super::cases::{at, error_at, files};
use crate::{EmitterWriter, acquire_global_lock, with_emitter_writer};
use jsx_base::{MemSink, MultiSpan, SourceMap};
use jsx_report::{Diagnostic, EmitError, Emitter, Handler, HandlerFlags};
use std::alloc::{AllocError, Global};

const PAGE: &str = "error: m
 --> x.js:1:5
  |
1 | a = a;
  |     ^

";

fn is_page(sink: MemSink) -> bool {
    sink.bytes() == PAGE.as_bytes()
}

// Whether of two pages of one report the first goes out, to a sink whose second write fails.
fn two_pages(alloc: Global, map: &SourceMap, report: &Diagnostic, sink: MemSink) -> bool {
    let mut writer = EmitterWriter::new(alloc, sink, Some(map), false, true);
    let flags = HandlerFlags::default();
    let first = writer.emit(report, &flags);
    let second = writer.emit(report, &flags);
    let is_first = is_page(writer.into_sink());
    first == Ok(()) && second == Err(EmitError::WriteFault) && is_first
}

fn goes_out_in_one_write(alloc: Global) -> Result<bool, AllocError> {
    let sink = MemSink::new(alloc, &[1])?;
    let map = files(alloc, ("a = a;", ""))?;
    let report = error_at(alloc, (4, 5))?;
    Ok(two_pages(alloc, &map, &report, sink))
}

// Whether a handler writes the page of an error.
fn handled(alloc: Global, map: &SourceMap, span: MultiSpan, sink: MemSink) -> bool {
    let mut handler = with_emitter_writer(alloc, sink, Some(map));
    let answer = handler.span_err(span, "m");
    let is_written = is_page(handler.into_emitter().into_sink());
    answer.is_ok() && is_written
}

fn is_handled(alloc: Global) -> Result<bool, AllocError> {
    let sink = MemSink::new(alloc, &[])?;
    let map = files(alloc, ("a = a;", ""))?;
    let span = MultiSpan::from_span(alloc, at((4, 5)))?;
    Ok(handled(alloc, &map, span, sink))
}

const CLOSED: &str = "error: m
 --> x.js:1:5
  |
1 | a = a;
  |     ^

error: n

error: aborting due to 2 previous errors

";

// Whether one error that is reported twice counts once.
fn counts_once(
    handler: &mut Handler<EmitterWriter<MemSink, &SourceMap>>,
    span: MultiSpan,
    same: MultiSpan,
) -> bool {
    let first = handler.span_err(span, "m");
    let again = handler.span_err(same, "m");
    first.is_ok() && again.is_ok() && handler.err_count() == 1
}

// Whether another error, and how many there were, are printed.
fn closes(handler: &mut Handler<EmitterWriter<MemSink, &SourceMap>>) -> bool {
    let other = handler.err("n");
    let closing = handler.print_error_count();
    other.is_ok() && closing.is_ok()
}

// Whether a handler writes each error once, and how many there were.
fn counted(
    alloc: Global,
    map: &SourceMap,
    span: MultiSpan,
    same: MultiSpan,
    sink: MemSink,
) -> bool {
    let mut handler = with_emitter_writer(alloc, sink, Some(map));
    let is_counted = counts_once(&mut handler, span, same);
    let is_closed = closes(&mut handler);
    let sink = handler.into_emitter().into_sink();
    is_counted && is_closed && sink.bytes() == CLOSED.as_bytes()
}

fn is_counted(alloc: Global) -> Result<bool, AllocError> {
    let sink = MemSink::new(alloc, &[])?;
    let map = files(alloc, ("a = a;", ""))?;
    let span = MultiSpan::from_span(alloc, at((4, 5)))?;
    let same = MultiSpan::from_span(alloc, at((4, 5)))?;
    Ok(counted(alloc, &map, span, same, sink))
}

#[test]
fn a_page_is_one_write(rt: HostRuntime) {
    acquire_global_lock("pages");
    assert!(rt; goes_out_in_one_write(rt.alloc()) == Ok(true));
}

#[test]
fn a_handler_writes_pages(rt: HostRuntime) {
    assert!(rt; is_handled(rt.alloc()) == Ok(true));
}

#[test]
fn errors_are_printed_once_and_counted(rt: HostRuntime) {
    assert!(rt; is_counted(rt.alloc()) == Ok(true));
}
