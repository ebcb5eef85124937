//! Files whose mapper shows another span in place of one that a macro made.

use super::cases::{add_span_note, at, error_at, files};
use crate::EmitterWriter;
use jsx_base::{
    BytePos, FileLines, FileName, LinesError, Loc, MemSink, SourceMap, SourceMapper, Span,
};
use jsx_report::{Diagnostic, EmitError, Emitter, HandlerFlags};
use std::alloc::{AllocError, Global};

/// The files of another mapper, where each span is shown at one place.
#[derive(Drop)]
struct Moving<M> {
    map: M,
    to: Span,
}

impl<M: SourceMapper> SourceMapper for Moving<M> {
    ghost files = { λ it. M.files it.map };

    ghost call_span = { λ it _. it.to };

    ghost offset_line = { λ it. M.offset_line it.map };

    fn lookup_char_pos(&self, pos: BytePos) -> Option<Loc<'_>> {
        self.map.lookup_char_pos(pos)
    }

    fn span_to_filename(&self, alloc: Global, sp: Span) -> Result<FileName, AllocError> {
        self.map.span_to_filename(alloc, sp)
    }

    fn span_to_lines(&self, alloc: Global, sp: Span) -> Result<FileLines, LinesError> {
        self.map.span_to_lines(alloc, sp)
    }

    fn span_to_string(&self, alloc: Global, sp: Span) -> Result<String, AllocError> {
        self.map.span_to_string(alloc, sp)
    }

    fn span_to_snippet(&self, alloc: Global, sp: Span) -> Result<String, LinesError> {
        self.map.span_to_snippet(alloc, sp)
    }

    fn merge_spans(&self, sp_lhs: Span, sp_rhs: Span) -> Option<Span> {
        self.map.merge_spans(sp_lhs, sp_rhs)
    }

    fn call_span_if_macro(&self, _sp: Span) -> Span {
        self.to
    }

    fn doctest_offset_line(&self, line: usize) -> usize {
        self.map.doctest_offset_line(line)
    }

    ghost in_order = { λ it. M.in_order it.map };
}

// What is written for a report.
fn written<M: SourceMapper>(
    alloc: Global,
    map: &M,
    report: &Diagnostic,
    flags: &HandlerFlags,
    sink: MemSink,
) -> (Result<(), EmitError>, MemSink) {
    let mut writer = EmitterWriter::new(alloc, sink, Some(map), false, true);
    let answer = writer.emit(report, flags);
    (answer, writer.into_sink())
}

const MOVED: &str = "error: m
 --> x.js:1:3
  |
1 | a = a;
  |   ^
  |
note: n
 --> x.js:1:3
  |
1 | a = a;
  |   ^
  = note: this error originates in a macro outside of the current crate (in Nightly builds, run with -Z external-macro-backtrace for more info)

";

const NOT_MOVED: &str = "error: m
 --> x.js:1:1
  |
1 | a = a;
  | ^
  |
note: n
 --> x.js:1:5
  |
1 | a = a;
  |     ^

";

// An error at the first `a`, with a note at the second.
fn report(alloc: Global) -> Result<Diagnostic, AllocError> {
    let mut report = error_at(alloc, (0, 1))?;
    add_span_note(alloc, &mut report, (4, 5), "n")?;
    Ok(report)
}

// Whether this page is written where each span is shown at the `=`.
fn is_written(alloc: Global, backtrace: bool, page: &str) -> Result<bool, AllocError> {
    let flags = HandlerFlags {
        external_macro_backtrace: backtrace,
        ..HandlerFlags::default()
    };
    let sink = MemSink::new(alloc, &[])?;
    let map = files(alloc, ("a = a;", ""))?;
    let report = report(alloc)?;
    let moving = Moving {
        map: &map,
        to: at((2, 3)),
    };
    let (answer, sink) = written(alloc, &moving, &report, &flags, sink);
    Ok(answer.is_ok() && sink.bytes() == page.as_bytes())
}

#[test]
fn spans_of_macros_move_unless_all_calls_are_shown(rt: HostRuntime) {
    assert!(rt; is_written(rt.alloc(), false, MOVED) == Ok(true));
    assert!(rt; is_written(rt.alloc(), true, NOT_MOVED) == Ok(true));
}
