//! Reports as data, and what is written for them.

use crate::EmitterWriter;
use jsx_base::{BytePos, FileName, Globals, MemSink, MultiSpan, SourceMap, Span};
use jsx_report::{Diagnostic, DiagnosticId, Emitter, HandlerFlags, Level};
use std::alloc::{AllocError, Global};

/// From one byte to another, from 0, of the text of `x.js`, a byte, and the text of `input.js`.
pub(super) type Bytes = (u32, u32);

/// How a page is made.
#[derive(Clone, Copy, PartialEq, Eq)]
pub(super) enum Form {
    Long,
    Short,
    /// Without numbers of lines and without places.
    Tested,
    WithoutFiles,
}

/// What is added to a report.
#[derive(Clone, Copy)]
pub(super) enum Extra {
    Code(&'static str),
    Lint(&'static str),
    Label(Bytes, &'static str),
    Note(&'static str),
    Help(&'static str),
    SpanNote(Bytes, &'static str),
    /// A text in place of a span, with a message.
    Way(Bytes, &'static str, &'static str),
    /// The same, of which the message alone is shown inline.
    ShortWay(Bytes, &'static str, &'static str),
    /// Several texts of which one is to be written.
    Ways(Bytes, &'static [&'static str]),
    /// Several texts that are written together.
    Parts(&'static [(Bytes, &'static str)]),
}

/// A report, and its page.
#[derive(Clone, Copy)]
pub(super) struct Case {
    /// The texts of `x.js` and `input.js`.
    pub files: (&'static str, &'static str),
    pub form: Form,
    pub level: Level,
    pub message: &'static str,
    pub span: Option<Bytes>,
    pub extras: &'static [Extra],
    pub page: &'static str,
}

pub(super) fn text(alloc: Global, text: &str) -> Result<String, AllocError> {
    String::from_str(alloc, text)
}

/// `x.js`, whose first byte has place 1, and `input.js` behind it.
pub(super) fn files(alloc: Global, texts: (&str, &str)) -> Result<SourceMap, AllocError> {
    let first = FileName::Real(text(alloc, "x.js")?);
    let second = FileName::Real(text(alloc, "input.js")?);
    let texts = (text(alloc, texts.0)?, text(alloc, texts.1)?);
    let mut map = SourceMap::new(alloc);
    let mut globals = Globals::new();
    if map.new_source_file(&mut globals, first, texts.0).is_err() {
        return Err(AllocError);
    }
    if map.new_source_file(&mut globals, second, texts.1).is_err() {
        return Err(AllocError);
    }
    Ok(map)
}

pub(super) fn at(bytes: Bytes) -> Span {
    Span {
        lo: BytePos(bytes.0.saturating_add(1)),
        hi: BytePos(bytes.1.saturating_add(1)),
    }
}

/// An error with the message `m` at a span.
pub(super) fn error_at(alloc: Global, bytes: Bytes) -> Result<Diagnostic, AllocError> {
    let mut report = Diagnostic::new(alloc, Level::Error, "m")?;
    set_span(alloc, &mut report, bytes)?;
    Ok(report)
}

fn set_span(alloc: Global, report: &mut Diagnostic, bytes: Bytes) -> Result<(), AllocError> {
    report.set_span(MultiSpan::from_span(alloc, at(bytes))?);
    Ok(())
}

pub(super) fn add_label(
    alloc: Global,
    report: &mut Diagnostic,
    bytes: Bytes,
    label: &str,
) -> Result<(), AllocError> {
    report.span_label(at(bytes), text(alloc, label)?)?;
    Ok(())
}

fn add_note(report: &mut Diagnostic, message: &str) -> Result<(), AllocError> {
    report.note(message)?;
    Ok(())
}

fn add_help(report: &mut Diagnostic, message: &str) -> Result<(), AllocError> {
    report.help(message)?;
    Ok(())
}

pub(super) fn add_span_note(
    alloc: Global,
    report: &mut Diagnostic,
    bytes: Bytes,
    message: &str,
) -> Result<(), AllocError> {
    report.span_note(MultiSpan::from_span(alloc, at(bytes))?, message)?;
    Ok(())
}

fn add_way(
    alloc: Global,
    report: &mut Diagnostic,
    bytes: Bytes,
    message: &str,
    way: &str,
) -> Result<(), AllocError> {
    report.span_suggestion(at(bytes), message, text(alloc, way)?)?;
    Ok(())
}

fn add_short_way(
    alloc: Global,
    report: &mut Diagnostic,
    bytes: Bytes,
    message: &str,
    way: &str,
) -> Result<(), AllocError> {
    report.span_suggestion_short(at(bytes), message, text(alloc, way)?)?;
    Ok(())
}

fn add_ways(
    alloc: Global,
    report: &mut Diagnostic,
    bytes: Bytes,
    ways: &[&str],
) -> Result<(), AllocError> {
    let mut texts = Vec::new(alloc);
    for way in ways {
        texts.push(text(alloc, way)?)?;
    }
    report.span_suggestions(at(bytes), "use", texts)?;
    Ok(())
}

fn add_parts(
    alloc: Global,
    report: &mut Diagnostic,
    parts: &[(Bytes, &str)],
) -> Result<(), AllocError> {
    let mut written = Vec::new(alloc);
    for part in parts {
        written.push((at(part.0), text(alloc, part.1)?))?;
    }
    report.multipart_suggestion("write", written)?;
    Ok(())
}

fn add(alloc: Global, report: &mut Diagnostic, extra: &Extra) -> Result<(), AllocError> {
    match extra {
        Extra::Code(code) => {
            report.code(DiagnosticId::Error(text(alloc, code)?));
            Ok(())
        }
        Extra::Lint(code) => {
            report.code(DiagnosticId::Lint(text(alloc, code)?));
            Ok(())
        }
        Extra::Label(bytes, label) => add_label(alloc, report, *bytes, label),
        Extra::Note(message) => add_note(report, message),
        Extra::Help(message) => add_help(report, message),
        Extra::SpanNote(bytes, message) => add_span_note(alloc, report, *bytes, message),
        Extra::Way(bytes, message, way) => add_way(alloc, report, *bytes, message, way),
        Extra::ShortWay(bytes, message, way) => {
            add_short_way(alloc, report, *bytes, message, way)
        }
        Extra::Ways(bytes, ways) => add_ways(alloc, report, *bytes, ways),
        Extra::Parts(parts) => add_parts(alloc, report, parts),
    }
}

// The report of a case.
fn report(alloc: Global, case: &Case) -> Result<Diagnostic, AllocError> {
    let mut report = Diagnostic::new(alloc, case.level, case.message)?;
    if let Some(bytes) = case.span {
        set_span(alloc, &mut report, bytes)?;
    }
    for extra in case.extras {
        add(alloc, &mut report, extra)?;
    }
    Ok(report)
}

/// What is written for a report.
pub(super) fn written(
    alloc: Global,
    map: &SourceMap,
    form: Form,
    report: &Diagnostic,
) -> Result<MemSink, AllocError> {
    let map = if form == Form::WithoutFiles {
        None
    } else {
        Some(map)
    };
    let sink = MemSink::new(alloc, &[])?;
    let writer = EmitterWriter::new(alloc, sink, map, form == Form::Short, true);
    let is_tested = form == Form::Tested;
    let mut writer = writer.ui_testing(is_tested).skip_filename(is_tested);
    if writer.emit(report, &HandlerFlags::default()).is_err() {
        return Err(AllocError);
    }
    Ok(writer.into_sink())
}

// Whether the page of a case is as written.
fn holds(alloc: Global, case: &Case) -> Result<bool, AllocError> {
    let map = files(alloc, case.files)?;
    let report = report(alloc, case)?;
    let sink = written(alloc, &map, case.form, &report)?;
    Ok(sink.bytes() == case.page.as_bytes())
}

/// How many of the first cases hold.
pub(super) fn held(alloc: Global, cases: &[Case]) -> usize {
    for (i, case) in cases.iter().enumerate() {
        if holds(alloc, case) != Ok(true) {
            return i;
        }
    }
    cases.len()
}
