//! Reports with many spans.

use super::cases::{Form, add_label, error_at, files, written};
use jsx_report::Diagnostic;
use std::alloc::{AllocError, Global};

// So many copies of a text, one behind the other.
fn repeated(alloc: Global, text: &str, n: usize) -> Result<String, AllocError> {
    let mut repeated = String::new(alloc);
    for _ in 0..n {
        repeated.push_str(text)?;
    }
    Ok(repeated)
}

// An error at the first byte, with a label at the begin of each of so many further lines.
fn labelled_lines(alloc: Global, len: u32, lines: u32) -> Result<Diagnostic, AllocError> {
    let mut report = error_at(alloc, (0, 1))?;
    let mut begin = 0_u32;
    for _ in 0..lines {
        begin = begin.saturating_add(len);
        add_label(alloc, &mut report, (begin, begin.saturating_add(1)), "x")?;
    }
    Ok(report)
}

// Its page.
fn page_of_lines(alloc: Global, line: &str, lines: u32) -> Result<String, AllocError> {
    let mut page = String::from_str(alloc, "error: m\n    --> x.js:1:1\n     |\n")?;
    for number in 1..=lines {
        let mark = if number == 1 { "^" } else { "- x" };
        let shown = format!(in alloc; "{number:<4} | {line}     | {mark}\n")?;
        page.push_str(shown.as_str())?;
    }
    page.push('\n')?;
    Ok(page)
}

// A megabyte: a thousand lines of 1,048 bytes, with a span on each.
fn thousand_lines(alloc: Global) -> Result<bool, AllocError> {
    let mut line = repeated(alloc, "a", 1047)?;
    line.push('\n')?;
    let text = repeated(alloc, line.as_str(), 1000)?;
    let map = files(alloc, (text.as_str(), ""))?;
    let report = labelled_lines(alloc, 1048, 999)?;
    let sink = written(alloc, &map, Form::Long, &report)?;
    let page = page_of_lines(alloc, line.as_str(), 1000)?;
    Ok(sink.bytes() == page.as_bytes())
}

// An error whose span has so many labels.
fn labels(alloc: Global, n: u32) -> Result<Diagnostic, AllocError> {
    let mut report = error_at(alloc, (4, 5))?;
    for _ in 0..n {
        add_label(alloc, &mut report, (4, 5), "x")?;
    }
    Ok(report)
}

// Ten thousand labels at one span: each in a row of its own, below a bar.
fn ten_thousand_labels(alloc: Global) -> Result<bool, AllocError> {
    let map = files(alloc, ("a = a;", ""))?;
    let sink = written(alloc, &map, Form::Long, &labels(alloc, 10_000)?)?;
    let front = "error: m\n --> x.js:1:5\n  |\n1 | a = a;\n  |     ^\n  |     |\n";
    let mut page = String::from_str(alloc, front)?;
    page.push_str(repeated(alloc, "  |     x\n", 10_000)?.as_str())?;
    page.push('\n')?;
    Ok(sink.bytes() == page.as_bytes())
}

#[test]
fn a_thousand_spans_in_a_megabyte(rt: HostRuntime) {
    assert!(rt; thousand_lines(rt.alloc()) == Ok(true));
}

#[test]
fn ten_thousand_labels_on_a_line(rt: HostRuntime) {
    assert!(rt; ten_thousand_labels(rt.alloc()) == Ok(true));
}
