//! What is drawn of spans under a line of their file.

use super::grids::{is, shown};
use crate::{
    At, Columns, Spot, StyledBuffer, Wide, bars_past, bars_to, by_lines, depth_of, ends_of,
    files_of, lay_out, marks_in, place_of, put_first, singles, spots_of, sum, under_line, wides_of,
};
use jsx_base::{BytePos, FileName, Globals, MultiSpan, SourceMap, Span, SpanLabel};
use std::alloc::{AllocError, Global};

// A file of two lines, whose first byte has place 1.
fn file(alloc: Global) -> Result<SourceMap, AllocError> {
    let mut map = SourceMap::new(alloc);
    let mut globals = Globals::new();
    let text = String::from_str(alloc, "f(\na)")?;
    if map
        .new_source_file(&mut globals, FileName::Anon, text)
        .is_err()
    {
        return Err(AllocError);
    }
    Ok(map)
}

fn from_to(lo: u32, hi: u32) -> Span {
    Span::new(BytePos(lo), BytePos(hi))
}

// All of it, and the `a`, which has a label.
fn spans(alloc: Global) -> Result<MultiSpan, AllocError> {
    let mut spans = MultiSpan::from_span(alloc, from_to(1, 6))?;
    spans.push_span_label(from_to(4, 5), String::from_str(alloc, "x")?)?;
    Ok(spans)
}

// Whether both lines are shown.
fn shows_both(
    alloc: Global,
    narrow: &[Spot<'_, '_>],
    lines: &[Spot<'_, '_>],
) -> Result<bool, AllocError> {
    let mut files = files_of(alloc, narrow, lines)?;
    put_first(&mut files, 1);
    Ok(match files.as_slice() {
        [file] => file.lines.as_slice() == [1, 2].as_slice(),
        _ => false,
    })
}

// Whether a bar stands beside a line, in the one column.
fn has_bar(alloc: Global, wides: &[Wide<'_, '_>], at: At<'_>) -> Result<bool, AllocError> {
    let bars = bars_to(alloc, wides, at)?;
    Ok(bars.as_slice() == [1].as_slice() && depth_of(wides) == 1)
}

fn under(
    alloc: Global,
    narrow: &[Spot<'_, '_>],
    wides: &[Wide<'_, '_>],
    at: At<'_>,
) -> Result<StyledBuffer, AllocError> {
    let marks = marks_in(alloc, narrow, wides, at)?;
    let placed = lay_out(alloc, &marks)?;
    let bars = bars_past(alloc, wides, at)?;
    under_line(alloc, Columns { bars: 3, code: 6 }, &bars, &placed)
}

// The rows under the second line, with a bar behind each run of one style: where the outer span ends,
// the `a`, and its label.
const UNDER: &str = "  || ||_|-|^|\n  || |  |||\n  || |  |x|\n";

// Whether the second line has its bar, and its rows.
fn is_drawn(
    alloc: Global,
    narrow: &[Spot<'_, '_>],
    wides: &[Wide<'_, '_>],
) -> Result<bool, AllocError> {
    let [spot] = narrow else {
        return Ok(false);
    };
    let second = At {
        file: spot.file,
        line: 2,
    };
    let mut buffer = under(alloc, narrow, wides, second)?;
    Ok(is(shown(alloc, &mut buffer), UNDER) && has_bar(alloc, wides, second)?)
}

fn are_drawn(alloc: Global, map: &SourceMap, labels: &[SpanLabel]) -> Result<bool, AllocError> {
    let spots = spots_of(alloc, map, labels)?;
    let narrow = singles(alloc, &spots)?;
    let lines = by_lines(alloc, &spots)?;
    let wides = wides_of(alloc, &lines)?;
    Ok(is_drawn(alloc, &narrow, &wides)? && shows_both(alloc, &narrow, &lines)?)
}

// Whether the first primary span begins in the first line, and the `a` is in the file.
fn are_found(map: &SourceMap, spans: &MultiSpan) -> bool {
    match place_of(map, spans) {
        Some(place) => place.line == 1 && ends_of(map, from_to(4, 5)).is_some(),
        None => false,
    }
}

fn two_spans(alloc: Global) -> Result<bool, AllocError> {
    let map = file(alloc)?;
    let spans = spans(alloc)?;
    let labels = spans.span_labels(alloc)?;
    Ok(are_found(&map, &spans) && are_drawn(alloc, &map, &labels)?)
}

#[test]
fn two_spans_are_drawn(rt: HostRuntime) {
    assert!(rt; two_spans(rt.alloc()) == Ok(true));
    assert!(rt; sum(1, 2) == Ok(3));
}
