//! What is marked at a line.

ghost use Rattle.std.specs.Prelude.{◌≡◌, ◌+◌, ◌-◌, ◌||◌, ◌++◌, ◌∷◌, [], cond, map, min, not, nat_eq, nat_lt, IfOk, OnOk};
ghost use Rattle.std.specs.List.{list_all, list_any, range_with_len};
ghost use Rattle.jsx_draw.specs.Annotation.{mark_of, multi_of};
ghost use Rattle.jsx_draw.specs.Drawn.{bars_past, bars_to, goes_past, goes_to, marks_in, multi_of_wide, single_mark, wide_at, wide_marks};
ghost use Rattle.jsx_draw.specs.Spots.{end_col, spot_lines, at_line};
ghost use Rattle.jsx_draw.specs.Views.{shown_line, spot_of, wide_of};

use crate::annotation::clone_label;
use crate::numbers::sum;
use crate::spots::Spot;
use crate::wides::Wide;
use crate::{Annotation, AnnotationType, MultilineAnnotation};
use jsx_base::SourceFile;
use std::alloc::{AllocError, Global};
use std::rc::Rc;

/// A line of a file, from 1.
#[derive(Clone, Copy)]
pub struct At<'m> {
    pub file: &'m Rc<SourceFile>,
    pub line: usize,
}

/// The marks of a line: its spans, and the parts of those over several lines.
pub fn marks_in(
    alloc: Global,
    singles: &[Spot<'_, '_>],
    wides: &[Wide<'_, '_>],
    at: At<'_>,
) -> Result<Vec<Annotation>, AllocError>
    ensures { IfOk result (λ marks. map mark_of marks.items ≡ marks_in (map spot_of singles.now) (map wide_of wides.now) (shown_line at.entry)) }
{
    let mut marks = Vec::new(alloc);
    for spot in singles {
        push_single(alloc, &mut marks, *spot, at)?;
    }
    for wide in wides {
        push_wide(alloc, &mut marks, *wide, at)?;
    }
    Ok(marks)
}

// Adds a span on one line, if this is its line.
fn push_single(
    alloc: Global,
    marks: &mut Vec<Annotation>,
    spot: Spot<'_, '_>,
    at: At<'_>,
) -> Result<(), AllocError>
    ensures { OnOk result (map mark_of marks.new.items ≡ map mark_of marks.old.items ++ map single_mark (at_line (shown_line at.entry) (spot_of spot.entry ∷ []))) }
{
    if spot.file.start_pos.0 == at.file.start_pos.0 && spot.first.line == at.line {
        marks.push(single(alloc, spot)?)?;
    }
    Ok(())
}

// A span on one line; one of no width takes a column.
fn single(alloc: Global, spot: Spot<'_, '_>) -> Result<Annotation, AllocError>
    ensures { IfOk result (λ mark. mark_of mark ≡ single_mark (spot_of spot.entry)) }
{
    Ok(Annotation {
        start_col: spot.first.col_display,
        end_col: end_col(spot)?,
        is_primary: spot.label.is_primary,
        label: clone_label(alloc, &spot.label.label)?,
        annotation_type: AnnotationType::Singleline,
    })
}

// The column behind a span.
fn end_col(spot: Spot<'_, '_>) -> Result<usize, AllocError>
    ensures { IfOk result (λ col. col ≡ end_col (spot_of spot.entry)) }
{
    if spot.first.col_display == spot.last.col_display {
        return sum(spot.first.col_display, 1);
    }
    Ok(spot.last.col_display)
}

// Adds the part of a span over several lines that is drawn at this line.
fn push_wide(
    alloc: Global,
    marks: &mut Vec<Annotation>,
    wide: Wide<'_, '_>,
    at: At<'_>,
) -> Result<(), AllocError>
    ensures { OnOk result (map mark_of marks.new.items ≡ map mark_of marks.old.items ++ wide_marks (shown_line at.entry) (wide_of wide.entry)) }
{
    if wide.spot.file.start_pos.0 != at.file.start_pos.0 {
        return Ok(());
    }
    push_part(alloc, marks, wide, at.line)
}

fn push_part(
    alloc: Global,
    marks: &mut Vec<Annotation>,
    wide: Wide<'_, '_>,
    line: usize,
) -> Result<(), AllocError>
    ensures { OnOk result (map mark_of marks.new.items ≡ map mark_of marks.old.items ++ wide_at line (wide_of wide.entry)) }
{
    let it = multi(alloc, wide)?;
    if line == it.line_start {
        if it.start_col == usize::MAX {
            return Err(AllocError);
        }
        marks.push(it.as_start())?;
    } else if line == it.line_end {
        marks.push(it.as_end(alloc)?)?;
    } else if is_shown(wide.spot, line) {
        marks.push(it.as_line())?;
    }
    Ok(())
}

// Whether a line of a span is shown: of one over several lines one of the first four, the one before
// the last, or the last.
fn is_shown(spot: Spot<'_, '_>, line: usize) -> bool
    ensures { result ≡ list_any (nat_eq line) (spot_lines (spot_of spot.entry)) }
{
    if spot.is_single() {
        return line == spot.first.line;
    }
    is_begun(spot.first.line, spot.last.line, line)
        || is_ending(spot.first.line, spot.last.line, line)
}

// Whether a line is one of the first four.
fn is_begun(first: usize, last: usize, line: usize) -> bool
    ensures { result ≡ list_any (nat_eq line) (range_with_len first (min (first + 4) last - first)) }
{
    if line < first {
        return false;
    }
    line - first < 4 && line < last
}

// Whether a line is the one before the last, and not one of the first, or the last.
fn is_ending(first: usize, last: usize, line: usize) -> bool
    ensures { result ≡ (list_any (nat_eq line) (cond (nat_lt (first + 4) (last - 1)) ((last - 1) ∷ []) []) || nat_eq line last) }
{
    is_next_to_last(first, last, line) || line == last
}

// Whether a line is the one before the last, and not one of the first.
fn is_next_to_last(first: usize, last: usize, line: usize) -> bool
    ensures { result ≡ list_any (nat_eq line) (cond (nat_lt (first + 4) (last - 1)) ((last - 1) ∷ []) []) }
{
    let next = last.saturating_sub(1);
    is_far(first, next) && line == next
}

// Whether a line is more than four lines below another.
fn is_far(first: usize, next: usize) -> bool
    ensures { result ≡ nat_lt (first + 4) next }
{
    first < next && next - first > 4
}

fn multi(alloc: Global, wide: Wide<'_, '_>) -> Result<MultilineAnnotation, AllocError>
    ensures { IfOk result (λ it. multi_of it ≡ multi_of_wide (wide_of wide.entry)) }
{
    Ok(MultilineAnnotation {
        depth: wide.depth,
        line_start: wide.spot.first.line,
        line_end: wide.spot.last.line,
        start_col: wide.spot.first.col_display,
        end_col: wide.spot.last.col_display,
        is_primary: wide.spot.label.is_primary,
        label: clone_label(alloc, &wide.spot.label.label)?,
    })
}

/// The columns of the bars beside a line, where a span ends too.
pub fn bars_to(alloc: Global, wides: &[Wide<'_, '_>], at: At<'_>) -> Result<Vec<usize>, AllocError>
    ensures { IfOk result (λ bars. bars.items ≡ bars_to (map wide_of wides.now) (shown_line at.entry)) }
{
    let mut bars = Vec::new(alloc);
    for wide in wides {
        push_if(&mut bars, wide.depth, goes_to(*wide, at))?;
    }
    Ok(bars)
}

/// The columns of the bars below a line.
pub fn bars_past(
    alloc: Global,
    wides: &[Wide<'_, '_>],
    at: At<'_>,
) -> Result<Vec<usize>, AllocError>
    ensures { IfOk result (λ bars. bars.items ≡ bars_past (map wide_of wides.now) (shown_line at.entry)) }
{
    let mut bars = Vec::new(alloc);
    for wide in wides {
        push_if(&mut bars, wide.depth, goes_past(*wide, at))?;
    }
    Ok(bars)
}

fn push_if(bars: &mut Vec<usize>, depth: usize, is_wanted: bool) -> Result<(), AllocError>
    ensures { OnOk result (bars.new.items ≡ bars.old.items ++ cond is_wanted (depth ∷ []) []) }
{
    if is_wanted {
        bars.push(depth)?;
    }
    Ok(())
}

// Whether a span begins before a line and ends there or later.
fn goes_to(wide: Wide<'_, '_>, at: At<'_>) -> bool
    ensures { result ≡ goes_to (shown_line at.entry) (wide_of wide.entry) }
{
    wide.spot.file.start_pos.0 == at.file.start_pos.0
        && wide.spot.first.line < at.line
        && at.line <= wide.spot.last.line
}

// Whether a span begins before a line and ends later.
fn goes_past(wide: Wide<'_, '_>, at: At<'_>) -> bool
    ensures { result ≡ goes_past (shown_line at.entry) (wide_of wide.entry) }
{
    wide.spot.file.start_pos.0 == at.file.start_pos.0
        && wide.spot.first.line < at.line
        && at.line < wide.spot.last.line
}
