//! The lines of a file, with what is drawn at them.

ghost use Rattle.std.specs.Prelude.{◌≡◌, ◌++◌, ◌∷◌, [], cond, map, take, codes, nat_eq, IfOk, MatchOption, OnOk, string_bytes};
ghost use Rattle.std.specs.List.{list_all};
ghost use Rattle.std.specs.Str.{chars};
ghost use Rattle.jsx_draw.specs.Annotation.{is_side, mark_of};
ghost use Rattle.jsx_emit.specs.Sheets.{bar_cell, bar_cells, block, columns_in, dots_row, gap, gap_before, gutter, line_blocks, line_row, marked_rows, number_in, slash_in, under_rows};
ghost use Rattle.jsx_draw.specs.Drawn.{bars_past};
ghost use Rattle.jsx_base.specs.SourceFile.{shared_file};
ghost use Rattle.std.specs.Char.{is_whitespace};
ghost use Rattle.jsx_draw.specs.Spots.{greatest};
ghost use Rattle.jsx_emit.specs.Page.{line_chars, rows_text};
ghost use Rattle.jsx_draw.specs.Views.{columns_of, shown_line};
ghost use Rattle.jsx_emit.specs.Views.{sheet_of};

use crate::page::Look;
use crate::page::labels::first;
use crate::page::numbers::number;
use crate::page::rows::{push_blanks, push_rows};
use crate::page::suggestions::push_row;
use jsx_base::SourceFile;
use jsx_draw::{
    Annotation, AnnotationType, At, Columns, Spot, StyledBuffer, Wide, bars_past, bars_to,
    draw_open, lay_out, marks_in, sum, under_line,
};
use jsx_report::Style;
use std::alloc::{AllocError, Global};
use std::rc::Rc;

/// What all lines of a report's part are drawn by.
#[derive(Clone, Copy)]
pub(super) struct Sheet<'s, 'm, 'l> {
    pub look: Look,
    /// How many cells the numbers of lines take.
    pub width: usize,
    /// How many columns of bars there are.
    pub depth: usize,
    pub singles: &'s [Spot<'m, 'l>],
    pub wides: &'s [Wide<'m, 'l>],
}

/// Adds lines of a file, with what stands between them.
pub(super) fn push_lines(
    alloc: Global,
    text: &mut String,
    sheet: Sheet<'_, '_, '_>,
    file: &Rc<SourceFile>,
    lines: &[usize],
) -> Result<(), AllocError>
    ensures { OnOk result (string_bytes text.new ≡ string_bytes text.old ++ rows_text (line_blocks (sheet_of sheet.entry) (shared_file file.now) lines.now)) }
{
    let mut left = lines;
    while let Some((line, more)) = first_of(left) {
        push_block(alloc, text, sheet, At { file, line })?;
        push_gap_before(alloc, text, sheet, file, line, more)?;
        left = more;
    }
    Ok(())
}

// The first line and those behind it.
fn first_of(lines: &[usize]) -> Option<(usize, &[usize])>
    ensures { MatchOption result (lines.now ≡ []) (λ it. lines.now ≡ it.0 ∷ it.1.now) }
{
    let (line, more) = lines.split_first()?;
    Some((*line, more))
}

// Adds what stands between a line and the next one, if there is one.
fn push_gap_before(
    alloc: Global,
    text: &mut String,
    sheet: Sheet<'_, '_, '_>,
    file: &Rc<SourceFile>,
    line: usize,
    more: &[usize],
) -> Result<(), AllocError>
    ensures { OnOk result (string_bytes text.new ≡ string_bytes text.old ++ rows_text (gap_before (sheet_of sheet.entry) (shared_file file.now) line more.now)) }
{
    let Some((next, _)) = first_of(more) else {
        return Ok(());
    };
    push_gap(alloc, text, sheet, file, line, next)
}

// Adds what stands between two lines: nothing, the one that is missing, or dots.
fn push_gap(
    alloc: Global,
    text: &mut String,
    sheet: Sheet<'_, '_, '_>,
    file: &Rc<SourceFile>,
    line: usize,
    next: usize,
) -> Result<(), AllocError>
    ensures { OnOk result (string_bytes text.new ≡ string_bytes text.old ++ rows_text (gap (sheet_of sheet.entry) (shared_file file.now) line next)) }
{
    let at = At {
        file,
        line: sum(line, 1)?,
    };
    let behind = sum(line, 2)?;
    if behind < next {
        return push_dots(alloc, text, sheet, at);
    }
    if behind == next {
        return push_between(alloc, text, sheet, at);
    }
    Ok(())
}

// Adds dots, with the bars of open spans.
fn push_dots(
    alloc: Global,
    text: &mut String,
    sheet: Sheet<'_, '_, '_>,
    at: At<'_>,
) -> Result<(), AllocError>
    ensures { OnOk result (string_bytes text.new ≡ string_bytes text.old ++ rows_text (dots_row (sheet_of sheet.entry) (shown_line at.entry))) }
{
    let bars = bars_past(alloc, sheet.wides, at)?;
    let mut buffer = StyledBuffer::new(alloc);
    buffer.puts(0, 0, "...", Style::LineNumber)?;
    draw_open(&mut buffer, sum(sheet.width, 2)?, 1, &bars)?;
    push_rows(text, &mut buffer)
}

// Adds a line between two others.
fn push_between(
    alloc: Global,
    text: &mut String,
    sheet: Sheet<'_, '_, '_>,
    at: At<'_>,
) -> Result<(), AllocError>
    ensures { OnOk result (string_bytes text.new ≡ string_bytes text.old ++ rows_text (line_row sheet.entry.look.ui_testing sheet.entry.width sheet.entry.depth (bars_past (sheet_of sheet.entry).wides (shown_line at.entry)) 0 (shown_line at.entry) ∷ [])) }
{
    let bars = bars_past(alloc, sheet.wides, at)?;
    push_line(alloc, text, sheet, &bars, 0, at)
}

// Adds a line, and what stands under it.
fn push_block(
    alloc: Global,
    text: &mut String,
    sheet: Sheet<'_, '_, '_>,
    at: At<'_>,
) -> Result<(), AllocError>
    ensures { OnOk result (string_bytes text.new ≡ string_bytes text.old ++ rows_text (block (sheet_of sheet.entry) (shown_line at.entry))) }
{
    let marks = marks_in(alloc, sheet.singles, sheet.wides, at)?;
    push_marked(alloc, text, sheet, &marks, at)
}

fn push_marked(
    alloc: Global,
    text: &mut String,
    sheet: Sheet<'_, '_, '_>,
    marks: &[Annotation],
    at: At<'_>,
) -> Result<(), AllocError>
    ensures { OnOk result (string_bytes text.new ≡ string_bytes text.old ++ rows_text (marked_rows (sheet_of sheet.entry) (map mark_of marks.now) (shown_line at.entry))) }
{
    let bars = bars_to(alloc, sheet.wides, at)?;
    let slash = slash_in(marks, source_of(at));
    push_line(alloc, text, sheet, &bars, slash, at)?;
    push_under(alloc, text, sheet, marks, slash, at)
}

// Adds what stands under a line.
fn push_under(
    alloc: Global,
    text: &mut String,
    sheet: Sheet<'_, '_, '_>,
    marks: &[Annotation],
    slash: usize,
    at: At<'_>,
) -> Result<(), AllocError>
    ensures { OnOk result (string_bytes text.new ≡ string_bytes text.old ++ rows_text (under_rows (sheet_of sheet.entry) (map mark_of marks.now) slash (shown_line at.entry))) }
{
    if slash != 0 || are_sides(marks) {
        return Ok(());
    }
    let bars = bars_past(alloc, sheet.wides, at)?;
    let placed = lay_out(alloc, marks)?;
    let mut buffer = under_line(alloc, columns_for(sheet)?, &bars, &placed)?;
    push_rows(text, &mut buffer)
}

// Whether no span begins or ends at a line.
fn are_sides(marks: &[Annotation]) -> bool
    ensures { result ≡ list_all (λ mark. is_side mark.kind) (map mark_of marks.now) }
{
    for mark in marks {
        if !mark.is_line() {
            return false;
        }
    }
    true
}

// Where bars and text stand.
fn columns_for(sheet: Sheet<'_, '_, '_>) -> Result<Columns, AllocError>
    ensures { IfOk result (λ at. columns_of at ≡ columns_in (sheet_of sheet.entry)) }
{
    let bars = sum(sheet.width, 2)?;
    if sheet.depth == 0 {
        return Ok(Columns {
            bars,
            code: sum(sheet.width, 3)?,
        });
    }
    Ok(Columns {
        bars,
        code: sum(sum(sheet.width, 4)?, sheet.depth)?,
    })
}

// The text of a line.
fn source_of<'m>(at: At<'m>) -> &'m str
    ensures { chars result.now ≡ line_chars (shown_line at.entry).file at.entry.line }
{
    match at.file.get_line(at.line.saturating_sub(1)) {
        Some(line) => line,
        None => "",
    }
}

// The column of a span that is the only one of its line and begins with its text, or 0.
fn slash_in(marks: &[Annotation], source: &str) -> usize
    ensures { result ≡ slash_in (map mark_of marks.now) (chars source.now) }
{
    let [mark] = marks else {
        return 0;
    };
    match &mark.annotation_type {
        AnnotationType::MultilineStart(depth) => {
            if is_blank(source, mark.start_col) {
                *depth
            } else {
                0
            }
        }
        _ => 0,
    }
}

// Whether the first n characters are white space.
fn is_blank(source: &str, n: usize) -> bool
    ensures { result ≡ list_all is_whitespace (take n (chars source.now)) }
{
    let mut rest = source;
    let mut left = n;
    while let Some((c, behind)) = first(rest) {
        if left == 0 {
            return true;
        }
        if !c.is_whitespace() {
            return false;
        }
        left -= 1;
        rest = behind;
    }
    true
}

// Adds a line's number, the bars, and its text.
fn push_line(
    alloc: Global,
    text: &mut String,
    sheet: Sheet<'_, '_, '_>,
    bars: &[usize],
    slash: usize,
    at: At<'_>,
) -> Result<(), AllocError>
    ensures { OnOk result (string_bytes text.new ≡ string_bytes text.old ++ rows_text (line_row sheet.entry.look.ui_testing sheet.entry.width sheet.entry.depth bars.now slash (shown_line at.entry) ∷ [])) }
{
    let source = source_of(at);
    let mut front = front_of(alloc, sheet, at.line)?;
    push_gutter(&mut front, sheet.depth, bars, slash, source)?;
    push_row(text, front.as_str(), source)
}

// A line's number, and a bar.
fn front_of(alloc: Global, sheet: Sheet<'_, '_, '_>, line: usize) -> Result<String, AllocError>
    ensures { IfOk result (λ text. string_bytes text ≡ number_in sheet.entry.look.ui_testing sheet.entry.width line ++ codes " |") }
{
    let mut text = number(alloc, sheet.look, line)?;
    let missing = sheet.width.saturating_sub(text.len());
    push_blanks(&mut text, missing)?;
    text.push_str(" |")?;
    Ok(text)
}

// Adds what stands between the bar and the text of a line: before an empty one no more than the last
// bar of a span.
fn push_gutter(
    text: &mut String,
    depth: usize,
    bars: &[usize],
    slash: usize,
    source: &str,
) -> Result<(), AllocError>
    ensures { OnOk result (string_bytes text.new ≡ string_bytes text.old ++ gutter depth bars.now slash (chars source.now)) }
{
    text.push_str(" ")?;
    if source.is_empty() {
        return push_bars(text, bars, slash, slash.max(greatest(bars)));
    }
    push_bars(text, bars, slash, depth)?;
    text.push_str(behind_bars(depth))
}

// What stands behind the columns of bars, if there are any.
fn behind_bars(depth: usize) -> &'static str
    ensures { result.now ≡ cond (nat_eq depth 0) [] (32 ∷ []) }
{
    if depth == 0 { "" } else { " " }
}

// Adds the cells of the first columns of bars.
fn push_bars(text: &mut String, bars: &[usize], slash: usize, n: usize) -> Result<(), AllocError>
    ensures { OnOk result (string_bytes text.new ≡ string_bytes text.old ++ bar_cells bars.now slash n) }
{
    for i in 0..n {
        text.push_str(bar_cell(bars, slash, i + 1))?;
    }
    Ok(())
}

// The cell of a column of bars: `/` where a span begins its line.
fn bar_cell(bars: &[usize], slash: usize, depth: usize) -> &'static str
    ensures { result.now ≡ bar_cell bars.now slash depth ∷ [] }
{
    if depth == slash {
        "/"
    } else if bars.contains(&depth) {
        "|"
    } else {
        " "
    }
}

fn greatest(bars: &[usize]) -> usize
    ensures { result ≡ greatest bars.now }
{
    let mut greatest = 0_usize;
    for depth in bars {
        greatest = greatest.max(*depth);
    }
    greatest
}
