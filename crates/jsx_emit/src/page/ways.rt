//! The lines that a suggestion writes.

ghost use Rattle.std.specs.Prelude.{◌≡◌, ◌+◌, ◌-◌, codes, cond, length, map, take, IfOk, OnOk, string_bytes};
ghost use Rattle.std.specs.Str.{chars};
ghost use Rattle.jsx_base.specs.Lines.{lines};
ghost use Rattle.jsx_diag.specs.Data.{edit_of};
ghost use Rattle.jsx_diag.specs.Splice.{spliced_data};
ghost use Rattle.jsx_diag.specs.declared.level.Style.TheVariants.{LineNumber, NoStyle};
ghost use Rattle.jsx_draw.specs.Grid.{in_style, put_cell, put_text};
ghost use Rattle.jsx_emit.specs.Written.{below_drawn, end_row, first_number, is_cut, next_row, others_text, sources_drawn, way_drawn, ways_below, ways_drawn};

use crate::page::Look;
use crate::page::part_marks::{draw_marks, has_marks};
use crate::page::sources::{Row, draw_source};
use crate::page::suggestions::{low, split_line};
use crate::{MAX_HIGHLIGHT_LINES, MAX_SUGGESTIONS};
use jsx_base::{BytePos, SourceMapper};
use jsx_draw::{StyledBuffer, sum};
use jsx_report::{Style, SubstitutionPart};
use std::alloc::{AllocError, Global};

/// Draws a bar in the second row, and the first lines of the first ways from the third on.
pub(super) fn draw_ways<M: SourceMapper>(
    alloc: Global,
    buffer: &mut StyledBuffer,
    cm: &M,
    look: Look,
    width: usize,
    ways: &[(String, Vec<SubstitutionPart>)],
) -> Result<(), AllocError>
    ensures { OnOk result (buffer.new ≡ ways_below look.ui_testing (M.files cm.now) width (map spliced_data ways.now) buffer.old) }
{
    if ways.is_empty() {
        return Ok(());
    }
    draw_bar(buffer, width, 1)?;
    draw_each(alloc, buffer, cm, look, width, ways)
}

// Draws the bar behind the numbers in a row.
fn draw_bar(buffer: &mut StyledBuffer, width: usize, row: usize) -> Result<(), AllocError>
    ensures { OnOk result (buffer.new ≡ put_cell row (width + 1) (124, LineNumber) buffer.old) }
{
    buffer.putc(row, sum(width, 1)?, '|', Style::LineNumber)
}

// Draws the first lines of the first ways, and how many others there are.
fn draw_each<M: SourceMapper>(
    alloc: Global,
    buffer: &mut StyledBuffer,
    cm: &M,
    look: Look,
    width: usize,
    ways: &[(String, Vec<SubstitutionPart>)],
) -> Result<(), AllocError>
    ensures { OnOk result (buffer.new ≡ ways_drawn look.ui_testing (M.files cm.now) width (length ways.now - 4) 2 (take 4 (map spliced_data ways.now)) buffer.old) }
{
    let mut row = 2_usize;
    for way in first_ways(ways) {
        row = draw_way(alloc, buffer, cm, look, width, row, way)?;
    }
    draw_others(alloc, buffer, row, ways.len())
}

// The ways that are shown.
fn first_ways(ways: &[(String, Vec<SubstitutionPart>)]) -> &[(String, Vec<SubstitutionPart>)]
    ensures { result.now ≡ take 4 ways.now }
{
    &ways[..ways.len().min(MAX_SUGGESTIONS)]
}

// Draws the first lines of a way from a row on, and answers in which row the next one begins.
fn draw_way<M: SourceMapper>(
    alloc: Global,
    buffer: &mut StyledBuffer,
    cm: &M,
    look: Look,
    width: usize,
    row: usize,
    way: &(String, Vec<SubstitutionPart>),
) -> Result<usize, AllocError>
    ensures drawn { OnOk result (buffer.new ≡ way_drawn look.ui_testing (M.files cm.now) width row (spliced_data way.now) buffer.old) }
    ensures next { IfOk result (λ next. next ≡ next_row row (spliced_data way.now).text) }
{
    let source = way.0.as_str();
    let line = line_of(cm, &way.1);
    let first = Row {
        look,
        width,
        row,
        line,
    };
    let end = draw_lines(alloc, buffer, first, source)?;
    draw_end(buffer, cm, width, end, source, &way.1)
}

// The line of the first part.
fn line_of<M: SourceMapper>(cm: &M, parts: &[SubstitutionPart]) -> usize
    ensures { result ≡ first_number (M.files cm.now) (map edit_of parts.now) }
{
    let Some(part) = parts.first() else {
        return 0;
    };
    match cm.lookup_char_pos(BytePos(low(part.span))) {
        Some(place) => place.line,
        None => 0,
    }
}

// The row below the first lines of a text, and whether some are left.
#[derive(Clone, Copy)]
struct End {
    row: usize,
    cut: bool,
}

// Draws the first lines of a text, each in a row of its own.
fn draw_lines(
    alloc: Global,
    buffer: &mut StyledBuffer,
    first: Row,
    source: &str,
) -> Result<End, AllocError>
    ensures drawn { OnOk result (buffer.new ≡ sources_drawn first.look.ui_testing first.width first.row first.line (take 6 (lines (chars source.now))) buffer.old) }
    ensures row { IfOk result (λ end. end.row ≡ end_row first.row (chars source.now)) }
    ensures cut { IfOk result (λ end. end.cut ≡ is_cut (chars source.now)) }
{
    let mut rest = source;
    let mut at = first;
    let mut count = 0_usize;
    while let Some((line, behind)) = split_line(rest) {
        if count == MAX_HIGHLIGHT_LINES {
            return Ok(End {
                row: at.row,
                cut: true,
            });
        }
        draw_source(alloc, buffer, at, line)?;
        at = below(at)?;
        rest = behind;
        count += 1;
    }
    if count == MAX_HIGHLIGHT_LINES {
        return Ok(End {
            row: at.row,
            cut: true,
        });
    }
    draw_source(alloc, buffer, at, rest)?;
    Ok(End {
        row: sum(at.row, 1)?,
        cut: false,
    })
}

// Where the next line is shown.
fn below(at: Row) -> Result<Row, AllocError>
    ensures { IfOk result (λ next. next ≡ record at { row = at.row + 1; line = at.line + 1 }) }
{
    Ok(Row {
        row: sum(at.row, 1)?,
        line: sum(at.line, 1)?,
        ..at
    })
}

// Draws what stands below the lines of a way: dots in the row of the next one where lines are left,
// else marks or a bar. It answers in which row the next one begins.
fn draw_end<M: SourceMapper>(
    buffer: &mut StyledBuffer,
    cm: &M,
    width: usize,
    end: End,
    source: &str,
    parts: &[SubstitutionPart],
) -> Result<usize, AllocError>
    ensures drawn { OnOk result (buffer.new ≡ cond end.cut (put_text end.row (width - 1) (in_style LineNumber (codes "...")) buffer.old) (below_drawn (M.files cm.now) width end.row (chars source.now) (map edit_of parts.now) buffer.old)) }
    ensures next { IfOk result (λ next. next ≡ end.row + cond end.cut 0 1) }
{
    if end.cut {
        buffer.puts(end.row, width.saturating_sub(1), "...", Style::LineNumber)?;
        return Ok(end.row);
    }
    draw_below(buffer, cm, width, end.row, source, parts)?;
    sum(end.row, 1)
}

// Draws what stands below all lines of a way: marks under what was put in, or a bar.
fn draw_below<M: SourceMapper>(
    buffer: &mut StyledBuffer,
    cm: &M,
    width: usize,
    row: usize,
    source: &str,
    parts: &[SubstitutionPart],
) -> Result<(), AllocError>
    ensures { OnOk result (buffer.new ≡ below_drawn (M.files cm.now) width row (chars source.now) (map edit_of parts.now) buffer.old) }
{
    if has_marks(source, parts) {
        draw_marks(buffer, cm, width, row, parts)
    } else {
        draw_bar(buffer, width, row)
    }
}

// Draws how many of so many ways aren't shown, if any.
fn draw_others(
    alloc: Global,
    buffer: &mut StyledBuffer,
    row: usize,
    ways: usize,
) -> Result<(), AllocError>
    ensures { OnOk result (buffer.new ≡ put_text row 0 (in_style NoStyle (chars (others_text (ways - 4)))) buffer.old) }
{
    let others = others_text(alloc, ways.saturating_sub(MAX_SUGGESTIONS))?;
    buffer.puts(row, 0, others.as_str(), Style::NoStyle)
}

// How many other ways there are, if any.
fn others_text(alloc: Global, others: usize) -> Result<String, AllocError>
    ensures { IfOk result (λ text. string_bytes text ≡ others_text others) }
{
    if others == 0 {
        return Ok(String::new(alloc));
    }
    format!(in alloc; "and {others} other candidates")
}
